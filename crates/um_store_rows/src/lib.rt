//! Worked rows of the store: disk and bytes, the small layers, and the keeper with the disks that a crash leaves of it,
//! by their public calls alone.
#![tactic(auto)]

#[cfg(test)]
mod answers;
#[cfg(test)]
mod bytes;
#[cfg(test)]
mod filedisk;
#[cfg(test)]
mod input;
#[cfg(test)]
mod inputs;
#[cfg(test)]
mod inspecting;
#[cfg(test)]
mod keepers;
#[cfg(test)]
mod limit;
#[cfg(test)]
mod listing;
#[cfg(test)]
mod log;
mod marks;
#[cfg(test)]
mod midway;
#[cfg(test)]
mod older;
#[cfg(test)]
mod opening;
#[cfg(test)]
mod order;
#[cfg(test)]
mod parts;
#[cfg(test)]
mod refusal;
#[cfg(test)]
mod rewriting;
#[cfg(test)]
mod sector;
#[cfg(test)]
mod slot;
#[cfg(test)]
mod spelled;
#[cfg(test)]
mod state;
#[cfg(test)]
mod stepping;
#[cfg(test)]
mod submitting;
#[cfg(test)]
mod timer;
#[cfg(test)]
mod uncounted;
