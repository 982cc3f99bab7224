//! Worked rows of the protocol, from bytes to bytes as the program serves them, and of the machine's layers by their public functions.
#![tactic(auto)]

#[cfg(test)]
mod answers;
#[cfg(test)]
mod bindings;
#[cfg(test)]
mod changed_rows;
#[cfg(test)]
mod commands;
#[cfg(test)]
mod continuations;
#[cfg(test)]
mod devices;
#[cfg(test)]
mod enabling;
#[cfg(test)]
mod engine;
#[cfg(test)]
mod first_path;
#[cfg(test)]
mod framing;
#[cfg(test)]
mod jobs;
#[cfg(test)]
mod known_units;
#[cfg(test)]
mod limits;
#[cfg(test)]
mod lines;
#[cfg(test)]
mod one_service;
#[cfg(test)]
mod plans;
#[cfg(test)]
mod profiles;
#[cfg(test)]
mod proto;
#[cfg(test)]
mod refusals;
#[cfg(test)]
mod renewals;
#[cfg(test)]
mod restarts;
#[cfg(test)]
mod script;
#[cfg(test)]
mod service;
#[cfg(test)]
mod services;
#[cfg(test)]
mod session;
#[cfg(test)]
mod start_pre;
#[cfg(test)]
mod state;
#[cfg(test)]
mod steps;
#[cfg(test)]
mod texts;
#[cfg(test)]
mod unit_files;
