//! Worked rows of texts and units: the results of the layers from trimming to a loaded unit, by their public functions alone.
#![tactic(auto)]

#[cfg(test)]
mod answers;
#[cfg(test)]
mod install;
#[cfg(test)]
mod name;
#[cfg(test)]
mod resolve;
#[cfg(test)]
mod spec;
#[cfg(test)]
mod syntax;
#[cfg(test)]
mod text;
#[cfg(test)]
mod tree;
#[cfg(test)]
mod unit;
#[cfg(test)]
mod value;
#[cfg(test)]
mod words;
