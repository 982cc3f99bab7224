//! The fates of processes, as inputs: which numbers are live, which of them are queried with a claim, and the inputs
//! that follow from the fates reported.
#![tactic(auto)]

mod fates;
mod live;
mod marks;

pub use fates::{claim_all, hear, put};
pub use live::{is_in, is_live, live_numbers};
pub use marks::Marks;
