//! The bytes that are put out for the clients of a gate and not taken by them yet.
#![tactic(auto)]

mod backlog;
mod waiting;

pub use backlog::Backlog;
pub use waiting::Waiting;
