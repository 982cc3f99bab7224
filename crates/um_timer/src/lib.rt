//! Timers of units: a finite map from unit names to deadlines, and which of them is due first.
#![tactic(auto)]

mod timers;

pub use timers::{Timers, one_timer_is_due_first};
