//! The start limit of a unit: a start is let through and counted, or refused, as the window of its earlier starts says.
#![tactic(auto)]

mod window;

pub use um_model::Counted;
pub use window::{Window, a_refused_start_changes_nothing};
