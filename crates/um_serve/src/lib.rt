//! Serving: rounds of an accept, a read of each open connection, a turn of the manager, and the writes of its output.
#![tactic(auto)]

mod blanks;
mod deadlines;
mod laws;
mod listening;
mod pace;
mod rounds;
mod starting;

pub use laws::{
    a_blocked_deadline_wakes_nobody, a_turn_that_leaves_the_clock_changed_nothing,
    any_calls_go_on_with_a_client, each_client_is_served, no_deadline_is_slept_past,
    nothing_is_served_behind_a_lost_read, rounds_join, what_a_client_reads_was_told,
};
pub use pace::pause;
pub use rounds::{Buffered, serve};
pub use starting::has_run_nothing;
