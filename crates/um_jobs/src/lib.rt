//! The jobs of units: the changes of one unit's jobs, and which of the pending jobs of a graph's units begins next.
#![tactic(auto)]

mod counts;
mod jobs;
mod laws;
mod least;
mod marks;
mod rows;
mod table;

pub use jobs::Jobs;
pub use laws::one_ready_job_is_the_least;
pub use table::{
    drops_one, has_waiting, is_active, is_waiting, jobs_for, jobs_left, jobs_of, without_start,
};
