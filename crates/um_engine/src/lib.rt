//! The engine: `plan` and `commit` are one step of the machine for each input, `back` takes a step back, and `query` answers
//! from the state alone.
#![tactic(auto)]

mod between;
mod commands;
mod engine;
mod happenings;
mod jobs;
mod known;
mod laws;
mod loading;
mod memory;
mod numbered;
mod planning;
mod resetting;
mod restarting;
mod room;
mod same;
mod served;
mod settling;

pub use engine::{Back, Engine, Next};
pub use laws::{
    a_finished_job_is_not_repeated, a_job_that_begins_was_ready, a_query_has_one_reply,
    a_run_has_one_end, a_step_has_one_outcome, a_step_leads_to_a_state_that_has_bytes,
    a_step_leaves_a_state_that_a_store_may_hold, a_store_may_hold_the_empty_state,
    an_input_that_is_not_refused_is_short, each_input_has_a_step, each_state_has_one_weight,
    no_more_units_are_known_than_may_be, no_number_is_started_twice,
    nothing_is_held_in_the_empty_state, numbers_rise, runs_join, the_bytes_of_a_state_have_room,
    the_machine_is_never_stuck, the_pending_jobs_have_no_cycle,
    what_happens_never_raises_the_weight,
};
