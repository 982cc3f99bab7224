//! The manager's inputs, replies, actions and state, each with its view as a value of the definitions.
#![tactic(auto)]

mod awaited;
mod boot;
mod delta;
mod due;
mod finder;
mod fitting;
mod input;
mod input_bytes;
mod job_bytes;
mod laws;
mod live;
mod maps;
mod named;
mod overlay;
mod reply;
mod row;
mod rows;
mod shared_tree;
mod state;
mod state_bytes;
mod unit_bytes;
mod units;
mod work;

pub use boot::BootId;
pub use delta::Delta;
pub use input::{Command, Event, Happening, Input, Query};
pub use laws::{
    a_spelled_state_is_read_again, a_state_that_is_read_is_spelled_so, an_accepted_input_is_short,
    each_input_has_a_spelling, each_state_of_a_run_has_a_spelling,
    no_spelling_of_a_run_is_longer_than_the_weight, no_spelling_of_a_state_begins_another,
    no_state_is_read_only_where_none_is, pending_jobs_are_told_apart_by_look_ups,
    the_empty_state_has_a_spelling, units_are_told_apart_by_look_ups,
};
pub use reply::{JobShown, Reply, UnitListed, UnitShown};
pub use row::{Numbered, Row};
pub use state::State;
pub use um_service::{Action, Start};
pub use units::{Pending, Units};
pub use work::Work;
