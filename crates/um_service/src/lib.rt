//! The effects of each event on a unit, exactly by the service table: the unit, the actions on its processes, and the changes of its jobs.
//! If memory is wanting, nothing changes.
#![tactic(auto)]

mod actions;
mod change;
mod ends;
mod laws;
mod rest;
mod service;
mod settings;
mod start;
mod starting;
mod stop;
mod table;

pub use actions::Action;
pub use ends::has_one_command;
pub use laws::{
    a_process_is_kept, an_order_has_one_list_of_actions, new_numbers_are_the_next,
    the_next_number_stays_small, what_a_command_is_started_with_is_found,
};
pub use service::{Actions, Service};
pub use starting::Start;
pub use um_model::{
    Around, CommandList, NextNumber, Order, ProcessNumber, StartJob, UnitEvent, UnitKind, UnitState,
};
pub use um_unit::ServiceSettings;
