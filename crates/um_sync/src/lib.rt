//! A folder of unit files and a manager's tree: the record of the files that were put, kept beside them, and the
//! steps to put and remove files now.
#![tactic(auto)]

mod ledger;
mod line;
mod mark;
mod plan;

pub use ledger::Ledger;
pub use mark::Mark;
pub use plan::{Action, Step, steps_of};
