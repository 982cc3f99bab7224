//! Processes under numbers: the calls on them and the fates they report, in memory for tests, and through a runner for
//! each process.
#![tactic(auto)]

mod call;
mod children;
mod commands;
mod fake;
mod fault;
mod output;
mod places;
mod removal;
mod runner_dir;
mod shells;
mod silence;
mod standing;
mod trouble;
mod watch;

pub use call::Call;
pub use children::Children;
pub use fake::FakeChildren;
pub use fault::ChildFault;
pub use places::{OpenFault, take_folder};
pub use runner_dir::RunnerDir;
pub use trouble::Cause;
pub use um_model::{End, Fate, NextNumber, ProcessNumber, Signal};
