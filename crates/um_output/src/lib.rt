//! The output of the processes of units, kept in a folder: a file per process, by its unit and number, a line for
//! each end, and the printing of all that.
#![tactic(auto)]

mod cutting;
mod ends;
mod fault;
mod files;
mod kept;
mod laws;
mod lines;
mod log;
mod outputs;
mod reading;
mod showing;
mod unit_folder;

pub use ends::{Ended, end_line};
pub use fault::{Failure, OpenFault};
pub use laws::what_is_printed_misleads_nobody;
pub use log::{Log, LogFault};
pub use outputs::Outputs;
pub use showing::printed;
