//! The values of settings. Each text is read, as a truth value, a number, a time span, a set of exits or a restart
//! policy, exactly if it has such a reading; that takes no memory.
#![tactic(auto)]

mod booleans;
mod exits;
mod laws;
mod numbers;
mod policies;
mod spans;
mod tables;

pub use booleans::boolean;
pub use exits::{ExitSet, exit_set};
pub use laws::{a_value_has_one_reading, each_value_is_found};
pub use numbers::number;
pub use policies::restart;
pub use spans::span;
pub use um_model::{RestartPolicy, TimeSpan};
