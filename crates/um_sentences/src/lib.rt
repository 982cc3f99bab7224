//! The meaning of numbers and words in replies to a person, in a sentence each: the six warnings, the reasons of `E6
//! BadSetting` with each key that no unit may have, and the results of units.
#![tactic(auto)]

mod help;
mod keys;
mod laws;
mod lines;
mod topics;
mod warnings;

pub use help::{reason_lines, topic_help};
pub use keys::{key_sentence, key_why};
pub use laws::{each_reason_has_a_sentence, each_refused_key_has_a_sentence};
pub use lines::{further_command, no_command, restart_sentence, type_sentence, warning_at};
pub use topics::{Topic, topic_named};
pub use warnings::warning_sentence;
