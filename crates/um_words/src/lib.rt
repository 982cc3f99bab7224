//! Texts as words and commands, and variables in them: each call returns the one reading that a text has, or shows
//! that there is none.
#![tactic(auto)]

mod command;
mod counting;
mod laws;
mod room;
mod spelling;
mod splitting;
mod substitution;
mod values;
mod variables;
mod word;

pub use command::{Command, commands, is_executable_word};
pub use counting::room_after;
pub use laws::{
    a_substitution_has_one_result, a_substitution_is_found, a_word_is_found_as_it_is_spelled,
    commands_have_one_reading, each_reading_is_found, each_value_has_words, words_have_one_reading,
};
pub use room::Room;
pub use splitting::{names, words};
pub use substitution::substitute;
pub use variables::{Variable, is_variable_name};
