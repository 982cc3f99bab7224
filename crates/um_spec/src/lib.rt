//! Specifiers: a text with `%` and a letter in it is expanded exactly if it stands for another text, under the name
//! of a unit.
#![tactic(auto)]

mod expansion;
mod laws;

pub use expansion::expand;
pub use laws::{a_text_has_one_expansion, each_expansion_is_found};
