//! The basics of every reader of text: classes of ASCII characters, runs of a class, and texts without the spaces and
//! tabs at their ends; and the law of texts that stand for others piece by piece.
#![tactic(auto)]

mod classes;
mod laws;
mod trimming;

pub use classes::{Class, split_run};
pub use laws::{a_text_of_pieces_has_one_reading, trimming_at_the_end, trimming_in_front};
pub use trimming::{is_blank, trim, trim_end, trim_start};
