//! The syntax of unit files: each text has one reading, as heads of sections, assignments and warnings in the order
//! of their lines, and only a failed allocation is an error.
#![tactic(auto)]

mod items;
mod joiner;
mod laws;
mod lines;
mod statements;

pub use items::{Item, Span, parse};
pub use laws::{
    each_text_has_a_reading, lines_rise, one_reading, reading_is_computed, sections_fit,
};
pub use um_model::WarningKind;
