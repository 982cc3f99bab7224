//! The state of units, as a person reads it: rows of a table, the lines after a row, and whether a unit has reached
//! its goal. All are functions of a manager's replies.
#![tactic(auto)]

mod details;
mod ends;
mod in_hand;
mod jobs;
mod row;
mod standing;
mod unit;

pub use details::details_of;
pub use ends::{LastEnd, last_end};
pub use in_hand::files_given;
pub use row::{Row, row_of, table_text};
pub use standing::{Goal, Standing, standing_line, standing_of};
pub use unit::{UnitShown, unit_shown};
