//! The assertions of rows: the comparisons as functions, and the words in which a test says them as macros. No function of a library may end
//! the process; a macro's text is a part of the test that it stands in, and so may.
#![tactic(auto)]

mod framing;
mod made;
mod places;
mod refusals;
mod values;

pub use framing::{frames, push_frame};
pub use places::place;
pub use refusals::printed;
pub use um_name::UnitName;
pub use values::{Mismatch, MismatchAt, compared, compared_at};
