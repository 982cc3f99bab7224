//! The window in which the starts of a unit are counted.

use crate::time::Moment;

/// The starts that a window counted.
#[derive(Clone, Copy, Debug, PartialEq, Eq)]
pub struct Counted {
    /// The moment of the first one.
    pub began: Moment,
    /// How many there were.
    pub count: u32,
}
