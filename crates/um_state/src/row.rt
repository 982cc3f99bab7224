//! A row of a state: one unit and its pending jobs.

use um_model::{UnitJobs, UnitState};
use um_name::Names;

/// How the unit with this number stands, and its pending jobs.
#[derive(Clone, Copy)]
pub struct Row {
    pub number: usize,
    pub unit: UnitState,
    pub jobs: UnitJobs,
}

/// The rows of a state, and the names that they have.
#[derive(Clone, Copy)]
pub struct Numbered<'s> {
    pub names: &'s Names,
    pub units: &'s [UnitState],
    pub jobs: &'s [UnitJobs],
}
