//! The dependencies and the order of all known units of a tree, numbered by their names: exactly those that the definitions
//! give.
#![tactic(auto)]

mod count;
mod edges;
mod entries;
mod graph;
mod kinds;
mod known;
mod lists;
mod resolved;
mod row;
mod told;
mod units;

pub use count::{count_of, known_units};
pub use graph::Graph;
pub use kinds::{Kinds, inverse_of, kinds_of};
pub use row::Neighbour;
pub use told::loadable;
