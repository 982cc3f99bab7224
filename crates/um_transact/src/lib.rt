//! The pending jobs after a transaction, or the first cause for which it is refused: exactly by the definitions of demands and plans, for
//! the units of a graph.
#![tactic(auto)]

mod checks;
mod demands;
mod order;
mod plan;
mod refusals;
mod walk;

pub use order::check_pending;
pub use plan::{Plan, Transaction, build};
pub use refusals::check_start;
