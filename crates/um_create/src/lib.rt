//! New stores: a new file of exactly the sectors of a layout, with the store of the empty state in it.
#![tactic(auto)]

mod create;
mod fault;

pub use create::create_store;
pub use fault::CreateFault;
pub use um_model::Layout;
