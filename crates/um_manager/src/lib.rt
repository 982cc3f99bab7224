//! The running manager: one loop over a store, children and clients. A turn hears the fates of processes, takes the
//! pieces that arrived on each connection, and offers all of it to the store in one list. Then it carries out the
//! actions of the receipts, puts out the replies, and writes the next part of a snapshot under way.
#![tactic(auto)]

mod connection;
mod laws;
mod manager;
mod opening;
mod orders;
mod paying;
mod pieces;
mod round;
mod script;
mod submitting;
mod taking;

pub use connection::{CONNECTIONS, Connection};
pub use laws::{
    a_service_manager_outlives_crashes, each_connection_is_served, what_a_crash_leaves,
    what_was_done_is_a_life,
};
pub use manager::{Manager, Output};
pub use pieces::{Piece, Pieces};
pub use script::Step;
