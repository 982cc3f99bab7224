//! Everything that a store can be refused is refused, one call after another, and what must hold is asserted each time; beside it the rows and lives that
//! `um_in_turn` plays over children and clients as well.
#![tactic(auto)]

pub mod alone;
pub mod crash;
pub mod disk;
pub mod lives;
pub mod rows;
pub mod scripts;
pub mod stores;
pub mod wrong;
