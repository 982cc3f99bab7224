//! Checks unit files on a disk before any manager has them: each reason why a unit can't be loaded and each line
//! without effect, by file and line.
#![tactic(auto)]

mod fault;
mod finding;
mod folder;
mod given;
mod laws;
mod marking;
mod obstacle;
mod places;
mod reasons;
mod seeking;
mod spots;
mod starts;
mod units;

pub use fault::VerifyFault;
pub use finding::Finding;
pub use folder::{collect, collect_layers};
pub use laws::{all_assignments_are_looked_through, the_first_refused_key_is_told};
pub use places::Collected;
pub use reasons::{Looked, look_at};
pub use units::{verify, verify_files};
