//! The engine over a disk: its answers outlive a crash.
//!
//! If a call is refused, a large value is released by `drop`. That is one call, while the compiler writes a step for
//! each field at each way out, each of which is proved.
#![tactic(auto)]

mod ahead;
mod batch;
mod creating;
mod inspecting;
mod keeper;
pub mod laws;
mod opening;
mod receipt;
mod recording;
mod snapshot;
mod step;

pub use creating::create;
pub use inspecting::{Summary, inspect, look};
pub use keeper::{Keeper, OpenedStore, Uncounted};
pub use receipt::{Handed, Receipt, SpawnOrder};
