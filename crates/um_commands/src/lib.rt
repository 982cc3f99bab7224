//! The commands for a manager that serves, and for folders of unit files: `ctl`, `status`, `logs`, `verify`, `sync`.
#![tactic(auto)]

mod answers;
mod controlling;
mod logging;
mod showing;
mod surroundings;
mod syncing;
mod verifying;
mod waiting;

pub use answers::put_text;
pub use controlling::ctl;
pub use logging::logs;
pub use showing::show_units;
pub use surroundings::Surroundings;
pub use syncing::sync;
pub use verifying::verify;
