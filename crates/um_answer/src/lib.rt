//! The replies to queries, from the state; the outcome of looking up a requested name; and which units are missing.
#![tactic(auto)]

mod answer;
mod listing;
mod missing;
mod names;

pub use answer::reply_to;
pub use listing::list_known;
pub use missing::check_missing;
pub use names::Asked;
