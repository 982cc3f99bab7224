//! `umd serve`: one loop over a store, children and a socket, and the parts around it: places, lines on standard error,
//! output, and the socket by which runners wake the manager.
#![tactic(auto)]

mod endings;
mod keeping;
mod lines;
mod places;
mod repeats;
mod serving;
mod starting;
mod telling;
mod waking;

pub use endings::tell_uncounted;
pub use places::open_read_only;
pub use serving::serve_store;
