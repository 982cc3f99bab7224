//! Sessions: the bytes of one client, however they are cut, are read as its requests, and the replies to it become frames.
#![tactic(auto)]

mod front;
mod laws;
mod session;

pub use laws::{a_session_puts_out_its_replies, a_session_reads_its_frames};
pub use session::Session;
