//! Requests and replies as JSON: `read_request` returns exactly the request of a frame's bytes, or the first refusal
//! that holds, and `write_reply` exactly the compact text of a reply.
#![tactic(auto)]

mod draft;
mod fields;
mod read;
mod request;
mod verb;
mod write;

pub use read::read_request;
pub use request::{Asked, Request};
pub use um_model::{Mode, Verb};
pub use verb::{Row, row_of, verb_in, verbs_in};
pub use write::{ReplyText, write_reply};
