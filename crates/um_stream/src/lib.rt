//! Bytes and frames over a reader and a writer: the bytes taken of the one and put to the other are exact, and after a
//! failure they are a beginning of those.
#![tactic(auto)]

mod fault;
mod frame;
mod input;
mod output;

pub use fault::Fault;
pub use frame::{HEADER, put_frame};
pub use input::read_up_to;
