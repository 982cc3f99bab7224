//! One client over a store in memory: `memory` writes exactly the frames of the replies to the frames it reads, however
//! the input is cut.
#![tactic(auto)]

mod actions;
mod frames;
mod laws;
mod serving;
mod store;

pub use laws::{a_stream_has_one_reading, a_stream_is_served_in_one_way};
pub use serving::memory;
pub use um_model::Ending;
pub use um_stream::Fault;
