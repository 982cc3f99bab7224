//! The log of a store: appends records after those of its generation so that a crash leaves each one whole or absent,
//! and reads them again up to the first that isn't whole.
#![tactic(auto)]

mod ahead;
mod chain;
mod generations;
mod laws;
mod part;
mod read;
mod remains;
mod sectors;
mod write;

pub use generations::greatest;
pub use laws::{
    records_are_told, records_have_one_reading, unread_sectors_of_the_log_do_not_count,
};
pub use read::{Reader, Record, scan};
pub use remains::Remains;
pub use um_model::{Format, Layout};
pub use write::Log;
