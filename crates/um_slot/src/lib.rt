//! The two slots of a store: reads the newest snapshot, and writes the next one into the other slot so that a crash leaves
//! the one before or the new one whole.
#![tactic(auto)]

mod first;
mod header;
mod laws;
mod read;
mod sectors;
mod write;

pub use first::{read_superblock, superblock};
pub use header::Home;
pub use laws::{
    the_newest_body_is_one, the_newest_body_is_told, unread_sectors_of_the_slots_do_not_count,
};
pub use read::{Snapshot, newest};
pub use um_model::{Format, Layout, Slot};
pub use write::{finish, write_first, write_part};
