//! A disk of sectors, described by the calls made on it: the values that a read gives, and each image that a crash may
//! leave at each moment.
#![tactic(auto)]

mod chunks;
mod disk;
mod fault;
mod fields;
mod fuse;
mod laws;
mod memory;
mod noted;
mod run;

pub use chunks::next_chunk;
pub use disk::{Disk, Sector};
pub use fault::Fault;
pub use fields::{Fields, u32_at, u64_at};
pub use fuse::Fuse;
pub use laws::{
    a_new_disk_is_settled, a_run_of_calls_ends, a_sync_leaves_what_a_read_gives,
    a_write_changes_one_sector_or_none, each_image_is_picked, picks_choose_an_image,
    runs_of_calls_join,
};
pub use memory::MemDisk;
pub use run::{write_blank, write_run, write_run_synced};
pub use um_model::SECTOR_BYTES;
