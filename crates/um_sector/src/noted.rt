//! The note of a call on a disk.
ghost use Rattle.std.specs.Prelude.{◌≡◌};
ghost use Rattle.um_model.specs.Disk as model;
ghost use Rattle.um_sector.specs.Unsynced as syncs;

use crate::disk::Sector;

/// A call that a disk in memory has noted.
#[derive(Clone, Copy)]
pub enum Noted {
    Write { k: usize, value: Sector },
    Sync,
}

impl Noted {
    ghost use Rattle.um_sector.specs.Noted.{call_of};

    /// Whether the call was a sync; else it was a write.
    pub fn is_sync(&self) -> bool
        ensures { result ≡ syncs.is_sync (call_of self.now) }
    {
        matches!(self, Noted::Sync)
    }
}
