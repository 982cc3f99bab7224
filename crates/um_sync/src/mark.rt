//! The mark of an entry that was put.

use sha2::{Digest, Sha256};
use um_tree::Entry;

/// The mark of the last entry put at a path.
#[derive(Clone, Copy, Debug)]
pub enum Mark {
    /// A file, by the SHA-256 of its text.
    File([u8; 32]),
    /// A link, by the SHA-256 of its target.
    Link([u8; 32]),
    /// A request was sent for the path, and its result isn't known.
    Asked,
}

impl Mark {
    ghost use Rattle.std.specs.Prelude.{◌≡◌};
    ghost use Rattle.um_sync.specs.Sync.{mark_of, same};
    ghost use Rattle.um_tree.specs.View.{entry_of};

    /// The mark of an entry.
    pub fn of(entry: Entry<'_>) -> Mark
        ensures { result ≡ mark_of (entry_of entry.entry) }
    {
        match entry {
            Entry::File(text) => Mark::File(Sha256::digest(text.as_bytes())),
            Entry::Link(target) => Mark::Link(Sha256::digest(target.as_bytes())),
        }
    }

    /// Whether the entry that was put is the one in the folder now.
    pub(crate) fn is_same(self, now: Mark) -> bool
        ensures { result ≡ same self now }
    {
        match (self, now) {
            (Mark::File(before), Mark::File(now)) => before == now,
            (Mark::Link(before), Mark::Link(now)) => before == now,
            _ => false,
        }
    }
}
