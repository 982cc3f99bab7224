//! How far a store is ahead of its disk.
ghost use Rattle.std.specs.Prelude.{◌≡◌, ◌-◌, ◌^◌, ◌<◌, ◌≤◌, true, length};
ghost use Rattle.um_keeper.specs.Keeping.{has_bytes, log_generation};
ghost use Rattle.um_model.specs.Store.{body_limit};

use crate::snapshot::NextSnapshot;
use um_log::Log;
use um_slot::Home;

/// Where a store stands on its disk: its newest snapshot, its log, and a snapshot under way.
#[derive(Drop)]
pub(crate) struct Ahead {
    pub(crate) home: Home,
    pub(crate) log: Log,
    /// A record was written after the last sync.
    pub(crate) unsynced: bool,
    /// The snapshot under way.
    pub(crate) aside: NextSnapshot,
    ghost same: { log.generation ≡ log_generation home.generation aside.body.items },
    ghost early: { has_bytes aside.body.items ≡ true → home.generation < 2 ^ 64 - 1 },
    ghost short: { length aside.body.items ≤ body_limit log.layout },
}
