//! A snapshot of a state on its way into a slot.
ghost use Rattle.std.specs.Prelude.{◌≡◌, ◌⊎◌, ◌+◌, ◌-◌, ◌^◌, ◌<◌, ◌≤◌, min, ℕ, List, [], length, IfOk, IfErr, OnOk, IsTrue};
ghost use Rattle.um_keeper.specs.Keeping.{left_of};
ghost use Rattle.um_model.specs.Disk.{seen, Images, During};
ghost use Rattle.um_model.specs.StateSpellings.{FitState, state_spelling};
ghost use Rattle.um_model.specs.Store.{other, body_limit, slot_start, sector_count};
ghost use Rattle.um_model.specs.declared.layout.Format.{Format};
ghost use Rattle.um_sector.specs.Refused.{CountsDevice};
ghost use Rattle.um_sector.specs.Unsynced.{sync_count};
ghost use Rattle.um_slot.specs.Snapshots.{IsWritten, IsBeside, HasNewest, EitherNewest};
ghost use Rattle.um_state.specs.View.{state_of};

use std::alloc::{AllocError, Global};
use um_model::Layout;
use um_sector::{Disk, SECTOR_BYTES};
use um_slot::{Home, finish, write_part};
use um_state::State;
use um_wire::{Refusal, spell};

/// The next snapshot: the bytes of its state, and how many of their sectors stand in the slot beside the newest one.
/// Without bytes there is none.
#[derive(Drop)]
pub(crate) struct NextSnapshot {
    pub(crate) body: Vec<u8>,
    pub(crate) written: usize,
    ghost going: { 0 < length body.items → written < sector_count (length body.items) },
    ghost none: { length body.items ≡ 0 → written ≡ 0 },
}

impl NextSnapshot {
    /// No snapshot under way. It takes no memory.
    pub(crate) fn none(alloc: Global) -> NextSnapshot
        ensures body { result.body.items ≡ [] }
        ensures written { result.written ≡ 0 }
    {
        NextSnapshot {
            body: Vec::new(alloc),
            written: 0,
        }
    }

    /// Begins the snapshot of a state: it keeps the bytes, and calls no disk.
    pub(crate) fn begin(alloc: Global, state: &State) -> Result<NextSnapshot, AllocError>
        ensures body { IfOk result (λ next. next.body.items ≡ state_spelling (state_of state.now)) }
        ensures fits { OnOk result (FitState (state_of state.now)) }
        ensures some { IfOk result (λ next. 0 < length next.body.items) }
        ensures anew { IfOk result (λ next. next.written ≡ 0) }
    {
        let body = spell(alloc, state)?;
        Ok(NextSnapshot { body, written: 0 })
    }

    /// How many sectors of its body are left to write; 0 exactly where there is none.
    pub(crate) fn left(&self) -> usize
        ensures { result ≡ left_of self.now.body.items self.now.written }
    {
        self.body.len().div_ceil(SECTOR_BYTES) - self.written
    }

    /// Drops the snapshot, so that there is none. It takes no memory.
    pub(crate) fn clear(&mut self)
        ensures body { self.new.body.items ≡ [] }
        ensures written { self.new.written ≡ 0 }
    {
        self.written = 0;
        self.body.clear();
    }

    /// Writes the next `count` of its sectors, or all that are left, without a sync. E16.
    pub(crate) fn write_part<D: Disk>(
        &self,
        disk: &mut D,
        layout: Layout,
        home: Home,
        count: usize,
    ) -> Result<(), Refusal>
        requires fits { length self.now.body.items ≤ body_limit layout }
        ensures during { IsTrue (D.honest disk.old) → During (D.past disk.old) (D.past disk.new) (IsBeside layout (D.past disk.old) home.slot) }
        ensures beside { OnOk result (IsTrue (D.honest disk.old) → (j : ℕ)
            → (j ≤ slot_start layout (other home.slot)) ⊎ (slot_start layout (other home.slot) + layout.slot_sectors ≤ j) → seen (D.past disk.new) j ≡ seen (D.past disk.old) j) }
        ensures stands { OnOk result (IsTrue (D.honest disk.old) → IsWritten layout (seen (D.past disk.old)) (other home.slot) self.now.body.items self.now.written
            → IsWritten layout (seen (D.past disk.new)) (other home.slot) self.now.body.items (min (self.now.written + count) (sector_count (length self.now.body.items)))) }
        ensures syncs { IsTrue (D.honest disk.old) → sync_count (D.past disk.new) ≡ sync_count (D.past disk.old) }
        ensures calls { D.calls disk.new ≤ D.calls disk.old + min count (left_of self.now.body.items self.now.written) }
        ensures failures { CountsDevice result (D.failures disk.old) (D.failures disk.new) }
        ensures err { IfErr result (λ e. e ≡ Refusal.Device) }
        ensures size { D.size disk.new ≡ D.size disk.old }
        ensures honest { D.honest disk.new ≡ D.honest disk.old }
    {
        if !write_part(disk, layout, home, &self.body, self.written, count)? {
            return Err(Refusal::NoRoom);
        }
        Ok(())
    }

    /// Writes all of its sectors into the slot beside the one at `home`, where no store is newer, and makes it count
    /// there as the next generation: a sync, its header, a sync. Returns where it stands. E16.
    ///
    /// The images meanwhile and afterwards are those of `um_slot::finish`.
    pub(crate) fn store<D: Disk>(
        self,
        disk: &mut D,
        layout: Layout,
        home: Home,
    ) -> Result<Home, Refusal>
        requires early { home.generation < 2 ^ 64 - 1 }
        requires fits { length self.body.items ≤ body_limit layout }
        requires anew { self.written ≡ 0 }
        ensures during_newest { IsTrue (D.honest disk.old) → (format : Format) (newest : ℕ) (before : List ℕ) → newest ≤ home.generation
            → Images (D.past disk.old) (HasNewest format layout home.slot newest before home.generation)
            → During (D.past disk.old) (D.past disk.new) (EitherNewest format layout (D.past disk.old) home.slot newest before home.generation self.body.items) }
        ensures renewed { IfOk result (λ to. IsTrue (D.honest disk.old) → (format : Format) (newest : ℕ) (before : List ℕ) → newest ≤ home.generation
            → Images (D.past disk.old) (HasNewest format layout home.slot newest before home.generation)
            → Images (D.past disk.new) (HasNewest format layout to.slot to.generation self.body.items home.generation)) }
        ensures home { IfOk result (λ to. (to.slot ≡ other home.slot) × (to.generation ≡ home.generation + 1)) }
        ensures failures { CountsDevice result (D.failures disk.old) (D.failures disk.new) }
        ensures err { IfErr result (λ e. e ≡ Refusal.Device) }
        ensures size { D.size disk.new ≡ D.size disk.old }
        ensures honest { D.honest disk.new ≡ D.honest disk.old }
    {
        self.write_part(disk, layout, home, usize::MAX)?;
        let Some(stored) = finish(disk, layout, home, self.body.len())? else {
            return Err(Refusal::NoRoom);
        };
        Ok(stored)
    }
}
