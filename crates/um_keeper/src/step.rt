//! A snapshot under way goes on.
ghost use Rattle.std.specs.Prelude.{◌≡◌, ◌⊎◌, ◌↔◌, ◌+◌, ◌-◌, ◌^◌, ◌<◌, ◌≤◌, min, ℕ, List, [], length, true, false, Ok, Err, IfErr, OnOk, OnErr, IsTrue};
ghost use Rattle.um_keeper.specs.Keepers.{disk_in, standing_in, state_in, layout_in, slot_in, generation_in, log_generation_in, number_in, next_in, left_in, has_failed, IsSamePlace};
ghost use Rattle.um_keeper.specs.Keeping.{IsBegun};
ghost use Rattle.um_keeper.specs.Offers.{HasCome};
ghost use Rattle.um_keeper.specs.Underway.{UnderwayIn, is_renewing, left_ahead};
ghost use Rattle.um_model.specs.Disk.{seen, During, Images};
ghost use Rattle.um_model.specs.Lives.{Offer, MayLeave};
ghost use Rattle.um_model.specs.Machine as model;
ghost use Rattle.um_model.specs.Stands.{IsStoreOf};
ghost use Rattle.um_model.specs.Store.{other, sector_count};
ghost use Rattle.um_sector.specs.Refused.{CountsDevice};
ghost use Rattle.um_slot.specs.Snapshots.{IsWritten};

use crate::ahead::Ahead;
use crate::keeper::{Keeper, noted};
use um_sector::Disk;
use um_slot::finish;
use um_wire::Refusal;

/// Makes the snapshot under way count, of which all sectors are written: a sync, its header, a sync. E16.
fn complete<D: Disk>(disk: &mut D, ahead: &mut Ahead) -> Result<(), Refusal>
    requires renewing { is_renewing ahead.old ≡ true }
    ensures during { IsTrue (D.honest disk.old)
        → IsWritten ahead.old.log.layout (seen (D.past disk.old)) (other ahead.old.home.slot) ahead.old.aside.body.items (sector_count (length ahead.old.aside.body.items))
        → (s : model.State) (taken : List model.Input) (state : model.State) → UnderwayIn s taken (D.past disk.old) ahead.old state
        → During (D.past disk.old) (D.past disk.new) (IsBegun ahead.old.log.layout s taken) }
    ensures under { OnOk result (IsTrue (D.honest disk.old)
        → IsWritten ahead.old.log.layout (seen (D.past disk.old)) (other ahead.old.home.slot) ahead.old.aside.body.items (sector_count (length ahead.old.aside.body.items))
        → (s : model.State) (taken : List model.Input) (state : model.State) → UnderwayIn s taken (D.past disk.old) ahead.old state
        → UnderwayIn s taken (D.past disk.new) ahead.new state) }
    ensures idle { OnOk result (ahead.new.aside.body.items ≡ []) }
    ensures slot { OnOk result (ahead.new.home.slot ≡ other ahead.old.home.slot) }
    ensures grows { ahead.old.home.generation ≤ ahead.new.home.generation }
    ensures log { ahead.new.log ≡ ahead.old.log }
    ensures unsynced { ahead.new.unsynced ≡ ahead.old.unsynced }
    ensures refused { IfErr result (λ e. e ≡ Refusal.Device) }
    ensures calls { D.calls disk.new ≤ D.calls disk.old + 3 }
    ensures device { CountsDevice result (D.failures disk.old) (D.failures disk.new) }
    ensures size { D.size disk.new ≡ D.size disk.old }
    ensures honest { D.honest disk.new ≡ D.honest disk.old }
{
    let stored = finish(disk, ahead.log.layout, ahead.home, ahead.aside.body.len())?;
    let Some(home) = stored else {
        return Err(Refusal::NoRoom);
    };
    ahead.home = home;
    ahead.aside.clear();
    Ok(())
}

/// Writes the next `count` body sectors of the snapshot under way, or all that are left, and with the last of them
/// makes it count. True if none is under way afterwards; there is no disk call if none was. It takes no memory. E16.
///
/// Records that weren't synced stay as they are: `complete` begins with a sync.
pub(crate) fn advance<D: Disk>(
    disk: &mut D,
    ahead: &mut Ahead,
    count: usize,
) -> Result<bool, Refusal>
    ensures during { IsTrue (D.honest disk.old) → (s : model.State) (taken : List model.Input) (state : model.State) → UnderwayIn s taken (D.past disk.old) ahead.old state
        → During (D.past disk.old) (D.past disk.new) (IsBegun ahead.old.log.layout s taken) }
    ensures under { OnOk result (IsTrue (D.honest disk.old) → (s : model.State) (taken : List model.Input) (state : model.State) → UnderwayIn s taken (D.past disk.old) ahead.old state
        → UnderwayIn s taken (D.past disk.new) ahead.new state) }
    ensures lowers { OnOk result (left_ahead ahead.new ≡ left_ahead ahead.old - count) }
    ensures told { OnOk result ((result ≡ Ok true) ↔ (left_ahead ahead.new ≡ 0)) }
    ensures idle { result ≡ Ok true → is_renewing ahead.new ≡ false }
    ensures slot { result ≡ Ok true → is_renewing ahead.old ≡ true → ahead.new.home.slot ≡ other ahead.old.home.slot }
    ensures none { is_renewing ahead.old ≡ false → (result ≡ Ok true) × (disk.new ≡ disk.old) × (ahead.new ≡ ahead.old) }
    ensures grows { ahead.old.home.generation ≤ ahead.new.home.generation }
    ensures log { ahead.new.log ≡ ahead.old.log }
    ensures unsynced { ahead.new.unsynced ≡ ahead.old.unsynced }
    ensures refused { IfErr result (λ e. e ≡ Refusal.Device) }
    ensures calls { D.calls disk.new ≤ D.calls disk.old + min count (left_ahead ahead.old) + 3 }
    ensures device { CountsDevice result (D.failures disk.old) (D.failures disk.new) }
    ensures size { D.size disk.new ≡ D.size disk.old }
    ensures honest { D.honest disk.new ≡ D.honest disk.old }
{
    let left = ahead.aside.left();
    if left == 0 {
        return Ok(true);
    }
    ahead
        .aside
        .write_part(disk, ahead.log.layout, ahead.home, count)?;
    if count < left {
        ahead.aside.written += count;
        return Ok(false);
    }
    complete(disk, ahead)?;
    Ok(true)
}

impl<D: Disk> Keeper<D> {
    /// How many body sectors are left to write of the snapshot under way: 0 exactly where none is.
    pub fn left(&self) -> u32
        ensures { result ≡ left_in self.now }
    {
        self.ahead.aside.left() as u32
    }

    /// Writes the next `count` body sectors of the snapshot under way, or all that are left, and with the last of them
    /// a sync, its header, a sync. True if none is under way afterwards; there is no disk call if none was, and nothing
    /// is written for 0. It takes no memory.
    ///
    /// Each image of each moment meanwhile is a store of the state. E17 where an earlier call answered E16; E16 where a
    /// disk call fails.
    pub fn step(&mut self, count: u32) -> Result<bool, Refusal>
        ensures during { has_failed self.old ≡ false → IsTrue (D.honest (disk_in self.old))
            → During (D.past (disk_in self.old)) (D.past (disk_in self.new)) (λ image. IsStoreOf (layout_in self.old) image (state_in self.old)) }
        ensures stored { has_failed self.new ≡ false → IsTrue (D.honest (disk_in self.old))
            → Images (D.past (disk_in self.new)) (λ image. IsStoreOf (layout_in self.old) image (state_in self.new)) }
        ensures lowers { OnOk result (left_in self.new ≡ left_in self.old - count) }
        ensures told { OnOk result ((result ≡ Ok true) ↔ (left_in self.new ≡ 0)) }
        ensures none { left_in self.old ≡ 0 → has_failed self.old ≡ false → (result ≡ Ok true) × (disk_in self.new ≡ disk_in self.old) }
        ensures log { (log_generation_in self.new ≡ log_generation_in self.old) × (number_in self.new ≡ number_in self.old) × (next_in self.new ≡ next_in self.old) }
        ensures stands { standing_in self.new ≡ standing_in self.old }
        ensures state { state_in self.new ≡ state_in self.old }
        ensures place { IsSamePlace self.old self.new }
        ensures grows { generation_in self.old ≤ generation_in self.new }
        ensures refused { IfErr result (λ e. (e ≡ Refusal.Device) ⊎ (e ≡ Refusal.Reopen)) }
        ensures device { CountsDevice result (D.failures (disk_in self.old)) (D.failures (disk_in self.new)) }
        ensures failed { (has_failed self.new ≡ true) ↔ ((has_failed self.old ≡ true) ⊎ (result ≡ Err Refusal.Device)) }
        ensures reopen { (result ≡ Err Refusal.Reopen) ↔ (has_failed self.old ≡ true) }
        ensures calls { D.calls (disk_in self.new) ≤ D.calls (disk_in self.old) + min count (left_in self.old) + 3 }
        ensures life { (s : model.State) (before : List Offer) → has_failed self.old ≡ false → IsTrue (D.honest (disk_in self.old))
            → HasCome (layout_in self.old) s before (state_in self.old)
            → During (D.past (disk_in self.old)) (D.past (disk_in self.new)) (MayLeave (layout_in self.old) s before) }
        ensures size { D.size (disk_in self.new) ≡ D.size (disk_in self.old) }
        ensures honest { D.honest (disk_in self.new) ≡ D.honest (disk_in self.old) }
    {
        if self.failed {
            return Err(Refusal::Reopen);
        }
        match advance(&mut self.disk, &mut self.ahead, count as usize) {
            Ok(done) => Ok(done),
            Err(refusal) => Err(noted(&mut self.failed, refusal)),
        }
    }
}
