//! Creates the store of the empty state on a disk.
ghost use Rattle.std.specs.Prelude.{◌≡◌, ◌⊎◌, ◌≤◌, ◌+◌, [], IsTrue, IfErr, OnOk, OnErr};
ghost use Rattle.um_model.specs.Disk.{seen, Images, During};
ghost use Rattle.um_sector.specs.Runs.{CountsFailure, more};
ghost use Rattle.um_model.specs.Lives.{MayLeave};
ghost use Rattle.um_model.specs.Machine.{empty_state};
ghost use Rattle.um_model.specs.StateSpellings.{state_spelling};
ghost use Rattle.um_model.specs.Store as store;
ghost use Rattle.um_sector.specs.Unsynced.{sync_count};
ghost use Rattle.um_sector.specs.Refused.{CountsDevice, IsLost};
ghost use Rattle.um_keeper.specs.Creating.{blank, WasOrIsNone, IsEmptyStore, WhileCreated, IsWiped, create_calls};

use std::alloc::Global;
use um_model::{CURRENT, Layout, SECTOR_BYTES, Slot};
use um_sector::{Disk, Fault, Sector, write_blank, write_run_synced};
use um_slot::{superblock, write_first};
use um_state::State;
use um_wire::{Refusal, spell};

/// Zeros sector 0 and syncs, so that no store is there.
fn unformat<D: Disk>(disk: &mut D) -> Result<(), Fault>
    ensures during { IsTrue (D.honest disk.old) → During (D.past disk.old) (D.past disk.new) (WasOrIsNone (D.past disk.old)) }
    ensures ok { OnOk result (IsTrue (D.honest disk.old) → Images (D.past disk.new) (λ image. image 0 ≡ blank)) }
    ensures first { OnOk result (IsTrue (D.honest disk.old) → sync_count (D.past disk.new) ≡ sync_count (D.past disk.old) + 1) }
    ensures unsynced { OnErr result (IsTrue (D.honest disk.old) → sync_count (D.past disk.new) ≡ sync_count (D.past disk.old)) }
    ensures all_calls { OnOk result (D.calls disk.new ≡ more (D.calls disk.old) 2) }
    ensures failures { CountsFailure result (D.failures disk.old) (D.failures disk.new) }
    ensures size { D.size disk.new ≡ D.size disk.old }
    ensures honest { D.honest disk.new ≡ D.honest disk.old }
{
    let zeros: Sector = [0; SECTOR_BYTES];
    disk.write(0, &zeros)?;
    disk.sync()
}

/// Zeros both headers and the log.
fn wipe<D: Disk>(disk: &mut D, layout: Layout) -> Result<(), Fault>
    ensures during { IsTrue (D.honest disk.old) → Images (D.past disk.old) (λ image. image 0 ≡ blank)
        → During (D.past disk.old) (D.past disk.new) (λ image. image 0 ≡ blank) }
    ensures ok { OnOk result (IsTrue (D.honest disk.old) → seen (D.past disk.old) 0 ≡ blank → IsWiped layout (seen (D.past disk.new))) }
    ensures all_calls { OnOk result (D.calls disk.new ≡ more (D.calls disk.old) (layout.log_sectors + 2)) }
    ensures failures { CountsFailure result (D.failures disk.old) (D.failures disk.new) }
    ensures size { D.size disk.new ≡ D.size disk.old }
    ensures honest { D.honest disk.new ≡ D.honest disk.old }
{
    write_blank(disk, layout.slot_start(Slot::A), 1)?;
    write_blank(disk, layout.slot_start(Slot::B), 1)?;
    write_blank(disk, layout.first_log_sector(), layout.log_sectors as usize)
}

/// Writes the store of the empty state, whose bytes the body has.
fn lay<D: Disk>(disk: &mut D, layout: Layout, body: &[u8]) -> Result<(), Refusal>
    requires empty { body.now ≡ state_spelling empty_state }
    ensures during { IsTrue (D.honest disk.old) → WhileCreated layout (D.past disk.old) (D.past disk.new) }
    ensures ok { OnOk result (IsTrue (D.honest disk.old) → Images (D.past disk.new) (IsEmptyStore layout)) }
    ensures all_calls { OnOk result (D.calls disk.new ≡ more (D.calls disk.old) (create_calls layout)) }
    ensures failures { CountsDevice result (D.failures disk.old) (D.failures disk.new) }
    ensures err { IfErr result (λ e. e ≡ Refusal.Device) }
    ensures size { D.size disk.new ≡ D.size disk.old }
    ensures honest { D.honest disk.new ≡ D.honest disk.old }
{
    unformat(disk)?;
    wipe(disk, layout)?;
    let Some(_) = write_first(disk, layout, body)? else {
        unreachable!();
    };
    let first: [Sector; 1] = [superblock(CURRENT, layout)];
    write_run_synced(disk, 0, &first)?;
    Ok(())
}

/// Makes the store of the empty state on a disk, whatever stood there: it zeros sector 0 and syncs, zeros both headers
/// and the log, writes the empty state as generation 1 into slot A, and at last sector 0. The disk has room for the
/// layout.
///
/// E15, with nothing written; E16 where a disk call fails. Until the first sync each image is one of before, or of no
/// store; from then on it is of no store, or of the empty state's. At Ok exactly `create_calls` disk calls were made.
pub fn create<D: Disk>(alloc: Global, disk: &mut D, layout: Layout) -> Result<(), Refusal>
    requires room { store.store_sectors layout ≤ D.size disk.old }
    ensures during { IsTrue (D.honest disk.old) → WhileCreated layout (D.past disk.old) (D.past disk.new) }
    ensures ok { OnOk result (IsTrue (D.honest disk.old) → Images (D.past disk.new) (IsEmptyStore layout)) }
    ensures all_calls { OnOk result (D.calls disk.new ≡ more (D.calls disk.old) (create_calls layout)) }
    ensures life { OnOk result (IsTrue (D.honest disk.old) → Images (D.past disk.new) (MayLeave layout empty_state [])) }
    ensures kept { IfErr result (λ e. (e ≡ Refusal.Device) ⊎ (disk.new ≡ disk.old)) }
    ensures failures { CountsDevice result (D.failures disk.old) (D.failures disk.new) }
    ensures err { IfErr result IsLost }
    ensures size { D.size disk.new ≡ D.size disk.old }
    ensures honest { D.honest disk.new ≡ D.honest disk.old }
{
    // All memory is taken before the first write.
    let empty = State::empty(alloc);
    let spelled = spell(alloc, &empty);
    drop(empty);
    let body = spelled?;
    lay(disk, layout, &body)
}
