//! Two lives, each an opening and a turn.

ghost use Rattle.std.specs.Prelude.{IfOk, IsTrue, not};
ghost use Rattle.um_children.specs.Calls.{calls_of};
ghost use Rattle.um_instance.specs.Instances.{SoFar, IsInstance};
ghost use Rattle.um_keeper.specs.Creating.{IsEmptyStore};
ghost use Rattle.um_keeper.specs.Keepers.{disk_in, layout_in};
ghost use Rattle.um_manager.specs.Turns.{now_in};
ghost use Rattle.um_model.specs.Disk.{Images, IsImage, seen};
ghost use Rattle.um_sector.specs.Memory.{history};

use std::alloc::Global;
use um_children::{Children, FakeChildren};
use um_keeper::create;
use um_manager::{Manager, Pieces, a_service_manager_outlives_crashes};
use um_model::{Layout, Moment};
use um_sector::{Disk, MemDisk};
use um_state::BootId;
use um_wire::Refusal;

/// A new disk in memory with the store of the empty state.
fn made(alloc: Global, layout: Layout) -> Result<MemDisk, Refusal>
    ensures created { IfOk result (λ disk. Images (history disk) (IsEmptyStore layout)) }
    ensures read { IfOk result (λ disk. IsImage (history disk) (seen (history disk))) }
{
    let mut disk = match MemDisk::new(alloc, layout.sectors()) {
        Ok(disk) => disk,
        Err(_) => return Err(Refusal::NoMemory),
    };
    match create(alloc, &mut disk, layout) {
        Ok(()) => Ok(disk),
        Err(refusal) => Err(refusal),
    }
}

/// A life so far: an opening and a turn, which are answered Ok.
fn life<D: Disk + Drop, C: Children + Drop>(
    alloc: Global,
    disk: D,
    children: C,
    boot: BootId,
    moment: Moment,
    pieces: &Pieces,
) -> Result<Manager<D, C>, Refusal>
    ensures so_far { IfOk result (λ m. SoFar (layout_in m.keeper) (D.past disk) (C.past children) (IsTrue (D.honest disk))
        (IsTrue (C.honest children) × IsTrue (C.whole m.children))
        (now_in m.keeper (C.past m.children) m.marks m.sessions.items (D.past (disk_in m.keeper)))) }
    ensures whole { IfOk result (λ m. IsTrue (C.whole m.children) → IsTrue (C.whole children)) }
{
    let mut manager = match Manager::open(alloc, disk, children, boot, moment) {
        Ok(manager) => manager,
        Err((refusal, _disk, _children)) => return Err(refusal),
    };
    match manager.turn(moment, pieces) {
        Ok(()) => Ok(manager),
        Err(refusal) => Err(refusal),
    }
}

/// Makes a store on a new disk in memory, opens it and makes a turn. The disk that a crash leaves, by these picks, is
/// then opened in the same boot or another one, with the same children, and a turn is made. If all of it is answered Ok
/// the manager is returned, with its state. So it is an instance of the premises on the disk, and, if the children
/// found memory, of those on the children.
///
/// Its refusals are those of the calls that it makes.
pub fn two_lives(
    alloc: Global,
    layout: Layout,
    boots: (BootId, BootId),
    moment: Moment,
    pieces: &Pieces,
    picks: &[usize],
) -> Result<Manager<MemDisk, FakeChildren>, Refusal>
    ensures { IfOk result (λ m. IsInstance layout (history (disk_in m.keeper)) (calls_of m.children.calls.items) (IsTrue (not m.children.lost))) }
{
    a_service_manager_outlives_crashes();
    let disk = match made(alloc, layout) {
        Ok(disk) => disk,
        Err(refusal) => return Err(refusal),
    };
    let first = match life(
        alloc,
        disk,
        FakeChildren::new(alloc),
        boots.0,
        moment,
        pieces,
    ) {
        Ok(first) => first,
        Err(refusal) => return Err(refusal),
    };
    let (disk, children) = first.into_parts();
    let crashed = match disk.crash(alloc, picks) {
        Ok(crashed) => crashed,
        Err(_) => return Err(Refusal::NoMemory),
    };
    match life(alloc, crashed, children, boots.1, moment, pieces) {
        Ok(second) => Ok(second),
        Err(refusal) => Err(refusal),
    }
}
