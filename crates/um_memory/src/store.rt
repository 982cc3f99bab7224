//! A store on a disk in memory.
ghost use Rattle.std.specs.Prelude.{◌≡◌, false, IfOk};
ghost use Rattle.um_memory.specs.Stores.{StandsIn};
ghost use Rattle.um_keeper.specs.Keepers.{state_in, size_in, layout_in, has_failed};
ghost use Rattle.um_model.specs.Disk.{seen};
ghost use Rattle.um_memory.specs.Stores.{memory_size};
ghost use Rattle.um_model.specs.Machine.{empty_state};
ghost use Rattle.um_model.specs.Store.{body_limit};
ghost use Rattle.um_sector.specs.Memory.{history};

use std::alloc::Global;
use std::io;
use std::io::ErrorKind;
use um_keeper::{Keeper, create};
use um_model::Layout;
use um_sector::MemDisk;
use um_stream::Fault;
use um_wire::Refusal;

/// The layout of the store that `umd --memory` works over: a slot holds 8,388,096 bytes.
fn layout() -> Layout
    ensures slot { result.slot_sectors ≡ 16384 }
    ensures log { result.log_sectors ≡ 1024 }
{
    let Some(layout) = Layout::new(16_384, 1_024) else {
        // within the limits
        unreachable!()
    };
    layout
}

/// The fault that ends `memory` where its store refuses for a cause of its own. A call on the disk in memory fails for want of
/// memory alone.
pub fn fault_of(refusal: &Refusal) -> Fault {
    match refusal {
        Refusal::NoMemory | Refusal::Device => Fault::NoMemory,
        _other => Fault::Read(io::Error::from(ErrorKind::Other)),
    }
}

/// Opens the store that a disk in memory holds. Its keeper is in the state that the store stands for.
fn open_store(alloc: Global, disk: MemDisk) -> Result<Keeper<MemDisk>, Fault>
    ensures stands { IfOk result (λ k. StandsIn (seen (history disk)) (layout_in k) (state_in k)) }
    ensures size { IfOk result (λ k. size_in k ≡ body_limit (layout_in k)) }
    ensures working { IfOk result (λ k. has_failed k ≡ false) }
{
    match Keeper::open(alloc, disk) {
        Ok(keeper) => Ok(keeper),
        Err((refusal, _disk)) => Err(fault_of(&refusal)),
    }
}

/// The keeper of a new store of the empty state, over a disk in memory. Its faults are those of `fault_of`.
pub fn new_store(alloc: Global) -> Result<Keeper<MemDisk>, Fault>
    ensures state { IfOk result (λ k. state_in k ≡ empty_state) }
    ensures size { IfOk result (λ k. size_in k ≡ memory_size) }
    ensures working { IfOk result (λ k. has_failed k ≡ false) }
{
    let layout = layout();
    let mut disk = MemDisk::new(alloc, layout.sectors())?;
    match create(alloc, &mut disk, layout) {
        Ok(()) => open_store(alloc, disk),
        Err(refusal) => Err(fault_of(&refusal)),
    }
}

/// The keeper of the same store over its disk as it stands, which keeps nothing of the calls before. It is opened as
/// after a crash, and so it is in the same state. Its faults are those of `fault_of`.
pub fn renewed(alloc: Global, keeper: Keeper<MemDisk>) -> Result<Keeper<MemDisk>, Fault>
    requires working { has_failed keeper ≡ false }
    ensures state { IfOk result (λ k. state_in k ≡ state_in keeper) }
    ensures size { IfOk result (λ k. size_in k ≡ size_in keeper) }
    ensures working { IfOk result (λ k. has_failed k ≡ false) }
{
    keeper.is_stored();
    open_store(alloc, keeper.into_disk().settled())
}
