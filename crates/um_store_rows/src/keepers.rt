//! Keepers over disks in memory, the disks that a crash leaves of them, and the calls that they make.
use crate::answers::sector_at;
use std::process::Abort;
use um_asserts::{is_refused, same};
use um_keeper::{Keeper, create};
use um_model::Layout;
use um_sector::{Disk, Fuse, MemDisk, Sector};

/// Asserts that a sector has these bytes in front and zeros after them.
pub fn has_layout<D: Disk>(rt: &impl Abort, disk: &mut D, k: usize, bytes: &[u8]) {
    let mut wanted: Sector = [0; 512];
    for (place, byte) in wanted.iter_mut().zip(bytes) {
        *place = *byte;
    }
    same!(rt, sector_at(rt, disk, k), wanted);
}

/// A disk of 641 sectors with a new store: slots of 64 sectors, a log of 512.
pub fn made(rt: &(impl AllocGlobal + Abort)) -> MemDisk {
    let mut disk = MemDisk::new(rt.alloc(), 641).expect(rt, "no memory");
    let layout = Layout::new(64, 512).expect(rt, "no layout");
    create(rt.alloc(), &mut disk, layout).expect(rt, "not created");
    disk
}

/// The keeper that is opened over a disk, in a box, which a row drops in one call.
pub fn over<D: Disk>(rt: &(impl AllocGlobal + Abort), disk: D) -> Box<Keeper<D>> {
    match Keeper::open(rt.alloc(), disk) {
        Ok(keeper) => Box::new(rt.alloc(), keeper).expect(rt, "no memory"),
        Err(_) => rt.abort(),
    }
}

/// The disk of a keeper.
pub fn disk_of<D: Disk>(keeper: Box<Keeper<D>>) -> D {
    Box::into_inner(keeper).into_disk()
}

/// Asserts that a checkpoint fails, and that another one wants the store opened again.
pub fn fails_checkpoints<D: Disk>(rt: &(impl AllocGlobal + Abort), keeper: &mut Keeper<D>) {
    is_refused!(rt, keeper.checkpoint(), "E16 Device");
    is_refused!(rt, keeper.checkpoint(), "E17 Reopen");
}

/// The number of files that a keeper has.
pub fn files_in<D: Disk>(keeper: &Keeper<D>) -> usize {
    keeper.state().tree().len()
}

/// The number of files of the store that a disk holds, which is opened.
pub fn files_on(rt: &(impl AllocGlobal + Abort), disk: MemDisk) -> usize {
    files_in(&over(rt, disk))
}

/// The disk that a crash leaves, with the picked ones of the writes that weren't synced.
pub fn crash(rt: &(impl AllocGlobal + Abort), disk: Fuse<MemDisk>, picks: &[usize]) -> MemDisk {
    let left = disk.into_inner().crash(rt.alloc(), picks);
    left.expect(rt, "no memory")
}

/// The number of disk calls of an open of the store that the disk holds.
pub fn calls_of_open(rt: &(impl AllocGlobal + Abort), disk: MemDisk) -> u64 {
    disk_of(over(rt, Fuse::new(disk, 0))).calls()
}

/// The keeper of a new store, over a disk whose call of that number after the open fails; with 0 none.
pub fn opened(rt: &(impl AllocGlobal + Abort), call: u64) -> Box<Keeper<Fuse<MemDisk>>> {
    let fails = match call {
        0 => Some(0),
        _ => calls_of_open(rt, made(rt)).checked_add(call),
    };
    over(rt, Fuse::new(made(rt), fails.expect(rt, "too many")))
}

/// The number of calls of a new store's disk since it was opened.
pub fn calls_since(rt: &(impl AllocGlobal + Abort), disk: &Fuse<MemDisk>) -> u64 {
    let before = calls_of_open(rt, made(rt));
    disk.calls().checked_sub(before).expect(rt, "fewer calls")
}
