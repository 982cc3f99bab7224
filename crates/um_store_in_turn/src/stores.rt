//! Stores in memory.

use crate::wrong::{Wrong, found};
use std::alloc::Global;
use std::ops::Range;
use um_keeper::{Keeper, Receipt, create};
use um_model::Layout;
use um_sector::{Disk, MemDisk, Sector};
use um_state::Input;
use um_wire::{Refusal, spell};

/// The sectors of a disk: slots of 64, a log of 512.
pub const SECTORS: usize = 641;

/// The first sector of slot B.
const SLOT_B: usize = 65;

/// The sectors of the first area of the log, where that of layout 1 begins.
const FIRST_AREA: Range<usize> = 129..385;

/// The layout of each store.
pub fn layout() -> Result<Layout, Wrong> {
    match Layout::new(64, 512) {
        Some(layout) => Ok(layout),
        None => Err(found("no layout")),
    }
}

/// A disk of zeros.
pub fn blank(alloc: Global) -> Result<MemDisk, Wrong> {
    Ok(MemDisk::new(alloc, SECTORS)?)
}

/// Makes a new store on a disk that has room for it.
pub fn create_on<D: Disk>(alloc: Global, disk: &mut D) -> Result<(), Refusal> {
    match Layout::new(64, 512) {
        Some(layout) if layout.sectors() <= disk.sectors() => create(alloc, disk, layout),
        _ => Err(Refusal::BadRequest),
    }
}

/// A disk that holds a new store.
pub fn made(alloc: Global) -> Result<MemDisk, Wrong> {
    let mut disk = blank(alloc)?;
    create_on(alloc, &mut disk)?;
    Ok(disk)
}

/// Opens the store that a disk holds. The keeper is boxed, since it is large; if that finds no memory, the opening has found none.
pub fn open<D: Disk>(alloc: Global, disk: D) -> Result<Box<Keeper<D>>, (Refusal, D)> {
    match Box::new(alloc, Keeper::open(alloc, disk)?) {
        Ok(keeper) => Ok(keeper),
        Err(failed) => Err((Refusal::NoMemory, failed.value.into_disk())),
    }
}

/// The keeper that is opened over a disk, in a place where no opening may be refused.
pub fn opened<D: Disk + Drop>(alloc: Global, disk: D) -> Result<Box<Keeper<D>>, Wrong> {
    match open(alloc, disk) {
        Ok(keeper) => Ok(keeper),
        Err((refusal, _)) => Err(Wrong::from(refusal)),
    }
}

/// Submits an input: its receipt, or the refusal.
pub fn submit<D: Disk>(keeper: &mut Keeper<D>, input: Input) -> Result<Receipt, Refusal> {
    keeper.submit(input)
}

/// The canonical bytes of the state of a keeper.
pub fn bytes_of<D: Disk>(alloc: Global, keeper: &Keeper<D>) -> Result<Vec<u8>, Wrong> {
    Ok(spell(alloc, keeper.state())?)
}

/// The disk after a crash that loses all unsynced values.
pub fn oldest(alloc: Global, disk: &MemDisk) -> Result<MemDisk, Wrong> {
    Ok(disk.crash(alloc, &[])?)
}

/// The picks of the newest value of each sector.
fn newest_picks(alloc: Global, disk: &MemDisk) -> Result<Vec<usize>, Wrong> {
    let mut picks = Vec::new(alloc);
    for (_, count) in disk.unsynced(alloc)?.as_slice() {
        picks.push(count.saturating_sub(1))?;
    }
    Ok(picks)
}

/// The disk after a crash that loses nothing.
pub fn newest(alloc: Global, disk: &MemDisk) -> Result<MemDisk, Wrong> {
    let picks = newest_picks(alloc, disk)?;
    Ok(disk.crash(alloc, picks.as_slice())?)
}

/// None if an opening was refused since there is no store; else the refusal as a wrong.
fn no_store(refusal: Refusal) -> Result<Option<Vec<u8>>, Wrong> {
    match refusal {
        Refusal::NotFormatted => Ok(None),
        refusal => Err(Wrong::from(refusal)),
    }
}

/// The state of the store that a disk holds, as bytes; None if there is no store.
pub fn state_on(alloc: Global, disk: MemDisk) -> Result<Option<Vec<u8>>, Wrong> {
    match open(alloc, disk) {
        Ok(keeper) => Ok(Some(bytes_of(alloc, keeper.as_ref())?)),
        Err((refusal, disk)) => {
            drop(disk);
            no_store(refusal)
        }
    }
}

/// A store of layout 1 with the contents of this one of layout 2, whose newest snapshot is of generation 4 in slot A, and whose records are all
/// of that generation: it is of this generation, and has no other snapshot.
pub fn made_old(disk: MemDisk, generation: u8) -> Result<MemDisk, Wrong> {
    let mut disk = disk;
    change(&mut disk, 0, 7, b'1')?;
    change(&mut disk, 1, 15, generation)?;
    disk.write(SLOT_B, &[0; 512])?;
    for k in FIRST_AREA {
        if has_record(&mut disk, k)? {
            change(&mut disk, k, 11, generation)?;
        }
    }
    Ok(disk.settled())
}

/// Changes a byte of a sector.
fn change(disk: &mut MemDisk, k: usize, at: usize, byte: u8) -> Result<(), Wrong> {
    let mut sector: Sector = [0; 512];
    disk.read(k, &mut sector)?;
    if let Some(place) = sector.get_mut(at) {
        *place = byte;
    }
    Ok(disk.write(k, &sector)?)
}

/// Whether a sector of the log holds a part of a record.
fn has_record(disk: &mut MemDisk, k: usize) -> Result<bool, Wrong> {
    let mut sector: Sector = [0; 512];
    disk.read(k, &mut sector)?;
    Ok(sector[0] == b'U')
}
