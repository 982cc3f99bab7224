//! The summary of a look at a disk, with nothing written.
use crate::answers::{filled, sector_at};
use crate::inputs::{A, input, put_long, take};
use crate::keepers::{disk_of, files_on, made, over};
use crate::submitting::ended;
use std::process::Abort;
use um_asserts::{is_refused, same};
use um_keeper::{Keeper, Summary, inspect, look};
use um_sector::{Disk, Fuse, MemDisk};
use um_state::{Event, Happening, State};
use um_wire::spell;

/// The numbers of a summary.
fn numbers_of(summary: &Summary) -> (u64, usize, u64, u64) {
    (
        summary.generation,
        summary.records,
        summary.clock.micros(),
        summary.next.get(),
    )
}

/// The summary of a look at a disk, and its state.
fn looked<D: Disk>(rt: &(impl AllocGlobal + Abort), disk: &mut D) -> (Summary, Box<State>) {
    let (told, state) = look(rt.alloc(), disk).expect(rt, "not read");
    let state = Box::new(rt.alloc(), state).expect(rt, "no memory");
    (told, state)
}

/// Asserts that a look shows these numbers, with as many syncs as before.
fn tells(
    rt: &(impl AllocGlobal + Abort),
    disk: &mut MemDisk,
    generation: u64,
    records: usize,
    clock: u64,
    next: u64,
) {
    let syncs = disk.syncs();
    let told = inspect(rt.alloc(), disk).expect(rt, "not read");
    same!(rt, numbers_of(&told), (generation, records, clock, next));
    let (told, _) = looked(rt, disk);
    same!(rt, numbers_of(&told), (generation, records, clock, next));
    same!(rt, disk.syncs(), syncs);
}

/// A store whose service ended and was started again: five records of generation 3.
fn restarted(rt: &(impl AllocGlobal + Abort)) -> Box<Keeper<Fuse<MemDisk>>> {
    let mut keeper = ended(rt);
    let tick = input(rt, 1_100_000, Event::Happened(Happening::Tick));
    same!(rt, take(rt, &mut keeper, tick), 1);
    keeper
}

#[test]
fn a_summary_tells_what_the_image_stands_for(rt: HostRuntime) {
    let mut disk = made(&rt);
    tells(&rt, &mut disk, 1, 0, 0, 1);
    let mut disk = disk_of(over(&rt, made(&rt)));
    tells(&rt, &mut disk, 3, 0, 0, 1);
    let mut disk = disk_of(restarted(&rt)).into_inner();
    tells(&rt, &mut disk, 3, 5, 1_100_000, 3);
    // and it is opened as if nobody had looked
    same!(&rt, files_on(&rt, disk), 1);
}

#[test]
fn a_look_gives_the_state_too(rt: HostRuntime) {
    let keeper = restarted(&rt);
    let before = spell(rt.alloc(), keeper.state()).expect(&rt, "no memory");
    let mut disk = disk_of(keeper).into_inner();
    let (_, state) = looked(&rt, &mut disk);
    let told = spell(rt.alloc(), state.as_ref()).expect(&rt, "no memory");
    same!(&rt, told.as_slice(), before.as_slice());
}

#[test]
fn a_torn_record_is_not_counted(rt: HostRuntime) {
    let mut keeper = over(&rt, made(&rt));
    take(&rt, &mut keeper, put_long(&rt, A, 600));
    let mut disk = disk_of(keeper);
    tells(&rt, &mut disk, 3, 1, 0, 1);
    // its second part
    disk.write(386, &filled(&[])).expect(&rt, "not written");
    tells(&rt, &mut disk, 3, 0, 0, 1);
}

#[test]
fn a_failing_read_is_no_summary(rt: HostRuntime) {
    // sector 0, both headers, the body, and the first record
    for call in 1..6 {
        let disk = disk_of(restarted(&rt)).into_inner();
        let mut fuse = Fuse::new(disk, call);
        is_refused!(&rt, inspect(rt.alloc(), &mut fuse), "E16 Device");
        let mut disk = fuse.into_inner();
        tells(&rt, &mut disk, 3, 5, 1_100_000, 3);
    }
}

#[test]
fn a_look_leaves_each_sector(rt: HostRuntime) {
    let mut before = disk_of(restarted(&rt)).into_inner();
    let mut disk = disk_of(restarted(&rt)).into_inner();
    tells(&rt, &mut disk, 3, 5, 1_100_000, 3);
    for k in 0..641 {
        let sector = sector_at(&rt, &mut disk, k);
        same!(&rt, sector, sector_at(&rt, &mut before, k));
    }
}
