//! Inputs that a keeper takes: their records, the disks that a crash leaves, and the refusals.
use crate::answers::sector_at;
use crate::inputs::{A, B, input, put, put_long, submit, take};
use crate::keepers::{
    calls_since, crash, disk_of, fails_checkpoints, files_in, files_on, has_layout, opened, over,
};
use std::process::Abort;
use um_asserts::{is_refused, same, unit};
use um_keeper::{Keeper, OpenedStore};
use um_model::{End, JobMode, Moment, UnitVerb};
use um_name::UnitName;
use um_sector::{Disk, Fuse, MemDisk, Sector};
use um_state::{Command, Event, Happening};
use um_wire::spell;

/// The first sector of the area of generation 3, of slots of 64 sectors and a log of 512.
const START: usize = 385;

/// A service that is started again after its delay, of a tenth of a second.
pub const AGAIN: &str = "[Service]\nExecStart=/bin/sleep 9\nRestart=on-failure\n";

/// Takes an event at the moment, and returns how many processes it starts.
fn take_at<D: Disk>(
    rt: &(impl AllocGlobal + Abort),
    keeper: &mut Keeper<D>,
    micros: u64,
    event: Event,
) -> usize {
    take(rt, keeper, input(rt, micros, event))
}

/// The event that starts a unit.
pub fn start_of(unit: UnitName) -> Event {
    Event::Commanded(Command::ForUnit {
        verb: UnitVerb::Start,
        unit,
        mode: JobMode::Replace,
    })
}

/// Lets a keeper's service end with code 1 at a second: four records.
pub fn end_service<D: Disk>(rt: &(impl AllocGlobal + Abort), keeper: &mut Keeper<D>) {
    take(rt, keeper, put(rt, A, AGAIN));
    let reload = Event::Commanded(Command::DaemonReload);
    take_at(rt, keeper, 0, reload);
    let unit = unit!(rt, "a.service");
    same!(rt, take_at(rt, keeper, 0, start_of(unit)), 1);
    let end = Event::Happened(Happening::ProcessEnded {
        number: 1,
        end: End::Code(1),
    });
    same!(rt, take_at(rt, keeper, 1_000_000, end), 0);
}

/// A keeper whose service ended so.
pub fn ended(rt: &(impl AllocGlobal + Abort)) -> Box<Keeper<Fuse<MemDisk>>> {
    let mut keeper = opened(rt, 0);
    end_service(rt, &mut keeper);
    keeper
}

/// The keeper that is opened over the disk of this one; asserts that it has its state.
fn opened_again<D: Disk>(
    rt: &(impl AllocGlobal + Abort),
    keeper: Box<Keeper<D>>,
) -> Box<Keeper<D>> {
    let before = spell(rt.alloc(), keeper.state()).expect(rt, "no memory");
    let again = over(rt, disk_of(keeper));
    let after = spell(rt.alloc(), again.state()).expect(rt, "no memory");
    same!(rt, after.as_slice(), before.as_slice());
    again
}

/// That keeper after a tick at the moment; asserts how many processes it starts.
fn ticked(
    rt: &(impl AllocGlobal + Abort),
    micros: u64,
    starts: usize,
) -> Box<Keeper<Fuse<MemDisk>>> {
    let mut keeper = ended(rt);
    let tick = Event::Happened(Happening::Tick);
    same!(rt, take_at(rt, &mut keeper, micros, tick), starts);
    keeper
}

#[test]
fn a_tick_is_a_record_where_it_restarts_and_else_no_disk_call(rt: HostRuntime) {
    let before = disk_of(ended(&rt)).calls();
    same!(&rt, disk_of(ticked(&rt, 1_099_999, 0)).calls(), before);
    let mut disk = disk_of(opened_again(&rt, ticked(&rt, 1_100_000, 1)));
    // its name, generation, number, part, parts, length and bytes
    let written = [
        0x55, 0x4d, 0x4c, 0x47, 0, 0, 0, 0, 0, 0, 0, 3, 0, 0, 0, 0, 0, 0, 0, 4, 0, 0, 0, 0, 0, 0,
        0, 1, 0, 0, 0, 10, 0x02, 0x11, 0, 0, 0, 0, 0, 0x10, 0xc8, 0xe0,
    ];
    has_layout(&rt, &mut disk, START + 4, &written);
}

/// A keeper of two files, each in a record of generation 3.
fn filed(rt: &(impl AllocGlobal + Abort)) -> Box<Keeper<Fuse<MemDisk>>> {
    let mut keeper = opened(rt, 0);
    take(rt, &mut keeper, put(rt, A, ""));
    take(rt, &mut keeper, put(rt, B, ""));
    keeper
}

/// Asserts that an open of its disk finds this generation and this number of records, and the state.
fn finds(
    rt: &(impl AllocGlobal + Abort),
    keeper: Box<Keeper<Fuse<MemDisk>>>,
    generation: u64,
    records: usize,
) {
    let again = opened_again(rt, keeper);
    let wanted = OpenedStore {
        generation,
        records,
        cut_off: None,
        damaged: None,
    };
    same!(rt, again.opened(), wanted);
    same!(rt, files_in(&again), 2);
}

#[test]
fn behind_a_checkpoint_nothing_is_replayed(rt: HostRuntime) {
    finds(&rt, filed(&rt), 3, 2);
    let mut keeper = filed(&rt);
    keeper.checkpoint().expect(&rt, "no checkpoint");
    finds(&rt, keeper, 4, 0);
}

/// The lowest bytes of the generation and the number in a sector of the log.
fn lowest_bytes(sector: &Sector) -> (u8, u8) {
    (sector[11], sector[19])
}

#[test]
fn behind_a_full_area_a_snapshot_begins_and_the_other_area_is_gone_on_in(rt: HostRuntime) {
    let mut keeper = opened(&rt, 0);
    for _ in 0..256 {
        take(&rt, &mut keeper, put(&rt, A, ""));
    }
    same!(&rt, keeper.left(), 0);
    take(&rt, &mut keeper, put(&rt, A, ""));
    same!(&rt, keeper.left(), 1);
    // a record and a sync each
    let disk = disk_of(keeper);
    same!(&rt, calls_since(&rt, &disk), 514);
    let mut disk = disk.into_inner();
    let last = sector_at(&rt, &mut disk, START + 255);
    same!(&rt, lowest_bytes(&last), (3, 255));
    let first = sector_at(&rt, &mut disk, 129);
    same!(&rt, lowest_bytes(&first), (4, 0));
    same!(&rt, files_on(&rt, disk), 1);
}

#[test]
fn a_record_takes_a_call_a_part_and_a_sync(rt: HostRuntime) {
    for (length, calls) in [(449, 2), (450, 3)] {
        let mut keeper = opened(&rt, 0);
        take(&rt, &mut keeper, put_long(&rt, A, length));
        same!(&rt, calls_since(&rt, &disk_of(keeper)), calls);
    }
}

/// Asserts that a file of this length, in bytes, is refused.
fn refuses_long<D: Disk>(
    rt: &(impl AllocGlobal + Abort),
    keeper: &mut Keeper<D>,
    length: usize,
    wanted: &str,
) {
    is_refused!(rt, submit(keeper, put_long(rt, A, length)), wanted);
}

#[test]
fn what_just_fits_is_opened_again_and_a_byte_more_is_refused_without_a_disk_call(rt: HostRuntime) {
    let mut keeper = opened(&rt, 0);
    take(&rt, &mut keeper, put_long(&rt, A, 31_955));
    let _ = opened_again(&rt, keeper);
    let mut keeper = opened(&rt, 0);
    refuses_long(&rt, &mut keeper, 31_956, "E14 NoRoom");
    same!(&rt, calls_since(&rt, &disk_of(keeper)), 0);
}

#[test]
fn a_store_at_the_last_moment_is_opened_again(rt: HostRuntime) {
    let mut keeper = opened(&rt, 0);
    let reload = Event::Commanded(Command::DaemonReload);
    take_at(&rt, &mut keeper, 1 << 62, reload);
    let again = over(&rt, disk_of(keeper));
    same!(&rt, Some(again.state().clock()), Moment::new(1 << 62));
}

/// Asserts that a file is refused, since the store is to be opened again.
fn wants_opening<D: Disk>(rt: &(impl AllocGlobal + Abort), keeper: &mut Keeper<D>) {
    is_refused!(rt, submit(keeper, put(rt, A, "")), "E17 Reopen");
}

#[test]
fn a_failed_checkpoint_wants_the_store_opened_again(rt: HostRuntime) {
    // the body, a sync, the header, and the sync that fails
    let mut keeper = opened(&rt, 4);
    fails_checkpoints(&rt, &mut keeper);
    wants_opening(&rt, &mut keeper);
    let again = over(&rt, disk_of(keeper));
    same!(&rt, again.state().clock(), Moment::FIRST);
    // generation 4 was written and is read: the next one is 6, in slot B
    let header = [
        0x55, 0x4d, 0x53, 0x4c, 0x4f, 0x54, 0x30, 0x31, 0, 0, 0, 0, 0, 0, 0, 6, 0, 0, 0, 0, 0, 0,
        0, 0x25,
    ];
    has_layout(&rt, &mut disk_of(again), 65, &header);
}

/// The keeper after a crash within the record of 481 bytes, opened again.
fn left(rt: &(impl AllocGlobal + Abort), picks: &[usize]) -> Box<Keeper<MemDisk>> {
    // the record's sync: two sectors are written before it
    let mut keeper = opened(rt, 3);
    refuses_long(rt, &mut keeper, 450, "E16 Device");
    over(rt, crash(rt, disk_of(keeper), picks))
}

/// The writes that a crash leaves of that record, and how many files there are then.
const TORN: &[([usize; 2], usize)] = &[([0, 0], 0), ([1, 0], 0), ([0, 1], 0), ([1, 1], 1)];

#[test]
fn a_torn_record_is_absent_and_one_in_its_place_counts_alone(rt: HostRuntime) {
    for (picks, files) in TORN {
        same!(&rt, files_in(&left(&rt, picks)), *files);
    }
    let mut keeper = left(&rt, &[0, 1]);
    take(&rt, &mut keeper, put_long(&rt, B, 450));
    let again = over(&rt, disk_of(keeper));
    same!(&rt, files_in(&again), 1);
    same!(&rt, again.state().tree().get(B).is_some(), true);
}
