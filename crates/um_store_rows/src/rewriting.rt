//! Stores of layout 1, which an opening writes again as layout 2.
use crate::answers::{change, filled, sector_at};
use crate::inputs::{A, B, input, put, take};
use crate::keepers::{calls_of_open, disk_of, files_in, files_on, has_layout, made, over};
use crate::older::crashed;
use crate::submitting::end_service;
use std::process::Abort;
use um_asserts::{same, same_at};
use um_keeper::{Keeper, OpenedStore, Uncounted, inspect};
use um_sector::{Disk, Fuse, MemDisk};
use um_state::{Event, Happening};
use um_wire::spell;

/// Makes a store of layout 1 and this generation of one of generation 4, which has the same places: its snapshot is in slot A, and five sectors of
/// its log are written.
fn make_old(rt: &(impl AllocGlobal + Abort), disk: &mut MemDisk, generation: u8) {
    change(rt, disk, 0, 7, b'1');
    change(rt, disk, 1, 15, generation);
    disk.write(65, &filled(&[])).expect(rt, "not written");
    for k in 129..134 {
        change(rt, disk, k, 11, generation);
    }
}

/// A keeper of generation 4, in slot A, with no record.
fn fourth(rt: &(impl AllocGlobal + Abort)) -> Box<Keeper<MemDisk>> {
    let mut keeper = over(rt, made(rt));
    keeper.checkpoint().expect(rt, "no checkpoint");
    keeper
}

/// A store of layout 1 and this generation with five records: its service ended and was started again.
fn old(rt: &(impl AllocGlobal + Abort), generation: u8) -> MemDisk {
    let mut keeper = fourth(rt);
    end_service(rt, &mut keeper);
    let tick = input(rt, 1_100_000, Event::Happened(Happening::Tick));
    same!(rt, take(rt, &mut keeper, tick), 1);
    let mut disk = disk_of(keeper);
    make_old(rt, &mut disk, generation);
    disk.settled()
}

/// The bytes of the state that they stand for.
fn state_of_old(rt: &(impl AllocGlobal + Abort)) -> Vec<u8> {
    let mut keeper = over(rt, made(rt));
    end_service(rt, &mut keeper);
    let tick = input(rt, 1_100_000, Event::Happened(Happening::Tick));
    same!(rt, take(rt, &mut keeper, tick), 1);
    spell(rt.alloc(), keeper.state()).expect(rt, "no memory")
}

/// Asserts that an opening of a disk finds this generation, this number of records, and this state, and makes a store
/// of layout 2 of it, which is opened to the same.
fn opens(rt: &(impl AllocGlobal + Abort), disk: MemDisk, found: (u64, usize), state: &[u8]) {
    let (generation, records) = found;
    let wanted = OpenedStore {
        generation,
        records,
        cut_off: None,
        damaged: None,
    };
    let keeper = over(rt, disk);
    same!(rt, keeper.opened(), wanted);
    let mut disk = disk_of(keeper);
    // UMDISK02, slots of 64 sectors, a log of 512
    let first = [
        0x55, 0x4d, 0x44, 0x49, 0x53, 0x4b, 0x30, 0x32, 0, 0, 0, 0x40, 0, 0, 2, 0,
    ];
    has_layout(rt, &mut disk, 0, &first);
    let again = over(rt, disk);
    same!(rt, again.opened().records, 0);
    let bytes = spell(rt.alloc(), again.state()).expect(rt, "no memory");
    same!(rt, bytes.as_slice(), state);
}

/// Asserts the summary of a look at the old store, which stays as it is.
fn stands(rt: &(impl AllocGlobal + Abort), generation: u8) {
    let mut disk = old(rt, generation);
    let told = inspect(rt.alloc(), &mut disk).expect(rt, "not read");
    let numbers = (
        told.generation,
        told.records,
        told.clock.micros(),
        told.next.get(),
    );
    same!(rt, numbers, (u64::from(generation), 5, 1_100_000, 3));
    same!(rt, sector_at(rt, &mut disk, 0)[7], b'1');
    same!(
        rt,
        disk.unsynced(rt.alloc()).expect(rt, "no memory").len(),
        0
    );
}

#[test]
fn an_old_store_is_opened_and_written_anew(rt: HostRuntime) {
    let state = state_of_old(&rt);
    // an odd generation's records lie in the other area as layout 2 has it
    for generation in [2, 3] {
        stands(&rt, generation);
        opens(
            &rt,
            old(&rt, generation),
            (u64::from(generation), 5),
            &state,
        );
    }
}

/// Whether the new header counts if the call fails that is `back` before the opening's last one, the sync after sector
/// 0: before that are sector 0, the sync after the header, the header, the sync after the body, and the body.
fn is_renewed(back: u64, is_made: bool, pick: usize) -> bool {
    match back {
        0 | 1 => true,
        2 => pick == 1,
        3 => is_made && pick == 1,
        _ => false,
    }
}

/// Asserts that a crash at that call leaves the same state, with the write that wasn't synced and without it.
fn crashes_at(
    rt: &(impl AllocGlobal + Abort),
    generation: u8,
    fails: u64,
    back: u64,
    state: &[u8],
) {
    let before = (u64::from(generation), 5);
    let behind = (u64::from(generation) + 1, 0);
    for pick in 0..2 {
        let left = crashed(rt, Fuse::new(old(rt, generation), fails), pick);
        let found = if is_renewed(back, false, pick) {
            behind
        } else {
            before
        };
        opens(rt, left, found, state);
        let left = crashed(rt, Fuse::making(old(rt, generation), fails), pick);
        let found = if is_renewed(back, true, pick) {
            behind
        } else {
            before
        };
        opens(rt, left, found, state);
    }
}

#[test]
fn a_crash_while_it_is_written_anew_leaves_the_state_by_either_layout(rt: HostRuntime) {
    let state = state_of_old(&rt);
    for generation in [2, 3] {
        let calls = calls_of_open(&rt, old(&rt, generation));
        for back in 0..6 {
            let fails = calls.checked_sub(back).expect(&rt, "no call");
            crashes_at(&rt, generation, fails, back, &state);
        }
    }
}

/// The front of sector 0 after a crash before its sync, by whether its write is there.
const FIRSTS: [u8; 2] = [b'1', b'2'];

#[test]
fn a_crash_before_the_sync_behind_sector_0_leaves_either_layout_of_the_new_snapshot(
    rt: HostRuntime,
) {
    for generation in [2, 3] {
        let calls = calls_of_open(&rt, old(&rt, generation));
        for (pick, first) in FIRSTS.iter().enumerate() {
            let mut left = crashed(&rt, Fuse::new(old(&rt, generation), calls), pick);
            same_at!(&rt, sector_at(&rt, &mut left, 0)[7], *first, pick);
            let told = inspect(rt.alloc(), &mut left).expect(&rt, "not read");
            same!(
                &rt,
                (told.generation, told.records),
                (u64::from(generation) + 1, 0)
            );
        }
    }
}

/// A record of generation 3 that puts an empty file: its head without the number, a length of 31, and the input.
const PUT: &[u8] =
    b"UMLG\0\0\0\0\0\0\0\x03\0\0\0\0\0\0\0\0\0\0\0\0\0\0\0\x01\0\0\0\x1f\x02\x01\0\0\0\0\0\0\0\0\0\0\0\x0dlib/a.service\0\0\0\0";

/// A store of layout 1 and generation 3 whose log is full: 512 such records, of which the last is of the file of `b.service`.
fn with_full_log(rt: &(impl AllocGlobal + Abort)) -> MemDisk {
    let mut disk = disk_of(fourth(rt));
    make_old(rt, &mut disk, 3);
    for k in 129..641 {
        let number = k - 129;
        disk.write(k, &filled(PUT)).expect(rt, "not written");
        change(rt, &mut disk, k, 18, if number < 256 { 0 } else { 1 });
        change(rt, &mut disk, k, 19, (number % 256) as u8);
    }
    change(rt, &mut disk, 640, 50, b'b');
    disk.settled()
}

#[test]
fn the_whole_log_of_an_old_store_counts(rt: HostRuntime) {
    let mut keeper = over(&rt, with_full_log(&rt));
    let opened = keeper.opened();
    same!(
        &rt,
        (opened.generation, opened.records, files_in(&keeper)),
        (3, 512, 2)
    );
    same!(&rt, keeper.state().tree().get(B).is_some(), true);
    // generation 4 goes on in the first area
    take(&rt, &mut keeper, put(&rt, A, "#"));
    let mut disk = disk_of(keeper);
    let sector = sector_at(&rt, &mut disk, 129);
    same!(&rt, (sector[11], sector[18], sector[19]), (4, 0, 0));
    let again = over(&rt, disk);
    let opened = again.opened();
    same!(
        &rt,
        (opened.generation, opened.records, files_in(&again)),
        (4, 1, 2)
    );
}

#[test]
fn of_an_old_store_a_cut_off_reading_is_told_over_the_whole_log(rt: HostRuntime) {
    let mut disk = with_full_log(&rt);
    change(&rt, &mut disk, 300, 0, 0);
    // 340 records after it, of which the last is lost with them
    let cut_off = Some(Uncounted {
        sector: 300,
        records: 340,
    });
    let keeper = over(&rt, disk);
    let wanted = OpenedStore {
        generation: 3,
        records: 171,
        cut_off,
        damaged: None,
    };
    same!(&rt, keeper.opened(), wanted);
    same!(&rt, files_on(&rt, disk_of(keeper)), 1);
}
