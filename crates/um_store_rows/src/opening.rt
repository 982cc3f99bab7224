//! Stores that are made and opened: their sectors, and which are refused with which sector.
use crate::answers::sector_at;
use crate::inputs::{A, put, take};
use crate::keepers::{
    calls_of_open, crash, disk_of, fails_checkpoints, files_on, has_layout, made, over,
};
use std::process::Abort;
use um_asserts::{is_refused, same};
use um_keeper::{Keeper, create, inspect};
use um_model::Layout;
use um_sector::{Disk, Fuse, MemDisk, Sector};

/// Writes a sector.
fn write(rt: &impl Abort, disk: &mut MemDisk, k: usize, sector: &Sector) {
    disk.write(k, sector).expect(rt, "not written");
}

/// A new store on a disk of another size, as far as it goes.
fn made_on(rt: &(impl AllocGlobal + Abort), sectors: usize) -> MemDisk {
    let mut from = made(rt);
    let mut disk = MemDisk::new(rt.alloc(), sectors).expect(rt, "no memory");
    for k in 0..sectors.min(641) {
        write(rt, &mut disk, k, &sector_at(rt, &mut from, k));
    }
    disk
}

/// Other bytes in a sector from a place on.
type Damage = (usize, usize, &'static [u8]);

/// Writes other bytes into a sector from a place on.
fn change(rt: &impl Abort, disk: &mut MemDisk, damage: &Damage) {
    let (k, at, bytes) = *damage;
    let mut sector = sector_at(rt, disk, k);
    for (i, place) in sector.iter_mut().enumerate() {
        if i >= at && i - at < bytes.len() {
            *place = bytes[i - at];
        }
    }
    write(rt, disk, k, &sector);
}

/// A store that was opened once, generation 3 in slot B, with these changes.
fn changed(rt: &(impl AllocGlobal + Abort), changes: &[Damage]) -> MemDisk {
    let mut disk = disk_of(over(rt, made(rt)));
    for each in changes {
        change(rt, &mut disk, each);
    }
    disk
}

/// Asserts that a disk isn't opened, and gives it back.
fn refuses<D: Disk>(rt: &(impl AllocGlobal + Abort), disk: D, wanted: &str) -> D {
    match Keeper::open(rt.alloc(), disk) {
        Ok(_) => rt.abort(),
        Err((refusal, disk)) => {
            let answer: Result<(), _> = Err(refusal);
            is_refused!(rt, answer, wanted);
            disk
        }
    }
}

#[test]
fn a_new_store_has_its_layout_and_one_snapshot(rt: HostRuntime) {
    let mut disk = made(&rt);
    // UMDISK02, slots of 64 sectors, a log of 512
    let first = [
        0x55, 0x4d, 0x44, 0x49, 0x53, 0x4b, 0x30, 0x32, 0, 0, 0, 0x40, 0, 0, 2, 0,
    ];
    has_layout(&rt, &mut disk, 0, &first);
    // UMSLOT01, generation 1, a body of 37 bytes
    let header = [
        0x55, 0x4d, 0x53, 0x4c, 0x4f, 0x54, 0x30, 0x31, 0, 0, 0, 0, 0, 0, 0, 1, 0, 0, 0, 0, 0, 0,
        0, 0x25,
    ];
    has_layout(&rt, &mut disk, 1, &header);
    // the state of a new store: profile 2, two empty trees, no boot, the clock 0, the next number 1
    let body = [
        2, 0, 0, 0, 0, 0, 0, 0, 0, 0, 0, 0, 0, 0, 0, 0, 0, 0, 0, 0, 0, 0, 0, 0, 0, 0, 0, 0, 1,
    ];
    has_layout(&rt, &mut disk, 2, &body);
    has_layout(&rt, &mut disk, 65, &[]);
    // a disk without room for the layout is damaged
    refuses(&rt, made_on(&rt, 640), "E18 Damaged 0");
    over(&rt, made_on(&rt, 642));
    refuses(&rt, made_on(&rt, 0), "E19 NotFormatted");
}

/// A sector of the log that spells no input: generation 3, record 0, part 0 of 1, a length of 1, and that byte.
const NO_INPUT: &[u8] = &[
    0x55, 0x4d, 0x4c, 0x47, 0, 0, 0, 0, 0, 0, 0, 3, 0, 0, 0, 0, 0, 0, 0, 0, 0, 0, 0, 0, 0, 0, 0, 1,
    0, 0, 0, 1, 9,
];

/// The same of generation 4.
const NO_NEXT_INPUT: &[u8] = &[
    0x55, 0x4d, 0x4c, 0x47, 0, 0, 0, 0, 0, 0, 0, 4, 0, 0, 0, 0, 0, 0, 0, 0, 0, 0, 0, 0, 0, 0, 0, 1,
    0, 0, 0, 1, 9,
];

/// A sector of the log that says generation 5, of no whole record.
const LATER: &[u8] = &[0x55, 0x4d, 0x4c, 0x47, 0, 0, 0, 0, 0, 0, 0, 5];

/// The generation before the last one.
const BEFORE_LAST: &[u8] = &[255, 255, 255, 255, 255, 255, 255, 254];

/// The one before that.
const TWO_BEFORE: &[u8] = &[255, 255, 255, 255, 255, 255, 255, 253];

/// The damage, and how the open is refused.
const REFUSED: &[(&[Damage], &str)] = &[
    // sector 0 shows whether a store is there
    (&[(0, 0, &[0; 16])], "E19 NotFormatted"),
    (&[(0, 11, &[63])], "E18 Damaged 0"),
    (&[(0, 7, b"9")], "E22 OtherLayout"),
    (&[(0, 7, b"3")], "E22 OtherLayout"),
    (&[(0, 7, b"0")], "E22 OtherLayout"),
    // without a header slot A is named
    (&[(1, 0, &[0; 24]), (65, 0, &[0; 24])], "E18 Damaged 1"),
    // a body that spells no state, a record that spells no input
    (&[(66, 0, &[9])], "E18 Damaged 66"),
    (&[(385, 0, NO_INPUT)], "E18 Damaged 385"),
    // and one of the next generation, in the other area, also after one of this generation
    (&[(129, 0, NO_NEXT_INPUT)], "E18 Damaged 129"),
    (
        &[(129, 0, NO_NEXT_INPUT), (385, 0, NO_INPUT)],
        "E18 Damaged 385",
    ),
    // in the last generation a body that spells no state is reported first
    (&[(65, 8, &[255; 8]), (66, 0, &[9])], "E18 Damaged 66"),
    (&[(65, 8, &[255; 8])], "E20 GenerationsSpent"),
    // the next generation may be in the log of a header before the last one
    (&[(65, 8, BEFORE_LAST)], "E20 GenerationsSpent"),
    (&[(65, 8, BEFORE_LAST), (66, 0, &[9])], "E18 Damaged 66"),
    (
        &[(640, 4, &[255; 8]), (640, 0, b"UMLG")],
        "E20 GenerationsSpent",
    ),
];

/// Asserts that a look at a disk is refused as its opening is, but for E20.
fn looks_alike(rt: &(impl AllocGlobal + Abort), disk: &mut MemDisk, wanted: &str) {
    let told = inspect(rt.alloc(), disk);
    if wanted == "E20 GenerationsSpent" {
        same!(rt, told.map(|told| told.records).ok(), Some(0));
    } else {
        is_refused!(rt, told, wanted);
    }
}

/// Asserts that a store with these changes isn't opened, and that each sector is as it was.
fn leaves(rt: &(impl AllocGlobal + Abort), changes: &[Damage], wanted: &str) {
    let mut before = changed(rt, changes);
    looks_alike(rt, &mut before, wanted);
    let mut disk = refuses(rt, changed(rt, changes), wanted);
    for k in 0..641 {
        let sector = sector_at(rt, &mut disk, k);
        same!(rt, sector, sector_at(rt, &mut before, k));
    }
}

#[test]
fn what_is_refused_is_named_and_left_as_it_was(rt: HostRuntime) {
    for (changes, wanted) in REFUSED {
        leaves(&rt, changes, wanted);
    }
}

/// Asserts that such a store is opened in the state that it stands for, and the content of its slot A then.
fn opens_above(rt: &(impl AllocGlobal + Abort), changes: &[Damage], header: &[u8]) {
    let mut disk = disk_of(over(rt, changed(rt, changes)));
    has_layout(rt, &mut disk, 1, header);
    same!(rt, files_on(rt, disk), 0);
}

/// UMSLOT01, generation 6, a body of 37 bytes.
const SIXTH: &[u8] = &[
    0x55, 0x4d, 0x53, 0x4c, 0x4f, 0x54, 0x30, 0x31, 0, 0, 0, 0, 0, 0, 0, 6, 0, 0, 0, 0, 0, 0, 0,
    0x25,
];

/// The same of the last generation.
const LAST: &[u8] = &[
    0x55, 0x4d, 0x53, 0x4c, 0x4f, 0x54, 0x30, 0x31, 255, 255, 255, 255, 255, 255, 255, 255, 0, 0,
    0, 0, 0, 0, 0, 0x25,
];

#[test]
fn an_image_with_a_later_sector_is_opened_above_it(rt: HostRuntime) {
    // in either area
    opens_above(&rt, &[(640, 0, LATER)], SIXTH);
    opens_above(&rt, &[(384, 0, LATER)], SIXTH);
}

#[test]
fn the_last_generation_is_written_and_not_opened(rt: HostRuntime) {
    let mut disk = disk_of(over(&rt, changed(&rt, &[(65, 8, TWO_BEFORE)])));
    has_layout(&rt, &mut disk, 1, LAST);
    looks_alike(&rt, &mut disk, "E20 GenerationsSpent");
    refuses(&rt, disk, "E20 GenerationsSpent");
}

/// A store that was opened once, with a log of 513 sectors: the last one is past both areas.
fn odd(rt: &(impl AllocGlobal + Abort)) -> MemDisk {
    let mut disk = MemDisk::new(rt.alloc(), 642).expect(rt, "no memory");
    let layout = Layout::new(64, 513).expect(rt, "no layout");
    create(rt.alloc(), &mut disk, layout).expect(rt, "not created");
    disk_of(over(rt, disk))
}

#[test]
fn the_odd_sector_of_a_log_is_looked_at(rt: HostRuntime) {
    let mut disk = odd(&rt);
    change(&rt, &mut disk, &(641, 0, LATER));
    let mut disk = disk_of(over(&rt, disk));
    has_layout(&rt, &mut disk, 1, SIXTH);
}

/// A disk whose store has one file, in its log.
fn filed(rt: &(impl AllocGlobal + Abort)) -> MemDisk {
    let mut keeper = over(rt, made(rt));
    take(rt, &mut keeper, put(rt, A, ""));
    disk_of(keeper)
}

/// That store, after a checkpoint whose last sync failed: its header was written, and isn't synced.
fn half_checkpointed(rt: &(impl AllocGlobal + Abort)) -> MemDisk {
    // the body, a sync, the header, and the sync that fails
    let calls = calls_of_open(rt, filed(rt));
    let fails = calls.checked_add(4).expect(rt, "too many");
    let mut keeper = over(rt, Fuse::new(filed(rt), fails));
    fails_checkpoints(rt, &mut keeper);
    disk_of(keeper).into_inner()
}

/// The disk that a crash leaves of an open that a failing call ends.
fn crashed(rt: &(impl AllocGlobal + Abort), disk: Fuse<MemDisk>, pick: usize) -> MemDisk {
    let disk = refuses(rt, disk, "E16 Device");
    crash(rt, disk, &[pick])
}

/// The store of one file, or the half checkpointed one.
fn one_file(rt: &(impl AllocGlobal + Abort), is_half: bool) -> MemDisk {
    if is_half {
        half_checkpointed(rt)
    } else {
        filed(rt)
    }
}

/// Asserts that a crash after the failed call of that number of an open of such a store leaves its file, also if a
/// write that failed was made.
fn adds_no_state(rt: &(impl AllocGlobal + Abort), is_half: bool, fails: u64) {
    for pick in 0..2 {
        let left = crashed(rt, Fuse::new(one_file(rt, is_half), fails), pick);
        same!(rt, files_on(rt, left), 1);
        let left = crashed(rt, Fuse::making(one_file(rt, is_half), fails), pick);
        same!(rt, files_on(rt, left), 1);
    }
}

/// The number of the call of an open that is `back` before the last one.
fn call_before_last(rt: &impl Abort, calls: u64, back: u64) -> u64 {
    calls.checked_sub(back).expect(rt, "no call")
}

#[test]
fn crashes_inside_an_open_add_no_state(rt: HostRuntime) {
    let calls = calls_of_open(&rt, filed(&rt));
    let half_calls = calls_of_open(&rt, half_checkpointed(&rt));
    // the body, its sync, the header, its sync
    for back in 0..4 {
        adds_no_state(&rt, false, call_before_last(&rt, calls, back));
        adds_no_state(&rt, true, call_before_last(&rt, half_calls, back));
    }
    // its first sync and its first read: the header of the failed checkpoint stands, or the one before
    adds_no_state(&rt, true, 1);
    adds_no_state(&rt, true, 2);
    same!(&rt, files_on(&rt, half_checkpointed(&rt)), 1);
    // and an open that begins on the disk that such a crash left
    let fails = call_before_last(&rt, calls, 2);
    let left = crashed(&rt, Fuse::new(filed(&rt), fails), 1);
    let disk = crashed(&rt, Fuse::new(left, fails), 1);
    same!(&rt, files_on(&rt, disk), 1);
}
