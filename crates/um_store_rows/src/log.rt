//! The log of a store: its records and the disks that a crash leaves of them.
use crate::answers::{change, filled, sector_at};
use std::fmt::Debug;
use std::process::Abort;
use um_asserts::{is_refused, same, same_at};
use um_log::{Format, Layout, Log, Reader, Record, greatest, scan};
use um_sector::{Disk, Fuse, MemDisk};

/// The first sector of generation 2's records, after slots of 64 sectors.
const START: usize = 129;

/// That of generation 3's, in the other area.
const OTHER: usize = 385;

/// The log of a generation in a store of slots of 64 sectors and a log of 512.
fn log_of(rt: &impl Abort, generation: u64) -> Log {
    let layout = Layout::new(64, 512).expect(rt, "no layout");
    Log::new(layout, generation)
}

/// An empty disk for that store, and its log of generation 2.
fn empty(rt: &(impl AllocGlobal + Abort)) -> (MemDisk, Log) {
    let disk = MemDisk::new(rt.alloc(), 641).expect(rt, "no memory");
    (disk, log_of(rt, 2))
}

/// Appends these records.
fn append<D: Disk>(
    rt: &(impl AllocGlobal + Abort),
    disk: &mut D,
    log: &mut Log,
    records: &[&[u8]],
) {
    for record in records {
        let fits = log.append(disk, record).expect(rt, "no record");
        same!(rt, fits, true);
    }
}

/// Where each of the records begins, and its length.
fn told(rt: &(impl AllocGlobal + Abort), records: &[Record]) -> Vec<(usize, usize)> {
    let mut told = Vec::new(rt.alloc());
    for record in records {
        told.push((record.first, record.bytes.len()))
            .expect(rt, "no memory");
    }
    told
}

/// Asserts that a scan gives records that begin in these sectors and have these lengths, in this row.
fn has_records<D: Disk, R: Debug + Drop>(
    rt: &(impl AllocGlobal + Abort),
    disk: &mut D,
    log: &Log,
    wanted: &[(usize, usize)],
    row: R,
) {
    let records = scan(rt.alloc(), disk, Format::Two, log.layout, log.generation).expect(
        rt, "no scan",
    );
    let told = told(rt, &records);
    same_at!(rt, told.as_slice(), wanted, row);
}

/// Where five records of one sector begin, and their lengths.
const FIVE: &[(usize, usize)] = &[(129, 1), (130, 1), (131, 1), (132, 1), (133, 10)];

#[test]
fn a_record_is_written_by_its_layout(rt: HostRuntime) {
    let (mut disk, mut log) = empty(&rt);
    let record: &[u8] = &[0x01, 0x11, 0, 0, 0, 0, 0, 0x10, 0xc8, 0xe0];
    append(&rt, &mut disk, &mut log, &[&[7], &[7], &[7], &[7], record]);
    // its name, generation, number, part, parts, length and bytes
    let written = [
        0x55, 0x4d, 0x4c, 0x47, 0, 0, 0, 0, 0, 0, 0, 2, 0, 0, 0, 0, 0, 0, 0, 4, 0, 0, 0, 0, 0, 0,
        0, 1, 0, 0, 0, 10, 0x01, 0x11, 0, 0, 0, 0, 0, 0x10, 0xc8, 0xe0,
    ];
    same!(&rt, sector_at(&rt, &mut disk, START + 4), filled(&written));
    has_records(&rt, &mut disk, &log, FIVE, "the end");
}

/// The writes that a crash leaves of a record of two sectors, and the records then.
const TORN: &[([usize; 2], &[(usize, usize)])] = &[
    ([0, 0], &[]),
    ([1, 0], &[]),
    ([0, 1], &[]),
    ([1, 1], &[(129, 481)]),
];

/// The disk after a record of two sectors that it failed to sync.
fn torn(rt: &(impl AllocGlobal + Abort), disk: MemDisk, log: &mut Log) -> MemDisk {
    // the third call, the sync, fails
    let mut disk = Fuse::new(disk, 3);
    let failed = log.append(&mut disk, &[9; 481]);
    is_refused!(rt, failed, "E16 Device");
    disk.into_inner()
}

/// Asserts that a crash that leaves these writes leaves these records.
fn leaves(
    rt: &(impl AllocGlobal + Abort),
    disk: &MemDisk,
    log: &Log,
    picks: &[usize],
    wanted: &[(usize, usize)],
) {
    let mut left = disk.crash(rt.alloc(), picks).expect(rt, "no memory");
    has_records(rt, &mut left, log, wanted, picks);
}

#[test]
fn a_torn_record_is_absent(rt: HostRuntime) {
    let (disk, mut log) = empty(&rt);
    let disk = torn(&rt, disk, &mut log);
    same!(&rt, (log.next, log.number), (START, 0));
    for (picks, wanted) in TORN {
        leaves(&rt, &disk, &log, picks, wanted);
    }
}

#[test]
fn a_record_takes_the_least_number_of_sectors(rt: HostRuntime) {
    let (mut disk, mut log) = empty(&rt);
    append(&rt, &mut disk, &mut log, &[&[5; 480]]);
    same!(&rt, (log.next, disk.syncs()), (START + 1, 1));
    append(&rt, &mut disk, &mut log, &[&[6; 481]]);
    same!(&rt, (log.next, disk.syncs()), (START + 3, 2));
    append(&rt, &mut disk, &mut log, &[&[7]]);
    let wanted = [(START, 480), (START + 1, 481), (START + 3, 1)];
    has_records(&rt, &mut disk, &log, &wanted, "the end");
}

/// Asserts that a record of this length takes its parts and a sync, so that the disk has taken this many calls then.
fn takes_calls<D: Disk>(
    rt: &(impl AllocGlobal + Abort),
    disk: &mut Fuse<D>,
    log: &mut Log,
    record: &[u8],
    calls: u64,
) {
    append(rt, disk, log, &[record]);
    same!(rt, disk.calls(), calls);
}

/// Asserts that a scan reads of each of both records its parts, and after them one sector.
fn is_scanned<D: Disk>(rt: &(impl AllocGlobal + Abort), disk: &mut Fuse<D>, log: &Log) {
    let wanted = [(START, 480), (START + 1, 481)];
    has_records(rt, disk, log, &wanted, "the end");
    same!(rt, disk.calls(), 9);
}

#[test]
fn each_call_makes_so_many_disk_calls(rt: HostRuntime) {
    let (disk, mut log) = empty(&rt);
    let mut disk = Fuse::new(disk, 0);
    takes_calls(&rt, &mut disk, &mut log, &[5; 480], 2);
    takes_calls(&rt, &mut disk, &mut log, &[6; 481], 5);
    is_scanned(&rt, &mut disk, &log);
}

/// Asserts that all writes are synced.
fn is_synced(rt: &(impl AllocGlobal + Abort), disk: &MemDisk) {
    let unsynced = disk.unsynced(rt.alloc()).expect(rt, "no memory");
    same!(rt, unsynced.len(), 0);
}

/// Asserts that this record doesn't fit, and that nothing is written.
fn does_not_fit(rt: &(impl AllocGlobal + Abort), disk: &mut MemDisk, log: &mut Log, record: &[u8]) {
    let before = (log.next, log.number, disk.syncs());
    let fits = log.append(disk, record).expect(rt, "refused");
    same!(rt, fits, false);
    same!(rt, (log.next, log.number, disk.syncs()), before);
    is_synced(rt, disk);
}

/// Asserts which sizes of a record fit into an empty log.
fn fits_by_size(rt: &impl Abort, log: &Log) {
    let fits = [
        log.fits(0),
        log.fits(1),
        log.fits(122_880),
        log.fits(122_881),
    ];
    same!(rt, fits, [false, true, true, false]);
}

/// Asserts that the longest record fits into an empty area, all of which it takes: 256 sectors, after which no record
/// is written.
fn fits_once(rt: &(impl AllocGlobal + Abort), disk: &mut MemDisk, log: &mut Log, long: &[u8]) {
    let before = log.next;
    append(rt, disk, log, &[long]);
    same!(rt, log.next, log.layout.log_end(log.generation));
    does_not_fit(rt, disk, log, long);
    does_not_fit(rt, disk, log, &[7]);
    has_records(rt, disk, log, &[(before, 122_880)], before);
}

#[test]
fn a_record_has_1_to_122_880_bytes_and_is_not_written_without_room(rt: HostRuntime) {
    let (mut disk, mut log) = empty(&rt);
    fits_by_size(&rt, &log);
    does_not_fit(&rt, &mut disk, &mut log, &[]);
    let long = vec![in rt.alloc(); 5u8; 122_880].expect(&rt, "no memory");
    fits_once(&rt, &mut disk, &mut log, &long);
    same!(&rt, log.next, START + 256);
    let mut next = log_of(&rt, 3);
    fits_by_size(&rt, &next);
    fits_once(&rt, &mut disk, &mut next, &long);
    same!(&rt, next.next, OTHER + 256);
    // those before stand as they did
    has_records(&rt, &mut disk, &log, &[(START, 122_880)], "before");
}

#[test]
fn two_generations_have_an_area_each_and_the_one_behind_takes_the_first_again(rt: HostRuntime) {
    let (mut disk, mut log) = empty(&rt);
    append(&rt, &mut disk, &mut log, &[&[7], &[7]]);
    let mut next = log_of(&rt, 3);
    append(&rt, &mut disk, &mut next, &[&[8; 481]]);
    has_records(&rt, &mut disk, &log, &[(START, 1), (START + 1, 1)], 2);
    has_records(&rt, &mut disk, &next, &[(OTHER, 481)], 3);
    let mut behind = log_of(&rt, 4);
    append(&rt, &mut disk, &mut behind, &[&[9; 480]]);
    has_records(&rt, &mut disk, &log, &[], "over 2");
    has_records(&rt, &mut disk, &next, &[(OTHER, 481)], "beside 3");
    has_records(&rt, &mut disk, &behind, &[(START, 480)], 4);
}

/// Bytes of a record, and another value of each, with which it is none: generation, length 0, length above the limit,
/// parts, a byte after the payload, the record's number, the name.
const NO_RECORDS: &[(usize, u8)] = &[
    (11, 3),
    (31, 0),
    (28, 1),
    (27, 2),
    (511, 1),
    (19, 0),
    (0, 0),
];

/// Asserts that of three records only the first is left where this byte of the second is another.
fn is_none_with(rt: &(impl AllocGlobal + Abort), at: usize, byte: u8) {
    let (mut disk, mut log) = empty(rt);
    append(rt, &mut disk, &mut log, &[&[7], &[7], &[7]]);
    let wanted = [(START, 1), (START + 1, 1), (START + 2, 1)];
    has_records(rt, &mut disk, &log, &wanted, at);
    change(rt, &mut disk, START + 1, at, byte);
    has_records(rt, &mut disk, &log, &[(START, 1)], at);
}

#[test]
fn what_is_not_as_it_is_written_is_no_record(rt: HostRuntime) {
    for (at, byte) in NO_RECORDS {
        is_none_with(&rt, *at, *byte);
    }
}

/// The sectors of a log of an odd number of sectors, in an order, and the generation that each says of itself: one of each area, then the
/// one that is in neither.
const SAYING: &[(usize, u8)] = &[(140, 4), (400, 5), (641, 6)];

/// The greatest generation that stands on the disk of a store whose newest snapshot is of generation 2.
fn greatest_of(rt: &impl Abort, disk: &mut MemDisk, layout: Layout) -> Option<u64> {
    let reader = Reader::new(Format::Two, layout, 2);
    let following = reader.following().expect(rt, "no generation behind it");
    let here = reader.remains(disk).expect(rt, "refused").greatest;
    let behind = following.remains(disk).expect(rt, "refused").greatest;
    let told = greatest(disk, Format::Two, layout, here, Some(behind));
    told.expect(rt, "refused")
}

#[test]
fn the_greatest_generation_of_the_whole_log_is_told(rt: HostRuntime) {
    let layout = Layout::new(64, 513).expect(&rt, "no layout");
    let mut disk = MemDisk::new(rt.alloc(), 642).expect(&rt, "no memory");
    // the last that counts
    same!(&rt, greatest_of(&rt, &mut disk, layout), Some(3));
    for (sector, generation) in SAYING {
        let says = filled(&[0x55, 0x4d, 0x4c, 0x47, 0, 0, 0, 0, 0, 0, 0, *generation]);
        disk.write(*sector, &says).expect(&rt, "not written");
        let told = greatest_of(&rt, &mut disk, layout);
        same_at!(&rt, told, Some(*generation as u64), *sector);
    }
}
