//! A disk in memory, its crashes, and a disk that fails a call.
use crate::answers::{fails, sector_at};
use std::fmt::Debug;
use std::process::Abort;
use um_asserts::{same, same_at};
use um_sector::{
    Disk, Fault, Fields, Fuse, MemDisk, Sector, u32_at, u64_at, write_blank, write_run_synced,
};

/// A disk of three sectors.
fn empty(rt: &(impl AllocGlobal + Abort)) -> MemDisk {
    MemDisk::new(rt.alloc(), 3).expect(rt, "no memory")
}

/// Writes sectors one after another, each of this byte.
fn put<D: Disk>(rt: &impl Abort, disk: &mut D, writes: &[(usize, u8)]) {
    for (k, byte) in writes {
        disk.write(*k, &[*byte; 512]).expect(rt, "not written");
    }
}

/// Asserts that the last bytes of the three sectors are these, in this row.
fn ends<D: Disk, R: Debug + Drop>(rt: &impl Abort, disk: &mut D, wanted: [u8; 3], row: R) {
    let mut ends = [0; 3];
    for (k, end) in ends.iter_mut().enumerate() {
        *end = sector_at(rt, disk, k)[511];
    }
    same_at!(rt, ends, wanted, row);
}

/// Asserts that these writes are not synced.
fn is_unsynced(rt: &(impl AllocGlobal + Abort), disk: &MemDisk, wanted: &[(usize, usize)]) {
    let unsynced = disk.unsynced(rt.alloc()).expect(rt, "no memory");
    same!(rt, unsynced.as_slice(), wanted);
}

/// Syncs the disk.
fn sync<D: Disk>(rt: &impl Abort, disk: &mut D) {
    disk.sync().expect(rt, "not synced");
}

/// Asserts how often the disk was synced.
fn has_syncs(rt: &impl Abort, disk: &MemDisk, count: usize) {
    same!(rt, disk.syncs(), count);
}

/// Asserts that a write of this byte to the sector fails.
fn fails_a_write<D: Disk>(rt: &(impl AllocGlobal + Abort), disk: &mut D, k: usize, byte: u8) {
    fails(rt, disk.write(k, &[byte; 512]));
}

/// Asserts that a read of the sector fails.
fn fails_a_read<D: Disk>(rt: &(impl AllocGlobal + Abort), disk: &mut D, k: usize) {
    let mut sector: Sector = [0; 512];
    fails(rt, disk.read(k, &mut sector));
}

/// Asserts that a fault prints as this text.
fn a_fault_prints(rt: &(impl AllocGlobal + Abort), wanted: &str) {
    let printed = Fault.to_string(rt.alloc()).expect(rt, "no memory");
    same!(rt, printed.as_str(), wanted);
}

#[test]
fn a_disk_in_memory_gives_what_was_written_last(rt: HostRuntime) {
    let mut disk = empty(&rt);
    ends(&rt, &mut disk, [0, 0, 0], "the begin");
    put(&rt, &mut disk, &[(1, 7), (1, 8)]);
    ends(&rt, &mut disk, [0, 8, 0], "two writes");
    same!(&rt, disk.sectors(), 3);
    has_syncs(&rt, &disk, 0);
    sync(&rt, &mut disk);
    has_syncs(&rt, &disk, 1);
    is_unsynced(&rt, &disk, &[]);
    // a sector past the end is a fault
    fails_a_write(&rt, &mut disk, 3, 9);
    fails_a_read(&rt, &mut disk, 3);
    a_fault_prints(&rt, "the disk failed");
}

/// Asserts that a crash that leaves these writes leaves a synced disk of these last bytes.
fn leaves(rt: &(impl AllocGlobal + Abort), disk: &MemDisk, picks: &[usize], wanted: [u8; 3]) {
    let mut left = disk.crash(rt.alloc(), picks).expect(rt, "no memory");
    ends(rt, &mut left, wanted, picks);
    is_unsynced(rt, &left, &[]);
    has_syncs(rt, &left, 0);
}

/// The writes that a crash leaves of the disk below, and the last bytes of its sectors then.
const LEFT: &[(&[usize], [u8; 3])] = &[
    // any candidate of each sector
    (&[0, 0], [1, 0, 0]),
    (&[0, 1], [1, 0, 3]),
    (&[1, 0], [2, 0, 0]),
    (&[1, 1], [2, 0, 3]),
    (&[2, 0], [4, 0, 0]),
    (&[2, 1], [4, 0, 3]),
    // a candidate that isn't there is the first
    (&[3, 1], [1, 0, 3]),
    (&[2, 2], [4, 0, 0]),
    (&[2], [4, 0, 0]),
];

/// A disk with writes that aren't synced.
fn unsynced(rt: &(impl AllocGlobal + Abort)) -> MemDisk {
    let mut disk = empty(rt);
    put(rt, &mut disk, &[(0, 1)]);
    sync(rt, &mut disk);
    put(rt, &mut disk, &[(0, 2), (2, 3), (0, 4)]);
    is_unsynced(rt, &disk, &[(0, 3), (2, 2)]);
    disk
}

/// Asserts that this is that disk as it stands.
fn is_settled(rt: &(impl AllocGlobal + Abort), mut disk: MemDisk) {
    ends(rt, &mut disk, [4, 0, 3], "settled");
    is_unsynced(rt, &disk, &[]);
    has_syncs(rt, &disk, 0);
    leaves(rt, &disk, &[0, 0], [4, 0, 3]);
}

#[test]
fn a_crash_leaves_any_candidate_of_each_sector(rt: HostRuntime) {
    let disk = unsynced(&rt);
    for (picks, wanted) in LEFT {
        leaves(&rt, &disk, picks, *wanted);
    }
    is_settled(&rt, disk.settled());
}

/// Asserts how many calls the disk took.
fn has_calls(rt: &impl Abort, disk: &Fuse<MemDisk>, count: u64) {
    same!(rt, disk.calls(), count);
}

/// Asserts that the disk was synced once and has both writes.
fn is_synced_once(rt: &impl Abort, mut disk: MemDisk) {
    has_syncs(rt, &disk, 1);
    ends(rt, &mut disk, [1, 5, 0], "the end");
}

#[test]
fn a_fuse_fails_one_call_and_goes_on(rt: HostRuntime) {
    // the third call fails
    let mut disk = Fuse::new(empty(&rt), 3);
    put(&rt, &mut disk, &[(0, 1)]);
    same!(&rt, sector_at(&rt, &mut disk, 0)[511], 1);
    fails_a_write(&rt, &mut disk, 0, 2);
    has_calls(&rt, &disk, 3);
    ends(&rt, &mut disk, [1, 0, 0], "behind the failure");
    put(&rt, &mut disk, &[(1, 5)]);
    sync(&rt, &mut disk);
    has_calls(&rt, &disk, 8);
    is_synced_once(&rt, disk.into_inner());
}

/// Asserts that a crash leaves the write that failed, or the one before.
fn leaves_one_of_two(rt: &(impl AllocGlobal + Abort), disk: &MemDisk) {
    is_unsynced(rt, disk, &[(0, 2)]);
    leaves(rt, disk, &[0], [1, 0, 0]);
    leaves(rt, disk, &[1], [2, 0, 0]);
}

/// Asserts that a sync that a fuse fails isn't made.
fn makes_no_sync(rt: &(impl AllocGlobal + Abort)) {
    let mut disk = Fuse::making(empty(rt), 1);
    fails(rt, disk.sync());
    has_syncs(rt, &disk.into_inner(), 0);
}

#[test]
fn a_fuse_makes_the_write_that_it_fails(rt: HostRuntime) {
    let mut disk = Fuse::making(empty(&rt), 3);
    put(&rt, &mut disk, &[(0, 1)]);
    sync(&rt, &mut disk);
    fails_a_write(&rt, &mut disk, 0, 2);
    has_calls(&rt, &disk, 3);
    ends(&rt, &mut disk, [2, 0, 0], "behind the failure");
    leaves_one_of_two(&rt, &disk.into_inner());
    makes_no_sync(&rt);
}

/// Asserts that a run that is synced stands on the empty disk.
fn stands_synced(rt: &(impl AllocGlobal + Abort), disk: &mut MemDisk) {
    let run: [Sector; 2] = [[6; 512], [7; 512]];
    write_run_synced(disk, 1, &run).expect(rt, "not written");
    ends(rt, disk, [0, 6, 7], "a synced run");
    is_unsynced(rt, disk, &[]);
    fails(rt, write_run_synced(disk, 2, &run));
}

/// Asserts that a blank run stands on the disk.
fn stands_blank(rt: &impl Abort, disk: &mut MemDisk) {
    put(rt, disk, &[(0, 7), (1, 8), (2, 9)]);
    write_blank(disk, 1, 2).expect(rt, "not written");
    ends(rt, disk, [7, 0, 0], "a blank run");
}

#[test]
fn runs_stand_in_their_places(rt: HostRuntime) {
    stands_synced(&rt, &mut empty(&rt));
    stands_blank(&rt, &mut empty(&rt));
}

#[test]
fn fields_lie_one_behind_the_other_and_zeros_behind_them(rt: HostRuntime) {
    let mut fields = Fields::new();
    fields.put(b"ab");
    fields.put_u32(258);
    fields.put_u64(3);
    let sector = fields.sector();
    let got = (sector[4], u64_at(&sector, 6), u32_at(&sector, 14));
    same!(&rt, got, (1, 3, 0));
}
