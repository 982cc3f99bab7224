//! The two slots of a store and its sector 0.
use crate::answers::{change, filled, sector_at};
use std::fmt::Debug;
use std::process::Abort;
use um_asserts::{is_refused, same, same_at};
use um_sector::{Disk, Fuse, MemDisk, Sector};
use um_slot::{
    Format, Home, Layout, Slot, finish, newest, read_superblock, superblock, write_first,
    write_part,
};
use um_wire::Refusal;

/// Slots of 64 sectors, a log of 512.
pub fn small(rt: &impl Abort) -> Layout {
    Layout::new(64, 512).expect(rt, "no layout")
}

/// A snapshot: its home, the length of its body, and the byte that its body has at each place.
pub type Stored = (Home, usize, u8);

/// Asserts that this is the newest snapshot, in this row.
pub fn stores<D: Disk, R: Debug + Drop>(
    rt: &(impl AllocGlobal + Abort),
    disk: &mut D,
    wanted: Stored,
    row: R,
) {
    let found = newest(rt.alloc(), disk, small(rt)).expect(rt, "no snapshot");
    let (home, size, byte) = wanted;
    let body = vec![in rt.alloc(); byte; size].expect(rt, "no memory");
    same_at!(rt, (found.home, found.body), (home, body), row);
}

/// Asserts that no header is well-formed.
fn has_none<D: Disk>(rt: &(impl AllocGlobal + Abort), disk: &mut D) {
    let found = newest(rt.alloc(), disk, small(rt));
    is_refused!(rt, found, "E18 Damaged 1");
}

/// An empty disk.
fn empty(rt: &(impl AllocGlobal + Abort)) -> MemDisk {
    MemDisk::new(rt.alloc(), 641).expect(rt, "no memory")
}

/// A disk with generation 1 in slot A: a body of 37 bytes.
pub fn first(rt: &(impl AllocGlobal + Abort)) -> MemDisk {
    let mut disk = empty(rt);
    let bytes = vec![in rt.alloc(); 7u8; 37].expect(rt, "no memory");
    let written = write_first(&mut disk, small(rt), &bytes).expect(rt, "refused");
    same!(rt, written, Some(A1));
    disk
}

pub const A1: Home = Home {
    slot: Slot::A,
    generation: 1,
};

pub const B2: Home = Home {
    slot: Slot::B,
    generation: 2,
};

/// The snapshot that is stored first.
pub const OLD: Stored = (A1, 37, 7);

/// The snapshot that is stored after it: a body of two sectors.
const NEW: Stored = (B2, 513, 8);

/// Bytes of sector 0, and another value of each, with which it is refused so: another name; another layout, which is neither 1 nor 2; an
/// unused byte; slots of 63 sectors.
const ILL: &[(usize, u8, &str)] = &[
    (0, 0, "E19 NotFormatted"),
    (7, 51, "E22 OtherLayout"),
    (16, 1, "E18 Damaged 0"),
    (11, 63, "E18 Damaged 0"),
];

/// Asserts where the parts of the small store lie: the records of an even generation in the first area of the log, those of an odd one in
/// the second.
fn has_places(rt: &impl Abort, layout: Layout) {
    let odd = (layout.log_start(1), layout.log_end(1));
    let even = (layout.log_start(2), layout.log_end(2));
    let told = (odd, even, layout.sectors(), layout.record_limit(1));
    same!(rt, told, ((385, 641), (129, 385), 641, 122_880));
}

/// Asserts where they lay in layout 1: those of each generation in the whole log.
fn had_places(rt: &impl Abort, layout: Layout) {
    for generation in &[1, 2] {
        let start = layout.area_start(Format::One, *generation);
        let end = layout.area_end(Format::One, *generation);
        let told = (start, end, Format::One.longest());
        same_at!(rt, told, (129, 641, 131_072), *generation);
    }
}

/// Asserts that a log of an odd number of sectors has one that is in neither area.
fn leaves_one_over(rt: &impl Abort) {
    let layout = Layout::new(64, 513).expect(rt, "no layout");
    let told = (layout.log_end(2), layout.log_end(3), layout.sectors());
    same!(rt, told, (385, 641, 642));
}

/// Asserts that the sector names the format and the layout of the small store.
fn tells_layout(rt: &impl Abort, sector_0: &Sector, format: Format) {
    let (told, read) = read_superblock(sector_0).expect(rt, "no layout");
    same!(
        rt,
        (told, read.slot_sectors, read.log_sectors),
        (format, 64, 512)
    );
}

/// Asserts that the sector is refused with this byte in the place of another.
fn is_ill_with(rt: &(impl AllocGlobal + Abort), sector_0: &Sector, at: usize, byte: u8, why: &str) {
    let mut disk = empty(rt);
    disk.write(0, sector_0).expect(rt, "not written");
    change(rt, &mut disk, 0, at, byte);
    let sector = sector_at(rt, &mut disk, 0);
    is_refused!(rt, read_superblock(&sector), why);
}

#[test]
fn sector_0_is_written_by_its_layout_and_tells_it(rt: HostRuntime) {
    has_places(&rt, small(&rt));
    leaves_one_over(&rt);
    let sector_0 = superblock(Format::Two, small(&rt));
    let wanted = [
        0x55, 0x4d, 0x44, 0x49, 0x53, 0x4b, 0x30, 0x32, 0, 0, 0, 0x40, 0, 0, 2, 0,
    ];
    same!(&rt, sector_0, filled(&wanted));
    tells_layout(&rt, &sector_0, Format::Two);
    for (at, byte, why) in ILL {
        is_ill_with(&rt, &sector_0, *at, *byte, why);
    }
}

#[test]
fn sector_0_of_layout_1_is_read_too(rt: HostRuntime) {
    had_places(&rt, small(&rt));
    let sector_0 = superblock(Format::One, small(&rt));
    let wanted = [
        0x55, 0x4d, 0x44, 0x49, 0x53, 0x4b, 0x30, 0x31, 0, 0, 0, 0x40, 0, 0, 2, 0,
    ];
    same!(&rt, sector_0, filled(&wanted));
    tells_layout(&rt, &sector_0, Format::One);
    for (at, byte, why) in ILL {
        is_ill_with(&rt, &sector_0, *at, *byte, why);
    }
}

#[test]
fn the_first_header_is_written_by_its_layout(rt: HostRuntime) {
    let mut disk = first(&rt);
    let header = [
        0x55, 0x4d, 0x53, 0x4c, 0x4f, 0x54, 0x30, 0x31, 0, 0, 0, 0, 0, 0, 0, 1, 0, 0, 0, 0, 0, 0,
        0, 0x25,
    ];
    same!(&rt, sector_at(&rt, &mut disk, 1), filled(&header));
    same!(&rt, sector_at(&rt, &mut disk, 2), filled(&[7; 37]));
    same!(&rt, disk.syncs(), 2);
    stores(&rt, &mut disk, OLD, "the first");
}

/// Writes a body as generation 2 after the first, and its header.
fn write_second<D: Disk>(
    rt: &impl Abort,
    disk: &mut D,
    body: &[u8],
) -> Result<Option<Home>, Refusal> {
    same!(
        rt,
        write_part(disk, small(rt), A1, body, 0, usize::MAX)?,
        true
    );
    finish(disk, small(rt), A1, body.len())
}

/// Which call of the writing of generation 2 fails, for a body of two sectors, which writes a crash leaves then, and the snapshot.
const CRASHES: &[(u64, [usize; 2], Stored)] = &[
    // the second write of the body
    (2, [0, 0], OLD),
    (2, [1, 0], OLD),
    (2, [0, 1], OLD),
    (2, [1, 1], OLD),
    // its sync
    (3, [0, 0], OLD),
    (3, [1, 0], OLD),
    (3, [0, 1], OLD),
    (3, [1, 1], OLD),
    // the header
    (4, [0, 0], OLD),
    (4, [1, 0], OLD),
    (4, [0, 1], OLD),
    (4, [1, 1], OLD),
    // the header's sync: the new one counts where its header was written, which the failure leaves open
    (5, [0, 0], OLD),
    (5, [1, 0], NEW),
    (5, [0, 1], OLD),
    (5, [1, 1], NEW),
];

/// The disk after a writing of generation 2 that failed, with a body of two sectors.
fn failed(rt: &(impl AllocGlobal + Abort), mut disk: Fuse<MemDisk>) -> MemDisk {
    let written = write_second(rt, &mut disk, &[8; 513]);
    is_refused!(rt, written, "E16 Device");
    disk.into_inner()
}

/// Asserts that a crash that leaves these writes leaves this snapshot, in this row.
fn leaves<R: Debug + Drop>(
    rt: &(impl AllocGlobal + Abort),
    disk: MemDisk,
    picks: &[usize],
    wanted: Stored,
    row: R,
) {
    let mut left = disk.crash(rt.alloc(), picks).expect(rt, "no memory");
    stores(rt, &mut left, wanted, row);
}

#[test]
fn a_crash_leaves_the_snapshot_before_or_the_new_one(rt: HostRuntime) {
    for (fails, picks, wanted) in CRASHES {
        let disk = failed(&rt, Fuse::new(first(&rt), *fails));
        leaves(&rt, disk, picks, *wanted, (*fails, *picks));
    }
}

#[test]
fn a_header_whose_write_failed_may_count(rt: HostRuntime) {
    for (pick, wanted) in &[(0, OLD), (1, NEW)] {
        let disk = failed(&rt, Fuse::making(first(&rt), 4));
        leaves(&rt, disk, &[*pick], *wanted, *pick);
    }
}

/// Bytes of the first header, and another value of each, with which it is none: an unused byte twice, a length of 65,573 past the
/// slot, generation 0, the name.
const NO_HEADERS: &[(usize, u8)] = &[(24, 1), (511, 1), (21, 1), (15, 0), (7, 0)];

/// A body of `size` bytes, each of which is 8.
pub fn body_of(rt: &(impl AllocGlobal + Abort), size: usize) -> Vec<u8> {
    vec![in rt.alloc(); 8u8; size].expect(rt, "no memory")
}

/// Asserts that a first body that is too long is not written to the empty disk.
fn takes_no_long_body(rt: &(impl AllocGlobal + Abort), disk: &mut MemDisk) {
    has_none(rt, disk);
    let written = write_first(disk, small(rt), &body_of(rt, 32_257));
    same!(rt, written.expect(rt, "refused"), None);
    same!(rt, disk.syncs(), 0);
    has_none(rt, disk);
}

/// Asserts that the first header is none with this byte in the place of another.
fn is_none_with(rt: &(impl AllocGlobal + Abort), disk: &mut MemDisk, at: usize, byte: u8) {
    stores(rt, disk, OLD, at);
    change(rt, disk, 1, at, byte);
    has_none(rt, disk);
}

#[test]
fn what_is_not_as_it_is_written_is_no_header(rt: HostRuntime) {
    takes_no_long_body(&rt, &mut empty(&rt));
    for (at, byte) in NO_HEADERS {
        is_none_with(&rt, &mut first(&rt), *at, *byte);
    }
}

#[test]
fn a_body_of_32_256_bytes_fills_a_slot(rt: HostRuntime) {
    let mut disk = first(&rt);
    let written = write_second(&rt, &mut disk, &body_of(&rt, 32_256));
    same!(&rt, written.expect(&rt, "refused"), Some(B2));
    same!(&rt, disk.syncs(), 4);
    stores(&rt, &mut disk, (B2, 32_256, 8), "the second");
}

/// Writes generation 2 after the first.
fn writes_second<D: Disk>(rt: &impl Abort, disk: &mut D) {
    let written = write_second(rt, disk, &[8; 513]);
    same!(rt, written.expect(rt, "refused"), Some(B2));
}

/// Asserts that all writes are synced.
fn is_synced(rt: &(impl AllocGlobal + Abort), disk: &MemDisk) {
    let unsynced = disk.unsynced(rt.alloc()).expect(rt, "no memory");
    same!(rt, unsynced.len(), 0);
}

/// Asserts that of both snapshots with equal generations that in slot A counts.
fn counts_slot_a(rt: &(impl AllocGlobal + Abort), mut disk: MemDisk) {
    is_synced(rt, &disk);
    change(rt, &mut disk, 65, 15, 1);
    stores(rt, &mut disk, OLD, "equal generations");
}

#[test]
fn each_call_makes_so_many_disk_calls_and_of_equal_generations_slot_a_counts(rt: HostRuntime) {
    let mut disk = Fuse::new(first(&rt), 0);
    // a body of two sectors, its sync, the header, its sync
    writes_second(&rt, &mut disk);
    same!(&rt, disk.calls(), 5);
    // two headers and the body
    stores(&rt, &mut disk, NEW, "the second");
    same!(&rt, disk.calls(), 9);
    counts_slot_a(&rt, disk.into_inner());
}

#[test]
fn a_snapshot_is_written_over_a_log_that_is_not_synced(rt: HostRuntime) {
    let mut disk = first(&rt);
    disk.write(200, &filled(&[7])).expect(&rt, "not written");
    writes_second(&rt, &mut disk);
    is_synced(&rt, &disk);
    stores(&rt, &mut disk, NEW, "the second");
}
