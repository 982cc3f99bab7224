//! Snapshots that are written in parts.
use crate::answers::{filled, sector_at};
use crate::inputs::{A, put, take};
use crate::keepers::{disk_of, files_in, made, over};
use crate::slot::{A1, B2, OLD, Stored, body_of, first, small, stores};
use std::fmt::Debug;
use std::process::Abort;
use um_asserts::{is_refused, same};
use um_sector::{Disk, Fuse, MemDisk};
use um_slot::{Home, Slot, finish, newest, write_part};
use um_wire::{Refusal, spell};

/// A body of 37 sectors, of 68 bytes in the last one.
const SIZE: usize = 18_500;

/// The snapshot that is stored with it.
const NEW: Stored = (B2, SIZE, 8);

/// Parts of this many sectors, and how many there are.
type Parts = (usize, usize);

/// Parts of 1, of 5 (the last of 2), of 16 (the last of 5), and one of all.
const PARTS: &[Parts] = &[(1, 37), (5, 8), (16, 3), (40, 1)];

/// The disk calls: each sector, a sync, the header, a sync.
const CALLS: u64 = 40;

/// Writes the body as generation 2 after the first in these parts, and its header.
fn write_in<D: Disk>(
    rt: &(impl AllocGlobal + Abort),
    disk: &mut D,
    parts: Parts,
) -> Result<Option<Home>, Refusal> {
    let body = body_of(rt, SIZE);
    let (size, count) = parts;
    let mut from: usize = 0;
    for _ in 0..count {
        assert!(rt; from <= 37, "behind the body");
        same!(
            rt,
            write_part(disk, small(rt), A1, &body, from, size)?,
            true
        );
        from = from.saturating_add(size);
    }
    finish(disk, small(rt), A1, body.len())
}

/// Asserts that the writing of it in these parts fails at the disk call of this number, or is done where there are fewer.
fn fails_at<D: Disk>(rt: &(impl AllocGlobal + Abort), disk: &mut Fuse<D>, parts: Parts, call: u64) {
    let written = write_in(rt, disk, parts);
    if call <= CALLS {
        is_refused!(rt, written, "E16 Device");
    } else {
        same!(rt, written.expect(rt, "refused"), Some(B2));
    }
    same!(rt, disk.calls(), call.min(CALLS));
}

/// Asserts that a crash that leaves these of the writes leaves this snapshot, in this row.
fn leaves<R: Debug + Drop>(
    rt: &(impl AllocGlobal + Abort),
    disk: &MemDisk,
    picks: &[usize],
    wanted: Stored,
    row: R,
) {
    let mut left = disk.crash(rt.alloc(), picks).expect(rt, "no memory");
    stores(rt, &mut left, wanted, row);
}

/// Asserts which store a crash leaves if of this many writes this one alone is there, and if it alone is lost.
fn leaves_one(
    rt: &(impl AllocGlobal + Abort),
    disk: &MemDisk,
    count: usize,
    k: usize,
    wanted: (Stored, Stored),
) {
    assert!(rt; k < count, "no such write");
    let (lost, there) = wanted;
    let mut alone = vec![in rt.alloc(); 0usize; count].expect(rt, "no memory");
    alone[k] = 1;
    leaves(rt, disk, &alone, there, (k, 1));
    let mut others = vec![in rt.alloc(); 1usize; count].expect(rt, "no memory");
    others[k] = 0;
    leaves(rt, disk, &others, lost, (k, 0));
}

/// Asserts which store a crash leaves if all writes that weren't synced are lost, if all are there, and if one alone is
/// lost or there.
fn leaves_each(
    rt: &(impl AllocGlobal + Abort),
    disk: &MemDisk,
    wanted: (Stored, Stored),
    row: (Parts, u64),
) {
    let (lost, there) = wanted;
    leaves(rt, disk, &[], lost, row);
    let count = disk.unsynced(rt.alloc()).expect(rt, "no memory").len();
    let all = vec![in rt.alloc(); 1usize; count].expect(rt, "no memory");
    leaves(rt, disk, &all, there, row);
    for k in 0..count {
        leaves_one(rt, disk, count, k, wanted);
    }
}

/// The snapshot where each write that wasn't synced is lost, and where each is there, when this call fails: the header is the 39th.
fn snapshots(call: u64) -> (Stored, Stored) {
    match call {
        40 => (OLD, NEW),
        41 => (NEW, NEW),
        _ => (OLD, OLD),
    }
}

/// Asserts which store a crash leaves after each disk call of the writing in these parts.
fn leaves_behind_each(rt: &(impl AllocGlobal + Abort), parts: Parts) {
    for call in 1..42u64 {
        let mut disk = Fuse::new(first(rt), call);
        fails_at(rt, &mut disk, parts, call);
        leaves_each(rt, &disk.into_inner(), snapshots(call), (parts, call));
    }
}

#[test]
fn a_crash_leaves_the_snapshot_before_until_the_header_of_the_new_one(rt: HostRuntime) {
    for parts in PARTS {
        leaves_behind_each(&rt, *parts);
    }
}

/// Three parts.
const THREE: Parts = (16, 3);

/// Asserts which store a read gives, and which a crash leaves, after the failure of a call of the writing in three
/// parts.
fn stores_behind(
    rt: &(impl AllocGlobal + Abort),
    mut disk: Fuse<MemDisk>,
    call: u64,
    wanted: Stored,
) {
    fails_at(rt, &mut disk, THREE, call);
    let mut disk = disk.into_inner();
    stores(rt, &mut disk, wanted, call);
    leaves_each(rt, &disk, (OLD, wanted), (THREE, call));
}

#[test]
fn a_fault_at_each_call_leaves_the_snapshot_before_or_the_new_one(rt: HostRuntime) {
    for call in 1..41u64 {
        let skipped = if call < 40 { OLD } else { NEW };
        stores_behind(&rt, Fuse::new(first(&rt), call), call, skipped);
        let made = if call < 39 { OLD } else { NEW };
        stores_behind(&rt, Fuse::making(first(&rt), call), call, made);
    }
}

/// Writes a part of a snapshot beside generation 3, into slot A.
fn begins_in_slot_a(rt: &(impl AllocGlobal + Abort), disk: &mut MemDisk) {
    let home = Home {
        slot: Slot::B,
        generation: 3,
    };
    let written = write_part(disk, small(rt), home, &body_of(rt, SIZE), 0, 16);
    same!(rt, written.expect(rt, "not written"), true);
    same!(rt, sector_at(rt, disk, 17), filled(&[8; 512]));
}

/// Asserts that the newest snapshot stands in slot A with this generation and body.
fn has_in_slot_a(
    rt: &(impl AllocGlobal + Abort),
    disk: &mut MemDisk,
    generation: u64,
    body: &[u8],
) {
    let found = newest(rt.alloc(), disk, small(rt)).expect(rt, "no snapshot");
    let slot = Slot::A;
    same!(rt, found.home, Home { slot, generation });
    same!(rt, found.body.as_slice(), body);
}

#[test]
fn parts_without_a_header_are_written_over_by_the_next_open(rt: HostRuntime) {
    let mut keeper = over(&rt, made(&rt));
    take(&rt, &mut keeper, put(&rt, A, ""));
    let state = spell(rt.alloc(), keeper.state()).expect(&rt, "no memory");
    let mut disk = disk_of(keeper);
    begins_in_slot_a(&rt, &mut disk);
    let again = over(&rt, disk);
    let opened = again.opened();
    same!(
        &rt,
        (opened.generation, opened.records, files_in(&again)),
        (3, 1, 1)
    );
    has_in_slot_a(&rt, &mut disk_of(again), 5, &state);
}

/// The first snapshot on a disk that counts its calls.
fn counted(rt: &(impl AllocGlobal + Abort)) -> Fuse<MemDisk> {
    Fuse::new(first(rt), 0)
}

/// Asserts that no call was made, and that the first snapshot stands alone.
fn is_untouched<R: Debug + Drop>(rt: &(impl AllocGlobal + Abort), disk: Fuse<MemDisk>, row: R) {
    same!(rt, disk.calls(), 0);
    let mut disk = disk.into_inner();
    same!(rt, sector_at(rt, &mut disk, 65), filled(&[]));
    same!(rt, sector_at(rt, &mut disk, 66), filled(&[]));
    stores(rt, &mut disk, OLD, row);
}

#[test]
fn a_body_a_byte_too_long_for_a_slot_is_not_written(rt: HostRuntime) {
    let body = body_of(&rt, 32_257);
    for (from, count) in &[(0, 1), (0, usize::MAX), (63, 1), (64, 1)] {
        let mut disk = counted(&rt);
        let written = write_part(&mut disk, small(&rt), A1, &body, *from, *count);
        same!(&rt, written.expect(&rt, "refused"), false);
        is_untouched(&rt, disk, (*from, *count));
    }
    let mut disk = counted(&rt);
    let finished = finish(&mut disk, small(&rt), A1, 32_257);
    same!(&rt, finished.expect(&rt, "refused"), None);
    is_untouched(&rt, disk, "its header");
}

#[test]
fn behind_its_last_sector_nothing_of_a_body_is_written(rt: HostRuntime) {
    let body = body_of(&rt, SIZE);
    for from in &[37, 38, 64, usize::MAX] {
        let mut disk = counted(&rt);
        let written = write_part(&mut disk, small(&rt), A1, &body, *from, usize::MAX);
        same!(&rt, written.expect(&rt, "refused"), true);
        is_untouched(&rt, disk, *from);
    }
}

#[test]
fn there_is_no_generation_behind_the_last(rt: HostRuntime) {
    let last = Home {
        slot: Slot::A,
        generation: u64::MAX,
    };
    for size in &[0, SIZE, 32_257] {
        let mut disk = counted(&rt);
        let finished = finish(&mut disk, small(&rt), last, *size);
        is_refused!(&rt, finished, "E20 GenerationsSpent");
        is_untouched(&rt, disk, *size);
    }
}
