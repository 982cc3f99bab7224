//! Snapshots that go out some sectors at a time, while inputs are recorded in the other area of the log.
use crate::answers::{change, filled, sector_at};
use crate::inputs::{A, B, put, put_long, submit, take};
use crate::keepers::{calls_since, disk_of, files_in, has_layout, opened, over};
use std::process::Abort;
use um_asserts::{is_refused, same, same_at};
use um_keeper::{Keeper, inspect};
use um_sector::{Disk, Fuse, MemDisk};
use um_wire::spell;

/// A keeper over a disk that counts its calls.
pub type Counted = Box<Keeper<Fuse<MemDisk>>>;

/// The file of `c.service`.
pub const C: &str = "lib/c.service";

/// A file with which a state takes 37 sectors, its record takes 39.
const LONG: usize = 18_441;

/// A keeper whose log has no room in its area, of 256 sectors: a long file, and 217 times a short one. No snapshot is under way.
fn full(rt: &(impl AllocGlobal + Abort), call: u64) -> Counted {
    let mut keeper = opened(rt, call);
    take(rt, &mut keeper, put_long(rt, A, LONG));
    for _ in 0..217 {
        take(rt, &mut keeper, put(rt, B, ""));
    }
    same!(rt, keeper.left(), 0);
    keeper
}

/// The number of calls of a new store's disk until then.
fn calls_of_full(rt: &(impl AllocGlobal + Abort)) -> u64 {
    calls_since(rt, &disk_of(full(rt, 0)))
}

/// The same after one record more, with which a snapshot has begun.
fn begun(rt: &(impl AllocGlobal + Abort), call: u64) -> Counted {
    let mut keeper = full(rt, call);
    take(rt, &mut keeper, put(rt, C, ""));
    same!(rt, keeper.left(), 37);
    keeper
}

/// Asserts the answer to a step of this many sectors, and how many are left then.
pub fn steps<D: Disk>(
    rt: &(impl AllocGlobal + Abort),
    keeper: &mut Keeper<D>,
    sectors: u32,
    wanted: (bool, u32),
) {
    let told = keeper.step(sectors).expect(rt, "refused");
    same!(rt, (told, keeper.left()), wanted);
}

/// Asserts how many calls of the disk were made since `full` had been.
fn took(rt: &(impl AllocGlobal + Abort), keeper: Counted, calls: u64) {
    let made = calls_since(rt, &disk_of(keeper));
    same!(rt, Some(made), calls_of_full(rt).checked_add(calls));
}

#[test]
fn without_a_snapshot_a_step_is_no_disk_call(rt: HostRuntime) {
    let mut keeper = full(&rt, 0);
    for sectors in [0, 1, u32::MAX] {
        steps(&rt, &mut keeper, sectors, (true, 0));
    }
    took(&rt, keeper, 0);
}

/// A step of this many sectors, its answer, and how many are left then.
type Step = (u32, bool, u32);

/// Steps after the begin of a snapshot of 37 sectors, and the calls of the disk: the record with which it begins and
/// its sync, a sector each, and with the last one a sync, the header and a sync.
const STEPS: &[(&[Step], u64)] = &[
    (&[(0, false, 37)], 2),
    (&[(1, false, 36), (0, false, 36)], 3),
    (&[(16, false, 21), (16, false, 5)], 34),
    (&[(36, false, 1)], 38),
    (&[(37, true, 0)], 42),
    (&[(36, false, 1), (1, true, 0)], 42),
    (&[(16, false, 21), (16, false, 5), (16, true, 0)], 42),
    (&[(5, false, 32), (u32::MAX, true, 0), (16, true, 0)], 42),
];

/// Asserts that a snapshot goes out in these steps, with `calls` calls of the disk.
fn goes_out(rt: &(impl AllocGlobal + Abort), list: &[Step], calls: u64) {
    let mut keeper = begun(rt, 0);
    for (sectors, told, left) in list {
        steps(rt, &mut keeper, *sectors, (*told, *left));
    }
    took(rt, keeper, calls);
}

#[test]
fn a_step_writes_so_many_sectors_and_with_the_last_one_the_header(rt: HostRuntime) {
    for (list, calls) in STEPS {
        goes_out(&rt, list, *calls);
    }
}

/// Asserts that a look shows this generation and this number of records.
pub fn stands<D: Disk>(
    rt: &(impl AllocGlobal + Abort),
    disk: &mut D,
    generation: u64,
    records: usize,
) {
    let told = inspect(rt.alloc(), disk).expect(rt, "not read");
    same!(rt, (told.generation, told.records), (generation, records));
    same!(rt, (told.cut_off, told.damaged), (None, None));
}

/// The disk after two records since the begin, and after a step.
fn behind_step(rt: &(impl AllocGlobal + Abort), step: Step) -> Fuse<MemDisk> {
    let (sectors, told, left) = step;
    let mut keeper = begun(rt, 0);
    take(rt, &mut keeper, put(rt, C, "#"));
    steps(rt, &mut keeper, sectors, (told, left));
    disk_of(keeper)
}

#[test]
fn behind_its_header_the_snapshot_counts_and_the_records_since_it_began(rt: HostRuntime) {
    // of generation 3 a long record and 217 short ones, and two of the next one
    stands(&rt, &mut behind_step(&rt, (36, false, 1)), 3, 220);
    let mut disk = behind_step(&rt, (37, true, 0));
    stands(&rt, &mut disk, 4, 2);
    same!(&rt, files_in(&over(&rt, disk)), 3);
}

/// UMSLOT01, generation 4, a body of 18,522 bytes.
const FOURTH: &[u8] = &[
    0x55, 0x4d, 0x53, 0x4c, 0x4f, 0x54, 0x30, 0x31, 0, 0, 0, 0, 0, 0, 0, 4, 0, 0, 0, 0, 0, 0, 0x48,
    0x5a,
];

#[test]
fn its_body_is_the_state_before_the_record_that_had_no_room(rt: HostRuntime) {
    let before = spell(rt.alloc(), full(&rt, 0).state()).expect(&rt, "no memory");
    same!(&rt, before.len(), 18_522);
    let mut disk = behind_step(&rt, (37, true, 0));
    has_layout(&rt, &mut disk, 1, FOURTH);
    let end = before.as_slice().get(18_432..).unwrap_or(&[]);
    same!(&rt, sector_at(&rt, &mut disk, 38), filled(end));
}

#[test]
fn a_record_without_room_finishes_the_snapshot_under_way_and_begins_the_next(rt: HostRuntime) {
    let mut keeper = begun(&rt, 0);
    for _ in 0..255 {
        take(&rt, &mut keeper, put(&rt, C, ""));
    }
    steps(&rt, &mut keeper, 7, (false, 30));
    take(&rt, &mut keeper, put(&rt, B, "#"));
    same!(&rt, keeper.left(), 37);
    let mut disk = disk_of(keeper);
    // 256 records with a sync each, and seven sectors; then 30 sectors, a sync, the header and a sync, and a record with its sync
    let wanted = calls_of_full(&rt).checked_add(512 + 7 + 33 + 2);
    same!(&rt, Some(calls_since(&rt, &disk)), wanted);
    stands(&rt, &mut disk, 4, 257);
    let record = sector_at(&rt, &mut disk, 385);
    same!(&rt, (record[11], record[19]), (5, 0));
}

/// The sectors that are left of a snapshot when a checkpoint is made, and the number of disk calls: each sector that is
/// left, a sync, the header and a sync; and 37 sectors, a sync, the header and a sync. If none is under way only the
/// latter.
const CHECKPOINTS: &[(u32, u64)] = &[(0, 40 + 40), (16, 24 + 40), (36, 4 + 40), (37, 40)];

/// A keeper whose snapshot has begun, of which this many sectors went out.
fn stepped(rt: &(impl AllocGlobal + Abort), sectors: u32) -> Counted {
    let mut keeper = begun(rt, 0);
    keeper.step(sectors).expect(rt, "refused");
    keeper
}

/// The disk of it after a checkpoint.
fn checkpointed(rt: &(impl AllocGlobal + Abort), sectors: u32) -> Fuse<MemDisk> {
    let mut keeper = stepped(rt, sectors);
    keeper.checkpoint().expect(rt, "no checkpoint");
    same!(rt, keeper.left(), 0);
    disk_of(keeper)
}

#[test]
fn a_checkpoint_finishes_one_under_way_and_writes_one(rt: HostRuntime) {
    for (sectors, calls) in CHECKPOINTS {
        let before = calls_since(&rt, &disk_of(stepped(&rt, *sectors)));
        let mut disk = checkpointed(&rt, *sectors);
        let made = calls_since(&rt, &disk);
        same_at!(&rt, Some(made), before.checked_add(*calls), *sectors);
        stands(&rt, &mut disk, 5, 0);
        same!(&rt, files_in(&over(&rt, disk)), 3);
    }
}

/// Asserts that a keeper whose disk failed takes nothing more.
fn wants_opening<D: Disk>(rt: &(impl AllocGlobal + Abort), keeper: &mut Keeper<D>) {
    is_refused!(rt, keeper.step(0), "E17 Reopen");
    is_refused!(rt, keeper.step(16), "E17 Reopen");
    is_refused!(rt, submit(keeper, put(rt, B, "#")), "E17 Reopen");
    is_refused!(rt, keeper.checkpoint(), "E17 Reopen");
}

/// Asserts that a step fails at the disk call of this number, and the summary of a look at the store then.
fn fails_at(rt: &(impl AllocGlobal + Abort), call: u64, wanted: (u64, usize)) {
    let (generation, records) = wanted;
    let calls = calls_of_full(rt).checked_add(2);
    let fails = calls.and_then(|made| made.checked_add(call));
    let mut keeper = begun(rt, fails.expect(rt, "too many"));
    is_refused!(rt, keeper.step(37), "E16 Device");
    wants_opening(rt, &mut keeper);
    let mut disk = disk_of(keeper);
    stands(rt, &mut disk, generation, records);
    same!(rt, files_in(&over(rt, disk)), 3);
}

#[test]
fn a_step_whose_disk_fails_wants_the_store_opened_again(rt: HostRuntime) {
    // the first sector, the last one, the sync after it, the header
    for call in [1, 37, 38, 39] {
        fails_at(&rt, call, (3, 219));
    }
    // the sync after the header, which stands by then
    fails_at(&rt, 40, (4, 1));
}

/// A keeper that was opened in the generation whose lowest byte is this, and whose others are 255.
fn in_generation(rt: &(impl AllocGlobal + Abort), lowest: u8) -> Counted {
    let mut disk = disk_of(opened(rt, 0));
    for at in 8..15 {
        change(rt, &mut disk, 65, at, 255);
    }
    // an opening writes two generations above the newest header's
    change(rt, &mut disk, 65, 15, lowest.saturating_sub(2));
    over(rt, disk)
}

/// Submits `records` files that are taken.
fn fill<D: Disk>(rt: &(impl AllocGlobal + Abort), keeper: &mut Keeper<D>, records: usize) {
    for _ in 0..records {
        take(rt, keeper, put(rt, A, ""));
    }
}

/// A keeper that took a record more than has room in its area.
fn filled_over(rt: &(impl AllocGlobal + Abort)) -> Counted {
    let mut keeper = opened(rt, 0);
    fill(rt, &mut keeper, 257);
    keeper
}

#[test]
fn records_of_both_generations_are_told_until_the_snapshot_counts(rt: HostRuntime) {
    stands(&rt, &mut disk_of(filled_over(&rt)), 3, 257);
    let mut keeper = filled_over(&rt);
    steps(&rt, &mut keeper, 1, (true, 0));
    stands(&rt, &mut disk_of(keeper), 4, 1);
}

/// Asserts that no snapshot can begin, and that the rest of the one under way stays.
fn is_spent(rt: &(impl AllocGlobal + Abort), keeper: &mut Keeper<Fuse<MemDisk>>, left: u32) {
    is_refused!(rt, submit(keeper, put(rt, A, "#")), "E20 GenerationsSpent");
    is_refused!(rt, keeper.checkpoint(), "E20 GenerationsSpent");
    same!(rt, keeper.left(), left);
    steps(rt, keeper, 0, (left == 0, left));
}

#[test]
fn behind_the_last_generation_none_begins(rt: HostRuntime) {
    let mut keeper = in_generation(&rt, 255);
    fill(&rt, &mut keeper, 256);
    is_spent(&rt, &mut keeper, 0);
}

#[test]
fn one_that_has_begun_behind_the_last_generation_but_one_goes_on(rt: HostRuntime) {
    let mut keeper = in_generation(&rt, 254);
    fill(&rt, &mut keeper, 256);
    fill(&rt, &mut keeper, 256);
    is_spent(&rt, &mut keeper, 1);
    steps(&rt, &mut keeper, 1, (true, 0));
    is_spent(&rt, &mut keeper, 0);
    stands(&rt, &mut disk_of(keeper), u64::MAX, 256);
}
