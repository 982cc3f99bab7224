//! Stores that are opened in the middle of a snapshot, or after a crash there.
use crate::inputs::{A, B, input, put, put_long, take};
use crate::keepers::{calls_since, disk_of, opened, over};
use crate::stepping::{C, Counted, stands, steps};
use crate::submitting::{AGAIN, start_of};
use std::process::Abort;
use um_asserts::{is_refused, same, unit};
use um_keeper::{Keeper, OpenedStore};
use um_model::{End, JobMode, UnitVerb};
use um_sector::{Disk, Fuse, MemDisk};
use um_state::{Command, Event, Happening, Input};
use um_wire::spell;

/// A keeper whose service runs as number 1, and whose log has no room in its area: three records, one of three sectors, and 250 of one.
fn full(rt: &(impl AllocGlobal + Abort), call: u64) -> Counted {
    let mut keeper = opened(rt, call);
    take(rt, &mut keeper, put(rt, A, AGAIN));
    let reload = Event::Commanded(Command::DaemonReload);
    take(rt, &mut keeper, input(rt, 0, reload));
    let start = start_of(unit!(rt, "a.service"));
    same!(rt, take(rt, &mut keeper, input(rt, 0, start)), 1);
    take(rt, &mut keeper, put_long(rt, B, 1_200));
    for _ in 0..250 {
        take(rt, &mut keeper, put(rt, C, ""));
    }
    same!(rt, keeper.left(), 0);
    keeper
}

/// A restart of the service.
fn restart(rt: &(impl AllocGlobal + Abort)) -> Input {
    let command = Command::ForUnit {
        verb: UnitVerb::Restart,
        unit: unit!(rt, "a.service"),
        mode: JobMode::Replace,
    };
    input(rt, 0, Event::Commanded(command))
}

/// The end of its process, after which it is started as number 2.
fn end(rt: &impl Abort) -> Input {
    let end = Happening::ProcessEnded {
        number: 1,
        end: End::Code(1),
    };
    input(rt, 0, Event::Happened(end))
}

/// That keeper after a restart and the end: with the first one a snapshot of three sectors has begun. Taken twice, the
/// restart would stop number 2.
fn restarted(rt: &(impl AllocGlobal + Abort), call: u64) -> Counted {
    let mut keeper = full(rt, call);
    same!(rt, take(rt, &mut keeper, restart(rt)), 0);
    same!(rt, take(rt, &mut keeper, end(rt)), 1);
    same!(rt, keeper.left(), 3);
    keeper
}

/// The bytes of its state.
fn state_of<D: Disk>(rt: &(impl AllocGlobal + Abort), keeper: &Keeper<D>) -> Vec<u8> {
    spell(rt.alloc(), keeper.state()).expect(rt, "no memory")
}

/// Asserts that an opening of a disk finds this generation, this number of records and this state, and that another one
/// finds the state alone; gives the disk back.
fn opens<D: Disk>(
    rt: &(impl AllocGlobal + Abort),
    disk: D,
    found: (u64, usize),
    state: &[u8],
) -> D {
    let keeper = over(rt, disk);
    let (generation, records) = found;
    let wanted = OpenedStore {
        generation,
        records,
        cut_off: None,
        damaged: None,
    };
    same!(rt, keeper.opened(), wanted);
    same!(rt, state_of(rt, keeper.as_ref()).as_slice(), state);
    let again = over(rt, disk_of(keeper));
    same!(rt, again.opened().records, 0);
    same!(rt, state_of(rt, again.as_ref()).as_slice(), state);
    disk_of(again)
}

/// Steps in the middle of the snapshot, the answer to each and how many sectors are left, and the records that count
/// then.
const MIDDLES: &[(u32, (bool, u32), (u64, usize))] = &[
    (0, (false, 3), BEFORE),
    (1, (false, 2), BEFORE),
    (2, (false, 1), BEFORE),
    (3, (true, 0), BEHIND),
];

/// Asserts which records count after a step, and that the state is the same then.
fn opens_behind(
    rt: &(impl AllocGlobal + Abort),
    sectors: u32,
    told: (bool, u32),
    found: (u64, usize),
) {
    let mut keeper = restarted(rt, 0);
    steps(rt, &mut keeper, sectors, told);
    let state = state_of(rt, keeper.as_ref());
    opens(rt, disk_of(keeper), found, &state);
}

#[test]
fn what_was_recorded_since_it_began_is_taken_once(rt: HostRuntime) {
    for (sectors, told, found) in MIDDLES {
        opens_behind(&rt, *sectors, *told, *found);
    }
}

/// Picks of this many writes: of the one of that number the other one than of all others.
fn picks_but(
    rt: &(impl AllocGlobal + Abort),
    count: usize,
    other: usize,
    are_there: bool,
) -> Vec<usize> {
    let mut picks = Vec::new(rt.alloc());
    for number in 0..count {
        let is_there = are_there != (number == other);
        picks
            .push(if is_there { 1 } else { 0 })
            .expect(rt, "no memory");
    }
    picks
}

/// Whether one of these writes is lost.
fn is_one_lost(picks: &[usize]) -> bool {
    for pick in picks {
        if *pick == 0 {
            return true;
        }
    }
    false
}

/// Asserts that a disk that a crash leaves opens to this state, if all unsynced writes are lost or there, or one is
/// otherwise than the others; and which records count then if one is lost, and if none is.
fn leaves(
    rt: &(impl AllocGlobal + Abort),
    disk: &MemDisk,
    state: &[u8],
    wanted: ((u64, usize), (u64, usize)),
) {
    let (lost, there) = wanted;
    let count = disk.unsynced(rt.alloc()).expect(rt, "no memory").len();
    for other in 0..=count {
        for are_there in [false, true] {
            let picks = picks_but(rt, count, other, are_there);
            let found = if is_one_lost(&picks) { lost } else { there };
            let left = disk.crash(rt.alloc(), &picks).expect(rt, "no memory");
            opens(rt, left, found, state);
        }
    }
}

/// The records that count before the header of the snapshot, and after it.
const BEFORE: (u64, usize) = (3, 256);

const BEHIND: (u64, usize) = (4, 2);

/// Asserts which store a crash leaves at the disk call of this number of a step of three sectors: each sector, a sync,
/// the header, a sync.
fn crashes_at(rt: &(impl AllocGlobal + Abort), call: u64) {
    let calls = calls_since(rt, &disk_of(restarted(rt, 0)));
    let fails = calls.checked_add(call).expect(rt, "too many");
    let mut keeper = restarted(rt, fails);
    let state = state_of(rt, keeper.as_ref());
    is_refused!(rt, keeper.step(3), "E16 Device");
    let there = if call == 6 { BEHIND } else { BEFORE };
    leaves(rt, &disk_of(keeper).into_inner(), &state, (BEFORE, there));
}

#[test]
fn a_crash_at_each_call_of_a_step_leaves_the_state(rt: HostRuntime) {
    for call in 1..7 {
        crashes_at(&rt, call);
    }
    let mut keeper = restarted(&rt, 0);
    let state = state_of(&rt, keeper.as_ref());
    steps(&rt, &mut keeper, 3, (true, 0));
    leaves(&rt, &disk_of(keeper).into_inner(), &state, (BEHIND, BEHIND));
}

#[test]
fn half_a_body_is_written_over_by_the_next_opening(rt: HostRuntime) {
    let mut keeper = restarted(&rt, 0);
    steps(&rt, &mut keeper, 2, (false, 1));
    let disk = disk_of(over(&rt, disk_of(keeper)));
    // a snapshot begins again, with nothing of it written
    let mut keeper = over(&rt, disk);
    same!(&rt, keeper.left(), 0);
    for _ in 0..257 {
        take(&rt, &mut keeper, put(&rt, C, ""));
    }
    same!(&rt, keeper.left(), 3);
    steps(&rt, &mut keeper, 3, (true, 0));
    stands(&rt, &mut disk_of(keeper), 8, 1);
}
