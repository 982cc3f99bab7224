//! Turns after whose answer a snapshot goes out.
use crate::managers::{DONE, frames, has_output, new_store, over, parts_of, pieces, turn};
use crate::orders::keeper_over;
use std::process::Abort;
use um_asserts::{is_refused, same, same_at};
use um_children::FakeChildren;
use um_manager::Manager;
use um_sector::{Fuse, MemDisk};
use um_wire::Refusal;

/// A manager over a disk that counts its calls.
type Counted = Box<Manager<Fuse<MemDisk>, FakeChildren>>;

const DEVICE: &str = r#"{"detail":[],"error":16,"ok":false}"#;

const PUT_C: &str = r#"{"verb":"put-file","path":"lib/c.service","text":""}"#;

const PUT_D: &str = r#"{"verb":"put-file","path":"lib/d.service","text":""}"#;

/// A request that puts a file of `length` bytes.
fn put_long(rt: &(impl AllocGlobal + Abort), length: usize) -> String {
    let bytes = "#".repeat(rt.alloc(), length).expect(rt, "no memory");
    let mut text = String::new(rt.alloc());
    for part in [
        r#"{"verb":"put-file","path":"lib/b.service","text":""#,
        bytes.as_str(),
        r#""}"#,
    ] {
        text.push_str(part).expect(rt, "no memory");
    }
    text
}

/// A turn in which this request arrives on connection 0.
fn take(rt: &(impl AllocGlobal + Abort), manager: &mut Counted, request: &str) {
    let sent = frames(rt, &[request]);
    turn(manager, &pieces(rt, &[(0, &sent)])).expect(rt, "refused");
    has_output(rt, manager, 0, &[DONE]);
}

/// A manager of which the log has room for one sector more in its area of 256: a boot, a file that takes 14, and twelve times one that takes 20.
/// The call of that number of its disk fails; with 0 none.
fn nearly_full(rt: &(impl AllocGlobal + Abort), fails: u64) -> Counted {
    let mut manager = over(rt, Fuse::new(new_store(rt), fails));
    take(rt, &mut manager, put_long(rt, 6_500).as_str());
    let long = put_long(rt, 9_500);
    for _ in 0..12 {
        take(rt, &mut manager, long.as_str());
    }
    same!(rt, manager.left(), 0);
    manager
}

/// The number of calls of its disk until then.
fn calls_before(rt: &(impl AllocGlobal + Abort)) -> u64 {
    let (disk, _) = parts_of(nearly_full(rt, 0));
    disk.calls()
}

/// A turn in which two clients put a file each: for the second one the area has no room.
fn both(rt: &(impl AllocGlobal + Abort), manager: &mut Counted) -> Result<(), Refusal> {
    let first = frames(rt, &[PUT_C]);
    let second = frames(rt, &[PUT_D]);
    turn(manager, &pieces(rt, &[(0, &first), (1, &second)]))
}

/// A turn in which nothing arrives.
fn idle(rt: &(impl AllocGlobal + Abort), manager: &mut Counted) -> Result<(), Refusal> {
    turn(manager, &pieces(rt, &[]))
}

/// Asserts the answer to both clients.
fn answered(rt: &(impl AllocGlobal + Abort), manager: &mut Counted, reply: &str) {
    has_output(rt, manager, 0, &[reply]);
    has_output(rt, manager, 1, &[reply]);
}

/// Asserts how many calls its disk has made since it was nearly full.
fn took(rt: &(impl AllocGlobal + Abort), manager: Counted, calls: u64) {
    let (disk, _) = parts_of(manager);
    same!(rt, Some(disk.calls()), calls_before(rt).checked_add(calls));
}

/// A manager after the turn of both clients.
fn begun(rt: &(impl AllocGlobal + Abort)) -> Counted {
    let mut manager = nearly_full(rt, 0);
    both(rt, &mut manager).expect(rt, "refused");
    answered(rt, &mut manager, DONE);
    manager
}

/// Asserts how many sectors are left after this many turns in which nothing arrives, and how many calls the disk has
/// made by then.
fn goes_out(rt: &(impl AllocGlobal + Abort), turns: usize, left: u32, calls: u64) {
    let mut manager = begun(rt);
    for _ in 0..turns {
        idle(rt, &mut manager).expect(rt, "refused");
    }
    same!(rt, manager.left(), left);
    took(rt, manager, calls);
}

#[test]
fn a_snapshot_goes_out_behind_the_answers_of_turns_by_16_sectors(rt: HostRuntime) {
    // a record, the sync before the other area, a record, a sync, and 16 sectors
    goes_out(&rt, 0, 3, 20);
    // the other three, a sync, the header, a sync
    goes_out(&rt, 1, 0, 26);
    goes_out(&rt, 2, 0, 26);
}

/// How many files the store on a disk has.
fn files_on(rt: &(impl AllocGlobal + Abort), disk: MemDisk) -> usize {
    keeper_over(rt, disk).state().tree().len()
}

/// Asserts how many files its store has after a crash that loses the unsynced sectors, and after one that loses
/// nothing.
fn holds(rt: &(impl AllocGlobal + Abort), manager: Counted, least: usize, most: usize) {
    let (disk, _) = parts_of(manager);
    let disk = disk.into_inner();
    let left = disk.crash(rt.alloc(), &[]).expect(rt, "no memory");
    same!(rt, (files_on(rt, left), files_on(rt, disk)), (least, most));
}

/// A manager whose disk fails at this call of the two turns.
fn failing(rt: &(impl AllocGlobal + Abort), call: u64) -> Counted {
    let fails = calls_before(rt).checked_add(call);
    nearly_full(rt, fails.expect(rt, "too many"))
}

/// Calls of the turn of both clients before its store's answer, which fail, and how many files are there then.
const BEFORE: &[(u64, usize, usize)] = &[
    // the first record, and the sync before the other area
    (1, 1, 1),
    (2, 1, 2),
    // the second record, and the sync after both
    (3, 2, 2),
    (4, 2, 3),
];

/// The manager whose disk fails at this call of the turn of both clients, which are answered so; the next turn wants the store opened again.
fn refused(rt: &(impl AllocGlobal + Abort), call: u64, reply: &str) -> Counted {
    let mut manager = failing(rt, call);
    is_refused!(rt, both(rt, &mut manager), "E16 Device");
    answered(rt, &mut manager, reply);
    is_refused!(rt, idle(rt, &mut manager), "E17 Reopen");
    manager
}

#[test]
fn a_fault_before_the_answer_is_that_of_both(rt: HostRuntime) {
    for (call, least, most) in BEFORE {
        let manager = refused(&rt, *call, DEVICE);
        same_at!(&rt, manager.state().tree().len(), 1, *call);
        holds(&rt, manager, *least, *most);
    }
}

#[test]
fn a_fault_behind_the_answer_is_the_turns_alone(rt: HostRuntime) {
    for call in 5..21 {
        holds(&rt, refused(&rt, call, DONE), 3, 3);
    }
}

/// Asserts that a fault at this call is that of the turn after both clients', whose files stay.
fn fails_behind(rt: &(impl AllocGlobal + Abort), call: u64) {
    let mut manager = failing(rt, call);
    both(rt, &mut manager).expect(rt, "refused");
    answered(rt, &mut manager, DONE);
    is_refused!(rt, idle(rt, &mut manager), "E16 Device");
    holds(rt, manager, 3, 3);
}

#[test]
fn a_fault_at_each_call_of_a_turn_that_finishes_is_that_turns(rt: HostRuntime) {
    for call in 21..27 {
        fails_behind(&rt, call);
    }
}
