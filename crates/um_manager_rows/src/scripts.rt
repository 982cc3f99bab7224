//! Scripts of turns.
use crate::managers::{
    DONE, PUT, RELOAD, SHOW, START, frames, has_output, new_store, over, parts_of, pieces, play,
    started, turn,
};
use std::process::Abort;
use um_asserts::same;
use um_children::{Children, FakeChildren};
use um_manager::Manager;
use um_sector::{Disk, Fuse, MemDisk};
use um_wire::Refusal;

const RUNNING: &str =
    r#"{"ok":true,"value":{"ActiveState":"active","Description":"","Id":"a.service","LoadState":"loaded","MainNumber":1,"Result":"success","SubState":"running","Warnings":[]}}"#;

const JOBS: &str = r#"{"verb":"list-jobs"}"#;

const NONE: &str = r#"{"ok":true,"value":[]}"#;

const FAILED: &str = r#"{"detail":[],"error":16,"ok":false}"#;

const FAILED_BEFORE: &str = r#"{"detail":[],"error":17,"ok":false}"#;

/// A manager whose disk fails one call.
type Failing = Manager<Fuse<MemDisk>, FakeChildren>;

/// Puts, loads and starts `a.service`, a turn each.
fn begin<D: Disk, C: Children>(rt: &(impl AllocGlobal + Abort), manager: &mut Manager<D, C>) {
    for text in [PUT, RELOAD, START] {
        let bytes = frames(rt, &[text]);
        let pieces = pieces(rt, &[(0, bytes.as_slice())]);
        turn(manager, &pieces).expect(rt, "refused");
    }
    has_output(rt, manager, 0, &[DONE, DONE, DONE]);
}

/// The manager in which `a.service` was put, loaded and started, over a disk whose call of that number fails; with 0 none.
fn running(rt: &(impl AllocGlobal + Abort), fails: u64) -> Box<Failing> {
    let mut manager = over(rt, Fuse::new(new_store(rt), fails));
    begin(rt, &mut manager);
    manager
}

/// Plays a turn in which two connections ask, and gives its refusal.
fn refused<D: Disk, C: Children>(
    rt: &(impl AllocGlobal + Abort),
    manager: &mut Manager<D, C>,
    asks: &str,
    starts: &str,
) -> Refusal {
    let asks = frames(rt, &[asks]);
    let starts = frames(rt, &[starts]);
    let both = pieces(rt, &[(1, asks.as_slice()), (2, starts.as_slice())]);
    match turn(manager, &both) {
        Ok(()) => rt.abort(),
        Err(refusal) => refusal,
    }
}

/// Asserts that the unit is put, started and shown by these bytes, which arrive in two parts.
fn is_shown(rt: &(impl AllocGlobal + Abort), front: &[u8], rest: &[u8]) {
    let mut manager = over(rt, new_store(rt));
    play(rt, &mut manager, &[front, rest, &[], &[], &[]]);
    has_output(rt, &mut manager, 0, &[DONE, DONE, DONE, RUNNING]);
    same!(rt, started(rt, manager).as_slice(), [1].as_slice());
}

#[test]
fn a_unit_is_put_started_and_shown_wherever_its_bytes_are_cut(rt: HostRuntime) {
    let bytes = frames(&rt, &[PUT, RELOAD, START, SHOW]);
    for place in 0..bytes.len() {
        is_shown(&rt, &bytes[..place], &bytes[place..]);
    }
}

/// Puts and loads the unit.
fn load<D: Disk, C: Children>(rt: &(impl AllocGlobal + Abort), manager: &mut Manager<D, C>) {
    let loads = frames(rt, &[PUT, RELOAD]);
    play(rt, manager, &[loads.as_slice(), &[], &[]]);
    has_output(rt, manager, 0, &[DONE, DONE]);
}

/// Asserts that one connection is shown the unit that the other one starts in the same turn.
fn shows_what_starts<D: Disk, C: Children>(
    rt: &(impl AllocGlobal + Abort),
    manager: &mut Manager<D, C>,
) {
    let asks = frames(rt, &[SHOW, JOBS]);
    let starts = frames(rt, &[START]);
    let both = pieces(rt, &[(1, asks.as_slice()), (2, starts.as_slice())]);
    turn(manager, &both).expect(rt, "refused");
    has_output(rt, manager, 1, &[RUNNING]);
    has_output(rt, manager, 2, &[DONE]);
}

/// Asserts that the first of them has its second query answered in the next turn.
fn lists_no_job<D: Disk, C: Children>(
    rt: &(impl AllocGlobal + Abort),
    manager: &mut Manager<D, C>,
) {
    let none = pieces(rt, &[]);
    turn(manager, &none).expect(rt, "refused");
    has_output(rt, manager, 1, &[NONE]);
    has_output(rt, manager, 2, &[]);
}

#[test]
fn a_query_is_answered_after_all_inputs_of_its_turn(rt: HostRuntime) {
    let mut manager = over(&rt, new_store(&rt));
    load(&rt, &mut manager);
    shows_what_starts(&rt, &mut manager);
    lists_no_job(&rt, &mut manager);
}

/// Asserts that a turn whose store fails answers a query.
fn fails<D: Disk, C: Children>(rt: &(impl AllocGlobal + Abort), manager: &mut Manager<D, C>) {
    let refusal = refused(rt, manager, SHOW, PUT);
    same!(rt, matches!(&refusal, Refusal::Device), true);
    drop(refusal);
    has_output(rt, manager, 1, &[RUNNING]);
    has_output(rt, manager, 2, &[FAILED]);
}

/// Asserts that a turn whose store has failed answers a query.
fn has_failed<D: Disk, C: Children>(rt: &(impl AllocGlobal + Abort), manager: &mut Manager<D, C>) {
    let refusal = refused(rt, manager, SHOW, PUT);
    same!(rt, matches!(&refusal, Refusal::Reopen), true);
    drop(refusal);
    has_output(rt, manager, 1, &[RUNNING]);
    has_output(rt, manager, 2, &[FAILED_BEFORE]);
}

#[test]
fn a_turn_whose_store_fails_still_answers_queries(rt: HostRuntime) {
    let (disk, _) = parts_of(running(&rt, 0));
    let next = disk.calls().checked_add(1).expect(&rt, "too many");
    let mut manager = running(&rt, next);
    fails(&rt, &mut manager);
    has_failed(&rt, &mut manager);
    same!(&rt, started(&rt, manager).as_slice(), [1].as_slice());
}
