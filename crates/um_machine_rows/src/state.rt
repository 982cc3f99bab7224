//! The state: its units and pending jobs.
use crate::answers::WAITS_TO_START;
use crate::steps::empty;
use std::process::Abort;
use um_asserts::{same, unit};
use um_model::{Deadline, ProcessNumber, SubState, UnitJobs, UnitState};
use um_state::{Pending, State, Units};
use um_timer::Timers;

/// A unit whose main process has this number, with a deadline at this moment.
fn starting(number: u64, deadline: u64) -> UnitState {
    UnitState {
        sub: SubState::Start,
        main: ProcessNumber::new(number),
        deadline: Deadline::new(deadline),
        ..UnitState::DEAD
    }
}

/// The unit stands so from now on.
fn set(rt: &(impl AllocGlobal + Abort), units: &mut Units, name: &str, state: UnitState) {
    let set: Result<_, _> = units.set(&unit!(rt, name), state);
    set.expect(rt, "no memory");
}

/// Units of which two have a live process, with these numbers: a the 7 and b the 8.
fn two_units(rt: &(impl AllocGlobal + Abort)) -> Box<Units> {
    let units = Units::new(rt.alloc());
    let mut units = Box::new(rt.alloc(), units).expect(rt, "no memory");
    set(rt, units.as_mut(), "a.service", starting(7, 90));
    set(rt, units.as_mut(), "b.service", starting(8, 60));
    units
}

/// The deadline of the timer that is due first, in microseconds.
fn first_deadline(timers: &Timers) -> Option<u64> {
    match timers.next_due() {
        Some((deadline, _)) => Some(deadline.micros()),
        None => None,
    }
}

/// Asserts that the timers are those of the two units.
fn has_deadlines(rt: &(impl AllocGlobal + Abort), timers: &Timers) {
    same!(rt, first_deadline(timers), Some(60));
    for (name, wanted) in [("a.service", 90), ("b.service", 60)] {
        let deadline = timers.get(&unit!(rt, name));
        same!(rt, deadline, Deadline::new(wanted));
    }
}

#[test]
fn the_units_of_processes_and_their_deadlines_are_told(rt: HostRuntime) {
    let units = two_units(&rt);
    let found = units.as_ref().process(7).expect(&rt, "no process");
    same!(&rt, found.as_str(), "a.service");
    same!(&rt, units.as_ref().process(9).is_some(), false);
    has_deadlines(&rt, &units.as_ref().deadlines().expect(&rt, "no memory"));
}

/// How the unit stands in the units.
fn state_in(rt: &(impl AllocGlobal + Abort), units: &Units, name: &str) -> UnitState {
    units.get(&unit!(rt, name))
}

/// Asserts that the two units are in the copy, and that the original says a is dead once it is set so.
fn is_left(rt: &(impl AllocGlobal + Abort), units: &mut Units, copy: &Units) {
    same!(rt, state_in(rt, copy, "b.service"), starting(8, 60));
    set(rt, units, "a.service", UnitState::DEAD);
    same!(rt, units.holds(&unit!(rt, "a.service")), false);
    let first = (
        state_in(rt, units, "a.service"),
        state_in(rt, copy, "a.service"),
    );
    same!(rt, first, (UnitState::DEAD, starting(7, 90)));
    same!(rt, state_in(rt, units, "b.service"), starting(8, 60));
}

#[test]
fn units_hold_what_was_put_into_them_and_a_copy_stays_as_it_was(rt: HostRuntime) {
    let mut units = two_units(&rt);
    let copy = units.as_ref().copy().expect(&rt, "no memory");
    let copy = Box::new(rt.alloc(), copy).expect(&rt, "no memory");
    is_left(&rt, units.as_mut(), copy.as_ref());
}

/// The unit has these pending jobs from now on.
fn put_jobs(rt: &(impl AllocGlobal + Abort), pending: &mut Pending, name: &str, jobs: UnitJobs) {
    let set: Result<_, _> = pending.set(&unit!(rt, name), jobs);
    set.expect(rt, "no memory");
}

/// Asserts that the pending jobs are those of the copy until some are put.
fn jobs_are_left(rt: &(impl AllocGlobal + Abort), pending: &mut Pending, copy: &Pending) {
    same!(rt, copy.get(&unit!(rt, "b.service")), WAITS_TO_START);
    put_jobs(rt, pending, "a.service", UnitJobs::NONE);
    same!(rt, pending.holds(&unit!(rt, "a.service")), false);
    same!(rt, copy.get(&unit!(rt, "a.service")), WAITS_TO_START);
}

#[test]
fn a_copy_of_jobs_stays_as_it_was(rt: HostRuntime) {
    let mut pending = Pending::new(rt.alloc());
    put_jobs(&rt, &mut pending, "b.service", WAITS_TO_START);
    put_jobs(&rt, &mut pending, "a.service", WAITS_TO_START);
    let copy = pending.copy().expect(&rt, "no memory");
    jobs_are_left(&rt, &mut pending, &copy);
}

/// Asserts of how many units the state holds anything, and whether it does of a and of b.
fn holds(rt: &(impl AllocGlobal + Abort), state: &State, wanted: (usize, bool, bool)) {
    let held = state.held(rt.alloc()).expect(rt, "no memory");
    let a = state.holds(&unit!(rt, "a.service"));
    let b = state.holds(&unit!(rt, "b.service"));
    same!(rt, (held.len(), a, b), wanted);
}

/// The unit stands so in the state from now on.
fn stands(rt: &(impl AllocGlobal + Abort), state: &mut State, name: &str, unit_state: UnitState) {
    let set: Result<_, _> = state.set_unit(&unit!(rt, name), unit_state);
    set.expect(rt, "no memory");
}

/// Asserts the contents of the state of a new store as a comes and goes and b has jobs.
fn hold_in_turn(rt: &(impl AllocGlobal + Abort), state: &mut State) {
    holds(rt, state, (0, false, false));
    stands(rt, state, "a.service", starting(7, 90));
    holds(rt, state, (1, true, false));
    let jobs: Result<_, _> = state.set_jobs(&unit!(rt, "b.service"), WAITS_TO_START);
    jobs.expect(rt, "no memory");
    holds(rt, state, (2, true, true));
    stands(rt, state, "a.service", UnitState::DEAD);
    holds(rt, state, (1, false, true));
}

#[test]
fn a_state_holds_units_that_stand_or_have_jobs(rt: HostRuntime) {
    let mut state = empty(&rt);
    hold_in_turn(&rt, state.as_mut());
}

/// Asserts that the state holds nothing.
fn holds_nothing(rt: &impl Abort, state: &State) {
    same!(rt, (state.tree().len(), state.loaded().tree.len()), (0, 0));
    same!(rt, state.boot().as_str(), "");
    same!(rt, (state.clock().micros(), state.next().get()), (0, 1));
}

#[test]
fn a_new_store_holds_nothing(rt: HostRuntime) {
    let state = empty(&rt).as_ref().copy().expect(&rt, "no memory");
    let state = Box::new(rt.alloc(), state).expect(&rt, "no memory");
    holds_nothing(&rt, state.as_ref());
}
