//! Deadlines by unit.
use std::process::Abort;
use um_asserts::{same, unit};
use um_model::Deadline;
use um_timer::Timers;

/// Sets these deadlines, each of the unit of this name, one after another.
fn set(rt: &(impl AllocGlobal + Abort), timers: &mut Timers, deadlines: &[(&str, u64)]) {
    for (name, micros) in deadlines {
        let deadline = Deadline::new(*micros).expect(rt, "no deadline");
        timers
            .set(unit!(rt, name), deadline)
            .expect(rt, "no memory");
    }
}

/// The timer that is due first: its deadline in microseconds, and its unit.
fn first(timers: &Timers) -> Option<(u64, &str)> {
    match timers.next_due() {
        Some((deadline, unit)) => Some((deadline.micros(), unit.as_str())),
        None => None,
    }
}

/// Asserts which timer is due first: its deadline in microseconds, and its unit.
fn is_first(rt: &impl Abort, timers: &Timers, wanted: Option<(u64, &str)>) {
    same!(rt, first(timers), wanted);
}

/// Asserts the deadline of `a.service`, in microseconds.
fn has_deadline(rt: &(impl AllocGlobal + Abort), timers: &Timers, micros: u64) {
    let name = unit!(rt, "a.service");
    same!(rt, timers.get(&name), Deadline::new(micros));
}

/// Takes the deadline of the unit away.
fn clear(rt: &(impl AllocGlobal + Abort), timers: &mut Timers, name: &str) {
    timers.clear(&unit!(rt, name));
}

/// The same timers again.
fn copy_of(rt: &impl Abort, timers: &Timers) -> Timers {
    timers.copy().expect(rt, "no memory")
}

/// Asserts that of equal deadlines that of the least name is due first.
fn is_due_by_name(rt: &(impl AllocGlobal + Abort), timers: &mut Timers) {
    is_first(rt, timers, None);
    let deadlines = [("b.service", 7), ("c.service", 5), ("a.service", 7)];
    set(rt, timers, &deadlines);
    is_first(rt, timers, Some((5, "c.service")));
    clear(rt, timers, "c.service");
    is_first(rt, timers, Some((7, "a.service")));
}

/// Asserts that a deadline takes the place of the one before.
fn is_replaced(rt: &(impl AllocGlobal + Abort), timers: &mut Timers) {
    set(rt, timers, &[("a.service", 5)]);
    let kept = copy_of(rt, timers);
    set(rt, timers, &[("a.service", 9)]);
    has_deadline(rt, timers, 9);
    has_deadline(rt, &kept, 5);
    set(rt, timers, &[("a.service", 2)]);
    is_first(rt, timers, Some((2, "a.service")));
}

#[test]
fn of_equal_deadlines_the_least_name_is_due_first_and_a_later_one_counts(rt: HostRuntime) {
    is_due_by_name(&rt, &mut Timers::new(rt.alloc()));
    is_replaced(&rt, &mut Timers::new(rt.alloc()));
}
