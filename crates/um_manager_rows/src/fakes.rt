//! Children in memory.
use crate::orders::{next, number, order, told};
use std::process::Abort;
use um_asserts::{same, text};
use um_children::{Call, ChildFault, Children, End, FakeChildren, Fate, Signal};

const SLEEPS: &str = "ExecStart=/bin/sleep 9";

/// Starts number 1.
fn start(rt: &(impl AllocGlobal + Abort), children: &mut FakeChildren) {
    let order = order(rt, SLEEPS);
    same!(rt, order.number(), number(rt, 1));
    children.spawn(order).expect(rt, "not started");
}

/// Children of which number 1 was started.
fn started(rt: &(impl AllocGlobal + Abort)) -> FakeChildren {
    let mut children = FakeChildren::new(rt.alloc());
    start(rt, &mut children);
    children
}

/// Asserts that the query of number 1's fate fails.
fn fails(rt: &impl Abort, children: &mut FakeChildren, claim: bool) {
    let answer = children.fate(number(rt, 1), claim);
    same!(rt, answer, Err(ChildFault::Device));
}

/// Asserts that this many calls have failed.
fn has_failed(rt: &impl Abort, children: &FakeChildren, wanted: u64) {
    same!(rt, children.failures(), wanted);
}

/// Asserts that these are the words of `SLEEPS`.
fn sleeps(rt: &impl Abort, words: &[String]) {
    let [program, seconds] = words else {
        rt.abort()
    };
    same!(
        rt,
        [program.as_str(), seconds.as_str()],
        ["/bin/sleep", "9"],
    );
}

/// Asserts that a start, a signal, two calls that let numbers go, and a question that failed were noted, and no other call.
fn are_noted(rt: &(impl AllocGlobal + Abort), calls: &[Call]) {
    let [
        Call::Spawned {
            start,
            is_taken: true,
            starts: true,
            ..
        },
        Call::Signalled {
            signal: Signal::Term,
            ..
        },
        Call::Forgot { number: forgotten },
        Call::ForgotOthers { live, next: behind },
        Call::Asked {
            claim: true,
            told: None,
            ..
        },
    ] = calls
    else {
        rt.abort()
    };
    same!(rt, *forgotten, number(rt, 1));
    same!(rt, live.as_slice(), [number(rt, 2)].as_slice());
    same!(rt, behind.get(), 3);
    let words = start.words(rt.alloc()).expect(rt, "no memory");
    sleeps(rt, words.as_slice());
}

#[test]
fn a_number_that_was_started_is_executed_until_its_end_is_told(rt: HostRuntime) {
    let mut children = started(&rt);
    told(&rt, &mut children, 1, false, Fate::Executed);
    told(&rt, &mut children, 2, false, Fate::Starting);
    told(&rt, &mut children, 2, true, Fate::Absent);
    children
        .ends(number(&rt, 1), End::Code(3))
        .expect(&rt, "no memory");
    told(&rt, &mut children, 1, false, Fate::Ended(End::Code(3)));
    told(&rt, &mut children, 1, true, Fate::Ended(End::Code(3)));
    has_failed(&rt, &children, 0);
}

#[test]
fn the_second_later_call_fails(rt: HostRuntime) {
    let mut children = started(&rt);
    children.fuse(2);
    told(&rt, &mut children, 1, false, Fate::Executed);
    fails(&rt, &mut children, false);
    has_failed(&rt, &children, 1);
    told(&rt, &mut children, 1, false, Fate::Executed);
    has_failed(&rt, &children, 1);
}

#[test]
fn a_number_that_was_told_absent_never_starts(rt: HostRuntime) {
    let mut children = FakeChildren::new(rt.alloc());
    told(&rt, &mut children, 1, true, Fate::Absent);
    start(&rt, &mut children);
    told(&rt, &mut children, 1, true, Fate::Absent);
    told(&rt, &mut children, 1, false, Fate::Starting);
}

#[test]
fn each_call_is_noted_and_one_that_lets_go_burns_no_fuse(rt: HostRuntime) {
    let mut children = started(&rt);
    children
        .signal(number(&rt, 1), Signal::Term)
        .expect(&rt, "not signalled");
    children.fuse(1);
    children.forget(number(&rt, 1)).expect(&rt, "not forgotten");
    children
        .forget_others(&[number(&rt, 2)], next(&rt, 3))
        .expect(&rt, "not forgotten");
    fails(&rt, &mut children, true);
    let copy = children.copy(rt.alloc()).expect(&rt, "no memory");
    are_noted(&rt, copy.calls());
}

/// Asserts that the start of number 1 was noted as one that was refused, and no other call.
fn is_refused(rt: &impl Abort, children: &FakeChildren) {
    let [
        Call::Spawned {
            is_taken: false,
            starts: false,
            ..
        },
    ] = children.calls()
    else {
        rt.abort()
    };
    has_failed(rt, children, 0);
}

/// The lines of a service of which one word is `bytes` bytes long, or its value is given `times` times.
fn long_lines(rt: &(impl AllocGlobal + Abort), bytes: usize, times: usize) -> String {
    let mut lines = text!(rt, "Environment=X=");
    for _ in 0..bytes {
        lines.push('x').expect(rt, "no memory");
    }
    lines
        .push_str("\nExecStart=/bin/true")
        .expect(rt, "no memory");
    for _ in 0..times {
        lines.push_str(" ${X}").expect(rt, "no memory");
    }
    lines
}

#[test]
fn a_start_past_the_bound_is_refused_and_noted(rt: HostRuntime) {
    // 10 for /bin/true, 30,003 for X=, and 30,001 each: 68 of them are 2,070,081, and 69 are 2,100,082
    let lines = long_lines(&rt, 30_000, 69);
    let mut children = FakeChildren::new(rt.alloc());
    let answer = children.spawn(order(&rt, lines.as_str()));
    same!(&rt, answer, Err(ChildFault::TooLong));
    is_refused(&rt, &children);
    told(&rt, &mut children, 1, true, Fate::Absent);
    let lines = long_lines(&rt, 30_000, 68);
    let mut children = FakeChildren::new(rt.alloc());
    let answer = children.spawn(order(&rt, lines.as_str()));
    same!(&rt, answer, Ok(()));
}
