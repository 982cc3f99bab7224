//! The changes of a unit by its events.
use crate::answers::{at, told};
use std::process::Abort;
use std::rc::Rc;
use um_asserts::{same, same_at, text};
use um_model::{End, SubState, UnitResult, UnitState};
use um_service::{Around, NextNumber, Service, ServiceSettings, StartJob, UnitEvent, UnitKind};
use um_words::Command;

/// An event of a unit at this number of microseconds, and its effects: the actions on its processes, the change of its start job, and
/// whether its stop job ends. Then the unit has this sub state, this result, this number of its main process, and this deadline in
/// microseconds.
struct Step {
    event: UnitEvent,
    micros: u64,
    asked: &'static str,
    start: StartJob,
    stop_ends: bool,
    stands: (SubState, UnitResult, Option<u64>, Option<u64>),
}

const STARTS: Step = Step {
    event: UnitEvent::StartBegins,
    micros: 0,
    asked: r#"spawn 1 ["/bin/sleep", "9"] [];"#,
    start: StartJob::Ends,
    stop_ends: false,
    stands: (SubState::Running, UnitResult::Success, Some(1), None),
};

/// Each signal has ninety seconds.
const IS_STOPPED: Step = Step {
    event: UnitEvent::StopBegins,
    micros: 5_000_000,
    asked: "signal 1 Term;",
    start: StartJob::Stays,
    stop_ends: false,
    stands: (
        SubState::StopSigterm,
        UnitResult::Success,
        Some(1),
        Some(95_000_000),
    ),
};

const IS_KILLED: Step = Step {
    event: UnitEvent::DeadlinePasses,
    micros: 95_000_000,
    asked: "signal 1 Kill;",
    start: StartJob::Stays,
    stop_ends: false,
    stands: (
        SubState::StopSigkill,
        UnitResult::Timeout,
        Some(1),
        Some(185_000_000),
    ),
};

/// A stop that nothing ends is given up.
const IS_GIVEN_UP: Step = Step {
    event: UnitEvent::DeadlinePasses,
    micros: 185_000_000,
    asked: "",
    start: StartJob::Stays,
    stop_ends: true,
    stands: (SubState::Failed, UnitResult::Timeout, None, None),
};

/// An end by the signal of the stop is clean.
const ENDS_AS_ASKED: Step = Step {
    event: UnitEvent::MainEnds(End::Signal(15)),
    micros: 6_000_000,
    asked: "",
    start: StartJob::Stays,
    stop_ends: true,
    stands: (SubState::Dead, UnitResult::Success, None, None),
};

/// A failure without restart stays; a unit at rest has no stop job that runs on.
const FAILS: Step = Step {
    event: UnitEvent::MainEnds(End::Code(1)),
    micros: 1_000_000,
    asked: "",
    start: StartJob::Stays,
    stop_ends: true,
    stands: (SubState::Failed, UnitResult::ExitCode, None, None),
};

/// The events of a simple service in turn.
const LIVES: &[&[Step]] = &[
    &[STARTS, IS_STOPPED, IS_KILLED, IS_GIVEN_UP],
    &[STARTS, IS_STOPPED, ENDS_AS_ASKED],
    &[STARTS, FAILS],
];

/// The start of an exec service has ninety seconds.
const IS_STARTED: Step = Step {
    event: UnitEvent::StartBegins,
    micros: 0,
    asked: r#"spawn 1 ["/bin/sleep", "9"] [];"#,
    start: StartJob::Stays,
    stop_ends: false,
    stands: (
        SubState::Start,
        UnitResult::Success,
        Some(1),
        Some(90_000_000),
    ),
};

/// A bound stop is like a stop job that begins, but the start fails.
const IS_BOUND: Step = Step {
    event: UnitEvent::BoundStop,
    start: StartJob::Fails,
    ..IS_STOPPED
};

/// The events of an exec service in turn.
const STARTS_OF_EXEC: &[&[Step]] = &[&[IS_STARTED, IS_STOPPED], &[IS_STARTED, IS_BOUND]];

/// The settings of `ExecStart=/bin/sleep 9` in a service of this kind.
fn sleeps(rt: &(impl AllocGlobal + Abort), kind: UnitKind) -> Rc<ServiceSettings> {
    let mut settings = ServiceSettings::new(rt.alloc(), kind);
    let words = vec![in rt.alloc(); text!(rt, "/bin/sleep"), text!(rt, "9")];
    let command = Command {
        words: words.expect(rt, "no memory"),
        ignores_failure: false,
        substitutes: true,
    };
    settings.start.push(command).expect(rt, "no memory");
    Rc::new(rt.alloc(), settings).expect(rt, "no memory")
}

/// Asserts that the unit stands as it should after this step.
fn stands(rt: &impl Abort, unit: &Service, step: &Step) {
    let now = unit.unit();
    let main = now.main.map(|main| main.get());
    let deadline = now.deadline.map(|deadline| deadline.micros());
    let stands = (now.sub, now.result, main, deadline);
    same_at!(rt, stands, step.stands, step.event);
}

/// Asserts that this follows for the unit, which is loadable and no stop job of which waits, where this is the next process number;
/// the next one is 2 then.
fn follows(
    rt: &(impl AllocGlobal + Abort),
    settings: &Rc<ServiceSettings>,
    unit: &mut Service,
    next: u64,
    step: &Step,
) {
    let around = Around {
        moment: at(rt, step.micros),
        next: NextNumber::new(next).expect(rt, "no number"),
        loadable: true,
        stop_waits: false,
    };
    let after = unit.on(rt.alloc(), step.event, settings, around);
    let after = after.expect(rt, "no memory");
    let asked = told(rt, after.actions.as_slice());
    same_at!(rt, asked.as_str(), step.asked, step.event);
    let jobs = (after.start, after.stop_ends, after.next.get());
    same_at!(rt, jobs, (step.start, step.stop_ends, 2), step.event);
    stands(rt, unit, step);
}

/// Asserts that this follows from the steps for a service of this kind, whose first process gets the number 1.
fn lives(rt: &(impl AllocGlobal + Abort), kind: UnitKind, steps: &[Step]) {
    let mut unit = Service::of(UnitState::DEAD);
    let mut next = 1;
    for step in steps {
        follows(rt, &sleeps(rt, kind), &mut unit, next, step);
        next = 2;
    }
    same!(rt, unit.copy().unit(), unit.unit());
}

#[test]
fn each_event_has_its_consequences(rt: HostRuntime) {
    for steps in LIVES {
        lives(&rt, UnitKind::Simple, steps);
    }
}

#[test]
fn a_stop_leaves_the_start_to_its_end_and_a_bound_stop_fails_it(rt: HostRuntime) {
    for steps in STARTS_OF_EXEC {
        lives(&rt, UnitKind::Exec, steps);
    }
}
