//! Answers as values that can be compared and shown.
use std::process::Abort;
use um_model::{JobState, Moment, UnitJobs};
use um_state::{Action, Start};

/// The moment of this number of microseconds.
pub fn at(rt: &impl Abort, micros: u64) -> Moment {
    Moment::new(micros).expect(rt, "no moment")
}

/// A start that waits.
pub const WAITS_TO_START: UnitJobs = UnitJobs {
    stop: None,
    start: Some(JobState::Waiting),
};

/// The words of the command to be started, and its environment.
fn started(rt: &(impl AllocGlobal + Abort), start: &Start) -> String {
    let words = start.words(rt.alloc()).expect(rt, "no memory");
    let environment = start.environment(rt.alloc()).expect(rt, "no memory");
    format!(in rt.alloc(); "{words:?} {environment:?}").expect(rt, "no memory")
}

/// The action in text: the start of a process under a number, with its words and its environment, or a signal to the process of a number.
fn asked(rt: &(impl AllocGlobal + Abort), action: &Action) -> String {
    let asked = match action {
        Action::Spawn { number, start } => {
            let (number, started) = (number.get(), started(rt, start));
            format!(in rt.alloc(); "spawn {number} {started};")
        }
        Action::Signal { number, signal } => {
            let number = number.get();
            format!(in rt.alloc(); "signal {number} {signal:?};")
        }
    };
    asked.expect(rt, "no memory")
}

/// The actions in text, in their order.
pub fn told(rt: &(impl AllocGlobal + Abort), actions: &[Action]) -> String {
    let mut told = String::new(rt.alloc());
    for action in actions {
        told.push_str(asked(rt, action).as_str())
            .expect(rt, "no memory");
    }
    told
}
