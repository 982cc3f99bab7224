//! `umd ctl --wait`: waits until a unit has started or stopped.

use crate::answers::ctl_fault;
use serde_json::Value;
use std::alloc::Global;
use std::io::Read;
use std::net::Net;
use std::thread;
use std::time::{Clock, Duration, Instant};
use um_ctl::{CtlFault, Patience, Told, Words, ask};
use um_line::{CtlLine, DEVICE, REFUSED, put_line};
use um_memory::Fault;
use um_status::{Goal, Standing, standing_line, standing_of, unit_shown};

/// The interval between two queries, in milliseconds.
const APART: u64 = 50;

/// A process that is still the same after this many milliseconds counts as running.
const STAYS: u64 = 1_000;

/// A manager that is queried repeatedly, within a time limit.
#[derive(Clone, Copy)]
pub struct Asking<'a, R> {
    rt: &'a R,
    alloc: Global,
    socket: &'a str,
    retry: Option<u32>,
    timeout: Option<u32>,
    begun: Option<Instant>,
}

/// A time in seconds, rounded up.
fn rounded_up(time: Duration) -> u64 {
    let more = if time.subsec_nanos() > 0 { 1 } else { 0 };
    time.as_secs().saturating_add(more)
}

/// How many of these seconds are left, rounded up; `Late` if none is.
fn left_of(seconds: u32, spent: Duration) -> Result<u32, CtlFault> {
    match Duration::from_secs(u64::from(seconds)).checked_sub(spent) {
        Some(left) if !left.is_zero() => Ok(u32::try_from(rounded_up(left)).unwrap_or(seconds)),
        _ => Err(CtlFault::Late(seconds)),
    }
}

impl<'a, R: Net + Clock + Input> Asking<'a, R> {
    /// Starts the time limit now.
    pub fn starting(
        rt: &'a R,
        alloc: Global,
        socket: &'a str,
        retry: Option<u32>,
        timeout: Option<u32>,
    ) -> Asking<'a, R> {
        Asking {
            rt,
            alloc,
            socket,
            retry,
            timeout,
            begun: Instant::now(rt).ok(),
        }
    }

    /// The system that it uses.
    pub fn rt(&self) -> &'a R {
        self.rt
    }

    /// Its allocator.
    pub fn alloc(&self) -> Global {
        self.alloc
    }

    /// The path of the socket.
    pub fn socket(&self) -> &'a str {
        self.socket
    }

    /// The time since the start.
    fn spent(&self) -> Duration {
        match self.begun {
            Some(begun) => begun.elapsed(self.rt).unwrap_or(Duration::ZERO),
            None => Duration::ZERO,
        }
    }

    /// How many seconds are left, rounded up; `Late` if none is.
    fn left(&self) -> Result<Option<u32>, CtlFault> {
        match self.timeout {
            Some(seconds) => Ok(Some(left_of(seconds, self.spent())?)),
            None => Ok(None),
        }
    }

    /// The answer to these words.
    pub fn ask(&self, words: &Words<'_>) -> Result<Told, CtlFault> {
        self.ask_with(words, &mut self.rt.reader())
    }

    /// The answer to these words, with the text of a file from the input.
    pub fn ask_with<I: Read>(&self, words: &Words<'_>, input: &mut I) -> Result<Told, CtlFault> {
        let patience = Patience {
            retry: self.retry,
            timeout: self.left()?,
        };
        match ask(self.rt, self.alloc, self.socket, words, patience, input) {
            Ok(told) => Ok(told),
            Err(fault) => Err(self.of_whole(fault)),
        }
    }

    /// A timeout, reported with the whole time limit rather than the time that was left.
    fn of_whole(&self, fault: CtlFault) -> CtlFault {
        match fault {
            CtlFault::Late(left) => CtlFault::Late(self.timeout.unwrap_or(left)),
            fault => fault,
        }
    }

    /// Waits for one interval. `Late` if the time is up.
    fn pause(&self) -> Result<(), CtlFault> {
        let _left = self.left()?;
        thread::sleep(self.rt, Duration::from_millis(APART));
        Ok(())
    }
}

/// The value of a reply, or its refusal.
#[derive(Drop)]
pub enum Answer {
    Value(Value),
    Refused(Told),
}

/// The value of a reply's text.
fn value_in(alloc: Global, text: &str) -> Result<Answer, CtlFault> {
    match Value::from_str(alloc, text) {
        Ok(value) => Ok(Answer::Value(value)),
        Err(fault) if fault.is_memory() => Err(CtlFault::NoMemory),
        Err(_) => Err(CtlFault::NoReply),
    }
}

/// The value of a reply, or its refusal.
fn answer_of(alloc: Global, told: Told) -> Result<Answer, CtlFault> {
    if told.status == 0 {
        value_in(alloc, told.output.as_str())
    } else {
        Ok(Answer::Refused(told))
    }
}

/// The value of the reply to a query, for a unit if one is named.
pub fn value_of<'w, R: Net + Clock + Input>(
    asking: &Asking<'_, R>,
    verb: &'w str,
    arguments: &'w [&'w str],
) -> Result<Answer, CtlFault> {
    let words = Words {
        verb,
        arguments,
        mode: None,
    };
    answer_of(asking.alloc, asking.ask(&words)?)
}

/// The state of the unit that is waited for.
#[derive(Drop)]
enum Found {
    /// The unit's standing, and the line that describes it.
    Standing(Standing, String),
    Refused(Told),
}

/// The standing of a unit by the replies to `show` and `list-jobs`.
fn found_by(alloc: Global, goal: Goal, value: &Value, jobs: &Value) -> Result<Found, CtlFault> {
    let (Some(unit), Some(jobs)) = (unit_shown(value), jobs.as_array()) else {
        return Err(CtlFault::NoReply);
    };
    let line = standing_line(alloc, unit)?;
    Ok(Found::Standing(standing_of(goal, unit, jobs.as_slice()), line))
}

/// The unit's standing now, given the reply to `list-jobs`.
fn look_beside<R: Net + Clock + Input>(
    asking: &Asking<'_, R>,
    goal: Goal,
    unit: &str,
    jobs: &Value,
) -> Result<Found, CtlFault> {
    match value_of(asking, "show", &[unit])? {
        Answer::Value(value) => found_by(asking.alloc, goal, &value, jobs),
        Answer::Refused(told) => Ok(Found::Refused(told)),
    }
}

/// The unit's standing now.
fn look<R: Net + Clock + Input>(
    asking: &Asking<'_, R>,
    goal: Goal,
    unit: &str,
) -> Result<Found, CtlFault> {
    match value_of(asking, "list-jobs", &[])? {
        Answer::Value(jobs) => look_beside(asking, goal, unit, &jobs),
        Answer::Refused(told) => Ok(Found::Refused(told)),
    }
}

/// A running process, and when it was first seen.
#[derive(Clone, Copy)]
struct Running {
    number: u64,
    since: Duration,
}

/// The decision after a look.
#[derive(Clone, Copy)]
enum Next {
    /// Look again.
    Again(Option<Running>),
    Reached,
    Missed,
}

/// The decision after a look that finds a process running under this number, given the process that ran before.
fn next_of_running(number: u64, before: Option<Running>, spent: Duration) -> Next {
    let Some(running) = before else {
        let since = spent;
        return Next::Again(Some(Running { number, since }));
    };
    if running.number != number {
        return Next::Missed;
    }
    if spent.saturating_sub(running.since) < Duration::from_millis(STAYS) {
        Next::Again(before)
    } else {
        Next::Reached
    }
}

/// The decision after a look that finds this standing, given the process that ran before.
fn next_of(standing: Standing, before: Option<Running>, spent: Duration) -> Next {
    match standing {
        Standing::Moving => Next::Again(before),
        Standing::Runs(number) => next_of_running(number, before, spent),
        Standing::Reached => Next::Reached,
        Standing::Missed => Next::Missed,
    }
}

/// How a wait ended.
#[derive(Drop)]
enum Outcome {
    Reached,
    /// The line that describes the unit's standing.
    Missed(String),
    Refused(Told),
}

/// The step that follows a look.
#[derive(Drop)]
enum Step {
    /// Look again.
    Again(Option<Running>),
    Ended(Outcome),
}

/// The step for a decision, with the line that describes the unit's standing.
fn step_of(next: Next, line: String) -> Step {
    match next {
        Next::Again(running) => Step::Again(running),
        Next::Reached => Step::Ended(Outcome::Reached),
        Next::Missed => Step::Ended(Outcome::Missed(line)),
    }
}

/// Looks at the unit, given the process that ran before.
fn next_step<R: Net + Clock + Input>(
    asking: &Asking<'_, R>,
    goal: Goal,
    unit: &str,
    before: Option<Running>,
) -> Result<Step, CtlFault> {
    match look(asking, goal, unit)? {
        Found::Standing(standing, line) => {
            Ok(step_of(next_of(standing, before, asking.spent()), line))
        }
        Found::Refused(told) => Ok(Step::Ended(Outcome::Refused(told))),
    }
}

/// Looks at the unit until the wait ends.
fn watch<R: Net + Clock + Input>(
    asking: &Asking<'_, R>,
    goal: Goal,
    unit: &str,
) -> Result<Outcome, CtlFault> {
    let mut before = None;
    for _ in 0..u64::MAX {
        match next_step(asking, goal, unit, before)? {
            Step::Again(running) => before = running,
            Step::Ended(outcome) => return Ok(outcome),
        }
        asking.pause()?;
    }
    Ok(Outcome::Reached)
}

/// Prints the text of a refusal on standard error, and returns the exit status.
pub fn refused<R: Eprint>(rt: &R, told: &Told) -> Result<u8, Fault> {
    let error = &told.error;
    match eprint!(rt; "{error}") {
        Ok(()) => Ok(told.status),
        Err(e) => Err(Fault::Write(e)),
    }
}

/// The exit status of a fault after the command: then the loss of the manager is a device failure.
fn status_behind(fault: &CtlFault) -> u8 {
    match fault {
        CtlFault::NoConnection(_) | CtlFault::Unread => DEVICE,
        _ => fault.status(),
    }
}

/// Waits until the unit has started or stopped, and returns the exit status.
fn wait_behind<R: Net + Clock + Input + Eprint>(
    asking: &Asking<'_, R>,
    line: &CtlLine<'_>,
    goal: Goal,
    unit: &str,
) -> Result<u8, Fault> {
    match watch(asking, goal, unit) {
        Ok(Outcome::Reached) => Ok(0),
        Ok(Outcome::Missed(told)) => {
            put_line(asking.rt, asking.alloc, format_args!("umd: {told}"));
            Ok(REFUSED)
        }
        Ok(Outcome::Refused(told)) => refused(asking.rt, &told),
        Err(fault) => {
            ctl_fault(asking.rt, asking.alloc, &fault, line.verb, asking.socket);
            Ok(status_behind(&fault))
        }
    }
}

/// Sends the request to start or stop a unit to the manager at the socket, waits for the result, and returns the exit
/// status.
pub fn wait<R: Net + Clock + Input + Eprint>(
    rt: &R,
    alloc: Global,
    line: &CtlLine<'_>,
    socket: &str,
    goal: Goal,
    unit: &str,
) -> Result<u8, Fault> {
    let asking = Asking::starting(rt, alloc, socket, line.retry, line.timeout);
    let words = Words {
        verb: line.verb,
        arguments: line.arguments.as_slice(),
        mode: line.mode,
    };
    match asking.ask(&words) {
        Ok(told) if told.status == 0 => wait_behind(&asking, line, goal, unit),
        Ok(told) => refused(rt, &told),
        Err(fault) => {
            ctl_fault(rt, alloc, &fault, line.verb, socket);
            Ok(fault.status())
        }
    }
}
