//! Two clients of a manager in which any allocation may fail, once: a request that finds no memory is sent again.

use crate::hoard::Hoard;
use crate::managers;
use crate::sessions::{add, frame, sent, silence};
use std::alloc::Global;
use um_children::FakeChildren;
use um_manager::{Connection, Manager, Output, Pieces};
use um_model::UnitVerb;
use um_sector::MemDisk;
use um_store_in_turn::alone::{Course, course_of};
use um_store_in_turn::lives::{SLEEPS, stand_for, taker_behind};
use um_store_in_turn::rows::{Coming, Row, boot_of};
use um_store_in_turn::wrong::{Wrong, found};
use um_wire::{Refusal, spell};

type InMemory = Manager<MemDisk, FakeChildren>;

const SHOW: &str = r#"{"verb":"show","unit":"a"}"#;

const JOBS: &str = r#"{"verb":"list-jobs"}"#;

const START: &str = r#"{"verb":"start","unit":"a"}"#;

/// The replies that may come to the start, to the show that comes with it, and to the list of jobs after it.
const DONE: &str = r#"{"ok":true}"#;

const WANTING: &str = r#"{"detail":[],"error":15,"ok":false}"#;

const DEVICE: &str = r#"{"detail":[],"error":16,"ok":false}"#;

const NONE: &str = r#"{"ok":true,"value":[]}"#;

const RUNNING: &str =
    r#"{"ok":true,"value":{"ActiveState":"active","Description":"","Id":"a.service","LoadState":"loaded","MainNumber":1,"Result":"success","SubState":"running","Warnings":[]}}"#;

const DEAD: &str =
    r#"{"ok":true,"value":{"ActiveState":"inactive","Description":"","Id":"a.service","LoadState":"loaded","MainNumber":0,"Result":"success","SubState":"dead","Warnings":[]}}"#;

/// The inputs before the manager is opened.
const LOADED: &[Row] = &[
    (0, Coming::Put("lib/a.service", SLEEPS)),
    (0, Coming::Reload),
];

/// The same, the boot, the start of the two clients, and its end if the children find no memory for it.
const TURNED: &[Row] = &[
    (0, Coming::Put("lib/a.service", SLEEPS)),
    (0, Coming::Reload),
    (0, Coming::Booted("one")),
    (0, Coming::Verb(UnitVerb::Start, "a.service")),
    (0, Coming::Ended(1, 203)),
];

/// The number of these rows up to the boot, up to the start, and up to its end.
const BOOTED: usize = 3;

const STARTED: usize = 4;

const ENDED: usize = 5;

/// Asserts what the images of a disk stand for whose opening was refused in this way.
fn stands_as_before(
    alloc: Global,
    course: &Course,
    refusal: Refusal,
    disk: &MemDisk,
) -> Result<(), Wrong> {
    let high = match refusal {
        Refusal::NoMemory => LOADED.len(),
        Refusal::Device => BOOTED,
        refusal => return Err(Wrong::from(refusal)),
    };
    stand_for(alloc, course, disk, LOADED.len(), high)
}

/// The manager over a store that is loaded, opened again if it found no memory: then each image stands for the state from before, or,
/// if its disk found none, maybe for that after the boot.
fn opened_manager(alloc: Global, course: &Course) -> Result<Box<InMemory>, Wrong> {
    let disk = taker_behind(alloc, course, LOADED, false)?.into_disk();
    let boot = boot_of(alloc, "one")?;
    let (refusal, disk, children) = match managers::open(
        alloc,
        disk,
        FakeChildren::new(alloc),
        boot,
    ) {
        Ok(manager) => return Ok(Box::new(alloc, manager)?),
        Err(refused) => refused,
    };
    stands_as_before(alloc, course, refusal, &disk)?;
    open(alloc, disk, children)
}

fn open(alloc: Global, disk: MemDisk, children: FakeChildren) -> Result<Box<InMemory>, Wrong> {
    managers::opened(alloc, disk, children, boot_of(alloc, "one")?)
}

/// The manager whose disk found no memory, opened again.
fn again(alloc: Global, manager: Box<InMemory>) -> Result<Box<InMemory>, Wrong> {
    let (disk, children) = Box::into_inner(manager).into_parts();
    open(alloc, disk, children)
}

fn output(manager: &mut InMemory, number: usize) -> Result<Output, Wrong> {
    match Connection::new(number) {
        Some(connection) => Ok(manager.output(connection)),
        None => Err(found("no connection")),
    }
}

/// Which of these replies was put out; None if the session has failed without one.
fn reply_among(alloc: Global, output: &Output, texts: &[&str]) -> Result<Option<usize>, Wrong> {
    if output.failed {
        if output.bytes.is_empty() {
            return Ok(None);
        }
        return Err(found("a session that failed has put something out"));
    }
    for (place, text) in texts.iter().enumerate() {
        if output.bytes.as_slice() == frame(alloc, text.as_bytes())?.as_slice() {
            return Ok(Some(place));
        }
    }
    Err(found("another reply than one of those that may come"))
}

/// Whether the state of the manager is that after the start, or, if the children failed, that after its end.
fn has_started(alloc: Global, course: &Course, manager: &InMemory) -> Result<bool, Wrong> {
    let bytes = spell(alloc, manager.state())?;
    let last = if manager.children().failures() == 0 {
        STARTED
    } else {
        ENDED
    };
    match course.place(BOOTED, last, bytes.as_slice()) {
        Some(place) => Ok(place >= STARTED),
        None => Err(found("a state that isn't that before or behind the start")),
    }
}

/// The outcome of a turn of the two clients.
#[derive(Clone, Copy)]
enum Turned {
    /// It was done.
    Done,
    /// It was done but for requests that are answered E15, the start maybe.
    Served,
    /// It found no memory for itself.
    Untaken,
    /// The disk failed.
    Failed,
}

/// The output for the two clients, and whether the start was done.
#[derive(Drop)]
struct Got {
    shown: Output,
    started: Output,
    is_behind: bool,
}

/// Asserts that nothing was done.
fn untaken(got: &Got) -> Result<Turned, Wrong> {
    let is_silent = got.shown.bytes.is_empty() && got.started.bytes.is_empty();
    if got.is_behind || !is_silent || got.shown.failed || got.started.failed {
        return Err(found("a turn without memory did something"));
    }
    Ok(Turned::Untaken)
}

/// Asserts that the start is answered E16, and isn't done.
fn failed(alloc: Global, got: &Got) -> Result<Turned, Wrong> {
    if got.is_behind {
        return Err(found("the state after E16 isn't that from before"));
    }
    reply_among(alloc, &got.started, &[DEVICE])?;
    Ok(Turned::Failed)
}

/// Asserts that the replies agree with the state.
fn served(alloc: Global, got: &Got) -> Result<Turned, Wrong> {
    let shows = if got.is_behind { RUNNING } else { DEAD };
    let shown = reply_among(alloc, &got.shown, &[shows, WANTING])?;
    let started = reply_among(alloc, &got.started, &[DONE, WANTING])?;
    let is_done = match started {
        Some(place) => place == 0,
        // if the reply alone found no memory, the state shows whether the start was done
        None => got.is_behind,
    };
    if is_done != got.is_behind {
        return Err(found("the reply to the start isn't what the state tells"));
    }
    if shown == Some(0) && started == Some(0) {
        return Ok(Turned::Done);
    }
    Ok(Turned::Served)
}

/// The outcome of a turn, as far as its answer shows it: `Done`, `Untaken` or `Failed`.
fn answered(turned: Result<(), Refusal>) -> Result<Turned, Wrong> {
    let Err(refusal) = turned else {
        return Ok(Turned::Done);
    };
    let is_wanting = matches!(refusal, Refusal::NoMemory);
    if !is_wanting && !matches!(refusal, Refusal::Device) {
        return Err(Wrong::from(refusal));
    }
    drop(refusal);
    Ok(if is_wanting {
        Turned::Untaken
    } else {
        Turned::Failed
    })
}

/// A turn that finds this many grains.
fn turn(
    alloc: Global,
    manager: &mut InMemory,
    pieces: Pieces,
    grains: Option<usize>,
) -> Result<Turned, Wrong> {
    let hoard = Hoard::all_but(alloc, grains)?;
    let turned = managers::turn(manager, &pieces);
    drop(hoard);
    answered(turned)
}

/// The bytes from two clients: one sends `show` and then `list-jobs`; the other one sends `start`.
fn sent_by_both(alloc: Global, first: usize) -> Result<Pieces, Wrong> {
    let mut both = sent(alloc, first, &[SHOW, JOBS])?;
    add(alloc, &mut both, first.saturating_add(1), &[START])?;
    Ok(both)
}

/// The output for both.
fn got_by_both(
    alloc: Global,
    course: &Course,
    manager: &mut InMemory,
    first: usize,
) -> Result<Got, Wrong> {
    Ok(Got {
        is_behind: has_started(alloc, course, manager)?,
        shown: output(manager, first)?,
        started: output(manager, first.saturating_add(1))?,
    })
}

/// The turn of two clients, with this many grains.
fn both(
    alloc: Global,
    course: &Course,
    manager: &mut InMemory,
    first: usize,
    grains: Option<usize>,
) -> Result<Turned, Wrong> {
    let turned = turn(alloc, manager, sent_by_both(alloc, first)?, grains)?;
    let got = got_by_both(alloc, course, manager, first)?;
    match turned {
        Turned::Untaken => untaken(&got),
        Turned::Failed => failed(alloc, &got),
        Turned::Done | Turned::Served => served(alloc, &got),
    }
}

/// The jobs, whose request came after the show, are listed in the next turn, which is repeated if it found no memory.
fn listed(alloc: Global, manager: &mut InMemory, first: usize) -> Result<(), Wrong> {
    let mut turned = turn(alloc, manager, silence(alloc)?, None)?;
    if let Turned::Untaken = turned {
        turned = turn(alloc, manager, silence(alloc)?, None)?;
    }
    let Turned::Done = turned else {
        return Err(found("a turn in which nothing comes is refused"));
    };
    reply_among(alloc, &output(manager, first)?, &[NONE, WANTING])?;
    Ok(())
}

/// The turn of two clients, and the list after it.
fn both_and_list(
    alloc: Global,
    course: &Course,
    manager: &mut InMemory,
    first: usize,
    grains: Option<usize>,
) -> Result<Turned, Wrong> {
    let turned = both(alloc, course, manager, first, grains)?;
    if let Turned::Done | Turned::Served = turned {
        listed(alloc, manager, first)?;
    }
    Ok(turned)
}

/// Sends the start again if it wasn't done, and asserts that it is done then.
fn done(alloc: Global, course: &Course, manager: &mut InMemory, first: usize) -> Result<(), Wrong> {
    if has_started(alloc, course, manager)? {
        return Ok(());
    }
    both_and_list(alloc, course, manager, first, None)?;
    if has_started(alloc, course, manager)? {
        return Ok(());
    }
    Err(found("no memory where there is some"))
}

/// Requests the jobs, and returns whether they were listed: there are none.
fn lists(alloc: Global, manager: &mut InMemory, number: usize) -> Result<bool, Wrong> {
    match turn(alloc, manager, sent(alloc, number, &[JOBS])?, None)? {
        Turned::Done | Turned::Served => {}
        Turned::Untaken => return Ok(false),
        Turned::Failed => return Err(found("a list of jobs meets a fault")),
    }
    let told = reply_among(alloc, &output(manager, number)?, &[NONE, WANTING])?;
    Ok(told == Some(0))
}

/// Asserts that each request that was refused for want of memory is done when the clients with the next numbers send it again.
fn done_in_the_end(alloc: Global, course: &Course, manager: &mut InMemory) -> Result<(), Wrong> {
    done(alloc, course, manager, 3)?;
    if lists(alloc, manager, 5)? || lists(alloc, manager, 6)? {
        return Ok(());
    }
    Err(found("no memory where there is some"))
}

/// Two clients in one turn of a manager, which finds this many grains, and the requests that are sent again after it. Returns whether
/// nothing of the turn was refused.
fn two_of(
    alloc: Global,
    course: &Course,
    mut manager: Box<InMemory>,
    grains: Option<usize>,
) -> Result<bool, Wrong> {
    let turned = both_and_list(alloc, course, manager.as_mut(), 1, grains)?;
    if let Turned::Failed = turned {
        manager = again(alloc, manager)?;
    }
    done_in_the_end(alloc, course, manager.as_mut())?;
    Ok(matches!(turned, Turned::Done))
}

/// Two clients in one turn, which finds this many grains, and a list of the jobs after it; a request that finds no memory is sent again.
/// Returns whether nothing of the turn was refused.
pub fn two(alloc: Global, grains: Option<usize>) -> Result<bool, Wrong> {
    let course = course_of(alloc, TURNED)?;
    let manager = opened_manager(alloc, &course)?;
    two_of(alloc, &course, manager, grains)
}

/// The same with as much memory as there is; returns how many requests there were.
pub fn two_clients(alloc: Global) -> Result<u64, Wrong> {
    two(alloc, None)?;
    Ok(4)
}
