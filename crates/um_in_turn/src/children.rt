//! Each call of the children fails in turn, a start both ways.

use crate::faulty_children::FaultyChildren;
use crate::managers;
use crate::watched::{BOOT, Running, Watched, watch};
use std::alloc::Global;
use um_children::{End, FakeChildren, ProcessNumber};
use um_model::UnitVerb;
use um_sector::MemDisk;
use um_store_in_turn::alone::{Alone, spent};
use um_store_in_turn::rows::{Coming, Row, boot_of, input_of};
use um_store_in_turn::stores::{made, opened, submit};
use um_store_in_turn::wrong::{Wrong, found};

const START: &str = r#"{"verb":"start","unit":"a"}"#;

const STOP: &str = r#"{"verb":"stop","unit":"a"}"#;

const STARTS: Row = (0, Coming::Verb(UnitVerb::Start, "a.service"));

const STOPS: Row = (0, Coming::Verb(UnitVerb::Stop, "a.service"));

/// One thing that a run does.
#[derive(Clone, Copy)]
pub enum Doing {
    /// A turn in which a request comes, and the row that it is.
    Ask(&'static str, Row),
    /// A turn in which nothing comes.
    Silent,
    /// The manager is opened again.
    Open,
    /// The process of the number ended with the code, and the manager is opened again.
    EndAndOpen(u64, u8),
}

/// The rows in the store, how processes end, and the doings.
pub struct Life {
    pub name: &'static str,
    rows: &'static [Row],
    ends: &'static [(u64, u8)],
    doings: &'static [Doing],
}

/// A start that was recorded, and not carried out.
pub const TORN: Life = Life {
    name: " of the torn start",
    rows: &[
        (0, Coming::Booted(BOOT)),
        (
            0,
            Coming::Put("lib/a.service", "[Service]\nExecStart=/bin/sleep 9\n"),
        ),
        (0, Coming::Reload),
        STARTS,
    ],
    ends: &[],
    doings: &[
        Doing::Silent,
        Doing::Silent,
        Doing::Ask(START, STARTS),
        Doing::Silent,
        Doing::Silent,
        Doing::Ask(STOP, STOPS),
        Doing::Silent,
        Doing::EndAndOpen(2, 0),
        Doing::Silent,
        Doing::Ask(START, STARTS),
        Doing::Silent,
        Doing::Silent,
    ],
};

/// A oneshot of two commands, which is started twice; the second time its second command fails.
pub const ONESHOT: Life = Life {
    name: " of the oneshot",
    rows: &[
        (0, Coming::Booted(BOOT)),
        (
            0,
            Coming::Put(
                "lib/a.service",
                "[Service]\nType=oneshot\nExecStart=/bin/true\nExecStart=/bin/false\n",
            ),
        ),
        (0, Coming::Reload),
    ],
    ends: &[(1, 0), (2, 0), (3, 0), (4, 1)],
    doings: &[
        Doing::Ask(START, STARTS),
        Doing::Silent,
        Doing::Silent,
        Doing::Silent,
        Doing::Silent,
        Doing::Ask(START, STARTS),
        Doing::Silent,
        Doing::Silent,
        Doing::Silent,
        Doing::Silent,
    ],
};

/// Opens a manager over these, for the boot of all runs.
fn open(alloc: Global, disk: MemDisk, children: FaultyChildren) -> Result<Box<Running>, Wrong> {
    managers::opened(alloc, disk, children, boot_of(alloc, BOOT)?)
}

/// The manager is opened again; before that the process ended so.
fn again(alloc: Global, watched: Watched, end: Option<(u64, u8)>) -> Result<Watched, Wrong> {
    let Watched {
        manager,
        alone,
        seen,
        ..
    } = watched;
    let (disk, mut children) = Box::into_inner(manager).into_parts();
    if let Some((number, code)) = end {
        children.ends(process(number)?, End::Code(code))?;
    }
    watch(alloc, open(alloc, disk, children)?, alone, seen)
}

fn process(number: u64) -> Result<ProcessNumber, Wrong> {
    match ProcessNumber::new(number) {
        Some(number) => Ok(number),
        None => Err(found("no process number")),
    }
}

fn go(alloc: Global, watched: Watched, doing: Doing) -> Result<Watched, Wrong> {
    let mut watched = watched;
    match doing {
        Doing::Ask(text, row) => watched.turn(alloc, text, Some(row))?,
        Doing::Silent => watched.turn(alloc, "", None)?,
        Doing::Open => return again(alloc, watched, None),
        Doing::EndAndOpen(number, code) => return again(alloc, watched, Some((number, code))),
    }
    Ok(watched)
}

/// The store of a life: the orders of its rows aren't carried out.
fn stored(alloc: Global, life: &Life) -> Result<(MemDisk, Alone), Wrong> {
    let mut keeper = opened(alloc, made(alloc)?)?;
    let mut alone = Alone::new(alloc)?;
    for row in life.rows {
        let receipt = submit(keeper.as_mut(), input_of(alloc, *row)?)?;
        spent(alloc, receipt)?;
        alone.take_row(*row)?;
    }
    Ok((Box::into_inner(keeper).into_disk(), alone))
}

/// The children of a life, of which one call fails.
fn children_of(
    alloc: Global,
    life: &Life,
    fails: u64,
    makes: bool,
) -> Result<FaultyChildren, Wrong> {
    let mut children = FaultyChildren::new(FakeChildren::new(alloc), fails, makes);
    for (number, code) in life.ends {
        children.ends(process(*number)?, End::Code(*code))?;
    }
    Ok(children)
}

/// The outcome of a run.
#[derive(Drop)]
struct Ran {
    calls: u64,
    is_start: bool,
    has_failed: bool,
}

/// One run of a life, with an opening more before the doing of that number.
fn run(alloc: Global, life: &Life, place: usize, fails: u64, makes: bool) -> Result<Ran, Wrong> {
    let (disk, alone) = stored(alloc, life)?;
    let children = children_of(alloc, life, fails, makes)?;
    let mut watched = watch(alloc, open(alloc, disk, children)?, alone, 0)?;
    for (number, doing) in life.doings.iter().enumerate() {
        if number == place {
            watched = go(alloc, watched, Doing::Open)?;
        }
        watched = go(alloc, watched, *doing)?;
    }
    if !watched.untold.is_empty() {
        return Err(found("a number is never told"));
    }
    let children = watched.manager.children();
    Ok(Ran {
        calls: children.calls(),
        is_start: children.refused().is_some(),
        has_failed: children.has_failed(),
    })
}

/// A run whose call of this number fails; returns how many cases these are: a start fails both ways.
fn both_ways(alloc: Global, life: &Life, place: usize, fails: u64) -> Result<u64, Wrong> {
    let ran = run(alloc, life, place, fails, false)?;
    if !ran.has_failed {
        return Err(found("no call failed"));
    }
    if !ran.is_start {
        return Ok(1);
    }
    run(alloc, life, place, fails, true)?;
    Ok(2)
}

/// Each call of the children fails in turn, with an opening before the doing of that number; returns how many cases were tried.
fn each_call_at(alloc: Global, life: &Life, place: usize) -> Result<u64, Wrong> {
    let mut cases: u64 = 0;
    for fails in 1..=run(alloc, life, place, 0, false)?.calls {
        match both_ways(alloc, life, place, fails) {
            Ok(count) => cases = cases.saturating_add(count),
            Err(wrong) => return Err(wrong.at(fails, life.name)),
        }
    }
    Ok(cases)
}

/// Each call of the children fails in turn, with an opening before each doing; returns how many cases were tried.
pub fn each_call(alloc: Global, life: &Life) -> Result<u64, Wrong> {
    let mut cases: u64 = 0;
    for place in 0..=life.doings.len() {
        cases = cases.saturating_add(each_call_at(alloc, life, place)?);
    }
    Ok(cases)
}
