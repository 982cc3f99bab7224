//! Each call of the disk fails in turn, a write both ways.

use crate::alone::{Course, course_of, spent};
use crate::rows::{Coming, Row, input_of};
use crate::scripts::{Deed, Failing, Outcome, Script, let_go};
use crate::stores::{bytes_of, create_on, newest, oldest, opened, state_on, submit};
use crate::wrong::{Wrong, found};
use std::alloc::Global;
use um_keeper::Keeper;
use um_model::UnitVerb;
use um_sector::{Disk, Fuse, MemDisk};
use um_wire::Refusal;

/// A service that is started again after its delay, of a tenth of a second.
const AGAIN: &str = "[Service]\nExecStart=/bin/sleep 9\nRestart=on-failure\n";

/// The bytes of a file whose record takes 20 sectors.
const LONG: usize = 9_500;

/// The bytes of a file whose record takes four sectors.
const SHORT: usize = 1_700;

/// The automatic restart with its ticks.
pub const RESTART: &[Row] = &[
    (0, Coming::Put("lib/a.service", AGAIN)),
    (0, Coming::Reload),
    (0, Coming::Verb(UnitVerb::Start, "a.service")),
    (1_000_000, Coming::Ended(1, 1)),
    (1_099_999, Coming::Tick),
    (1_100_000, Coming::Tick),
    (2_000_000, Coming::Ended(2, 1)),
    (2_000_001, Coming::Verb(UnitVerb::Start, "b.service")),
    (2_200_000, Coming::Tick),
];

/// The automatic restart; then a checkpoint, and the store is opened again after more records.
pub fn restart(alloc: Global) -> Result<Script, Wrong> {
    let mut script = Script::new(alloc);
    script.each(RESTART)?;
    script.deed(Deed::Checkpoint)?;
    script.each(&[
        (3_000_000, Coming::Ended(3, 0)),
        (3_000_001, Coming::Reload),
    ])?;
    script.deed(Deed::Open)?;
    script.each(&[(3_000_002, Coming::Put("lib/b.service", AGAIN))])?;
    Ok(script)
}

/// The automatic restart alone, for a selection.
pub fn short(alloc: Global) -> Result<Script, Wrong> {
    let mut script = Script::new(alloc);
    script.each(RESTART)?;
    Ok(script)
}

/// The number of disk calls of a creation and the opening after it.
pub fn calls_before(alloc: Global) -> Result<u64, Wrong> {
    Script::new(alloc).calls(alloc)
}

/// `count` records of a file of `bytes` bytes, from this microsecond on.
fn records(alloc: Global, from: u64, count: u64, bytes: usize) -> Result<Vec<Row>, Wrong> {
    let mut rows = Vec::new(alloc);
    for number in 0..count {
        let micros = from.saturating_add(number);
        rows.push((micros, Coming::Long("lib/b.service", bytes)))?;
    }
    Ok(rows)
}

/// Submits each of `count` records of a file of `bytes` bytes.
fn each_record(
    alloc: Global,
    script: &mut Script,
    from: u64,
    count: u64,
    bytes: usize,
) -> Result<(), Wrong> {
    let rows = records(alloc, from, count, bytes)?;
    script.each(rows.as_slice())
}

/// Records that fill an area of 256 sectors but for eight: 12 of 20 sectors and two of four. Few and long, so that a case is short.
pub fn almost_filled(alloc: Global, from: u64) -> Result<Vec<Row>, Wrong> {
    let mut rows = records(alloc, from, 12, LONG)?;
    let behind = from.saturating_add(100);
    rows.extend_from_slice(records(alloc, behind, 2, SHORT)?.as_slice())?;
    Ok(rows)
}

/// An area of 256 sectors is filled to its end, and the next record begins a generation; the store is opened again after more records, in
/// the middle of the snapshot.
pub fn filled(alloc: Global) -> Result<Script, Wrong> {
    let mut script = Script::new(alloc);
    each_record(alloc, &mut script, 1, 12, LONG)?;
    each_record(alloc, &mut script, 100, 2, SHORT)?;
    each_record(alloc, &mut script, 200, 1, SHORT)?;
    each_record(alloc, &mut script, 300, 6, 8)?;
    script.deed(Deed::Open)?;
    Ok(script)
}

/// A list fills an area but for eight sectors, and another one, with a refusal in it, runs into its end; the store is opened again.
pub fn lists(alloc: Global) -> Result<Script, Wrong> {
    let mut script = Script::new(alloc);
    script.list(almost_filled(alloc, 1)?.as_slice())?;
    let mut rows = records(alloc, 1_000, 2, SHORT)?;
    rows.push((1_010, Coming::Put("a.service", "")))?;
    rows.extend_from_slice(records(alloc, 1_020, 2, SHORT)?.as_slice())?;
    script.list(rows.as_slice())?;
    script.deed(Deed::Open)?;
    Ok(script)
}

/// A record of one sector, and two of files of `bytes` bytes, which go over the end of an area that is all but full; then a restart, with the
/// end of the process of this number: taken twice, it would be seen.
pub fn beginning(micros: u64, number: u64, bytes: usize) -> [Row; 5] {
    [
        (micros, Coming::Put("lib/c.service", "")),
        (micros, Coming::Long("lib/b.service", bytes)),
        (micros, Coming::Long("lib/b.service", bytes)),
        (micros, Coming::Verb(UnitVerb::Restart, "a.service")),
        (micros, Coming::Ended(number, 0)),
    ]
}

/// A service is started.
const STARTED: &[Row] = &[
    (0, Coming::Put("lib/a.service", AGAIN)),
    (0, Coming::Reload),
    (0, Coming::Verb(UnitVerb::Start, "a.service")),
];

/// A service runs, an area is filled, and a snapshot goes out by steps between inputs; then the other area is filled, and a checkpoint comes in the
/// middle of the next one.
pub fn steps(alloc: Global) -> Result<Script, Wrong> {
    let mut script = Script::new(alloc);
    script.each(STARTED)?;
    // 251 of 256 sectors are written then
    script.list(almost_filled(alloc, 1)?.as_slice())?;
    script.deed(Deed::Step(1))?;
    for row in &beginning(1_000, 1, SHORT) {
        script.each(&[*row])?;
        script.deed(Deed::Step(1))?;
    }
    script.list(&[
        (1_010, Coming::Reload),
        (1_011, Coming::Put("lib/c.service", "")),
    ])?;
    script.deed(Deed::Step(16))?;
    script.deed(Deed::Step(16))?;
    // the area holds eight sectors already: these fill it
    script.list(almost_filled(alloc, 2_000)?.as_slice())?;
    script.list(&beginning(3_000, 2, SHORT))?;
    script.deed(Deed::Step(2))?;
    script.deed(Deed::Step(0))?;
    script.deed(Deed::Checkpoint)?;
    script.each(&[(3_010, Coming::Reload)])?;
    Ok(script)
}

/// A store of layout 1 and this generation is opened, and rewritten as layout 2; more is recorded, and it is opened again.
pub fn old(alloc: Global, generation: u8) -> Result<Script, Wrong> {
    let mut script = Script::old(alloc, generation, RESTART)?;
    script.each(&[
        (3_000_000, Coming::Ended(3, 0)),
        (3_000_001, Coming::Reload),
    ])?;
    script.deed(Deed::Step(16))?;
    script.deed(Deed::Open)?;
    script.each(&[(3_000_002, Coming::Put("lib/b.service", AGAIN))])?;
    Ok(script)
}

fn is_closed(told: Result<(), Refusal>) -> Result<(), Wrong> {
    let is_closed = matches!(told, Err(Refusal::Reopen));
    drop(told);
    if is_closed {
        return Ok(());
    }
    Err(found("a keeper that failed takes more"))
}

/// Asserts that a keeper that failed takes nothing more (E17).
fn takes_nothing(alloc: Global, keeper: &mut Keeper<Failing>) -> Result<(), Wrong> {
    let row = (0, Coming::Reload);
    match submit(keeper, input_of(alloc, row)?) {
        Ok(receipt) => {
            let _answer = spent(alloc, receipt);
            return Err(found("a keeper that failed takes an input"));
        }
        Err(refusal) => is_closed(Err(refusal))?,
    }
    match keeper.submit_all(vec![in alloc; input_of(alloc, row)?]?) {
        Ok(answers) => {
            let_go(alloc, answers);
            return Err(found("a keeper that failed takes a list"));
        }
        Err(refusal) => is_closed(Err(refusal))?,
    }
    match keeper.step(0) {
        Ok(_) => return Err(found("a keeper that failed takes a step")),
        Err(refusal) => is_closed(Err(refusal))?,
    }
    is_closed(keeper.checkpoint())
}

/// Asserts that an image is opened in the state of a beginning, of at least `low` and at most `high` rows.
fn is_beginning(
    alloc: Global,
    course: &Course,
    image: MemDisk,
    low: usize,
    high: usize,
) -> Result<(), Wrong> {
    let keeper = opened(alloc, image)?;
    let bytes = bytes_of(alloc, keeper.as_ref())?;
    match course.place(low, high, bytes.as_slice()) {
        Some(_) => Ok(()),
        None => Err(found("the store isn't that of a beginning")),
    }
}

/// Asserts it of the disk as it stands, which loses nothing, and of the image after a crash that loses all unsynced values.
fn are_beginnings(
    alloc: Global,
    course: &Course,
    disk: MemDisk,
    low: usize,
    high: usize,
) -> Result<(), Wrong> {
    is_beginning(alloc, course, oldest(alloc, &disk)?, low, high)?;
    is_beginning(alloc, course, disk, low, high)
}

/// Asserts that an image holds no store or the empty one.
fn is_empty(alloc: Global, course: &Course, image: MemDisk) -> Result<(), Wrong> {
    match state_on(alloc, image)? {
        Some(bytes) if !course.is_at(0, bytes.as_slice()) => {
            Err(found("a creation that failed left a state"))
        }
        _ => Ok(()),
    }
}

/// Asserts that a disk whose creation was refused holds no store or the empty one, and that a store is created there again.
fn is_created_again(alloc: Global, course: &Course, disk: MemDisk) -> Result<(), Wrong> {
    is_empty(alloc, course, oldest(alloc, &disk)?)?;
    is_empty(alloc, course, newest(alloc, &disk)?)?;
    let mut disk = disk;
    create_on(alloc, &mut disk)?;
    are_beginnings(alloc, course, disk, 0, 0)
}

/// Asserts what must hold of a call that was refused after `done` rows, and was given `more` rows.
fn is_refused(
    alloc: Global,
    course: &Course,
    keeper: Box<Keeper<Failing>>,
    done: usize,
    more: usize,
) -> Result<(), Wrong> {
    let mut keeper = keeper;
    let bytes = bytes_of(alloc, keeper.as_ref())?;
    if !course.is_at(done, bytes.as_slice()) {
        return Err(found("the state after E16 isn't that from before"));
    }
    takes_nothing(alloc, keeper.as_mut())?;
    let disk = Box::into_inner(keeper).into_disk().into_inner();
    are_beginnings(alloc, course, disk, done, done.saturating_add(more))
}

/// One case: the call of this number fails, a write made or not.
fn one_case(alloc: Global, script: &Script, course: &Course, disk: Failing) -> Result<(), Wrong> {
    match script.play(alloc, disk)? {
        Outcome::Done(_) => Err(found("a call that failed is told by nobody")),
        Outcome::Creating(disk) => is_created_again(alloc, course, disk),
        Outcome::Opening(disk, done) => are_beginnings(alloc, course, disk, done, done),
        Outcome::Taking(keeper, done, more) => is_refused(alloc, course, keeper, done, more),
    }
}

/// The call of this number fails, both ways.
fn both_ways(alloc: Global, script: &Script, course: &Course, fails: u64) -> Result<(), Wrong> {
    let disk = Fuse::new(script.disk(alloc)?, fails);
    match one_case(alloc, script, course, disk) {
        Ok(()) => {}
        Err(wrong) => return Err(wrong.at(fails, ", not made")),
    }
    let disk = Fuse::making(script.disk(alloc)?, fails);
    match one_case(alloc, script, course, disk) {
        Ok(()) => Ok(()),
        Err(wrong) => Err(wrong.at(fails, ", made")),
    }
}

/// Each call of a script fails in turn, from that number on; returns how many cases were tried.
pub fn each_call(alloc: Global, script: &Script, first: u64) -> Result<u64, Wrong> {
    let course = course_of(alloc, script.rows.as_slice())?;
    let calls = script.calls(alloc)?;
    let mut cases: u64 = 0;
    for fails in first..=calls {
        both_ways(alloc, script, &course, fails)?;
        cases = cases.saturating_add(2);
    }
    Ok(cases)
}
