//! Lives in which any allocation may fail, once: a call that finds no memory is repeated.

use crate::alone::{Answer, Course, course_of, refused, spent};
use crate::crash::{combinations, turn};
use crate::rows::{Coming, Row, input_of};
use crate::stores::{blank, bytes_of, create_on, open, opened, state_on, submit};
use crate::wrong::{Wrong, found};
use std::alloc::Global;
use um_keeper::{Keeper, Receipt};
use um_model::{InstallVerb, UnitVerb};
use um_sector::MemDisk;
use um_state::Input;
use um_wire::Refusal;

pub const SLEEPS: &str = "[Service]\nExecStart=/bin/sleep 9\n";

/// A simple service is put, loaded and started.
pub const SIMPLE: &[Row] = &[
    (0, Coming::Put("lib/a.service", SLEEPS)),
    (0, Coming::Reload),
    (0, Coming::Verb(UnitVerb::Start, "a.service")),
];

/// A start in conflict with a service whose stop runs then.
pub const CONFLICT: &[Row] = &[
    (0, Coming::Put("lib/a.service", SLEEPS)),
    (
        0,
        Coming::Put(
            "lib/b.service",
            "[Unit]\nConflicts=a.service\nAfter=a.service\n[Service]\nExecStart=/bin/sleep 9\n",
        ),
    ),
    (0, Coming::Reload),
    (0, Coming::Verb(UnitVerb::Start, "a.service")),
    (0, Coming::Verb(UnitVerb::Start, "b.service")),
    (1, Coming::Verb(UnitVerb::Start, "c.service")),
    (2, Coming::Ended(1, 0)),
];

/// An automatic restart by its tick.
pub const RESTARTS: &[Row] = &[
    (
        0,
        Coming::Put(
            "lib/a.service",
            "[Service]\nExecStart=/bin/sleep 9\nRestart=on-failure\n",
        ),
    ),
    (0, Coming::Reload),
    (0, Coming::Verb(UnitVerb::Start, "a.service")),
    (1_000_000, Coming::Ended(1, 1)),
    (1_050_000, Coming::Tick),
    (1_100_000, Coming::Tick),
];

/// A unit is enabled and disabled.
pub const ENABLED: &[Row] = &[
    (
        0,
        Coming::Put(
            "lib/a.service",
            "[Service]\nExecStart=/bin/sleep 9\n[Install]\nWantedBy=b.target\n",
        ),
    ),
    (0, Coming::Put("lib/b.target", "")),
    (0, Coming::Install(InstallVerb::Enable, "a.service")),
    (0, Coming::Verb(UnitVerb::Start, "b.target")),
    (0, Coming::Install(InstallVerb::Disable, "a.service")),
];

/// The number of records of a file that take 20 sectors each.
const LONG: usize = 12;

/// A service runs, the area of its log is full, and with its restart a snapshot of three sectors begins, which isn't done at the end.
pub fn areas(alloc: Global) -> Result<Vec<Row>, Wrong> {
    let mut rows = Vec::new(alloc);
    rows.extend_from_slice(SIMPLE)?;
    for _ in 0..LONG {
        rows.push((1, Coming::Long("lib/b.service", 9_500)))?;
    }
    // ten sectors, and three
    rows.push((1, Coming::Long("lib/b.service", 4_700)))?;
    rows.push((1, Coming::Long("lib/b.service", 1_200)))?;
    rows.push((2, Coming::Verb(UnitVerb::Restart, "a.service")))?;
    rows.push((3, Coming::Ended(1, 0)))?;
    Ok(rows)
}

/// A keeper that takes the inputs of a life.
#[derive(Drop)]
pub struct Taker {
    pub keeper: Box<Keeper<MemDisk>>,
    /// A wrong program: every input is answered E15.
    always_wanting: bool,
}

impl Taker {
    /// Over a keeper.
    pub fn over(keeper: Box<Keeper<MemDisk>>) -> Taker {
        Taker {
            keeper,
            always_wanting: false,
        }
    }

    /// Submits the input; the wrong program refuses each with E15.
    pub fn submit(&mut self, input: Input) -> Result<Receipt, Refusal> {
        if self.always_wanting {
            return Err(Refusal::NoMemory);
        }
        submit(self.keeper.as_mut(), input)
    }

    /// A sector of a snapshot under way goes out; if the disk finds no memory for it, the store is opened again.
    pub fn stepped(mut self, alloc: Global) -> Result<Taker, Wrong> {
        match self.keeper.step(1) {
            Ok(_) => Ok(self),
            Err(Refusal::Device) => self.reopened(alloc),
            Err(refusal) => Err(Wrong::from(refusal)),
        }
    }

    /// The keeper opened again over its disk.
    pub fn reopened(self, alloc: Global) -> Result<Taker, Wrong> {
        let always_wanting = self.always_wanting;
        let keeper = opened(alloc, self.into_disk())?;
        Ok(Taker {
            keeper,
            always_wanting,
        })
    }

    /// The disk of its keeper.
    pub fn into_disk(self) -> MemDisk {
        Box::into_inner(self.keeper).into_disk()
    }

    /// Asserts that it is in the state of the beginning of `place` rows.
    pub fn is_at(&self, alloc: Global, course: &Course, place: usize) -> Result<(), Wrong> {
        if course.is_at(place, bytes_of(alloc, self.keeper.as_ref())?.as_slice()) {
            return Ok(());
        }
        Err(found("another state than that of the engine"))
    }
}

/// Asserts that each image that a crash may leave of a disk is opened in the state of a beginning, of at least `low` and at most `high` rows.
pub fn stand_for(
    alloc: Global,
    course: &Course,
    disk: &MemDisk,
    low: usize,
    high: usize,
) -> Result<(), Wrong> {
    let unsynced = disk.unsynced(alloc)?;
    let mut picks = vec![in alloc; 0; unsynced.len()]?;
    for _ in 0..combinations(unsynced.as_slice()) {
        let image = disk.crash(alloc, picks.as_slice())?;
        stands_for(alloc, course, image, low, high)?;
        turn(picks.as_mut_slice(), unsynced.as_slice());
    }
    Ok(())
}

fn stands_for(
    alloc: Global,
    course: &Course,
    image: MemDisk,
    low: usize,
    high: usize,
) -> Result<(), Wrong> {
    let place = match state_on(alloc, image)? {
        Some(state) => course.place(low, high, state.as_slice()),
        None => None,
    };
    match place {
        Some(_) => Ok(()),
        None => Err(found("an image of an opening without memory isn't that state")),
    }
}

/// The keeper that is opened at the beginning of `place` rows, or again if it found no memory: then each image stands for that state.
fn open_at(
    alloc: Global,
    course: &Course,
    disk: MemDisk,
    place: usize,
    always_wanting: bool,
) -> Result<Taker, Wrong> {
    let keeper = match open(alloc, disk) {
        Ok(keeper) => keeper,
        Err((Refusal::NoMemory | Refusal::Device, disk)) => {
            stand_for(alloc, course, &disk, place, place)?;
            opened(alloc, disk)?
        }
        Err((refusal, _)) => return Err(Wrong::from(refusal)),
    };
    let taker = Taker {
        keeper,
        always_wanting,
    };
    taker.is_at(alloc, course, place)?;
    Ok(taker)
}

/// A creation that found no memory has written nothing.
pub fn is_untouched(alloc: Global, disk: &MemDisk) -> Result<(), Wrong> {
    if disk.syncs() == 0 && disk.unsynced(alloc)?.is_empty() {
        return Ok(());
    }
    Err(found("a creation without memory has written"))
}

/// A disk that holds a new store, which is made again if the creation or its disk found no memory.
fn new_store(alloc: Global) -> Result<MemDisk, Wrong> {
    let mut disk = blank(alloc)?;
    match create_on(alloc, &mut disk) {
        Ok(()) => return Ok(disk),
        Err(Refusal::NoMemory) => is_untouched(alloc, &disk)?,
        Err(Refusal::Device) => {}
        Err(refusal) => return Err(Wrong::from(refusal)),
    }
    create_on(alloc, &mut disk)?;
    Ok(disk)
}

/// How an input was answered.
#[derive(Drop)]
pub enum Taken {
    As(Answer),
    /// E15.
    Wanting,
    /// E16.
    Failed,
}

/// How an input was answered, by the result of its submission.
pub fn heard(alloc: Global, told: Result<Receipt, Refusal>) -> Result<Taken, Wrong> {
    match told {
        Ok(receipt) => Ok(Taken::As(spent(alloc, receipt)?)),
        Err(Refusal::NoMemory) => Ok(Taken::Wanting),
        Err(Refusal::Device) => Ok(Taken::Failed),
        Err(refusal) => Ok(Taken::As(refused(alloc, refusal)?)),
    }
}

fn submit_row(alloc: Global, taker: &mut Taker, row: Row) -> Result<Taken, Wrong> {
    let told = taker.submit(input_of(alloc, row)?);
    heard(alloc, told)
}

/// Asserts that it is the answer to the row of that place.
pub fn is_answer(course: &Course, place: usize, answer: &Answer) -> Result<(), Wrong> {
    match course.answers.get(place) {
        Some(wanted) if wanted.is(answer) => Ok(()),
        _ => Err(found("another answer than that of the engine")),
    }
}

/// Asserts that it is E17.
fn is_reopen(refusal: Refusal) -> Result<(), Wrong> {
    let is_reopen = matches!(refusal, Refusal::Reopen);
    drop(refusal);
    if is_reopen {
        return Ok(());
    }
    Err(found("a keeper that failed refuses otherwise"))
}

/// Asserts that a keeper that failed takes no input (E17).
pub fn is_closed(alloc: Global, taker: &mut Taker, row: Row) -> Result<(), Wrong> {
    match taker.submit(input_of(alloc, row)?) {
        Err(refusal) => is_reopen(refusal),
        Ok(receipt) => {
            drop(spent(alloc, receipt));
            Err(found("a keeper that failed takes an input"))
        }
    }
}

/// The keeper whose disk found no memory, opened again: it takes the input now if it didn't before.
fn taken_again(
    alloc: Global,
    course: &Course,
    mut taker: Taker,
    place: usize,
    row: Row,
) -> Result<Taker, Wrong> {
    is_closed(alloc, &mut taker, row)?;
    let mut taker = taker.reopened(alloc)?;
    let bytes = bytes_of(alloc, taker.keeper.as_ref())?;
    match course.place(place, place.saturating_add(1), bytes.as_slice()) {
        Some(now) if now == place => once_more(alloc, course, &mut taker, place, row)?,
        Some(_) => {}
        None => return Err(found("the store isn't that of a beginning")),
    }
    Ok(taker)
}

/// The input is submitted once more, and gets its answer.
fn once_more(
    alloc: Global,
    course: &Course,
    taker: &mut Taker,
    place: usize,
    row: Row,
) -> Result<(), Wrong> {
    match submit_row(alloc, taker, row)? {
        Taken::As(answer) => is_answer(course, place, &answer),
        Taken::Wanting | Taken::Failed => Err(found("no memory where there is some")),
    }
}

/// Takes the row of that place.
fn take(
    alloc: Global,
    course: &Course,
    mut taker: Taker,
    place: usize,
    row: Row,
) -> Result<Taker, Wrong> {
    match submit_row(alloc, &mut taker, row)? {
        Taken::As(answer) => is_answer(course, place, &answer)?,
        Taken::Wanting => {
            taker.is_at(alloc, course, place)?;
            once_more(alloc, course, &mut taker, place, row)?;
        }
        Taken::Failed => {
            taker.is_at(alloc, course, place)?;
            return taken_again(alloc, course, taker, place, row);
        }
    }
    Ok(taker)
}

/// A new store that takes these rows one by one.
pub fn taker_behind(
    alloc: Global,
    course: &Course,
    rows: &[Row],
    always_wanting: bool,
) -> Result<Taker, Wrong> {
    let mut taker = open_at(alloc, course, new_store(alloc)?, 0, always_wanting)?;
    for (place, row) in rows.iter().enumerate() {
        taker = take(alloc, course, taker, place, *row)?.stepped(alloc)?;
        taker.is_at(alloc, course, place.saturating_add(1))?;
    }
    Ok(taker)
}

/// The rows are taken one by one, and the store is opened again; returns how many there were.
pub fn rows_taken(alloc: Global, rows: &[Row]) -> Result<u64, Wrong> {
    let course = course_of(alloc, rows)?;
    let taker = taker_behind(alloc, &course, rows, false)?;
    open_at(alloc, &course, taker.into_disk(), rows.len(), false)?;
    Ok(rows.len() as u64)
}

/// Asserts that a program that answers E15 to every input fails a life.
pub fn wanting_is_noticed(alloc: Global) -> Result<(), Wrong> {
    let course = course_of(alloc, SIMPLE)?;
    match taker_behind(alloc, &course, SIMPLE, true) {
        Ok(_) => Err(found("a program that always answers E15 isn't noticed")),
        Err(Wrong::Found { .. }) => Ok(()),
        Err(wrong) => Err(wrong),
    }
}
