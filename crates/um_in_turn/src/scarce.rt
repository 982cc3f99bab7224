//! Lives whose calls find little memory, some grains more each time, until the call is answered.

use crate::clients::two;
use crate::hoard::Hoard;
use crate::lost_reads::is_lost;
use std::alloc::Global;
use um_keeper::Keeper;
use um_sector::MemDisk;
use um_store_in_turn::alone::{Course, course_of};
use um_store_in_turn::lives::{Taken, Taker, heard, is_answer, is_closed, is_untouched, stand_for};
use um_store_in_turn::rows::{Row, input_of};
use um_store_in_turn::stores::{blank, bytes_of, create_on, open};
use um_store_in_turn::wrong::{Wrong, found};
use um_wire::Refusal;

/// The most tries of a call, the last with some 20 MiB.
const MOST: usize = 160;

/// The grains of the first try. If they are None, each call finds all the memory.
type Grains = Option<usize>;

/// The grains of the next try: at first a grain more each time, later a sixteenth more.
fn more(grains: Grains) -> Grains {
    match grains {
        Some(count) => Some(count.saturating_add(count / 16).saturating_add(1)),
        None => None,
    }
}

/// A disk that holds a new store, and how often its creation was refused.
fn created(alloc: Global, first: Grains) -> Result<(MemDisk, usize), Wrong> {
    let mut grains = first;
    for tries in 0..MOST {
        let mut disk = blank(alloc)?;
        let hoard = Hoard::all_but(alloc, grains)?;
        let told = create_on(alloc, &mut disk);
        drop(hoard);
        match told {
            Ok(()) => return Ok((disk, tries)),
            Err(Refusal::NoMemory) => is_untouched(alloc, &disk)?,
            Err(Refusal::Device) => {}
            Err(refusal) => return Err(Wrong::from(refusal)),
        }
        grains = more(grains);
    }
    Err(found("a creation is refused always"))
}

/// A keeper that is in the state of the beginning of `place` rows.
fn at(
    alloc: Global,
    course: &Course,
    keeper: Box<Keeper<MemDisk>>,
    place: usize,
) -> Result<Taker, Wrong> {
    let taker = Taker::over(keeper);
    taker.is_at(alloc, course, place)?;
    Ok(taker)
}

/// A keeper that is opened at the beginning of `place` rows, and how often that was refused: each time each image of its disk stands for that
/// state.
fn opened(
    alloc: Global,
    course: &Course,
    disk: MemDisk,
    place: usize,
    first: Grains,
) -> Result<(Taker, usize), Wrong> {
    let mut disk = disk;
    let mut grains = first;
    for tries in 0..MOST {
        let hoard = Hoard::all_but(alloc, grains)?;
        let told = open(alloc, disk);
        drop(hoard);
        disk = match told {
            Ok(keeper) => return Ok((at(alloc, course, keeper, place)?, tries)),
            Err((Refusal::NoMemory | Refusal::Device, disk)) => disk,
            Err((refusal, _)) => return Err(Wrong::from(refusal)),
        };
        stand_for(alloc, course, &disk, place, place)?;
        grains = more(grains);
    }
    Err(found("an opening is refused always"))
}

fn submit(alloc: Global, taker: &mut Taker, row: Row, grains: Grains) -> Result<Taken, Wrong> {
    let input = input_of(alloc, row)?;
    let hoard = Hoard::all_but(alloc, grains)?;
    let told = taker.submit(input);
    drop(hoard);
    heard(alloc, told)
}

/// The keeper whose disk found no memory, opened again, and whether it took the row of that place.
fn reopened(
    alloc: Global,
    course: &Course,
    mut taker: Taker,
    place: usize,
    row: Row,
) -> Result<(Taker, bool), Wrong> {
    is_closed(alloc, &mut taker, row)?;
    let taker = taker.reopened(alloc)?;
    let bytes = bytes_of(alloc, taker.keeper.as_ref())?;
    match course.place(place, place.saturating_add(1), bytes.as_slice()) {
        Some(now) => Ok((taker, now != place)),
        None => Err(found("the store isn't that of a beginning")),
    }
}

/// The row of that place is submitted with this many grains; returns whether it was taken.
fn try_row(
    alloc: Global,
    course: &Course,
    mut taker: Taker,
    place: usize,
    row: Row,
    grains: Grains,
) -> Result<(Taker, bool), Wrong> {
    match submit(alloc, &mut taker, row, grains)? {
        Taken::As(answer) => {
            is_answer(course, place, &answer)?;
            Ok((taker, true))
        }
        Taken::Wanting => {
            taker.is_at(alloc, course, place)?;
            Ok((taker, false))
        }
        Taken::Failed => {
            taker.is_at(alloc, course, place)?;
            reopened(alloc, course, taker, place, row)
        }
    }
}

/// The row of that place is submitted until it is taken; returns how often it wasn't.
fn take_row(
    alloc: Global,
    course: &Course,
    taker: Taker,
    place: usize,
    row: Row,
    first: Grains,
) -> Result<(Taker, usize), Wrong> {
    let mut taker = taker;
    let mut grains = first;
    for tries in 0..MOST {
        let (after, is_taken) = try_row(alloc, course, taker, place, row, grains)?;
        if is_taken {
            after.is_at(alloc, course, place.saturating_add(1))?;
            return Ok((after, tries));
        }
        taker = after;
        grains = more(grains);
    }
    Err(found("an input is refused always"))
}

/// The rows are taken one by one; returns how many tries were refused.
fn take_rows(
    alloc: Global,
    course: &Course,
    taker: Taker,
    rows: &[Row],
    first: Grains,
) -> Result<(Taker, usize), Wrong> {
    let mut taker = taker;
    let mut refusals: usize = 0;
    for (place, row) in rows.iter().enumerate() {
        let (after, more) = take_row(alloc, course, taker, place, *row, first)?;
        refusals = refusals.saturating_add(more);
        taker = after.stepped(alloc)?;
    }
    Ok((taker, refusals))
}

/// A store is created and opened, takes the rows, and is opened again; returns how many tries were refused.
fn play(alloc: Global, rows: &[Row], first: Grains) -> Result<usize, Wrong> {
    let course = course_of(alloc, rows)?;
    let (disk, creating) = created(alloc, first)?;
    let (taker, opening) = opened(alloc, &course, disk, 0, first)?;
    let (taker, taking) = take_rows(alloc, &course, taker, rows, first)?;
    let (_, again) = opened(alloc, &course, taker.into_disk(), rows.len(), first)?;
    let openings = opening.saturating_add(again);
    Ok(creating.saturating_add(taking).saturating_add(openings))
}

/// The two clients, until nothing of their turn is refused; returns how many tries were refused something.
fn turned(alloc: Global, first: Grains) -> Result<usize, Wrong> {
    let mut grains = first;
    for tries in 0..MOST {
        if two(alloc, grains)? {
            return Ok(tries);
        }
        grains = more(grains);
    }
    Err(found("a turn is refused always"))
}

/// A client's round, until none of the bytes read are lost; returns how many rounds lost some.
fn kept(alloc: Global, first: Grains) -> Result<usize, Wrong> {
    let mut grains = first;
    for tries in 0..MOST {
        if !is_lost(alloc, grains)? {
            return Ok(tries);
        }
        grains = more(grains);
    }
    Err(found("what is read is lost always"))
}

/// Asserts that something was refused.
fn some(refusals: usize) -> Result<u64, Wrong> {
    if refusals == 0 {
        return Err(found("nothing is refused without memory"));
    }
    Ok(refusals as u64)
}

/// The rows are taken one by one, each call in scarce memory, and the openings and the creation too; returns how many tries were refused.
pub fn rows_taken(alloc: Global, rows: &[Row]) -> Result<u64, Wrong> {
    // with all the memory first: later the stack has no room to grow
    play(alloc, rows, None)?;
    some(play(alloc, rows, Some(0))?)
}

/// The two clients, whose turn finds scarce memory; returns how many tries were refused something.
pub fn two_clients(alloc: Global) -> Result<u64, Wrong> {
    turned(alloc, None)?;
    some(turned(alloc, Some(0))?)
}

/// A client whose round finds scarce memory; returns how many rounds lost the bytes that they read.
pub fn lost_reads(alloc: Global) -> Result<u64, Wrong> {
    kept(alloc, None)?;
    some(kept(alloc, Some(0))?)
}
