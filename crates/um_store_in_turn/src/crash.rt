//! The machine stops before each write, and the images that a crash may leave are opened.

use crate::alone::{Course, ONWARD, course_onward, spent};
use crate::disk::{RESTART, almost_filled, beginning};
use crate::rows::{Coming, Row, input_of};
use crate::scripts::{Deed, Outcome, Script};
use crate::stores::{
    blank, bytes_of, create_on, made, newest, oldest, open, opened, state_on, submit,
};
use crate::wrong::{Wrong, found};
use std::alloc::Global;
use um_keeper::Keeper;
use um_sector::{Disk, Fuse, MemDisk};
use um_wire::Refusal;

/// The most sectors that aren't synced for which every combination of picks is opened.
const FEW: usize = 6;

/// Records of one to four sectors, ends and ticks.
const SIZES: &[Row] = &[
    (3_000_000, Coming::Long("lib/b.service", 450)),
    (3_000_001, Coming::Ended(3, 1)),
    (3_200_000, Coming::Tick),
    (3_200_001, Coming::Long("lib/b.service", 1_700)),
    (3_200_002, Coming::Long("lib/b.service", 1_200)),
];

/// More of them, after a checkpoint.
const MORE: &[Row] = &[
    (4_000_000, Coming::Long("lib/b.service", 1_700)),
    (4_000_001, Coming::Ended(4, 1)),
    (4_000_002, Coming::Long("lib/b.service", 1_000)),
    (4_000_003, Coming::Long("lib/b.service", 1_600)),
    (4_000_004, Coming::Long("lib/b.service", 900)),
];

/// The automatic restart, records of one to four sectors, a checkpoint, and more records.
pub fn script(alloc: Global) -> Result<Script, Wrong> {
    let mut script = Script::new(alloc);
    script.each(RESTART)?;
    script.each(SIZES)?;
    script.deed(Deed::Checkpoint)?;
    script.each(MORE)?;
    Ok(script)
}

/// A record of two sectors after one of one, for a selection.
pub fn short(alloc: Global) -> Result<Script, Wrong> {
    let mut script = Script::new(alloc);
    script.each(&[(1, Coming::Reload), (2, Coming::Long("lib/b.service", 450))])?;
    Ok(script)
}

/// The same, with lists: several records before the answers.
pub fn with_lists(alloc: Global) -> Result<Script, Wrong> {
    let mut script = Script::new(alloc);
    script.list(RESTART)?;
    script.list(SIZES)?;
    script.deed(Deed::Open)?;
    script.list(MORE)?;
    Ok(script)
}

/// The automatic restart, and an area of the log that is filled but for a sector: the script before the stops that are looked at.
pub fn filling(alloc: Global) -> Result<Script, Wrong> {
    let mut script = Script::new(alloc);
    script.each(RESTART)?;
    script.list(almost_filled(alloc, 3_000_000)?.as_slice())?;
    Ok(script)
}

/// That list, steps between inputs until the snapshot is done, and a checkpoint.
pub fn areas(alloc: Global) -> Result<Script, Wrong> {
    let mut script = filling(alloc)?;
    script.list(&beginning(4_000_000, 3, 450))?;
    script.deed(Deed::Step(1))?;
    script.each(&[(4_000_001, Coming::Reload)])?;
    script.deed(Deed::Step(1))?;
    script.list(&[
        (4_000_002, Coming::Put("lib/c.service", "")),
        (4_000_003, Coming::Ended(4, 1)),
    ])?;
    script.deed(Deed::Step(16))?;
    script.each(&[(4_200_003, Coming::Tick)])?;
    script.deed(Deed::Checkpoint)?;
    script.each(&[(4_200_004, Coming::Put("lib/d.service", ""))])?;
    Ok(script)
}

/// The same with a checkpoint in the middle of the snapshot, and an opening after it.
pub fn midway(alloc: Global) -> Result<Script, Wrong> {
    let mut script = filling(alloc)?;
    script.list(&beginning(4_000_000, 3, 450))?;
    script.deed(Deed::Step(1))?;
    script.deed(Deed::Checkpoint)?;
    script.each(&[(4_000_001, Coming::Reload)])?;
    script.deed(Deed::Open)?;
    script.each(&[(4_000_002, Coming::Put("lib/c.service", ""))])?;
    Ok(script)
}

/// A disk as it was stopped, and the least and the greatest beginning that its images after a crash may stand for.
#[derive(Drop)]
struct Stop<'a> {
    disk: &'a MemDisk,
    low: usize,
    high: usize,
}

/// The images opened so far, and the course that they are compared with.
#[derive(Drop)]
pub struct Crashes<'a> {
    alloc: Global,
    course: &'a Course,
    /// The number of images.
    images: u64,
}

/// The next combination of picks, by the number of picks of each sector; after the last one the first.
pub fn turn(picks: &mut [usize], unsynced: &[(usize, usize)]) {
    for (pick, (_, count)) in picks.iter_mut().zip(unsynced) {
        if pick.saturating_add(1) < *count {
            *pick = pick.saturating_add(1);
            return;
        }
        *pick = 0;
    }
}

/// How many combinations there are.
pub fn combinations(unsynced: &[(usize, usize)]) -> usize {
    let mut product: usize = 1;
    for (_, count) in unsynced {
        product = product.saturating_mul(*count);
    }
    product
}

/// The newest pick of each sector, or the oldest, and the other one of that sector.
fn picks_but_one(
    alloc: Global,
    unsynced: &[(usize, usize)],
    is_new: bool,
    other: usize,
) -> Result<Vec<usize>, Wrong> {
    let mut picks = Vec::new(alloc);
    for (place, (_, count)) in unsynced.iter().enumerate() {
        let is_newest = is_new != (place == other);
        let pick = if is_newest {
            count.saturating_sub(1)
        } else {
            0
        };
        picks.push(pick)?;
    }
    Ok(picks)
}

/// The number of syncs of a disk, and of its unsynced values; a read changes neither.
fn deeds(alloc: Global, disk: &MemDisk) -> Result<(usize, usize), Wrong> {
    let mut writes: usize = 0;
    for (_, count) in disk.unsynced(alloc)?.as_slice() {
        writes = writes.saturating_add(*count);
    }
    Ok((disk.syncs(), writes))
}

/// The number of disk calls of an opening.
fn calls_of_open(alloc: Global, disk: MemDisk) -> Result<u64, Wrong> {
    let keeper = opened(alloc, Fuse::new(disk, 0))?;
    Ok(Box::into_inner(keeper).into_disk().calls())
}

/// The disk of an opening whose call of this number isn't made.
fn half_opened(alloc: Global, disk: MemDisk, fails: u64) -> Result<MemDisk, Wrong> {
    match open(alloc, Fuse::new(disk, fails)) {
        Err((Refusal::Device, disk)) => Ok(disk.into_inner()),
        Err((refusal, _)) => Err(Wrong::from(refusal)),
        Ok(_) => Err(found("an opening whose call failed is done")),
    }
}

impl Crashes<'_> {
    /// Opens an image, and returns the beginning that it stands for.
    fn look(&mut self, image: MemDisk, low: usize, high: usize) -> Result<usize, Wrong> {
        self.images = self.images.saturating_add(1);
        let keeper = opened(self.alloc, image)?;
        let bytes = bytes_of(self.alloc, keeper.as_ref())?;
        match self.course.place(low, high, bytes.as_slice()) {
            Some(place) => Ok(place),
            None => Err(found("an image isn't that of a beginning")),
        }
    }

    /// Goes on over an image with one more input, which is there when it is opened again.
    fn go_on(&mut self, image: MemDisk, place: usize) -> Result<(), Wrong> {
        let mut keeper = opened(self.alloc, image)?;
        let receipt = submit(keeper.as_mut(), input_of(self.alloc, ONWARD)?)?;
        spent(self.alloc, receipt)?;
        let bytes = bytes_of(self.alloc, keeper.as_ref())?;
        if !self.course.is_onward(place, bytes.as_slice()) {
            return Err(found("what goes on behind a crash leads elsewhere"));
        }
        let left = oldest(self.alloc, &Box::into_inner(keeper).into_disk())?;
        let again = opened(self.alloc, left)?;
        let bytes = bytes_of(self.alloc, again.as_ref())?;
        if !self.course.is_onward(place, bytes.as_slice()) {
            return Err(found("what went on behind a crash isn't there"));
        }
        Ok(())
    }

    /// A second crash, before each write of the opening of an image.
    fn crash_again(&mut self, stop: &Stop<'_>, picks: &[usize], place: usize) -> Result<(), Wrong> {
        let alloc = self.alloc;
        let calls = calls_of_open(alloc, stop.disk.crash(alloc, picks)?)?;
        for back in 0..calls {
            let image = stop.disk.crash(alloc, picks)?;
            let disk = half_opened(alloc, image, calls.saturating_sub(back))?;
            // all calls from here to the front are reads after a sync
            if deeds(alloc, &disk)? == (1, 0) {
                return Ok(());
            }
            self.look(oldest(alloc, &disk)?, place, place)?;
            self.look(newest(alloc, &disk)?, place, place)?;
        }
        Err(found("an opening without a sync"))
    }

    /// Opens the image of these picks, goes on over it, and crashes again.
    fn judge(&mut self, stop: &Stop<'_>, picks: &[usize]) -> Result<(), Wrong> {
        let alloc = self.alloc;
        let place = self.look(stop.disk.crash(alloc, picks)?, stop.low, stop.high)?;
        self.go_on(stop.disk.crash(alloc, picks)?, place)?;
        self.crash_again(stop, picks, place)
    }

    fn judge_all(&mut self, stop: &Stop<'_>, unsynced: &[(usize, usize)]) -> Result<(), Wrong> {
        let mut picks = vec![in self.alloc; 0; unsynced.len()]?;
        for _ in 0..combinations(unsynced) {
            self.judge(stop, picks.as_slice())?;
            turn(picks.as_mut_slice(), unsynced);
        }
        Ok(())
    }

    /// All newest or all old, and each single one otherwise than the others.
    fn judge_singles(
        &mut self,
        stop: &Stop<'_>,
        unsynced: &[(usize, usize)],
        is_new: bool,
    ) -> Result<(), Wrong> {
        for other in 0..=unsynced.len() {
            let picks = picks_but_one(self.alloc, unsynced, is_new, other)?;
            self.judge(stop, picks.as_slice())?;
        }
        Ok(())
    }

    fn judge_some(&mut self, stop: &Stop<'_>, unsynced: &[(usize, usize)]) -> Result<(), Wrong> {
        self.judge_singles(stop, unsynced, false)?;
        self.judge_singles(stop, unsynced, true)
    }

    fn judge_stop(&mut self, stop: &Stop<'_>) -> Result<(), Wrong> {
        let unsynced = stop.disk.unsynced(self.alloc)?;
        if unsynced.len() <= FEW {
            self.judge_all(stop, unsynced.as_slice())
        } else {
            self.judge_some(stop, unsynced.as_slice())
        }
    }
}

/// The disk of a script that is stopped before its call of this number, and the beginnings that it may stand for.
fn stopped(
    alloc: Global,
    script: &Script,
    start: MemDisk,
    fails: u64,
) -> Result<(MemDisk, usize, usize), Wrong> {
    match script.play(alloc, Fuse::new(start, fails))? {
        Outcome::Done(_) => Err(found("a call that failed is told by nobody")),
        Outcome::Creating(disk) => Ok((disk, 0, 0)),
        Outcome::Opening(disk, done) => Ok((disk, done, done)),
        Outcome::Taking(keeper, done, more) => {
            let disk = Box::into_inner(keeper).into_disk().into_inner();
            Ok((disk, done, done.saturating_add(more)))
        }
    }
}

/// The number of disk calls of a creation.
pub fn calls_of_create(alloc: Global) -> Result<u64, Wrong> {
    let mut disk = Fuse::new(blank(alloc)?, 0);
    create_on(alloc, &mut disk)?;
    Ok(disk.calls())
}

/// A script is stopped before each write after its creation; returns how many images were opened.
pub fn each_stop(alloc: Global, script: &Script) -> Result<u64, Wrong> {
    each_stop_behind(alloc, script, calls_of_create(alloc)?)
}

/// A script is stopped before each write after the first `from` disk calls; returns how many images were opened.
pub fn each_stop_behind(alloc: Global, script: &Script, from: u64) -> Result<u64, Wrong> {
    let course = course_onward(alloc, script.rows.as_slice())?;
    let calls = script.calls(alloc)?;
    let mut crashes = Crashes {
        alloc,
        course: &course,
        images: 0,
    };
    let mut last = (0, 0);
    for fails in from.saturating_add(1)..=calls {
        let (disk, low, high) = stopped(alloc, script, script.disk(alloc)?, fails)?;
        let now = deeds(alloc, &disk)?;
        if now != last {
            let stop = Stop {
                disk: &disk,
                low,
                high,
            };
            match crashes.judge_stop(&stop) {
                Ok(()) => {}
                Err(wrong) => return Err(wrong.at(fails, " of the calls")),
            }
        }
        last = now;
    }
    Ok(crashes.images)
}

/// Asserts what a crash within a creation may leave: no store, the empty one, or, until the first sync, the store that stood there.
fn is_created(
    alloc: Global,
    image: MemDisk,
    before: Option<&[u8]>,
    empty: &[u8],
) -> Result<(), Wrong> {
    match state_on(alloc, image)? {
        None => Ok(()),
        Some(bytes) if bytes.as_slice() == empty => Ok(()),
        Some(bytes) if Some(bytes.as_slice()) == before => Ok(()),
        Some(_) => Err(found("a creation that was stopped left another store")),
    }
}

/// A creation over a disk is stopped before its call of this number; both images are opened.
fn creation(
    alloc: Global,
    base: &MemDisk,
    before: &[u8],
    empty: &[u8],
    fails: u64,
) -> Result<(), Wrong> {
    let mut disk = Fuse::new(oldest(alloc, base)?, fails);
    match create_on(alloc, &mut disk) {
        Err(Refusal::Device) => {}
        _ => return Err(found("a creation whose call failed is done")),
    }
    let disk = disk.into_inner();
    let stood = if disk.syncs() == 0 {
        Some(before)
    } else {
        None
    };
    is_created(alloc, oldest(alloc, &disk)?, stood, empty)?;
    is_created(alloc, newest(alloc, &disk)?, stood, empty)
}

/// A store with a file.
fn with_file(alloc: Global) -> Result<Box<Keeper<MemDisk>>, Wrong> {
    let mut keeper = opened(alloc, made(alloc)?)?;
    let receipt = submit(keeper.as_mut(), input_of(alloc, ONWARD)?)?;
    spent(alloc, receipt)?;
    Ok(keeper)
}

/// A creation over a store with a file, and over a blank disk, is stopped before each call; returns how many images were opened.
pub fn each_creation(alloc: Global) -> Result<u64, Wrong> {
    let empty = bytes_of(alloc, opened(alloc, made(alloc)?)?.as_ref())?;
    let keeper = with_file(alloc)?;
    let before = bytes_of(alloc, keeper.as_ref())?;
    let base = Box::into_inner(keeper).into_disk().settled();
    let nothing = blank(alloc)?;
    let mut images: u64 = 0;
    for fails in 1..=calls_of_create(alloc)? {
        creation(alloc, &base, before.as_slice(), empty.as_slice(), fails)?;
        creation(alloc, &nothing, empty.as_slice(), empty.as_slice(), fails)?;
        images = images.saturating_add(4);
    }
    Ok(images)
}
