//! The output of a manager's processes.

use crate::ends::{Ended, add_end, begin_ends, end_line};
use crate::fault::{Failure, OpenFault};
use crate::files::{
    OutputFile, Part, files_in, is_folder, length_of, make_folder, names_in, path_of, path_of_name,
    remove,
};
use crate::kept::{foreign_in, is_among};
use crate::unit_folder::{KEPT, finish, look_after, place, prune, tidy};
use std::alloc::Global;
use std::collections::BTreeMap;
use std::fs::Files;
use std::time::{Duration, Instant};
use std::{io, mem};
use um_model::{Fate, Moment, NextNumber, ProcessNumber};
use um_name::{UnitName, is_unit_name};
use um_state::State;

/// The folder for output whose unit the store doesn't know; no unit has this name.
const LOST: &str = "lost";

/// How many numbers it keeps.
const LOST_KEPT: usize = 16;

/// A live process.
#[derive(Drop)]
struct Live {
    number: ProcessNumber,
    unit: UnitName,
    /// Its file stands in the folder of the unit, or there is none.
    is_placed: bool,
    /// Its end was written down.
    is_told: bool,
}

impl Live {
    /// Moves its file from one folder into that of the unit, unless it is there already.
    fn place<R: Files>(
        &mut self,
        rt: &R,
        alloc: Global,
        from: &str,
        folder: &str,
    ) -> io::Result<()> {
        if !self.is_placed {
            place_in(rt, alloc, from, folder, self.number)?;
            self.is_placed = true;
        }
        Ok(())
    }
}

/// The output of a manager's processes in a folder. Each process writes to a file of its number, which is moved into
/// the folder of its unit, is cut if it is too long, and is removed once four others of the unit ended later. Each
/// end is written down.
///
/// No contract can state the contents of files; this is only tested.
#[derive(Drop)]
pub struct Outputs<'a, R: Files> {
    rt: &'a R,
    alloc: Global,
    folder: &'a str,
    /// How many bytes of a file are kept.
    size: u64,
    /// The moment of the current events.
    moment: Moment,
    live: BTreeMap<u64, Live>,
    /// Started since the last turn ended.
    started: Vec<ProcessNumber>,
    /// Reported since then as ended, or as never to start.
    ended: Vec<ProcessNumber>,
    /// The time of the last look at the files.
    looked: Option<Instant>,
    /// The first action that failed since `take_failure` was last called.
    failure: Option<Failure>,
}

/// Refuses the files of another store.
fn admit(files: &[OutputFile], next: NextNumber) -> Result<(), OpenFault> {
    match foreign_in(files, next) {
        Some(number) => Err(OpenFault::Foreign(number.get())),
        None => Ok(()),
    }
}

/// Refuses the files of another store in this folder.
fn admit_at<R: Files>(
    rt: &R,
    alloc: Global,
    path: &str,
    next: NextNumber,
) -> Result<(), OpenFault> {
    let files = files_in(rt, alloc, path)?;
    admit(files.as_slice(), next)
}

/// Refuses them in the folder for output of unknown units.
fn admit_lost<R: Files>(
    rt: &R,
    alloc: Global,
    folder: &str,
    next: NextNumber,
) -> Result<(), OpenFault> {
    let lost = path_of_name(alloc, folder, LOST)?;
    if is_folder(rt, lost.as_str())? {
        admit_at(rt, alloc, lost.as_str(), next)
    } else {
        Ok(())
    }
}

/// Refuses them in these folders, and in the one for output of unknown units.
fn admit_in<R: Files>(
    rt: &R,
    alloc: Global,
    folder: &str,
    folders: &[String],
    next: NextNumber,
) -> Result<(), OpenFault> {
    for path in folders {
        admit_at(rt, alloc, path.as_str(), next)?;
    }
    admit_lost(rt, alloc, folder, next)
}

/// The path of the entry of this name in the folder, if it is the folder of a unit.
fn unit_folder<R: Files>(
    rt: &R,
    alloc: Global,
    folder: &str,
    name: &str,
) -> io::Result<Option<String>> {
    if !is_unit_name(name) {
        return Ok(None);
    }
    let path = path_of_name(alloc, folder, name)?;
    if is_folder(rt, path.as_str())? {
        return Ok(Some(path));
    }
    Ok(None)
}

/// The paths of the folders of units among these names in a folder.
fn unit_folders_among<R: Files>(
    rt: &R,
    alloc: Global,
    folder: &str,
    names: &[String],
) -> io::Result<Vec<String>> {
    let mut folders = Vec::new(alloc);
    for name in names {
        if let Some(path) = unit_folder(rt, alloc, folder, name.as_str())? {
            folders.push(path)?;
        }
    }
    Ok(folders)
}

/// The paths of the folders of units in a folder.
fn unit_folders<R: Files>(rt: &R, alloc: Global, folder: &str) -> io::Result<Vec<String>> {
    let names = names_in(rt, alloc, folder)?;
    unit_folders_among(rt, alloc, folder, names.as_slice())
}

/// The numbers of the live processes of a state.
fn live_in(state: &State) -> io::Result<Vec<ProcessNumber>> {
    Ok(state.units().live()?)
}

/// Moves the file of a live process into the folder of its unit. A new folder also gets the file of its ends now: a
/// new file takes the disk some time, and an end is waited for, but a start that was ordered isn't.
fn place_in<R: Files>(
    rt: &R,
    alloc: Global,
    from: &str,
    folder: &str,
    number: ProcessNumber,
) -> io::Result<()> {
    if place(rt, alloc, from, folder, number)? {
        begin_ends(rt, alloc, folder)?;
    }
    Ok(())
}

impl<'a, R: Files> Outputs<'a, R> {
    /// The output in the folder, of the store with this state; `size` bytes of each file are kept. Files at the top
    /// are moved to their places, the remains of ended numbers are put in order, and nothing is touched if the folder
    /// is another store's.
    ///
    /// `Foreign` if the folder has a number that the store never started, `System` if the system refuses the folder.
    /// Other failures are noted.
    pub fn open(
        rt: &'a R,
        alloc: Global,
        folder: &'a str,
        size: u64,
        state: &State,
    ) -> Result<Outputs<'a, R>, OpenFault> {
        let mut outputs = Outputs::new(rt, alloc, folder, size, state.clock());
        outputs.look_through(state)?;
        Ok(outputs)
    }

    /// No entry of the folder is known yet.
    fn new(rt: &'a R, alloc: Global, folder: &'a str, size: u64, moment: Moment) -> Outputs<'a, R> {
        Outputs {
            rt,
            alloc,
            folder,
            size,
            moment,
            live: BTreeMap::new(alloc),
            started: Vec::new(alloc),
            ended: Vec::new(alloc),
            looked: None,
            failure: None,
        }
    }

    /// Looks through the folder, refuses it if it is another store's, and takes up its files.
    fn look_through(&mut self, state: &State) -> Result<(), OpenFault> {
        let files = files_in(self.rt, self.alloc, self.folder)?;
        let folders = unit_folders(self.rt, self.alloc, self.folder)?;
        self.admit_all(files.as_slice(), folders.as_slice(), state.next())?;
        self.take_up(state, files.as_slice(), folders.as_slice())?;
        Ok(())
    }

    /// Refuses the files of another store: those at the top, and those in the folders.
    fn admit_all(
        &self,
        files: &[OutputFile],
        folders: &[String],
        next: NextNumber,
    ) -> Result<(), OpenFault> {
        admit(files, next)?;
        admit_in(self.rt, self.alloc, self.folder, folders, next)
    }

    /// Takes up the live processes of the state, and puts the other files of the folder in order.
    fn take_up(
        &mut self,
        state: &State,
        files: &[OutputFile],
        folders: &[String],
    ) -> io::Result<()> {
        let live = live_in(state)?;
        self.take_all(live.as_slice(), state);
        self.lose_others(live.as_slice(), files);
        self.tidy_all(live.as_slice(), folders);
        Ok(())
    }

    /// Takes up these numbers by their units in the state.
    fn take_all(&mut self, numbers: &[ProcessNumber], state: &State) {
        for number in numbers {
            self.take(*number, state);
        }
    }

    /// Moves the files at the top of numbers other than the live ones.
    fn lose_others(&mut self, live: &[ProcessNumber], files: &[OutputFile]) {
        for file in files {
            if file.part == Part::Printed && !is_among(live, file.number) {
                let lost = self.lose(file.number);
                self.mind(file.number, lost);
            }
        }
    }

    /// Puts in order the files of other numbers than the live ones in these folders.
    fn tidy_all(&mut self, live: &[ProcessNumber], folders: &[String]) {
        for path in folders {
            let tidied = tidy(self.rt, self.alloc, path.as_str(), live, self.size);
            self.mind_all(tidied);
        }
    }

    /// Notes a failure, if it is the first since the last `take_failure`.
    fn fail(&mut self, number: Option<ProcessNumber>, error: io::Error) {
        if self.failure.is_none() {
            self.failure = Some(Failure { number, error });
        }
    }

    /// Notes a failure for a number.
    fn mind(&mut self, number: ProcessNumber, done: io::Result<()>) {
        if let Err(error) = done {
            self.fail(Some(number), error);
        }
    }

    /// Notes a failure for a unit.
    fn mind_all(&mut self, done: io::Result<()>) {
        if let Err(error) = done {
            self.fail(None, error);
        }
    }

    /// The first failure since the last call.
    pub fn take_failure(&mut self) -> Option<Failure> {
        self.failure.take()
    }

    /// Sets the moment of everything that is noted from now on.
    pub fn begin(&mut self, moment: Moment) {
        self.moment = moment;
    }

    /// Notes that a process is started, to be moved once its unit is known.
    pub fn note_start(&mut self, number: ProcessNumber) {
        // if there is no memory for it, it is moved at the next opening
        let _noted = self.started.push(number);
    }

    /// Moves the file of a number at the top to the output of unknown units, of which the newest stay.
    fn move_to_lost(&self, number: ProcessNumber) -> io::Result<()> {
        let lost = path_of_name(self.alloc, self.folder, LOST)?;
        make_folder(self.rt, lost.as_str())?;
        let _is_new = place(self.rt, self.alloc, self.folder, lost.as_str(), number)?;
        prune(self.rt, self.alloc, lost.as_str(), &[], LOST_KEPT)
    }

    /// Moves the file at the top of a number whose unit is unknown; an empty file is removed, and anything but a file
    /// stays.
    fn lose(&self, number: ProcessNumber) -> io::Result<()> {
        let path = path_of(self.alloc, self.folder, number, Part::Printed)?;
        match length_of(self.rt, path.as_str())? {
            Some(0) => remove(self.rt, path.as_str()),
            Some(_) => self.move_to_lost(number),
            None => Ok(()),
        }
    }

    /// Moves the file of a live process into the folder of its unit.
    fn place(&self, number: ProcessNumber, unit: &UnitName) -> io::Result<()> {
        let folder = path_of_name(self.alloc, self.folder, unit.as_str())?;
        place_in(self.rt, self.alloc, self.folder, folder.as_str(), number)
    }

    fn add(&mut self, live: Live) -> io::Result<()> {
        self.live.insert(live.number.get(), live)?;
        Ok(())
    }

    /// Takes up a number of the unit of this name.
    fn take_named(&mut self, number: ProcessNumber, unit: UnitName) -> io::Result<()> {
        let placed = self.place(number, &unit);
        let live = Live {
            number,
            unit,
            is_placed: placed.is_ok(),
            is_told: false,
        };
        self.add(live).and(placed)
    }

    /// Takes up a number of the unit.
    fn take_of(&mut self, number: ProcessNumber, unit: &UnitName) -> io::Result<()> {
        self.take_named(number, unit.copy()?)
    }

    /// Takes up a number by its unit in the state.
    fn take(&mut self, number: ProcessNumber, state: &State) {
        let taken = match state.units().process(number.get()) {
            Some(unit) => self.take_of(number, unit),
            None => self.lose(number),
        };
        self.mind(number, taken);
    }

    /// Writes down how a process of the unit ended.
    fn write_end(&self, number: ProcessNumber, unit: &UnitName, ended: Ended) -> io::Result<()> {
        let folder = path_of_name(self.alloc, self.folder, unit.as_str())?;
        let line = end_line(self.alloc, number, self.moment, ended)?;
        add_end(self.rt, self.alloc, folder.as_str(), line.as_str())
    }

    /// Notes that the end of a process was written down.
    fn note_told(&mut self, number: ProcessNumber) {
        if let Some(live) = self.live.get_mut(&number.get()) {
            live.is_told = true;
        }
    }

    /// Writes down how a process ended, once.
    fn tell_end(&mut self, number: ProcessNumber, ended: Ended) -> io::Result<()> {
        match self.live.get(&number.get()) {
            Some(live) if !live.is_told => self.write_end(number, &live.unit, ended)?,
            _ => return Ok(()),
        }
        self.note_told(number);
        Ok(())
    }

    /// Notes the fate of a process. If it has ended, or never starts, that is written down; its file stays as it is
    /// until the state has taken the fate.
    pub fn note_fate(&mut self, number: ProcessNumber, fate: Fate) {
        let Some(ended) = Ended::of(fate) else {
            return;
        };
        let told = self.tell_end(number, ended);
        self.mind(number, told);
        // if there is no memory for it, it is found at the next look
        let _noted = self.ended.push(number);
    }

    /// The live numbers of a unit.
    fn live_of(&self, unit: &UnitName) -> io::Result<Vec<ProcessNumber>> {
        let mut numbers = Vec::new(self.alloc);
        for live in self.live.values() {
            if live.unit.as_str() == unit.as_str() {
                numbers.push(live.number)?;
            }
        }
        Ok(numbers)
    }

    /// Keeps, in the folder of a unit, the live numbers and the newest of the others.
    fn prune(&self, unit: &UnitName, folder: &str) -> io::Result<()> {
        let live = self.live_of(unit)?;
        prune(self.rt, self.alloc, folder, live.as_slice(), KEPT)
    }

    /// Puts in order, in the folder of the unit, the files of a process that isn't live any more, and removes old
    /// ones of the unit.
    fn finish_in(&self, number: ProcessNumber, unit: &UnitName, folder: &str) -> io::Result<()> {
        let finished = finish(self.rt, self.alloc, folder, number, self.size);
        self.prune(unit, folder).and(finished)
    }

    /// Puts in order the files of a process that isn't live any more, and removes old ones of its unit.
    fn finish_of(&self, live: &Live) -> io::Result<()> {
        if !live.is_placed {
            self.place(live.number, &live.unit)?;
        }
        let folder = path_of_name(self.alloc, self.folder, live.unit.as_str())?;
        self.finish_in(live.number, &live.unit, folder.as_str())
    }

    /// Forgets a process that isn't live any more, and puts its files in order.
    fn finish(&mut self, number: ProcessNumber) -> io::Result<()> {
        match self.live.remove(&number.get()) {
            Some(live) => self.finish_of(&live),
            None => Ok(()),
        }
    }

    /// Puts the files of these numbers in order, except those that are still live.
    fn finish_all(&mut self, numbers: &[ProcessNumber], state: &State) {
        for number in numbers {
            // an end that the state couldn't take is reported again
            if state.units().process(number.get()).is_none() {
                let finished = self.finish(*number);
                self.mind(*number, finished);
            }
        }
    }

    /// Moves the files of processes started since the last turn ended into the folders of their units.
    fn settle_started(&mut self, state: &State) {
        let started = mem::replace(&mut self.started, Vec::new(self.alloc));
        self.take_all(started.as_slice(), state);
    }

    /// Puts in order the files of processes that ended since the last turn ended.
    fn settle_ended(&mut self, state: &State) {
        let ended = mem::replace(&mut self.ended, Vec::new(self.alloc));
        self.finish_all(ended.as_slice(), state);
    }

    /// Moves the files of processes started since the last turn ended into the folders of their units, by the state
    /// after the turn, and puts in order the files of those that ended.
    pub fn settle(&mut self, state: &State) {
        self.settle_started(state);
        self.settle_ended(state);
    }

    /// Cuts the file of a live process if it is too long; moves one that couldn't be moved before.
    fn look_after(&mut self, number: ProcessNumber) -> io::Result<()> {
        let Some(live) = self.live.get_mut(&number.get()) else {
            return Ok(());
        };
        let folder = path_of_name(self.alloc, self.folder, live.unit.as_str())?;
        live.place(self.rt, self.alloc, self.folder, folder.as_str())?;
        look_after(self.rt, self.alloc, folder.as_str(), number, self.size)
    }

    /// The numbers of all live processes.
    fn numbers(&self) -> io::Result<Vec<ProcessNumber>> {
        let mut numbers = Vec::new(self.alloc);
        for live in self.live.values() {
            numbers.push(live.number)?;
        }
        Ok(numbers)
    }

    /// Whether the files are to be looked at now.
    fn is_due(&self, now: Instant) -> bool {
        match self.looked {
            Some(looked) => now.duration_since(looked) >= Duration::from_secs(1),
            None => true,
        }
    }

    /// Looks at the file of a process.
    fn look_at(&mut self, number: ProcessNumber, state: &State) {
        let done = match state.units().process(number.get()) {
            Some(_) => self.look_after(number),
            None => self.finish(number),
        };
        self.mind(number, done);
    }

    /// Looks at the files of all live processes, unless that was done less than a second ago. True if it was done
    /// now.
    pub fn tend(&mut self, state: &State, now: Instant) -> bool {
        if !self.is_due(now) {
            return false;
        }
        self.looked = Some(now);
        // if there is no memory for them, they are looked at a second later
        let numbers = self.numbers().unwrap_or(Vec::new(self.alloc));
        for number in &numbers {
            self.look_at(*number, state);
        }
        true
    }
}
