//! Processes through runners, by the files of a folder.
ghost use Rattle.std.specs.Prelude.{◌≡◌, [], true, false, Ok, IfOk};
ghost use Rattle.std.proofs.lemmas.Bool.{false≢true};
ghost use Rattle.um_children.specs.History.{is_absent};
ghost use Rattle.um_children.specs.Faults.{CountsFault};
ghost use Rattle.um_children.specs.Standings.{goes_on};

use crate::children::Children;
use crate::commands::finding_command;
use crate::fault::ChildFault;
use crate::output::{Output, begin_ahead, make_ahead};
use crate::places::{
    OpenFault, bar, count_unmanaged, files_in, greatest_from, standing_in, take_folder,
};
use crate::removal::remove_files;
use crate::shells::{has_run, send, send_kept, start};
use crate::silence::{Silence, has_long_been};
use crate::standing::{Known, Standing, stronger};
use crate::trouble::{Cause, Trouble};
use crate::watch::Watch;
use std::alloc::Global;
use std::collections::BTreeMap;
use std::fs::Files;
use std::process::Processes;
use std::time::Clock;
use std::{io, mem};
use um_keeper::SpawnOrder;
use um_model::{Fate, NextNumber, ProcessNumber, Signal};
use um_runner::{RunnerFile, take_back};

/// Processes through runners: each is started by a runner of its own, which outlives the manager and reports on it by
/// files in a folder.
///
/// No contract can say what files and processes do. So `honest` isn't claimed of it, and of the clauses of `Children`
/// only those on counts, claims and the bound of a start say something here. That a runner does what its files say is a
/// premise of the proofs above.
///
/// Fates are queried in rounds, each in ascending order: a number that isn't above the last one begins a round, and the
/// folder is looked at once a round. If nothing arrived, a fate costs no call of the system except once a second; and
/// `has_news` says whether a round is worth its while.
pub struct RunnerDir<'a, R: Files + Processes + Clock> {
    rt: &'a R,
    alloc: Global,
    /// The path of the runner's program.
    program: String,
    folder: String,
    /// The folder of the output files of processes; none if output isn't kept.
    output: Option<&'a str>,
    /// The result of making a file for the output of the process that was started last.
    printed: Output,
    known: BTreeMap<u64, Known>,
    watch: Watch,
    /// The number that was queried last.
    last: u64,
    /// The next round may report or do something even if no file arrives.
    is_restless: bool,
    /// And it should follow soon, since no runner may wake the manager for that.
    is_pressed: bool,
    failures: u64,
    /// The cause of the last failure of a call.
    cause: Option<Cause>,
    /// How long numbers have been silent, those alone that are.
    silences: BTreeMap<u64, Silence>,
    /// The number that the last call found silent for too long, once.
    silent: Option<ProcessNumber>,
    /// The number to which the last call found that a kept signal can't be sent, once.
    unsignalled: Option<ProcessNumber>,
    /// The greatest number of which the folder has a file though it was never started from this store.
    foreign: Option<ProcessNumber>,
    /// The number of processes that run and aren't live.
    unmanaged: u64,
}

// One call, where a derived one is taken apart at each exit.
impl<'a, R: Files + Processes + Clock> Drop for RunnerDir<'a, R> {
    fn drop(self) {
        let RunnerDir {
            rt: _,
            alloc: _,
            program: _program,
            folder: _folder,
            output: _,
            printed: _printed,
            known: _known,
            watch: _,
            last: _,
            is_restless: _,
            is_pressed: _,
            failures: _,
            cause: _cause,
            silences: _silences,
            silent: _,
            unsignalled: _,
            foreign: _,
            unmanaged: _,
        } = self;
    }
}

/// Nothing is done in a folder of another store, whose greatest number this is.
fn admit(foreign: Option<ProcessNumber>) -> Result<(), Trouble> {
    match foreign {
        Some(_) => Err(Trouble::Failed(Cause::Foreign)),
        None => Ok(()),
    }
}

/// The facts known of the number.
fn known_in(known: &BTreeMap<u64, Known>, number: ProcessNumber) -> Known {
    match known.get(&number.get()) {
        Some(known) => *known,
        None => Known::nothing(),
    }
}

/// The facts known of the number after `changes` changes of the folder; its files are read if anything may have arrived
/// since they were read.
fn look<R: Files>(
    rt: &R,
    alloc: Global,
    folder: &str,
    changes: u64,
    number: ProcessNumber,
    known: Known,
) -> Result<Known, Trouble> {
    let changes = Some(changes);
    if known.standing.is_final() || known.changes == changes {
        return Ok(known);
    }
    Ok(Known {
        standing: standing_in(rt, alloc, folder, number, known.standing)?,
        kept: known.kept,
        changes,
    })
}

impl<'a, R: Files + Processes + Clock> RunnerDir<'a, R> {
    /// Children over the folder, through the runner at `program`. The folder is made where nothing stands there; one that stands there is
    /// the manager's alone from then on (mode 700).
    ///
    /// `NoMemory` where a growth was refused; `NoFolder` where something else stands there; `Owner` for a folder of another user than the
    /// process's effective one, `Writable` for one that its group or others may write; `System` where the system refuses it.
    pub fn open(
        rt: &'a R,
        alloc: Global,
        program: &str,
        folder: &str,
    ) -> Result<RunnerDir<'a, R>, OpenFault>
        ensures { IfOk result (λ children. children.failures ≡ 0) }
    {
        let Ok(program) = String::from_str(alloc, program) else {
            return Err(OpenFault::NoMemory);
        };
        let Ok(folder) = String::from_str(alloc, folder) else {
            return Err(OpenFault::NoMemory);
        };
        take_folder(rt, folder.as_str())?;
        Ok(RunnerDir {
            rt,
            alloc,
            program,
            folder,
            output: None,
            printed: Output::Nowhere,
            known: BTreeMap::new(alloc),
            watch: Watch::NEW,
            last: u64::MAX,
            is_restless: true,
            is_pressed: true,
            failures: 0,
            cause: None,
            silences: BTreeMap::new(alloc),
            silent: None,
            unsignalled: None,
            foreign: None,
            unmanaged: 0,
        })
    }

    /// From now on the output of a process goes to a new file of this folder, under its number; it has mode 600, and is
    /// removed again if the start is refused. If none can be made the output goes nowhere, and the start is the same.
    pub fn keep_output(&mut self, folder: &'a str)
        ensures failures { self.new.failures ≡ self.old.failures }
    {
        begin_ahead(self.rt, self.alloc, folder);
        self.output = Some(folder);
    }

    /// Why no file could be made for the output of the process that was started last, if none could.
    pub fn output_fault(&self) -> Option<&io::Error> {
        self.printed.fault()
    }

    /// How many calls failed. It stays at its last value.
    pub fn failures(&self) -> u64
        ensures { result ≡ self.now.failures }
    {
        self.failures
    }

    /// Whether a round of fates may report or do anything that the last one didn't. That is so if a file may have
    /// arrived, a number is starting or has an end or an absence that is reported again, or a signal waits for its pid.
    /// It is also so if a call of the last round failed, or a process was started or signalled after it. It costs one
    /// look at the folder's time, and none if one of the others is known.
    ///
    /// The known facts of the last round have to be those of all numbers whose fate is queried.
    pub fn has_news(&self) -> bool
        ensures { self.now.is_restless ≡ true → result ≡ true }
    {
        self.is_restless || self.watch.has_changed(self.rt, self.folder.as_str())
    }

    /// Whether the next round of fates should follow soon, though no runner may wake the manager. That is so if a call
    /// of the last round failed, a signal waits for its pid, an end or an absence is reported again, or a process was
    /// started or signalled after it.
    pub fn is_pressed(&self) -> bool
        ensures { result ≡ self.now.is_pressed }
    {
        self.is_pressed
    }

    /// The path of the folder of processes.
    pub fn folder(&self) -> &str {
        self.folder.as_str()
    }

    /// The path of the runner's program.
    pub fn program(&self) -> &str {
        self.program.as_str()
    }

    /// The path that a failure is about.
    fn place_of(&self, cause: &Cause) -> &str {
        match cause {
            Cause::Folder(_) | Cause::Foreign | Cause::Unsignalled => self.folder.as_str(),
            Cause::Runner => self.program.as_str(),
            Cause::Shell(_) => "sh",
        }
    }

    /// The path and the cause of the last failure of a call.
    pub fn trouble(&self) -> Option<(&str, &Cause)> {
        match &self.cause {
            Some(cause) => Some((self.place_of(cause), cause)),
            None => None,
        }
    }

    /// Whether the runner's program is there and can be executed, as far as a shell can see.
    pub fn has_runner(&self) -> bool {
        match finding_command(self.alloc, self.program.as_str()) {
            Ok(command) => has_run(self.rt, command).unwrap_or(true),
            Err(_) => true,
        }
    }

    /// Whether the folder wasn't there when a round of fates began last.
    pub fn is_gone(&self) -> bool {
        self.watch.is_gone()
    }

    /// The number whose fate was queried last, if for ten seconds nobody has claimed it and this wasn't reported of it
    /// yet.
    pub fn silent(&self) -> Option<ProcessNumber> {
        self.silent
    }

    /// The number whose fate was queried last, if a signal that was kept for it couldn't be sent though its process is
    /// there. It is kept no longer.
    pub fn unsignalled(&self) -> Option<ProcessNumber> {
        self.unsignalled
    }

    /// The greatest number of which the folder had files at `forget_others` although it was never started: they are another store's. From
    /// then on each call is refused as `Device`, and touches nothing.
    pub fn foreign(&self) -> Option<ProcessNumber> {
        self.foreign
    }

    /// The number of processes that ran at `forget_others`, aren't live, and have no reported end: those of an earlier
    /// boot.
    pub fn unmanaged(&self) -> u64 {
        self.unmanaged
    }

    /// Counts the call if it failed, and keeps the cause.
    fn count<T: Drop>(&mut self, answer: Result<T, Trouble>) -> Result<T, ChildFault>
        ensures same { IfOk result (λ value. answer ≡ Ok value) }
        ensures failures { CountsFault result self.old.failures self.new.failures }
        ensures restless { self.new.is_restless ≡ self.old.is_restless }
        ensures pressed { self.new.is_pressed ≡ self.old.is_pressed }
    {
        match answer {
            Ok(value) => Ok(value),
            Err(Trouble::NoMemory) => Err(ChildFault::NoMemory),
            Err(Trouble::Failed(cause)) => {
                self.failures = self.failures.saturating_add(1);
                self.cause = Some(cause);
                Err(ChildFault::Device)
            }
        }
    }

    fn start(&mut self, order: &SpawnOrder) -> Result<(), Trouble>
        ensures failures { self.new.failures ≡ self.old.failures }
    {
        admit(self.foreign)?;
        self.printed = Output::of(self.rt, self.alloc, self.output, order.number());
        let (program, folder) = (self.program.as_str(), self.folder.as_str());
        let output = self.printed.path();
        let answer = start(self.rt, self.alloc, output, program, folder, order);
        if answer.is_err() {
            self.printed.take_back(self.rt);
        }
        make_ahead(self.rt, self.alloc, self.output);
        answer
    }

    /// Looks at the folder where the number begins a round.
    fn begin(&mut self, number: ProcessNumber)
        ensures failures { self.new.failures ≡ self.old.failures }
    {
        if number.get() <= self.last {
            self.watch.look(self.rt, self.folder.as_str());
            self.is_restless = false;
            self.is_pressed = false;
        }
        self.last = number.get();
    }

    /// The facts known of the number, once it was claimed where it has to be, and a kept signal was sent where it can
    /// be; and whether its process is there and can't be signalled.
    fn learn(
        &self,
        number: ProcessNumber,
        before: Known,
        claim: bool,
    ) -> Result<(Known, bool), Trouble> {
        admit(self.foreign)?;
        let (folder, changes) = (self.folder.as_str(), self.watch.changes());
        let mut known = look(self.rt, self.alloc, folder, changes, number, before)?;
        if claim && known.standing == Standing::Silent {
            known.standing = bar(self.rt, self.alloc, folder, number)?;
        }
        Ok(send_kept(self.rt, self.alloc, known))
    }

    /// Whether a number with these known facts runs, as it did when it was looked at last: no signal waits for its pid,
    /// and no file may have arrived since its files were read. So it is with most, and nothing is to be done for them.
    fn runs_on(&self, known: Known) -> bool {
        known.is_settled() && known.changes == Some(self.watch.changes()) && self.foreign.is_none()
    }

    fn find(&mut self, number: ProcessNumber, claim: bool) -> Result<Fate, Trouble>
        ensures claim { claim ≡ false → IfOk result (λ fate. is_absent fate ≡ false) }
        ensures failures { self.new.failures ≡ self.old.failures }
        ensures restless { self.new.is_restless ≡ false → result ≡ Ok Fate.Executed }
        ensures pressed { self.new.is_pressed ≡ false → goes_on result ≡ true }
    {
        self.begin(number);
        self.silent = None;
        self.unsignalled = None;
        let before = known_in(&self.known, number);
        if self.runs_on(before) {
            return Ok(Fate::Executed);
        }
        let was_restless = mem::replace(&mut self.is_restless, true);
        let was_pressed = mem::replace(&mut self.is_pressed, true);
        let (known, is_refused) = self.learn(number, before, claim)?;
        if is_refused {
            self.unsignalled = Some(number);
        }
        if has_long_been(self.rt, &mut self.silences, number, known.standing) {
            self.silent = Some(number);
        }
        // where there is no memory for it the files are read again
        let is_kept = known == before || self.known.insert(number.get(), known).is_ok();
        self.is_restless = was_restless || !is_kept || !known.is_settled();
        self.is_pressed = was_pressed || !is_kept || !known.waits_for_runner();
        Ok(known.standing.fate(claim))
    }

    /// Sends the signal if the pid is there, and returns whether nothing is left to be done: false if it isn't there
    /// yet.
    fn has_sent(
        &self,
        number: ProcessNumber,
        before: Standing,
        signal: Signal,
    ) -> Result<bool, Trouble> {
        // the files are read in any case: after a status the pid may be another's
        match standing_in(self.rt, self.alloc, self.folder.as_str(), number, before)? {
            Standing::Running(Some(pid)) => {
                send(self.rt, self.alloc, pid, signal)?;
                Ok(true)
            }
            Standing::Silent | Standing::Taken => Ok(false),
            Standing::Running(None) | Standing::Ended(_) | Standing::Barred => Ok(true),
        }
    }

    /// Delivers a signal. One whose pid isn't there yet is kept, and so is one that couldn't be sent for want of a shell, a descriptor or memory:
    /// it is sent at the next look.
    fn deliver(&mut self, number: ProcessNumber, signal: Signal) -> Result<(), Trouble>
        ensures failures { self.new.failures ≡ self.old.failures }
    {
        admit(self.foreign)?;
        let known = known_in(&self.known, number);
        if known.standing.is_final() {
            return Ok(());
        }
        let kept = Some(stronger(known.kept, signal));
        match self.has_sent(number, known.standing, signal) {
            Ok(true) => Ok(()),
            Ok(false) => {
                self.known.insert(number.get(), Known { kept, ..known })?;
                Ok(())
            }
            Err(trouble) => {
                // where there is no memory for it, it isn't repeated
                if !trouble.is_of_the_process() {
                    let _kept = self.known.insert(number.get(), Known { kept, ..known });
                }
                Err(trouble)
            }
        }
    }

    fn remove_files(&self, number: ProcessNumber) -> Result<(), Trouble> {
        admit(self.foreign)?;
        remove_files(self.rt, self.alloc, self.folder.as_str(), number)
    }

    fn take_back(&self, number: ProcessNumber) -> Result<(), Trouble> {
        Ok(take_back(self.rt, self.alloc, self.folder.as_str(), number)?)
    }

    /// Drops the files of a number that isn't live, as far as this file of it allows: all, if it is the status, and
    /// entries that no runner has taken.
    fn let_go(&mut self, number: ProcessNumber, file: RunnerFile) -> Result<(), ChildFault>
        ensures failures { CountsFault result self.old.failures self.new.failures }
    {
        match file {
            RunnerFile::Status => self.forget(number),
            RunnerFile::Entries => {
                let answer = self.take_back(number);
                self.count(answer)
            }
            _ => Ok(()),
        }
    }

    /// Forgets each number whose status stands in the folder, and removes entries that no runner has taken, but of these. Nothing goes where
    /// the folder is another store's.
    fn forget_but(&mut self, live: &[ProcessNumber], next: NextNumber) -> Result<(), ChildFault>
        ensures failures { CountsFault result self.old.failures self.new.failures }
    {
        let files = files_in(self.rt, self.alloc, self.folder.as_str());
        let files = self.count(files)?;
        self.foreign = greatest_from(files.as_slice(), next);
        let admitted = admit(self.foreign);
        self.count(admitted)?;
        let folder = self.folder.as_str();
        self.unmanaged = count_unmanaged(self.rt, self.alloc, folder, files.as_slice(), live);
        for (number, file) in &files {
            if !live.contains(number) {
                self.let_go(*number, *file)?;
            }
        }
        Ok(())
    }
}

impl<'a, R: Files + Processes + Clock> Children for RunnerDir<'a, R> {
    // No clause reads it, since nothing is claimed of files and processes.
    ghost past = { λ _. [] };

    ghost whole = { λ _. true };

    ghost failures = { λ children. children.failures };

    ghost honest = { λ _. false };

    ghost absence_is_final = { λ _ never. absurd (false≢true never) };

    fn spawn(&mut self, order: SpawnOrder) -> Result<(), ChildFault> {
        self.is_restless = true;
        self.is_pressed = true;
        if order.is_too_long(self.alloc)? {
            return Err(ChildFault::TooLong);
        }
        let answer = self.start(&order);
        self.count(answer)
    }

    fn signal(&mut self, number: ProcessNumber, signal: Signal) -> Result<(), ChildFault> {
        self.is_restless = true;
        self.is_pressed = true;
        let answer = self.deliver(number, signal);
        self.count(answer)
    }

    fn fate(&mut self, number: ProcessNumber, claim: bool) -> Result<Fate, ChildFault> {
        let answer = self.find(number, claim);
        self.count(answer)
    }

    /// Removes the files of the number, so that the folder doesn't grow with time. Its runner has ended, once its
    /// status stands there; if it doesn't, nothing is removed. A claim of the manager stays, since a late runner must
    /// still find it.
    ///
    /// `NoMemory` where a growth was refused, `Device` where the system refuses: a later call removes the files that
    /// were left.
    fn forget(&mut self, number: ProcessNumber) -> Result<(), ChildFault> {
        let answer = self.remove_files(number);
        if known_in(&self.known, number).standing.is_final() {
            self.known.remove(&number.get());
        }
        self.count(answer)
    }

    /// Removes the files of each other number whose status stands in the folder, as `forget` does, and of each the
    /// entries that no runner has taken. If files stand there of a number that was never started nothing is removed,
    /// and it is noted (`foreign`).
    ///
    /// `NoMemory` where a growth was refused, `Device` where the folder is another store's, or the system refuses: a
    /// later call removes the files that were left.
    fn forget_others(
        &mut self,
        live: &[ProcessNumber],
        next: NextNumber,
    ) -> Result<(), ChildFault> {
        self.forget_but(live, next)
    }
}
