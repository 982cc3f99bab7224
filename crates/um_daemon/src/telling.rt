//! Children that report failures and other news to the operator.

ghost use Rattle.std.specs.Prelude.{◌≡◌};

use crate::keeping::Keeps;
use crate::repeats::{Count, Deed, Repeats};
use std::alloc::{AllocError, Global};
use std::cell::{Cell, RefCell};
use std::fs::Files;
use std::io;
use std::process::Processes;
use std::time::{Clock, Instant};
use um_children::{
    Cause, ChildFault, Children, Fate, NextNumber, ProcessNumber, RunnerDir, Signal,
};
use um_keeper::SpawnOrder;
use um_model::Moment;
use um_state::State;

/// The processes seen since the last look.
#[derive(Drop)]
pub struct Tally {
    /// The number of fates queried and of processes started, added up.
    live: Cell<u64>,
    /// The number of these fates that were `Absent`.
    absent: Cell<u64>,
    /// The time of the last look; `None` if the system gave no time, and before the first look.
    looked: Cell<Option<Instant>>,
}

impl Tally {
    /// A tally without any process.
    pub fn new() -> Tally {
        Tally {
            live: Cell::new(0),
            absent: Cell::new(0),
            looked: Cell::new(None),
        }
    }

    fn note_start(&self) {
        self.live.set(self.live.get().saturating_add(1));
    }

    fn note_fate(&self, answer: &Result<Fate, ChildFault>) {
        self.live.set(self.live.get().saturating_add(1));
        if let Ok(Fate::Absent) = answer {
            self.absent.set(self.absent.get().saturating_add(1));
        }
    }

    /// Whether any process was live since the last look.
    pub fn is_live(&self) -> bool {
        self.live.get() > 0
    }

    /// How many processes were found absent since the last look.
    pub fn absent(&self) -> u64 {
        self.absent.get()
    }

    /// Starts a new look, at this time.
    pub fn look(&self, now: Option<Instant>) {
        self.live.set(0);
        self.absent.set(0);
        self.looked.set(now);
    }
}

/// Children that report failed starts and signals and other news on standard error, and note what they see.
#[derive(Drop)]
pub struct Telling<'a, C: Children + Seen, R: Eprint, K: Keeps> {
    children: C,
    rt: &'a R,
    alloc: Global,
    tally: &'a Tally,
    keeping: &'a K,
    /// The failures of the last second.
    repeats: RefCell<Repeats>,
    /// The loss of the folder was reported, and the folder wasn't seen since.
    is_gone: bool,
}

impl<'a, C: Children + Seen, R: Eprint, K: Keeps> Telling<'a, C, R, K> {
    /// Wraps these children.
    pub fn new(
        children: C,
        rt: &'a R,
        alloc: Global,
        tally: &'a Tally,
        keeping: &'a K,
    ) -> Telling<'a, C, R, K>
        ensures { result.children ≡ children }
    {
        Telling {
            children,
            rt,
            alloc,
            tally,
            keeping,
            repeats: RefCell::new(Repeats::new(alloc)),
            is_gone: false,
        }
    }

    /// The text of the cause for which a call failed.
    fn why(&self, fault: ChildFault) -> Result<String, AllocError> {
        let alloc = self.alloc;
        match self.children.trouble() {
            Some((_, cause)) if fault == ChildFault::Device && cause.is_unsignalled() => {
                format!(in alloc; "{cause}")
            }
            Some((place, cause)) if fault == ChildFault::Device => {
                format!(in alloc; "{fault}: {place}: {cause}")
            }
            _ => format!(in alloc; "{fault}"),
        }
    }

    /// Whether the failure is to be reported now; if not, it is counted.
    fn is_told(&self, deed: Deed, why: &str) -> bool {
        match (self.tally.looked.get(), self.repeats.try_borrow_mut()) {
            (Some(now), Ok(mut repeats)) => repeats.is_told(deed, why, now),
            _ => true,
        }
    }

    /// Reports an action for a process that failed, and why, unless that was reported too often just now. Here and
    /// below a failure of standard error is ignored.
    fn tell_why(&self, deed: Deed, number: ProcessNumber, why: &str) {
        if self.is_told(deed, why) {
            let number = number.get();
            let _unheard = eprintln!(self.rt; "umd: {deed} process {number}: {why}");
        }
    }

    /// Reports an action for a process, if it failed.
    fn tell(&self, deed: Deed, number: ProcessNumber, answer: &Result<(), ChildFault>) {
        let Err(fault) = answer else {
            return;
        };
        match self.why(*fault) {
            Ok(why) => self.tell_why(deed, number, why.as_str()),
            Err(_) => self.tell_why(deed, number, "there is no memory"),
        }
    }

    /// The count of a failure that is to be reported now.
    fn next_count(&self, now: Instant) -> Option<Count> {
        let mut repeats = self.repeats.try_borrow_mut().ok()?;
        repeats.next_due(now)
    }

    /// Says that a kept signal couldn't be sent to a process that is there, once.
    fn tell_unsignalled(&self) {
        if let Some(number) = self.children.unsignalled() {
            self.tell_why(Deed::Signal, number, "it can't be signalled");
        }
    }

    /// Notes the start of a process, for its output.
    fn note_start(&self, number: ProcessNumber) {
        self.keeping
            .note_start(number, self.children.output_fault());
    }

    /// Notes the fate of a process, for its output.
    fn note_fate(&self, number: ProcessNumber, answer: &Result<Fate, ChildFault>) {
        if let Ok(fate) = answer {
            self.keeping.note_fate(number, *fate);
        }
    }

    /// Says that nobody has claimed a process that was started, once.
    fn tell_silent(&self) {
        if let Some(number) = self.children.silent() {
            let (number, folder) = (number.get(), self.children.folder());
            let _unheard = eprintln!(self.rt;
                "umd: process {number}: for 10 s no runner has claimed it in {folder}"
            );
        }
    }

    /// Says that the folder is gone, once until it stands again.
    fn tell_gone(&mut self)
        ensures { self.new.children ≡ self.old.children }
    {
        let is_gone = self.children.is_gone();
        if is_gone && !self.is_gone {
            let folder = self.children.folder();
            let _unheard = eprintln!(self.rt;
                "umd: {folder}: it is gone: until it stands again nothing starts, and no end is told"
            );
        }
        self.is_gone = is_gone;
    }

    /// Reports the findings of the look through the folder.
    fn tell_found(&self) {
        if !self.children.has_runner() {
            let runner = self.children.program();
            let _unheard = eprintln!(self.rt; "umd: {runner}: the runner can't be executed");
        }
        let unmanaged = self.children.unmanaged();
        if unmanaged > 0 {
            let _unheard = eprintln!(self.rt;
                "umd: {unmanaged} processes of an earlier boot still run and are no longer managed"
            );
        }
    }
}

/// Children that show more than their answers.
pub trait Seen {
    /// The failure of the last call that failed, and its place.
    fn trouble(&self) -> Option<(&str, &Cause)>;

    /// The folder of their files.
    fn folder(&self) -> &str;

    /// The path of the runner's program.
    fn program(&self) -> &str;

    /// Whether the runner's program can be executed.
    fn has_runner(&self) -> bool;

    /// Whether the folder is gone.
    fn is_gone(&self) -> bool;

    /// The number whose fate was queried last, if nobody has claimed it for too long and that is to be reported now.
    fn silent(&self) -> Option<ProcessNumber>;

    /// The number whose fate was queried last, if a kept signal couldn't be sent to its process, which is there.
    fn unsignalled(&self) -> Option<ProcessNumber>;

    /// How many processes run that nobody manages any more.
    fn unmanaged(&self) -> u64;

    /// The greatest number that has files in the folder although it was never started.
    fn foreign(&self) -> Option<ProcessNumber>;

    /// Why no file could be made for the output of the process that was started last.
    fn output_fault(&self) -> Option<&io::Error>;
}

impl<'a, R: Files + Processes + Clock> Seen for RunnerDir<'a, R> {
    fn trouble(&self) -> Option<(&str, &Cause)> {
        self.trouble()
    }

    fn folder(&self) -> &str {
        self.folder()
    }

    fn program(&self) -> &str {
        self.program()
    }

    fn has_runner(&self) -> bool {
        self.has_runner()
    }

    fn is_gone(&self) -> bool {
        self.is_gone()
    }

    fn silent(&self) -> Option<ProcessNumber> {
        self.silent()
    }

    fn unsignalled(&self) -> Option<ProcessNumber> {
        self.unsignalled()
    }

    fn unmanaged(&self) -> u64 {
        self.unmanaged()
    }

    fn foreign(&self) -> Option<ProcessNumber> {
        self.foreign()
    }

    fn output_fault(&self) -> Option<&io::Error> {
        self.output_fault()
    }
}

/// Children that show, without a query of any of them, whether something may have happened.
pub trait News {
    /// Whether a round of fates may report or do anything that the last one didn't.
    fn has_news(&self) -> bool;

    /// Whether the next round of fates should come soon, though no runner may wake the manager.
    fn is_pressed(&self) -> bool;

    /// Whether a failure occurred too often, and its count is still to be reported.
    fn is_counting(&self) -> bool;

    /// Reports the counts of failures that are due at this moment.
    fn tell_counts(&self, now: Instant);

    /// Sets the moment of everything that is noted from now on.
    fn begin(&self, moment: Moment);

    /// Notes that a turn has left this state.
    fn settle(&self, state: &State);

    /// Looks after the output files of the processes that are live in this state.
    fn tend(&self, state: &State, now: Instant);
}

impl<'a, 'b, R: Files + Processes + Clock, E: Eprint, K: Keeps> News
    for Telling<'a, RunnerDir<'b, R>, E, K> {
    fn has_news(&self) -> bool {
        self.children.has_news()
    }

    fn is_pressed(&self) -> bool {
        self.children.is_pressed()
    }

    fn is_counting(&self) -> bool {
        match self.repeats.try_borrow() {
            Ok(repeats) => repeats.is_counting(),
            Err(_) => false,
        }
    }

    fn tell_counts(&self, now: Instant) {
        for _ in 0..u64::MAX {
            let Some(Count { deed, why, more }) = self.next_count(now) else {
                return;
            };
            let _unheard = eprintln!(self.rt; "umd: {deed} processes: {why}: {more} more");
        }
    }

    fn begin(&self, moment: Moment) {
        self.keeping.begin(moment);
    }

    fn settle(&self, state: &State) {
        self.keeping.settle(state);
    }

    fn tend(&self, state: &State, now: Instant) {
        self.keeping.tend(state, now);
    }
}

impl<'a, 'b, R: Files + Processes + Clock, E: Eprint, K: Keeps> Telling<
    'a,
    RunnerDir<'b, R>,
    E,
    K,
> {
    /// Says that the folder belongs to another store, if it does. In that case nothing was done in it, and nothing
    /// will be.
    pub fn is_foreign(&self) -> bool {
        let Some(number) = self.children.foreign() else {
            return false;
        };
        let (number, folder) = (number.get(), self.children.folder());
        let _unheard = eprintln!(self.rt;
            "umd: {folder}: it is another store's: it has files of process {number}, which this store never started"
        );
        true
    }
}

impl<'a, C: Children + Seen, R: Eprint, K: Keeps> Children for Telling<'a, C, R, K> {
    ghost past = { λ t. C.past t.children };

    ghost whole = { λ t. C.whole t.children };

    ghost failures = { λ t. C.failures t.children };

    ghost honest = { λ t. C.honest t.children };

    ghost absence_is_final = { λ t h. C.absence_is_final t.children h };

    fn spawn(&mut self, order: SpawnOrder) -> Result<(), ChildFault> {
        let number = order.number();
        let answer = self.children.spawn(order);
        self.tally.note_start();
        self.note_start(number);
        self.tell(Deed::Start, number, &answer);
        answer
    }

    fn signal(&mut self, number: ProcessNumber, signal: Signal) -> Result<(), ChildFault> {
        let answer = self.children.signal(number, signal);
        self.tell(Deed::Signal, number, &answer);
        answer
    }

    fn fate(&mut self, number: ProcessNumber, claim: bool) -> Result<Fate, ChildFault> {
        let answer = self.children.fate(number, claim);
        self.tally.note_fate(&answer);
        self.note_fate(number, &answer);
        self.tell_silent();
        self.tell_unsignalled();
        self.tell_gone();
        answer
    }

    fn forget(&mut self, number: ProcessNumber) -> Result<(), ChildFault> {
        self.children.forget(number)
    }

    fn forget_others(
        &mut self,
        live: &[ProcessNumber],
        next: NextNumber,
    ) -> Result<(), ChildFault> {
        let answer = self.children.forget_others(live, next);
        self.tell_found();
        answer
    }
}
