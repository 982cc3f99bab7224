//! The output of a manager's processes: kept in a folder while it serves, with reports on standard error if that
//! fails.

use std::cell::{Cell, RefCell};
use std::fs::Files;
use std::io;
use std::time::Instant;
use um_children::{Fate, ProcessNumber};
use um_model::Moment;
use um_output::{Failure, Outputs};
use um_state::State;

/// Notes the starts and fates of processes, so that their output can be kept.
pub trait Keeps {
    /// Sets the moment of everything that is noted from now on.
    fn begin(&self, moment: Moment);

    /// Notes that a process is started; `fault` says why no file could be made for its output.
    fn note_start(&self, number: ProcessNumber, fault: Option<&io::Error>);

    /// Notes the fate of a process.
    fn note_fate(&self, number: ProcessNumber, fate: Fate);

    /// Notes that a turn has left this state.
    fn settle(&self, state: &State);

    /// Looks after the output files of the processes that are live in this state, once a second.
    fn tend(&self, state: &State, now: Instant);
}

/// The output folder, or none if no output is kept, and the failures that were reported.
#[derive(Drop)]
pub struct Keeping<'a, R: Files, E> {
    lines: &'a E,
    outputs: RefCell<Option<Outputs<'a, R>>>,
    folder: &'a str,
    /// A failure to make a file was reported, and no file was made since.
    is_lacking: Cell<bool>,
    /// A failure of the files was reported, and no look since found them all in order.
    is_told: Cell<bool>,
    /// Something failed since the last look.
    has_failed: Cell<bool>,
}

impl<'a, R: Files, E: Eprint> Keeping<'a, R, E> {
    /// The keeper of the output in a folder, or of none.
    pub fn of(
        lines: &'a E,
        outputs: Option<Outputs<'a, R>>,
        folder: Option<&'a str>,
    ) -> Keeping<'a, R, E> {
        Keeping {
            lines,
            outputs: RefCell::new(outputs),
            folder: folder.unwrap_or(""),
            is_lacking: Cell::new(false),
            is_told: Cell::new(false),
            has_failed: Cell::new(false),
        }
    }

    /// Says that no output is kept, and why, once until a file was made again.
    fn tell_lack(&self, fault: Option<&io::Error>) {
        let Some(fault) = fault else {
            self.is_lacking.set(false);
            return;
        };
        if !self.is_lacking.replace(true) {
            let folder = self.folder;
            let _unheard = eprintln!(self.lines; "umd: {folder}: no output is kept: {fault}");
        }
    }

    /// Reports the failure of the files, once until a look found them in order.
    fn tell_failure(&self, failure: Option<Failure>) {
        let Some(Failure { number, error }) = failure else {
            return;
        };
        self.has_failed.set(true);
        if self.is_told.replace(true) {
            return;
        }
        let folder = self.folder;
        let _unheard = match number {
            Some(number) => {
                let number = number.get();
                eprintln!(self.lines;
                    "umd: {folder}: the output of process {number} isn't in order: {error}"
                )
            }
            None => eprintln!(self.lines; "umd: {folder}: output isn't in order: {error}"),
        };
    }
}

impl<'a, R: Files, E: Eprint> Keeps for Keeping<'a, R, E> {
    fn begin(&self, moment: Moment) {
        if let Ok(mut outputs) = self.outputs.try_borrow_mut() {
            if let Some(outputs) = outputs.as_mut() {
                outputs.begin(moment);
            }
        }
    }

    fn note_start(&self, number: ProcessNumber, fault: Option<&io::Error>) {
        if let Ok(mut outputs) = self.outputs.try_borrow_mut() {
            if let Some(outputs) = outputs.as_mut() {
                outputs.note_start(number);
                self.tell_lack(fault);
            }
        }
    }

    fn note_fate(&self, number: ProcessNumber, fate: Fate) {
        if let Ok(mut outputs) = self.outputs.try_borrow_mut() {
            if let Some(outputs) = outputs.as_mut() {
                outputs.note_fate(number, fate);
                self.tell_failure(outputs.take_failure());
            }
        }
    }

    fn settle(&self, state: &State) {
        if let Ok(mut outputs) = self.outputs.try_borrow_mut() {
            if let Some(outputs) = outputs.as_mut() {
                outputs.settle(state);
                self.tell_failure(outputs.take_failure());
            }
        }
    }

    fn tend(&self, state: &State, now: Instant) {
        if let Ok(mut outputs) = self.outputs.try_borrow_mut() {
            if let Some(outputs) = outputs.as_mut() {
                if outputs.tend(state, now) {
                    self.tell_failure(outputs.take_failure());
                    if !self.has_failed.replace(false) {
                        self.is_told.set(false);
                    }
                }
            }
        }
    }
}
