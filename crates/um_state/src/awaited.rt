//! For which reports units may wait, known without a look at any unit.

ghost use Rattle.std.specs.Prelude.{◌≡◌, ℕ, Some, IfOk};
ghost use Rattle.um_state.specs.Awaiting.{Has, HasAll, awaited_by, may_have};
ghost use Rattle.um_state.specs.Finding.{Finds};

use crate::finder::Finder;
use crate::live::LiveRows;
use std::alloc::{AllocError, Global};
use um_model::{ProcessNumber, UnitState};

/// The number of the process whose report a unit that stands so may wait for.
pub(crate) fn awaited_by(state: &UnitState) -> Option<ProcessNumber>
    ensures { result ≡ awaited_by state.now }
{
    if state.sub.waits_for_report() {
        state.main
    } else {
        None
    }
}

/// The numbers of processes whose reports units may wait for. It may include some that no unit waits for any more.
#[derive(Drop)]
pub(crate) struct Awaited {
    pub(crate) live: LiveRows,
    /// There was no room for one, so any number may be one. In a run there always is room.
    pub(crate) is_partial: bool,
}

impl Awaited {
    /// No number. It takes no memory.
    pub(crate) fn new(alloc: Global) -> Awaited {
        Awaited {
            live: LiveRows::new(alloc),
            is_partial: false,
        }
    }

    /// Whether the number may be one of them. It takes no memory.
    pub(crate) fn has(&self, number: u64) -> bool
        ensures { result ≡ may_have self.now number }
    {
        self.is_partial || self.live.row(number).is_some()
    }

    /// Adds the number that the row's unit may wait for when it stands so. It takes no memory.
    pub(crate) fn note(&mut self, row: usize, state: &UnitState)
        ensures keeps { (n : ℕ) → Has self.old n → Has self.new n }
        ensures has { (n : ℕ) → awaited_by state.now ≡ Some n → Has self.new n }
    {
        let Some(number) = awaited_by(state) else {
            return;
        };
        if self.has(number.get()) {
            return;
        }
        if !self.live.add(number.get(), row) {
            self.is_partial = true;
        }
    }

    /// Lets go of the number that a unit waited for, unless a unit still waits for it. It takes no memory.
    pub(crate) fn leave(&mut self, finder: &Finder, rows: &[UnitState], before: &UnitState)
        requires finds { Finds rows.now finder.now }
        requires all { HasAll rows.now self.old }
        ensures { HasAll rows.now self.new }
    {
        let Some(number) = awaited_by(before) else {
            return;
        };
        if finder.is_awaited(rows, number.get()) {
            return;
        }
        self.live.remove(number.get());
    }

    /// The numbers that the units of these rows may wait for. There is room for one of each row, and for one more: a row's new number is
    /// noted before its old one is let go.
    pub(crate) fn of(alloc: Global, rows: &[UnitState]) -> Result<Awaited, AllocError>
        ensures { IfOk result (HasAll rows.now) }
    {
        let mut awaited = Awaited {
            live: LiveRows::with_room(alloc, rows.len().saturating_add(1))?,
            is_partial: false,
        };
        for i in 0..rows.len() {
            awaited.note(i, &rows[i]);
        }
        Ok(awaited)
    }
}
