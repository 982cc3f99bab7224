//! The row that has a process number, found without a look at all rows.

ghost use Rattle.std.specs.Prelude.{◌≡◌, ◌⊎◌, ◌↔◌, ℕ, [], true, false, Some, None, Contains, IfOk, MatchOption, OnOk};
ghost use Rattle.um_model.specs.Transitions.{HasNumber};
ghost use Rattle.um_state.specs.Awaiting.{NoneAwaits};
ghost use Rattle.um_state.specs.Finding.{Finds, IsFirstWith, IsHad, IsTold, NoneHas, Tells, row_at};
ghost use Rattle.um_state.specs.LiveRows.{told};

use crate::awaited::awaited_by;
use crate::live::{Live, LiveRows};
use std::alloc::{AllocError, Global};
use um_model::{ProcessNumber, UnitState};

/// How the unit of the row with this number stands; past the last one it is dead. It takes no memory.
pub(crate) fn row_in(rows: &[UnitState], i: usize) -> UnitState
    ensures { result ≡ row_at rows.now i }
{
    match rows.get(i) {
        Some(state) => *state,
        None => UnitState::DEAD,
    }
}

/// The first row that has the number.
pub(crate) fn first_with(rows: &[UnitState], number: u64) -> Option<usize>
    ensures { MatchOption result (NoneHas rows.now number) (IsFirstWith rows.now number) }
{
    for i in 0..rows.len() {
        if rows[i].has_number(number) {
            return Some(i);
        }
    }
    None
}

/// The row, if it has the number.
fn row_with(rows: &[UnitState], row: usize, number: u64) -> Option<usize>
    ensures { MatchOption result (¬ HasNumber (row_at rows.now row) number) (λ i. (i ≡ row) × HasNumber (row_at rows.now row) number) }
{
    if row_in(rows, row).has_number(number) {
        Some(row)
    } else {
        None
    }
}

/// The process with the number of a unit that stands so.
fn process_with(state: UnitState, number: u64) -> Option<ProcessNumber>
    ensures { MatchOption result (¬ HasNumber state number) (λ n. (n ≡ number) × HasNumber state number) }
{
    if let Some(main) = state.main {
        if main.get() == number {
            return Some(main);
        }
    }
    if let Some(control) = state.control {
        if control.get() == number {
            return Some(control);
        }
    }
    None
}

/// Appends the number if its row still has it.
fn push_live(
    numbers: &mut Vec<ProcessNumber>,
    rows: &[UnitState],
    live: Live,
) -> Result<(), AllocError>
    ensures { OnOk result ((n : ℕ) → Contains numbers.new.items n ↔ (Contains numbers.old.items n ⊎ IsTold rows.now live n)) }
{
    if let Some(process) = process_with(row_in(rows, live.row), live.number) {
        numbers.push(process)?;
    }
    Ok(())
}

/// The row of each live number. An entry for a number that no row has any more may stay.
#[derive(Drop)]
pub(crate) struct Finder {
    pub(crate) live: LiveRows,
    /// Numbers are left out: two units had the same one, or there was no room for one. Neither happens in a run. All rows are looked
    /// through then.
    pub(crate) is_partial: bool,
}

impl Finder {
    /// The finder of no row. It takes no memory.
    pub(crate) fn new(alloc: Global) -> Finder
        ensures { result.live.list.items ≡ [] }
    {
        Finder {
            live: LiveRows::new(alloc),
            is_partial: false,
        }
    }

    /// Adds the row of a number. If the number has another row, or there is no room, all rows are looked through from now on. It takes no
    /// memory.
    fn add_number(&mut self, row: usize, number: Option<ProcessNumber>)
        ensures keeps { (other n : ℕ) → Tells self.old other n → Tells self.new other n }
        ensures told { (n : ℕ) → number ≡ Some n → Tells self.new row n }
    {
        let Some(number) = number else {
            return;
        };
        match self.live.row(number.get()) {
            Some(told) => {
                if told != row {
                    self.is_partial = true;
                }
            }
            None => {
                if !self.live.add(number.get(), row) {
                    self.is_partial = true;
                }
            }
        }
    }

    /// Adds the numbers of a row. It takes no memory.
    fn add(&mut self, row: usize, state: &UnitState)
        ensures keeps { (other n : ℕ) → Tells self.old other n → Tells self.new other n }
        ensures told { (n : ℕ) → HasNumber state.now n → Tells self.new row n }
    {
        self.add_number(row, state.main);
        self.add_number(row, state.control);
    }

    /// Whether the number is recorded for a row that doesn't have it.
    fn is_over(&self, rows: &[UnitState], number: u64) -> bool
        ensures over { result ≡ true → (i : ℕ) → told self.now.live.list.items number ≡ Some i → ¬ HasNumber (row_at rows.now i) number }
        ensures held { result ≡ false → (i : ℕ) → told self.now.live.list.items number ≡ Some i → HasNumber (row_at rows.now i) number }
    {
        match self.live.row(number) {
            Some(row) => !row_in(rows, row).has_number(number),
            None => false,
        }
    }

    /// Lets go of a number that its row no longer has. It takes no memory.
    fn let_go(&mut self, rows: &[UnitState], number: Option<ProcessNumber>)
        requires { Finds rows.now self.old }
        ensures finds { Finds rows.now self.new }
        ensures left { (i n : ℕ) → number ≡ Some n → told self.new.live.list.items n ≡ Some i → HasNumber (row_at rows.now i) n }
        ensures others { (i n : ℕ) → told self.new.live.list.items n ≡ Some i → told self.old.live.list.items n ≡ Some i }
    {
        if let Some(number) = number {
            if self.is_over(rows, number.get()) {
                self.live.remove(number.get());
            }
        }
    }

    /// Notes the numbers of a row that is to stand so, after letting go of those that another row may have left. It takes no memory.
    pub(crate) fn note(&mut self, rows: &[UnitState], row: usize, state: &UnitState)
        requires { Finds rows.now self.old }
        ensures finds { Finds rows.now self.new }
        ensures told { (n : ℕ) → HasNumber state.now n → Tells self.new row n }
    {
        self.let_go(rows, state.main);
        self.let_go(rows, state.control);
        self.add(row, state);
    }

    /// Lets go of the numbers that a row had, other than those that it still has. It takes no memory.
    pub(crate) fn leave(&mut self, rows: &[UnitState], before: &UnitState)
        requires { Finds rows.now self.old }
        ensures finds { Finds rows.now self.new }
        ensures left { (i n : ℕ) → HasNumber before.now n → told self.new.live.list.items n ≡ Some i → HasNumber (row_at rows.now i) n }
    {
        self.let_go(rows, before.main);
        self.let_go(rows, before.control);
    }

    /// Whether a row may wait for the report of the process with the number. It takes no memory.
    pub(crate) fn is_awaited(&self, rows: &[UnitState], number: u64) -> bool
        requires { Finds rows.now self.now }
        ensures { result ≡ false → NoneAwaits rows.now number }
    {
        if self.is_partial {
            return true;
        }
        match self.live.row(number) {
            Some(row) => awaited_by(&row_in(rows, row)).is_some(),
            None => false,
        }
    }

    /// The first row that has the number. It takes no memory.
    pub(crate) fn row(&self, rows: &[UnitState], number: u64) -> Option<usize>
        requires { Finds rows.now self.now }
        ensures { MatchOption result (NoneHas rows.now number) (IsFirstWith rows.now number) }
    {
        if self.is_partial {
            return first_with(rows, number);
        }
        match self.live.row(number) {
            Some(row) => row_with(rows, row, number),
            None => None,
        }
    }

    /// The numbers that rows have, if none is left out. It looks only at recorded rows.
    pub(crate) fn numbers(
        &self,
        alloc: Global,
        rows: &[UnitState],
    ) -> Result<Vec<ProcessNumber>, AllocError>
        requires finds { Finds rows.now self.now }
        requires whole { self.now.is_partial ≡ false }
        ensures { IfOk result (λ numbers. (n : ℕ) → Contains numbers.items n ↔ IsHad rows.now n) }
    {
        let mut numbers = Vec::new(alloc);
        for live in self.live.list.iter() {
            push_live(&mut numbers, rows, *live)?;
        }
        Ok(numbers)
    }

    /// The finder of these rows. There is room for the two numbers of each, and for two more: a row's new ones are noted before its old
    /// ones are let go.
    pub(crate) fn of(alloc: Global, rows: &[UnitState]) -> Result<Finder, AllocError>
        ensures { IfOk result (Finds rows.now) }
    {
        let room = rows.len().saturating_mul(2).saturating_add(2);
        let mut finder = Finder {
            live: LiveRows::with_room(alloc, room)?,
            is_partial: false,
        };
        for i in 0..rows.len() {
            finder.add(i, &rows[i]);
        }
        Ok(finder)
    }
}
