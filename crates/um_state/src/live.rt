//! Live numbers with their rows, in ascending order, in room that is made once.

ghost use Rattle.std.specs.Prelude.{◌≡◌, ◌≢◌, ◌<◌, ◌≤◌, [], ℕ, length, true, false, None, Some, IfOk, MatchOption, vec_len, vec_capacity};
ghost use Rattle.um_state.specs.LiveRows.{IsRising, StandsAt, live_number, told};

use std::alloc::{AllocError, Global};

/// A live number, and the row that has it.
#[derive(Clone, Copy)]
pub(crate) struct Live {
    pub(crate) number: u64,
    pub(crate) row: usize,
}

/// The number of entries with a lower number. It halves the list at each step, so its time is logarithmic in the length.
fn lower_than(list: &[Live], number: u64) -> usize
    requires { IsRising list.now }
    ensures within { result ≤ length list.now }
    ensures lower { (i : ℕ) → i < result → live_number list.now i < number }
    ensures others { (i : ℕ) → result ≤ i → i < length list.now → number ≤ live_number list.now i }
{
    let mut low = 0;
    let mut high = list.len();
    while low < high {
        let middle = low + (high - low) / 2;
        if list[middle].number < number {
            low = middle + 1;
        } else {
            high = middle;
        }
    }
    low
}

/// The place of the number.
fn place_of(list: &[Live], number: u64) -> Option<usize>
    requires { IsRising list.now }
    ensures { MatchOption result (told list.now number ≡ None) (StandsAt list.now number) }
{
    let i = lower_than(list, number);
    if i < list.len() && list[i].number == number {
        Some(i)
    } else {
        None
    }
}

/// The rows of live numbers, each number once.
#[derive(Drop)]
pub(crate) struct LiveRows {
    pub(crate) list: Vec<Live>,
    ghost rising: { IsRising list.items },
}

impl LiveRows {
    /// No entry, and room for none. It takes no memory.
    pub(crate) fn new(alloc: Global) -> LiveRows
        ensures { result.list.items ≡ [] }
    {
        LiveRows {
            list: Vec::new(alloc),
        }
    }

    /// No entry, with room for `room` of them.
    pub(crate) fn with_room(alloc: Global, room: usize) -> Result<LiveRows, AllocError>
        ensures none { IfOk result (λ live. live.list.items ≡ []) }
        ensures room { IfOk result (λ live. vec_capacity live.list ≡ room) }
    {
        let list = Vec::with_capacity(alloc, room)?;
        Ok(LiveRows { list })
    }

    /// The row of the number. It takes no memory.
    pub(crate) fn row(&self, number: u64) -> Option<usize>
        ensures { result ≡ told self.now.list.items number }
    {
        match place_of(&self.list, number) {
            Some(i) => Some(self.list[i].row),
            None => None,
        }
    }

    /// Adds the row of a number that has none, if there is room, and returns whether there was. It takes no memory.
    pub(crate) fn add(&mut self, number: u64, row: usize) -> bool
        requires { told self.old.list.items number ≡ None }
        ensures others { (n : ℕ) → n ≢ number → told self.new.list.items n ≡ told self.old.list.items n }
        ensures told { result ≡ true → told self.new.list.items number ≡ Some row }
        ensures full { result ≡ false → vec_capacity self.old.list ≤ vec_len self.old.list }
        ensures room { vec_capacity self.old.list ≤ vec_capacity self.new.list }
    {
        if self.list.len() >= self.list.capacity() {
            return false;
        }
        let i = lower_than(&self.list, number);
        match self.list.insert(i, Live { number, row }) {
            Ok(()) => true,
            Err(_) => unreachable!(),
        }
    }

    /// Lets go of the number. It takes no memory.
    pub(crate) fn remove(&mut self, number: u64)
        ensures others { (n : ℕ) → n ≢ number → told self.new.list.items n ≡ told self.old.list.items n }
        ensures gone { told self.new.list.items number ≡ None }
        ensures room { vec_capacity self.new.list ≡ vec_capacity self.old.list }
    {
        if let Some(i) = place_of(&self.list, number) {
            self.list.remove(i);
        }
    }
}
