//! The changes of a step, row by row, and the way back.

ghost use Rattle.std.specs.Prelude.{◌≡◌, IfOk, vec_len};
ghost use Rattle.um_state.specs.Deltas.{delta_after, delta_before};
ghost use Rattle.um_state.specs.Rows.{rows_after, rows_before, timed};
ghost use Rattle.um_state.specs.View.{state_of};
ghost use Rattle.um_state.specs.Working.{CountsDiffering};

use crate::row::Row;
use crate::state::State;
use crate::work::Work;
use std::alloc::{AllocError, Global};
use um_model::{Moment, NextNumber};

/// The changes of a state: the rows that differ, the moment and the next process number.
#[derive(Drop)]
pub struct Delta {
    rows: Vec<Row>,
    clock: Moment,
    next: NextNumber,
}

/// Exchanges the rows for those of the state, one after another.
fn swap_rows(state: &mut State, rows: &mut [Row])
    ensures state { state.new ≡ rows_after rows.old state.old }
    ensures back { rows_before rows.new state.new ≡ state.old }
{
    for row in rows.iter_mut() {
        state.swap_row(row);
    }
}

impl Delta {
    /// The delta from the beginning of the work to its present rows, at that moment.
    pub fn of(alloc: Global, work: &Work<'_>, clock: Moment) -> Result<Delta, AllocError>
        ensures after { IfOk result (λ d. delta_after d work.now.base ≡ timed clock (state_of work.now.now).next work.now.now) }
        ensures count { IfOk result (λ d. CountsDiffering (state_of work.now.base) (state_of (delta_after d work.now.base)) (vec_len d.rows)) }
    {
        let next = work.next();
        let rows = work.changed(alloc)?;
        Ok(Delta { rows, clock, next })
    }

    /// The number of rows that differ.
    pub fn len(&self) -> usize
        ensures { result ≡ vec_len self.now.rows }
    {
        self.rows.len()
    }

    /// The rows, one for each unit that differs.
    pub fn rows(&self) -> &[Row]
        ensures { result.now ≡ self.now.rows.items }
    {
        self.rows.as_slice()
    }

    /// Exchanges its rows, moment and next number for those of the state, which are the way back. It takes no memory, and always succeeds.
    pub fn swap(&mut self, state: &mut State)
        ensures state { state.new ≡ delta_after self.old state.old }
        ensures back { delta_before self.new state.new ≡ state.old }
    {
        let clock = state.clock();
        let next = state.next();
        state.set_times(self.clock, self.next);
        self.clock = clock;
        self.next = next;
        swap_rows(state, &mut self.rows);
    }

    /// Takes the way back. It takes no memory, and always succeeds.
    pub fn undo(self, state: &mut State)
        ensures { state.new ≡ delta_before self state.old }
    {
        let Delta {
            mut rows,
            clock,
            next,
        } = self;
        while let Some(row) = rows.pop() {
            state.put_row(row);
        }
        state.set_times(clock, next);
    }
}
