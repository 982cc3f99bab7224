//! The rows of a state in work, and which of them differ by now.

ghost use Rattle.std.specs.Prelude.{◌≡◌, ◌<◌, ◌≤◌, ◌++◌, ◌∷◌, ◌&&◌, [], ℕ, List, length, vec_len, not, is_some, IfOk, IfSome, MatchOption, OnOk, if◌then◌else◌};
ghost use Rattle.std.specs.Coded.{codes};
ghost use Rattle.std.specs.FinMap as maps;
ghost use Rattle.um_model.specs.Jobs.{AreTidyJobs, jobs_of_unit, no_jobs};
ghost use Rattle.um_model.specs.Service.{AreTidyUnits, dead_unit, state_of_unit};
ghost use Rattle.um_name.specs.Names.{HasPlace, IsApart, name_at};
ghost use Rattle.um_state.specs.Finding.{row_at};
ghost use Rattle.um_state.specs.Rows.{rows_after, timed};
ghost use Rattle.um_state.specs.Tables.{jobs_by};
ghost use Rattle.um_state.specs.View.{state_of};
ghost use Rattle.um_state.specs.Working.{AreRowsOf, CountsDiffering, KeepUnmarked, WorkView, changed, is_same_jobs, is_same_unit, jobs_set, next_set, pending_at, unit_set, with_rows};
ghost use Rattle.um_tree.specs.Code.{tree_code};

use crate::overlay::Overlay;
use crate::row::{Numbered, Row};
use crate::state::State;
use std::alloc::{AllocError, Global};
use std::marker::Model;
use um_model::{NextNumber, UnitJobs, UnitState};
use um_name::UnitName;

/// The rows of a state, some of them changed by now, and the next process number.
#[derive(Drop)]
pub struct Work<'s> {
    base: &'s State,
    was: Numbered<'s>,
    units: Overlay<'s>,
    jobs: Vec<UnitJobs>,
    /// By number: whether the row was set. The others are unchanged.
    marked: Vec<bool>,
    next: NextNumber,
}

impl<'s> Model for Work<'s> {
    ghost Value = { WorkView };

    ghost coded = { Prim.hlevel (codes, maps.code, tree_code) };

    ghost view = { λ w. record { base = w.base.now; now = with_rows w.base.now w.units.now w.jobs.items w.next } };

    ghost invariant = { λ w. (w.units.was ≡ w.was.units.now) × (length w.units.now ≡ length w.base.now.names) × (vec_len w.jobs ≡ length w.base.now.names) × AreRowsOf w.base.now w.was
        × (vec_len w.marked ≡ length w.base.now.names) × KeepUnmarked w.marked.items w.was.units.now w.was.jobs.now w.units.now w.jobs.items };
}

/// The pending jobs of the unit of the row with this number; past the last one there are none. It takes no memory.
fn jobs_in_row(rows: &[UnitJobs], i: usize) -> UnitJobs
    ensures { result ≡ pending_at rows.now i }
{
    match rows.get(i) {
        Some(jobs) => *jobs,
        None => UnitJobs::NONE,
    }
}

/// Whether the row with this number differs from the old one.
fn differs(units: &Overlay<'_>, number: usize, had: UnitJobs, jobs: UnitJobs) -> bool
    ensures { result ≡ not (is_same_unit (row_at units.now.was number) (row_at units.now.now number) && is_same_jobs had jobs) }
{
    units.is_changed(number) || had != jobs
}

/// Notes the row with this number if it differs from the old one.
fn note_change(
    rows: &mut Vec<Row>,
    units: &Overlay<'_>,
    number: usize,
    had: UnitJobs,
    jobs: UnitJobs,
) -> Result<(), AllocError>
    ensures { OnOk result (rows.new.items
        ≡ rows.old.items ++ (if not (is_same_unit (row_at units.now.was number) (row_at units.now.now number) && is_same_jobs had jobs)
        then record { number = number; unit = row_at units.now.now number; jobs = jobs } ∷ [] else [])) }
{
    if !differs(units, number, had, jobs) {
        return Ok(());
    }
    rows.push(Row {
        number,
        unit: units.at(number),
        jobs,
    })?;
    Ok(())
}

/// The rows that differ: only those with a mark are looked at.
fn changed_rows(
    alloc: Global,
    marked: &[bool],
    units: &Overlay<'_>,
    had: &[UnitJobs],
    jobs: &[UnitJobs],
) -> Result<Vec<Row>, AllocError>
    requires marks { length marked.now ≡ length jobs.now }
    requires len { length had.now ≡ length jobs.now }
    requires kept { KeepUnmarked marked.now units.now.was had.now units.now.now jobs.now }
    ensures { IfOk result (λ rows. rows.items ≡ changed units.now.was had.now units.now.now jobs.now (length jobs.now)) }
{
    let mut rows = Vec::new(alloc);
    for number in 0..jobs.len() {
        if marked[number] {
            note_change(&mut rows, units, number, had[number], jobs[number])?;
        }
    }
    Ok(rows)
}

impl<'s> Work<'s> {
    /// The rows of the state. None exactly if its units and pending jobs don't share their numbers.
    pub fn of(alloc: Global, base: &'s State) -> Result<Option<Work<'s>>, AllocError>
        ensures common { IfOk result (λ made. is_some made ≡ base.now.common) }
        ensures base { IfOk result (λ made. IfSome made (λ w. w.base ≡ base.now)) }
        ensures now { IfOk result (λ made. IfSome made (λ w. w.now ≡ base.now)) }
    {
        let Some(was) = base.numbered() else {
            return Ok(None);
        };
        let marked = vec![in alloc; false; was.jobs.len()]?;
        Ok(Some(Work {
            base,
            was,
            units: Overlay::of(alloc, was.units)?,
            jobs: Vec::from_slice(alloc, was.jobs)?,
            marked,
            next: base.next(),
        }))
    }

    /// The number of the unit's name. It takes no memory.
    pub fn number(&self, unit: &UnitName) -> Option<usize>
        ensures { MatchOption result (IsApart self.now.now.names unit.now) (HasPlace self.now.now.names unit.now) }
    {
        self.was.names.number(unit)
    }

    /// How the unit with this number stands; past the last one it is dead. It takes no memory.
    pub fn unit(&self, i: usize) -> UnitState
        ensures state { i < length self.now.now.names → result ≡ state_of_unit (state_of self.now.now).units (name_at self.now.now.names i) }
        ensures past { length self.now.now.names ≤ i → result ≡ dead_unit }
        ensures tidy { AreTidyUnits (state_of self.now.now).units }
    {
        self.units.at(i)
    }

    /// The pending jobs of the unit with this number; past the last one there are none. It takes no memory.
    pub fn jobs(&self, i: usize) -> UnitJobs
        ensures jobs { i < length self.now.now.names → result ≡ jobs_of_unit (state_of self.now.now).pending (name_at self.now.now.names i) }
        ensures past { length self.now.now.names ≤ i → result ≡ no_jobs }
        ensures tidy { AreTidyJobs (state_of self.now.now).pending }
    {
        jobs_in_row(&self.jobs, i)
    }

    /// The pending jobs of each unit, by number.
    pub fn pending(&self) -> &[UnitJobs]
        ensures held { jobs_by self.now.now.names result.now ≡ (state_of self.now.now).pending }
        ensures len { length result.now ≡ length self.now.now.names }
    {
        self.jobs.as_slice()
    }

    /// The number of the next process that starts.
    pub fn next(&self) -> NextNumber
        ensures { result ≡ (state_of self.now.now).next }
    {
        self.next
    }

    /// Sets how the unit with this number stands; past the last one nothing changes. It takes no memory.
    pub fn set_unit(&mut self, i: usize, unit: UnitState)
        ensures base { self.new.base ≡ self.old.base }
        ensures now { self.new.now ≡ unit_set self.old.now i unit }
    {
        if i < self.units.len() {
            self.units.set(i, unit);
            self.marked[i] = true;
        }
    }

    /// Sets the pending jobs of the unit with this number; past the last one nothing changes. It takes no memory.
    pub fn set_jobs(&mut self, i: usize, jobs: UnitJobs)
        ensures base { self.new.base ≡ self.old.base }
        ensures now { self.new.now ≡ jobs_set self.old.now i jobs }
    {
        if i < self.jobs.len() {
            self.jobs[i] = jobs;
            self.marked[i] = true;
        }
    }

    /// Sets the next process number.
    pub fn set_next(&mut self, next: NextNumber)
        ensures base { self.new.base ≡ self.old.base }
        ensures now { self.new.now ≡ next_set self.old.now next }
    {
        self.next = next;
    }

    /// The rows that differ from those of the state.
    pub fn changed(&self, alloc: Global) -> Result<Vec<Row>, AllocError>
        ensures after { IfOk result (λ rows. (clock next : ℕ) → rows_after rows.items (timed clock next self.now.base) ≡ timed clock next self.now.now) }
        ensures count { IfOk result (λ rows. CountsDiffering (state_of self.now.base) (state_of self.now.now) (vec_len rows)) }
    {
        changed_rows(alloc, &self.marked, &self.units, self.was.jobs, &self.jobs)
    }
}
