//! Units and pending jobs, in rows by number.

ghost use Rattle.std.specs.Prelude.{◌≡◌, ◌↔◌, ◌++◌, ◌<◌, false, ℕ, List, length, map, vec_len, is_some, Contains, IsTrue, MatchOption, IfOk, OnOk, OnErr, set as with_item};
ghost use Rattle.std.specs.Coded.{codes};
ghost use Rattle.std.specs.Cmp.Lexicographic.{slice_cmp};
ghost use Rattle.std.specs.FinMap as maps;
ghost use Rattle.std.specs.Ordering.{nat_cmp};
ghost use Rattle.um_model.specs.Jobs.{AreTidyJobs, jobs_shown, jobs_of_unit, no_jobs, with_jobs};
ghost use Rattle.um_model.specs.Machine.{IsOver, IsProcessOf, AreDeadlines};
ghost use Rattle.um_model.specs.Service.{AreTidyUnits, dead_unit, state_of_unit, with_unit};
ghost use Rattle.um_model.specs.Standing.{Table};
ghost use Rattle.um_model.specs.StateSpellings.{numbers_in};
ghost use Rattle.um_model.specs.declared.jobs.UnitJobs as unit_jobs;
ghost use Rattle.um_model.specs.declared.service.UnitState as unit;
ghost use Rattle.um_name.specs.Names.{AreAscending, IsApart, name_at};
ghost use Rattle.um_state.specs.Awaiting.{HasAll, IsUnawaited};
ghost use Rattle.um_state.specs.Finding.{Finds};
ghost use Rattle.um_state.specs.Shown.{job_of};
ghost use Rattle.um_state.specs.Tables.{jobs_by, jobs_put, unit_put, units_by};

use crate::awaited::Awaited;
use crate::finder::Finder;
use crate::maps::{hold, hold_jobs, push_keys};
use crate::named::names_with;
use crate::reply::JobShown;
use crate::rows::{
    deadlines_of, job_map_of, job_rows_in, jobs_told_by, push_held_jobs, push_held_units, shown_of,
    unit_map_of, unit_rows_in, units_told_by,
};
use std::alloc::{AllocError, Global};
use std::collections::BTreeMap;
use std::marker::Model;
use std::mem;
use um_model::{ProcessNumber, UnitJobs, UnitState};
use um_name::{Names, UnitName};
use um_timer::Timers;

/// Puts a row in the place of another, so that it is found by its processes' numbers and by the report that it waits for. It takes no
/// memory.
fn put(
    states: &mut Vec<UnitState>,
    finder: &mut Finder,
    awaited: &mut Awaited,
    i: usize,
    state: UnitState,
)
    requires within { i < vec_len states.old }
    requires found { Finds states.old.items finder.old }
    requires had { HasAll states.old.items awaited.old }
    ensures states { states.new.items ≡ with_item states.old.items i state }
    ensures finds { Finds states.new.items finder.new }
    ensures has { HasAll states.new.items awaited.new }
{
    let before = states[i];
    finder.note(states.as_slice(), i, &state);
    awaited.note(i, &state);
    states[i] = state;
    finder.leave(states.as_slice(), &before);
    awaited.leave(finder, states.as_slice(), &before);
}

/// The units of a state, by the numbers of their names. A name of which nothing is held may have a number too.
pub struct Units {
    pub(crate) alloc: Global,
    names: Names,
    states: Vec<UnitState>,
    finder: Finder,
    awaited: Awaited,
    ghost finds: { Finds states.items finder },
    ghost has: { HasAll states.items awaited },
}

impl Model for Units {
    ghost Value = { Table unit.UnitState };

    ghost coded = { Prim.hlevel (codes, maps.code) };

    ghost view = { λ u. record { names = u.names; held = units_by u.names u.states.items } };

    ghost invariant = { λ u. (vec_len u.states ≡ length u.names) × AreAscending u.names };
}

// One call for the prover, as for a `State`.
impl Drop for Units {
    fn drop(self) {
        let Units {
            alloc: _,
            names: _names,
            states: _states,
            finder: _finder,
            awaited: _awaited,
        } = self;
    }
}

impl Units {
    /// Nothing of any unit. It takes no memory.
    pub fn new(alloc: Global) -> Units
        ensures { result.held ≡ maps.empty }
    {
        Units {
            alloc,
            names: Names::new(),
            states: Vec::new(alloc),
            finder: Finder::new(alloc),
            awaited: Awaited::new(alloc),
        }
    }

    /// The units of these names, with these rows.
    fn made(alloc: Global, names: Names, states: Vec<UnitState>) -> Result<Units, AllocError>
        requires len { vec_len states ≡ length names }
        requires ascending { AreAscending names }
        ensures names { IfOk result (λ u. u.names ≡ names) }
        ensures held { IfOk result (λ u. u.held ≡ units_by names states.items) }
    {
        Ok(Units {
            alloc,
            names,
            finder: Finder::of(alloc, &states)?,
            awaited: Awaited::of(alloc, &states)?,
            states,
        })
    }

    /// The units of the map, numbered by these names.
    fn over(
        alloc: Global,
        names: Names,
        entries: &BTreeMap<UnitName, UnitState>,
    ) -> Result<Units, AllocError>
        ensures names { IfOk result (λ u. u.names ≡ names) }
        ensures held { IfOk result (λ u. AreTidyUnits (maps.from_entries {R = slice_cmp nat_cmp} entries.now.entries)
            → ((x : List ℕ) → IsApart names x → state_of_unit (maps.from_entries {R = slice_cmp nat_cmp} entries.now.entries) x ≡ dead_unit)
            → u.held ≡ maps.from_entries {R = slice_cmp nat_cmp} entries.now.entries) }
    {
        let states = unit_rows_in(alloc, &names, entries)?;
        Units::made(alloc, names, states)
    }

    /// The units of the map, numbered by its own names.
    pub(crate) fn of_map(
        alloc: Global,
        entries: &BTreeMap<UnitName, UnitState>,
    ) -> Result<Units, AllocError>
        ensures { IfOk result (λ u. AreTidyUnits (maps.from_entries {R = slice_cmp nat_cmp} entries.now.entries)
            → u.held ≡ maps.from_entries {R = slice_cmp nat_cmp} entries.now.entries) }
    {
        let mut keys = Vec::new(alloc);
        push_keys(&mut keys, entries)?;
        let names = Names::of(alloc, &keys)?;
        Units::over(alloc, names, entries)
    }

    /// The units of which anything is held, as a map by name.
    pub(crate) fn to_map(&self) -> Result<BTreeMap<UnitName, UnitState>, AllocError>
        ensures map { IfOk result (λ m. maps.from_entries {R = slice_cmp nat_cmp} m.entries ≡ self.now.held) }
        ensures tidy { AreTidyUnits self.now.held }
    {
        unit_map_of(self.alloc, &self.names, &self.states)
    }

    /// The same units, numbered by other names, which include each of which anything is held.
    pub fn renumbered(&self, names: &Names) -> Result<Units, AllocError>
        ensures names { IfOk result (λ u. u.names ≡ names.now) }
        ensures held { IfOk result (λ u. ((x : List ℕ) → IsApart names.now x → state_of_unit self.now.held x ≡ dead_unit) → u.held ≡ self.now.held) }
    {
        let entries = self.to_map()?;
        let names = names.copy()?;
        Units::over(self.alloc, names, &entries)
    }

    /// The names with their numbers.
    pub fn numbers(&self) -> &Names
        ensures names { result.now ≡ self.now.names }
        ensures ascending { AreAscending self.now.names }
    {
        &self.names
    }

    /// How each unit stands, by number.
    pub fn rows(&self) -> &[UnitState]
        ensures held { units_by self.now.names result.now ≡ self.now.held }
        ensures len { length result.now ≡ length self.now.names }
        ensures ascending { AreAscending self.now.names }
    {
        self.states.as_slice()
    }

    /// Exchanges the state of the unit with this number for the given one; past the last one nothing changes. It takes no memory.
    pub fn swap(&mut self, i: usize, state: &mut UnitState)
        ensures names { self.new.names ≡ self.old.names }
        ensures held { self.new.held ≡ unit_put self.old.names self.old.held i state.old }
        ensures back { unit_put self.new.names self.new.held i state.new ≡ self.old.held }
    {
        if i < self.states.len() {
            let before = self.states[i];
            put(
                &mut self.states,
                &mut self.finder,
                &mut self.awaited,
                i,
                *state,
            );
            *state = before;
        }
    }

    /// How the unit stands. It takes no memory.
    pub fn get(&self, unit: &UnitName) -> UnitState
        ensures state { result ≡ state_of_unit self.now.held unit.now }
        ensures tidy { AreTidyUnits self.now.held }
    {
        match self.names.number(unit) {
            Some(i) => self.states[i],
            None => UnitState::DEAD,
        }
    }

    /// Whether the state holds anything of the unit. It takes no memory.
    pub fn holds(&self, unit: &UnitName) -> bool
        ensures { result ≡ is_some (maps.get self.now.held unit.now) }
    {
        !self.get(unit).holds_nothing()
    }

    /// Appends the names of the units of which anything is held.
    pub(crate) fn push_names(&self, names: &mut Vec<UnitName>) -> Result<(), AllocError>
        ensures { OnOk result (names.new.items ≡ names.old.items ++ maps.keys self.now.held) }
    {
        push_held_units(names, &self.names, &self.states)
    }

    /// The names of the units of which anything is held.
    pub fn names(&self) -> Result<Vec<UnitName>, AllocError>
        ensures { IfOk result (λ names. names.items ≡ maps.keys self.now.held) }
    {
        let mut names = Vec::new(self.alloc);
        self.push_names(&mut names)?;
        Ok(names)
    }

    /// The units with one that had no number; all are numbered again.
    fn with(&self, unit: &UnitName, state: &UnitState) -> Result<Units, AllocError>
        ensures { IfOk result (λ u. u.held ≡ with_unit self.now.held unit.now state.now) }
    {
        let mut entries = self.to_map()?;
        hold(&mut entries, unit, state)?;
        let names = names_with(self.alloc, &self.names, unit)?;
        Units::over(self.alloc, names, &entries)
    }

    /// Sets how the unit stands; a dead unit of which nothing is known isn't held. If memory is refused, all is as before.
    pub fn set(&mut self, unit: &UnitName, state: UnitState) -> Result<(), AllocError>
        ensures ok { OnOk result (self.new.held ≡ with_unit self.old.held unit.now state) }
        ensures err { OnErr result (self.new ≡ self.old) }
    {
        let mut state = state;
        match self.names.number(unit) {
            Some(i) => self.swap(i, &mut state),
            None => *self = self.with(unit, &state)?,
        }
        Ok(())
    }

    /// The first row that has the number.
    fn place(&self, number: u64) -> Option<usize>
        ensures { MatchOption result (IsOver self.now.held number) (λ i. (i < length self.now.names) × IsProcessOf self.now.held number (name_at self.now.names i)) }
    {
        self.finder.row(&self.states, number)
    }

    /// The unit of the live process with this number; of several the one with the least name. It takes no memory.
    pub fn process(&self, number: u64) -> Option<&UnitName>
        ensures { MatchOption result (IsOver self.now.held number) (λ unit. IsProcessOf self.now.held number unit.now) }
    {
        match self.place(number) {
            Some(i) => match self.names.name(i) {
                Some(unit) => Some(unit),
                None => unreachable!(),
            },
            None => None,
        }
    }

    /// The numbers of the live processes, in any order. It looks at the units that have one. It looks at all units only if two had the same
    /// number or there was no room to note one; neither happens in a run.
    pub fn live(&self) -> Result<Vec<ProcessNumber>, AllocError>
        ensures { IfOk result (λ numbers. (n : ℕ) → Contains numbers.items n ↔ Contains (numbers_in self.now.held) n) }
    {
        if self.finder.is_partial {
            return self.processes();
        }
        self.finder.numbers(self.alloc, &self.states)
    }

    /// Whether any unit may wait for the report that the program of the process with this number runs. It takes no memory, and looks at no unit.
    pub fn may_await(&self, number: u64) -> bool
        ensures { result ≡ false → IsUnawaited self.now.held number }
    {
        self.awaited.has(number)
    }

    /// The deadlines of the units.
    pub fn deadlines(&self) -> Result<Timers, AllocError>
        ensures { IfOk result (λ timers. AreDeadlines self.now.held timers) }
    {
        deadlines_of(self.alloc, &self.names, &self.states)
    }

    /// Whether the other holds the same of each unit. It takes no memory.
    pub fn is_same(&self, other: &Units) -> bool
        ensures { IsTrue result ↔ (self.now.held ≡ other.now.held) }
    {
        units_told_by(&self.names, &self.states, other)
            && units_told_by(&other.names, &other.states, self)
    }

    /// A copy, with the same numbers.
    pub fn copy(&self) -> Result<Units, AllocError>
        ensures { IfOk result (λ u. u ≡ self.now) }
    {
        let names = self.names.copy()?;
        Units::made(self.alloc, names, self.states.clone()?)
    }
}

/// The pending jobs of units, by the numbers of their names. A name without a pending job may have a number too.
pub struct Pending {
    alloc: Global,
    names: Names,
    jobs: Vec<UnitJobs>,
}

impl Model for Pending {
    ghost Value = { Table unit_jobs.UnitJobs };

    ghost coded = { Prim.hlevel (codes, maps.code) };

    ghost view = { λ p. record { names = p.names; held = jobs_by p.names p.jobs.items } };

    ghost invariant = { λ p. (vec_len p.jobs ≡ length p.names) × AreAscending p.names };
}

// One call for the prover, as for a `State`.
impl Drop for Pending {
    fn drop(self) {
        let Pending {
            alloc: _,
            names: _names,
            jobs: _jobs,
        } = self;
    }
}

impl Pending {
    /// No job. It takes no memory.
    pub fn new(alloc: Global) -> Pending
        ensures { result.held ≡ maps.empty }
    {
        Pending {
            alloc,
            names: Names::new(),
            jobs: Vec::new(alloc),
        }
    }

    /// The jobs of the map, by these names.
    fn over(
        alloc: Global,
        names: Names,
        entries: &BTreeMap<UnitName, UnitJobs>,
    ) -> Result<Pending, AllocError>
        ensures names { IfOk result (λ p. p.names ≡ names) }
        ensures held { IfOk result (λ p. AreTidyJobs (maps.from_entries {R = slice_cmp nat_cmp} entries.now.entries)
            → ((x : List ℕ) → IsApart names x → jobs_of_unit (maps.from_entries {R = slice_cmp nat_cmp} entries.now.entries) x ≡ no_jobs)
            → p.held ≡ maps.from_entries {R = slice_cmp nat_cmp} entries.now.entries) }
    {
        let jobs = job_rows_in(alloc, &names, entries)?;
        Ok(Pending { alloc, names, jobs })
    }

    /// The jobs of the map, by the names that it has.
    pub(crate) fn of_map(
        alloc: Global,
        entries: &BTreeMap<UnitName, UnitJobs>,
    ) -> Result<Pending, AllocError>
        ensures { IfOk result (λ p. AreTidyJobs (maps.from_entries {R = slice_cmp nat_cmp} entries.now.entries)
            → p.held ≡ maps.from_entries {R = slice_cmp nat_cmp} entries.now.entries) }
    {
        let mut keys = Vec::new(alloc);
        push_keys(&mut keys, entries)?;
        let names = Names::of(alloc, &keys)?;
        Pending::over(alloc, names, entries)
    }

    /// The jobs of the units of which one is pending, as a map by name.
    fn to_map(&self) -> Result<BTreeMap<UnitName, UnitJobs>, AllocError>
        ensures map { IfOk result (λ m. maps.from_entries {R = slice_cmp nat_cmp} m.entries ≡ self.now.held) }
        ensures tidy { AreTidyJobs self.now.held }
    {
        job_map_of(self.alloc, &self.names, &self.jobs)
    }

    /// The same jobs, numbered by other names, which include each unit of which a job is pending.
    pub fn renumbered(&self, names: &Names) -> Result<Pending, AllocError>
        ensures names { IfOk result (λ p. p.names ≡ names.now) }
        ensures held { IfOk result (λ p. ((x : List ℕ) → IsApart names.now x → jobs_of_unit self.now.held x ≡ no_jobs) → p.held ≡ self.now.held) }
    {
        let entries = self.to_map()?;
        let names = names.copy()?;
        Pending::over(self.alloc, names, &entries)
    }

    /// The names with their numbers.
    pub fn numbers(&self) -> &Names
        ensures names { result.now ≡ self.now.names }
        ensures ascending { AreAscending self.now.names }
        ensures tidy { AreTidyJobs self.now.held }
    {
        &self.names
    }

    /// The pending jobs of each unit, by number.
    pub fn rows(&self) -> &[UnitJobs]
        ensures held { jobs_by self.now.names result.now ≡ self.now.held }
        ensures len { length result.now ≡ length self.now.names }
        ensures ascending { AreAscending self.now.names }
    {
        self.jobs.as_slice()
    }

    /// Exchanges the pending jobs of the unit with this number for the given ones; past the last one nothing changes. It takes no memory.
    pub fn swap(&mut self, i: usize, jobs: &mut UnitJobs)
        ensures names { self.new.names ≡ self.old.names }
        ensures held { self.new.held ≡ jobs_put self.old.names self.old.held i jobs.old }
        ensures back { jobs_put self.new.names self.new.held i jobs.new ≡ self.old.held }
    {
        if i < self.jobs.len() {
            mem::swap(&mut self.jobs[i], jobs);
        }
    }

    /// The pending jobs of the unit. It takes no memory.
    pub fn get(&self, unit: &UnitName) -> UnitJobs
        ensures jobs { result ≡ jobs_of_unit self.now.held unit.now }
        ensures tidy { AreTidyJobs self.now.held }
    {
        match self.names.number(unit) {
            Some(i) => self.jobs[i],
            None => UnitJobs::NONE,
        }
    }

    /// Whether a job of the unit is pending. It takes no memory.
    pub fn holds(&self, unit: &UnitName) -> bool
        ensures { result ≡ is_some (maps.get self.now.held unit.now) }
    {
        self.get(unit).has_job()
    }

    /// Appends the names of the units of which a job is pending.
    pub(crate) fn push_names(&self, names: &mut Vec<UnitName>) -> Result<(), AllocError>
        ensures { OnOk result (names.new.items ≡ names.old.items ++ maps.keys self.now.held) }
    {
        push_held_jobs(names, &self.names, &self.jobs)
    }

    /// The jobs with those of a unit that had no number; all are numbered again.
    fn with(&self, unit: &UnitName, jobs: UnitJobs) -> Result<Pending, AllocError>
        ensures { IfOk result (λ p. p.held ≡ with_jobs self.now.held unit.now jobs) }
    {
        let mut entries = self.to_map()?;
        hold_jobs(&mut entries, unit, jobs)?;
        let names = names_with(self.alloc, &self.names, unit)?;
        Pending::over(self.alloc, names, &entries)
    }

    /// Sets the pending jobs of the unit. If memory is refused, all is as before.
    pub fn set(&mut self, unit: &UnitName, jobs: UnitJobs) -> Result<(), AllocError>
        ensures ok { OnOk result (self.new.held ≡ with_jobs self.old.held unit.now jobs) }
        ensures err { OnErr result (self.new ≡ self.old) }
    {
        let mut jobs = jobs;
        match self.names.number(unit) {
            Some(i) => self.swap(i, &mut jobs),
            None => *self = self.with(unit, jobs)?,
        }
        Ok(())
    }

    /// The pending jobs as replies show them: in the order of the names of their units, a unit's stop job first.
    pub fn shown(&self) -> Result<Vec<JobShown>, AllocError>
        ensures { IfOk result (λ shown. map job_of shown.items ≡ jobs_shown self.now.held) }
    {
        shown_of(self.alloc, &self.names, &self.jobs)
    }

    /// Whether the other holds the same jobs. It takes no memory.
    pub fn is_same(&self, other: &Pending) -> bool
        ensures { IsTrue result ↔ (self.now.held ≡ other.now.held) }
    {
        jobs_told_by(&self.names, &self.jobs, other)
            && jobs_told_by(&other.names, &other.jobs, self)
    }

    /// A copy, with the same numbers.
    pub fn copy(&self) -> Result<Pending, AllocError>
        ensures { IfOk result (λ p. p ≡ self.now) }
    {
        Ok(Pending {
            alloc: self.alloc,
            names: self.names.copy()?,
            jobs: self.jobs.clone()?,
        })
    }
}
