//! The pending jobs of the units of a graph, and which of them begins next (systemd.unit(5), "Before=, After=").

ghost use Rattle.std.specs.Prelude.{◌≡◌, ◌↔◌, ◌<◌, true, false, ℕ, IfErr, IfOk, IfSome, IsOk, MatchOption, OnErr, OnOk, length, replicate};
ghost use Rattle.um_jobs.specs.Jobs as told;
ghost use Rattle.um_jobs.specs.Jobs.{IsReadyIn, JobsView, held_at, job_named, with_held_at, with_jobs_at, without_job};
ghost use Rattle.um_model.specs.Waiting.{has_waiting};
ghost use Rattle.um_jobs.specs.Named.{jobs_at};
ghost use Rattle.um_model.specs.Jobs as model;
ghost use Rattle.um_model.specs.Jobs.{IsToldBefore, Job, no_jobs};
ghost use Rattle.um_model.specs.Least.{IsLeast};
ghost use Rattle.um_model.specs.Refusals as refused;
ghost use Rattle.um_model.specs.declared.jobs.JobState.TheVariants.{Running, Waiting};
ghost use Rattle.um_wire.specs.Refusal.{refused_of};
ghost use Rattle.um_wire.specs.declared.refusal.Refusal.TheVariants.{NoMemory};

use crate::counts::Blockers;
use crate::least::LeastSet;
use crate::marks::{change, change_all, is_stop_free, mark};
use crate::rows::{is_held, next_ready, passed_with, still_passed};
use crate::table::{has_waiting, jobs_of, put_all, without_waiting};
use std::alloc::{AllocError, Global};
use std::marker::Model;
use um_graph::Graph;
use um_model::{JobKind, JobState, UnitJobs};
use um_name::UnitName;
use um_wire::{Refusal, no_such_job};

/// The counts of pending jobs.
#[derive(Drop)]
struct Counted {
    /// For each unit the number of its neighbours' pending jobs before its own.
    blockers: Vec<Blockers>,
    /// The units that have a ready job.
    ready: LeastSet,
}

/// The pending jobs of the units of a graph by their numbers, and which units count as deactivating. A number past the last unit
/// is that of a unit without jobs, and nothing changes it.
///
/// A ready job is found by going over the units, until `count` has counted the jobs before each of them. The count costs as much as a few
/// such searches, and makes each later change dearer, but a search then costs next to nothing.
pub struct Jobs<'g> {
    graph: &'g Graph,
    units: Vec<UnitJobs>,
    held: Vec<bool>,
    counted: Option<Counted>,
    /// The first `passed` units are known to have no ready job.
    passed: usize,
}

impl<'g> Model for Jobs<'g> {
    ghost use Rattle.std.specs.Prelude.{IfSome};
    ghost use Rattle.um_jobs.specs.Counts.{IsKept, IsTable};
    ghost use Rattle.um_jobs.specs.Jobs.{JobsView};
    ghost use Rattle.um_jobs.specs.RowReady.{ArePassed};

    ghost Value = { JobsView };

    ghost view = { λ j. record { graph = j.graph.now; units = j.units.items; held = j.held.items } };

    ghost invariant = { λ j. IsTable j.graph.now j.units.items j.held.items
        × IfSome j.counted (λ c. IsKept j.graph.now j.units.items j.held.items c.blockers.items c.ready)
        × ArePassed j.graph.now j.units.items j.held.items j.passed };
}

// One call for the prover, which takes a derived `Drop` apart at each exit.
impl<'g> Drop for Jobs<'g> {
    fn drop(self) {
        let Jobs {
            graph: _,
            units: _units,
            held: _held,
            counted: _counted,
            passed: _,
        } = self;
    }
}

impl<'g> Jobs<'g> {
    /// No job of the graph's units, none of which counts as deactivating. Nothing is counted.
    pub fn new(alloc: Global, graph: &'g Graph) -> Result<Jobs<'g>, AllocError>
        ensures graph { IfOk result (λ j. j.graph ≡ graph.now) }
        ensures units { IfOk result (λ j. j.units ≡ replicate (length graph.now.names) no_jobs) }
        ensures held { IfOk result (λ j. j.held ≡ replicate (length graph.now.names) false) }
    {
        let len = graph.len();
        Ok(Jobs {
            graph,
            units: vec![in alloc; UnitJobs::NONE; len]?,
            held: vec![in alloc; false; len]?,
            counted: None,
            passed: 0,
        })
    }

    /// Just these jobs, in the order of the graph's units, none of which counts as deactivating. A unit past their end has none.
    pub fn of(alloc: Global, graph: &'g Graph, pending: &[UnitJobs]) -> Result<Jobs<'g>, AllocError>
        ensures graph { IfOk result (λ j. j.graph ≡ graph.now) }
        ensures each { IfOk result (λ j. (u : ℕ) → u < length graph.now.names → jobs_at j.units u ≡ jobs_at pending.now u) }
        ensures whole { IfOk result (λ j. length pending.now ≡ length graph.now.names → j.units ≡ pending.now) }
        ensures len { IfOk result (λ j. length j.units ≡ length graph.now.names) }
        ensures held { IfOk result (λ j. j.held ≡ replicate (length graph.now.names) false) }
    {
        let mut jobs = Jobs::new(alloc, graph)?;
        jobs.install(pending);
        Ok(jobs)
    }

    /// A copy of the jobs, without counts.
    pub fn copy(&self) -> Result<Jobs<'g>, AllocError>
        ensures { IfOk result (λ j. j ≡ self.now) }
    {
        Ok(Jobs {
            graph: self.graph,
            units: self.units.clone()?,
            held: self.held.clone()?,
            counted: None,
            passed: 0,
        })
    }

    /// The pending jobs of the unit with this number.
    pub fn get(&self, unit: usize) -> UnitJobs
        ensures { result ≡ jobs_at self.now.units unit }
    {
        jobs_of(&self.units, unit)
    }

    /// The pending jobs of each unit, in the order of their numbers.
    pub fn as_slice(&self) -> &[UnitJobs]
        ensures units { result.now ≡ self.now.units }
        ensures held { length self.now.held ≡ length self.now.units }
        ensures len { length self.now.units ≡ length self.now.graph.names }
    {
        self.units.as_slice()
    }

    /// Whether the unit with this number counts as deactivating.
    pub fn is_held(&self, unit: usize) -> bool
        ensures { result ≡ held_at self.now.held unit }
    {
        is_held(&self.held, unit)
    }
}

impl Jobs<'_> {
    /// Leaves just these jobs, those of a plan by number. It takes no memory. The units that count as deactivating stay the same.
    pub fn install(&mut self, plan: &[UnitJobs])
        ensures each { (u : ℕ) → u < length self.old.units → jobs_at self.new.units u ≡ jobs_at plan.now u }
        ensures whole { length plan.now ≡ length self.old.units → self.new.units ≡ plan.now }
        ensures len { length self.new.units ≡ length self.old.units }
        ensures held { self.new.held ≡ self.old.held }
        ensures graph { self.new.graph ≡ self.old.graph }
    {
        self.passed = 0;
        match &mut self.counted {
            Some(counted) => change_all(
                self.graph,
                &mut self.units,
                &self.held,
                &mut counted.blockers,
                &mut counted.ready,
                plan,
            ),
            None => put_all(&mut self.units, plan),
        }
    }

    /// The unit with this number counts as deactivating from now on, or no more.
    pub fn hold(&mut self, unit: usize, deactivating: bool)
        ensures { self.new ≡ with_held_at self.old unit deactivating }
    {
        if unit < self.held.len() && self.held[unit] != deactivating {
            self.passed = passed_with(&self.held, unit, deactivating, self.passed);
            self.held[unit] = deactivating;
            if let Some(counted) = &mut self.counted {
                mark(
                    &mut counted.ready,
                    &self.units,
                    &self.held,
                    &counted.blockers,
                    unit,
                );
            }
        }
    }

    /// The unit with this number has just these jobs. It takes no memory. It goes over the unit's row only if there are counts and other
    /// jobs of the unit are pending than before.
    fn set(&mut self, unit: usize, jobs: UnitJobs)
        ensures { self.new ≡ with_jobs_at self.old unit jobs }
    {
        if unit < self.units.len() {
            self.passed = still_passed(&self.units, unit, jobs, self.passed);
            match &mut self.counted {
                Some(counted) => change(
                    self.graph,
                    &mut self.units,
                    &self.held,
                    &mut counted.blockers,
                    &mut counted.ready,
                    unit,
                    jobs,
                ),
                None => self.units[unit] = jobs,
            }
        }
    }

    /// A job of this kind of the unit is pending and waits from now on.
    pub fn put(&mut self, unit: usize, kind: JobKind)
        ensures { self.new ≡ with_jobs_at self.old unit (model.with_job kind Waiting (jobs_at self.old.units unit)) }
    {
        self.set(unit, self.get(unit).with_job(kind, JobState::Waiting));
    }

    /// That job of the unit runs from now on.
    pub fn begin(&mut self, unit: usize, kind: JobKind)
        ensures { self.new ≡ with_jobs_at self.old unit (model.with_job kind Running (jobs_at self.old.units unit)) }
    {
        self.set(unit, self.get(unit).with_job(kind, JobState::Running));
    }

    /// That job of the unit is over.
    pub fn finish(&mut self, unit: usize, kind: JobKind)
        ensures { self.new ≡ with_jobs_at self.old unit (without_job kind (jobs_at self.old.units unit)) }
    {
        self.set(unit, without_job(kind, self.get(unit)));
    }

    /// Takes out the waiting jobs of the unit. It is refused if there is none (E21), and all is as before.
    pub fn cancel(&mut self, alloc: Global, unit: usize, name: &UnitName) -> Result<(), Refusal>
        ensures ok { OnOk result (self.new ≡ with_jobs_at self.old unit (model.cancelled (jobs_at self.old.units unit))) }
        ensures waits { IsOk result ↔ (has_waiting (jobs_at self.old.units unit) ≡ true) }
        ensures err { OnErr result (self.new ≡ self.old) }
        ensures refused { IfErr result (λ e. ¬ (e ≡ NoMemory) → refused_of e ≡ refused.no_such_job name.now) }
    {
        let jobs = self.get(unit);
        if !has_waiting(jobs) {
            return Err(no_such_job(alloc, name.as_str())?);
        }
        self.set(unit, without_waiting(jobs));
        Ok(())
    }
}

impl Jobs<'_> {
    /// Counts the jobs before those of each unit, from now on with each change. The jobs stay as they are, even if memory is refused.
    pub fn count(&mut self, alloc: Global) -> Result<(), AllocError>
        ensures { self.new ≡ self.old }
    {
        let len = self.units.len();
        let mut units = vec![in alloc; UnitJobs::NONE; len]?;
        let mut blockers = vec![in alloc; Blockers::NONE; len]?;
        let mut ready = LeastSet::new(alloc, len)?;
        change_all(
            self.graph,
            &mut units,
            &self.held,
            &mut blockers,
            &mut ready,
            &self.units,
        );
        self.counted = Some(Counted { blockers, ready });
        Ok(())
    }

    /// The job that begins next, with the number of its unit: the least ready one; None if none is ready. It takes no memory.
    ///
    /// A job is ready if it waits and no other job comes before it by the rows of the graph, whether that one waits or runs; and a start
    /// only if its unit doesn't count as deactivating. Jobs are ordered by the names of their units, and a unit's stop is less than its
    /// start.
    pub fn ready(&self) -> Option<(usize, JobKind)>
        ensures least { MatchOption result ((job : Job) → ¬ IsReadyIn self.now.graph self.now job)
            (λ r. IsLeast IsToldBefore (IsReadyIn self.now.graph self.now) (job_named self.now.graph r.0 r.1)) }
        ensures within { IfSome result (λ r. r.0 < length self.now.graph.names) }
    {
        let Some(counted) = &self.counted else {
            return next_ready(self.graph, &self.units, &self.held, self.passed);
        };
        let Some(unit) = counted.ready.least() else {
            return None;
        };
        if is_stop_free(&self.units, &counted.blockers, unit) {
            return Some((unit, JobKind::Stop));
        }
        Some((unit, JobKind::Start))
    }

    /// The same as `ready`. A later search doesn't go over the units before that one again, until a change may make one of their jobs
    /// ready.
    pub fn find_ready(&mut self) -> Option<(usize, JobKind)>
        ensures same { self.new ≡ self.old }
        ensures least { MatchOption result ((job : Job) → ¬ IsReadyIn self.old.graph self.old job)
            (λ r. IsLeast IsToldBefore (IsReadyIn self.old.graph self.old) (job_named self.old.graph r.0 r.1)) }
        ensures within { IfSome result (λ r. r.0 < length self.old.graph.names) }
    {
        let found = self.ready();
        self.passed = match found {
            Some((unit, _kind)) => unit,
            None => self.units.len(),
        };
        found
    }
}

fn without_job(kind: JobKind, jobs: UnitJobs) -> UnitJobs
    ensures { result ≡ told.without_job kind jobs }
{
    match kind {
        JobKind::Stop => UnitJobs { stop: None, ..jobs },
        JobKind::Start => UnitJobs {
            start: None,
            ..jobs
        },
    }
}
