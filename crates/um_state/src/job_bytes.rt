//! The canonical bytes of pending jobs: a list, by ascending names of their units, with a unit's stop job first.
ghost use Rattle.std.specs.Prelude.{◌≡◌, map, IfOk};
ghost use Rattle.std.specs.Cmp.Lexicographic.{slice_cmp};
ghost use Rattle.std.specs.FinMap as maps;
ghost use Rattle.std.specs.Ordering.{nat_cmp};
ghost use Rattle.um_model.specs.Jobs as model;
ghost use Rattle.um_model.specs.Service.{ByUnit};
ghost use Rattle.um_model.specs.StateSpellings.{FitPending, is_job_before, job_at, job_spelling, jobs_ascend, pending_at, pending_of, pending_spelling};
ghost use Rattle.um_model.proofs.PendingSpellingsLaws.{canonical_job, canonical_pending};
ghost use Rattle.um_model.specs.declared.jobs.UnitJobs as jobs;
ghost use Rattle.um_model.specs.Spellings.{FitUnitName};
ghost use Rattle.um_state.specs.Shown.{job_of};

use crate::maps::{hold_jobs, jobs_in};
use crate::reply::JobShown;
use crate::units::Pending;
use std::alloc::{AllocError, Global};
use std::cmp::Ordering;
use std::collections::BTreeMap;
use um_model::{JobKind, JobState, UnitJobs};
use um_name::UnitName;
use um_wire::{Canon, Tagged};

/// The name of its unit, its kind, and how far it is.
impl Canon for JobShown {
    ghost Value = { model.JobShown };

    ghost value = { job_of };

    ghost fits = { λ j. FitUnitName j.unit };

    ghost spelling = { job_spelling };

    ghost reading = { job_at };

    fn put(&self, out: &mut Vec<u8>) -> Result<(), AllocError> {
        self.unit.put(out)?;
        self.kind.put(out)?;
        self.state.put(out)
    }

    fn get(alloc: Global, bytes: &[u8]) -> Result<Option<(JobShown, usize)>, AllocError> {
        match <(UnitName, (JobKind, JobState))>::get(alloc, bytes)? {
            Some(((unit, (kind, state)), n)) => Ok(Some((JobShown { unit, kind, state }, n))),
            None => Ok(None),
        }
    }

    ghost canonical = { canonical_job };
}

/// Whether one job stands before another.
fn is_before(job: &JobShown, next: &JobShown) -> bool
    ensures { result ≡ is_job_before (job_of job.now) (job_of next.now) }
{
    match job.unit.cmp(&next.unit) {
        Ordering::Less => true,
        Ordering::Equal => job.kind.tag() < next.kind.tag(),
        Ordering::Greater => false,
    }
}

/// Whether each job stands before the next.
fn ascend(jobs: &[JobShown]) -> bool
    ensures { result ≡ jobs_ascend (map job_of jobs.now) }
{
    let mut rest = jobs;
    while let [job, behind @ ..] = rest {
        if let [next, ..] = behind {
            if !is_before(job, next) {
                return false;
            }
        }
        rest = behind;
    }
    true
}

/// The jobs of a list, by the names of their units.
fn map_of(alloc: Global, jobs: Vec<JobShown>) -> Result<BTreeMap<UnitName, UnitJobs>, AllocError>
    ensures { IfOk result (λ m. maps.from_entries {R = slice_cmp nat_cmp} m.entries ≡ pending_of (map job_of jobs.items)) }
{
    let mut rest = jobs;
    let mut entries = BTreeMap::new(alloc);
    while let Some(job) = rest.pop() {
        let held = jobs_in(&entries, &job.unit);
        hold_jobs(&mut entries, &job.unit, held.with_job(job.kind, job.state))?;
    }
    Ok(entries)
}

/// The jobs of a list, by unit.
fn pending_of(alloc: Global, jobs: Vec<JobShown>) -> Result<Pending, AllocError>
    ensures { IfOk result (λ pending. pending.held ≡ pending_of (map job_of jobs.items)) }
{
    let entries = map_of(alloc, jobs)?;
    Pending::of_map(alloc, &entries)
}

impl Canon for Pending {
    ghost Value = { ByUnit jobs.UnitJobs };

    ghost value = { λ pending. pending.held };

    ghost fits = { FitPending };

    ghost spelling = { pending_spelling };

    ghost reading = { pending_at };

    fn put(&self, out: &mut Vec<u8>) -> Result<(), AllocError> {
        // The proof reads here that no unit is held without a job.
        let _ = self.numbers();
        let jobs = self.shown()?;
        jobs.put(out)
    }

    fn get(alloc: Global, bytes: &[u8]) -> Result<Option<(Pending, usize)>, AllocError> {
        let Some((jobs, n)) = <Vec<JobShown> as Canon>::get(alloc, bytes)? else {
            return Ok(None);
        };
        if !ascend(jobs.as_slice()) {
            return Ok(None);
        }
        let pending = pending_of(alloc, jobs)?;
        Ok(Some((pending, n)))
    }

    ghost canonical = { canonical_pending };
}
