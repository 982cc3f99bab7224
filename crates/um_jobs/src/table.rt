//! The changes of one unit's jobs (systemctl(1), "start", "stop", "restart").

ghost use Rattle.std.specs.Prelude.{◌≡◌, ◌||◌, ◌<◌, ℕ, Some, length, unwrap_or};
ghost use Rattle.um_jobs.specs.Drops.{drops_one, is_dropped};
ghost use Rattle.um_jobs.specs.Named.{jobs_at};
ghost use Rattle.um_jobs.specs.RowReady.{binds_as_before, stays_or_runs};
ghost use Rattle.um_model.specs.Jobs as model;
ghost use Rattle.um_model.specs.Machine as machine;
ghost use Rattle.um_model.specs.Waiting.{has_waiting};
ghost use Rattle.um_model.specs.declared.jobs.JobState.TheVariants.{Waiting};

use um_model::{ActiveState, Demand, JobState, StartJob, UnitJobs};

/// The pending jobs of the unit with this number; one past the last has none.
pub fn jobs_of(pending: &[UnitJobs], unit: usize) -> UnitJobs
    ensures { result ≡ jobs_at pending.now unit }
{
    pending.get(unit).copied().unwrap_or(UnitJobs::NONE)
}

/// Leaves of each unit just its jobs of the plan.
pub fn put_all(units: &mut [UnitJobs], plan: &[UnitJobs])
    ensures each { (u : ℕ) → u < length units.old → jobs_at units.new u ≡ jobs_at plan.now u }
    ensures whole { length plan.now ≡ length units.old → units.new ≡ plan.now }
    ensures len { length units.new ≡ length units.old }
{
    for unit in 0..units.len() {
        units[unit] = jobs_of(plan, unit);
    }
}

/// Whether a job is pending and waits.
pub fn is_waiting(job: Option<JobState>) -> bool
    ensures { result ≡ machine.is_waiting job }
{
    matches!(job, Some(JobState::Waiting))
}

/// Whether a job of a unit is as it was, or runs now.
fn stays_or_runs(old: Option<JobState>, new: Option<JobState>) -> bool
    ensures { result ≡ stays_or_runs old new }
{
    match (old, new) {
        (_, Some(JobState::Running)) => true,
        (Some(JobState::Waiting), Some(JobState::Waiting)) => true,
        (None, None) => true,
        _ => false,
    }
}

/// Whether each job of a unit is as it was, or runs now. Then no job of it or of another unit becomes ready by the change.
pub fn binds_as_before(old: UnitJobs, new: UnitJobs) -> bool
    ensures { result ≡ binds_as_before old new }
{
    stays_or_runs(old.stop, new.stop) && stays_or_runs(old.start, new.start)
}

/// Whether one of a unit's jobs waits.
pub fn has_waiting(jobs: UnitJobs) -> bool
    ensures { result ≡ has_waiting jobs }
{
    is_waiting(jobs.stop) || is_waiting(jobs.start)
}

/// Whether a unit in this state is active.
pub fn is_active(active: ActiveState) -> bool
    ensures { result ≡ model.is_active active }
{
    matches!(active, ActiveState::Active)
}

/// Neither inactive nor failed.
fn is_up(active: ActiveState) -> bool
    ensures { result ≡ model.is_up active }
{
    !matches!(active, ActiveState::Inactive | ActiveState::Failed)
}

/// A pending start job stays at a start. Otherwise a stop job that waits is dropped and one that runs stays; then a start job is put,
/// unless the unit is active and no stop job remains.
fn started(active: ActiveState, now: UnitJobs) -> UnitJobs
    ensures { result ≡ model.started active now.stop now.start }
{
    if now.start.is_some() {
        return now;
    }
    if let Some(JobState::Running) = now.stop {
        return UnitJobs {
            start: Some(JobState::Waiting),
            ..now
        };
    }
    UnitJobs {
        stop: None,
        start: if is_active(active) {
            None
        } else {
            Some(JobState::Waiting)
        },
    }
}

/// At a stop the start job is dropped; a stop job is put if none is pending and the unit is up.
fn stopped(active: ActiveState, now: UnitJobs) -> UnitJobs
    ensures { result ≡ model.stopped active now.stop }
{
    let stop = match now.stop {
        Some(stop) => Some(stop),
        None if is_up(active) => Some(JobState::Waiting),
        None => None,
    };
    UnitJobs { stop, start: None }
}

/// At a restart of a unit that is up, a start job that runs is dropped; a stop job is put if none is pending, and a start job if none
/// waits.
fn restarted(now: UnitJobs) -> UnitJobs
    ensures { result ≡ model.jobs (Some (unwrap_or now.stop Waiting)) (Some Waiting) }
{
    UnitJobs {
        stop: Some(now.stop.unwrap_or(JobState::Waiting)),
        start: Some(JobState::Waiting),
    }
}

/// The pending jobs of a unit in this state after the demand that counts for it, if there is one.
pub fn jobs_for(demand: Option<Demand>, active: ActiveState, now: UnitJobs) -> UnitJobs
    ensures { result ≡ model.jobs_for demand active now }
{
    match demand {
        None => now,
        Some(Demand::Start) => started(active, now),
        Some(Demand::Stop) => stopped(active, now),
        Some(Demand::Restart) if is_up(active) => restarted(now),
        Some(Demand::Restart) => started(active, now),
    }
}

/// Whether a job that was pending is gone, or has changed.
fn is_dropped(before: Option<JobState>, after: Option<JobState>) -> bool
    ensures { result ≡ is_dropped before after }
{
    match (before, after) {
        (None, _) => false,
        (Some(JobState::Waiting), Some(JobState::Waiting)) => false,
        (Some(JobState::Running), Some(JobState::Running)) => false,
        _ => true,
    }
}

/// Whether one of the unit's jobs is dropped.
pub fn drops_one(before: UnitJobs, after: UnitJobs) -> bool
    ensures { result ≡ drops_one before after }
{
    is_dropped(before.stop, after.stop) || is_dropped(before.start, after.start)
}

fn unless_running(job: Option<JobState>) -> Option<JobState>
    ensures { result ≡ model.unless_running job }
{
    match job {
        Some(JobState::Running) => None,
        other => other,
    }
}

fn start_left(start: StartJob, job: Option<JobState>) -> Option<JobState>
    ensures { result ≡ model.start_left start job }
{
    match start {
        StartJob::Stays => job,
        StartJob::Ends | StartJob::Fails => unless_running(job),
    }
}

/// The jobs of a unit after an event: the running start job is over if it ended or failed, the running stop job if it ended.
pub fn jobs_left(start: StartJob, stop_ends: bool, now: UnitJobs) -> UnitJobs
    ensures { result ≡ model.jobs_left start stop_ends now }
{
    UnitJobs {
        stop: if stop_ends {
            unless_running(now.stop)
        } else {
            now.stop
        },
        start: start_left(start, now.start),
    }
}

/// The job, unless it waits.
fn unless_waiting(job: Option<JobState>) -> Option<JobState>
    ensures { result ≡ model.unless_waiting job }
{
    match job {
        Some(JobState::Waiting) => None,
        other => other,
    }
}

/// The jobs of a unit without those that wait.
pub fn without_waiting(jobs: UnitJobs) -> UnitJobs
    ensures { result ≡ model.cancelled jobs }
{
    UnitJobs {
        stop: unless_waiting(jobs.stop),
        start: unless_waiting(jobs.start),
    }
}

/// The jobs of a unit without its start job.
pub fn without_start(jobs: UnitJobs) -> UnitJobs
    ensures { result ≡ model.without_start jobs }
{
    UnitJobs {
        start: None,
        ..jobs
    }
}
