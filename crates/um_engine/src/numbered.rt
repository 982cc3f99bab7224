//! The pending jobs of a state by the numbers of a graph's units, with a mark at the units that count as deactivating.

ghost use Rattle.std.specs.Prelude.{◌≡◌, ℕ, List, Contains, IfOk, MatchOption, length};
ghost use Rattle.um_engine.specs.Filled.{Tells, is_deactivating, is_held_back, told_of};
ghost use Rattle.um_engine.specs.Planned.{ArePending};
ghost use Rattle.um_graph.specs.Graph.{IsGraph, IsNumberOf};
ghost use Rattle.um_jobs.specs.Jobs.{with_jobs_at, without_job};
ghost use Rattle.um_jobs.specs.Named.{jobs_at};
ghost use Rattle.um_model.specs.Jobs.{jobs_of_unit, with_job};
ghost use Rattle.um_model.specs.Machine as model;
ghost use Rattle.um_model.specs.Service.{active_state_of};
ghost use Rattle.um_state.specs.View.{state_of};

use std::alloc::{AllocError, Global};
use um_falling::Work;
use um_graph::Graph;
use um_jobs::Jobs;
use um_model::{ActiveState, JobKind, JobState, UnitJobs, UnitState};
use um_name::UnitName;
use um_state::State;

/// The pending jobs of the unit with this number.
fn jobs_of(graph: &Graph, state: &State, unit: usize) -> UnitJobs
    ensures { (x : List ℕ) → IsNumberOf graph.now unit x → result ≡ jobs_of_unit (state_of state.now).pending x }
{
    match graph.name(unit) {
        Some(name) => state.pending().get(name),
        None => UnitJobs::NONE,
    }
}

/// The pending jobs of each unit of the graph, by number.
pub fn pending_by_number(
    alloc: Global,
    graph: &Graph,
    state: &State,
) -> Result<Vec<UnitJobs>, AllocError>
    ensures graph { IsGraph graph.now }
    ensures len { IfOk result (λ pending. length pending.items ≡ length graph.now.names) }
    ensures each { IfOk result (λ pending. ArePending graph.now (state_of state.now) pending.items) }
{
    let mut pending = Vec::new(alloc);
    for unit in 0..graph.len() {
        pending.push(jobs_of(graph, state, unit))?;
    }
    Ok(pending)
}

/// Whether a unit that stands so counts as deactivating.
fn is_deactivating(stands: UnitState) -> bool
    ensures { result ≡ is_deactivating (active_state_of stands.sub) }
{
    matches!(stands.sub.active_state(), ActiveState::Deactivating)
}

/// Whether a job of this kind waits because the unit with this number counts as deactivating: a start does.
pub fn is_held_back(work: &Work<'_>, unit: usize, kind: JobKind) -> bool
    ensures { (x : List ℕ) → IsNumberOf work.now.graph unit x → result ≡ is_held_back (state_of work.now.now) x kind }
{
    match kind {
        JobKind::Stop => false,
        JobKind::Start => is_deactivating(work.unit(unit)),
    }
}

/// The pending jobs of the units by their numbers. No unit is marked as deactivating.
pub fn jobs_in<'g>(work: &Work<'g>) -> Result<Jobs<'g>, AllocError>
    ensures { IfOk result (λ jobs. Tells work.now.graph (state_of work.now.now) jobs) }
{
    let graph = work.graph();
    Jobs::of(work.alloc(), graph, work.pending())
}

/// Records the job of this kind of the unit with this number.
fn tell_job(jobs: &mut Jobs<'_>, unit: usize, kind: JobKind, job: Option<JobState>)
    ensures { MatchOption job
        (jobs.new ≡ with_jobs_at jobs.old unit (without_job kind (jobs_at jobs.old.units unit)))
        (λ state. jobs.new ≡ with_jobs_at jobs.old unit (with_job kind state (jobs_at jobs.old.units unit))) }
{
    match job {
        Some(JobState::Waiting) => jobs.put(unit, kind),
        Some(JobState::Running) => jobs.begin(unit, kind),
        None => jobs.finish(unit, kind),
    }
}

/// Records that the unit with this number has just these jobs.
fn tell_jobs(jobs: &mut Jobs<'_>, unit: usize, told: UnitJobs)
    ensures { jobs.new ≡ with_jobs_at jobs.old unit told }
{
    tell_job(jobs, unit, JobKind::Stop, told.stop);
    tell_job(jobs, unit, JobKind::Start, told.start);
}

/// Records what the work now holds of the unit with this number.
pub fn tell(jobs: &mut Jobs<'_>, work: &Work<'_>, unit: usize)
    ensures { (x : List ℕ) → IsNumberOf work.now.graph unit x → jobs.new ≡ told_of (state_of work.now.now) unit x jobs.old }
{
    tell_jobs(jobs, unit, work.jobs(unit));
    jobs.hold(unit, is_deactivating(work.unit(unit)));
}

/// Records what the work now holds of each unit, over a table of another state. It takes no memory.
pub fn tell_all(jobs: &mut Jobs<'_>, work: &Work<'_>)
    ensures { (before : model.State) → Tells work.now.graph before jobs.old → Tells work.now.graph (state_of work.now.now) jobs.new }
{
    for unit in 0..work.graph().len() {
        tell(jobs, work, unit);
    }
}

/// The number of a unit of the graph.
pub fn number_of(graph: &Graph, unit: &UnitName) -> usize
    requires { Contains graph.now.names unit.now }
    ensures { IsNumberOf graph.now result unit.now }
{
    match graph.number(unit) {
        Some(number) => number,
        None => unreachable!(),
    }
}
