//! Jobs that begin until none is ready, and deadlines that fire.

ghost use Rattle.std.specs.Prelude.{◌≡◌, ◌<◌, ℕ, List, false, Some, IfOk, IfSome, OnOk, MatchOption, length};
ghost use Rattle.um_engine.specs.Engine.{waits_to_restart, IsDue, NoneIsDue};
ghost use Rattle.um_engine.specs.Filled.{Begins, Tells};
ghost use Rattle.um_falling.specs.Carrying.{KeepsOthers};
ghost use Rattle.um_falling.specs.Over.{Serves};
ghost use Rattle.um_falling.specs.Work.{Goes, Keeps};
ghost use Rattle.um_graph.specs.Graph.{IsNumberOf};
ghost use Rattle.um_model.specs.Machine as model;
ghost use Rattle.um_model.specs.Machine.{IsStill, begins, begun};
ghost use Rattle.um_state.specs.View.{state_of};

use crate::jobs::begins;
use crate::numbered::{is_held_back, jobs_in, tell, tell_all};
use crate::restarting::restart;
use std::alloc::{AllocError, Global};
use um_falling::{Work, happen};
use um_jobs::Jobs;
use um_model::{Deadline, JobKind, Moment, SubState, UnitEvent};
use um_name::UnitName;
use um_timer::Timers;

/// After this many jobs that were found one after another, a count is kept of what each job waits for. As a rule an input lets one job
/// begin or none, and a walk over the units for each of a few costs less than the counts.
const FEW: u32 = 4;

/// The job runs from now on.
fn begin_job(jobs: &mut Jobs<'_>, work: &mut Work<'_>, unit: usize, kind: JobKind)
    ensures begun { (name : List ℕ) → IsNumberOf work.old.graph unit name → Tells work.old.graph (state_of work.old.now) jobs.old
        → state_of work.new.now ≡ begun (state_of work.old.now) (record { unit = name; kind = kind }) }
    ensures tells { (name : List ℕ) → IsNumberOf work.old.graph unit name → Tells work.old.graph (state_of work.old.now) jobs.old
        → Tells work.old.graph (state_of work.new.now) jobs.new }
    ensures keeps { Keeps work.old work.new }
    ensures actions { work.new.actions ≡ work.old.actions }
{
    jobs.begin(unit, kind);
    work.set_jobs(unit, jobs.get(unit));
}

/// Refreshes the table after a job of the unit with this number began: the unit's entry, or all entries if others may have changed. It
/// takes no memory.
fn tell_anew(jobs: &mut Jobs<'_>, work: &Work<'_>, unit: usize, spreads: bool)
    ensures { (before : model.State) (name : List ℕ) → IsNumberOf work.now.graph unit name → Tells work.now.graph before jobs.old
        → (spreads ≡ false → KeepsOthers name before (state_of work.now.now)) → Tells work.now.graph (state_of work.now.now) jobs.new }
{
    if spreads {
        tell_all(jobs, work);
    } else {
        tell(jobs, work, unit);
    }
}

/// Notes that one more job was found. From `FEW` on, what comes before each job is counted.
fn count_behind(jobs: &mut Jobs<'_>, alloc: Global, found: &mut u32) -> Result<(), AllocError>
    ensures { jobs.new ≡ jobs.old }
{
    *found = found.saturating_add(1);
    if *found == FEW {
        jobs.count(alloc)?;
    }
    Ok(())
}

/// The job that begins next, or None if none is ready; `found` is the number of jobs found before it. A start that would be next is held
/// back here if its unit counts as deactivating: to look at a few units costs less than to mark all.
fn next_job(
    jobs: &mut Jobs<'_>,
    work: &Work<'_>,
    found: &mut u32,
) -> Result<Option<(usize, JobKind)>, AllocError>
    requires serves { Serves work.now.graph (state_of work.now.now) }
    requires tells { Tells work.now.graph (state_of work.now.now) jobs.old }
    ensures tells { OnOk result (Tells work.now.graph (state_of work.now.now) jobs.new) }
    ensures next { IfOk result (λ next. MatchOption next (IsStill (state_of work.now.now)) (λ r. (name : List ℕ) → IsNumberOf work.now.graph r.0 name
        → Begins (state_of work.now.now) (record { unit = name; kind = r.1 }))) }
    ensures within { IfOk result (λ next. IfSome next (λ r. r.0 < length work.now.graph.names)) }
{
    'held: while let Some((unit, kind)) = jobs.find_ready() {
        count_behind(jobs, work.alloc(), found)?;
        if !is_held_back(work, unit, kind) {
            return Ok(Some((unit, kind)));
        }
        jobs.hold(unit, true);
    }
    Ok(None)
}

/// Lets these jobs begin, one after another, until none is ready. If memory is refused, the work is of no use.
fn begin_all(jobs: &mut Jobs<'_>, work: &mut Work<'_>) -> Result<(), AllocError>
    requires serves { Serves work.old.graph (state_of work.old.now) }
    requires tells { Tells work.old.graph (state_of work.old.now) jobs.old }
    ensures settles { OnOk result (Goes (model.Settles work.old.moment (state_of work.old.now)) work.old work.new) }
    ensures keeps { OnOk result (Keeps work.old work.new) }
{
    let mut found = 0;
    'jobs: while let Some((unit, kind)) = next_job(jobs, work, &mut found)? {
        begin_job(jobs, work, unit, kind);
        let spreads = happen(work, unit, begins(kind))?;
        tell_anew(jobs, work, unit, spreads);
    }
    Ok(())
}

/// Lets jobs begin, one after another, until none is ready. If memory is refused, the work is of no use.
pub fn settle(work: &mut Work<'_>) -> Result<(), AllocError>
    ensures settles { OnOk result (Goes (model.Settles work.old.moment (state_of work.old.now)) work.old work.new) }
    ensures keeps { OnOk result (Keeps work.old work.new) }
{
    // the proof reads here that the graph serves
    let _ = work.graph();
    let mut jobs = jobs_in(work)?;
    begin_all(&mut jobs, work)
}

/// A timer: its deadline and its unit.
#[derive(Drop)]
struct Due {
    deadline: Deadline,
    unit: UnitName,
}

/// The timer that is due first, if its deadline isn't after the moment.
fn next_due(timers: &Timers, moment: Moment) -> Result<Option<Due>, AllocError>
    ensures { IfOk result (λ next. MatchOption next (NoneIsDue moment timers.now) (λ due. IsDue moment timers.now due.deadline due.unit)) }
{
    let Some((deadline, unit)) = timers.next_due() else {
        return Ok(None);
    };
    if deadline.micros() > moment.micros() {
        return Ok(None);
    }
    let unit = unit.copy()?;
    Ok(Some(Due { deadline, unit }))
}

fn waits_to_restart(sub: SubState) -> bool
    ensures { result ≡ waits_to_restart sub }
{
    matches!(sub, SubState::AutoRestart)
}

/// A deadline of the unit with this number comes due: the unit restarts if it waits for that, and otherwise its deadline passes.
fn come_due(work: &mut Work<'_>, unit: usize) -> Result<(), AllocError>
    ensures comes { OnOk result ((name : List ℕ) → IsNumberOf work.old.graph unit name
        → Goes (model.ComesDue work.old.moment (state_of work.old.now) name) work.old work.new) }
    ensures keeps { OnOk result (Keeps work.old work.new) }
{
    if waits_to_restart(work.unit(unit).sub) {
        restart(work, unit)?;
        return Ok(());
    }
    happen(work, unit, UnitEvent::DeadlinePasses)?;
    Ok(())
}

/// Fires one deadline, if it still stands, and lets jobs begin.
fn fire_one(work: &mut Work<'_>, due: &Due) -> Result<(), AllocError>
    ensures fires { OnOk result (Goes (model.FiresOne work.old.moment due.now.deadline due.now.unit (state_of work.old.now)) work.old work.new) }
    ensures keeps { OnOk result (Keeps work.old work.new) }
{
    // the proof reads here that the graph serves
    let _ = work.graph();
    let Some(unit) = work.number(&due.unit) else {
        return Ok(());
    };
    if work.unit(unit).deadline != Some(due.deadline) {
        return Ok(());
    }
    come_due(work, unit)?;
    settle(work)?;
    Ok(())
}

/// Fires these deadlines as `fire` does, and takes out those that it fired.
fn fire_all(work: &mut Work<'_>, timers: &mut Timers) -> Result<(), AllocError>
    requires { model.AreDeadlines (state_of work.old.now).units timers.old }
    ensures follows { OnOk result (Goes (model.Follows work.old.moment (state_of work.old.now) model.Tick) work.old work.new) }
    ensures keeps { OnOk result (Keeps work.old work.new) }
{
    let moment = work.moment();
    'timers: while let Some(due) = next_due(timers, moment)? {
        timers.clear(&due.unit);
        fire_one(work, &due)?;
    }
    Ok(())
}

/// Fires these deadlines if they stand and aren't after the moment, earliest first, then by the names of their units; after each one jobs
/// begin. One that is gone or changed by then doesn't fire. If memory is refused, the work is of no use.
pub fn fire(work: &mut Work<'_>, timers: Timers) -> Result<(), AllocError>
    requires { model.AreDeadlines (state_of work.old.now).units timers }
    ensures follows { OnOk result (Goes (model.Follows work.old.moment (state_of work.old.now) model.Tick) work.old work.new) }
    ensures keeps { OnOk result (Keeps work.old work.new) }
{
    let mut timers = timers;
    fire_all(work, &mut timers)
}
