//! Automatic restarts (systemd.service(5), "Restart=").

ghost use Rattle.std.specs.Bool.{Decides};
ghost use Rattle.std.specs.Prelude.{◌≡◌, ℕ, List, false, IfOk, OnOk};
ghost use Rattle.um_engine.specs.Filled.{Tells};
ghost use Rattle.um_engine.specs.Planned.{ArePending};
ghost use Rattle.um_falling.specs.Over.{Serves};
ghost use Rattle.um_falling.specs.Work.{Keeps};
ghost use Rattle.um_graph.specs.Graph.{IsNumberOf};
ghost use Rattle.um_model.specs.Jobs.{has_job, jobs_of_unit};
ghost use Rattle.um_model.specs.Machine as model;
ghost use Rattle.um_model.specs.Machine.{IsBefore};
ghost use Rattle.um_model.specs.Plan.{AreFree};
ghost use Rattle.um_state.specs.View.{state_of};

use crate::memory::is_for_memory;
use crate::numbered::jobs_in;
use std::alloc::{AllocError, Global};
use um_falling::Work;
use um_graph::Graph;
use um_jobs::Jobs;
use um_model::JobKind;
use um_transact::check_pending;

/// Whether none of these jobs wait for one another in a circle.
fn are_free(alloc: Global, graph: &Graph, jobs: &Jobs<'_>) -> Result<bool, AllocError>
    ensures { IfOk result (λ free. (s : model.State) → Serves graph.now s → ArePending graph.now s jobs.now.units → Decides free (AreFree (IsBefore s.loaded) s.pending)) }
{
    match check_pending(alloc, graph, jobs.as_slice()) {
        Ok(()) => Ok(true),
        Err(refusal) => {
            if is_for_memory(refusal) {
                return Err(AllocError);
            }
            Ok(false)
        }
    }
}

/// Puts a start of the unit with this number, which has no pending job, unless the pending jobs in `jobs` would then wait for one another
/// in a circle.
fn start_in(work: &mut Work<'_>, jobs: &mut Jobs<'_>, unit: usize) -> Result<(), AllocError>
    requires { Tells work.old.graph (state_of work.old.now) jobs.old }
    ensures state { OnOk result ((name : List ℕ) → IsNumberOf work.old.graph unit name
        → has_job (jobs_of_unit (state_of work.old.now).pending name) ≡ false → model.Restarts (state_of work.old.now) name (state_of work.new.now)) }
    ensures keeps { OnOk result (Keeps work.old work.new) }
    ensures actions { OnOk result (work.new.actions ≡ work.old.actions) }
{
    jobs.put(unit, JobKind::Start);
    if !are_free(work.alloc(), work.graph(), jobs)? {
        return Ok(());
    }
    work.set_jobs(unit, jobs.get(unit));
    Ok(())
}

/// Puts a start of the unit with this number as its one job, unless a job of it is pending or the pending jobs would then wait for one
/// another in a circle. If memory is refused, the work is of no use.
pub fn restart(work: &mut Work<'_>, unit: usize) -> Result<(), AllocError>
    ensures state { OnOk result ((name : List ℕ) → IsNumberOf work.old.graph unit name
        → model.Restarts (state_of work.old.now) name (state_of work.new.now)) }
    ensures keeps { OnOk result (Keeps work.old work.new) }
    ensures actions { OnOk result (work.new.actions ≡ work.old.actions) }
{
    if work.jobs(unit).has_job() {
        return Ok(());
    }
    let mut jobs = jobs_in(work)?;
    start_in(work, &mut jobs, unit)
}
