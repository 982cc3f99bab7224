//! A start that fails takes along the starts that need it (systemd.unit(5), "Requires=").

ghost use Rattle.std.specs.Prelude.{◌≡◌, ◌<◌, ℕ, List, length, OnOk};
ghost use Rattle.um_falling.specs.Along as taking;
ghost use Rattle.um_falling.specs.Falling.{KeepsSubs};
ghost use Rattle.um_falling.specs.Work.{Keeps};
ghost use Rattle.um_graph.specs.Graph.{IsNumberOf, row_of};
ghost use Rattle.um_model.specs.Waiting.{NoMoreWait};
ghost use Rattle.um_model.specs.Jobs.{AreTidyJobs};
ghost use Rattle.um_model.specs.Machine.{TakesAlong};
ghost use Rattle.um_model.specs.Service.{AreTidyUnits};
ghost use Rattle.um_state.specs.View.{state_of};

use crate::work::Work;
use std::alloc::AllocError;
use um_graph::Neighbour;
use um_jobs::{is_waiting, without_start};
use um_model::{DependencyKind, UnitResult, UnitState};

/// Whether the neighbour requires the unit or is bound to it.
fn needs_it(neighbour: Neighbour) -> bool
    ensures { result ≡ taking.needs_it neighbour }
{
    neighbour.kinds.has_inverse(DependencyKind::Requires)
        || neighbour.kinds.has_inverse(DependencyKind::BindsTo)
}

/// The start of the unit with this number is gone, and its result says so. It takes no memory.
fn drop_start(work: &mut Work<'_>, unit: usize)
    ensures state { (name : List ℕ) → IsNumberOf work.old.graph unit name
        → state_of work.new.now ≡ taking.without_start_of (state_of work.old.now) name }
    ensures keeps { Keeps work.old work.new }
    ensures actions { work.new.actions ≡ work.old.actions }
{
    let stands = UnitState {
        result: UnitResult::Dependency,
        ..work.unit(unit)
    };
    let jobs = without_start(work.jobs(unit));
    work.set_unit(unit, stands);
    work.set_jobs(unit, jobs);
}

/// The start of the unit with this number is gone if it waits, and the unit is to be followed then.
fn take(work: &mut Work<'_>, list: &mut Vec<usize>, unit: usize) -> Result<(), AllocError>
    requires { unit < length work.old.graph.names }
    ensures taken { OnOk result ((state_of work.new.now, list.new.items) ≡ taking.taken work.old.graph unit (state_of work.old.now, list.old.items)) }
    ensures keeps { OnOk result (Keeps work.old work.new) }
    ensures actions { OnOk result (work.new.actions ≡ work.old.actions) }
{
    if !is_waiting(work.jobs(unit).start) {
        return Ok(());
    }
    drop_start(work, unit);
    list.push(unit)?;
    Ok(())
}

/// The start of a neighbour is gone if it needs that of the unit in whose row it stands.
fn take_next(
    work: &mut Work<'_>,
    list: &mut Vec<usize>,
    neighbour: Neighbour,
) -> Result<(), AllocError>
    requires { neighbour.unit < length work.old.graph.names }
    ensures taken { OnOk result ((state_of work.new.now, list.new.items)
        ≡ taking.taken_next work.old.graph neighbour (state_of work.old.now, list.old.items)) }
    ensures keeps { OnOk result (Keeps work.old work.new) }
    ensures actions { OnOk result (work.new.actions ≡ work.old.actions) }
{
    if !needs_it(neighbour) || !neighbour.kinds.is_before() {
        return Ok(());
    }
    take(work, list, neighbour.unit)
}

/// The starts that need that of the unit with this number are gone.
fn take_all(work: &mut Work<'_>, list: &mut Vec<usize>, unit: usize) -> Result<(), AllocError>
    ensures taken { OnOk result ((state_of work.new.now, list.new.items)
        ≡ taking.taken_all work.old.graph (row_of work.old.graph.rows unit) (state_of work.old.now, list.old.items)) }
    ensures keeps { OnOk result (Keeps work.old work.new) }
    ensures actions { OnOk result (work.new.actions ≡ work.old.actions) }
{
    let row = work.graph().neighbours(unit);
    for neighbour in row {
        take_next(work, list, *neighbour)?;
    }
    Ok(())
}

/// The starts that need that of the failed unit with this number are gone, and so are those that need one of these; their units' results
/// say so. If memory is refused, the work is of no use.
pub fn take_along(work: &mut Work<'_>, failed: usize) -> Result<(), AllocError>
    ensures along { OnOk result ((name : List ℕ) → IsNumberOf work.old.graph failed name
        → AreTidyJobs (state_of work.old.now).pending → AreTidyUnits (state_of work.old.now).units
        → TakesAlong (state_of work.old.now) name (state_of work.new.now)) }
    ensures waits { OnOk result (NoMoreWait (state_of work.new.now).pending (state_of work.old.now).pending) }
    ensures subs { OnOk result (KeepsSubs (state_of work.old.now) (state_of work.new.now)) }
    ensures keeps { OnOk result (Keeps work.old work.new) }
    ensures actions { OnOk result (work.new.actions ≡ work.old.actions) }
{
    // The proof reads here that the graph serves.
    let _ = work.graph();
    let mut list = Vec::new(work.alloc());
    list.push(failed)?;
    'units: while let Some(unit) = list.pop() {
        take_all(work, &mut list, unit)?;
    }
    Ok(())
}
