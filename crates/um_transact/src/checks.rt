//! The checks of a plan, each over all units in the order of their names.

ghost use Rattle.std.specs.Prelude.{◌≡◌, ◌↔◌, IsTrue, length};
ghost use Rattle.um_graph.specs.Graph.{IsGraph};
ghost use Rattle.um_model.specs.declared.commands.JobMode.TheVariants.{Fail};
ghost use Rattle.um_transact.specs.Checks as told;
ghost use Rattle.um_transact.specs.Checks.{BarsBy, CannotStartBy, ChecksBy, ClashesBy, DropsBy};
ghost use Rattle.um_jobs.specs.Named.{jobs_at};
ghost use Rattle.um_wire.specs.Gives.{RefusesBy};

use crate::demands::marks_of;
use crate::refusals::check_start;
use crate::walk::Marks;
use std::alloc::Global;
use um_graph::Graph;
use um_jobs::{drops_one, jobs_of};
use um_model::{JobMode, UnitJobs};
use um_wire::{Refusal, clash, job_conflict};

fn is_started(marks: Marks) -> bool
    ensures { result ≡ told.is_started marks }
{
    marks.start || marks.restart
}

/// Refuses to start the unit with this number if it can't be started.
fn check_unit(alloc: Global, graph: &Graph, unit: usize) -> Result<(), Refusal>
    ensures { RefusesBy (CannotStartBy graph.now unit) result }
{
    match graph.name(unit) {
        Some(name) => match graph.loading(unit) {
            Some(loading) => check_start(alloc, name, loading),
            None => Ok(()),
        },
        None => Ok(()),
    }
}

/// Refuses the unit with this number if it is started and can't be.
fn check_bar(alloc: Global, graph: &Graph, marks: &[Marks], unit: usize) -> Result<(), Refusal>
    ensures { RefusesBy (BarsBy graph.now marks.now unit) result }
{
    if !is_started(marks_of(marks, unit)) {
        return Ok(());
    }
    check_unit(alloc, graph, unit)
}

/// Refuses a plan by which a unit is started that can't be: E4 to E6 of the least such unit.
pub fn check_bars(alloc: Global, graph: &Graph, marks: &[Marks]) -> Result<(), Refusal>
    ensures { ChecksBy (BarsBy graph.now marks.now) (length graph.now.names) result }
{
    for unit in 0..graph.len() {
        check_bar(alloc, graph, marks, unit)?;
    }
    Ok(())
}

/// Refuses the unit with this number if it is started and stopped.
fn check_clash(alloc: Global, graph: &Graph, marks: &[Marks], unit: usize) -> Result<(), Refusal>
    ensures { RefusesBy (ClashesBy graph.now marks.now unit) result }
{
    let marked = marks_of(marks, unit);
    if !is_started(marked) || !marked.stop {
        return Ok(());
    }
    match graph.name(unit) {
        Some(name) => Err(clash(alloc, name.as_str())?),
        None => Ok(()),
    }
}

/// Refuses a plan by which a unit is started and stopped: E8 of the least such unit.
pub fn check_clashes(alloc: Global, graph: &Graph, marks: &[Marks]) -> Result<(), Refusal>
    ensures { ChecksBy (ClashesBy graph.now marks.now) (length graph.now.names) result }
{
    for unit in 0..graph.len() {
        check_clash(alloc, graph, marks, unit)?;
    }
    Ok(())
}

fn is_fail(mode: JobMode) -> bool
    ensures { IsTrue result ↔ (mode ≡ Fail) }
{
    matches!(mode, JobMode::Fail)
}

/// Refuses in mode fail the unit with this number if one of its jobs is dropped.
fn check_drop(
    alloc: Global,
    graph: &Graph,
    mode: JobMode,
    pending: &[UnitJobs],
    plan: &[UnitJobs],
    unit: usize,
) -> Result<(), Refusal>
    ensures { RefusesBy (DropsBy graph.now mode pending.now plan.now unit) result }
{
    if !is_fail(mode) || !drops_one(jobs_of(pending, unit), jobs_of(plan, unit)) {
        return Ok(());
    }
    match graph.name(unit) {
        Some(name) => Err(job_conflict(alloc, name.as_str())?),
        None => Ok(()),
    }
}

/// Refuses in mode fail a plan by which a pending job is dropped: E10 of the least unit of which one is.
pub fn check_drops(
    alloc: Global,
    graph: &Graph,
    mode: JobMode,
    pending: &[UnitJobs],
    plan: &[UnitJobs],
) -> Result<(), Refusal>
    ensures { ChecksBy (DropsBy graph.now mode pending.now plan.now) (length graph.now.names) result }
{
    for unit in 0..graph.len() {
        check_drop(alloc, graph, mode, pending, plan, unit)?;
    }
    Ok(())
}
