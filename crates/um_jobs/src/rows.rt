//! Which job is ready by the rows of the units, if there are no counts.

ghost use Rattle.std.specs.List.{list_any};
ghost use Rattle.std.specs.Prelude.{◌≡◌, ◌<◌, true, Bool, List, length, slice_set, IfSome, MatchOption};
ghost use Rattle.um_graph.specs.Graph.{GraphView, row_of};
ghost use Rattle.um_jobs.specs.Jobs.{IsReadyIn, held_at, job_named};
ghost use Rattle.um_jobs.specs.RowReady as told;
ghost use Rattle.um_jobs.specs.RowReady.{ArePassed};
ghost use Rattle.um_model.specs.Jobs.{IsToldBefore, Job};
ghost use Rattle.um_model.specs.Least.{IsLeast};

use crate::table::{binds_as_before, is_waiting, jobs_of};
use um_graph::{Graph, Neighbour};
use um_model::{JobKind, UnitJobs};

/// Whether the unit with this number counts as deactivating; one past the last doesn't.
pub fn is_held(held: &[bool], unit: usize) -> bool
    ensures { result ≡ held_at held.now unit }
{
    held.get(unit).copied().unwrap_or(false)
}

/// Whether the stop of a unit waits for the stop of this neighbour.
fn holds_stop(units: &[UnitJobs], neighbour: Neighbour) -> bool
    ensures { result ≡ told.holds_stop units.now neighbour }
{
    neighbour.kinds.is_before() && jobs_of(units, neighbour.unit).stop.is_some()
}

/// Whether the start of a unit waits for a job of this neighbour.
fn holds_start(units: &[UnitJobs], neighbour: Neighbour) -> bool
    ensures { result ≡ told.holds_start units.now neighbour }
{
    let jobs = jobs_of(units, neighbour.unit);
    let (is_before, is_after) = (neighbour.kinds.is_before(), neighbour.kinds.is_after());
    (is_after && jobs.start.is_some()) || ((is_before || is_after) && jobs.stop.is_some())
}

/// Whether one of the neighbours holds the stop of the unit in whose row they stand.
fn is_stop_held(units: &[UnitJobs], row: &[Neighbour]) -> bool
    ensures { result ≡ list_any (told.holds_stop units.now) row.now }
{
    row.iter().any(|neighbour| holds_stop(units, *neighbour))
}

/// Whether one of the neighbours holds the start of the unit in whose row they stand.
fn is_start_held(units: &[UnitJobs], row: &[Neighbour]) -> bool
    ensures { result ≡ list_any (told.holds_start units.now) row.now }
{
    row.iter().any(|neighbour| holds_start(units, *neighbour))
}

/// Whether the first neighbour that the unit with this number comes after has a pending start. As a rule a start waits for that, and the
/// row needn't be looked at then.
fn awaits_first(graph: &Graph, units: &[UnitJobs], unit: usize) -> bool
    ensures first { result ≡ told.awaits_first graph.now units.now unit }
    ensures holds { result ≡ true → list_any (told.holds_start units.now) (row_of graph.now.rows unit) ≡ true }
{
    match graph.first_after(unit) {
        Some(first) => jobs_of(units, first).start.is_some(),
        None => false,
    }
}

/// Whether the stop of the unit with this number waits, and for no other of these jobs, which are those of the graph's units by their
/// numbers.
fn is_stop_ready(graph: &Graph, units: &[UnitJobs], unit: usize) -> bool
    ensures { result ≡ told.is_stop_ready graph.now units.now unit }
{
    is_waiting(jobs_of(units, unit).stop) && !is_stop_held(units, graph.neighbours(unit))
}

/// Whether the start of the unit with this number waits, for no other of these jobs, and the unit isn't deactivating.
fn is_start_ready(graph: &Graph, units: &[UnitJobs], held: &[bool], unit: usize) -> bool
    ensures { result ≡ told.is_start_ready graph.now units.now held.now unit }
{
    let jobs = jobs_of(units, unit);
    is_waiting(jobs.start)
        && jobs.stop.is_none()
        && !is_held(held, unit)
        && !awaits_first(graph, units, unit)
        && !is_start_held(units, graph.neighbours(unit))
}

/// The ready job of the unit with this number, its stop before its start; None if none is ready.
fn ready_kind(graph: &Graph, units: &[UnitJobs], held: &[bool], unit: usize) -> Option<JobKind>
    ensures { result ≡ told.ready_kind graph.now (record { graph = graph.now; units = units.now; held = held.now }) unit }
{
    if is_stop_ready(graph, units, unit) {
        Some(JobKind::Stop)
    } else if is_start_ready(graph, units, held, unit) {
        Some(JobKind::Start)
    } else {
        None
    }
}

/// The least ready job with the number of its unit, found by going over the units after the first `passed`, which have none; None if none
/// is ready. It takes no memory.
pub fn next_ready(
    graph: &Graph,
    units: &[UnitJobs],
    held: &[bool],
    passed: usize,
) -> Option<(usize, JobKind)>
    requires { ArePassed graph.now units.now held.now passed }
    ensures least { MatchOption result ((job : Job) → ¬ IsReadyIn graph.now (record { graph = graph.now; units = units.now; held = held.now }) job)
        (λ r. IsLeast IsToldBefore (IsReadyIn graph.now (record { graph = graph.now; units = units.now; held = held.now })) (job_named graph.now r.0 r.1)) }
    ensures within { IfSome result (λ r. r.0 < length graph.now.names) }
{
    for unit in passed..graph.len() {
        if let Some(kind) = ready_kind(graph, units, held, unit) {
            return Some((unit, kind));
        }
    }
    None
}

/// The number of units, from the first on, that are still known to have no ready job, if `passed` were, once the unit with this number has
/// just these jobs.
pub fn still_passed(units: &[UnitJobs], unit: usize, jobs: UnitJobs, passed: usize) -> usize
    ensures { (g : GraphView) (held : List Bool) → ArePassed g units.now held passed → ArePassed g (slice_set units.now unit jobs) held result }
{
    match units.get(unit) {
        Some(before) if !binds_as_before(*before, jobs) => 0,
        _ => passed,
    }
}

/// The same, once the unit with this number counts as deactivating or not.
pub fn passed_with(held: &[bool], unit: usize, deactivating: bool, passed: usize) -> usize
    ensures { (g : GraphView) (units : List UnitJobs) → ArePassed g units held.now passed → ArePassed g units (slice_set held.now unit deactivating) result }
{
    if deactivating { passed } else { 0 }
}
