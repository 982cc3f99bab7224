//! Which units have a ready job, kept up to date after each change.

ghost use Rattle.std.specs.Prelude.{◌≡◌, ◌<◌, ◌≤◌, ℕ, All, length, get_or, if◌then◌else◌, ◌||◌, ◌&&◌, ◌==◌, false, slice_set};
ghost use Rattle.um_graph.specs.declared.row.Neighbour.{Neighbour};
ghost use Rattle.um_jobs.specs.Counts as told;
ghost use Rattle.um_jobs.specs.Counts.{IsKept, is_listed};
ghost use Rattle.um_jobs.specs.Named.{jobs_at};

use crate::counts::{Blockers, recount, recount_all};
use crate::least::LeastSet;
use crate::table::is_waiting;
use um_graph::{Graph, Neighbour};
use um_model::UnitJobs;

/// Whether the stop of a unit waits, and for no other job.
pub fn is_stop_free(units: &[UnitJobs], counts: &[Blockers], unit: usize) -> bool
    requires units { unit < length units.now }
    requires counts { unit < length counts.now }
    ensures { result ≡ told.is_stop_free units.now counts.now unit }
{
    is_waiting(units[unit].stop) && counts[unit].stop == 0
}

/// Whether the start of a unit waits, for no other job, and the unit isn't deactivating.
fn is_start_free(units: &[UnitJobs], held: &[bool], counts: &[Blockers], unit: usize) -> bool
    requires units { unit < length units.now }
    requires held { unit < length held.now }
    requires counts { unit < length counts.now }
    ensures { result ≡ told.is_start_free units.now held.now counts.now unit }
{
    let jobs = units[unit];
    is_waiting(jobs.start) && jobs.stop.is_none() && !held[unit] && counts[unit].start == 0
}

/// Marks a unit if a job of it is ready, and clears the mark otherwise.
pub fn mark(
    ready: &mut LeastSet,
    units: &[UnitJobs],
    held: &[bool],
    counts: &[Blockers],
    unit: usize,
)
    requires ready { unit < length ready.old }
    requires units { unit < length units.now }
    requires held { unit < length held.now }
    requires counts { unit < length counts.now }
    ensures len { length ready.new ≡ length ready.old }
    ensures each { (u : ℕ) → get_or ready.new u false
        ≡ (if u == unit then told.is_free units.now held.now counts.now u else get_or ready.old u false) }
{
    let is_free = is_stop_free(units, counts, unit) || is_start_free(units, held, counts, unit);
    ready.set(unit, is_free);
}

/// Sets the marks of a unit's neighbours.
fn mark_row(
    ready: &mut LeastSet,
    units: &[UnitJobs],
    held: &[bool],
    counts: &[Blockers],
    row: &[Neighbour],
)
    requires ready { All (λ (n : Neighbour). n.unit < length ready.old) row.now }
    requires units { length ready.old ≤ length units.now }
    requires held { length ready.old ≤ length held.now }
    requires counts { length ready.old ≤ length counts.now }
    ensures len { length ready.new ≡ length ready.old }
    ensures each { (u : ℕ) → get_or ready.new u false
        ≡ (if is_listed row.now u then told.is_free units.now held.now counts.now u else get_or ready.old u false) }
{
    for neighbour in row {
        mark(ready, units, held, counts, neighbour.unit);
    }
}

/// The unit has just these jobs from now on; the counts and marks that this changes are updated.
pub fn change(
    graph: &Graph,
    units: &mut [UnitJobs],
    held: &[bool],
    counts: &mut [Blockers],
    ready: &mut LeastSet,
    unit: usize,
    jobs: UnitJobs,
)
    requires unit { unit < length units.old }
    requires kept { IsKept graph.now units.old held.now counts.old ready.old }
    ensures units { units.new ≡ slice_set units.old unit jobs }
    ensures kept { IsKept graph.now units.new held.now counts.new ready.new }
{
    let row = recount(graph, units, counts, unit, jobs);
    mark_row(ready, units, held, counts, row);
    mark(ready, units, held, counts, unit);
}

/// Sets the mark of each unit.
fn mark_all(ready: &mut LeastSet, units: &[UnitJobs], held: &[bool], counts: &[Blockers])
    requires ready { length ready.old ≡ length units.now }
    requires held { length held.now ≡ length units.now }
    requires counts { length counts.now ≡ length units.now }
    ensures len { length ready.new ≡ length ready.old }
    ensures each { (u : ℕ) → get_or ready.new u false ≡ told.is_free units.now held.now counts.now u }
{
    for unit in 0..units.len() {
        mark(ready, units, held, counts, unit);
    }
}

/// Each unit has just its jobs of the plan from now on. All counts are updated first and then the marks, so that no unit is marked as ready
/// while it waits for a later one.
pub fn change_all(
    graph: &Graph,
    units: &mut [UnitJobs],
    held: &[bool],
    counts: &mut [Blockers],
    ready: &mut LeastSet,
    plan: &[UnitJobs],
)
    requires kept { IsKept graph.now units.old held.now counts.old ready.old }
    ensures each { (u : ℕ) → u < length units.old → jobs_at units.new u ≡ jobs_at plan.now u }
    ensures whole { length plan.now ≡ length units.old → units.new ≡ plan.now }
    ensures len { length units.new ≡ length units.old }
    ensures kept { IsKept graph.now units.new held.now counts.new ready.new }
{
    recount_all(graph, units, counts, plan);
    mark_all(ready, units, held, counts);
}
