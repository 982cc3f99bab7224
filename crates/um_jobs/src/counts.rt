//! The number of pending jobs of other units before a job.

ghost use Rattle.std.specs.Prelude.{◌≡◌, ◌<◌, ◌≤◌, ◌+◌, ◌^◌, ℕ, All, length, slice_set};
ghost use Rattle.um_graph.specs.Graph.{row_of};
ghost use Rattle.um_graph.specs.declared.row.Neighbour.{Neighbour};
ghost use Rattle.um_jobs.specs.Counts as told;
ghost use Rattle.um_jobs.specs.Counts.{IsCounted, IsCountedAnew, MayCountAnew, before_start, before_stop, behind, start_at, stop_at};
ghost use Rattle.um_jobs.specs.Named.{jobs_at};

use crate::table::jobs_of;
use um_graph::{Graph, Neighbour};
use um_model::UnitJobs;

/// The number of pending jobs of other units before the stop of a unit, and before its start.
#[derive(Clone, Copy, Debug, PartialEq, Eq)]
pub struct Blockers {
    pub stop: u32,
    pub start: u32,
}

impl Blockers {
    /// No job comes before them.
    pub const NONE: Blockers = Blockers { stop: 0, start: 0 };

    /// The pending jobs of the unit in whose row the neighbour stands, counted before those of the neighbour.
    fn behind(jobs: UnitJobs, neighbour: Neighbour) -> Blockers
        ensures stop { result.stop ≡ behind before_stop jobs neighbour }
        ensures start { result.start ≡ behind before_start jobs neighbour }
    {
        // The row has the unit's relation to the neighbour; this is the inverse.
        let is_before = neighbour.kinds.is_after();
        let is_after = neighbour.kinds.is_before();
        let is_ordered = is_before || is_after;
        let stops = one_if(is_ordered && jobs.stop.is_some());
        Blockers {
            stop: one_if(is_before && jobs.stop.is_some()),
            start: one_if(is_after && jobs.start.is_some()) + stops,
        }
    }

    /// The counts with the new ones in place of the old ones.
    fn recounted(self, old: Blockers, new: Blockers) -> Blockers
        requires stop { old.stop ≤ self.stop }
        requires start { old.start ≤ self.start }
        requires stop_room { self.stop + new.stop < 2 ^ 32 }
        requires start_room { self.start + new.start < 2 ^ 32 }
        ensures stop { result.stop + old.stop ≡ self.stop + new.stop }
        ensures start { result.start + old.start ≡ self.start + new.start }
    {
        Blockers {
            stop: self.stop - old.stop + new.stop,
            start: self.start - old.start + new.start,
        }
    }
}

fn one_if(holds: bool) -> u32
    ensures { result ≡ told.one_if holds }
{
    if holds { 1 } else { 0 }
}

/// Whether other jobs of a unit are pending than before. A job that begins was pending already.
fn changes_pending(old: UnitJobs, new: UnitJobs) -> bool
    ensures { result ≡ told.changes_pending old new }
{
    old.stop.is_some() != new.stop.is_some() || old.start.is_some() != new.start.is_some()
}

/// The neighbours in a unit's row whose counts change when it has the new jobs in place of the old ones.
fn touched(row: &[Neighbour], old: UnitJobs, new: UnitJobs) -> &[Neighbour]
    ensures { result.now ≡ told.touched row.now old new }
{
    if changes_pending(old, new) { row } else { &[] }
}

/// Counts the unit's new jobs in place of the old ones, for each of its neighbours.
fn count_anew(counts: &mut [Blockers], row: &[Neighbour], old: UnitJobs, new: UnitJobs)
    requires within { All (λ (n : Neighbour). n.unit < length counts.old) row.now }
    requires stops { MayCountAnew before_stop (stop_at counts.old) old new row.now }
    requires starts { MayCountAnew before_start (start_at counts.old) old new row.now }
    ensures stops { IsCountedAnew before_stop (stop_at counts.old) (stop_at counts.new) old new row.now }
    ensures starts { IsCountedAnew before_start (start_at counts.old) (start_at counts.new) old new row.now }
{
    for neighbour in row {
        let was = Blockers::behind(old, *neighbour);
        let is = Blockers::behind(new, *neighbour);
        counts[neighbour.unit] = counts[neighbour.unit].recounted(was, is);
    }
}

/// The unit has just these jobs from now on, and the jobs before those of its neighbours are counted again. Returns the neighbours whose
/// counts may differ.
pub fn recount<'g>(
    graph: &'g Graph,
    units: &mut [UnitJobs],
    counts: &mut [Blockers],
    unit: usize,
    jobs: UnitJobs,
) -> &'g [Neighbour]
    requires unit { unit < length units.old }
    requires counted { IsCounted graph.now units.old counts.old }
    ensures units { units.new ≡ slice_set units.old unit jobs }
    ensures counted { IsCounted graph.now units.new counts.new }
    ensures row { result.now ≡ told.touched (row_of graph.now.rows unit) (jobs_at units.old unit) jobs }
    ensures stops { IsCountedAnew before_stop (stop_at counts.old) (stop_at counts.new) (jobs_at units.old unit) jobs result.now }
    ensures starts { IsCountedAnew before_start (start_at counts.old) (start_at counts.new) (jobs_at units.old unit) jobs result.now }
{
    let old = units[unit];
    let row = touched(graph.neighbours(unit), old, jobs);
    units[unit] = jobs;
    count_anew(counts, row, old, jobs);
    row
}

/// Each unit has just its jobs of the plan from now on, and the jobs before them are counted again.
pub fn recount_all(
    graph: &Graph,
    units: &mut [UnitJobs],
    counts: &mut [Blockers],
    plan: &[UnitJobs],
)
    requires counted { IsCounted graph.now units.old counts.old }
    ensures each { (u : ℕ) → u < length units.old → jobs_at units.new u ≡ jobs_at plan.now u }
    ensures len { length units.new ≡ length units.old }
    ensures counted { IsCounted graph.now units.new counts.new }
{
    for unit in 0..units.len() {
        recount(graph, units, counts, unit, jobs_of(plan, unit));
    }
}
