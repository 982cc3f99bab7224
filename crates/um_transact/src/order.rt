//! The order of the pending jobs (systemd.unit(5), "Before=, After="): whether they would wait for one another in a circle.

ghost use Rattle.std.specs.Prelude.{◌≡◌, ◌+◌, ◌*◌, ◌/◌, ◌^◌, ◌<◌, ◌≤◌, ◌++◌, IfOk, OnOk, length, map, string_bytes, vec_len};
ghost use Rattle.um_graph.specs.Graph.{row_of};
ghost use Rattle.um_graph.specs.Kinds.{before_bit};
ghost use Rattle.um_model.specs.Jobs as jobs;
ghost use Rattle.um_model.specs.Plan.{NamesCycle};
ghost use Rattle.um_transact.specs.Checks.{OrdersBy};
ghost use Rattle.um_wire.specs.Gives.{RefusesBy};
ghost use Rattle.um_transact.specs.Order.{ArePairs, Node, number_of, pair_of, pairs_before, pairs_by, pairs_in};
ghost use Rattle.um_jobs.specs.Named.{jobs_at, jobs_by};
ghost use Rattle.um_graph.specs.Named.{Joins, name_at};

use std::alloc::{AllocError, Global};
use um_graph::{Graph, Neighbour};
use um_jobs::{is_waiting, jobs_of};
use um_model::{JobKind, JobState, UnitJobs};
use um_order::{Order, check};
use um_wire::{Refusal, Texts};

/// The number of a job: of each unit its stop job, and then its start job.
fn number_of(job: (JobKind, usize)) -> usize
    requires { job.1 < 2 ^ 62 }
    ensures { result ≡ number_of job }
{
    match job.0 {
        JobKind::Stop => job.1 * 2,
        JobKind::Start => job.1 * 2 + 1,
    }
}

/// How far a job of the plan is, if it is pending.
fn job_of(plan: &[UnitJobs], job: (JobKind, usize)) -> Option<JobState>
    ensures { result ≡ jobs.job_of job.0 (jobs_at plan.now job.1) }
{
    let jobs = jobs_of(plan, job.1);
    match job.0 {
        JobKind::Stop => jobs.stop,
        JobKind::Start => jobs.start,
    }
}

/// Adds that the first job is before the second, if it is pending and the second waits.
fn push_pair(
    pairs: &mut Vec<(usize, usize)>,
    plan: &[UnitJobs],
    first: (JobKind, usize),
    second: (JobKind, usize),
) -> Result<(), AllocError>
    requires { length plan.now ≤ 2 ^ 62 }
    ensures { OnOk result (pairs.new.items ≡ pairs.old.items ++ pair_of plan.now first second) }
{
    if job_of(plan, first).is_some() && is_waiting(job_of(plan, second)) {
        pairs.push((number_of(first), number_of(second)))?;
    }
    Ok(())
}

/// Adds the order of the jobs of two units, when x is before y.
fn push_before(
    pairs: &mut Vec<(usize, usize)>,
    plan: &[UnitJobs],
    x: usize,
    y: usize,
) -> Result<(), AllocError>
    requires { length plan.now ≤ 2 ^ 62 }
    ensures { OnOk result (pairs.new.items ≡ pairs.old.items ++ pairs_before plan.now x y) }
{
    push_pair(pairs, plan, (JobKind::Start, x), (JobKind::Start, y))?;
    push_pair(pairs, plan, (JobKind::Stop, y), (JobKind::Stop, x))?;
    push_pair(pairs, plan, (JobKind::Stop, x), (JobKind::Start, y))?;
    push_pair(pairs, plan, (JobKind::Stop, y), (JobKind::Start, x))?;
    Ok(())
}

fn push_by(
    pairs: &mut Vec<(usize, usize)>,
    plan: &[UnitJobs],
    unit: usize,
    neighbour: Neighbour,
) -> Result<(), AllocError>
    requires { length plan.now ≤ 2 ^ 62 }
    ensures { OnOk result (pairs.new.items ≡ pairs.old.items ++ pairs_by plan.now unit neighbour) }
{
    if neighbour.kinds.is_before() {
        push_before(pairs, plan, unit, neighbour.unit)?;
    }
    Ok(())
}

/// Adds the order from the row of a unit.
fn push_row(
    pairs: &mut Vec<(usize, usize)>,
    graph: &Graph,
    plan: &[UnitJobs],
    unit: usize,
) -> Result<(), AllocError>
    requires { length plan.now ≤ 2 ^ 62 }
    ensures { OnOk result (pairs.new.items ≡ pairs.old.items ++ pairs_in plan.now unit (row_of graph.now.rows unit)) }
{
    push_pair(pairs, plan, (JobKind::Stop, unit), (JobKind::Start, unit))?;
    for neighbour in graph.neighbours(unit) {
        push_by(pairs, plan, unit, *neighbour)?;
    }
    Ok(())
}

/// The order of the jobs, over their numbers. The row of a unit without a job gives none.
fn pairs(alloc: Global, graph: &Graph, plan: &[UnitJobs]) -> Result<Vec<(usize, usize)>, AllocError>
    requires { length plan.now ≤ 2 ^ 62 }
    ensures { IfOk result (λ pairs. ArePairs graph.now.rows plan.now (length graph.now.names) pairs.items) }
{
    let mut pairs = Vec::new(alloc);
    for unit in 0..graph.len() {
        if jobs_of(plan, unit).has_job() {
            push_row(&mut pairs, graph, plan, unit)?;
        }
    }
    Ok(pairs)
}

/// The name of the unit with this number; empty past the last one.
fn name_of(alloc: Global, graph: &Graph, unit: usize) -> Result<String, AllocError>
    ensures { IfOk result (λ text. string_bytes text ≡ name_at graph.now.names unit) }
{
    match graph.name(unit) {
        Some(name) => name.text(),
        None => Ok(String::new(alloc)),
    }
}

/// The names of the units of these jobs.
fn units_of(alloc: Global, graph: &Graph, cycle: &[usize]) -> Result<Texts, AllocError>
    ensures { IfOk result (λ units. map string_bytes units.items.items ≡ map (λ k. name_at graph.now.names (k / 2)) cycle.now) }
{
    let mut items = Vec::new(alloc);
    for node in cycle {
        items.push(name_of(alloc, graph, *node / 2)?)?;
    }
    Ok(Texts { items })
}

/// Refuses pending jobs, those of the units by number, that would wait for one another in a circle: E9 with the units of one such
/// circle, the least first. A unit past their end has none.
pub fn check_pending(alloc: Global, graph: &Graph, pending: &[UnitJobs]) -> Result<(), Refusal>
    ensures orders { OrdersBy (Joins graph.now before_bit) (jobs_by graph.now.names pending.now) result }
    ensures refuses { RefusesBy (NamesCycle (Joins graph.now before_bit) (jobs_by graph.now.names pending.now)) result }
{
    let pairs = pairs(alloc, graph, pending)?;
    match check(alloc, graph.len() * 2, &pairs)? {
        Order::Numbering(_) => Ok(()),
        Order::Cycle(cycle) => Err(Refusal::OrderingCycle {
            units: units_of(alloc, graph, &cycle)?,
        }),
    }
}
