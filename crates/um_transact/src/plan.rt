//! The plan of a transaction, or its first refusal.

ghost use Rattle.std.specs.Prelude.{◌≡◌, ◌≢◌, ◌≤◌, ◌<◌, ◌↔◌, [], ℕ, List, IfOk, IfErr, length, vec_len};
ghost use Rattle.um_graph.specs.Graph.{IsGraph, IsNumberOf};
ghost use Rattle.um_model.specs.Plan.{CausesOfPlan, IsPlan};
ghost use Rattle.um_model.specs.declared.dependencies.Demand.{Demand};
ghost use Rattle.um_model.specs.declared.jobs.UnitJobs.{UnitJobs};
ghost use Rattle.um_model.specs.declared.service.ActiveState.{ActiveState};
ghost use Rattle.um_transact.specs.Checks as checks;
ghost use Rattle.um_transact.specs.Checks.{planned_at};
ghost use Rattle.um_jobs.specs.Named.{jobs_at, jobs_by};
ghost use Rattle.um_transact.specs.Scene.{IsAccepted, IsRefused, scene_of};
ghost use Rattle.um_transact.specs.Situation.{IsDemandedBy};
ghost use Rattle.um_transact.specs.Transaction.{IsMade, TransactionView, scene_in, transaction};
ghost use Rattle.um_transact.specs.Walk.{Demanded, IsMarked, activity_at};
ghost use Rattle.um_wire.specs.Gives.{RefusesBy};
ghost use Rattle.um_wire.specs.Refusal.{refused_of};
ghost use Rattle.um_wire.specs.declared.refusal.Refusal.TheVariants.{NoMemory};

use crate::checks::{check_bars, check_clashes, check_drops};
use crate::demands::{demanded, marks_of};
use crate::order::check_pending;
use crate::walk::Marks;
use std::alloc::{AllocError, Global};
use std::marker::Model;
use um_graph::Graph;
use um_jobs::{jobs_for, jobs_of};
use um_model::{ActiveState, Demand, JobMode, UnitJobs};
use um_wire::Refusal;

/// The pending jobs after a transaction, unit by unit in the order of the graph.
#[derive(Drop)]
pub struct Plan {
    jobs: Vec<UnitJobs>,
}

impl Model for Plan {
    ghost Value = { List UnitJobs };

    ghost view = { λ p. p.jobs.items };
}

impl Plan {
    /// The jobs of the unit with this number; none past the last unit.
    pub fn jobs(&self, unit: usize) -> UnitJobs
        ensures { result ≡ jobs_at self.now unit }
    {
        jobs_of(&self.jobs, unit)
    }

    /// The jobs of each unit, in the order of their numbers.
    pub fn as_slice(&self) -> &[UnitJobs]
        ensures { result.now ≡ self.now }
    {
        self.jobs.as_slice()
    }
}

/// How active the unit with this number is.
fn activity_of(activity: &[ActiveState], unit: usize) -> ActiveState
    ensures { result ≡ activity_at activity.now unit }
{
    activity.get(unit).copied().unwrap_or(ActiveState::Inactive)
}

/// The demand that counts for a unit: if it is both restarted and started, the restart.
fn counted(met: Marks) -> Option<Demand>
    ensures { result ≡ checks.counted met }
{
    if met.restart {
        Some(Demand::Restart)
    } else if met.start {
        Some(Demand::Start)
    } else if met.stop {
        Some(Demand::Stop)
    } else {
        None
    }
}

/// The jobs of the unit with this number after the demand on it.
fn planned_jobs(
    marks: &[Marks],
    activity: &[ActiveState],
    pending: &[UnitJobs],
    unit: usize,
) -> UnitJobs
    ensures { result ≡ planned_at marks.now activity.now pending.now unit }
{
    jobs_for(
        counted(marks_of(marks, unit)),
        activity_of(activity, unit),
        jobs_of(pending, unit),
    )
}

/// The jobs of the first `units` units after the demands on them.
fn planned(
    alloc: Global,
    marks: &[Marks],
    activity: &[ActiveState],
    pending: &[UnitJobs],
    units: usize,
) -> Result<Vec<UnitJobs>, AllocError>
    ensures long { IfOk result (λ plan. vec_len plan ≡ units) }
    ensures each { IfOk result (λ plan. (u : ℕ) → u < units → jobs_at plan.items u ≡ planned_at marks.now activity.now pending.now u) }
{
    let mut plan = Vec::new(alloc);
    for unit in 0..units {
        plan.push(planned_jobs(marks, activity, pending, unit))?;
    }
    Ok(plan)
}

/// The demands that the demand on the unit with this number brings, marked unit by unit; none if that is past the last unit.
fn marks_for(
    alloc: Global,
    graph: &Graph,
    activity: &[ActiveState],
    root: (Demand, usize),
) -> Result<Vec<Marks>, AllocError>
    ensures graph { IsGraph graph.now }
    ensures marks { root.1 < length graph.now.names
        → IfOk result (λ marks. (q : Demanded) → IsMarked marks.items q ↔ IsDemandedBy graph.now activity.now root q) }
    ensures past { length graph.now.names ≤ root.1 → IfOk result (λ marks. marks.items ≡ []) }
{
    if root.1 >= graph.len() {
        return Ok(Vec::new(alloc));
    }
    demanded(alloc, graph, activity, root)
}

/// Refuses the plan for the first cause that applies, by the marks of the demands.
fn check_plan(
    alloc: Global,
    graph: &Graph,
    marks: &[Marks],
    mode: JobMode,
    pending: &[UnitJobs],
    plan: &[UnitJobs],
) -> Result<(), Refusal>
    ensures { (activity : List ActiveState) (root : Demand × ℕ) (name : List ℕ) → IsMade marks.now (transaction graph.now activity pending.now root plan.now)
        → IsNumberOf graph.now root.1 name
        → RefusesBy (CausesOfPlan (scene_of graph.now activity pending.now) (root.0, name) mode (jobs_by graph.now.names plan.now)) result }
{
    check_bars(alloc, graph, marks)?;
    check_clashes(alloc, graph, marks)?;
    check_drops(alloc, graph, mode, pending, plan)?;
    check_pending(alloc, graph, plan)?;
    Ok(())
}

/// The pending jobs after a demand on one unit of a graph, before anything refuses it (systemctl(1), `start`, `stop`, `restart`).
#[derive(Drop)]
pub struct Transaction<'t> {
    graph: &'t Graph,
    activity: &'t [ActiveState],
    pending: &'t [UnitJobs],
    root: (Demand, usize),
    marks: Vec<Marks>,
    plan: Plan,
}

impl<'t> Model for Transaction<'t> {
    ghost Value = { TransactionView };

    ghost view = { λ t. transaction t.graph.now t.activity.now t.pending.now t.root t.plan };

    ghost invariant = { λ t. IsMade t.marks.items (transaction t.graph.now t.activity.now t.pending.now t.root t.plan) };
}

impl<'t> Transaction<'t> {
    /// The transaction for the demand on the unit with this number. `activity` and `pending` have each unit's activity and pending jobs by
    /// number; a unit past their ends is inactive, or has none. A demand on a unit past the last of the graph demands nothing: the plan is
    /// the pending jobs.
    pub fn of(
        alloc: Global,
        graph: &'t Graph,
        activity: &'t [ActiveState],
        pending: &'t [UnitJobs],
        demand: Demand,
        unit: usize,
    ) -> Result<Transaction<'t>, AllocError>
        ensures graph { IfOk result (λ t. t.graph ≡ graph.now) }
        ensures activity { IfOk result (λ t. t.activity ≡ activity.now) }
        ensures pending { IfOk result (λ t. t.pending ≡ pending.now) }
        ensures root { IfOk result (λ t. t.root ≡ (demand, unit)) }
    {
        let root = (demand, unit);
        let marks = marks_for(alloc, graph, activity, root)?;
        let jobs = planned(alloc, &marks, activity, pending, graph.len())?;
        Ok(Transaction {
            graph,
            activity,
            pending,
            root,
            marks,
            plan: Plan { jobs },
        })
    }

    /// The pending jobs after it.
    pub fn plan(&self) -> &Plan
        ensures plan { result.now ≡ self.now.plan }
        ensures long { length self.now.plan ≡ length self.now.graph.names }
        ensures planned { (name : List ℕ) → IsNumberOf self.now.graph self.now.root.1 name
            → IsPlan (scene_in self.now) (self.now.root.0, name) (jobs_by self.now.graph.names self.now.plan) }
        ensures past { length self.now.graph.names ≤ self.now.root.1 → (u : ℕ) → u < length self.now.graph.names → jobs_at self.now.plan u ≡ jobs_at self.now.pending u }
    {
        &self.plan
    }

    /// The plan, without the rest of the transaction.
    pub fn into_plan(self) -> Plan
        ensures plan { result ≡ self.entry.plan }
        ensures long { length self.entry.plan ≡ length self.entry.graph.names }
        ensures planned { (name : List ℕ) → IsNumberOf self.entry.graph self.entry.root.1 name
            → IsPlan (scene_in self.entry) (self.entry.root.0, name) (jobs_by self.entry.graph.names self.entry.plan) }
        ensures past { length self.entry.graph.names ≤ self.entry.root.1 → (u : ℕ) → u < length self.entry.graph.names → jobs_at self.entry.plan u ≡ jobs_at self.entry.pending u }
    {
        self.plan
    }

    /// Refuses the transaction in this mode (systemctl(1), `--job-mode=`) for the first cause that applies:
    /// - E4 to E6 of the least unit that would be started and can't be;
    /// - E8 of the least unit that would be started and stopped;
    /// - in mode fail E10 of the least unit of which a pending job would be dropped;
    /// - E9 with the units of a circle in which pending jobs would wait for one another, the least first.
    ///
    /// Want of memory is E15.
    pub fn check(&self, alloc: Global, mode: JobMode) -> Result<(), Refusal>
        ensures causes { (name : List ℕ) → IsNumberOf self.now.graph self.now.root.1 name
            → RefusesBy (CausesOfPlan (scene_in self.now) (self.now.root.0, name) mode (jobs_by self.now.graph.names self.now.plan)) result }
        ensures whole { length self.now.graph.names ≤ self.now.root.1 → IfErr result (λ e. e ≡ NoMemory) }
    {
        if self.root.1 >= self.graph.len() {
            return Ok(());
        }
        check_plan(
            alloc,
            self.graph,
            &self.marks,
            mode,
            self.pending,
            &self.plan.jobs,
        )
    }
}

/// The pending jobs after the demand on the unit with this number, in this mode (systemctl(1), `start`, `stop`, `restart`,
/// `--job-mode=`). It is refused for the first cause that applies:
/// - E4 to E6 of the least unit that would be started and can't be;
/// - E8 of the least unit that would be started and stopped;
/// - in mode fail E10 of the least unit of which a pending job would be dropped;
/// - E9 with the units of a circle in which pending jobs would wait for one another, the least first.
///
/// Want of memory is E15. `activity` and `pending` have each unit's activity and pending jobs by number; a unit past their ends is inactive,
/// or has none. A demand on a unit past the last of the graph demands nothing: the plan is the pending jobs.
pub fn build(
    alloc: Global,
    graph: &Graph,
    activity: &[ActiveState],
    pending: &[UnitJobs],
    demand: Demand,
    unit: usize,
    mode: JobMode,
) -> Result<Plan, Refusal>
    ensures long { IfOk result (λ plan. length plan ≡ length graph.now.names) }
    ensures accepted { IfOk result (λ plan. (name : List ℕ) → IsNumberOf graph.now unit name
        → IsAccepted (scene_of graph.now activity.now pending.now) (demand, name) mode (jobs_by graph.now.names plan)) }
    ensures refused { IfErr result (λ e. e ≢ NoMemory → (name : List ℕ) → IsNumberOf graph.now unit name
        → IsRefused (scene_of graph.now activity.now pending.now) (demand, name) mode (refused_of e)) }
    ensures past { length graph.now.names ≤ unit → IfOk result (λ plan. (u : ℕ) → u < length graph.now.names → jobs_at plan u ≡ jobs_at pending.now u) }
    ensures whole { length graph.now.names ≤ unit → IfErr result (λ e. e ≡ NoMemory) }
{
    let transaction = Transaction::of(alloc, graph, activity, pending, demand, unit)?;
    transaction.check(alloc, mode)?;
    Ok(transaction.into_plan())
}
