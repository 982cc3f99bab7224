//! How the plan of a unit command changes the state (systemctl(1), "start", "stop", "restart", "try-restart").

ghost use Rattle.std.specs.Prelude.{◌≡◌, [], ℕ, List, Contains, false, IfOk, MatchOption, OnOk, length};
ghost use Rattle.um_answer.specs.Loaded.{is_found as finds};
ghost use Rattle.um_engine.specs.Demanded.{Demands, wants_it_there};
ghost use Rattle.um_engine.specs.Known.{IsGraphFor, KnowsFor};
ghost use Rattle.um_engine.specs.Outcomes.{IsBasedOn, IsSilent, state_by};
ghost use Rattle.um_engine.specs.Planned.{AreActive, ArePending, HasPlan, IsTransactionFor};
ghost use Rattle.um_engine.specs.Served.{WorksOn, begun_at, standing_of};
ghost use Rattle.um_falling.specs.Work.{Keeps};
ghost use Rattle.um_graph.specs.Graph.{IsGraph, IsNumberOf};
ghost use Rattle.um_jobs.specs.Named.{jobs_by};
ghost use Rattle.um_model.specs.Jobs.{AreTidyJobs};
ghost use Rattle.um_model.specs.Machine as model;
ghost use Rattle.um_model.specs.Machine.{IsHeldOr};
ghost use Rattle.um_model.specs.Service.{active_state_of, state_of_unit};
ghost use Rattle.um_model.specs.Units.{load as load_in};
ghost use Rattle.um_model.specs.declared.dependencies.Demand as demands;
ghost use Rattle.um_state.specs.View.{state_of};
ghost use Rattle.um_wire.specs.Gives.{RefusesBy};
ghost use Rattle.um_model.specs.declared.profile.Profile.{Profile};

use crate::between::Trees;
use crate::commands::Outcome;
use crate::jobs::demand_of;
use crate::known::Known;
use crate::numbered::{jobs_in, number_of};
use crate::room::held_in;
use crate::served::Served;
use std::alloc::{AllocError, Global};
use std::rc::Rc;
use um_answer::{Asked, check_missing};
use um_falling::Work;
use um_graph::Graph;
use um_model::{ActiveState, Demand, JobMode, Moment, UnitJobs, UnitVerb};
use um_name::UnitName;
use um_state::{Reply, State};
use um_transact::Transaction;
use um_wire::Refusal;

/// How active the unit with this number is.
fn activity_of(work: &Work<'_>, unit: usize) -> ActiveState
    ensures { (x : List ℕ) → IsNumberOf work.now.graph unit x → result ≡ active_state_of (state_of_unit (state_of work.now.now).units x).sub }
{
    work.unit(unit).sub.active_state()
}

/// How active each unit is, by number.
fn activity(work: &Work<'_>) -> Result<Vec<ActiveState>, AllocError>
    ensures active { IfOk result (λ activity. AreActive work.now.graph (state_of work.now.now) activity.items) }
    ensures graph { IsGraph work.now.graph }
{
    let mut activity = Vec::new(work.alloc());
    for unit in 0..work.graph().len() {
        activity.push(activity_of(work, unit))?;
    }
    Ok(activity)
}

/// How active the units of a graph are, and their pending jobs, by number.
#[derive(Drop)]
struct Situation {
    activity: Vec<ActiveState>,
    pending: Vec<UnitJobs>,
}

/// How the units stand in the work.
fn situation_of(work: &Work<'_>) -> Result<Situation, AllocError>
    ensures active { IfOk result (λ at. AreActive work.now.graph (state_of work.now.now) at.activity.items) }
    ensures pends { IfOk result (λ at. ArePending work.now.graph (state_of work.now.now) at.pending.items) }
    ensures tidy { IfOk result (λ _. AreTidyJobs (state_of work.now.now).pending) }
{
    Ok(Situation {
        activity: activity(work)?,
        pending: Vec::from_slice(work.alloc(), work.pending())?,
    })
}

/// The transaction for the demand on a unit of the graph.
fn transaction<'t>(
    alloc: Global,
    graph: &'t Graph,
    situation: &'t Situation,
    demand: Demand,
    unit: &UnitName,
) -> Result<Transaction<'t>, AllocError>
    requires { Contains graph.now.names unit.now }
    ensures made { IfOk result (λ t. (s : model.State) → IsGraphFor s.loaded (IsHeldOr s unit.now) graph.now → AreActive graph.now s situation.now.activity.items
        → ArePending graph.now s situation.now.pending.items → IsTransactionFor s (demand, unit.now) t) }
    ensures graph { IfOk result (λ t. t.graph ≡ graph.now) }
{
    let number = number_of(graph, unit);
    Transaction::of(
        alloc,
        graph,
        &situation.activity,
        &situation.pending,
        demand,
        number,
    )
}

/// Puts these jobs, of each unit by its number. It takes no memory.
fn put_jobs(work: &mut Work<'_>, jobs: &[UnitJobs])
    requires long { length jobs.now ≡ length work.old.graph.names }
    requires tidy { AreTidyJobs (state_of work.old.now).pending }
    ensures state { state_of work.new.now ≡ record (state_of work.old.now) { pending = jobs_by work.old.graph.names jobs.now } }
    ensures keeps { Keeps work.old work.new }
    ensures actions { work.new.actions ≡ work.old.actions }
{
    for unit in 0..work.graph().len() {
        work.set_jobs(unit, jobs[unit]);
    }
}

/// Puts the jobs of the plan, of each unit by its number. If memory is refused, all is as before.
fn put_plan(work: &mut Work<'_>, plan: &[UnitJobs]) -> Result<(), AllocError>
    requires long { length plan.now ≡ length work.old.graph.names }
    requires tidy { AreTidyJobs (state_of work.old.now).pending }
    ensures state { OnOk result (state_of work.new.now ≡ record (state_of work.old.now) { pending = jobs_by work.old.graph.names plan.now }) }
    ensures keeps { OnOk result (Keeps work.old work.new) }
    ensures actions { OnOk result (work.new.actions ≡ work.old.actions) }
{
    let mut jobs = jobs_in(work)?;
    jobs.install(plan);
    put_jobs(work, jobs.as_slice());
    Ok(())
}

/// A command's demand on the unit.
fn demand_for(state: &State, verb: UnitVerb, unit: &UnitName) -> Option<Demand>
    ensures { result ≡ model.demand_of verb (active_state_of (state_of_unit (state_of state.now).units unit.now).sub) }
{
    demand_of(verb, state.units().get(unit).sub.active_state())
}

/// Whether the command is for a unit that must be there already.
fn wants_it_there(verb: UnitVerb) -> bool
    ensures { result ≡ wants_it_there verb }
{
    matches!(verb, UnitVerb::Stop | UnitVerb::TryRestart)
}

/// Refuses a command for a unit that must be there already if it is missing (E7).
fn check_there(
    alloc: Global,
    state: &State,
    verb: UnitVerb,
    asked: &UnitName,
    is_found: bool,
) -> Result<(), Refusal>
    requires { is_found ≡ finds (load_in (state_of state.now).loaded asked.now) }
    ensures { RefusesBy (model.IsNotThere (state_of state.now) verb asked.now) result }
{
    if !wants_it_there(verb) {
        return Ok(());
    }
    check_missing(alloc, state, asked, is_found)
}

/// Refuses too many known units with those of which the work holds anything (E13).
fn check_crowded(alloc: Global, served: &Served, work: &Work<'_>) -> Result<(), Refusal>
    requires { WorksOn served.now work.now }
    ensures { RefusesBy (model.IsCrowded (state_of work.now.now).loaded (model.IsHeld (state_of work.now.now))) result }
{
    let graph = work.graph();
    if served.known().lasts_in(work) {
        return Ok(());
    }
    let held = held_in(alloc, graph, work)?;
    Known::with_units(alloc, served.state().loaded(), held)?;
    Ok(())
}

/// A command for a unit: the verb, the requested name, whether that is found, and the mode.
#[derive(Clone, Copy)]
struct Wanted<'a> {
    verb: UnitVerb,
    asked: &'a UnitName,
    is_found: bool,
    mode: JobMode,
}

/// Puts the jobs of the transaction. Refused, in this order: too many known units with the jobs of the plan (E13), a unit that isn't there
/// (E7), and what `Transaction::check` refuses. After a refusal the work is of no use.
fn put_checked(
    alloc: Global,
    served: &Served,
    work: &mut Work<'_>,
    transaction: &Transaction<'_>,
    wanted: &Wanted<'_>,
) -> Result<(), Refusal>
    requires finds { wanted.now.is_found ≡ finds (load_in served.now.state.loaded wanted.now.asked.now) }
    requires begins { work.old ≡ begun_at (standing_of served.now) served.now.known.graph work.old.moment }
    requires works { WorksOn served.now work.old }
    requires graph { transaction.now.graph ≡ work.old.graph }
    requires tidy { AreTidyJobs (state_of work.old.now).pending }
    ensures planned { OnOk result ((root : demands.Demand × List ℕ) → IsTransactionFor served.now.state root transaction.now
        → HasPlan served.now.state root (state_of work.new.now)) }
    ensures works { OnOk result (WorksOn served.now work.new) }
    ensures moment { OnOk result (work.new.moment ≡ work.old.moment) }
    ensures actions { OnOk result (work.new.actions ≡ work.old.actions) }
    ensures refused { (profile : Profile) (demand : demands.Demand) (unit : List ℕ)
        → Demands served.now.state wanted.now.verb wanted.now.asked.now wanted.now.is_found demand unit → IsTransactionFor served.now.state (demand, unit) transaction.now
        → RefusesBy (model.Refuses profile served.now.state (model.ForUnit wanted.now.verb wanted.now.asked.now wanted.now.mode)) result }
{
    put_plan(work, transaction.plan().as_slice())?;
    check_crowded(alloc, served, work)?;
    check_there(
        alloc,
        served.state(),
        wanted.verb,
        wanted.asked,
        wanted.is_found,
    )?;
    transaction.check(alloc, wanted.mode)?;
    Ok(())
}

/// Puts the plan for the demand on a known unit. Refused as `put_checked` is; the work is of no use then.
fn plan_in(
    alloc: Global,
    served: &Served,
    work: &mut Work<'_>,
    demand: Demand,
    unit: &UnitName,
    wanted: &Wanted<'_>,
) -> Result<(), Refusal>
    requires demands { Demands served.now.state wanted.now.verb wanted.now.asked.now wanted.now.is_found demand unit.now }
    requires exact { IsGraphFor served.now.state.loaded (IsHeldOr served.now.state unit.now) served.now.known.graph }
    requires begins { work.old ≡ begun_at (standing_of served.now) served.now.known.graph work.old.moment }
    requires works { WorksOn served.now work.old }
    ensures planned { OnOk result (HasPlan served.now.state (demand, unit.now) (state_of work.new.now)) }
    ensures works { OnOk result (WorksOn served.now work.new) }
    ensures moment { OnOk result (work.new.moment ≡ work.old.moment) }
    ensures actions { OnOk result (work.new.actions ≡ work.old.actions) }
    ensures refused { (profile : Profile) → RefusesBy (model.Refuses profile served.now.state (model.ForUnit wanted.now.verb wanted.now.asked.now wanted.now.mode)) result }
{
    let situation = situation_of(work)?;
    let transaction = transaction(alloc, work.graph(), &situation, demand, unit)?;
    put_checked(alloc, served, work, &transaction, wanted)
}

/// The work with the plan for the demand on a known unit. Refused as `put_checked` is.
fn planned_in<'s>(
    alloc: Global,
    served: &'s Served,
    moment: Moment,
    demand: Demand,
    unit: &UnitName,
    wanted: &Wanted<'_>,
) -> Result<Work<'s>, Refusal>
    requires demands { Demands served.now.state wanted.now.verb wanted.now.asked.now wanted.now.is_found demand unit.now }
    requires exact { IsGraphFor served.now.state.loaded (IsHeldOr served.now.state unit.now) served.now.known.graph }
    ensures planned { IfOk result (λ work. HasPlan served.now.state (demand, unit.now) (state_of work.now)) }
    ensures works { IfOk result (λ work. WorksOn served.now work) }
    ensures moment { IfOk result (λ work. work.moment ≡ moment) }
    ensures actions { IfOk result (λ work. work.actions ≡ []) }
    ensures refused { (profile : Profile) → RefusesBy (model.Refuses profile served.now.state (model.ForUnit wanted.now.verb wanted.now.asked.now wanted.now.mode)) result }
{
    let mut work = served.work(alloc, moment)?;
    plan_in(alloc, served, &mut work, demand, unit, wanted)?;
    Ok(work)
}

/// Carries out the plan for the demand on a known unit, at the state's moment, and returns whether that changes any job. Refused as
/// `put_checked` is.
fn carry_out(
    alloc: Global,
    served: &mut Served,
    demand: Demand,
    unit: &UnitName,
    wanted: &Wanted<'_>,
) -> Result<bool, Refusal>
    requires demands { Demands served.old.state wanted.now.verb wanted.now.asked.now wanted.now.is_found demand unit.now }
    requires exact { IsGraphFor served.old.state.loaded (IsHeldOr served.old.state unit.now) served.old.known.graph }
    ensures planned { OnOk result (HasPlan served.old.state (demand, unit.now) served.new.state) }
    ensures same { IfOk result (λ changes. changes ≡ false → served.new.state ≡ served.old.state) }
    ensures refused { (profile : Profile) → RefusesBy (model.Refuses profile served.old.state (model.ForUnit wanted.now.verb wanted.now.asked.now wanted.now.mode)) result }
{
    let moment = served.state().clock();
    let work = planned_in(alloc, served, moment, demand, unit, wanted)?;
    let (mut delta, _) = work.done()?;
    let changes = delta.len() > 0;
    served.swap(&mut delta);
    Ok(changes)
}

/// The state after a plan by other known units, at its own moment. None if the plan changes no job.
fn planned_with(
    alloc: Global,
    served: &Served,
    known: Rc<Known>,
    demand: Demand,
    unit: &UnitName,
    wanted: &Wanted<'_>,
) -> Result<Option<Served>, Refusal>
    requires demands { Demands served.now.state wanted.now.verb wanted.now.asked.now wanted.now.is_found demand unit.now }
    requires knows { KnowsFor known.value served.now.state }
    requires exact { IsGraphFor served.now.state.loaded (IsHeldOr served.now.state unit.now) known.value.graph }
    ensures planned { IfOk result (λ made. MatchOption made (HasPlan served.now.state (demand, unit.now) served.now.state)
        (λ u. HasPlan served.now.state (demand, unit.now) u.state)) }
    ensures refused { (profile : Profile) → RefusesBy (model.Refuses profile served.now.state (model.ForUnit wanted.now.verb wanted.now.asked.now wanted.now.mode)) result }
{
    let state = served.state().copy()?;
    let mut changed = Served::numbered(state, known)?;
    let changes = carry_out(alloc, &mut changed, demand, unit, wanted)?;
    if changes {
        return Ok(Some(changed));
    }
    Ok(None)
}

/// The outcome of the plan for the demand on a unit: rows, if `Known` fits and stays, or if the plan changes no job.
fn planned_by<'s>(
    alloc: Global,
    served: &'s Served,
    known: Rc<Known>,
    moment: Moment,
    demand: Demand,
    unit: &UnitName,
    wanted: &Wanted<'_>,
) -> Result<Outcome<'s>, Refusal>
    requires demands { Demands served.now.state wanted.now.verb wanted.now.asked.now wanted.now.is_found demand unit.now }
    requires knows { KnowsFor known.value served.now.state }
    requires exact { IsGraphFor served.now.state.loaded (IsHeldOr served.now.state unit.now) known.value.graph }
    ensures planned { IfOk result (λ o. HasPlan served.now.state (demand, unit.now) (state_by o)) }
    ensures silent { IfOk result (λ o. IsSilent o) }
    ensures based { IfOk result (λ o. IsBasedOn served.now moment o) }
    ensures refused { (profile : Profile) → RefusesBy (model.Refuses profile served.now.state (model.ForUnit wanted.now.verb wanted.now.asked.now wanted.now.mode)) result }
{
    if served.known().fits(served.state(), Some(unit)) {
        let work = planned_in(alloc, served, moment, demand, unit, wanted)?;
        if served.known().lasts_in(&work) {
            return Ok(Outcome::Rows(work));
        }
    }
    let planned = planned_with(alloc, served, known, demand, unit, wanted)?;
    let Some(changed) = planned else {
        return Ok(Outcome::Rows(served.work(alloc, moment)?));
    };
    Ok(Outcome::Tables(changed, Reply::Done, Trees::Stay))
}

/// The outcome of the plan of a command for the unit that was found for it.
fn planned_for<'s>(
    alloc: Global,
    served: &'s Served,
    moment: Moment,
    unit: &UnitName,
    wanted: &Wanted<'_>,
) -> Result<Outcome<'s>, Refusal>
    requires same { unit.now ≡ model.unit_asked served.now.state wanted.now.asked.now }
    requires finds { wanted.now.is_found ≡ finds (load_in served.now.state.loaded wanted.now.asked.now) }
    ensures changed { (profile : Profile) → IfOk result (λ o. model.Changes profile served.now.state (model.ForUnit wanted.now.verb wanted.now.asked.now wanted.now.mode) (state_by o)) }
    ensures silent { IfOk result (λ o. IsSilent o) }
    ensures based { IfOk result (λ o. IsBasedOn served.now moment o) }
    ensures refused { (profile : Profile) → RefusesBy (model.Refuses profile served.now.state (model.ForUnit wanted.now.verb wanted.now.asked.now wanted.now.mode)) result }
{
    let state = served.state();
    let known = served.known_with(alloc, unit)?;
    let Some(demand) = demand_for(state, wanted.verb, unit) else {
        check_there(alloc, state, wanted.verb, wanted.asked, wanted.is_found)?;
        return Ok(Outcome::Rows(served.work(alloc, moment)?));
    };
    let outcome = planned_by(alloc, served, known, moment, demand, unit, wanted)?;
    Ok(outcome)
}

/// The outcome of the plan of a unit command, before any job begins: rows, if `Known` stays. Refused, in this order: too many known units
/// with the named one or with the jobs of the plan (E13), a missing unit (E7), and what `Transaction::check` refuses.
pub fn planned<'s>(
    alloc: Global,
    served: &'s Served,
    moment: Moment,
    verb: UnitVerb,
    asked: &UnitName,
    mode: JobMode,
) -> Result<Outcome<'s>, Refusal>
    ensures changed { (profile : Profile) → IfOk result (λ o. model.Changes profile served.now.state (model.ForUnit verb asked.now mode) (state_by o)) }
    ensures silent { IfOk result (λ o. IsSilent o) }
    ensures based { IfOk result (λ o. IsBasedOn served.now moment o) }
    ensures refused { (profile : Profile) → RefusesBy (model.Refuses profile served.now.state (model.ForUnit verb asked.now mode)) result }
{
    let state = served.state();
    let Asked { unit, is_found } = Asked::of(alloc, served.known().graph(), state.loaded(), asked)?;
    let wanted = Wanted {
        verb,
        asked,
        is_found,
        mode,
    };
    planned_for(alloc, served, moment, &unit, &wanted)
}
