//! The changes that happenings make.

ghost use Rattle.std.specs.Bool.{Decides};
ghost use Rattle.std.specs.Prelude.{◌≡◌, ◌↔◌, ◌&&◌, ℕ, true, [], Contains, map, vec_len, IfOk, IsTrue};
ghost use Rattle.um_engine.specs.Engine.{DoesBy, FollowsUpon, KeepsExact, MetBy};
ghost use Rattle.um_engine.specs.Served.{begun_at, standing_of};
ghost use Rattle.um_falling.specs.Over.{Serves};
ghost use Rattle.um_falling.specs.Work.{Goes, Keeps};
ghost use Rattle.um_model.specs.Ends.{waits_for_report};
ghost use Rattle.um_model.specs.Machine as model;
ghost use Rattle.um_model.specs.Service.{is_number, state_of_unit};
ghost use Rattle.um_state.specs.View.{state_of, happening_of, action_of};
ghost use Rattle.um_wire.specs.declared.refusal.Refusal.TheVariants.{NoMemory};

use crate::engine::{Change, change_by};
use crate::numbered::number_of;
use crate::served::Served;
use crate::settling::{fire, settle};
use std::alloc::{AllocError, Global};
use um_falling::{Work, happen, kind_in};
use um_graph::Graph;
use um_model::{End, Moment, ProcessNumber, UnitEvent, UnitState};
use um_name::UnitName;
use um_service::has_one_command;
use um_state::{Action, BootId, Delta, Happening, State};
use um_wire::Refusal;

/// The unit's event at the end of its process.
fn end_of(state: UnitState, number: u64, end: End) -> UnitEvent
    ensures { result ≡ model.end_of state number end }
{
    match state.main {
        Some(main) if main.get() == number => UnitEvent::MainEnds(end),
        _ => UnitEvent::ControlEnds(end),
    }
}

/// The change when something happens to a unit of the graph and jobs that this makes ready begin; and the actions.
fn after_happening(
    alloc: Global,
    served: &Served,
    moment: Moment,
    unit: &UnitName,
    event: UnitEvent,
) -> Result<(Change, Vec<Action>), AllocError>
    requires { Contains served.now.known.graph.names unit.now }
    ensures does { IfOk result (λ r. DoesBy (FollowsUpon moment served.now.state unit.now event) moment (standing_of served.now) r.0 (map action_of r.1.items)) }
    ensures exact { IfOk result (λ r. KeepsExact served.now r.0) }
{
    let mut work = served.work(alloc, moment)?;
    let number = number_of(work.graph(), unit);
    happen(&mut work, number, event)?;
    settle(&mut work)?;
    let (delta, actions) = work.done()?;
    let change = change_by(alloc, served, delta)?;
    Ok((change, actions))
}

/// The change by the end of a process; none if no live process has the number.
fn after_end(
    alloc: Global,
    served: &Served,
    moment: Moment,
    number: u64,
    end: End,
) -> Result<(Change, Vec<Action>), AllocError>
    ensures met { IfOk result (λ met. MetBy moment (standing_of served.now) (model.ProcessEnded number end) met.0 (map action_of met.1.items)) }
    ensures exact { IfOk result (λ met. KeepsExact served.now met.0) }
{
    let units = served.state().units();
    let unit = match units.process(number) {
        Some(unit) => unit,
        None => return Ok((Change::Nothing, Vec::new(alloc))),
    };
    let event = end_of(units.get(unit), number, end);
    let (change, actions) = after_happening(alloc, served, moment, unit, event)?;
    Ok((change, actions))
}

/// Whether the process is there and has the number.
fn is_number(number: u64, process: Option<ProcessNumber>) -> bool
    ensures { result ≡ is_number number process }
{
    match process {
        Some(process) => process.get() == number,
        None => false,
    }
}

/// Whether a unit that stands so may wait for a report of the process with this number: it is the main process, and the start isn't done.
fn may_await(stands: UnitState, number: u64) -> bool
    ensures { result ≡ (waits_for_report stands.sub && is_number number stands.main) }
{
    stands.sub.waits_for_report() && is_number(number, stands.main)
}

/// Whether the unit waits for the report that the program of its main process runs, and that process has the number. The graph is looked
/// into only if the unit stands so.
fn awaits_report(graph: &Graph, stands: UnitState, number: u64, unit: &UnitName) -> bool
    ensures { (s : model.State) → Serves graph.now s → Contains graph.now.names unit.now → stands ≡ state_of_unit s.units unit.now
        → Decides result (model.AwaitsReport s number unit.now) }
{
    if !may_await(stands, number) {
        return false;
    }
    match graph.number(unit) {
        Some(unit) => has_one_command(kind_in(graph, unit)),
        None => false,
    }
}

/// Whether this is a report for which no unit waits, as far as that is clear without a look at any unit. `false` says nothing.
pub fn is_unawaited(state: &State, happening: &Happening) -> bool
    ensures { result ≡ true → (t : ℕ) → model.HasNoEffect t (state_of state.now) (happening_of happening.now) }
{
    match happening {
        Happening::ProcessExecuted { number } => !state.units().may_await(*number),
        Happening::ProcessEnded { .. } | Happening::Tick | Happening::Booted { .. } => false,
    }
}

/// The change by the report that a process's program runs; none if no unit waits for it.
fn after_report(
    alloc: Global,
    served: &Served,
    moment: Moment,
    number: u64,
) -> Result<(Change, Vec<Action>), AllocError>
    ensures met { IfOk result (λ met. MetBy moment (standing_of served.now) (model.ProcessExecuted number) met.0 (map action_of met.1.items)) }
    ensures exact { IfOk result (λ met. KeepsExact served.now met.0) }
{
    let units = served.state().units();
    let unit = match units.process(number) {
        Some(unit) => unit,
        None => return Ok((Change::Nothing, Vec::new(alloc))),
    };
    if !awaits_report(served.known().graph(), units.get(unit), number, unit) {
        return Ok((Change::Nothing, Vec::new(alloc)));
    }
    let event = UnitEvent::Executed;
    let (change, actions) = after_happening(alloc, served, moment, unit, event)?;
    Ok((change, actions))
}

/// Whether the next number hasn't changed.
fn keeps_next(work: &Work<'_>, state: &State) -> bool
    ensures { IsTrue result ↔ ((state_of work.now.now).next ≡ (state_of state.now).next) }
{
    work.next().get() == state.next().get()
}

/// Whether a tick changed no row and no number, and took no action.
fn is_idle(keeps_next: bool, delta: &Delta, actions: &[Action]) -> bool
    ensures { IsTrue result ↔ ((keeps_next ≡ true) × (vec_len delta.now.rows ≡ 0) × (map action_of actions.now ≡ [])) }
{
    keeps_next && delta.len() == 0 && actions.is_empty()
}

/// The work in which the deadlines that are due at the moment fired.
fn fired<'s>(alloc: Global, served: &'s Served, moment: Moment) -> Result<Work<'s>, AllocError>
    ensures follows { IfOk result (λ work. Goes (model.Follows moment served.now.state model.Tick)
        (begun_at (standing_of served.now) served.now.known.graph moment) work) }
    ensures keeps { IfOk result (λ work. Keeps (begun_at (standing_of served.now) served.now.known.graph moment) work) }
{
    let timers = served.state().units().deadlines()?;
    let mut work = served.work(alloc, moment)?;
    fire(&mut work, timers)?;
    Ok(work)
}

/// The change by a tick; none if it leaves all rows as they are and takes no action. With no deadline due there is none, and nothing is
/// copied.
fn after_tick(
    alloc: Global,
    served: &Served,
    moment: Moment,
) -> Result<(Change, Vec<Action>), AllocError>
    ensures met { IfOk result (λ met. MetBy moment (standing_of served.now) model.Tick met.0 (map action_of met.1.items)) }
    ensures exact { IfOk result (λ met. KeepsExact served.now met.0) }
{
    let state = served.state();
    if state.units().none_due(moment) {
        return Ok((Change::Nothing, Vec::new(alloc)));
    }
    let work = fired(alloc, served, moment)?;
    let is_next = keeps_next(&work, state);
    let (delta, actions) = work.done()?;
    if is_idle(is_next, &delta, actions.as_slice()) {
        return Ok((Change::Nothing, actions));
    }
    let change = change_by(alloc, served, delta)?;
    Ok((change, actions))
}

/// The error for a refusal that can only be want of memory.
fn want_of_memory(refusal: Refusal) -> AllocError
    requires { ¬ ¬ (refusal ≡ NoMemory) }
{
    match refusal {
        Refusal::NoMemory => AllocError,
        _ => unreachable!(),
    }
}

/// The change by a boot with this id: the entries under `run/` are gone, and `Known` is made again. None if the id is the known one.
fn after_boot(
    alloc: Global,
    served: &Served,
    moment: Moment,
    boot: &BootId,
) -> Result<Change, AllocError>
    ensures met { IfOk result (λ change. MetBy moment (standing_of served.now) (model.Booted boot.now) change []) }
    ensures exact { IfOk result (KeepsExact served.now) }
{
    let state = served.state();
    if boot.as_str() == state.boot().as_str() {
        return Ok(Change::Nothing);
    }
    let id = boot.copy()?;
    let mut after = state.copy()?;
    after.begin_boot(alloc, id);
    after.set_clock(moment);
    match Served::of(alloc, after) {
        Ok(served) => Ok(Change::Tables(served, None)),
        Err(refusal) => Err(want_of_memory(refusal)),
    }
}

/// The change by a happening at the moment, and the actions.
pub fn met(
    alloc: Global,
    served: &Served,
    moment: Moment,
    happening: &Happening,
) -> Result<(Change, Vec<Action>), AllocError>
    ensures met { IfOk result (λ met. MetBy moment (standing_of served.now) (happening_of happening.now) met.0 (map action_of met.1.items)) }
    ensures exact { IfOk result (λ met. KeepsExact served.now met.0) }
{
    match happening {
        Happening::ProcessEnded { number, end } => after_end(alloc, served, moment, *number, *end),
        Happening::ProcessExecuted { number } => after_report(alloc, served, moment, *number),
        Happening::Tick => after_tick(alloc, served, moment),
        Happening::Booted { boot } => {
            let change = after_boot(alloc, served, moment, boot)?;
            Ok((change, Vec::new(alloc)))
        }
    }
}
