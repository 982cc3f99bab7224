//! The room that a state takes.

ghost use Rattle.std.specs.Prelude.{◌≡◌, ◌↔◌, ◌++◌, ◌∷◌, ◌+◌, ◌*◌, ◌^◌, ◌≤◌, [], ℕ, List, Contains, IfOk, IfErr, MatchOption, OnOk};
ghost use Rattle.um_engine.specs.Filled.{AddsHeld};
ghost use Rattle.um_engine.specs.Served.{WorksOn};
ghost use Rattle.um_graph.specs.Graph.{IsNumberOf};
ghost use Rattle.um_model.specs.Dependencies.{CountsFor};
ghost use Rattle.um_model.specs.Machine.{IsHeld, IsTooHeavy};
ghost use Rattle.um_model.specs.Refusals.{no_room};
ghost use Rattle.um_state.specs.View.{state_of};
ghost use Rattle.um_wire.specs.Refusal.{refused_of};
ghost use Rattle.um_wire.specs.declared.refusal.Refusal.TheVariants.{NoMemory};

use crate::served::Served;
use std::alloc::{AllocError, Global};
use um_falling::Work;
use um_graph::{Graph, count_of};
use um_name::UnitName;
use um_state::State;
use um_wire::Refusal;

/// The weight of a state without trees and units.
const BASE_WEIGHT: u64 = 256;

/// The weight of a known unit.
const UNIT_WEIGHT: u64 = 2_048;

/// The loaded tree's count of units, with those that the state holds.
fn units(alloc: Global, served: &Served) -> Result<usize, AllocError>
    ensures { IfOk result (λ units. CountsFor served.now.state.loaded (IsHeld served.now.state) units) }
{
    let state = served.state();
    let known = served.known();
    if known.fits(state, None) {
        return Ok(known.graph().count());
    }
    let held = state.held(alloc)?;
    count_of(alloc, state.loaded(), &held)
}

/// The weight of a state whose trees have this weight and that has this number of units; None if it is too great for a `u64`.
fn weight(trees: u64, units: usize) -> Option<u64>
    ensures { MatchOption result (2 ^ 64 ≤ 256 + trees + 2048 * units) (λ w. w ≡ 256 + trees + 2048 * units) }
{
    let trees = trees.checked_add(BASE_WEIGHT)?;
    let units = UNIT_WEIGHT.checked_mul(units as u64)?;
    trees.checked_add(units)
}

/// Refuses a state that weighs more than a store of `size` bytes holds (E14).
pub fn check_room(alloc: Global, served: &Served, size: u64) -> Result<(), Refusal>
    ensures room { IfOk result (λ _. ¬ IsTooHeavy size served.now.state) }
    ensures refused { IfErr result (λ e. ¬ (e ≡ NoMemory) → (refused_of e ≡ no_room) × IsTooHeavy size served.now.state) }
{
    let units = units(alloc, served)?;
    match weight(served.trees_weight(), units) {
        Some(weight) if weight <= size => Ok(()),
        _ => Err(Refusal::NoRoom),
    }
}

/// Appends the name with this number.
fn push_name(names: &mut Vec<UnitName>, graph: &Graph, unit: usize) -> Result<(), AllocError>
    ensures { OnOk result ((name : List ℕ) → IsNumberOf graph.now unit name → names.new.items ≡ names.old.items ++ name ∷ []) }
{
    let Some(name) = graph.name(unit) else {
        return Ok(());
    };
    names.push(name.copy()?)?;
    Ok(())
}

/// Appends the name of the unit with this number if the work holds anything of it.
fn push_held(
    names: &mut Vec<UnitName>,
    graph: &Graph,
    work: &Work<'_>,
    unit: usize,
) -> Result<(), AllocError>
    requires { work.now.graph ≡ graph.now }
    ensures { OnOk result ((name : List ℕ) → IsNumberOf graph.now unit name → AddsHeld (state_of work.now.now) name names.old.items names.new.items) }
{
    if !work.holds(unit) {
        return Ok(());
    }
    push_name(names, graph, unit)?;
    Ok(())
}

/// The units of which the work holds anything.
pub fn held_in(alloc: Global, graph: &Graph, work: &Work<'_>) -> Result<Vec<UnitName>, AllocError>
    requires { work.now.graph ≡ graph.now }
    ensures { IfOk result (λ held. (unit : List ℕ) → Contains held.items unit ↔ IsHeld (state_of work.now.now) unit) }
{
    // the proof reads here that the graph serves
    let _ = work.graph();
    let mut held = Vec::new(alloc);
    for unit in 0..graph.len() {
        push_held(&mut held, graph, work, unit)?;
    }
    Ok(held)
}

/// The loaded tree's count of units, with those of which the work holds anything.
fn units_in(alloc: Global, served: &Served, work: &Work<'_>) -> Result<usize, AllocError>
    requires { WorksOn served.now work.now }
    ensures { IfOk result (λ units. CountsFor (state_of work.now.now).loaded (IsHeld (state_of work.now.now)) units) }
{
    // the proof reads here that the graph serves
    let _ = work.graph();
    let known = served.known();
    if known.fits_in(work) {
        return Ok(known.graph().count());
    }
    let held = held_in(alloc, known.graph(), work)?;
    count_of(alloc, served.state().loaded(), &held)
}

/// Refuses the state of the work if it weighs more than a store of `size` bytes holds (E14).
pub fn check_room_in(
    alloc: Global,
    served: &Served,
    work: &Work<'_>,
    size: u64,
) -> Result<(), Refusal>
    requires { WorksOn served.now work.now }
    ensures room { IfOk result (λ _. ¬ IsTooHeavy size (state_of work.now.now)) }
    ensures refused { IfErr result (λ e. ¬ (e ≡ NoMemory) → (refused_of e ≡ no_room) × IsTooHeavy size (state_of work.now.now)) }
{
    let units = units_in(alloc, served, work)?;
    match weight(served.trees_weight(), units) {
        Some(weight) if weight <= size => Ok(()),
        _ => Err(Refusal::NoRoom),
    }
}
