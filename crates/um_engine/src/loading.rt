//! What loading a tree does to the state (systemctl(1), "daemon-reload").

ghost use Rattle.std.specs.Prelude.{◌≡◌, IfOk, Contains, ℕ, List};
ghost use Rattle.um_engine.specs.Known.{KnowsFor};
ghost use Rattle.um_model.specs.Machine.{CausesOfLoad, IsBefore, IsHeld};
ghost use Rattle.um_model.specs.Plan.{NamesCycle};
ghost use Rattle.um_model.specs.Profiles.{ReadTree};
ghost use Rattle.um_unit.specs.View.{tree_read};
ghost use Rattle.um_state.specs.View.{state_of};
ghost use Rattle.um_wire.specs.Gives.{RefusesBy};

use crate::known::Known;
use crate::numbered::pending_by_number;
use std::alloc::Global;
use std::rc::Rc;
use um_state::State;
use um_transact::check_pending;
use um_unit::Reading;
use um_wire::Refusal;

/// Refuses pending jobs that would wait for one another in a circle by the order of this `Known`'s tree (E9).
pub fn check_order(alloc: Global, known: &Known, state: &State) -> Result<(), Refusal>
    ensures { (tree : ReadTree) → KnowsFor known.now (record (state_of state.now) { loaded = tree })
        → RefusesBy (NamesCycle (IsBefore tree) (state_of state.now).pending) result }
{
    let pending = pending_by_number(alloc, known.graph(), state)?;
    check_pending(alloc, known.graph(), &pending)?;
    Ok(())
}

/// The `Known` of a tree that the state may load, as it is read then. Refused with too many known units (E13), and with pending jobs that
/// would wait for one another in a circle (E9).
pub fn known_of_loaded(
    alloc: Global,
    state: &State,
    reading: Reading<'_>,
) -> Result<Rc<Known>, Refusal>
    ensures knows { IfOk result (λ k. KnowsFor k.value (record (state_of state.now) { loaded = tree_read reading.entry })) }
    ensures held { IfOk result (λ k. (unit : List ℕ) → Contains k.value.extra unit → IsHeld (state_of state.now) unit) }
    ensures refused { RefusesBy (CausesOfLoad (state_of state.now) (tree_read reading.entry)) result }
{
    let known = Known::of(alloc, reading, state, None)?;
    check_order(alloc, &known, state)?;
    Ok(known)
}
