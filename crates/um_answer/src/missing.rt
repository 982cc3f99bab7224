//! Units that are missing: neither found in the loaded tree nor held in the state.

ghost use Rattle.std.specs.Prelude.{◌≡◌};
ghost use Rattle.um_answer.specs.Loaded.{is_found as finds};
ghost use Rattle.um_model.specs.Machine as model;
ghost use Rattle.um_model.specs.Units.{load};
ghost use Rattle.um_state.specs.View.{state_of};
ghost use Rattle.um_wire.specs.Gives.{RefusesBy};

use std::alloc::Global;
use um_name::UnitName;
use um_state::State;
use um_wire::{Refusal, not_loaded};

/// Refuses a unit that is neither found in the loaded tree nor held in the state (E7).
pub fn check_missing(
    alloc: Global,
    state: &State,
    asked: &UnitName,
    is_found: bool,
) -> Result<(), Refusal>
    requires { is_found ≡ finds (load (state_of state.now).loaded asked.now) }
    ensures { RefusesBy (model.IsMissing (state_of state.now) asked.now) result }
{
    if is_found || state.units().holds(asked) {
        return Ok(());
    }
    Err(not_loaded(alloc, asked.as_str())?)
}
