//! Whether anything ran yet since the boot.

ghost use Rattle.std.specs.Prelude.{◌↔◌, IsTrue};
ghost use Rattle.um_serve.specs.Starting.{HasRunNothing};
ghost use Rattle.um_state.specs.View.{state_of};

use std::alloc::Global;
use um_state::{Pending, State, Units};

/// Whether nothing ran yet since the boot: no unit has an entry in the state, and no job is pending. It takes no memory.
pub fn has_run_nothing(alloc: Global, state: &State) -> bool
    ensures { IsTrue result ↔ HasRunNothing (state_of state.now) }
{
    state.units().is_same(&Units::new(alloc)) && state.pending().is_same(&Pending::new(alloc))
}
