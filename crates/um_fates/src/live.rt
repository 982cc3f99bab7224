//! The numbers of live processes.

ghost use Rattle.std.specs.Prelude.{◌≡◌, true, false, IfOk};
ghost use Rattle.um_fates.specs.Live.{is_live, AreLive, IsIn};

use std::alloc::AllocError;
use um_model::{ProcessNumber, SubState};
use um_state::Units;

/// Whether the number is that of a live process. It takes no memory.
pub fn is_live(units: &Units, number: ProcessNumber) -> bool
    ensures { result ≡ is_live units.now.held number }
{
    units.process(number.get()).is_some()
}

/// Whether the number is that of a live process whose unit is in this state. It takes no memory.
pub fn is_in(units: &Units, sub: SubState, number: ProcessNumber) -> bool
    ensures yes { result ≡ true → IsIn units.now.held sub number }
    ensures no { result ≡ false → ¬ IsIn units.now.held sub number }
{
    match units.process(number.get()) {
        Some(unit) => units.get(unit).sub == sub,
        None => false,
    }
}

/// The numbers of the live processes, ascending.
pub fn live_numbers(units: &Units) -> Result<Vec<ProcessNumber>, AllocError>
    ensures { IfOk result (λ numbers. AreLive units.now.held numbers.items) }
{
    let mut numbers = units.live()?;
    numbers.sort_by_key(|number| number.get())?;
    numbers.dedup();
    Ok(numbers)
}
