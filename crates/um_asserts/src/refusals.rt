//! Assertions about refusals.

ghost use Rattle.std.specs.Prelude.{◌↔◌, IfOk, IsSome, IsErr};

use std::alloc::{AllocError, Global};
use um_wire::Refusal;

/// The text that the refusal prints as: its number, name and details. None if the answer is no refusal.
pub fn printed<T: Drop>(
    alloc: Global,
    answer: Result<T, Refusal>,
) -> Result<Option<String>, AllocError>
    ensures { IfOk result (λ text. IsSome text ↔ IsErr answer) }
{
    match answer {
        Ok(_) => Ok(None),
        Err(refusal) => Ok(Some(refusal.to_string(alloc)?)),
    }
}

/// Asserts that the answer is a refusal that prints as this text.
#[macro_export]
macro_rules! is_refused {
    ($rt:expr, $answer:expr, $wanted:expr $(,)?) => {{
        let printed = $crate::printed($rt.alloc(), $answer).expect($rt, "no memory");
        $crate::compared(printed.as_deref(), Some($wanted)).expect($rt, "not refused so")
    }};
}

/// Asserts that the answer is the wanted one, in this row: a refusal that prints as this text, or no refusal.
#[macro_export]
macro_rules! is_refused_at {
    ($rt:expr, $answer:expr, $wanted:expr, $row:expr $(,)?) => {{
        let printed = $crate::printed($rt.alloc(), $answer).expect($rt, "no memory");
        $crate::compared_at(printed.as_deref(), $wanted, $row).expect($rt, "not refused so")
    }};
}
