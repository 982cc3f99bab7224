//! Assertions that a value is the wanted one.

ghost use Rattle.std.specs.Prelude.{◌≡◌, IfOk, IfErr, true, false};

use std::fmt::Debug;

/// A value that isn't the wanted one, and the wanted one.
#[derive(Debug, Drop)]
pub struct Mismatch<T> {
    pub got: T,
    pub wanted: T,
}

/// A value that isn't the wanted one, the wanted one, and the row.
#[derive(Debug, Drop)]
pub struct MismatchAt<T, R> {
    pub got: T,
    pub wanted: T,
    pub row: R,
}

/// Ok if the value is the wanted one, else both values.
pub fn compared<T: PartialEq + Debug + Drop>(got: T, wanted: T) -> Result<(), Mismatch<T>>
    ensures ok { IfOk result (λ _. T.eq got wanted ≡ true) }
    ensures err { IfErr result (λ e. (T.eq got wanted ≡ false) × (e.got ≡ got) × (e.wanted ≡ wanted)) }
{
    if got == wanted {
        Ok(())
    } else {
        Err(Mismatch { got, wanted })
    }
}

/// Ok if the value is the wanted one, else both values with the row.
pub fn compared_at<T: PartialEq + Debug + Drop, R: Debug + Drop>(
    got: T,
    wanted: T,
    row: R,
) -> Result<(), MismatchAt<T, R>>
    ensures ok { IfOk result (λ _. T.eq got wanted ≡ true) }
    ensures err { IfErr result (λ e. (T.eq got wanted ≡ false) × (e.got ≡ got) × (e.wanted ≡ wanted) × (e.row ≡ row)) }
{
    if got == wanted {
        Ok(())
    } else {
        Err(MismatchAt { got, wanted, row })
    }
}

/// Asserts that the value is the wanted one.
#[macro_export]
macro_rules! same {
    ($rt:expr, $got:expr, $wanted:expr $(,)?) => {
        $crate::compared($got, $wanted).expect($rt, "not as wanted")
    };
}

/// Asserts that the value is the wanted one, in this row.
#[macro_export]
macro_rules! same_at {
    ($rt:expr, $got:expr, $wanted:expr, $row:expr $(,)?) => {
        $crate::compared_at($got, $wanted, $row).expect($rt, "not as wanted")
    };
}
