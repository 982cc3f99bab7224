//! Lists of names, and one with a name more.

ghost use Rattle.std.specs.Prelude.{◌≡◌, ◌≢◌, ℕ, List, IfOk};
ghost use Rattle.um_name.specs.Names.{IsApart};

use std::alloc::{AllocError, Global};
use um_name::{Names, UnitName};

/// The names in their order, as a list of their own.
fn listed(alloc: Global, names: &Names) -> Result<Vec<UnitName>, AllocError>
    ensures { IfOk result (λ listed. listed.items ≡ names.now) }
{
    let mut listed = Vec::new(alloc);
    for i in 0..names.len() {
        match names.name(i) {
            Some(name) => listed.push(name.copy()?)?,
            None => unreachable!(),
        }
    }
    Ok(listed)
}

/// The names, with the unit's added.
pub(crate) fn names_with(alloc: Global, names: &Names, unit: &UnitName) -> Result<Names, AllocError>
    ensures { IfOk result (λ more. (x : List ℕ) → IsApart more x → IsApart names.now x × (x ≢ unit.now)) }
{
    let mut listed = listed(alloc, names)?;
    listed.push(unit.copy()?)?;
    Names::of(alloc, &listed)
}
