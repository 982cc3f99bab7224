//! The known units of a tree, and the tree's count of units, however many these are.

ghost use Rattle.std.specs.Prelude.{◌≡◌, ◌↔◌, ℕ, List, AllPairs, Contains, IfOk};
ghost use Rattle.std.specs.BTreeMap.{IsOrdered};
ghost use Rattle.std.specs.Cmp.Lexicographic.{slice_cmp};
ghost use Rattle.std.specs.Map.{keys_of};
ghost use Rattle.std.specs.Ordering.{nat_cmp};
ghost use Rattle.um_model.specs.Dependencies.{CountsFor, IsKnown, KnowsSoMany};
ghost use Rattle.um_model.specs.Least.{IsNamedBefore};
ghost use Rattle.um_model.specs.Profiles.{lasting_tree};
ghost use Rattle.um_unit.specs.View.{tree_read};

use crate::known::Known;
use std::alloc::{AllocError, Global};
use std::collections::BTreeMap;
use um_name::UnitName;
use um_unit::{Loading, Reading};

/// The number of units that are known by the tree.
fn known_count(alloc: Global, reading: Reading<'_>, extra: &[UnitName]) -> Result<usize, AllocError>
    ensures { IfOk result (λ count. KnowsSoMany (tree_read reading.entry) (Contains extra.now) count) }
{
    let known = Known::all(alloc, reading, extra)?;
    Ok(known.loaded.len())
}

/// The number of units that are known by the tree without its entries under `run/`.
fn lasting_count(
    alloc: Global,
    reading: Reading<'_>,
    extra: &[UnitName],
) -> Result<usize, AllocError>
    ensures { IfOk result (λ count. KnowsSoMany (lasting_tree (tree_read reading.entry)) (Contains extra.now) count) }
{
    let mut lasting = reading.tree.copy()?;
    lasting.clear_run();
    let reading = Reading {
        tree: &lasting,
        profile: reading.profile,
    };
    known_count(alloc, reading, extra)
}

/// The tree's count of units, with those that are named beside it: the greater of the counts of known units now and without the entries
/// under `run/`.
pub fn count_of(
    alloc: Global,
    reading: Reading<'_>,
    extra: &[UnitName],
) -> Result<usize, AllocError>
    ensures { IfOk result (λ count. CountsFor (tree_read reading.entry) (Contains extra.now) count) }
{
    let held = known_count(alloc, reading, extra)?;
    let lasting = lasting_count(alloc, reading, extra)?;
    Ok(held.max(lasting))
}

/// The name of an entry.
fn name_of(entry: (UnitName, Loading)) -> UnitName
    ensures { result ≡ entry.0 }
{
    let (name, _) = entry;
    name
}

/// The names, ascending.
fn names_of(alloc: Global, loaded: BTreeMap<UnitName, Loading>) -> Result<Vec<UnitName>, AllocError>
    ensures names { IfOk result (λ names. names.items ≡ keys_of loaded.entries) }
    ensures ordered { IfOk result (λ _. IsOrdered (slice_cmp nat_cmp) loaded) }
{
    let mut names = Vec::new(alloc);
    for entry in loaded {
        names.push(name_of(entry))?;
    }
    Ok(names)
}

/// The known units of the tree, with those that are named beside it, in the order of their names.
pub fn known_units(
    alloc: Global,
    reading: Reading<'_>,
    extra: &[UnitName],
) -> Result<Vec<UnitName>, AllocError>
    ensures known { IfOk result (λ names. (unit : List ℕ) → Contains names.items unit ↔ IsKnown (tree_read reading.entry) (Contains extra.now) unit) }
    ensures sorted { IfOk result (λ names. AllPairs IsNamedBefore names.items) }
{
    let known = Known::all(alloc, reading, extra)?;
    let names = names_of(alloc, known.loaded)?;
    Ok(names)
}
