//! The units that a verb takes: the requested one, those that its Also= names, and so on.

ghost use Rattle.std.specs.Prelude.{◌≡◌, ◌++◌, IfOk, OnOk, map as each, string_bytes};
ghost use Rattle.std.specs.FinMap as map;
ghost use Rattle.std.specs.List.{flat_map};
ghost use Rattle.um_model.specs.Names.{named};
ghost use Rattle.um_unit.specs.View.{loading_of, tree_read};
ghost use Rattle.um_install.specs.View.{units_of};
ghost use Rattle.um_install.specs.Walk.{AreWalked, also_in, listed, name_in, name_taken, units_with, waiting_with};

use std::alloc::{AllocError, Global};
use std::collections::BTreeMap;
use um_name::UnitName;
use um_resolve::unit_named;
use um_tree::Tree;
use um_unit::{Loading, Reading, load};

/// Units by their names, each with the outcome of its look-up.
pub(crate) type Units = BTreeMap<String, Loading>;

/// The name that is taken for a name.
#[derive(Clone, Copy)]
pub(crate) enum Naming {
    /// The unit to which it leads.
    AsResolved,
    /// The name as it is written.
    AsWritten,
}

/// The name that is taken for this one.
fn taken_for(
    alloc: Global,
    tree: &Tree,
    naming: Naming,
    name: &UnitName,
) -> Result<UnitName, AllocError>
    ensures { IfOk result (λ unit. unit ≡ name_taken naming tree.now name.now) }
{
    match naming {
        Naming::AsResolved => unit_named(alloc, tree, name),
        Naming::AsWritten => name.copy(),
    }
}

/// Adds the text, if it is a unit name.
fn push_name(alloc: Global, waiting: &mut Vec<UnitName>, text: &str) -> Result<(), AllocError>
    ensures { OnOk result (waiting.new.items ≡ waiting.old.items ++ listed (named text.now)) }
{
    if let Some(name) = UnitName::named(alloc, text)? {
        waiting.push(name)?;
    }
    Ok(())
}

/// Adds those of the texts that are unit names.
fn push_names(
    alloc: Global,
    waiting: &mut Vec<UnitName>,
    texts: &[String],
) -> Result<(), AllocError>
    ensures { OnOk result (waiting.new.items ≡ waiting.old.items ++ flat_map name_in (each string_bytes texts.now)) }
{
    for text in texts {
        push_name(alloc, waiting, text.as_str())?;
    }
    Ok(())
}

/// Adds the names in Also= of a unit.
fn push_also(
    alloc: Global,
    waiting: &mut Vec<UnitName>,
    loading: &Loading,
) -> Result<(), AllocError>
    ensures { OnOk result (waiting.new.items ≡ waiting.old.items ++ also_in (loading_of loading.now)) }
{
    match loading {
        Loading::Found(unit) => {
            push_names(alloc, waiting, unit.settings.install.also.as_slice())?;
            Ok(())
        }
        _ => Ok(()),
    }
}

/// Whether the unit of this name is among them.
pub(crate) fn contains(units: &Units, name: &str) -> bool
    ensures { result ≡ map.contains_key (units_of units.now.entries) name.now }
{
    units.contains_key(name)
}

/// Takes the unit, and has the names in its Also= wait, unless it is taken already.
fn take(
    alloc: Global,
    reading: Reading<'_>,
    units: &mut Units,
    waiting: &mut Vec<UnitName>,
    unit: &UnitName,
) -> Result<(), AllocError>
    ensures units { OnOk result (units_of units.new.entries ≡ units_with (tree_read reading.entry) (units_of units.old.entries) unit.now) }
    ensures waiting { OnOk result (waiting.new.items ≡ waiting_with (tree_read reading.entry) (units_of units.old.entries) waiting.old.items unit.now) }
{
    if contains(units, unit.as_str()) {
        return Ok(());
    }
    let loading = load(alloc, reading, unit)?;
    push_also(alloc, waiting, &loading)?;
    units.insert(String::from_str(alloc, unit.as_str())?, loading)?;
    Ok(())
}

/// The requested unit, those that its Also= names, and so on; each is loaded once.
pub(crate) fn walk(
    alloc: Global,
    reading: Reading<'_>,
    naming: Naming,
    asked: &UnitName,
) -> Result<Units, AllocError>
    ensures { IfOk result (λ units. AreWalked naming (tree_read reading.entry) asked.now (units_of units.entries)) }
{
    let mut units = BTreeMap::new(alloc);
    let mut waiting = Vec::new(alloc);
    waiting.push(asked.copy()?)?;
    let mut next = 0;
    while next < waiting.len() {
        let unit = taken_for(alloc, reading.tree, naming, &waiting[next])?;
        take(alloc, reading, &mut units, &mut waiting, &unit)?;
        next += 1;
    }
    Ok(units)
}
