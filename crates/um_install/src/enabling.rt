//! Enabling: the requested links, and why they aren't made.

ghost use Rattle.std.specs.Prelude.{◌≡◌, Some, None, true, false, is_none, IfOk, map as each, option_map};
ghost use Rattle.std.specs.FinMap as map;
ghost use Rattle.um_model.specs.Install as model;
ghost use Rattle.um_model.specs.Refusals as told;
ghost use Rattle.um_model.specs.Tree.{IsTree};
ghost use Rattle.um_model.specs.Units.{Found};
ghost use Rattle.um_model.specs.declared.install.InstallVerb.TheVariants as verbs;
ghost use Rattle.um_model.specs.declared.refusals.Limit.TheVariants.{Entries};
ghost use Rattle.um_unit.specs.View.{loading_of, tree_read, unit_of};
ghost use Rattle.um_install.specs.Changes.{linked};
ghost use Rattle.um_wire.specs.Gives.{Gives, RefusesBy};
ghost use Rattle.um_install.specs.Checks as checks;
ghost use Rattle.um_install.specs.View.{link_of, targets_of as targets_seen, units_of};

use crate::fitness::least_unfit;
use crate::links::{LinkAt, Targets, linked_name, links_of, targets_of};
use crate::occupied::{has_room, least_occupied};
use crate::walk::{Naming, Units, walk};
use std::alloc::{AllocError, Global};
use um_name::UnitName;
use um_tree::Tree;
use um_unit::{LoadedUnit, Loading, Reading};
use um_wire::{Limit, Refusal, bad_path, bad_setting, exists_at, masked, not_found};

/// Refuses the least path that isn't served, or at which its link may not stand (E12).
fn check_fit(alloc: Global, tree: &Tree, links: &[LinkAt]) -> Result<(), Refusal>
    ensures { RefusesBy (checks.Names told.bad_path (checks.least_of checks.is_unfit None (each link_of links.now))) result }
{
    match least_unfit(tree, links) {
        Some(path) => Err(bad_path(alloc, path)?),
        None => Ok(()),
    }
}

/// Refuses the least path that has another entry, or for which another link is requested (E11).
fn check_free(
    alloc: Global,
    tree: &Tree,
    targets: &Targets,
    links: &[LinkAt],
) -> Result<(), Refusal>
    ensures { RefusesBy (checks.Names told.exists_at (checks.least_of (checks.is_occupied tree.now (targets_seen targets.now.entries)) None (each link_of links.now))) result }
{
    match least_occupied(tree, targets, links) {
        Some(path) => Err(exists_at(alloc, path)?),
        None => Ok(()),
    }
}

/// Refuses more new paths than there is room for (E13 `entries`).
fn check_room(tree: &Tree, targets: &Targets) -> Result<(), Refusal>
    ensures room { RefusesBy (checks.LacksRoom tree.now (targets_seen targets.now.entries)) result }
    ensures tree { IsTree tree.now }
{
    if has_room(tree, targets) {
        Ok(())
    } else {
        Err(Refusal::TooLarge {
            limit: Limit::Entries,
        })
    }
}

/// Whether the unit is a template without a fit default instance.
fn lacks_instance(found: &LoadedUnit) -> Result<bool, AllocError>
    ensures { IfOk result (λ lacks. lacks ≡ is_none (model.linked_name (unit_of found.now))) }
{
    Ok(linked_name(found)?.is_none())
}

/// Refuses a template without a fit default instance (E6).
fn check_found(alloc: Global, unit: &str, found: &LoadedUnit) -> Result<(), Refusal>
    ensures { RefusesBy (model.CannotEnable unit.now (Found (unit_of found.now))) result }
{
    if lacks_instance(found)? {
        return Err(bad_setting(alloc, found.name.as_str(), "default-instance")?);
    }
    Ok(())
}

/// Refuses a unit that isn't found (E4), is masked (E5), has a refused setting or is a template without a fit default instance
/// (E6).
fn check_unit(alloc: Global, unit: &str, loading: &Loading) -> Result<(), Refusal>
    ensures { RefusesBy (model.CannotEnable unit.now (loading_of loading.now)) result }
{
    match loading {
        Loading::Found(found) => check_found(alloc, unit, found),
        Loading::NotFound => Err(not_found(alloc, unit)?),
        Loading::Masked { unit } => Err(masked(alloc, unit.as_str())?),
        Loading::BadSetting { unit, reason } => {
            Err(bad_setting(alloc, unit.as_str(), reason.as_str())?)
        }
    }
}

/// Refuses the least unit that can't be enabled.
fn check_units(alloc: Global, units: &Units) -> Result<(), Refusal>
    ensures { RefusesBy (checks.RefusesFirst (map.entries (units_of units.now.entries))) result }
{
    for (unit, loading) in units.iter() {
        check_unit(alloc, unit.as_str(), loading)?;
    }
    Ok(())
}

/// The tree with the links.
fn with_links(tree: &Tree, targets: &Targets) -> Result<Tree, Refusal>
    ensures { Gives (λ t. t) result (linked tree.now (map.entries (targets_seen targets.now.entries))) }
{
    let mut linked = tree.copy()?;
    for (path, target) in targets.iter() {
        linked.link(path.as_str(), target.as_str())?;
    }
    Ok(linked)
}

/// Refuses to enable the unit if one that it takes along can't be enabled: the least of them.
pub(crate) fn check_taken(
    alloc: Global,
    reading: Reading<'_>,
    unit: &UnitName,
) -> Result<(), Refusal>
    ensures { RefusesBy (model.RefusesUnits (tree_read reading.entry) verbs.Enable unit.now) result }
{
    let units = walk(alloc, reading, Naming::AsResolved, unit)?;
    check_units(alloc, &units)
}

/// The tree with the links that enabling the unit requests, whether or not the units that it takes can be enabled.
pub(crate) fn enabled(alloc: Global, reading: Reading<'_>, unit: &UnitName) -> Result<Tree, Refusal>
    ensures installs { IfOk result (λ t. model.Installs (tree_read reading.entry) verbs.Enable unit.now t) }
    ensures refused { RefusesBy (model.RefusesLinks (tree_read reading.entry) verbs.Enable unit.now) result }
{
    let units = walk(alloc, reading, Naming::AsResolved, unit)?;
    let links = links_of(alloc, &units)?;
    let targets = targets_of(alloc, links.as_slice())?;
    check_fit(alloc, reading.tree, links.as_slice())?;
    check_free(alloc, reading.tree, &targets, links.as_slice())?;
    check_room(reading.tree, &targets)?;
    with_links(reading.tree, &targets)
}
