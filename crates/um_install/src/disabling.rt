//! Disabling: the links by which units are wanted, required or have another name.

ghost use Rattle.std.specs.Prelude.{◌≡◌, IfOk, map as each, string_bytes};
ghost use Rattle.std.specs.FinMap as map;
ghost use Rattle.um_model.specs.Install as model;
ghost use Rattle.um_model.specs.declared.install.InstallVerb.TheVariants as verbs;
ghost use Rattle.um_tree.specs.Place.{place_of};
ghost use Rattle.um_tree.specs.View.{entry_of};
ghost use Rattle.um_install.specs.Changes as changes;
ghost use Rattle.um_wire.specs.Gives.{Gives, RefusesBy};
ghost use Rattle.um_install.specs.View.{units_of};
ghost use Rattle.um_unit.specs.View.{tree_read};

use crate::walk::{Naming, Units, contains, walk};
use std::alloc::{AllocError, Global};
use um_model::Layer;
use um_name::UnitName;
use um_tree::{Entry, Place, ServedPath, Tree, unit_in_target};
use um_unit::Reading;
use um_wire::Refusal;

/// Whether a link at such a place wants or requires one of the units.
fn pulls_in(units: &Units, place: Place<'_>) -> bool
    ensures { result ≡ changes.pulls_in_any (units_of units.now.entries) (place_of place.entry) }
{
    match place {
        Place::Wants(unit) => contains(units, unit),
        Place::Requires(unit) => contains(units, unit),
        Place::Unit => false,
        Place::DropIn(_) => false,
    }
}

/// Whether a link to the target, at a path of these parts, lies in `etc/` and pulls one of the units in or leads to it.
fn is_link_for(units: &Units, path: &ServedPath<'_>, target: &str) -> bool
    ensures { result ≡ changes.is_link_for_any (units_of units.now.entries) path.now target.now }
{
    path.layer() == Layer::Etc
        && (pulls_in(units, path.place()) || contains(units, unit_in_target(target)))
}

/// Whether disabling the units removes the entry at the path.
pub(crate) fn is_unlinked(units: &Units, path: &str, entry: Entry<'_>) -> bool
    ensures { result ≡ changes.is_unlinked (units_of units.now.entries) (path.now, entry_of entry.entry) }
{
    let Some(path) = ServedPath::parse(path) else {
        return false;
    };
    match entry {
        Entry::Link(target) => is_link_for(units, &path, target),
        Entry::File(_) => false,
    }
}

/// The paths of the links that disabling the units removes, ascending.
fn unlinked(alloc: Global, tree: &Tree, units: &Units) -> Result<Vec<String>, AllocError>
    ensures { IfOk result (λ paths. each string_bytes paths.items ≡ changes.paths_unlinked (units_of units.now.entries) (map.entries tree.now)) }
{
    let mut paths = Vec::new(alloc);
    for (path, entry) in tree.entries() {
        if is_unlinked(units, path, entry) {
            paths.push(String::from_str(alloc, path)?)?;
        }
    }
    Ok(paths)
}

/// The tree without the entries at the paths.
fn without(tree: &Tree, paths: &[String]) -> Result<Tree, Refusal>
    ensures { Gives (λ t. t) result (changes.removed tree.now (each string_bytes paths.now)) }
{
    let mut left = tree.copy()?;
    for path in paths {
        left.remove(path.as_str())?;
    }
    Ok(left)
}

/// The tree without the links that disabling the unit removes.
pub(crate) fn disabled(
    alloc: Global,
    reading: Reading<'_>,
    unit: &UnitName,
) -> Result<Tree, Refusal>
    ensures installs { IfOk result (λ t. model.Installs (tree_read reading.entry) verbs.Disable unit.now t) }
    ensures refused { RefusesBy (model.RefusesLinks (tree_read reading.entry) verbs.Disable unit.now) result }
{
    let units = walk(alloc, reading, Naming::AsWritten, unit)?;
    let paths = unlinked(alloc, reading.tree, &units)?;
    without(reading.tree, paths.as_slice())
}
