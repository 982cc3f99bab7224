//! How a unit is enabled.

ghost use Rattle.std.specs.Prelude.{◌≡◌, ◌++◌, IfOk};
ghost use Rattle.std.specs.FinMap as map;
ghost use Rattle.std.specs.List.{list_any};
ghost use Rattle.um_model.specs.Install as model;
ghost use Rattle.um_unit.specs.View.{install_of, loading_of, tree_read};
ghost use Rattle.um_install.specs.Changes as changes;
ghost use Rattle.um_install.specs.View.{units_of};

use crate::disabling::is_unlinked;
use crate::walk::{Naming, Units, walk};
use std::alloc::{AllocError, Global};
use um_model::Enabling;
use um_name::UnitName;
use um_tree::Tree;
use um_unit::{InstallSettings, Loading, Reading};

/// Whether there is a link that disabling the units removes.
fn is_linked(tree: &Tree, units: &Units) -> bool
    ensures { result ≡ list_any (changes.is_unlinked (units_of units.now.entries)) (map.entries tree.now) }
{
    for (path, entry) in tree.entries() {
        if is_unlinked(units, path, entry) {
            return true;
        }
    }
    false
}

/// How a unit with this section is enabled if there is no link.
fn enabling_by(install: &InstallSettings) -> Enabling
    ensures { result ≡ model.enabling_by ((install_of install.now).alias ++ (install_of install.now).wanted_by ++ (install_of install.now).required_by) (install_of install.now).also }
{
    if !install.alias.is_empty() {
        return Enabling::Disabled;
    }
    if !install.wanted_by.is_empty() {
        return Enabling::Disabled;
    }
    if !install.required_by.is_empty() {
        return Enabling::Disabled;
    }
    if install.also.is_empty() {
        Enabling::Static
    } else {
        Enabling::Indirect
    }
}

/// How a unit is enabled, by the outcome of its look-up, and by whether there is a link that disabling it removes.
fn enabling_of(asked: &UnitName, loading: &Loading, linked: bool) -> Enabling
    ensures { result ≡ model.enabling_of asked.now (loading_of loading.now) linked }
{
    match loading {
        Loading::NotFound => Enabling::NotFound,
        Loading::Masked { .. } => Enabling::Masked,
        Loading::BadSetting { unit, .. } if unit != asked => Enabling::Alias,
        Loading::BadSetting { .. } if linked => Enabling::Enabled,
        Loading::BadSetting { .. } => Enabling::Static,
        Loading::Found(found) if found.name != *asked => Enabling::Alias,
        Loading::Found(_) if linked => Enabling::Enabled,
        Loading::Found(found) => enabling_by(&found.settings.install),
    }
}

/// How the unit is enabled in the tree as it is read (systemctl(1), "is-enabled"): the first that fits of not found, masked, another name
/// of a unit, enabled, disabled, indirect and static. It is enabled if there is a link that disabling it removes.
pub fn is_enabled(
    alloc: Global,
    reading: Reading<'_>,
    unit: &UnitName,
) -> Result<Enabling, AllocError>
    ensures { IfOk result (λ e. model.IsEnabledAs (tree_read reading.entry) unit.now e) }
{
    let units = walk(alloc, reading, Naming::AsWritten, unit)?;
    match units.get(unit.as_str()) {
        Some(loading) => Ok(enabling_of(unit, loading, is_linked(reading.tree, &units))),
        None => Ok(Enabling::NotFound),
    }
}
