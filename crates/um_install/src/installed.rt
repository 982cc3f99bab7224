//! The verbs that change the links of a unit.

ghost use Rattle.std.specs.Prelude.{◌≡◌, IfOk, map as each, string_bytes};
ghost use Rattle.um_model.specs.Install as model;
ghost use Rattle.um_unit.specs.View.{tree_read};
ghost use Rattle.um_wire.specs.Gives.{RefusesBy};

use crate::disabling::disabled;
use crate::enabling::{check_taken, enabled};
use crate::masking::{masked, unmasked};
use std::alloc::{AllocError, Global};
use um_model::InstallVerb;
use um_name::UnitName;
use um_tree::Tree;
use um_unit::Reading;
use um_wire::Refusal;

/// A tree that a verb made from another one.
#[derive(Drop)]
pub struct Installed {
    pub tree: Tree,
    /// The paths at which it has an entry and the other has none, ascending by bytes.
    pub made: Vec<String>,
    /// The paths at which the other has an entry and it has none, ascending by bytes.
    pub removed: Vec<String>,
}

/// The paths at which the tree has an entry and the other has none, ascending.
fn paths_beyond(alloc: Global, other: &Tree, tree: &Tree) -> Result<Vec<String>, AllocError>
    ensures { IfOk result (λ paths. each string_bytes paths.items ≡ model.paths_beyond other.now tree.now) }
{
    let mut paths = Vec::new(alloc);
    for (path, _) in tree.entries() {
        if other.get(path).is_none() {
            paths.push(String::from_str(alloc, path)?)?;
        }
    }
    Ok(paths)
}

/// The tree that the verb makes from this one.
fn changed(
    alloc: Global,
    reading: Reading<'_>,
    verb: InstallVerb,
    unit: &UnitName,
) -> Result<Tree, Refusal>
    ensures installs { IfOk result (λ t. model.Installs (tree_read reading.entry) verb unit.now t) }
    ensures refused { RefusesBy (model.RefusesLinks (tree_read reading.entry) verb unit.now) result }
{
    match verb {
        InstallVerb::Enable => enabled(alloc, reading, unit),
        InstallVerb::Disable => disabled(alloc, reading, unit),
        InstallVerb::Mask => masked(alloc, reading, unit),
        InstallVerb::Unmask => unmasked(alloc, reading, unit),
    }
}

/// The tree that the verb makes from this one, as it is read, for the unit, with the paths that are made and removed. It doesn't check whether
/// the units that it takes can be enabled: `check_units` does. It is refused for the first cause that applies:
/// - the least path that isn't served or at which its link may not stand (E12);
/// - the least path that has another entry or for which another link is requested (E11);
/// - more new paths than there is room for (E13 `entries`).
///
/// Want of memory is E15.
pub fn relink(
    alloc: Global,
    reading: Reading<'_>,
    verb: InstallVerb,
    unit: &UnitName,
) -> Result<Installed, Refusal>
    ensures installed { IfOk result (λ i. model.Installs (tree_read reading.entry) verb unit.now i.tree) }
    ensures made { IfOk result (λ i. each string_bytes i.made.items ≡ model.paths_beyond reading.entry.tree.now i.tree) }
    ensures removed { IfOk result (λ i. each string_bytes i.removed.items ≡ model.paths_beyond i.tree reading.entry.tree.now) }
    ensures refused { RefusesBy (model.RefusesLinks (tree_read reading.entry) verb unit.now) result }
{
    let changed = changed(alloc, reading, verb, unit)?;
    Ok(Installed {
        made: paths_beyond(alloc, reading.tree, &changed)?,
        removed: paths_beyond(alloc, &changed, reading.tree)?,
        tree: changed,
    })
}

/// Refuses the verb for the least unit that it takes and that can't be enabled: one that isn't found (E4), is masked (E5), has a
/// refused setting or is a template without a fit default instance (E6). Only enabling takes units. Want of memory is E15.
pub fn check_units(
    alloc: Global,
    reading: Reading<'_>,
    verb: InstallVerb,
    unit: &UnitName,
) -> Result<(), Refusal>
    ensures { RefusesBy (model.RefusesUnits (tree_read reading.entry) verb unit.now) result }
{
    match verb {
        InstallVerb::Enable => check_taken(alloc, reading, unit),
        InstallVerb::Disable | InstallVerb::Mask | InstallVerb::Unmask => Ok(()),
    }
}

/// The tree that the verb makes from this one, as it is read, for the unit, with the paths that are made and removed. The refusals are
/// those of `enable`, `disable`, `mask` or `unmask`.
pub fn install(
    alloc: Global,
    reading: Reading<'_>,
    verb: InstallVerb,
    unit: &UnitName,
) -> Result<Installed, Refusal>
    ensures installed { IfOk result (λ i. model.Installs (tree_read reading.entry) verb unit.now i.tree) }
    ensures made { IfOk result (λ i. each string_bytes i.made.items ≡ model.paths_beyond reading.entry.tree.now i.tree) }
    ensures removed { IfOk result (λ i. each string_bytes i.removed.items ≡ model.paths_beyond i.tree reading.entry.tree.now) }
    ensures refused { RefusesBy (model.RefusesInstall (tree_read reading.entry) verb unit.now) result }
{
    let installed = relink(alloc, reading, verb, unit)?;
    check_units(alloc, reading, verb, unit)?;
    Ok(installed)
}
