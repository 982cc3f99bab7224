//! Masking: the link to `/dev/null` in `etc/`.

ghost use Rattle.std.specs.Prelude.{◌≡◌, IfOk, option_map, string_bytes};
ghost use Rattle.um_model.specs.Install as model;
ghost use Rattle.um_model.specs.Resolution.{unit_path};
ghost use Rattle.um_model.specs.declared.install.InstallVerb.TheVariants as verbs;
ghost use Rattle.um_model.specs.declared.tree.Layer.TheVariants.{Etc};
ghost use Rattle.um_tree.specs.View.{entry_of};
ghost use Rattle.um_unit.specs.View.{tree_read};
ghost use Rattle.um_wire.specs.Gives.{RefusesBy};

use std::alloc::{AllocError, Global};
use um_model::Layer;
use um_name::UnitName;
use um_tree::{Entry, Tree};
use um_unit::Reading;
use um_wire::Refusal;

/// A link to this masks its unit.
const NOWHERE: &str = "/dev/null";

/// The path of the link that masks the unit.
fn path_of_mask(alloc: Global, unit: &UnitName) -> Result<String, AllocError>
    ensures { IfOk result (λ path. string_bytes path ≡ unit_path Etc unit.now) }
{
    let mut path = String::from_str(alloc, Layer::Etc.text())?;
    path.push_str(unit.as_str())?;
    Ok(path)
}

/// The tree with the link that masks the unit.
pub(crate) fn masked(alloc: Global, reading: Reading<'_>, unit: &UnitName) -> Result<Tree, Refusal>
    ensures installs { IfOk result (λ t. model.Installs (tree_read reading.entry) verbs.Mask unit.now t) }
    ensures refused { RefusesBy (model.RefusesLinks (tree_read reading.entry) verbs.Mask unit.now) result }
{
    let path = path_of_mask(alloc, unit)?;
    if let Some(cause) = reading.tree.link_cause(path.as_str(), NOWHERE) {
        return Err(cause.refusal(alloc));
    }
    let mut changed = reading.tree.copy()?;
    changed.link(path.as_str(), NOWHERE)?;
    Ok(changed)
}

fn is_masking(entry: Option<Entry<'_>>) -> bool
    ensures { result ≡ model.is_masking (option_map entry_of entry.entry) }
{
    match entry {
        Some(Entry::Link(target)) => target == NOWHERE,
        _ => false,
    }
}

/// The tree without the link that masks the unit, if there is one.
pub(crate) fn unmasked(
    alloc: Global,
    reading: Reading<'_>,
    unit: &UnitName,
) -> Result<Tree, Refusal>
    ensures installs { IfOk result (λ t. model.Installs (tree_read reading.entry) verbs.Unmask unit.now t) }
    ensures refused { RefusesBy (model.RefusesLinks (tree_read reading.entry) verbs.Unmask unit.now) result }
{
    let path = path_of_mask(alloc, unit)?;
    let mut changed = reading.tree.copy()?;
    if !is_masking(reading.tree.get(path.as_str())) {
        return Ok(changed);
    }
    changed.remove(path.as_str())?;
    Ok(changed)
}
