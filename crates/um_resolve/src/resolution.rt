//! Where a unit's name leads in a tree.

ghost use Rattle.std.specs.Prelude.{◌≡◌, ℕ, List, Some, None, IfOk, if◌then◌else◌, option_copied, option_map, string_bytes};
ghost use Rattle.std.specs.Option.{option_map_or};
ghost use Rattle.um_model.specs.Resolution as model;
ghost use Rattle.um_model.specs.Tree.{File};
ghost use Rattle.um_model.specs.Units as units;
ghost use Rattle.um_tree.specs.View.{entry_of};
ghost use Rattle.um_resolve.specs.View.{after_step, located_of, resolution_of};

use std::alloc::{AllocError, Global};
use um_model::{Layer, Suffix};
use um_name::{UnitName, is_template, with_instance};
use um_tree::{Entry, Tree, unit_in_target};

/// The most times that a name leads on to another one.
const HOP_LIMIT: u32 = 8;

/// The entry at a unit's path, with that path.
#[derive(Drop)]
struct Located<'t> {
    path: String,
    entry: Entry<'t>,
}

/// Where a name leads.
#[derive(Drop)]
pub enum Resolution<'t> {
    /// To the file of the unit, which isn't empty.
    File {
        unit: UnitName,
        path: String,
        text: &'t str,
    },
    /// To the unit, which is found with no file.
    NoFile {
        unit: UnitName,
    },
    /// To the unit, which is masked.
    Mask {
        unit: UnitName,
    },
    Nowhere,
}

/// Where a name leads by its own entry.
#[derive(Drop)]
enum Step<'t> {
    Ends(Resolution<'t>),
    /// The name leads on to another one.
    LeadsOn(UnitName),
}

fn held_in<'t>(
    alloc: Global,
    layer: Layer,
    tree: &'t Tree,
    unit: &str,
) -> Result<Option<Located<'t>>, AllocError>
    ensures { IfOk result (λ held. option_map located_of held ≡ model.held_in layer tree.now unit.now) }
{
    let mut path = String::from_str(alloc, layer.text())?;
    path.push_str(unit)?;
    match tree.get(path.as_str()) {
        Some(entry) => Ok(Some(Located { path, entry })),
        None => Ok(None),
    }
}

/// The entry in the first layer that holds the unit.
fn first_held<'t>(
    alloc: Global,
    tree: &'t Tree,
    unit: &str,
) -> Result<Option<Located<'t>>, AllocError>
    ensures { IfOk result (λ held. option_map located_of held ≡ model.first_held tree.now unit.now) }
{
    if let Some(held) = held_in(alloc, Layer::Etc, tree, unit)? {
        return Ok(Some(held));
    }
    if let Some(held) = held_in(alloc, Layer::Run, tree, unit)? {
        return Ok(Some(held));
    }
    held_in(alloc, Layer::Lib, tree, unit)
}

fn leads_to_template(template: &UnitName, entry: Entry<'_>) -> bool
    ensures { result ≡ model.leads_to_template (Some template.now) (entry_of entry.entry) }
{
    match entry {
        Entry::File(_) => false,
        Entry::Link(target) => unit_in_target(target) == template.as_str(),
    }
}

/// The entry, but a link to the unit's own template counts as absent.
fn unless_to_template<'t>(template: &UnitName, found: Option<Located<'t>>) -> Option<Located<'t>>
    ensures { option_map located_of result ≡ model.unless_to_template (Some template.now) (option_map located_of found.entry) }
{
    match found {
        Some(found) if leads_to_template(template, found.entry) => None,
        found => found,
    }
}

/// The unit's own entry, or otherwise that of its template.
fn held<'t>(
    alloc: Global,
    tree: &'t Tree,
    unit: &UnitName,
) -> Result<Option<Located<'t>>, AllocError>
    ensures { IfOk result (λ held. option_map located_of held ≡ model.held tree.now unit.now) }
{
    let own = first_held(alloc, tree, unit.as_str())?;
    let Some(template) = unit.template()? else {
        return Ok(own);
    };
    match unless_to_template(&template, own) {
        Some(own) => Ok(Some(own)),
        None => first_held(alloc, tree, template.as_str()),
    }
}

/// A template takes the instance of the name that leads to it, if there is one.
fn with_instance_of(
    alloc: Global,
    instance: Option<&str>,
    other: &str,
) -> Result<String, AllocError>
    ensures { IfOk result (λ t. string_bytes t ≡ model.with_instance_of (option_copied instance.entry) other.now) }
{
    match instance {
        Some(instance) if is_template(other) => with_instance(alloc, other, instance),
        _ => String::from_str(alloc, other),
    }
}

fn is_of_same_type(unit: &UnitName, other: &UnitName) -> bool
    ensures { result ≡ model.is_of_same_type unit.now other.now }
{
    unit.suffix() == other.suffix()
}

/// The name that a link leads on to, which has the same suffix.
fn next_name(alloc: Global, unit: &UnitName, target: &str) -> Result<Option<UnitName>, AllocError>
    ensures { IfOk result (λ name. name ≡ model.next_name unit.now target.now) }
{
    let text = with_instance_of(alloc, unit.instance(), unit_in_target(target))?;
    match UnitName::named(alloc, text.as_str())? {
        Some(other) if is_of_same_type(unit, &other) => Ok(Some(other)),
        _ => Ok(None),
    }
}

fn at_nothing<'t>(unit: &UnitName) -> Result<Step<'t>, AllocError>
    ensures { IfOk result (λ s. (follow : List ℕ → model.Resolution) → after_step s follow ≡ model.resolution_at unit.now None follow) }
{
    if unit.as_str() == "shutdown.target" {
        return Ok(Step::Ends(Resolution::NoFile { unit: unit.copy()? }));
    }
    Ok(Step::Ends(Resolution::Nowhere))
}

fn at_file<'t>(unit: &UnitName, path: String, text: &'t str) -> Result<Step<'t>, AllocError>
    ensures { IfOk result (λ s. (follow : List ℕ → model.Resolution)
        → after_step s follow ≡ model.resolution_at unit.now (Some (string_bytes path, File text.now)) follow) }
{
    let unit = unit.copy()?;
    if text.is_empty() {
        return Ok(Step::Ends(Resolution::Mask { unit }));
    }
    Ok(Step::Ends(Resolution::File { unit, path, text }))
}

fn at_link<'t>(alloc: Global, unit: &UnitName, target: &str) -> Result<Step<'t>, AllocError>
    ensures { IfOk result (λ s. (follow : List ℕ → model.Resolution)
        → after_step s follow ≡ (if model.is_mask target.now then model.AtMask unit.now else option_map_or follow (model.next_name unit.now target.now) model.Nowhere)) }
{
    if target == "/dev/null" {
        return Ok(Step::Ends(Resolution::Mask { unit: unit.copy()? }));
    }
    match next_name(alloc, unit, target)? {
        Some(other) => Ok(Step::LeadsOn(other)),
        None => Ok(Step::Ends(Resolution::Nowhere)),
    }
}

/// Where the name leads by its own entry: an empty file and a link to `/dev/null` mask, any other link leads on.
fn first_step<'t>(alloc: Global, tree: &'t Tree, unit: &UnitName) -> Result<Step<'t>, AllocError>
    ensures { IfOk result (λ s. (follow : List ℕ → model.Resolution)
        → after_step s follow ≡ model.resolution_at unit.now (model.held tree.now unit.now) follow) }
{
    let Some(Located { path, entry }) = held(alloc, tree, unit)? else {
        return at_nothing(unit);
    };
    match entry {
        Entry::File(text) => at_file(unit, path, text),
        Entry::Link(target) => at_link(alloc, unit, target),
    }
}

/// Where the name leads by at most this many hops.
fn resolved<'t>(
    alloc: Global,
    hops: u32,
    tree: &'t Tree,
    unit: &UnitName,
) -> Result<Resolution<'t>, AllocError>
    ensures { IfOk result (λ r. resolution_of r ≡ model.resolved hops tree.now unit.now) }
{
    match first_step(alloc, tree, unit)? {
        Step::Ends(end) => Ok(end),
        Step::LeadsOn(other) => {
            if hops == 0 {
                return Ok(Resolution::Nowhere);
            }
            resolved(alloc, hops - 1, tree, &other)
        }
    }
}

/// Where the name leads in the tree (systemd.unit(5), "Unit File Load Path" and "Description"). The first layer that
/// holds `LAYER/NAME` counts, or otherwise the first that holds its template. An empty file and a link to `/dev/null`
/// mask; any other link leads on to the name of its last part, which has the same suffix; a template there takes the
/// instance. More than eight hops lead nowhere. Units of the types other than service and target are never found;
/// `shutdown.target` is found even without an entry.
#[tactic(auto, unfolding(um_model::specs::Resolution::resolution_of))]
pub fn resolve<'t>(
    alloc: Global,
    tree: &'t Tree,
    unit: &UnitName,
) -> Result<Resolution<'t>, AllocError>
    ensures { IfOk result (λ r. resolution_of r ≡ model.resolution_of tree.now unit.now) }
{
    match unit.suffix() {
        Suffix::Service | Suffix::Target => resolved(alloc, HOP_LIMIT, tree, unit),
        _ => Ok(Resolution::Nowhere),
    }
}

/// The unit to which the name leads, or the name itself if it leads nowhere. No file is read.
pub fn unit_named(alloc: Global, tree: &Tree, name: &UnitName) -> Result<UnitName, AllocError>
    ensures { IfOk result (λ unit. unit ≡ units.unit_named tree.now name.now) }
{
    match resolve(alloc, tree, name)? {
        Resolution::File { unit, .. } => Ok(unit),
        Resolution::NoFile { unit } => Ok(unit),
        Resolution::Mask { unit } => Ok(unit),
        Resolution::Nowhere => name.copy(),
    }
}
