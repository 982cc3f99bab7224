//! The links that enabling requests.

ghost use Rattle.std.specs.Prelude.{◌≡◌, ◌++◌, Some, IfOk, OnOk, map as each, string_bytes};
ghost use Rattle.std.specs.FinMap as map;
ghost use Rattle.um_model.specs.Install as model;
ghost use Rattle.um_model.specs.Tree.{layer_text};
ghost use Rattle.um_model.specs.declared.tree.Layer.TheVariants.{Etc};
ghost use Rattle.um_model.specs.Units.{Found};
ghost use Rattle.um_unit.specs.View.{install_of, loading_of, unit_of};
ghost use Rattle.um_install.specs.Checks.{links_in, with_targets};
ghost use Rattle.um_install.specs.View.{link_of, targets_of as targets_seen, units_of};

use crate::walk::Units;
use std::alloc::{AllocError, Global};
use std::collections::BTreeMap;
use um_model::Layer;
use um_name::UnitName;
use um_unit::{InstallSettings, LoadedUnit, Loading};

/// A link: the path at which it stands, and its target.
#[derive(Drop)]
pub(crate) struct LinkAt {
    pub path: String,
    pub target: String,
}

/// The targets of links by the paths at which they stand.
pub(crate) type Targets = BTreeMap<String, String>;

/// The path in `etc/` of the unit: its name, followed by `folder` and `file`.
fn path_in_etc(alloc: Global, unit: &str, folder: &str, file: &str) -> Result<String, AllocError>
    ensures { IfOk result (λ path. string_bytes path ≡ layer_text Etc ++ (unit.now ++ (folder.now ++ file.now))) }
{
    let mut path = String::from_str(alloc, Layer::Etc.text())?;
    path.push_str(unit)?;
    path.push_str(folder)?;
    path.push_str(file)?;
    Ok(path)
}

/// The name under which a unit is linked: its own, or that of a template with its default instance, if the whole is a unit name.
pub(crate) fn linked_name(unit: &LoadedUnit) -> Result<Option<UnitName>, AllocError>
    ensures { IfOk result (λ name. name ≡ model.linked_name (unit_of unit.now)) }
{
    if !unit.name.is_template() {
        return Ok(Some(unit.name.copy()?));
    }
    match &unit.settings.install.default_instance {
        Some(instance) => unit.name.with_instance(instance.as_str()),
        None => Ok(None),
    }
}

/// Adds a link to the target for each of the units, in its folder.
fn push_links(
    alloc: Global,
    links: &mut Vec<LinkAt>,
    units: &[String],
    folder: &str,
    file: &str,
    target: &str,
) -> Result<(), AllocError>
    ensures { OnOk result (each link_of links.new.items ≡ each link_of links.old.items
        ++ each (λ unit. model.link_at (layer_text Etc ++ (unit ++ (folder.now ++ file.now))) target.now) (each string_bytes units.now)) }
{
    for unit in units {
        links.push(LinkAt {
            path: path_in_etc(alloc, unit.as_str(), folder, file)?,
            target: String::from_str(alloc, target)?,
        })?;
    }
    Ok(())
}

/// Adds the links that a unit of this name with a file at the path requests.
fn push_links_to(
    alloc: Global,
    links: &mut Vec<LinkAt>,
    install: &InstallSettings,
    name: &str,
    path: &str,
) -> Result<(), AllocError>
    ensures { OnOk result (each link_of links.new.items ≡ each link_of links.old.items ++ model.links_to (install_of install.now) (Some name.now) (Some path.now)) }
{
    push_links(
        alloc,
        links,
        install.wanted_by.as_slice(),
        ".wants/",
        name,
        path,
    )?;
    push_links(
        alloc,
        links,
        install.required_by.as_slice(),
        ".requires/",
        name,
        path,
    )?;
    push_links(alloc, links, install.alias.as_slice(), "", "", path)?;
    Ok(())
}

/// Adds the links of a unit that was found, if it has a file and a name under which it is linked.
fn push_links_of(
    alloc: Global,
    links: &mut Vec<LinkAt>,
    unit: &LoadedUnit,
) -> Result<(), AllocError>
    ensures { OnOk result (each link_of links.new.items ≡ each link_of links.old.items ++ model.links_of (Found (unit_of unit.now))) }
{
    let Some(name) = linked_name(unit)? else {
        return Ok(());
    };
    let Some(path) = &unit.path else {
        return Ok(());
    };
    push_links_to(
        alloc,
        links,
        &unit.settings.install,
        name.as_str(),
        path.as_str(),
    )?;
    Ok(())
}

/// Adds the links of a unit by the outcome of its look-up.
fn push_links_by(
    alloc: Global,
    links: &mut Vec<LinkAt>,
    loading: &Loading,
) -> Result<(), AllocError>
    ensures { OnOk result (each link_of links.new.items ≡ each link_of links.old.items ++ model.links_of (loading_of loading.now)) }
{
    match loading {
        Loading::Found(unit) => {
            push_links_of(alloc, links, unit)?;
            Ok(())
        }
        _ => Ok(()),
    }
}

/// The links that the units request.
pub(crate) fn links_of(alloc: Global, units: &Units) -> Result<Vec<LinkAt>, AllocError>
    ensures { IfOk result (λ links. each link_of links.items ≡ links_in (units_of units.now.entries)) }
{
    let mut links = Vec::new(alloc);
    for loading in units.values() {
        push_links_by(alloc, &mut links, loading)?;
    }
    Ok(links)
}

/// Puts the link at its path, in place of one that is there.
fn put_target(alloc: Global, targets: &mut Targets, link: &LinkAt) -> Result<(), AllocError>
    ensures { OnOk result (targets_seen targets.new.entries ≡ map.insert (targets_seen targets.old.entries) (link_of link.now).path (link_of link.now).target) }
{
    let path = String::from_str(alloc, link.path.as_str())?;
    let target = String::from_str(alloc, link.target.as_str())?;
    targets.insert(path, target)?;
    Ok(())
}

/// The links by their paths; of several at one path the last.
pub(crate) fn targets_of(alloc: Global, links: &[LinkAt]) -> Result<Targets, AllocError>
    ensures { IfOk result (λ targets. targets_seen targets.entries ≡ with_targets map.empty (each link_of links.now)) }
{
    let mut targets = BTreeMap::new(alloc);
    for link in links {
        put_target(alloc, &mut targets, link)?;
    }
    Ok(targets)
}
