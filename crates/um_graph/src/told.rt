//! The relations from a unit's settings, of it and of other units.

ghost use Rattle.std.specs.Prelude.{◌≡◌, ◌∷◌, ◌++◌, [], IfOk, OnOk, option_map, string_bytes, map};
ghost use Rattle.std.specs.List.{flat_map};
ghost use Rattle.um_model.specs.Dependencies as model;
ghost use Rattle.um_model.specs.Names.{named};
ghost use Rattle.um_model.specs.Resolution.{shutdown_target};
ghost use Rattle.um_unit.specs.View.{loading_of, unit_of as loaded_of};
ghost use Rattle.um_graph.specs.Tells.{defaults_told, follows_by, names_given, needs_told, shutdown_told, tell, told_of};

use crate::resolved::Resolved;
use std::alloc::{AllocError, Global};
use um_model::DependencyKind;
use um_name::UnitName;
use um_unit::{LoadedUnit, Loading};

/// The way in which one unit stands to another.
#[derive(Clone, Copy, Debug, PartialEq, Eq)]
pub(crate) enum Link {
    /// It depends on the other.
    Depends(DependencyKind),
    /// It is declared before the other, by `Before=` or `After=`.
    Declared,
    /// It has default dependencies, and the other is `shutdown.target`, which it comes before.
    Ending,
}

/// A relation: one unit stands to another in a way.
#[derive(Drop)]
pub(crate) struct Told {
    pub(crate) link: Link,
    pub(crate) from: UnitName,
    pub(crate) to: UnitName,
}

/// The unit, if it can be loaded: it is found and is no template.
pub fn loadable(loading: &Loading) -> Option<&LoadedUnit>
    ensures { option_map (λ unit. loaded_of unit.now) result ≡ model.loadable_of (loading_of loading.now) }
{
    match loading {
        Loading::Found(unit) if !unit.name.is_template() => Some(unit),
        _ => None,
    }
}

/// Adds the relation that the unit stands so to each of these.
fn tell_all(
    alloc: Global,
    resolved: &mut Resolved<'_>,
    told: &mut Vec<Told>,
    link: Link,
    unit: &UnitName,
    names: &[String],
) -> Result<(), AllocError>
    ensures told { OnOk result (told.new.items ≡ told.old.items ++ flat_map (names_given resolved.old link unit.now) (map string_bytes names.now)) }
    ensures tree { resolved.new ≡ resolved.old }
{
    for name in names {
        if let Some(name) = UnitName::named(alloc, name.as_str())? {
            told.push(Told {
                link,
                from: unit.copy()?,
                to: resolved.unit(alloc, name)?,
            })?;
        }
    }
    Ok(())
}

/// Adds the relation that each of these is declared before the unit.
fn tell_earlier(
    alloc: Global,
    resolved: &mut Resolved<'_>,
    told: &mut Vec<Told>,
    unit: &UnitName,
    names: &[String],
) -> Result<(), AllocError>
    ensures told { OnOk result (told.new.items ≡ told.old.items ++ flat_map (follows_by resolved.old unit.now) (map string_bytes names.now)) }
    ensures tree { resolved.new ≡ resolved.old }
{
    for name in names {
        if let Some(name) = UnitName::named(alloc, name.as_str())? {
            told.push(Told {
                link: Link::Declared,
                from: resolved.unit(alloc, name)?,
                to: unit.copy()?,
            })?;
        }
    }
    Ok(())
}

/// Whether the unit conflicts with `shutdown.target` and comes before it. Each unit but that one does, unless it says
/// `DefaultDependencies=no`.
fn has_defaults(unit: &LoadedUnit) -> bool
    ensures { result ≡ model.has_defaults (loaded_of unit.now) }
{
    unit.settings.dependencies.default_dependencies && unit.name.as_str() != "shutdown.target"
}

fn shutdown_target(alloc: Global) -> Result<Option<UnitName>, AllocError>
    ensures { IfOk result (λ name. name ≡ named shutdown_target) }
{
    UnitName::named(alloc, "shutdown.target")
}

/// Adds the relation that the one stands so to the other.
fn push_told(
    told: &mut Vec<Told>,
    link: Link,
    from: &UnitName,
    to: &UnitName,
) -> Result<(), AllocError>
    ensures { OnOk result (told.new.items ≡ told.old.items ++ tell link from.now to.now ∷ []) }
{
    told.push(Told {
        link,
        from: from.copy()?,
        to: to.copy()?,
    })?;
    Ok(())
}

/// Adds the relations that the unit conflicts with `shutdown.target` and comes before it.
fn tell_shutdown(
    alloc: Global,
    resolved: &mut Resolved<'_>,
    told: &mut Vec<Told>,
    unit: &UnitName,
) -> Result<(), AllocError>
    ensures told { OnOk result (told.new.items ≡ told.old.items ++ shutdown_told resolved.old unit.now (named shutdown_target)) }
    ensures tree { resolved.new ≡ resolved.old }
{
    let Some(name) = shutdown_target(alloc)? else {
        return Ok(());
    };
    let shutdown = resolved.unit(alloc, name)?;
    push_told(
        told,
        Link::Depends(DependencyKind::Conflicts),
        unit,
        &shutdown,
    )?;
    push_told(told, Link::Ending, unit, &shutdown)
}

/// Adds the relations that follow from default dependencies.
fn tell_defaults(
    alloc: Global,
    resolved: &mut Resolved<'_>,
    told: &mut Vec<Told>,
    unit: &LoadedUnit,
) -> Result<(), AllocError>
    ensures told { OnOk result (told.new.items ≡ told.old.items ++ defaults_told resolved.old (loaded_of unit.now)) }
    ensures tree { resolved.new ≡ resolved.old }
{
    if has_defaults(unit) {
        tell_shutdown(alloc, resolved, told, &unit.name)?;
    }
    Ok(())
}

/// Adds the relations that the unit depends on those that its settings name.
fn tell_needs(
    alloc: Global,
    resolved: &mut Resolved<'_>,
    told: &mut Vec<Told>,
    unit: &LoadedUnit,
) -> Result<(), AllocError>
    ensures told { OnOk result (told.new.items ≡ told.old.items ++ needs_told resolved.old (loaded_of unit.now)) }
    ensures tree { resolved.new ≡ resolved.old }
{
    let name = &unit.name;
    let names = &unit.settings.dependencies;
    let wants = Link::Depends(DependencyKind::Wants);
    let required = Link::Depends(DependencyKind::Requires);
    let binds_to = Link::Depends(DependencyKind::BindsTo);
    let part_of = Link::Depends(DependencyKind::PartOf);
    let conflicts = Link::Depends(DependencyKind::Conflicts);
    tell_all(alloc, resolved, told, wants, name, &names.wants)?;
    tell_all(alloc, resolved, told, required, name, &names.required)?;
    tell_all(alloc, resolved, told, binds_to, name, &names.binds_to)?;
    tell_all(alloc, resolved, told, part_of, name, &names.part_of)?;
    tell_all(alloc, resolved, told, conflicts, name, &names.conflicts)?;
    Ok(())
}

/// All relations from the settings of the unit.
pub(crate) fn told_by(
    alloc: Global,
    resolved: &mut Resolved<'_>,
    unit: &LoadedUnit,
) -> Result<Vec<Told>, AllocError>
    ensures told { IfOk result (λ told. told.items ≡ told_of resolved.old (loaded_of unit.now)) }
    ensures tree { resolved.new ≡ resolved.old }
{
    let mut told = Vec::new(alloc);
    let names = &unit.settings.dependencies;
    tell_needs(alloc, resolved, &mut told, unit)?;
    tell_all(
        alloc,
        resolved,
        &mut told,
        Link::Declared,
        &unit.name,
        names.before.as_slice(),
    )?;
    tell_earlier(
        alloc,
        resolved,
        &mut told,
        &unit.name,
        names.after.as_slice(),
    )?;
    tell_defaults(alloc, resolved, &mut told, unit)?;
    Ok(told)
}
