//! Settings of several values: each adds to those of the earlier ones.

ghost use Rattle.std.specs.Prelude.{◌≡◌, ◌++◌, ◌∷◌, [], codes, IfOk, OnOk, map, string_bytes, filter_map};
ghost use Rattle.std.specs.List.{flat_map};
ghost use Rattle.std.specs.Result.{result_ok, result_unwrap_or};
ghost use Rattle.um_model.specs.Names.{is_unit_name};
ghost use Rattle.um_model.specs.Readings as said;
ghost use Rattle.um_model.specs.Units as model;
ghost use Rattle.um_model.specs.FileForms.{names_of};
ghost use Rattle.um_model.specs.declared.units.ValueKind.TheVariants as kinds;
ghost use Rattle.um_model.specs.Values.{exits_of};
ghost use Rattle.um_model.specs.declared.service.End as ends;
ghost use Rattle.um_unit.specs.Readings.{fits_use, read_as};
ghost use Rattle.um_unit.specs.Sources.{assigned_of};
ghost use Rattle.um_unit.specs.Tests.{tells_any};
ghost use Rattle.um_value.specs.ExitSet.{holds};
ghost use Rattle.um_words.specs.Commands.{commands_seen};
ghost use Rattle.um_words.specs.Environment.{variables_of};

use crate::assignments::{Assigned, Key, since_empty, values_of};
use crate::readings::{Meaning, NameUse, commands_reading, environment_reading, names_reading};
use std::alloc::{AllocError, Global};
use um_name::UnitName;
use um_value::{ExitSet, exit_set};
use um_words::{Command, Variable};

fn add_all<T: Drop>(all: &mut Vec<T>, more: Vec<T>) -> Result<(), AllocError>
    ensures { OnOk result (all.new.items ≡ all.old.items ++ more.items) }
{
    all.extend(more)
}

/// Adds the names that could be read.
fn add_names(names: &mut Vec<String>, readings: Vec<Meaning<String>>) -> Result<(), AllocError>
    ensures { OnOk result (map string_bytes names.new.items ≡ map string_bytes names.old.items ++ filter_map result_ok (map (read_as string_bytes) readings.items)) }
{
    for reading in readings {
        if let Ok(name) = reading {
            names.push(name)?;
        }
    }
    Ok(())
}

/// All names in the values.
fn names_of(
    alloc: Global,
    uses: NameUse,
    unit: &UnitName,
    values: &[&str],
) -> Result<Vec<String>, AllocError>
    ensures { IfOk result (λ names. map string_bytes names.items ≡ names_of (fits_use uses unit.now) unit.now (map (λ v. v.now) values.now)) }
{
    let mut names = Vec::new(alloc);
    for value in values {
        add_names(&mut names, names_reading(alloc, uses, unit, value)?)?;
    }
    Ok(names)
}

/// The units that a setting names; an empty value takes nothing back.
pub fn units_named(
    alloc: Global,
    unit: &UnitName,
    assigned: &[Assigned<'_>],
    key: Key<'_>,
) -> Result<Vec<String>, AllocError>
    ensures { IfOk result (λ names. map string_bytes names.items
        ≡ model.all_said unit.now kinds.Units (model.values_of ((key.entry.0.now, key.entry.1.now) ∷ []) (map assigned_of assigned.now))) }
{
    let values = values_of(alloc, assigned, &[key])?;
    names_of(alloc, NameUse::Units, unit, values.as_slice())
}

/// The names in a setting of `[Install]`, after the last empty value.
pub fn install_names(
    alloc: Global,
    uses: NameUse,
    unit: &UnitName,
    assigned: &[Assigned<'_>],
    key: &str,
) -> Result<Vec<String>, AllocError>
    ensures { IfOk result (λ names. map string_bytes names.items
        ≡ names_of (fits_use uses unit.now) unit.now (model.since_empty (codes "Install", key.now) (map assigned_of assigned.now))) }
{
    let values = values_of(alloc, assigned, &[("Install", key)])?;
    names_of(alloc, uses, unit, since_empty(values.as_slice()))
}

/// The commands of a value, or none if it can't be read.
fn commands_said(alloc: Global, unit: &UnitName, value: &str) -> Result<Vec<Command>, AllocError>
    ensures { IfOk result (λ all. commands_seen all.items ≡ result_unwrap_or (said.commands_reading unit.now value.now) []) }
{
    match commands_reading(alloc, unit, value)? {
        Ok(commands) => Ok(commands),
        Err(_) => Ok(Vec::new(alloc)),
    }
}

/// The commands of a setting of `[Service]`, after the last empty value.
pub fn commands_of(
    alloc: Global,
    unit: &UnitName,
    assigned: &[Assigned<'_>],
    key: &str,
) -> Result<Vec<Command>, AllocError>
    ensures { IfOk result (λ commands. commands_seen commands.items
        ≡ flat_map (λ said. said) (model.service_said unit.now kinds.Commands key.now (map assigned_of assigned.now))) }
{
    let values = values_of(alloc, assigned, &[("Service", key)])?;
    let mut commands = Vec::new(alloc);
    for value in since_empty(values.as_slice()) {
        add_all(&mut commands, commands_said(alloc, unit, value)?)?;
    }
    Ok(commands)
}

/// The variables of a value, or none if it can't be read.
fn variables_said(alloc: Global, unit: &UnitName, value: &str) -> Result<Vec<Variable>, AllocError>
    ensures { IfOk result (λ all. variables_of all.items ≡ result_unwrap_or (said.environment_reading unit.now value.now) []) }
{
    match environment_reading(alloc, unit, value)? {
        Ok(variables) => Ok(variables),
        Err(_) => Ok(Vec::new(alloc)),
    }
}

/// The variables of `Environment=`, after the last empty value.
pub fn environment_of(
    alloc: Global,
    unit: &UnitName,
    assigned: &[Assigned<'_>],
) -> Result<Vec<Variable>, AllocError>
    ensures { IfOk result (λ variables. variables_of variables.items
        ≡ flat_map (λ said. said) (model.service_said unit.now kinds.Environment (codes "Environment") (map assigned_of assigned.now))) }
{
    let values = values_of(alloc, assigned, &[("Service", "Environment")])?;
    let mut variables = Vec::new(alloc);
    for value in since_empty(values.as_slice()) {
        add_all(&mut variables, variables_said(alloc, unit, value)?)?;
    }
    Ok(variables)
}

/// The ends in a value, or none if it can't be read.
fn exits_said(value: &str) -> ExitSet
    ensures { (end : ends.End) → holds result end ≡ tells_any (filter_map exits_of (value.now ∷ [])) end }
{
    exit_set(value).unwrap_or(ExitSet::empty())
}

/// The ends in a setting of `[Service]`, after the last empty value.
pub fn exits_in(alloc: Global, assigned: &[Assigned<'_>], key: &str) -> Result<ExitSet, AllocError>
    ensures { IfOk result (λ set. holds set ≡ model.any_of (model.service_said [] kinds.Exits key.now (map assigned_of assigned.now))) }
{
    let values = values_of(alloc, assigned, &[("Service", key)])?;
    let mut exits = ExitSet::empty();
    for value in since_empty(values.as_slice()) {
        exits.add(&exits_said(value));
    }
    Ok(exits)
}
