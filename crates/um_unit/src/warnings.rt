//! The warnings about the lines of a unit's files.

ghost use Rattle.std.specs.Prelude.{◌≡◌, [], ◌∷◌, ◌++◌, Some, OnOk, IfOk, map, option_map};
ghost use Rattle.um_model.specs.Readings as said;
ghost use Rattle.um_model.specs.Syntax.{line_number};
ghost use Rattle.um_model.specs.Units as model;
ghost use Rattle.um_syntax.specs.Items.{item_of};
ghost use Rattle.um_unit.specs.Readings.{fits_use, first_warning, value_reading};
ghost use Rattle.um_unit.specs.Sources.{source_of};
ghost use Rattle.um_unit.specs.Tests as tests;
ghost use Rattle.um_unit.specs.View.{warned_by, warnings_seen};

use crate::assignments::{Source, section_after};
use crate::keys::{is_foreign, is_known_section, kind_of_key};
use crate::readings::{
    Meaning, NameUse, commands_reading, environment_reading, first_warning, names_reading,
    text_reading, value_reading,
};
use crate::singles::{default_instance_in, type_said};
use std::alloc::{AllocError, Global};
use um_model::{Profile, Suffix, ValueKind, WarningKind};
use um_name::UnitName;
use um_syntax::Item;
use um_value::{boolean, exit_set, number, restart, span};

/// A line of a unit's file, or a word in it, that is without effect.
#[derive(Clone, Copy, Debug)]
pub struct Warning {
    pub kind: WarningKind,
    /// The number of the first physical line, from 1.
    pub line: usize,
}

/// The warnings of a file.
#[derive(Debug, Drop)]
pub struct FileWarnings {
    /// The path of the file in the tree.
    pub path: String,
    /// By line.
    pub warnings: Vec<Warning>,
}

fn warning_in<T: Drop>(reading: Meaning<T>) -> Option<WarningKind>
    ensures { result ≡ first_warning (reading ∷ []) }
{
    reading.err()
}

/// The warning of a value that has no reading.
fn unread<T: Drop>(read: Option<T>) -> Option<WarningKind>
    ensures { result ≡ first_warning (value_reading read ∷ []) }
{
    warning_in(value_reading(read))
}

fn names_warning(
    alloc: Global,
    uses: NameUse,
    unit: &UnitName,
    value: &str,
) -> Result<Option<WarningKind>, AllocError>
    ensures { IfOk result (λ w. w ≡ first_warning (said.names_reading (fits_use uses unit.now) unit.now value.now)) }
{
    let readings = names_reading(alloc, uses, unit, value)?;
    Ok(first_warning(readings.as_slice()))
}

/// The warning that a value of this kind gives.
fn value_warning(
    alloc: Global,
    unit: &UnitName,
    kind: ValueKind,
    value: &str,
) -> Result<Option<WarningKind>, AllocError>
    ensures { IfOk result (λ w. w ≡ model.value_warning unit.now kind value.now) }
{
    match kind {
        ValueKind::Text => Ok(warning_in(text_reading(alloc, unit, value)?)),
        ValueKind::Units => names_warning(alloc, NameUse::Units, unit, value),
        ValueKind::Aliases => names_warning(alloc, NameUse::Aliases, unit, value),
        ValueKind::Commands => Ok(warning_in(commands_reading(alloc, unit, value)?)),
        ValueKind::Environment => Ok(warning_in(environment_reading(alloc, unit, value)?)),
        ValueKind::Instance => Ok(unread(default_instance_in(value))),
        ValueKind::Truth => Ok(unread(boolean(value))),
        ValueKind::Span => Ok(unread(span(value))),
        ValueKind::Number => Ok(unread(number(value))),
        ValueKind::Exits => Ok(unread(exit_set(value))),
        ValueKind::Policy => Ok(unread(restart(value))),
        ValueKind::ServiceType => Ok(unread(type_said(value))),
        ValueKind::Unused | ValueKind::Refused => Ok(None),
    }
}

/// The warning of an assignment in a known section.
fn assignment_warning(
    alloc: Global,
    profile: Profile,
    unit: &UnitName,
    section: &str,
    key: &str,
    value: &str,
) -> Result<Option<WarningKind>, AllocError>
    ensures { IfOk result (λ w. w ≡ model.assignment_warning profile unit.now section.now key.now value.now) }
{
    if is_foreign(key) {
        return Ok(None);
    }
    match kind_of_key(profile, section, key) {
        Some(kind) => value_warning(alloc, unit, kind, value),
        None => Ok(Some(WarningKind::UnknownKey)),
    }
}

fn head_warning(suffix: Suffix, name: &str) -> Option<WarningKind>
    ensures { result ≡ tests.head_warning (Some suffix) name.now }
{
    if is_known_section(suffix, name) || is_foreign(name) {
        None
    } else {
        Some(WarningKind::UnknownSection)
    }
}

/// The lines of a section that isn't known give no warning.
fn warning_of_assignment(
    alloc: Global,
    profile: Profile,
    unit: &UnitName,
    section: Option<&str>,
    key: &str,
    value: &str,
) -> Result<Option<WarningKind>, AllocError>
    ensures { IfOk result (λ w. w ≡ tests.warning_of_assignment profile unit.now (option_map (λ s. s.now) section.entry) key.now value.now) }
{
    match section {
        Some(section) if is_known_section(unit.suffix(), section) => assignment_warning(
            alloc, profile, unit, section, key, value,
        ),
        _ => Ok(None),
    }
}

fn warning_of_syntax(
    suffix: Suffix,
    section: Option<&str>,
    kind: WarningKind,
) -> Option<WarningKind>
    ensures { result ≡ tests.warning_of_syntax (Some suffix) (option_map (λ s. s.now) section.entry) kind }
{
    match section {
        Some(section) if !is_known_section(suffix, section) => None,
        _ => Some(kind),
    }
}

/// The warning that an item gives in this section.
fn item_warning(
    alloc: Global,
    profile: Profile,
    unit: &UnitName,
    section: Option<&str>,
    item: &Item<'_>,
) -> Result<Option<WarningKind>, AllocError>
    ensures { IfOk result (λ w. w ≡ tests.warning_of profile unit.now (option_map (λ s. s.now) section.entry) (item_of item.now)) }
{
    match item {
        Item::Section { name, .. } => Ok(head_warning(unit.suffix(), name.as_str())),
        Item::Assignment { key, value, .. } => warning_of_assignment(
            alloc,
            profile,
            unit,
            section,
            key.as_str(),
            value.as_str(),
        ),
        Item::Warning { kind, .. } => Ok(warning_of_syntax(unit.suffix(), section, *kind)),
    }
}

/// The line of an item.
fn line_of(item: &Item<'_>) -> usize
    ensures { result ≡ line_number (item_of item.now) }
{
    match item {
        Item::Section { line, .. } | Item::Assignment { line, .. } | Item::Warning { line, .. } =>
            *line,
    }
}

/// The warnings of a file that is read by the profile, by line.
pub fn file_warnings(
    alloc: Global,
    profile: Profile,
    unit: &UnitName,
    source: &Source<'_>,
) -> Result<FileWarnings, AllocError>
    ensures { IfOk result (λ f. warned_by f ≡ tests.warned_in profile unit.now (source_of source.now)) }
{
    let mut warnings = Vec::new(alloc);
    let mut section = None;
    for item in &source.items {
        section = section_after(section, item);
        if let Some(kind) = item_warning(alloc, profile, unit, section, item)? {
            let line = line_of(item);
            warnings.push(Warning { kind, line })?;
        }
    }
    let path = String::from_str(alloc, source.path)?;
    Ok(FileWarnings { path, warnings })
}

/// Adds a file, unless it has no warning.
pub fn add_file(files: &mut Vec<FileWarnings>, file: FileWarnings) -> Result<(), AllocError>
    ensures { OnOk result (warnings_seen files.new.items ≡ warnings_seen files.old.items ++ warned_by file) }
{
    if !file.warnings.is_empty() {
        files.push(file)?;
    }
    Ok(())
}
