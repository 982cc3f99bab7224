//! The files of a unit as they are read: their settings and their warnings. Of a line with a warning about its spelling only the warning is
//! kept.

ghost use Rattle.std.specs.Prelude.{◌≡◌, ◌++◌, IfOk, OnOk, Option, map};
ghost use Rattle.um_model.specs.FileForms.{warnings_of};
ghost use Rattle.um_model.specs.Names.{suffix_of};
ghost use Rattle.um_model.specs.Units as model;
ghost use Rattle.um_model.specs.declared.names.Suffix.{Suffix};
ghost use Rattle.um_resolve.specs.View.{unit_file_of};
ghost use Rattle.um_unit.specs.Sources.{all_assigned, assigned_in, says, source_of};
ghost use Rattle.um_unit.specs.Tests as tests;
ghost use Rattle.um_unit.specs.View.{warnings_seen};

use crate::assignments::Source;
use crate::warnings::{FileWarnings, add_file, file_warnings};
use std::alloc::{AllocError, Global};
use um_model::Profile;
use um_name::UnitName;
use um_resolve::SourceFile;
use um_syntax::{Item, parse};

/// The files of a unit as they are read.
#[derive(Drop)]
pub struct Contents<'t> {
    /// Their heads and assignments.
    pub sources: Vec<Source<'t>>,
    /// Their warnings. A file without a warning isn't among them.
    pub warnings: Vec<FileWarnings>,
}

/// A file as it is read.
fn source<'t>(alloc: Global, file: &SourceFile<'t>) -> Result<Source<'t>, AllocError>
    ensures { IfOk result (λ s. source_of s ≡ model.source_of (unit_file_of file.now)) }
{
    Ok(Source {
        path: file.path,
        items: parse(alloc, file.text)?,
    })
}

/// Whether the item is a head or an assignment.
fn says(item: &Item<'_>) -> bool
    ensures { result ≡ says item.now }
{
    !matches!(item, Item::Warning { .. })
}

/// The heads and assignments of a file.
fn said<'t>(source: Source<'t>) -> Source<'t>
    ensures { (suffix : Option Suffix) → assigned_in suffix (source_of result).reading ≡ assigned_in suffix (source_of source.entry).reading }
{
    let Source { path, items } = source;
    let mut items = items;
    items.retain(|item| says(item));
    items.shrink_to_fit();
    Source { path, items }
}

/// Adds the contents of a file.
fn add_contents<'t>(
    alloc: Global,
    profile: Profile,
    unit: &UnitName,
    file: &SourceFile<'t>,
    contents: &mut Contents<'t>,
) -> Result<(), AllocError>
    ensures assigned { OnOk result (all_assigned (suffix_of unit.now) contents.new.sources.items
        ≡ all_assigned (suffix_of unit.now) contents.old.sources.items
        ++ assigned_in (suffix_of unit.now) (model.source_of (unit_file_of file.now)).reading) }
    ensures warned { OnOk result (warnings_seen contents.new.warnings.items
        ≡ warnings_seen contents.old.warnings.items ++ tests.warned_in profile unit.now (model.source_of (unit_file_of file.now))) }
{
    let source = source(alloc, file)?;
    let warned = file_warnings(alloc, profile, unit, &source)?;
    add_file(&mut contents.warnings, warned)?;
    contents.sources.push(said(source))?;
    Ok(())
}

/// The contents of a unit's files, read by the profile, in their order.
pub fn contents_of<'t>(
    alloc: Global,
    profile: Profile,
    unit: &UnitName,
    files: &[SourceFile<'t>],
) -> Result<Contents<'t>, AllocError>
    ensures assigned { IfOk result (λ c. all_assigned (suffix_of unit.now) c.sources.items
        ≡ model.assignments_in (suffix_of unit.now) (map model.source_of (map unit_file_of files.now))) }
    ensures warned { IfOk result (λ c. warnings_seen c.warnings.items
        ≡ warnings_of profile unit.now (map model.source_of (map unit_file_of files.now))) }
{
    let mut contents = Contents {
        sources: Vec::new(alloc),
        warnings: Vec::new(alloc),
    };
    for file in files {
        add_contents(alloc, profile, unit, file, &mut contents)?;
    }
    Ok(contents)
}
