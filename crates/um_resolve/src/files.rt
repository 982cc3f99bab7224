//! The files of a unit.

ghost use Rattle.std.specs.Prelude.{◌≡◌, ◌++◌, IfOk, map as each};
ghost use Rattle.std.specs.FinMap as map;
ghost use Rattle.um_model.specs.Machine.{files_told};
ghost use Rattle.um_model.specs.Resolution as model;
ghost use Rattle.um_resolve.specs.View.{file_of, reply_by, resolution_of, unit_file_of};

use crate::drop_ins::drop_ins;
use crate::resolution::{Resolution, resolve};
use std::alloc::{AllocError, Global};
use um_name::UnitName;
use um_tree::Tree;

/// A file of a unit, borrowed from the tree.
#[derive(Clone, Copy)]
pub struct SourceFile<'t> {
    pub path: &'t str,
    pub text: &'t str,
}

/// A file of a unit, with its own path and text.
#[derive(Debug, Drop)]
pub struct UnitFile {
    /// Its path in the tree.
    pub path: String,
    pub text: String,
}

/// The files of a unit, if it is found and not masked.
#[derive(Drop)]
pub enum Files {
    /// Its own and then its drop-ins.
    Found(Vec<UnitFile>),
    Masked { unit: UnitName },
    NotFound,
}

/// The files, followed by the drop-ins of the unit.
fn with_drop_ins<'t>(
    alloc: Global,
    files: Vec<SourceFile<'t>>,
    tree: &'t Tree,
    unit: &UnitName,
) -> Result<Vec<SourceFile<'t>>, AllocError>
    ensures { IfOk result (λ all. each unit_file_of all.items
        ≡ each unit_file_of files.entry.items ++ map.values (model.drop_ins_of tree.now unit.now)) }
{
    let mut files = files;
    for drop_in in &drop_ins(alloc, tree, unit)? {
        files.push(*drop_in)?;
    }
    Ok(files)
}

/// The files of the unit to which a name leads, in the order in which they are read: its own and then its drop-ins.
pub fn source_files<'t>(
    alloc: Global,
    tree: &'t Tree,
    resolution: &'t Resolution<'t>,
) -> Result<Vec<SourceFile<'t>>, AllocError>
    ensures { IfOk result (λ files. each unit_file_of files.items ≡ model.files_at tree.now (resolution_of resolution.now)) }
{
    let mut files = Vec::new(alloc);
    match resolution {
        Resolution::File { unit, path, text } => {
            files.push(SourceFile {
                path: path.as_str(),
                text: *text,
            })?;
            with_drop_ins(alloc, files, tree, unit)
        }
        Resolution::NoFile { unit } => with_drop_ins(alloc, files, tree, unit),
        Resolution::Mask { unit: _ } => Ok(files),
        Resolution::Nowhere => Ok(files),
    }
}

/// The same files with paths and texts of their own.
fn owned_files(alloc: Global, sources: &[SourceFile<'_>]) -> Result<Vec<UnitFile>, AllocError>
    ensures { IfOk result (λ files. each file_of files.items ≡ each unit_file_of sources.now) }
{
    let mut files = Vec::new(alloc);
    for source in sources {
        files.push(UnitFile {
            path: String::from_str(alloc, source.path)?,
            text: String::from_str(alloc, source.text)?,
        })?;
    }
    Ok(files)
}

fn found_files(
    alloc: Global,
    tree: &Tree,
    resolution: &Resolution<'_>,
) -> Result<Vec<UnitFile>, AllocError>
    ensures { IfOk result (λ files. each file_of files.items ≡ model.files_at tree.now (resolution_of resolution.now)) }
{
    let sources = source_files(alloc, tree, resolution)?;
    owned_files(alloc, sources.as_slice())
}

/// The files of the unit of that name in the tree, in the order in which they are read: its own, and then its drop-ins by the
/// names of their files.
pub fn files_of(alloc: Global, tree: &Tree, unit: &UnitName) -> Result<Files, AllocError>
    ensures { IfOk result (λ f. reply_by unit.now f ≡ files_told tree.now unit.now (model.resolution_of tree.now unit.now)) }
{
    let resolution = resolve(alloc, tree, unit)?;
    match &resolution {
        Resolution::File { .. } => Ok(Files::Found(found_files(alloc, tree, &resolution)?)),
        Resolution::NoFile { .. } => Ok(Files::Found(found_files(alloc, tree, &resolution)?)),
        Resolution::Mask { unit } => Ok(Files::Masked { unit: unit.copy()? }),
        Resolution::Nowhere => Ok(Files::NotFound),
    }
}
