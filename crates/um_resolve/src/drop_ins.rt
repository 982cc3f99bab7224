//! The drop-ins of a unit.

ghost use Rattle.std.specs.Prelude.{◌≡◌, ◌++◌, IfOk, OnOk, [], codes, map as each, option_copied, option_map, string_bytes};
ghost use Rattle.std.specs.FinMap as map;
ghost use Rattle.std.specs.List.{flat_map};
ghost use Rattle.std.specs.Option.{option_map_or};
ghost use Rattle.um_model.specs.Resolution as model;
ghost use Rattle.um_model.specs.Tree.{behind, layer_text};
ghost use Rattle.um_tree.specs.Folder.{with_slash};
ghost use Rattle.um_tree.specs.View.{entry_of};
ghost use Rattle.um_resolve.specs.View.{added, by_file_of, drop_in_of, drop_ins_seen, first_kept, unit_file_of};

use crate::files::SourceFile;
use std::alloc::{AllocError, Global};
use std::collections::BTreeMap;
use um_model::Layer;
use um_name::UnitName;
use um_tree::{Entry, Tree};

/// A drop-in: its name in its folder, its path and its text.
#[derive(Clone, Copy)]
pub struct DropIn<'t> {
    pub file: &'t str,
    pub path: &'t str,
    pub text: &'t str,
}

/// Drop-ins by the names of their files.
type ByFile<'t> = BTreeMap<String, DropIn<'t>>;

/// A layer's folder of drop-ins of a unit.
fn drop_in_folder(alloc: Global, unit: &str, layer: Layer) -> Result<String, AllocError>
    ensures { IfOk result (λ folder. with_slash (string_bytes folder) ≡ layer_text layer ++ (unit.now ++ codes ".d/")) }
{
    let mut folder = String::from_str(alloc, layer.text())?;
    folder.push_str(unit)?;
    folder.push_str(".d")?;
    Ok(folder)
}

/// The folder's path with the slash before the names in it.
fn front_of(alloc: Global, folder: &str) -> Result<String, AllocError>
    ensures { IfOk result (λ front. string_bytes front ≡ with_slash folder.now) }
{
    let mut front = String::from_str(alloc, folder)?;
    front.push_str("/")?;
    Ok(front)
}

/// The file's name in the folder, for a path there.
fn file_in<'t>(folder: &str, path: &'t str) -> Option<&'t str>
    ensures { option_map (λ file. file.now) result ≡ behind folder.now path.now }
{
    path.strip_prefix(folder)
}

/// The drop-in of an entry of the tree, if it is a file in the folder.
fn drop_in_at<'t>(folder: &str, path: &'t str, entry: Entry<'t>) -> Option<DropIn<'t>>
    ensures { drop_ins_seen result ≡ model.drop_in_at folder.now (path.now, entry_of entry.entry) }
{
    let file = file_in(folder, path)?;
    match entry {
        Entry::File(text) => Some(DropIn { file, path, text }),
        Entry::Link(_) => None,
    }
}

/// Adds a drop-in, unless there is one of that file already.
fn add<'t>(alloc: Global, by_file: &mut ByFile<'t>, drop_in: DropIn<'t>) -> Result<(), AllocError>
    ensures { OnOk result (by_file_of by_file.new.entries ≡ first_kept (by_file_of by_file.old.entries) (drop_in_of drop_in.entry)) }
{
    if by_file.contains_key(drop_in.file) {
        return Ok(());
    }
    let file = String::from_str(alloc, drop_in.file)?;
    by_file.insert(file, drop_in)?;
    Ok(())
}

/// Adds those of a folder.
fn add_folder<'t>(
    alloc: Global,
    by_file: &mut ByFile<'t>,
    tree: &'t Tree,
    folder: &str,
) -> Result<(), AllocError>
    ensures { OnOk result (by_file_of by_file.new.entries ≡ added (by_file_of by_file.old.entries) (model.drop_ins_in tree.now (with_slash folder.now))) }
{
    let front = front_of(alloc, folder)?;
    for (path, entry) in tree.entries_in(folder)? {
        if let Some(drop_in) = drop_in_at(front.as_str(), path, entry) {
            add(alloc, by_file, drop_in)?;
        }
    }
    Ok(())
}

/// Adds those in a layer's folder of the unit.
fn add_layer<'t>(
    alloc: Global,
    by_file: &mut ByFile<'t>,
    tree: &'t Tree,
    unit: &str,
    layer: Layer,
) -> Result<(), AllocError>
    ensures { OnOk result (by_file_of by_file.new.entries
        ≡ added (by_file_of by_file.old.entries) (model.drop_ins_in tree.now (layer_text layer ++ (unit.now ++ codes ".d/")))) }
{
    let folder = drop_in_folder(alloc, unit, layer)?;
    add_folder(alloc, by_file, tree, folder.as_str())?;
    Ok(())
}

/// Adds those in the unit's folders of all layers.
fn add_unit<'t>(
    alloc: Global,
    by_file: &mut ByFile<'t>,
    tree: &'t Tree,
    unit: &str,
) -> Result<(), AllocError>
    ensures { OnOk result (by_file_of by_file.new.entries
        ≡ added (by_file_of by_file.old.entries) (flat_map (model.drop_ins_in tree.now) (model.folders_of unit.now))) }
{
    add_layer(alloc, by_file, tree, unit, Layer::Etc)?;
    add_layer(alloc, by_file, tree, unit, Layer::Run)?;
    add_layer(alloc, by_file, tree, unit, Layer::Lib)?;
    Ok(())
}

/// Adds those of the template, if there is one.
fn add_template<'t>(
    alloc: Global,
    by_file: &mut ByFile<'t>,
    tree: &'t Tree,
    template: Option<&UnitName>,
) -> Result<(), AllocError>
    ensures { OnOk result (by_file_of by_file.new.entries
        ≡ added (by_file_of by_file.old.entries) (flat_map (model.drop_ins_in tree.now) (option_map_or model.folders_of (option_copied template.entry) []))) }
{
    if let Some(template) = template {
        add_unit(alloc, by_file, tree, template.as_str())?;
    }
    Ok(())
}

/// Those of the unit and of its template.
fn by_file<'t>(alloc: Global, tree: &'t Tree, unit: &UnitName) -> Result<ByFile<'t>, AllocError>
    ensures { IfOk result (λ found. by_file_of found.entries ≡ map.from_entries (flat_map (model.drop_ins_in tree.now) (model.drop_in_folders unit.now))) }
{
    let mut found = BTreeMap::new(alloc);
    let template = unit.template()?;
    add_unit(alloc, &mut found, tree, unit.as_str())?;
    add_template(alloc, &mut found, tree, template.as_ref())?;
    Ok(found)
}

/// The drop-ins of a unit by the names of their files, whatever layer they lie in (systemd.unit(5), "Description").
/// Of several files with one name an earlier layer's counts, and any of the unit's own before its template's.
#[tactic(auto, unfolding(um_model::specs::Resolution::drop_ins_of))]
pub fn drop_ins<'t>(
    alloc: Global,
    tree: &'t Tree,
    unit: &UnitName,
) -> Result<Vec<SourceFile<'t>>, AllocError>
    ensures { IfOk result (λ found. each unit_file_of found.items ≡ map.values (model.drop_ins_of tree.now unit.now)) }
{
    let by_file = by_file(alloc, tree, unit)?;
    let mut found = Vec::new(alloc);
    for drop_in in by_file.values() {
        found.push(SourceFile {
            path: drop_in.path,
            text: drop_in.text,
        })?;
    }
    Ok(found)
}
