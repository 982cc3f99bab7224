//! Reads folders and files on a disk into a tree.

use crate::fault::VerifyFault;
use crate::places::Collected;
use std::alloc::Global;
use std::fs::{File, Files};
use std::io::Read;
use std::{fs, io};

/// The layers of a tree, named by their folders.
const LAYERS: [&str; 3] = ["etc", "run", "lib"];

/// The endings of a unit's folders.
const FOLDERS: [&str; 3] = [".d", ".wants", ".requires"];

/// The most bytes of a file in a tree; one more is read.
const LONGEST: usize = 65_536;

/// The beginning of the names of the files that a sync keeps in a folder.
const SYNC: &str = ".umd-sync";

/// The fault of a path that can't be read; out of memory is a fault of its own.
fn unread(alloc: Global, path: &str, fault: io::Error) -> VerifyFault {
    if fault.kind() == io::ErrorKind::OutOfMemory {
        return VerifyFault::NoMemory;
    }
    match String::from_str(alloc, path) {
        Ok(path) => VerifyFault::Read(path, fault),
        Err(_) => VerifyFault::NoMemory,
    }
}

/// The first bytes of a file.
fn bytes_of<R: Files>(rt: &R, alloc: Global, path: &str) -> io::Result<Vec<u8>> {
    let mut bytes = Vec::new(alloc);
    File::open(rt, path)?
        .take(LONGEST as u64 + 1)
        .read_to_end(&mut bytes)?;
    Ok(bytes)
}

/// Puts a file with these bytes into the tree.
fn put_bytes(
    collected: &mut Collected,
    place: &str,
    path: &str,
    bytes: &[u8],
) -> Result<(), VerifyFault> {
    match str::from_utf8(bytes) {
        Ok(text) => collected.put_file(place, path, text),
        Err(_) => collected.tell_no_text(place, path),
    }
}

/// Reads a file into the tree.
fn read_file<R: Files>(
    rt: &R,
    collected: &mut Collected,
    place: &str,
    path: &str,
) -> Result<(), VerifyFault> {
    match bytes_of(rt, collected.alloc, path) {
        Ok(bytes) if bytes.len() > LONGEST => collected.tell_too_long(place, path),
        Ok(bytes) => put_bytes(collected, place, path, bytes.as_slice()),
        Err(fault) => Err(unread(collected.alloc, path, fault)),
    }
}

/// The target of a link, as it is written. `None` if it isn't UTF-8.
fn target_of<R: Files>(rt: &R, alloc: Global, path: &str) -> Result<Option<String>, VerifyFault> {
    match fs::read_link(&(rt, alloc), path) {
        Ok(target) => match target.to_str() {
            Some(target) => Ok(Some(String::from_str(alloc, target)?)),
            None => Ok(None),
        },
        Err(fault) => Err(unread(alloc, path, fault)),
    }
}

/// Puts a link to this target into the tree. False if it can't be there.
fn put_target(
    collected: &mut Collected,
    place: &str,
    path: &str,
    target: Option<&str>,
) -> Result<bool, VerifyFault> {
    match target {
        Some(target) => collected.put_link(place, path, target),
        None => {
            collected.no_place(place)?;
            Ok(false)
        }
    }
}

/// Reads the file that a link leads to into the tree.
fn read_behind<R: Files>(
    rt: &R,
    collected: &mut Collected,
    place: &str,
    path: &str,
) -> Result<(), VerifyFault> {
    match fs::metadata(rt, path) {
        Ok(about) if about.is_file() => read_file(rt, collected, place, path),
        _ => collected.tell_no_unit(path),
    }
}

/// Reads a link into the tree; if the link can't be there, the file that it leads to.
fn read_link<R: Files>(
    rt: &R,
    collected: &mut Collected,
    place: &str,
    path: &str,
) -> Result<(), VerifyFault> {
    let target = target_of(rt, collected.alloc, path)?;
    if put_target(collected, place, path, target.as_deref())? {
        Ok(())
    } else {
        read_behind(rt, collected, place, path)
    }
}

/// Reads the file, link or folder at the path into the tree.
fn read_entry<R: Files>(
    rt: &R,
    collected: &mut Collected,
    place: &str,
    path: &str,
) -> Result<(), VerifyFault> {
    if !collected.takes(place, path)? {
        return Ok(());
    }
    match fs::symlink_metadata(rt, path) {
        Ok(about) if about.is_symlink() => read_link(rt, collected, place, path),
        Ok(about) if about.is_file() => read_file(rt, collected, place, path),
        Ok(_) => collected.tell_no_place(place, path),
        Err(fault) => Err(unread(collected.alloc, path, fault)),
    }
}

fn push_name(names: &mut Vec<String>, alloc: Global, name: &str) -> io::Result<()> {
    names.push(String::from_str(alloc, name)?)?;
    Ok(())
}

/// The names in a folder.
fn listed<R: Files>(rt: &R, alloc: Global, path: &str) -> io::Result<Vec<String>> {
    let mut names = Vec::new(alloc);
    for entry in fs::read_dir(&(rt, alloc), path)? {
        push_name(&mut names, alloc, entry?.file_name())?;
    }
    Ok(names)
}

/// The names in a folder, or the fault.
fn names_in<R: Files>(rt: &R, alloc: Global, path: &str) -> Result<Vec<String>, VerifyFault> {
    match listed(rt, alloc, path) {
        Ok(names) => Ok(names),
        Err(fault) => Err(unread(alloc, path, fault)),
    }
}

/// A name in a folder, as a path.
fn joined(alloc: Global, folder: &str, name: &str) -> Result<String, VerifyFault> {
    Ok(format!(in alloc; "{folder}/{name}")?)
}

/// Whether the path is a folder, and no link.
fn is_folder<R: Files>(rt: &R, path: &str) -> bool {
    match fs::symlink_metadata(rt, path) {
        Ok(about) => about.is_dir(),
        Err(_) => false,
    }
}

/// Reads the entry of this name in a folder of a unit.
fn read_inner_entry<R: Files>(
    rt: &R,
    collected: &mut Collected,
    place: &str,
    path: &str,
    name: &str,
) -> Result<(), VerifyFault> {
    let place = joined(collected.alloc, place, name)?;
    let path = joined(collected.alloc, path, name)?;
    read_entry(rt, collected, place.as_str(), path.as_str())
}

/// Reads a folder of a unit, as `x.service.d`.
fn read_inner<R: Files>(
    rt: &R,
    collected: &mut Collected,
    place: &str,
    path: &str,
) -> Result<(), VerifyFault> {
    let names = names_in(rt, collected.alloc, path)?;
    for name in &names {
        read_inner_entry(rt, collected, place, path, name.as_str())?;
    }
    Ok(())
}

/// Whether a folder of this name belongs to a unit.
fn is_of_unit(name: &str) -> bool {
    FOLDERS.iter().any(|end| name.ends_with(*end))
}

/// Reads the entry at the path, of this name in a layer.
fn read_named_in<R: Files>(
    rt: &R,
    collected: &mut Collected,
    name: &str,
    place: &str,
    path: &str,
) -> Result<(), VerifyFault> {
    if is_of_unit(name) && is_folder(rt, path) {
        read_inner(rt, collected, place, path)
    } else {
        read_entry(rt, collected, place, path)
    }
}

/// Reads the entry of this name in a layer.
fn read_in_layer<R: Files>(
    rt: &R,
    collected: &mut Collected,
    layer: &str,
    path: &str,
    name: &str,
) -> Result<(), VerifyFault> {
    let place = joined(collected.alloc, layer, name)?;
    let path = joined(collected.alloc, path, name)?;
    read_named_in(rt, collected, name, place.as_str(), path.as_str())
}

/// Reads a layer of the tree.
fn read_layer<R: Files>(
    rt: &R,
    collected: &mut Collected,
    layer: &str,
    path: &str,
) -> Result<(), VerifyFault> {
    let names = names_in(rt, collected.alloc, path)?;
    for name in &names {
        read_in_layer(rt, collected, layer, path, name.as_str())?;
    }
    Ok(())
}

/// Whether the name is a layer's, and the path is a folder.
fn is_layer<R: Files>(rt: &R, name: &str, path: &str) -> bool {
    LAYERS.contains(&name) && is_folder(rt, path)
}

/// Whether a folder has the layer of this name.
fn has_layer<R: Files>(rt: &R, alloc: Global, path: &str, name: &str) -> Result<bool, VerifyFault> {
    let inner = joined(alloc, path, name)?;
    Ok(is_folder(rt, inner.as_str()))
}

/// Whether a folder contains the folder of a layer.
fn has_layers<R: Files>(rt: &R, alloc: Global, path: &str) -> Result<bool, VerifyFault> {
    for name in LAYERS {
        if has_layer(rt, alloc, path, name)? {
            return Ok(true);
        }
    }
    Ok(false)
}

/// Reads the entry of this name in a folder with layers.
fn read_top<R: Files>(
    rt: &R,
    collected: &mut Collected,
    path: &str,
    name: &str,
) -> Result<(), VerifyFault> {
    let inner = joined(collected.alloc, path, name)?;
    if is_layer(rt, name, inner.as_str()) {
        read_layer(rt, collected, name, inner.as_str())
    } else if name.starts_with(SYNC) {
        Ok(())
    } else {
        collected.tell_no_unit(inner.as_str())
    }
}

/// Reads a folder with its layers.
fn read_layers<R: Files>(rt: &R, collected: &mut Collected, path: &str) -> Result<(), VerifyFault> {
    let names = names_in(rt, collected.alloc, path)?;
    for name in &names {
        read_top(rt, collected, path, name.as_str())?;
    }
    Ok(())
}

/// The last part of a path.
fn last_part(path: &str) -> &str {
    match path.rsplit_once('/') {
        Some((_, name)) => name,
        None => path,
    }
}

/// Reads a file into the tree, if the tree can have one at that path.
fn read_where<R: Files>(
    rt: &R,
    collected: &mut Collected,
    place: &str,
    path: &str,
) -> Result<(), VerifyFault> {
    if collected.takes(place, path)? {
        read_file(rt, collected, place, path)
    } else {
        Ok(())
    }
}

/// Reads a file that was named by itself, as one of `lib`.
fn read_named<R: Files>(rt: &R, collected: &mut Collected, path: &str) -> Result<(), VerifyFault> {
    let place = joined(collected.alloc, "lib", last_part(path))?;
    read_where(rt, collected, place.as_str(), path)
}

/// Reads a folder, by its layers or as a single one.
fn read_folder<R: Files>(
    rt: &R,
    collected: &mut Collected,
    folder: &str,
) -> Result<(), VerifyFault> {
    if has_layers(rt, collected.alloc, folder)? {
        read_layers(rt, collected, folder)
    } else {
        read_layer(rt, collected, "lib", folder)
    }
}

/// The path of a folder, without slashes at its end.
fn folder_at(path: &str) -> &str {
    let folder = path.trim_end_matches('/');
    if folder.is_empty() && !path.is_empty() {
        "/"
    } else {
        folder
    }
}

/// Reads the folder or file at a path.
fn read_path<R: Files>(rt: &R, collected: &mut Collected, path: &str) -> Result<(), VerifyFault> {
    match fs::metadata(rt, path) {
        Ok(about) if about.is_dir() => read_folder(rt, collected, folder_at(path)),
        Ok(about) if about.is_file() => read_named(rt, collected, path),
        Ok(_) => collected.tell_no_unit(path),
        Err(fault) => Err(unread(collected.alloc, path, fault)),
    }
}

/// Reads folders and files into a tree. A folder is read by its folders `etc`, `run` and `lib`, or as `lib` if it has
/// none of them, with links as links; a file is read as one of `lib`. Anything without a served path, or that can't
/// be a file of a unit, is reported and skipped. `Twice` if two files would be at one path of the tree, `Read` if
/// something can't be read, `Refused` if there are more files than a tree may have, `NoMemory` if an allocation failed.
pub fn collect<R: Files>(rt: &R, alloc: Global, paths: &[&str]) -> Result<Collected, VerifyFault> {
    let mut collected = Collected::new(alloc);
    for path in paths {
        read_path(rt, &mut collected, path)?;
    }
    Ok(collected)
}

/// Reads the entry with a layer's name in a folder; anything but a folder is a misfit.
fn read_own_layer<R: Files>(
    rt: &R,
    collected: &mut Collected,
    folder: &str,
    layer: &str,
) -> Result<(), VerifyFault> {
    let path = joined(collected.alloc, folder, layer)?;
    if is_folder(rt, path.as_str()) {
        read_layer(rt, collected, layer, path.as_str())
    } else {
        collected.no_place(layer)
    }
}

/// Reads the folders `etc`, `run` and `lib` of a folder into a tree, as `collect` does, and nothing else of it.
/// Anything that can't be put at its place in a tree is also a misfit. Refused as `collect` is.
pub fn collect_layers<R: Files>(
    rt: &R,
    alloc: Global,
    folder: &str,
) -> Result<Collected, VerifyFault> {
    let folder = folder_at(folder);
    let mut collected = Collected::new(alloc);
    for name in &names_in(rt, alloc, folder)? {
        if LAYERS.contains(&name.as_str()) {
            read_own_layer(rt, &mut collected, folder, name.as_str())?;
        }
    }
    Ok(collected)
}
