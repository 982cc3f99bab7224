//! The folder of a unit's output: which files of it stay.

use crate::cutting::cut;
use crate::files::{OutputFile, Part, files_in, length_of, make_folder, path_of, remove};
use crate::kept::{idle_numbers, is_among, old_numbers};
use std::alloc::{AllocError, Global};
use std::fs::Files;
use std::io::ErrorKind;
use std::{fs, io};
use um_model::ProcessNumber;

/// How many numbers of a unit stay that aren't live.
pub(crate) const KEPT: usize = 4;

/// Makes a folder and moves a file into it; true if the folder is new. If there is no such file, nothing is done.
fn place_in_new<R: Files>(rt: &R, folder: &str, old: &str, new: &str) -> io::Result<bool> {
    if length_of(rt, old)?.is_none() {
        return Ok(false);
    }
    make_folder(rt, folder)?;
    fs::rename(rt, old, new)?;
    Ok(true)
}

/// Moves a file into a folder, which is made if it doesn't exist; true if it is new.
fn place_at<R: Files>(rt: &R, folder: &str, old: &str, new: &str) -> io::Result<bool> {
    match fs::rename(rt, old, new) {
        Ok(()) => Ok(false),
        Err(fault) if fault.kind() == ErrorKind::NotFound => place_in_new(rt, folder, old, new),
        Err(fault) => Err(fault),
    }
}

/// Moves the file of a number from one folder to another, which is made if it doesn't exist; true if it is new. If
/// there is no such file, nothing is done.
pub(crate) fn place<R: Files>(
    rt: &R,
    alloc: Global,
    from: &str,
    folder: &str,
    number: ProcessNumber,
) -> io::Result<bool> {
    let old = path_of(alloc, from, number, Part::Printed)?;
    let new = path_of(alloc, folder, number, Part::Printed)?;
    place_at(rt, folder, old.as_str(), new.as_str())
}

/// Cuts the file of a number if it is too long.
pub(crate) fn look_after<R: Files>(
    rt: &R,
    alloc: Global,
    folder: &str,
    number: ProcessNumber,
    size: u64,
) -> io::Result<()> {
    let path = path_of(alloc, folder, number, Part::Printed)?;
    match length_of(rt, path.as_str())? {
        Some(length) if length > size => cut(rt, alloc, folder, number, size),
        _ => Ok(()),
    }
}

/// Removes the file of a number if it is empty.
fn remove_empty<R: Files>(
    rt: &R,
    alloc: Global,
    folder: &str,
    number: ProcessNumber,
) -> io::Result<()> {
    let path = path_of(alloc, folder, number, Part::Printed)?;
    match length_of(rt, path.as_str())? {
        Some(0) => remove(rt, path.as_str()),
        _ => Ok(()),
    }
}

/// Cuts the file of a number that has ended if it is too long, and removes it if it is empty.
pub(crate) fn finish<R: Files>(
    rt: &R,
    alloc: Global,
    folder: &str,
    number: ProcessNumber,
    size: u64,
) -> io::Result<()> {
    let cut = look_after(rt, alloc, folder, number, size);
    remove_empty(rt, alloc, folder, number).and(cut)
}

/// Removes a file of the number.
fn remove_part<R: Files>(
    rt: &R,
    alloc: Global,
    folder: &str,
    number: ProcessNumber,
    part: Part,
) -> io::Result<()> {
    let path = path_of(alloc, folder, number, part)?;
    remove(rt, path.as_str())
}

/// Removes these files of the number.
fn remove_number<R: Files>(
    rt: &R,
    alloc: Global,
    folder: &str,
    files: &[OutputFile],
    number: ProcessNumber,
) -> io::Result<()> {
    for file in files {
        if file.number == number {
            remove_part(rt, alloc, folder, number, file.part)?;
        }
    }
    Ok(())
}

/// Removes these files of the numbers.
fn remove_numbers<R: Files>(
    rt: &R,
    alloc: Global,
    folder: &str,
    files: &[OutputFile],
    numbers: &[ProcessNumber],
) -> io::Result<()> {
    for number in numbers {
        remove_number(rt, alloc, folder, files, *number)?;
    }
    Ok(())
}

/// The numbers of these files except the live ones and the `kept` newest of the others.
fn old_in(
    alloc: Global,
    files: &[OutputFile],
    live: &[ProcessNumber],
    kept: usize,
) -> Result<Vec<ProcessNumber>, AllocError> {
    let idle = idle_numbers(alloc, files, live)?;
    old_numbers(alloc, kept, idle.as_slice())
}

/// Removes the files of all numbers in the folder except the live ones and the `kept` newest of the others.
pub(crate) fn prune<R: Files>(
    rt: &R,
    alloc: Global,
    folder: &str,
    live: &[ProcessNumber],
    kept: usize,
) -> io::Result<()> {
    let files = files_in(rt, alloc, folder)?;
    let old = old_in(alloc, files.as_slice(), live, kept)?;
    remove_numbers(rt, alloc, folder, files.as_slice(), old.as_slice())
}

/// Removes a leftover draft, and finishes a number that isn't live.
fn tidy_file<R: Files>(
    rt: &R,
    alloc: Global,
    folder: &str,
    file: OutputFile,
    live: &[ProcessNumber],
    size: u64,
) -> io::Result<()> {
    match file.part {
        Part::Draft => remove_part(rt, alloc, folder, file.number, file.part),
        Part::Printed if !is_among(live, file.number) => {
            finish(rt, alloc, folder, file.number, size)
        }
        Part::Printed | Part::Old => Ok(()),
    }
}

/// Does the same with each of these files. A failure doesn't stop the others; the last failure is returned.
fn tidy_files<R: Files>(
    rt: &R,
    alloc: Global,
    folder: &str,
    files: &[OutputFile],
    live: &[ProcessNumber],
    size: u64,
) -> io::Result<()> {
    let mut tidied = Ok(());
    for file in files {
        tidied = tidy_file(rt, alloc, folder, *file, live, size).and(tidied);
    }
    tidied
}

/// Finishes the numbers in the folder that aren't live, removes leftover drafts, and keeps only the newest numbers. A
/// failure doesn't stop the others; the last failure is returned.
pub(crate) fn tidy<R: Files>(
    rt: &R,
    alloc: Global,
    folder: &str,
    live: &[ProcessNumber],
    size: u64,
) -> io::Result<()> {
    let files = files_in(rt, alloc, folder)?;
    let tidied = tidy_files(rt, alloc, folder, files.as_slice(), live, size);
    prune(rt, alloc, folder, live, KEPT).and(tidied)
}
