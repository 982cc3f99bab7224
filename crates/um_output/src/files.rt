//! The names of output files, and small actions on files.

ghost use Rattle.std.specs.Prelude.{◌≡◌, ◌≢◌, ◌<◌, ◌≤◌, ℕ, IfOk, MatchOption, string_bytes};
ghost use Rattle.um_model.specs.Moments.{process_limit};
ghost use Rattle.um_output.specs.Files as model;
ghost use Rattle.um_output.specs.declared.files.Part.{Part};

use std::alloc::Global;
use std::fs::{DirBuilder, Files, OpenOptions};
use std::io::ErrorKind;
use std::os::unix::fs::{DirBuilderExt, OpenOptionsExt};
use std::{fs, io};
use um_model::ProcessNumber;
use um_runner::number_in;

/// A file's mode: only the owner reads and writes it.
pub(crate) const MODE: u32 = 0o600;

/// A folder's mode: only the owner lists and enters it, and makes files in it.
const FOLDER_MODE: u32 = 0o700;

/// The number of attempts at a draft. Between two of them one that somebody else made in the meantime is removed.
const TRIES: u32 = 8;

/// The parts of a number's output, a file each.
#[derive(Clone, Copy, PartialEq, Eq)]
pub(crate) enum Part {
    /// The output of the process.
    Printed,
    /// The last of the bytes that were cut off.
    Old,
    /// The draft of `Old`.
    Draft,
}

impl Part {
    /// The text after the number in the file's name.
    pub(crate) fn ending(self) -> &'static str
        ensures { result.now ≡ model.ending self }
    {
        match self {
            Part::Printed => "",
            Part::Old => ".old",
            Part::Draft => ".old.new",
        }
    }
}

/// A file of a number.
#[derive(Clone, Copy)]
pub(crate) struct OutputFile {
    pub(crate) number: ProcessNumber,
    pub(crate) part: Part,
}

/// The file of this name, if the name is a number's for this part.
fn file_of(name: &str, part: Part) -> Option<OutputFile>
    ensures { MatchOption result ((n : ℕ) → 1 ≤ n → n < process_limit → name.now ≢ model.name_of n part) (λ f. (name.now ≡ model.name_of f.number f.part) × (f.part ≡ part)) }
{
    let digits = name.strip_suffix(part.ending())?;
    let number = ProcessNumber::new(number_in(digits.as_bytes())?)?;
    Some(OutputFile { number, part })
}

/// The file of this name; `None` for other names.
pub(crate) fn file_named(name: &str) -> Option<OutputFile>
    ensures { MatchOption result ((n : ℕ) → (part : Part) → 1 ≤ n → n < process_limit → name.now ≢ model.name_of n part) (λ f. name.now ≡ model.name_of f.number f.part) }
{
    if let Some(file) = file_of(name, Part::Draft) {
        return Some(file);
    }
    if let Some(file) = file_of(name, Part::Old) {
        return Some(file);
    }
    file_of(name, Part::Printed)
}

/// The path of the file of this name in the folder.
pub(crate) fn path_of_name(alloc: Global, folder: &str, name: &str) -> io::Result<String>
    ensures { IfOk result (λ path. string_bytes path ≡ model.path folder.now name.now) }
{
    Ok(format!(in alloc; "{folder}/{name}")?)
}

/// The path of a file of the number in the folder.
pub(crate) fn path_of(
    alloc: Global,
    folder: &str,
    number: ProcessNumber,
    part: Part,
) -> io::Result<String>
    ensures { IfOk result (λ path. string_bytes path ≡ model.path folder.now (model.name_of number part)) }
{
    let (number, ending) = (number.get(), part.ending());
    Ok(format!(in alloc; "{folder}/{number}{ending}")?)
}

fn push_name(names: &mut Vec<String>, alloc: Global, name: &str) -> io::Result<()> {
    names.push(String::from_str(alloc, name)?)?;
    Ok(())
}

/// The names in the folder.
pub(crate) fn names_in<R: Files>(rt: &R, alloc: Global, folder: &str) -> io::Result<Vec<String>> {
    let mut names = Vec::new(alloc);
    for entry in fs::read_dir(&(rt, alloc), folder)? {
        push_name(&mut names, alloc, entry?.file_name())?;
    }
    Ok(names)
}

/// The numbered files among these names.
fn files_among(alloc: Global, names: &[String]) -> io::Result<Vec<OutputFile>> {
    let mut files = Vec::new(alloc);
    for name in names {
        if let Some(file) = file_named(name.as_str()) {
            files.push(file)?;
        }
    }
    Ok(files)
}

/// The numbered files in the folder; none if there is no folder.
pub(crate) fn files_in<R: Files>(
    rt: &R,
    alloc: Global,
    folder: &str,
) -> io::Result<Vec<OutputFile>> {
    match names_in(rt, alloc, folder) {
        Ok(names) => files_among(alloc, names.as_slice()),
        Err(fault) if fault.kind() == ErrorKind::NotFound => Ok(Vec::new(alloc)),
        Err(fault) => Err(fault),
    }
}

/// Whether a folder stands at the path.
pub(crate) fn is_folder<R: Files>(rt: &R, path: &str) -> io::Result<bool> {
    match fs::symlink_metadata(rt, path) {
        Ok(about) => Ok(about.is_dir()),
        Err(fault) if fault.kind() == ErrorKind::NotFound => Ok(false),
        Err(fault) => Err(fault),
    }
}

/// Whether the path is a regular file or doesn't exist.
pub(crate) fn is_regular<R: Files>(rt: &R, path: &str) -> io::Result<bool> {
    match fs::symlink_metadata(rt, path) {
        Ok(about) => Ok(about.is_file()),
        Err(fault) if fault.kind() == ErrorKind::NotFound => Ok(true),
        Err(fault) => Err(fault),
    }
}

/// The length in bytes of the regular file at the path. `None` if something else or nothing is there.
pub(crate) fn length_of<R: Files>(rt: &R, path: &str) -> io::Result<Option<u64>> {
    match fs::symlink_metadata(rt, path) {
        Ok(about) if about.is_file() => Ok(Some(about.len())),
        Ok(_) => Ok(None),
        Err(fault) if fault.kind() == ErrorKind::NotFound => Ok(None),
        Err(fault) => Err(fault),
    }
}

/// Removes the file at the path, if there is one.
pub(crate) fn remove<R: Files>(rt: &R, path: &str) -> io::Result<()> {
    match fs::remove_file(rt, path) {
        Err(fault) if fault.kind() != ErrorKind::NotFound => Err(fault),
        Ok(()) | Err(_) => Ok(()),
    }
}

/// Makes the folder, if nothing is at its path.
pub(crate) fn make_folder<R: Files>(rt: &R, path: &str) -> io::Result<()> {
    match DirBuilder::new().mode(FOLDER_MODE).create(rt, path) {
        Err(fault) if fault.kind() != ErrorKind::AlreadyExists => Err(fault),
        Ok(()) | Err(_) => Ok(()),
    }
}

/// Makes a new file in place of an old one: never opens a file that was there before, nor one that a link leads to.
pub(crate) fn make_new<R: Files>(rt: &R, path: &str) -> io::Result<R::File> {
    let mut how = OpenOptions::new();
    how.write(true).create_new(true).mode(MODE);
    for _ in 0..TRIES {
        match how.open(rt, path) {
            Err(fault) if fault.kind() == ErrorKind::AlreadyExists => remove(rt, path)?,
            answer => return answer,
        }
    }
    Err(io::Error::from(ErrorKind::AlreadyExists))
}
