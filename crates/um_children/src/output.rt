//! The file of a process's output.

use std::alloc::Global;
use std::fs::{Files, OpenOptions};
use std::io::ErrorKind;
use std::os::unix::fs::OpenOptionsExt;
use std::{fs, io};
use um_model::ProcessNumber;

/// Where it goes that no file has.
pub(crate) const NOWHERE: &str = "/dev/null";

/// Its owner alone reads and writes it.
const MODE: u32 = 0o600;

/// The name in the folder of an empty file that the next start takes. It is made after a start: a disk takes its time
/// to make a new file, and a start is waited for until it is ordered.
const AHEAD: &str = "next";

fn path_ahead(alloc: Global, folder: &str) -> io::Result<String> {
    Ok(format!(in alloc; "{folder}/{AHEAD}")?)
}

/// Makes an empty file at the path, where nothing stands there.
fn make_new<R: Files>(rt: &R, path: &str) -> io::Result<()> {
    let mut how = OpenOptions::new();
    how.write(true).create_new(true).mode(MODE);
    how.open(rt, path)?;
    Ok(())
}

/// Makes the file that the next start takes, where it isn't there.
fn try_ahead<R: Files>(rt: &R, alloc: Global, folder: &str) -> io::Result<()> {
    make_new(rt, path_ahead(alloc, folder)?.as_str())
}

/// The same; if it can't be made the next start makes its file itself, and reports why that fails.
pub(crate) fn make_ahead<R: Files>(rt: &R, alloc: Global, folder: Option<&str>) {
    if let Some(folder) = folder {
        let _made = try_ahead(rt, alloc, folder);
    }
}

/// Removes the file that an earlier manager made ahead.
fn try_drop_ahead<R: Files>(rt: &R, alloc: Global, folder: &str) -> io::Result<()> {
    fs::remove_file(rt, path_ahead(alloc, folder)?.as_str())
}

/// Makes the first file ahead, in place of the one that an earlier manager left.
pub(crate) fn begin_ahead<R: Files>(rt: &R, alloc: Global, folder: &str) {
    let _gone = try_drop_ahead(rt, alloc, folder);
    make_ahead(rt, alloc, Some(folder));
}

/// Whether nothing stands at the path.
fn is_free<R: Files>(rt: &R, path: &str) -> bool {
    match fs::symlink_metadata(rt, path) {
        Ok(_) => false,
        Err(fault) => fault.kind() == ErrorKind::NotFound,
    }
}

/// Moves the file that was made ahead to this path, where nothing stands there. False where it isn't moved.
fn take_ahead<R: Files>(rt: &R, alloc: Global, folder: &str, path: &str) -> io::Result<bool> {
    if !is_free(rt, path) {
        return Ok(false);
    }
    let ahead = path_ahead(alloc, folder)?;
    Ok(fs::rename(rt, ahead.as_str(), path).is_ok())
}

/// Makes the file of the number in the folder, where nothing stands there, and gives its path.
fn make_of<R: Files>(
    rt: &R,
    alloc: Global,
    folder: &str,
    number: ProcessNumber,
) -> io::Result<String> {
    let number = number.get();
    let path = format!(in alloc; "{folder}/{number}")?;
    if !take_ahead(rt, alloc, folder, path.as_str())? {
        make_new(rt, path.as_str())?;
    }
    Ok(path)
}

/// The result of making a file for the output of a process.
#[derive(Debug, Drop)]
pub(crate) enum Output {
    /// Nothing: no output is kept.
    Nowhere,
    /// A new file at this path.
    New(String),
    /// No file could be made.
    Failed(io::Error),
}

impl Output {
    /// Makes a new file for the number in the folder, if there is one.
    pub(crate) fn of<R: Files>(
        rt: &R,
        alloc: Global,
        folder: Option<&str>,
        number: ProcessNumber,
    ) -> Output {
        let Some(folder) = folder else {
            return Output::Nowhere;
        };
        match make_of(rt, alloc, folder, number) {
            Ok(path) => Output::New(path),
            Err(fault) => Output::Failed(fault),
        }
    }

    /// The path that is handed to the shell.
    pub(crate) fn path(&self) -> &str {
        match self {
            Output::New(path) => path.as_str(),
            Output::Nowhere | Output::Failed(_) => NOWHERE,
        }
    }

    /// Why no file could be made, where none could.
    pub(crate) fn fault(&self) -> Option<&io::Error> {
        match self {
            Output::Failed(fault) => Some(fault),
            Output::Nowhere | Output::New(_) => None,
        }
    }

    /// Removes the file again, to which nobody has written.
    pub(crate) fn take_back<R: Files>(&self, rt: &R) {
        if let Output::New(path) = self {
            // a file that is left because this fails is empty, and goes at an opening
            let _left = fs::remove_file(rt, path.as_str());
        }
    }
}
