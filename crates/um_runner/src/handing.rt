//! The file by which the manager hands a runner the entries of a start.

use crate::fault::FolderFault;
use crate::files::make_new;
use crate::handed::{entries_text, read_entries};
use crate::job::are_entries;
use crate::paths::file_path;
use crate::runner_file::RunnerFile;
use std::alloc::Global;
use std::fs::Files;
use std::io::{ErrorKind, Write};
use std::{fs, io};
use um_model::ProcessNumber;

/// The entries are read by the manager's user alone: they may be secrets.
const MODE: u32 = 0o600;

/// Makes the file at the path with its text, in place of the one there.
fn make_file<R: Files>(rt: &R, path: &str, text: &[u8]) -> io::Result<()> {
    make_new(rt, path, MODE)?.write_all(text)
}

/// Hands the entries over to the runner that is started next for the number: in a file of mode 600, of 16,384 bytes at
/// least.
///
/// `NoMemory` if memory is wanting, and `System` of the kind InvalidInput if an entry has a zero byte, as no process
/// can be given one. Both are returned before the folder is touched. `System` if the folder or its disk refuses the
/// file, of which nothing is left then.
pub fn hand_over<R: Files>(
    rt: &R,
    alloc: Global,
    folder: &str,
    number: ProcessNumber,
    entries: &[String],
) -> Result<(), FolderFault> {
    let path = file_path(alloc, folder, number, RunnerFile::Entries)?;
    let Some(text) = entries_text(alloc, entries)? else {
        return Err(FolderFault::System(io::Error::from(ErrorKind::InvalidInput)));
    };
    match make_file(rt, path.as_str(), text.as_slice()) {
        Ok(()) => Ok(()),
        Err(error) => {
            // A file that is left because this fails goes with the number's other files.
            let _left = fs::remove_file(rt, path.as_str());
            Err(FolderFault::System(error))
        }
    }
}

/// Removes the file of entries of the number, where one is there.
///
/// `NoMemory` where memory is wanting, `System` where the system refuses.
pub fn take_back<R: Files>(
    rt: &R,
    alloc: Global,
    folder: &str,
    number: ProcessNumber,
) -> Result<(), FolderFault> {
    let path = file_path(alloc, folder, number, RunnerFile::Entries)?;
    match fs::remove_file(rt, path.as_str()) {
        Err(error) if error.kind() != ErrorKind::NotFound => Err(FolderFault::System(error)),
        Ok(()) | Err(_) => Ok(()),
    }
}

/// The text of the file at the path, which is removed. A file that isn't regular is neither read nor removed.
fn take_text<R: Files>(rt: &R, alloc: Global, path: &str) -> io::Result<String> {
    if !fs::symlink_metadata(rt, path)?.is_file() {
        return Err(io::Error::from(ErrorKind::InvalidData));
    }
    let text = fs::read_to_string(&(rt, alloc), path);
    fs::remove_file(rt, path)?;
    text
}

/// Takes the entries that were handed over for the number, and removes their file. None if it can't be read or removed,
/// or holds no entries NAME=value.
pub fn take_entries<R: Files>(
    rt: &R,
    alloc: Global,
    folder: &str,
    number: ProcessNumber,
) -> Option<Vec<String>> {
    let path = file_path(alloc, folder, number, RunnerFile::Entries).ok()?;
    let text = take_text(rt, alloc, path.as_str()).ok()?;
    let entries = read_entries(alloc, text.as_str()).ok()??;
    if are_entries(entries.as_slice()) {
        Some(entries)
    } else {
        None
    }
}
