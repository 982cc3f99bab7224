//! Removes the files of a number whose status stands in the folder of the runners' files.

use crate::trouble::Trouble;
use std::alloc::Global;
use std::fs::{File, Files};
use std::io::{ErrorKind, Read};
use std::{fs, io};
use um_model::ProcessNumber;
use um_runner::{Claimant, RunnerFile, file_path, read_claim, status_in};

/// The files that are left of a number, the claim first and the status last.
const LEFT: [RunnerFile; 8] = [
    RunnerFile::Claim,
    RunnerFile::ManagerDraft,
    RunnerFile::RunnerDraft,
    RunnerFile::PidDraft,
    RunnerFile::StatusDraft,
    RunnerFile::Entries,
    RunnerFile::Pid,
    RunnerFile::Status,
];

/// Whether the claim at the path is the manager's.
fn is_barred<R: Files>(rt: &R, path: &str) -> io::Result<bool> {
    match fs::symlink_metadata(rt, path) {
        Ok(about) if about.is_file() => {}
        Ok(_) => return Ok(false),
        Err(error) if error.kind() == ErrorKind::NotFound => return Ok(false),
        Err(error) => return Err(error),
    }
    let mut bytes = [0; 16];
    let size = File::open(rt, path)?.read(&mut bytes)?;
    Ok(read_claim(&bytes[..size]) == Claimant::Manager)
}

/// Removes the file at the path, where one is there. A claim of the manager stays.
fn remove<R: Files>(rt: &R, path: &str, file: RunnerFile) -> io::Result<()> {
    if file == RunnerFile::Claim && is_barred(rt, path)? {
        return Ok(());
    }
    match fs::remove_file(rt, path) {
        Err(error) if error.kind() != ErrorKind::NotFound => Err(error),
        Ok(()) | Err(_) => Ok(()),
    }
}

/// Removes this file of the number, where it is there. A claim of the manager stays.
fn remove_file<R: Files>(
    rt: &R,
    alloc: Global,
    folder: &str,
    number: ProcessNumber,
    file: RunnerFile,
) -> Result<(), Trouble> {
    let path = file_path(alloc, folder, number, file)?;
    remove(rt, path.as_str(), file)?;
    Ok(())
}

/// Removes the files of a number whose status stands there; of another one none. The status goes last, so that it is found again
/// where this fails. A claim of the manager stays.
pub(crate) fn remove_files<R: Files>(
    rt: &R,
    alloc: Global,
    folder: &str,
    number: ProcessNumber,
) -> Result<(), Trouble> {
    if status_in(rt, alloc, folder, number)?.is_none() {
        return Ok(());
    }
    for file in LEFT {
        remove_file(rt, alloc, folder, number, file)?;
    }
    Ok(())
}
