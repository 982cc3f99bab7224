//! The folder of the runners' files: whose it is, and which files stand in it.

use crate::standing::Standing;
use crate::trouble::Trouble;
use std::alloc::Global;
use std::fs::{DirBuilder, Files, Metadata, Permissions};
use std::io::ErrorKind;
use std::os::unix::fs::{DirBuilderExt, MetadataExt, PermissionsExt};
use std::{fmt, fs, io};
use thiserror::Error;
use um_model::{NextNumber, ProcessNumber};
use um_runner::{
    Claimant, FolderFault, RunnerFile, Told, claim, number_in, pid_in, status_in, take_back,
};

/// The folder is the manager's own.
const MODE: u32 = 0o700;

/// The mode bits by which others may write a file.
const WRITABLE: u32 = 0o022;

/// Why there are no children over a folder.
#[derive(Debug, Drop, Error)]
pub enum OpenFault {
    /// A growth of memory was refused.
    #[error("there is no memory")]
    NoMemory,
    /// Something else stands there.
    #[error("it is no folder")]
    NoFolder,
    /// Its owner could put files there in the place of the manager's and the runners'.
    #[error("the folder of processes is another user's")]
    Owner,
    /// Others than the owner may write it.
    #[error("others may write the folder of processes")]
    Writable,
    /// The system refuses the folder, for this cause.
    #[error("{0}")]
    System(io::Error),
}

impl From<io::Error> for OpenFault {
    fn from(error: io::Error) -> OpenFault {
        OpenFault::System(error)
    }
}

/// Whether the manager alone may write the folder.
fn look_at(about: &Metadata) -> Result<(), OpenFault> {
    if !about.is_dir() {
        return Err(OpenFault::NoFolder);
    }
    if about.uid() != libc::geteuid() {
        return Err(OpenFault::Owner);
    }
    if about.permissions().mode() & WRITABLE != 0 {
        return Err(OpenFault::Writable);
    }
    Ok(())
}

/// Makes the folder where nothing stands there, and takes it for the manager alone (mode 700).
///
/// `NoFolder` where something else stands there; `Owner` for a folder of another user than the process's effective one, `Writable` for one that its
/// group or others may write; `System` where the system refuses it.
pub fn take_folder<R: Files>(rt: &R, folder: &str) -> Result<(), OpenFault> {
    match DirBuilder::new().mode(MODE).create(rt, folder) {
        Ok(()) => {}
        Err(error) if error.kind() == ErrorKind::AlreadyExists => {}
        Err(error) => return Err(OpenFault::System(error)),
    }
    let about = fs::symlink_metadata(rt, folder)?;
    look_at(&about)?;
    fs::set_permissions(rt, folder, Permissions::from_mode(MODE))?;
    Ok(())
}

/// The files of a process, of a longer ending first.
const FILES: [RunnerFile; 8] = [
    RunnerFile::ManagerDraft,
    RunnerFile::RunnerDraft,
    RunnerFile::PidDraft,
    RunnerFile::StatusDraft,
    RunnerFile::Claim,
    RunnerFile::Pid,
    RunnerFile::Status,
    RunnerFile::Entries,
];

/// The number of which this file would have the name.
fn number_before(name: &str, file: RunnerFile) -> Option<ProcessNumber> {
    let digits = name.strip_suffix(file.ending())?;
    ProcessNumber::new(number_in(digits.as_bytes())?)
}

/// The process and the file of this name; None for other names.
fn file_named(name: &str) -> Option<(ProcessNumber, RunnerFile)> {
    for file in FILES {
        if let Some(number) = number_before(name, file) {
            return Some((number, file));
        }
    }
    None
}

/// The files of processes that stand in the folder.
pub(crate) fn files_in<R: Files>(
    rt: &R,
    alloc: Global,
    folder: &str,
) -> Result<Vec<(ProcessNumber, RunnerFile)>, Trouble> {
    let mut files = Vec::new(alloc);
    for entry in fs::read_dir(&(rt, alloc), folder)? {
        if let Some(file) = file_named(entry?.file_name()) {
            files.push(file)?;
        }
    }
    Ok(files)
}

/// Whether the system has a process of this pid.
fn is_running<R: Files>(rt: &R, alloc: Global, pid: u32) -> bool {
    match format!(in alloc; "/proc/{pid}") {
        Ok(path) => fs::symlink_metadata(rt, path.as_str()).is_ok(),
        Err(_) => false,
    }
}

/// Whether the process that a pid file names runs, and has no status.
fn runs<R: Files>(
    rt: &R,
    alloc: Global,
    folder: &str,
    number: ProcessNumber,
) -> Result<bool, FolderFault> {
    if status_in(rt, alloc, folder, number)?.is_some() {
        return Ok(false);
    }
    match pid_in(rt, alloc, folder, number)? {
        Told::Pid(pid) => Ok(is_running(rt, alloc, pid)),
        Told::Nothing | Told::NoPid => Ok(false),
    }
}

/// How the number stands by its files, where a runner may have claimed it before. The manager's own pid is none.
pub(crate) fn standing_in<R: Files>(
    rt: &R,
    alloc: Global,
    folder: &str,
    number: ProcessNumber,
    before: Standing,
) -> Result<Standing, Trouble> {
    if let Some(end) = status_in(rt, alloc, folder, number)? {
        return Ok(Standing::Ended(end));
    }
    let told = match pid_in(rt, alloc, folder, number)? {
        Told::Pid(pid) if pid == libc::getpid().unsigned_abs() => Told::NoPid,
        told => told,
    };
    Ok(before.by_pid(told))
}

/// Claims the number for the manager. Where it has the claim no runner takes the entries any more that were handed over, and they go.
pub(crate) fn bar<R: Files>(
    rt: &R,
    alloc: Global,
    folder: &str,
    number: ProcessNumber,
) -> Result<Standing, Trouble> {
    let claiming = claim(rt, alloc, folder, number, Claimant::Manager)?;
    let standing = Standing::claimed(claiming);
    if standing == Standing::Barred {
        // a file that is left because this fails goes at an opening
        let _left = take_back(rt, alloc, folder, number);
    }
    Ok(standing)
}

/// The greatest number of these files from the next one of the store on.
pub(crate) fn greatest_from(
    files: &[(ProcessNumber, RunnerFile)],
    next: NextNumber,
) -> Option<ProcessNumber> {
    let mut greatest: u64 = 0;
    for (number, _) in files {
        if number.get() >= next.get() && number.get() > greatest {
            greatest = number.get();
        }
    }
    // no process has the number 0
    ProcessNumber::new(greatest)
}

/// The number of processes that run by these files and aren't live. A file that can't be read counts as none.
pub(crate) fn count_unmanaged<R: Files>(
    rt: &R,
    alloc: Global,
    folder: &str,
    files: &[(ProcessNumber, RunnerFile)],
    live: &[ProcessNumber],
) -> u64 {
    let mut count: u64 = 0;
    for (number, file) in files {
        if *file == RunnerFile::Pid && !live.contains(number) {
            if let Ok(true) = runs(rt, alloc, folder, *number) {
                count = count.saturating_add(1);
            }
        }
    }
    count
}
