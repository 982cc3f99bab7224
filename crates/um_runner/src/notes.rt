//! Reads and writes the files of a process number.

use crate::fault::FolderFault;
use crate::files::{Creation, create_file, read_file};
use crate::runner_file::{Claimant, RunnerFile};
use crate::texts::{read_claim, read_pid, read_status};
use std::alloc::Global;
use std::fs::Files;
use std::io;
use std::io::ErrorKind;
use um_model::{End, ProcessNumber};

/// The outcome of claiming a number.
#[derive(Clone, Copy, Debug, PartialEq, Eq)]
pub enum Claiming {
    /// The claim is new: nobody else can have the number.
    New,
    /// It stood there, and is this one's.
    Stands(Claimant),
}

/// The content of a pid file.
#[derive(Clone, Copy, Debug, PartialEq, Eq)]
pub enum Told {
    /// It isn't there: the process isn't known to run.
    Nothing,
    /// It names no pid: the process was started, and no signal can reach it.
    NoPid,
    Pid(u32),
}

/// Whose the claim is that stands there; None where none does.
fn claimant_in<R: Files>(
    rt: &R,
    alloc: Global,
    folder: &str,
    number: ProcessNumber,
) -> Result<Option<Claimant>, FolderFault> {
    let beginning = read_file(rt, alloc, folder, number, RunnerFile::Claim)?;
    Ok(beginning.map(|beginning| read_claim(beginning.bytes())))
}

/// The claim that stood there a moment ago: nobody removes one.
fn standing_in<R: Files>(
    rt: &R,
    alloc: Global,
    folder: &str,
    number: ProcessNumber,
) -> Result<Claiming, FolderFault> {
    let standing = claimant_in(rt, alloc, folder, number)?.unwrap_or(Claimant::Runner);
    Ok(Claiming::Stands(standing))
}

/// The number of attempts at a claim. The next one is made if another claimant of the number has removed its draft.
const TRIES: u32 = 64;

/// Claims the number for this one. A claim that stands there is left as it was, and read.
///
/// `NoMemory` where memory is wanting, before the folder is touched; `System` where the folder can't be written or read, or all drafts
/// were taken away. No claim is there then, but where it was made and couldn't be read, or by another one.
pub fn claim<R: Files>(
    rt: &R,
    alloc: Global,
    folder: &str,
    number: ProcessNumber,
    claimant: Claimant,
) -> Result<Claiming, FolderFault> {
    let draft = match claimant {
        Claimant::Manager => RunnerFile::ManagerDraft,
        Claimant::Runner => RunnerFile::RunnerDraft,
    };
    let files = (RunnerFile::Claim, draft);
    for _ in 0..TRIES {
        // A draft that was left may be the claim under another name, so it is written only while no claim stands.
        if let Some(standing) = claimant_in(rt, alloc, folder, number)? {
            return Ok(Claiming::Stands(standing));
        }
        match create_file(rt, alloc, folder, number, files, claimant.text())? {
            Creation::New => return Ok(Claiming::New),
            Creation::Stands => return standing_in(rt, alloc, folder, number),
            Creation::DraftTaken => {}
        }
    }
    Err(FolderFault::System(io::Error::from(ErrorKind::NotFound)))
}

/// How the process ended, by its status file: `End::Lost` if the file names no end, and None if there is no file.
///
/// `NoMemory` if memory is wanting, `System` if the system refuses the file.
pub fn status_in<R: Files>(
    rt: &R,
    alloc: Global,
    folder: &str,
    number: ProcessNumber,
) -> Result<Option<End>, FolderFault> {
    let Some(beginning) = read_file(rt, alloc, folder, number, RunnerFile::Status)? else {
        return Ok(None);
    };
    Ok(Some(read_status(beginning.bytes()).unwrap_or(End::Lost)))
}

/// The content of the pid file.
///
/// `NoMemory` if memory is wanting, `System` if the system refuses the file.
pub fn pid_in<R: Files>(
    rt: &R,
    alloc: Global,
    folder: &str,
    number: ProcessNumber,
) -> Result<Told, FolderFault> {
    let Some(beginning) = read_file(rt, alloc, folder, number, RunnerFile::Pid)? else {
        return Ok(Told::Nothing);
    };
    Ok(read_pid(beginning.bytes()).map_or(Told::NoPid, Told::Pid))
}
