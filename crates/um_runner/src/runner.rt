//! A runner in a real folder.

use crate::fault::FolderFault;
use crate::folder::Folder;
use crate::handing::take_entries;
use crate::life::run;
use crate::line::RunnerLine;
use std::alloc::Global;
use std::fs::Files;
use std::net::Net;
use std::process::Processes;
use std::time::Clock;

/// Lives the life of a runner in the folder that its line names. Entries that were handed over are taken before the
/// number is claimed, so that their file's room is there for the claim. If they can't be taken nothing is started, as
/// if the command can't be executed.
///
/// An error as that of `run`.
pub fn run_line<R: Files + Net + Processes + Clock>(
    rt: &R,
    alloc: Global,
    line: &RunnerLine<'_>,
) -> Result<(), FolderFault> {
    let mut folder = Folder::of(rt, alloc, line.folder, line.number);
    if !line.has_file {
        return run(&mut folder, &line.job);
    }
    match take_entries(rt, alloc, line.folder, line.number) {
        Some(entries) => run(&mut folder, &line.job.with(entries.as_slice())),
        None => {
            folder.start_nothing();
            run(&mut folder, &line.job)
        }
    }
}
