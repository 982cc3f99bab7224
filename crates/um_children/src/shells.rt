//! The shells that the manager runs, and waits for.

ghost use Rattle.std.specs.Prelude.{◌≡◌, ◌⊎◌, None};

use crate::commands::{signal_command, start_command};
use crate::standing::{Known, Standing};
use crate::trouble::{Cause, Trouble};
use std::alloc::Global;
use std::fs::Files;
use std::io::ErrorKind;
use std::process::{Command, Processes, Stdio};
use std::{fs, io};
use um_keeper::SpawnOrder;
use um_model::Signal;
use um_runner::{hand_over, take_back};

/// Runs a shell with no stream of the manager and waits for it. False where it says that it failed.
fn run_alone<R: Processes>(rt: &R, shell: &mut Command) -> io::Result<bool> {
    shell
        .stdin(Stdio::null())
        .stdout(Stdio::null())
        .stderr(Stdio::null());
    Ok(shell.status(rt)?.success())
}

/// Runs a shell and waits for it. False where it says that it failed.
pub(crate) fn has_run<R: Processes>(rt: &R, mut shell: Command) -> io::Result<bool> {
    run_alone(rt, &mut shell)
}

fn by_shell(error: io::Error) -> Trouble {
    Trouble::Failed(Cause::Shell(error))
}

/// Starts the runner at `program` for the order, with `output` as the file of the process's output, and hands it the
/// environment over. A runner that found no folder reports that to nobody.
pub(crate) fn start<R: Files + Processes>(
    rt: &R,
    alloc: Global,
    output: &str,
    program: &str,
    folder: &str,
    order: &SpawnOrder,
) -> Result<(), Trouble> {
    if !fs::symlink_metadata(rt, folder)?.is_dir() {
        return Err(Trouble::from(io::Error::from(ErrorKind::NotADirectory)));
    }
    let number = order.number();
    let entries = order.environment(alloc)?;
    let command = start_command(alloc, output, program, folder, order)?;
    hand_over(rt, alloc, folder, number, entries.as_slice())?;
    match has_run(rt, command) {
        Ok(true) => Ok(()),
        Ok(false) => {
            // a file that is left because this fails goes once the number is claimed
            let _left = take_back(rt, alloc, folder, number);
            Err(Trouble::Failed(Cause::Runner))
        }
        Err(error) => Err(by_shell(error)),
    }
}

/// Whether a process has the pid.
fn is_there<R: Files>(rt: &R, alloc: Global, pid: u32) -> Result<bool, Trouble> {
    let path = format!(in alloc; "/proc/{pid}")?;
    Ok(fs::symlink_metadata(rt, path.as_str()).is_ok())
}

/// Signals the pid. That no process has it is no failure.
pub(crate) fn send<R: Files + Processes>(
    rt: &R,
    alloc: Global,
    pid: u32,
    signal: Signal,
) -> Result<(), Trouble> {
    match has_run(rt, signal_command(alloc, signal, pid)?) {
        Ok(true) => Ok(()),
        Ok(false) if is_there(rt, alloc, pid)? => Err(Trouble::Failed(Cause::Unsignalled)),
        Ok(false) => Ok(()),
        Err(error) => Err(by_shell(error)),
    }
}

/// Sends a kept signal once the pid is there; if no shell can be started it is kept on. Returns the facts known then,
/// and whether the process is there and can't be signalled.
pub(crate) fn send_kept<R: Files + Processes>(rt: &R, alloc: Global, known: Known) -> (Known, bool)
    ensures standing { result.0.standing ≡ known.standing }
    ensures changes { result.0.changes ≡ known.changes }
    ensures kept { (result.0.kept ≡ known.kept) ⊎ (result.0.kept ≡ None) }
{
    let (Standing::Running(Some(pid)), Some(signal)) = (known.standing, known.kept) else {
        return (known, false);
    };
    match send(rt, alloc, pid, signal) {
        Ok(()) => (
            Known {
                kept: None,
                ..known
            },
            false,
        ),
        Err(trouble) if trouble.is_of_the_process() => (
            Known {
                kept: None,
                ..known
            },
            true,
        ),
        Err(_) => (known, false),
    }
}
