//! The program once more, in a process of its own that has little memory.

use std::alloc::{AllocError, Global};
use std::process::{Command, Processes, Stdio};
use um_store_in_turn::wrong::{Wrong, found};

/// Becomes its words, with 64 MiB of memory at most.
const LIMITED: &str = "ulimit -v 65536 && exec \"$@\"";

fn add_words(command: &mut Command, words: &[&str]) -> Result<(), AllocError> {
    for word in words {
        command.arg(*word)?;
    }
    Ok(())
}

/// The command that plays the life of this number.
fn command(alloc: Global, program: &str, number: &str) -> Result<Command, AllocError> {
    let mut command = Command::new(alloc, "sh")?;
    let words = ["-c", LIMITED, "sh", program, "scarce", number];
    add_words(&mut command, &words)?;
    command.stdin(Stdio::null()).stdout(Stdio::null());
    Ok(command)
}

/// The life of this number, played by this program with little memory; that process reports itself what it finds wrong.
pub fn play<R: Processes>(rt: &R, alloc: Global, program: &str, number: &str) -> Result<(), Wrong> {
    let mut command = command(alloc, program, number)?;
    match command.status(rt) {
        Ok(status) if status.success() => Ok(()),
        _ => Err(found("a life with little memory is wrong, or isn't played")),
    }
}
