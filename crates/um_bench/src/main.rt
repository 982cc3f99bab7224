//! The program that `bench/bytes` measures: it makes a state, and writes it or reads it a number of times.
//!
//! Its words: `write` or `read`, the number of files in each tree, the number of known units, the number of times. It prints how many
//! bytes were written or read in all. The exit status is 2 for other words, and 1 if memory or the output fails.
#![tactic(auto)]

mod line;
mod made;

use line::{Line, Task, read_line};
use made::state_with;
use std::alloc::{AllocError, Global};
use std::env;
use std::env::Env;
use std::process::ExitCode;
use um_state::State;
use um_wire::{Canon, spell};

/// Writes the state `times` times, and returns the count of all bytes written.
fn write_times(alloc: Global, state: &State, times: u32) -> Result<u64, AllocError> {
    let mut count: u64 = 0;
    for _ in 0..times {
        let bytes = spell(alloc, state)?;
        count = count.saturating_add(bytes.len() as u64);
    }
    Ok(count)
}

/// Reads the state `times` times, and returns the count of all bytes read.
fn read_times(alloc: Global, bytes: &[u8], times: u32) -> Result<u64, AllocError> {
    let mut count: u64 = 0;
    for _ in 0..times {
        if let Some((_, n)) = State::get(alloc, bytes)? {
            count = count.saturating_add(n as u64);
        }
    }
    Ok(count)
}

/// Does the task of the line, and returns the count of bytes; None if the state can't be made, or without memory.
fn measured(alloc: Global, line: &Line) -> Option<u64> {
    let state = state_with(alloc, line.files, line.units).ok()?;
    match line.task {
        Task::Write => write_times(alloc, &state, line.times).ok(),
        Task::Read => {
            let bytes = spell(alloc, &state).ok()?;
            read_times(alloc, bytes.as_slice(), line.times).ok()
        }
    }
}

/// The line in the words of the command line; None if they are no such line.
fn line_of<R: AllocGlobal + Env>(rt: &R) -> Option<Line> {
    let words: Vec<String> = env::args(rt).ok()?.collect(rt.alloc()).ok()?;
    read_line(words.as_slice())
}

fn main(rt: HostRuntime) -> ExitCode {
    let Some(line) = line_of(&rt) else {
        return ExitCode::from(2);
    };
    let Some(count) = measured(rt.alloc(), &line) else {
        return ExitCode::from(1);
    };
    match println!(&rt; "{count} bytes") {
        Ok(()) => ExitCode::from(0),
        Err(_) => ExitCode::from(1),
    }
}
