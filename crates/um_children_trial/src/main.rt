//! A trial over real processes: each is started by the order of a keeper's receipt, with this program as its runner, and its fate is read
//! through a folder.
#![tactic(auto)]

mod orders;
mod rows;

use anyhow::bail;
use std::env;
use std::process::ExitCode;
use um_runner::{FolderFault, RunnerLine};

/// Runs as the runner of this line.
fn run(rt: &HostRuntime, line: &RunnerLine<'_>) -> Result<(), FolderFault> {
    um_runner::run_line(rt, rt.alloc(), line)
}

/// Runs as the runner that these words describe; fails if they describe none.
fn run_words(rt: &HostRuntime, words: &[String]) -> anyhow::Result<()> {
    match RunnerLine::of(words) {
        Some(line) => Ok(run(rt, &line)?),
        None => bail!("no words of a runner"),
    }
}

/// The rows, or, after the word `run`, a runner.
fn trial(rt: &HostRuntime) -> anyhow::Result<()> {
    let words: Vec<String> = env::args(rt)?.collect(rt.alloc())?;
    match words.as_slice() {
        [_, role, words @ ..] if role.as_str() == "run" => run_words(rt, words),
        _ => rows::rows(rt, rt.alloc()),
    }
}

fn main(rt: HostRuntime) -> ExitCode {
    match trial(&rt) {
        Ok(()) => ExitCode::SUCCESS,
        Err(error) => {
            let _ = eprintln!(rt; "{error}");
            ExitCode::FAILURE
        }
    }
}
