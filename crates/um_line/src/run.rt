//! The words of a runner.

ghost use Rattle.std.specs.Prelude.{◌≡◌, ◌↔◌, Some, IfOk, IsTrue, codes, map, slice_get, string_bytes};
ghost use Rattle.um_line.specs.Line.{IsRunLine};

use crate::line::Line;
use std::alloc::{AllocError, Global};
use um_runner::RunnerLine;

/// The text of `umd run --help`.
const HELP: &str =
    "Runs a command as a process of the manager, and tells it by files in the manager's folder

Usage: umd run --dir DIR --number N --env COUNT -- WORDS..
       umd run --dir DIR --number N --env-file -- WORDS..

The first COUNT words are NAME=value and are set over the environment; the others are the command. With --env-file all
words are the command, and the manager has written what is set over the environment to DIR/N.env, which goes once it
was read; where it isn't there, nothing is run, and the end is code 203. DIR/N.claim says that the number is taken,
DIR/N.pid the pid, DIR/N.status how the command ended. Where DIR/N.claim stands, nothing is run.

For example:
  umd run --dir /run/umd --number 7 --env 1 -- LANG=C /bin/sleep 9
";

/// The error for other words after `umd run`.
const USAGE: &str = "error: these are no words of a runner

Usage: umd run --dir DIR --number N --env COUNT -- WORDS..
       umd run --dir DIR --number N --env-file -- WORDS..

For more information, try '--help'.
";

/// Whether the first word is `--help`.
fn asks_for_help(words: &[String]) -> bool
    ensures { IsTrue result ↔ slice_get (map string_bytes words.now) 0 ≡ Some (codes "--help") }
{
    match words.split_first() {
        Some((word, _)) => word.as_str() == "--help",
        None => false,
    }
}

/// Reads the words after `run`.
pub fn read_run(alloc: Global, words: &[String]) -> Result<Line<'_>, AllocError>
    ensures { IfOk result (IsRunLine (map string_bytes words.now)) }
{
    if let Some(line) = RunnerLine::of(words) {
        return Ok(Line::Run(line));
    }
    if asks_for_help(words) {
        Ok(Line::Told(String::from_str(alloc, HELP)?))
    } else {
        Ok(Line::Wrong(String::from_str(alloc, USAGE)?))
    }
}
