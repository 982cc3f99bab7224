//! The lines of the program: one for each kind of command line.

ghost use Rattle.std.specs.Prelude.{◌≡◌, Some, IfOk, map, drop, string_bytes};
ghost use Rattle.um_line.specs.Line as model;

use crate::check::{CheckLine, read_check};
use crate::create::{CreateLine, read_create};
use crate::ctl::{CtlLine, read_ctl};
use crate::help::{TopicLine, read_help};
use crate::logs::{LogsLine, read_logs};
use crate::run::read_run;
use crate::serve::{ServeLine, read_serve};
use crate::status::{StatusLine, read_status};
use crate::sync::SyncLine;
use crate::top::read_top;
use crate::verify::{VerifyLine, read_verify};
use std::alloc::{AllocError, Global};
use um_runner::RunnerLine;

/// The meaning of a command line.
#[derive(Debug, Drop)]
pub enum Line<'a> {
    /// Serve one client over standard input and output, with a store in memory.
    Memory,
    /// Run a command as a process of the manager.
    Run(RunnerLine<'a>),
    /// Make a new store.
    Create(CreateLine<'a>),
    /// Report on a store.
    Check(CheckLine<'a>),
    /// Serve a store over a socket.
    Serve(ServeLine<'a>),
    /// Serve, but with an id of the boot past 64 bytes: `E1 BadRequest`.
    LongBoot,
    /// Send a request to the manager at a socket.
    Ctl(CtlLine<'a>),
    /// Bring the files of a folder to the manager at a socket.
    Sync(SyncLine<'a>),
    /// Print the status of units.
    Status(StatusLine<'a>),
    /// Verify unit files.
    Verify(VerifyLine<'a>),
    /// Print the output of a unit's processes.
    Logs(LogsLine<'a>),
    /// Explain the refusal of this number, 1 to 22.
    Help(u32),
    /// Explain a word of a reply.
    Topic(TopicLine<'a>),
    /// Text for standard output: the help or the version.
    Told(String),
    /// The words are not those of the program: the error and the usage, for standard error.
    Wrong(String),
}

/// The word after the program's name.
#[derive(Clone, Copy, Debug, PartialEq, Eq)]
pub enum Subcommand {
    Run,
    Create,
    Check,
    Serve,
    Ctl,
    Status,
    Verify,
    Logs,
    Help,
    /// Another word, or none.
    Nothing,
}

/// The subcommand of this name.
pub(crate) fn named(word: &str) -> Subcommand
    ensures { result ≡ model.named (Some word.now) }
{
    if word == "run" {
        Subcommand::Run
    } else if word == "create" {
        Subcommand::Create
    } else if word == "check" {
        Subcommand::Check
    } else if word == "serve" {
        Subcommand::Serve
    } else if word == "ctl" {
        Subcommand::Ctl
    } else if word == "status" {
        Subcommand::Status
    } else if word == "verify" {
        Subcommand::Verify
    } else if word == "logs" {
        Subcommand::Logs
    } else if word == "help" {
        Subcommand::Help
    } else {
        Subcommand::Nothing
    }
}

/// The subcommand after the program's name.
fn subcommand_of(words: &[String]) -> Subcommand
    ensures { result ≡ model.subcommand_of (map string_bytes words.now) }
{
    match words.get(1) {
        Some(word) => named(word.as_str()),
        None => Subcommand::Nothing,
    }
}

/// The words after the first.
fn behind(words: &[String]) -> &[String]
    ensures { map string_bytes result.now ≡ drop 1 (map string_bytes words.now) }
{
    match words.split_first() {
        Some((_, others)) => others,
        None => words,
    }
}

/// Reads the words of a command line; the first is the program's own name. Valid are `--memory` alone, `--help` or
/// `--version`, or a subcommand with its words; each subcommand has `--help`. All else is `Wrong`: no words at all,
/// an unknown word, an option that stands twice, a number outside its limits.
pub fn read_line<'a>(alloc: Global, words: &'a [String]) -> Result<Line<'a>, AllocError>
    ensures { IfOk result (model.IsLineOf (map string_bytes words.now)) }
{
    match subcommand_of(words) {
        Subcommand::Run => read_run(alloc, behind(behind(words))),
        Subcommand::Create => read_create(alloc, behind(words)),
        Subcommand::Check => read_check(alloc, behind(words)),
        Subcommand::Serve => read_serve(alloc, behind(words)),
        Subcommand::Ctl => read_ctl(alloc, behind(words)),
        Subcommand::Status => read_status(alloc, behind(words)),
        Subcommand::Verify => read_verify(alloc, behind(words)),
        Subcommand::Logs => read_logs(alloc, behind(words)),
        Subcommand::Help => read_help(alloc, behind(behind(words))),
        Subcommand::Nothing => read_top(alloc, words),
    }
}
