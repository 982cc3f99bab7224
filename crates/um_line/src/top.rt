//! The words of the program itself.

ghost use Rattle.std.specs.Prelude.{◌≡◌, ◌≢◌, ◌∷◌, ℕ, List, [], false, IfOk, OnOk, codes, map, string_bytes};
ghost use Rattle.clap.specs.Words.{app_of, kind_of, rule_of};
ghost use Rattle.um_line.specs.Line.{IsToldAs, IsTopLine, memory_rule, mistakes_of, umd_words};

use crate::line::Line;
use crate::mistake::line_of_mistake;
use crate::values::described;
use clap::error::ErrorKind;
use clap::{Arg, ArgAction, Command, Error};
use std::alloc::{AllocError, Global};

/// The usage of the program: its subcommands, a line each.
const USAGE: &str = "umd <SUBCOMMAND> [WORDS]..

Subcommands, each with its own --help:
  umd create    makes a new store in a new file
  umd check     looks at a store that nobody serves, and says what it stands for, or why it can't be opened
  umd serve     serves a store over a socket, and runs the processes of its services
  umd ctl       asks the manager at a socket
  umd status    shows how units stand
  umd verify    says which unit files can't be loaded and why, and which lines have no effect
  umd logs      prints what the processes of a unit printed
  umd run       runs one command as a process of the manager, which calls it
  umd help      says what a refusal, a reason or a result means: umd help E9
  umd --memory  serves one client over standard input and output, with a store in memory";

/// The error if no word is given.
const NOTHING: &str = "error: a subcommand is missing\n\nUsage: ";

/// The text after the usage.
const MORE: &str = "\n\nFor more information, try '--help'.\n";

/// The required option `--memory`.
fn memory<'a>(alloc: Global) -> Arg<'a>
    ensures rule { rule_of result ≡ memory_rule }
    ensures local { result.global ≡ false }
{
    Arg::new(alloc, "memory")
        .long("memory")
        .help("Serves one client over standard input and output, with a store in memory")
        .required(true)
        .action(ArgAction::SetTrue)
}

/// The words that the program takes.
fn command<'a>(alloc: Global) -> Result<Command<'a>, AllocError>
    ensures { IfOk result (λ c. app_of c ≡ umd_words) }
{
    let command = described(
        alloc,
        "umd",
        USAGE,
        "A service manager whose state outlives its crash",
        "For example:\n  umd create --slot 1024 --log 4096 /var/lib/umd/store\n  umd ctl --socket /run/umd/socket start web.service\n  umd --memory < requests > replies",
    );
    let command = command.arg(memory(alloc))?;
    Ok(command.version("0.1.0"))
}

/// The line for a mistake: a missing word is a missing subcommand.
fn line_of_top_mistake<'a>(alloc: Global, mistake: &Error) -> Result<Line<'a>, AllocError>
    ensures line { IfOk result (IsToldAs (kind_of mistake.now)) }
    ensures memory { OnOk result (kind_of mistake.now ≢ ErrorKind.OutOfMemory) }
{
    if mistake.kind() != ErrorKind::MissingRequiredArgument {
        return line_of_mistake(alloc, mistake);
    }
    let mut text = String::from_str(alloc, NOTHING)?;
    text.push_str(USAGE)?;
    text.push_str(MORE)?;
    Ok(Line::Wrong(text))
}

/// Reads words of which the second is no subcommand.
pub fn read_top<'a>(alloc: Global, words: &'a [String]) -> Result<Line<'a>, AllocError>
    ensures { IfOk result (IsTopLine (map string_bytes words.now)) }
{
    match command(alloc)?.try_get_matches_from(words) {
        Ok(_) => Ok(Line::Memory),
        Err(mistake) => line_of_top_mistake(alloc, &mistake),
    }
}

/// The mistakes of the commonest command lines, for any name of the program: `--memory` has none.
pub fn common_lines()
    ensures memory { (name : List ℕ) → mistakes_of (name ∷ codes "--memory" ∷ []) ≡ [] }
    ensures help { (name : List ℕ) → mistakes_of (name ∷ codes "--help" ∷ []) ≡ ErrorKind.DisplayHelp ∷ [] }
    ensures version { (name : List ℕ) → mistakes_of (name ∷ codes "--version" ∷ []) ≡ ErrorKind.DisplayVersion ∷ [] }
    ensures nothing { (name : List ℕ) → mistakes_of (name ∷ []) ≡ ErrorKind.MissingRequiredArgument ∷ [] }
    ensures twice { (name : List ℕ) → mistakes_of (name ∷ codes "--memory" ∷ codes "--memory" ∷ []) ≡ ErrorKind.ArgumentConflict ∷ [] }
    ensures other { (name : List ℕ) → mistakes_of (name ∷ codes "--memory" ∷ codes "x" ∷ []) ≡ ErrorKind.UnknownArgument ∷ [] }
{}
