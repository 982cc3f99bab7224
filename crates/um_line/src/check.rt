//! The words of `umd check`.

ghost use Rattle.std.specs.Prelude.{◌≡◌, IfOk, map, string_bytes};
ghost use Rattle.clap.specs.Words.{app_of, found_of, rows_of};
ghost use Rattle.um_line.specs.Line.{check_words, IsCheckLine, TakesCheck};

use crate::line::Line;
use crate::mistake::line_of_mistake;
use crate::values::{described, flag, is_given, value, with_word};
use clap::{ArgMatches, Command};
use std::alloc::{AllocError, Global};

/// A store to report on.
#[derive(Clone, Copy, Debug)]
pub struct CheckLine<'a> {
    /// Its units and jobs are printed instead of the summary.
    pub units: bool,
    /// The path of the store.
    pub file: &'a str,
}

/// The error if a word is missing.
const USAGE: &str = "error: a word is missing

Usage: umd check [--units] <FILE>

For more information, try '--help'.
";

const UNITS_HELP: &str =
    "Prints in its place what umd ctl list-units and umd ctl list-jobs print, a line each";

const AFTER_HELP: &str =
    "It prints generation, records, clock and next, each with its number: the generation of the newest header, how many records of that generation and the next count, the moment of the last step, and the number of the next process. Nothing is written. A store that a manager serves isn't read.

Exit statuses: 0 it can be opened, but for E20; 1 it is refused, and umd help says what the refusal means; 2 wrong words; 5 the file failed, or a manager has it.

For example:
  umd check /var/lib/umd/store";

/// The words that it takes.
fn command<'a>(alloc: Global) -> Result<Command<'a>, AllocError>
    ensures { IfOk result (λ c. app_of c ≡ check_words) }
{
    let command = described(
        alloc,
        "umd check",
        "umd check [--units] <FILE>",
        "Looks at a store that nobody serves, and says what it stands for, or why it can't be opened",
        AFTER_HELP,
    );
    let command = command.arg(flag(alloc, "units", UNITS_HELP))?;
    with_word(command, alloc, "file", "FILE", "The store")
}

/// The line for these values.
fn check_line<'a>(alloc: Global, matches: &ArgMatches<'a>) -> Result<Line<'a>, AllocError>
    ensures { IfOk result (TakesCheck (rows_of (found_of matches.now))) }
{
    let Some(file) = value(matches, "file") else {
        return Ok(Line::Wrong(String::from_str(alloc, USAGE)?));
    };
    let units = is_given(matches, "units");
    Ok(Line::Check(CheckLine { units, file }))
}

/// Reads the words from `check` on.
pub fn read_check<'a>(alloc: Global, words: &'a [String]) -> Result<Line<'a>, AllocError>
    ensures { IfOk result (IsCheckLine (map string_bytes words.now)) }
{
    match command(alloc)?.try_get_matches_from(words) {
        Ok(matches) => check_line(alloc, &matches),
        Err(mistake) => line_of_mistake(alloc, &mistake),
    }
}
