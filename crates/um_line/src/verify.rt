//! The words of `umd verify`.

ghost use Rattle.std.specs.Prelude.{◌≡◌, IfOk, map, string_bytes};
ghost use Rattle.clap.specs.Words.{app_of, found_of, rows_of};
ghost use Rattle.um_line.specs.Line.{verify_words, IsVerifyLine, TakesVerify};

use crate::line::Line;
use crate::mistake::line_of_mistake;
use crate::values::{copied, described, values, with_words};
use clap::{ArgMatches, Command};
use std::alloc::{AllocError, Global};

/// Unit files to verify.
#[derive(Debug, Drop)]
pub struct VerifyLine<'a> {
    /// Folders and files, one at least.
    pub paths: Vec<&'a str>,
}

/// The error if a word is missing.
const USAGE: &str = "error: a word is missing

Usage: umd verify <PATH>..

For more information, try '--help'.
";

const AFTER_HELP: &str =
    "A folder is read with its folders etc, run and lib, or, where it has none of them, as lib itself: unit files, drop-ins and links, as the tree of a store has them. A file is taken as one of lib.

It prints a line for each reason why a unit can't be loaded, and for each warning, by file and line; nothing for a good unit. What can stand in no tree of units is told as 'no unit file' and left. That a unit named in a setting isn't there is no reason: start tells it.

Exit statuses: 0 each unit can be loaded, warnings or not; 1 one can't; 2 wrong words, or two files of one layer and name; 5 a file can't be read.

For example:
  umd verify web.service
  umd verify /etc/systemd/system";

/// The words that it takes.
fn command<'a>(alloc: Global) -> Result<Command<'a>, AllocError>
    ensures { IfOk result (λ c. app_of c ≡ verify_words) }
{
    let command = described(
        alloc,
        "umd verify",
        "umd verify <PATH>..",
        "Says which units of a folder, or of files, can't be loaded and why, and which lines have no effect",
        AFTER_HELP,
    );
    with_words(
        command,
        alloc,
        "path",
        "PATH",
        "Folders of unit files, and unit files",
    )
}

/// The line for these values.
fn verify_line<'a>(alloc: Global, matches: &ArgMatches<'a>) -> Result<Line<'a>, AllocError>
    ensures { IfOk result (TakesVerify (rows_of (found_of matches.now))) }
{
    let Some(paths) = values(matches, "path") else {
        return Ok(Line::Wrong(String::from_str(alloc, USAGE)?));
    };
    let paths = copied(alloc, paths)?;
    Ok(Line::Verify(VerifyLine { paths }))
}

/// Reads the words from `verify` on.
pub fn read_verify<'a>(alloc: Global, words: &'a [String]) -> Result<Line<'a>, AllocError>
    ensures { IfOk result (IsVerifyLine (map string_bytes words.now)) }
{
    match command(alloc)?.try_get_matches_from(words) {
        Ok(matches) => verify_line(alloc, &matches),
        Err(mistake) => line_of_mistake(alloc, &mistake),
    }
}
