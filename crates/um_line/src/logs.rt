//! The words of `umd logs`.

ghost use Rattle.std.specs.Prelude.{◌≡◌, IfOk, map, string_bytes};
ghost use Rattle.clap.specs.Words.{app_of, found_of, rows_of};
ghost use Rattle.um_line.specs.Line.{logs_words, IsLogsLine, TakesLogs};

use crate::line::Line;
use crate::mistake::line_of_mistake;
use crate::numbers::count;
use crate::values::{
    described, is_given, value, with_flag, with_letter, with_letter_flag, with_optional, with_word,
};
use clap::{ArgMatches, Command};
use std::alloc::{AllocError, Global};

/// The output of a unit's processes, and how to print it.
#[derive(Clone, Copy, Debug)]
pub struct LogsLine<'a> {
    /// The folder in which output is kept: the value of `--output`.
    pub output: Option<&'a str>,
    /// How many of the last lines to print, 1,000,000 at most; `None` for all.
    pub lines: Option<u32>,
    /// New output is printed too, until the program is ended.
    pub follows: bool,
    /// The bytes are printed as they are.
    pub is_raw: bool,
    /// The unit, whose name may lack its suffix.
    pub unit: &'a str,
}

/// The error if a word is missing.
const USAGE: &str = "error: a word is missing

Usage: umd logs [--output <OUT>] [-n <K>] [-f] [--raw] <UNIT>

For more information, try '--help'.
";

/// The error for a number of lines outside its limits.
const NO_COUNT: &str = "error: -n is 0 to 1000000 lines

Usage: umd logs [--output <OUT>] [-n <K>] [-f] [--raw] <UNIT>

For more information, try '--help'.
";

const OUTPUT_HELP: &str =
    "The folder that umd serve --output was given; where it is left out, what the variable UMD_OUTPUT holds";

const LINES_HELP: &str = "Prints the last K lines alone, 0 to 1000000";

const FOLLOW_HELP: &str = "Goes on, and prints what comes: looks each 200 ms, until it is ended";

const RAW_HELP: &str = "Prints each byte as it is";

const AFTER_HELP: &str =
    "It prints what the processes of UNIT printed on both streams, the oldest process first. Of each the last bytes are kept, as many as umd serve --output-size told and up to as many again; of a unit those of its processes that run, and of four that ended. UNIT is the unit's own name, and not another one of it. Control characters but line feed and tab, marks that turn the direction of text, and what isn't UTF-8 are printed as \\x and two digits for each byte, unless --raw is given.

How each process ended stands in OUT/UNIT/ends, a line each.

Exit statuses: 0 done; 1 no output of the unit is kept; 2 wrong words, or no folder is told; 5 a file can't be read, or standard output can't be written.

For example:
  umd logs --output /var/log/umd -n 20 web
  UMD_OUTPUT=/var/log/umd umd logs -f web";

/// The words that it takes.
fn command<'a>(alloc: Global) -> Result<Command<'a>, AllocError>
    ensures { IfOk result (λ c. app_of c ≡ logs_words) }
{
    let command = described(
        alloc,
        "umd logs",
        "umd logs [--output <OUT>] [-n <K>] [-f] [--raw] <UNIT>",
        "Prints what the processes of a unit printed",
        AFTER_HELP,
    );
    let command = with_optional(command, alloc, "output", "OUT", OUTPUT_HELP)?;
    let command = with_letter(command, alloc, "lines", 'n', "K", LINES_HELP)?;
    let command = with_letter_flag(command, alloc, "follow", 'f', FOLLOW_HELP)?;
    let command = with_flag(command, alloc, "raw", RAW_HELP)?;
    with_word(
        command,
        alloc,
        "unit",
        "UNIT",
        "The unit, as x or x.service",
    )
}

/// The line for these values.
fn logs_line<'a>(alloc: Global, matches: &ArgMatches<'a>) -> Result<Line<'a>, AllocError>
    ensures { IfOk result (TakesLogs (rows_of (found_of matches.now))) }
{
    let Some(lines) = count(value(matches, "lines")) else {
        return Ok(Line::Wrong(String::from_str(alloc, NO_COUNT)?));
    };
    let Some(unit) = value(matches, "unit") else {
        return Ok(Line::Wrong(String::from_str(alloc, USAGE)?));
    };
    Ok(Line::Logs(LogsLine {
        output: value(matches, "output"),
        lines,
        follows: is_given(matches, "follow"),
        is_raw: is_given(matches, "raw"),
        unit,
    }))
}

/// Reads the words from `logs` on.
pub fn read_logs<'a>(alloc: Global, words: &'a [String]) -> Result<Line<'a>, AllocError>
    ensures { IfOk result (IsLogsLine (map string_bytes words.now)) }
{
    match command(alloc)?.try_get_matches_from(words) {
        Ok(matches) => logs_line(alloc, &matches),
        Err(mistake) => line_of_mistake(alloc, &mistake),
    }
}
