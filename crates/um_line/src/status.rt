//! The words of `umd status`.

ghost use Rattle.std.specs.Prelude.{◌≡◌, IfOk, codes, map, string_bytes};
ghost use Rattle.clap.specs.Words.{all_of, app_of, found_of, rows_of};
ghost use Rattle.um_line.specs.Line.{status_words, IsStatusLine, IsUnits, TakesStatus};

use crate::line::Line;
use crate::mistake::line_of_mistake;
use crate::numbers::time;
use crate::values::{copied, described, value, values, with_any_words, with_optional};
use clap::{ArgMatches, Command};
use std::alloc::{AllocError, Global};

/// The units whose status is printed, and the manager to query.
#[derive(Debug, Drop)]
pub struct StatusLine<'a> {
    /// The path of the socket: the value of `--socket`.
    pub socket: Option<&'a str>,
    /// How many seconds to connect again while nobody reads the request: the value of `--retry`.
    pub retry: Option<u32>,
    /// How many seconds to wait for all replies together: the value of `--timeout`.
    pub timeout: Option<u32>,
    /// The folder of the files of processes: the value of `--dir`.
    pub dir: Option<&'a str>,
    /// The folder in which output is kept: the value of `--output`.
    pub output: Option<&'a str>,
    /// The units, whose names may lack their suffix; none for all.
    pub units: Vec<&'a str>,
}

/// The error for a time outside its limits.
const NO_TIME: &str = "error: --retry and --timeout are 1 to 86400 seconds

Usage: umd status [--socket <PATH>] [--retry <SECONDS>] [--timeout <SECONDS>] [--dir <DIR>] [--output <OUT>] [UNIT]..

For more information, try '--help'.
";

const SOCKET_HELP: &str =
    "The socket that the manager serves; where it is left out, what the variable UMD_SOCKET holds";

const RETRY_HELP: &str =
    "Where nobody reads the request: connects again for so long, 1 to 86400 seconds";

const TIMEOUT_HELP: &str =
    "Waits for the replies for so long, 1 to 86400 seconds, and then ends with 6. Left out: for ever";

const DIR_HELP: &str =
    "The folder that umd serve --dir was given, in which the pids are; where it is left out, what the variable UMD_DIR holds";

const OUTPUT_HELP: &str =
    "The folder that umd serve --output was given, in which it is kept how processes ended; where it is left out, what the variable UMD_OUTPUT holds";

const AFTER_HELP: &str =
    "Without units it prints a line for each known one: its name, whether it is loaded, its active and its sub state, its result, the pid of its main process, and its pending jobs. With units it prints their lines alone, and behind each how its last process ended, what its files warn of, and where it isn't loaded why: of its files as they stand now, of which a reload may be to come. A - stands for nothing.

umd help RESULT, as umd help exit-code, says what a result means.

Exit statuses: 0 done; 1 refused; 2 wrong words, or no socket is told; 3 one of the units isn't active; 4 no connection, or it was closed unread; 5 a fault; 6 no reply in time.

For example:
  umd status --socket /run/umd/socket
  UMD_SOCKET=/run/umd/socket UMD_DIR=/run/umd UMD_OUTPUT=/var/log/umd umd status web";

/// The words that it takes.
fn command<'a>(alloc: Global) -> Result<Command<'a>, AllocError>
    ensures { IfOk result (λ c. app_of c ≡ status_words) }
{
    let command = described(
        alloc,
        "umd status",
        "umd status [--socket <PATH>] [--retry <SECONDS>] [--timeout <SECONDS>] [--dir <DIR>] [--output <OUT>] [UNIT]..",
        "Shows how units stand",
        AFTER_HELP,
    );
    let command = with_optional(command, alloc, "socket", "PATH", SOCKET_HELP)?;
    let command = with_optional(command, alloc, "retry", "SECONDS", RETRY_HELP)?;
    let command = with_optional(command, alloc, "timeout", "SECONDS", TIMEOUT_HELP)?;
    let command = with_optional(command, alloc, "dir", "DIR", DIR_HELP)?;
    let command = with_optional(command, alloc, "output", "OUT", OUTPUT_HELP)?;
    with_any_words(
        command,
        alloc,
        "unit",
        "UNIT",
        "Units, as x or x.service; none for all",
    )
}

/// The units that the words name.
fn units_told<'a>(alloc: Global, matches: &ArgMatches<'a>) -> Result<Vec<&'a str>, AllocError>
    ensures { IfOk result (λ units. IsUnits (all_of (codes "unit") (rows_of (found_of matches.now))) (map (λ unit. unit.now) units.items)) }
{
    match values(matches, "unit") {
        Some(units) => copied(alloc, units),
        None => Ok(Vec::new(alloc)),
    }
}

/// The line for these values.
fn status_line<'a>(alloc: Global, matches: &ArgMatches<'a>) -> Result<Line<'a>, AllocError>
    ensures { IfOk result (TakesStatus (rows_of (found_of matches.now))) }
{
    let Some(retry) = time(value(matches, "retry")) else {
        return Ok(Line::Wrong(String::from_str(alloc, NO_TIME)?));
    };
    let Some(timeout) = time(value(matches, "timeout")) else {
        return Ok(Line::Wrong(String::from_str(alloc, NO_TIME)?));
    };
    let units = units_told(alloc, matches)?;
    Ok(Line::Status(StatusLine {
        socket: value(matches, "socket"),
        retry,
        timeout,
        dir: value(matches, "dir"),
        output: value(matches, "output"),
        units,
    }))
}

/// Reads the words from `status` on.
pub fn read_status<'a>(alloc: Global, words: &'a [String]) -> Result<Line<'a>, AllocError>
    ensures { IfOk result (IsStatusLine (map string_bytes words.now)) }
{
    match command(alloc)?.try_get_matches_from(words) {
        Ok(matches) => status_line(alloc, &matches),
        Err(mistake) => line_of_mistake(alloc, &mistake),
    }
}
