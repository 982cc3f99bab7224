//! The words of `umd ctl sync`.

ghost use Rattle.std.specs.Prelude.{◌≡◌, IfOk, Some, codes, map};
ghost use Rattle.clap.specs.Words.{all_of, first_of, found_of, rows_of};
ghost use Rattle.um_line.specs.Line.{AsksSync, IsTime, TakesCtl};

use crate::line::Line;
use crate::values::{is_given, value};
use clap::ArgMatches;
use std::alloc::{AllocError, Global};

/// A folder whose files are to be brought to a manager's tree.
#[derive(Clone, Copy, Debug)]
pub struct SyncLine<'a> {
    /// The path of the socket: the value of `--socket`.
    pub socket: Option<&'a str>,
    /// How many seconds to connect again while nobody reads a request: the value of `--retry`.
    pub retry: Option<u32>,
    /// How many seconds to wait for all replies together: the value of `--timeout`.
    pub timeout: Option<u32>,
    /// The folder whose files are put.
    pub folder: &'a str,
    /// The steps are only printed.
    pub is_dry: bool,
    /// Everything is put again.
    pub all: bool,
}

/// The error for other words after `sync`.
const USAGE: &str = "error: sync takes one folder, and neither --mode nor --wait

Usage: umd ctl [--socket <PATH>] [--retry <SECONDS>] [--timeout <SECONDS>] [--dry-run] [--all] sync <DIR>

For more information, try '--help'.
";

/// The line of `sync` with its times and the other values.
pub(crate) fn sync_line<'a>(
    alloc: Global,
    matches: &ArgMatches<'a>,
    retry: Option<u32>,
    timeout: Option<u32>,
    words: &[&'a str],
) -> Result<Line<'a>, AllocError>
    requires retry { IsTime (first_of (codes "retry") (rows_of (found_of matches.now))) retry }
    requires timeout { IsTime (first_of (codes "timeout") (rows_of (found_of matches.now))) timeout }
    requires words { all_of (codes "word") (rows_of (found_of matches.now)) ≡ Some (map (λ word. word.now) words.now) }
    requires sync { AsksSync (map (λ word. word.now) words.now) }
    ensures { IfOk result (TakesCtl (rows_of (found_of matches.now))) }
{
    let [_, folder] = words else {
        return Ok(Line::Wrong(String::from_str(alloc, USAGE)?));
    };
    if value(matches, "mode").is_some() || is_given(matches, "wait") {
        return Ok(Line::Wrong(String::from_str(alloc, USAGE)?));
    }
    Ok(Line::Sync(SyncLine {
        socket: value(matches, "socket"),
        retry,
        timeout,
        folder,
        is_dry: is_given(matches, "dry-run"),
        all: is_given(matches, "all"),
    }))
}
