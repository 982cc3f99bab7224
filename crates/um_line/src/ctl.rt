//! The words of `umd ctl`.

ghost use Rattle.std.specs.Prelude.{◌≡◌, ◌≢◌, ◌↔◌, IfOk, IsTrue, OnOk, Some, codes, map, string_bytes};
ghost use Rattle.clap.specs.Words.{all_of, app_of, first_of, found_of, kind_of, rows_of};
ghost use Rattle.um_line.specs.Line.{ctl_words, AsksSync, HasSyncFlag, IsCtlLine, IsTime, IsToldAs, TakesCtl};

use crate::line::Line;
use crate::mistake::line_of_mistake;
use crate::numbers::time;
use crate::sync::sync_line;
use crate::values::{
    copied, described, is_given, value, values, with_flag, with_optional, with_words,
};
use clap::error::ErrorKind;
use clap::{ArgMatches, Command, Error};
use std::alloc::{AllocError, Global};
use um_ctl::verb_lines;

/// A request to the manager at a socket.
#[derive(Debug, Drop)]
pub struct CtlLine<'a> {
    /// The path of the socket: the value of `--socket`.
    pub socket: Option<&'a str>,
    /// How many seconds to connect again while nobody reads the request: the value of `--retry`.
    pub retry: Option<u32>,
    /// How many seconds to wait for the reply: the value of `--timeout`.
    pub timeout: Option<u32>,
    pub verb: &'a str,
    pub arguments: Vec<&'a str>,
    /// The value of `--mode`.
    pub mode: Option<&'a str>,
    /// Wait until the unit has started or stopped.
    pub waits: bool,
}

/// The error if a word is missing.
const USAGE: &str = "error: a word is missing

Usage: umd ctl [--socket <PATH>] [--retry <SECONDS>] [--timeout <SECONDS>] [--mode <MODE>] [--wait] <VERB> [ARG]..

For more information, try '--help'.
";

/// The error for a flag of `sync` with another verb.
const NO_SYNC: &str = "error: --dry-run and --all are for sync

Usage: umd ctl [--socket <PATH>] [--retry <SECONDS>] [--timeout <SECONDS>] [--mode <MODE>] [--wait] <VERB> [ARG]..

For more information, try '--help'.
";

/// The error for a time outside its limits.
const NO_TIME: &str = "error: --retry and --timeout are 1 to 86400 seconds

Usage: umd ctl [--socket <PATH>] [--retry <SECONDS>] [--timeout <SECONDS>] [--mode <MODE>] [--wait] <VERB> [ARG]..

For more information, try '--help'.
";

const SOCKET_HELP: &str =
    "The socket that the manager serves; where it is left out, what the variable UMD_SOCKET holds";

const RETRY_HELP: &str =
    "Where nothing stands at the socket, nobody answers there or the connection is closed unread: connects again for so long, 1 to 86400 seconds";

const TIMEOUT_HELP: &str =
    "Waits for the reply for so long, retries included, 1 to 86400 seconds, and then ends with 6; the request may have been taken all the same. Left out: for ever";

const WORD_HELP: &str = "A verb, and its fields in their order";

const MODE_HELP: &str =
    "For start, stop, restart and try-restart: fail, where a pending job would be dropped, or replace";

const WAIT_HELP: &str =
    "For start, stop and restart: goes on until no job of the unit is pending and it neither starts nor stops, and ends with 0, printing nothing, where that is what was asked for, else with 1 and a line that says how the unit stands; --timeout is of the whole";

const DRY_RUN_HELP: &str = "For sync: prints what would be put and removed, and asks no manager";

const ALL_HELP: &str = "For sync: puts everything again, as behind a boot or in another store";

const AFTER_HELP: &str =
    "Words after -- may begin with a -. A refusal prints one line, as E4 NotFound a.service; umd help E4 says what it means and what to do.

With --wait start and restart end with 0 where the unit is active, one that runs still under the same process a second later, or where it has ended with success; stop where it is inactive or failed, but for result timeout.

sync puts what is new or changed in the folders etc, run and lib of a folder, removes what was put of it before and is gone, and then reloads. It prints a line a change, as put lib/a.service. What it put stands in the folder's file .umd-sync; what others put, and links that enable made, stay.

Exit statuses: 0 done; 1 refused, or with --wait not as asked; 2 wrong words; 3 not active, not failed, not enabled; 4 no connection, or it was closed unread and the request not taken; 5 a fault; 6 no reply in time.

For example:
  umd ctl --socket /run/umd/socket put-file lib/a.service < a.service
  umd ctl --socket /run/umd/socket daemon-reload
  umd ctl --socket /run/umd/socket start --mode fail a
  umd ctl --socket /run/umd/socket --retry 10 --timeout 60 list-units
  UMD_SOCKET=/run/umd/socket umd ctl --wait --timeout 60 start a
  umd ctl --socket /run/umd/socket sync --dry-run /etc/units
  umd ctl --socket /run/umd/socket start shutdown.target

The last one stops everything but units with DefaultDependencies=no.

Verbs, with their arguments in their order:";

/// The words that it takes.
fn command<'a>(alloc: Global) -> Result<Command<'a>, AllocError>
    ensures { IfOk result (λ c. app_of c ≡ ctl_words) }
{
    let command = described(
        alloc,
        "umd ctl",
        "umd ctl [--socket <PATH>] [--retry <SECONDS>] [--timeout <SECONDS>] [--mode <MODE>] [--wait] <VERB> [ARG]..
umd ctl [--socket <PATH>] [--retry <SECONDS>] [--timeout <SECONDS>] [--dry-run] [--all] sync <DIR>",
        "Asks the manager at a socket, and prints the value of its reply as JSON",
        AFTER_HELP,
    );
    let command = with_optional(command, alloc, "socket", "PATH", SOCKET_HELP)?;
    let command = with_optional(command, alloc, "retry", "SECONDS", RETRY_HELP)?;
    let command = with_optional(command, alloc, "timeout", "SECONDS", TIMEOUT_HELP)?;
    let command = with_optional(command, alloc, "mode", "MODE", MODE_HELP)?;
    let command = with_flag(command, alloc, "wait", WAIT_HELP)?;
    let command = with_flag(command, alloc, "dry-run", DRY_RUN_HELP)?;
    let command = with_flag(command, alloc, "all", ALL_HELP)?;
    with_words(command, alloc, "word", "WORD", WORD_HELP)
}

/// Whether one of the flags of `sync` was given.
fn has_sync_flag(matches: &ArgMatches<'_>) -> bool
    ensures { IsTrue result ↔ HasSyncFlag (rows_of (found_of matches.now)) }
{
    is_given(matches, "dry-run") || is_given(matches, "all")
}

/// The line of a verb with its arguments, its times and the other values.
fn verb_line<'a>(
    alloc: Global,
    matches: &ArgMatches<'a>,
    retry: Option<u32>,
    timeout: Option<u32>,
    words: &[&'a str],
) -> Result<Line<'a>, AllocError>
    requires retry { IsTime (first_of (codes "retry") (rows_of (found_of matches.now))) retry }
    requires timeout { IsTime (first_of (codes "timeout") (rows_of (found_of matches.now))) timeout }
    requires words { all_of (codes "word") (rows_of (found_of matches.now)) ≡ Some (map (λ word. word.now) words.now) }
    requires verb { ¬ AsksSync (map (λ word. word.now) words.now) }
    ensures { IfOk result (TakesCtl (rows_of (found_of matches.now))) }
{
    let Some((verb, arguments)) = words.split_first() else {
        return Ok(Line::Wrong(String::from_str(alloc, USAGE)?));
    };
    if has_sync_flag(matches) {
        return Ok(Line::Wrong(String::from_str(alloc, NO_SYNC)?));
    }
    let arguments = copied(alloc, arguments)?;
    Ok(Line::Ctl(CtlLine {
        socket: value(matches, "socket"),
        retry,
        timeout,
        verb: *verb,
        arguments,
        mode: value(matches, "mode"),
        waits: is_given(matches, "wait"),
    }))
}

/// Whether the first word is `sync`.
fn asks_sync(words: &[&str]) -> bool
    ensures { IsTrue result ↔ AsksSync (map (λ word. word.now) words.now) }
{
    match words.split_first() {
        Some((first, _)) => *first == "sync",
        None => false,
    }
}

/// The line for these values.
fn ctl_line<'a>(alloc: Global, matches: &ArgMatches<'a>) -> Result<Line<'a>, AllocError>
    ensures { IfOk result (TakesCtl (rows_of (found_of matches.now))) }
{
    let Some(retry) = time(value(matches, "retry")) else {
        return Ok(Line::Wrong(String::from_str(alloc, NO_TIME)?));
    };
    let Some(timeout) = time(value(matches, "timeout")) else {
        return Ok(Line::Wrong(String::from_str(alloc, NO_TIME)?));
    };
    let Some(words) = values(matches, "word") else {
        return Ok(Line::Wrong(String::from_str(alloc, USAGE)?));
    };
    if asks_sync(words) {
        sync_line(alloc, matches, retry, timeout, words)
    } else {
        verb_line(alloc, matches, retry, timeout, words)
    }
}

/// The help's line for `sync`, which is no verb of a request.
const SYNC: &str = "  sync [--dry-run] [--all] <dir>
";

/// The help, with a line for each verb.
fn with_verbs(alloc: Global, help: String) -> Result<String, AllocError> {
    let mut text = help;
    text.push_str(verb_lines(alloc)?.as_str())?;
    text.push_str(SYNC)?;
    Ok(text)
}

/// The line for a mistake; the help ends with the verbs.
fn line_of_ctl_mistake<'a>(alloc: Global, mistake: &Error) -> Result<Line<'a>, AllocError>
    ensures line { IfOk result (IsToldAs (kind_of mistake.now)) }
    ensures memory { OnOk result (kind_of mistake.now ≢ ErrorKind.OutOfMemory) }
{
    match line_of_mistake(alloc, mistake)? {
        Line::Told(help) => Ok(Line::Told(with_verbs(alloc, help)?)),
        line => Ok(line),
    }
}

/// Reads the words from `ctl` on.
pub fn read_ctl<'a>(alloc: Global, words: &'a [String]) -> Result<Line<'a>, AllocError>
    ensures { IfOk result (IsCtlLine (map string_bytes words.now)) }
{
    match command(alloc)?.try_get_matches_from(words) {
        Ok(matches) => ctl_line(alloc, &matches),
        Err(mistake) => line_of_ctl_mistake(alloc, &mistake),
    }
}
