//! The words of `umd create`.

ghost use Rattle.std.specs.Prelude.{◌≡◌, IfOk, map, string_bytes};
ghost use Rattle.clap.specs.Words.{app_of, found_of, rows_of};
ghost use Rattle.um_line.specs.Line.{create_words, IsCreateLine, TakesCreate};

use crate::line::Line;
use crate::mistake::line_of_mistake;
use crate::numbers::limited;
use crate::values::{described, value, with_option, with_word};
use clap::{ArgMatches, Command};
use std::alloc::{AllocError, Global};

/// A new store.
#[derive(Clone, Copy, Debug)]
pub struct CreateLine<'a> {
    /// The sectors of each of its two slots: 64 to 2^20.
    pub slot: u32,
    /// The sectors of its log: 512 to 2^20.
    pub log: u32,
    /// The path of its file.
    pub file: &'a str,
}

/// The fewest sectors of a slot and of the log, and the most of both.
const LEAST_SLOT: u32 = 64;

const LEAST_LOG: u32 = 512;

const MOST: u32 = 1 << 20;

/// The error for numbers outside their limits.
const USAGE: &str =
    "error: a slot has 64 to 1048576 sectors, a log 512 to 1048576, in decimal digits

Usage: umd create --slot <N> --log <N> <FILE>

For more information, try '--help'.
";

const SLOT_HELP: &str =
    "Sectors of 512 bytes of each of the two slots, 64 to 1048576; one of them holds the state, with a header";

const LOG_HELP: &str =
    "Sectors of the log, 512 to 1048576; when half of it is full the state is written anew";

/// The words that it takes.
fn command<'a>(alloc: Global) -> Result<Command<'a>, AllocError>
    ensures { IfOk result (λ c. app_of c ≡ create_words) }
{
    let command = described(
        alloc,
        "umd create",
        "umd create --slot <N> --log <N> <FILE>",
        "Makes a new store in a new file; what stands at the path is left as it is",
        "For example:\n  umd create --slot 1024 --log 4096 /var/lib/umd/store",
    );
    let command = with_option(command, alloc, "slot", "N", SLOT_HELP)?;
    let command = with_option(command, alloc, "log", "N", LOG_HELP)?;
    with_word(command, alloc, "file", "FILE", "The new file")
}

fn usage(alloc: Global) -> Result<String, AllocError> {
    String::from_str(alloc, USAGE)
}

/// The line for these values.
fn create_line<'a>(alloc: Global, matches: &ArgMatches<'a>) -> Result<Line<'a>, AllocError>
    ensures { IfOk result (TakesCreate (rows_of (found_of matches.now))) }
{
    let Some(slot) = limited(value(matches, "slot"), LEAST_SLOT, MOST) else {
        return Ok(Line::Wrong(usage(alloc)?));
    };
    let Some(log) = limited(value(matches, "log"), LEAST_LOG, MOST) else {
        return Ok(Line::Wrong(usage(alloc)?));
    };
    let Some(file) = value(matches, "file") else {
        return Ok(Line::Wrong(usage(alloc)?));
    };
    Ok(Line::Create(CreateLine { slot, log, file }))
}

/// Reads the words from `create` on.
pub fn read_create<'a>(alloc: Global, words: &'a [String]) -> Result<Line<'a>, AllocError>
    ensures { IfOk result (IsCreateLine (map string_bytes words.now)) }
{
    match command(alloc)?.try_get_matches_from(words) {
        Ok(matches) => create_line(alloc, &matches),
        Err(mistake) => line_of_mistake(alloc, &mistake),
    }
}
