//! The words of `umd serve`.

ghost use Rattle.std.specs.Prelude.{◌≡◌, IfOk, map, string_bytes};
ghost use Rattle.clap.specs.Words.{app_of, found_of, rows_of};
ghost use Rattle.um_line.specs.Line.{serve_words, IsServeLine, TakesServe};

use crate::line::Line;
use crate::mistake::line_of_mistake;
use crate::numbers::size;
use crate::values::{described, value, with_option, with_optional, with_word};
use clap::{ArgMatches, Command};
use std::alloc::{AllocError, Global};

/// A store to be served.
#[derive(Clone, Copy, Debug)]
pub struct ServeLine<'a> {
    /// The id of the boot, at most 64 bytes.
    pub boot: &'a str,
    /// The path of the socket.
    pub socket: &'a str,
    /// The folder of the files of processes.
    pub dir: &'a str,
    /// The program that runs them: this one.
    pub runner: &'a str,
    /// The unit to start if nothing ran yet since the boot: the value of `--start`.
    pub start: Option<&'a str>,
    /// The folder in which the output of processes is kept: the value of `--output`.
    pub output: Option<&'a str>,
    /// How many bytes of a process's output are kept, and up to as many again: 4,096 to 2^24.
    pub output_size: u32,
    /// The path of the store.
    pub file: &'a str,
}

/// The longest id of a boot, in bytes.
const BOOT_LIMIT: usize = 64;

/// The error if a word is missing.
const USAGE: &str = "error: a word is missing

Usage: umd serve --boot <ID> --socket <PATH> --dir <DIR> --runner <PATH> [--start <UNIT>] [--output <OUT> [--output-size <BYTES>]] <FILE>

For more information, try '--help'.
";

/// The error for a size of an output file outside its limits.
const NO_SIZE: &str = "error: --output-size is 4096 to 16777216 bytes

Usage: umd serve --boot <ID> --socket <PATH> --dir <DIR> --runner <PATH> [--start <UNIT>] [--output <OUT> [--output-size <BYTES>]] <FILE>

For more information, try '--help'.
";

const BOOT_HELP: &str =
    "The id of the running boot, $(cat /proc/sys/kernel/random/boot_id): with another one than the store's last every process is taken to be gone and nothing runs, with that of an earlier boot the manager adopts and signals pids that belong to others by now";

const SOCKET_HELP: &str = "The socket to serve; one that an earlier server left there is replaced";

const RUNNER_HELP: &str = "The program that runs processes: the path of umd itself";

const DIR_HELP: &str =
    "The folder of the files of processes, made where it isn't there; nothing may clean it while the machine is up";

const START_HELP: &str =
    "The unit to start where nothing ran yet since the boot: no unit has an entry in the state, and no job is pending. So it is started behind a new boot, and again where the manager was killed before the start was recorded, and never once anything ran. What it wants and can't have is left out, as with start; a refusal is told, and the store is served all the same";

const OUTPUT_HELP: &str =
    "The folder in which what services print is kept, made where it isn't there; umd logs prints it. Left out: what they print is lost";

const SIZE_HELP: &str =
    "So many of the last bytes of what a process prints are kept, and up to as many again, 4096 to 16777216; 1048576 where it is left out";

const AFTER_HELP: &str =
    "It serves until TERM, or another signal, ends it. The processes of its services run on; served again with the same id of the boot, the store has them again.

Everything but units with DefaultDependencies=no is stopped by umd ctl start shutdown.target.

Services run as the user of umd serve. Their standard input is /dev/null. Their standard output and error are too, but with --output: then both go to a file of the process, OUT/UNIT/N by its number N; how it ended stands in OUT/UNIT/ends, a line each. Of a unit the files of its processes that run stay, and those of the four that ended last.

What fails is told on standard error. Exit statuses: 1 refused, with a line of what the refusal means; 2 wrong words; 5 a file, the folder, the socket or the disk failed.

For example:
  umd serve --boot \"$(cat /proc/sys/kernel/random/boot_id)\" --socket /run/umd/socket --dir /run/umd --runner /usr/bin/umd --start default.target --output /var/log/umd /var/lib/umd/store";

/// The words that it takes.
fn command<'a>(alloc: Global) -> Result<Command<'a>, AllocError>
    ensures { IfOk result (λ c. app_of c ≡ serve_words) }
{
    let command = described(
        alloc,
        "umd serve",
        "umd serve --boot <ID> --socket <PATH> --dir <DIR> --runner <PATH> [--start <UNIT>] [--output <OUT> [--output-size <BYTES>]] <FILE>",
        "Serves a store over a socket",
        AFTER_HELP,
    );
    let command = with_option(command, alloc, "boot", "ID", BOOT_HELP)?;
    let command = with_option(command, alloc, "socket", "PATH", SOCKET_HELP)?;
    let command = with_option(command, alloc, "dir", "DIR", DIR_HELP)?;
    let command = with_option(command, alloc, "runner", "PATH", RUNNER_HELP)?;
    let command = with_optional(command, alloc, "start", "UNIT", START_HELP)?;
    let command = with_optional(command, alloc, "output", "OUT", OUTPUT_HELP)?;
    let command = with_optional(command, alloc, "output-size", "BYTES", SIZE_HELP)?;
    with_word(command, alloc, "file", "FILE", "The store")
}

fn usage(alloc: Global) -> Result<String, AllocError> {
    String::from_str(alloc, USAGE)
}

/// The line for these values.
fn serve_line<'a>(alloc: Global, matches: &ArgMatches<'a>) -> Result<Line<'a>, AllocError>
    ensures { IfOk result (TakesServe (rows_of (found_of matches.now))) }
{
    let Some(boot) = value(matches, "boot") else {
        return Ok(Line::Wrong(usage(alloc)?));
    };
    let Some(socket) = value(matches, "socket") else {
        return Ok(Line::Wrong(usage(alloc)?));
    };
    let Some(dir) = value(matches, "dir") else {
        return Ok(Line::Wrong(usage(alloc)?));
    };
    let Some(runner) = value(matches, "runner") else {
        return Ok(Line::Wrong(usage(alloc)?));
    };
    let Some(output_size) = size(value(matches, "output-size")) else {
        return Ok(Line::Wrong(String::from_str(alloc, NO_SIZE)?));
    };
    let Some(file) = value(matches, "file") else {
        return Ok(Line::Wrong(usage(alloc)?));
    };
    if boot.len() > BOOT_LIMIT {
        return Ok(Line::LongBoot);
    }
    Ok(Line::Serve(ServeLine {
        boot,
        socket,
        dir,
        runner,
        start: value(matches, "start"),
        output: value(matches, "output"),
        output_size,
        file,
    }))
}

/// Reads the words from `serve` on.
pub fn read_serve<'a>(alloc: Global, words: &'a [String]) -> Result<Line<'a>, AllocError>
    ensures { IfOk result (IsServeLine (map string_bytes words.now)) }
{
    match command(alloc)?.try_get_matches_from(words) {
        Ok(matches) => serve_line(alloc, &matches),
        Err(mistake) => line_of_mistake(alloc, &mistake),
    }
}
