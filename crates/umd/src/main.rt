//! The program `umd`. `--memory` answers the frames of standard input on standard output, `create` makes a store, and
//! `check` reports on one. `serve` serves a store over a socket, and `run` runs a command for the manager. `ctl`
//! sends a request to a manager, `status` prints the status of its units, `logs` prints the output of services.
//! `verify` checks unit files, and `help` explains a refusal or a word.
#![tactic(auto)]

mod checking;
mod messages;
mod um_bin;

use checking::check;
use messages::{report, status_of, tell_create};
use std::alloc::{AllocError, Global};
use std::env::Env;
use std::fs::{File, Files};
use std::io::{ErrorKind, IsTerminal};
use std::net::Net;
use std::process::{ExitCode, Processes};
use std::time::Clock;
use std::{env, io, process};
use um_bin::{memory, read_line, serve_store};
use um_commands::{Surroundings, ctl, logs, put_text, show_units, sync, verify};
use um_create::{Layout, create_store};
use um_ctl::{meaning_line, shown};
use um_line::{CreateLine, DEVICE, Line, REFUSED, TopicLine, USAGE};
use um_memory::{Ending, Fault};
use um_runner::{FolderFault, RunnerLine};
use um_sentences::{reason_lines, topic_help};

/// The number of the first process of a machine or container.
const FIRST: u32 = 1;

fn serve_memory<R: Input + Print>(rt: &R, alloc: Global) -> Result<u8, Fault> {
    let mut input = rt.reader();
    let mut output = io::writer(rt);
    match memory(alloc, &mut input, &mut output)? {
        Ending::Between => Ok(0),
        Ending::Inside => Ok(USAGE),
        Ending::TooLong => Ok(REFUSED),
    }
}

/// Runs a command for the manager, and notes its claim and its fate in a folder.
fn run_runner<R: Files + Net + Processes + Clock + Eprint>(
    rt: &R,
    alloc: Global,
    line: &RunnerLine<'_>,
) -> Result<u8, Fault> {
    match um_runner::run_line(rt, alloc, line) {
        Ok(()) => Ok(0),
        Err(FolderFault::NoMemory) => Err(Fault::NoMemory),
        Err(FolderFault::System(e)) => {
            // If standard error fails too, only the exit status shows the error.
            let _unheard = eprintln!(rt; "umd: the folder: {e}");
            Ok(DEVICE)
        }
    }
}

/// Makes a new store, and returns the exit status.
fn create<R: Files<File = File> + Eprint>(rt: &R, alloc: Global, line: &CreateLine<'_>) -> u8 {
    let Some(layout) = Layout::new(line.slot, line.log) else {
        return USAGE;
    };
    match create_store(rt, alloc, layout, line.file) {
        Ok(disk) => {
            drop(disk);
            0
        }
        Err(fault) => {
            tell_create(rt, alloc, &fault, line.file);
            fault.status()
        }
    }
}

/// The number of the refusal that gives a reason.
const BAD_SETTING: u32 = 6;

/// Prints the meaning of the refusal of this number; of a bad setting, also the meaning of each reason.
fn explain<R: Print>(rt: &R, alloc: Global, number: u32) -> Result<u8, Fault> {
    let Some(line) = meaning_line(alloc, u64::from(number))? else {
        return Ok(USAGE);
    };
    put_text(rt, line.as_str())?;
    if number == BAD_SETTING {
        put_text(rt, reason_lines(alloc)?.as_str())
    } else {
        Ok(0)
    }
}

/// Prints the meaning of a word in a reply.
fn explain_word<R: Print>(rt: &R, alloc: Global, line: TopicLine<'_>) -> Result<u8, Fault> {
    put_text(rt, topic_help(alloc, line.word, line.topic)?.as_str())
}

/// The error for wrong words, of words that are already escaped.
fn wrong_text(alloc: Global, words: &[String]) -> Result<String, AllocError> {
    match read_line(alloc, words)? {
        Line::Wrong(text) => Ok(text),
        asked => {
            drop(asked);
            String::from_str(alloc, "error: a word holds a control character\n")
        }
    }
}

/// The error for wrong words, with their control characters escaped.
fn shown_text(alloc: Global, words: &[String]) -> Result<String, AllocError> {
    let mut others = Vec::new(alloc);
    for word in words {
        others.push(shown(alloc, word.as_str())?)?;
    }
    wrong_text(alloc, others.as_slice())
}

/// Reads the words of the command line. An error names the wrong words with their control characters escaped.
fn read<'a>(alloc: Global, words: &'a [String]) -> Result<Line<'a>, AllocError> {
    let line = read_line(alloc, words)?;
    if !matches!(line, Line::Wrong(_)) {
        return Ok(line);
    }
    drop(line);
    Ok(Line::Wrong(shown_text(alloc, words)?))
}

/// Opens `/dev/null` for each of standard input, output and error that the program was started without. Otherwise the
/// next file that is opened, the store, would get that descriptor, and a line for standard error would be written
/// into it.
fn hold_standard<R: Files<File = File>>(rt: &R) -> [Option<File>; 3] {
    [null(rt), null(rt), null(rt)]
}

fn null<R: Files<File = File>>(rt: &R) -> Option<File> {
    File::open(rt, "/dev/null").ok()
}

/// Reports wrong words. If standard error fails too, only the exit status shows the error.
fn put_usage<R: Eprint>(rt: &R, text: &str) -> u8 {
    let _unheard = eprint!(rt; "{text}");
    USAGE
}

/// Says that the id of the boot is too long.
fn put_refusal<R: Eprint>(rt: &R) -> u8 {
    let _unheard = eprintln!(rt; "E1 BadRequest");
    REFUSED
}

fn run_line<R>(
    rt: &R,
    alloc: Global,
    line: &Line<'_>,
    surroundings: Surroundings<'_>,
) -> Result<u8, Fault>
where
    R: Input + Print + Eprint + Files<File = File> + Net + Processes + Clock,
{
    match line {
        Line::Memory => serve_memory(rt, alloc),
        Line::Run(line) => run_runner(rt, alloc, line),
        Line::Create(line) => Ok(create(rt, alloc, line)),
        Line::Check(line) => check(rt, alloc, line),
        Line::Ctl(line) => ctl(rt, alloc, line, surroundings),
        Line::Sync(line) => sync(rt, alloc, *line, surroundings),
        Line::Status(line) => show_units(rt, alloc, line, surroundings),
        Line::Logs(line) => logs(rt, alloc, line, surroundings.output),
        Line::Serve(line) => Ok(serve_store(rt, alloc, line, surroundings.is_first)),
        Line::Help(number) => explain(rt, alloc, *number),
        Line::Topic(line) => explain_word(rt, alloc, *line),
        Line::Verify(line) => verify(rt, alloc, line),
        Line::LongBoot => Ok(put_refusal(rt)),
        Line::Told(text) => put_text(rt, text.as_str()),
        Line::Wrong(text) => Ok(put_usage(rt, text.as_str())),
    }
}

/// Reads the words, and runs the command that they name.
fn run_words<R>(
    rt: &R,
    alloc: Global,
    words: &[String],
    surroundings: Surroundings<'_>,
) -> Result<u8, Fault>
where
    R: Input + Print + Eprint + Files<File = File> + Net + Processes + Clock,
{
    let line = read(alloc, words)?;
    run_line(rt, alloc, &line, surroundings)
}

/// Runs the program, and returns its exit status. `is_terminal`: standard output is a terminal; `is_first`: it is the
/// first process.
fn run<R>(rt: &R, is_terminal: bool, is_first: bool) -> Result<u8, Fault>
where
    R: AllocGlobal + Env + Input + Print + Eprint + Files<File = File> + Net + Processes + Clock,
{
    let alloc = rt.alloc();
    let _held = hold_standard(rt);
    match env::args(rt) {
        Ok(args) => {
            let words: Vec<String> = args.collect(alloc)?;
            let socket = env::var(rt, "UMD_SOCKET").ok();
            let dir = env::var(rt, "UMD_DIR").ok();
            let output = env::var(rt, "UMD_OUTPUT").ok();
            let surroundings = Surroundings {
                is_terminal,
                socket: socket.as_deref(),
                dir: dir.as_deref(),
                output: output.as_deref(),
                is_first,
            };
            run_words(rt, alloc, words.as_slice(), surroundings)
        }
        Err(e) => match e.kind() {
            ErrorKind::OutOfMemory => Err(Fault::NoMemory),
            _ => Ok(put_usage(rt, "error: a word isn't UTF-8\n")),
        },
    }
}

fn main(rt: HostRuntime) -> ExitCode {
    let is_terminal = rt.stdout().is_terminal();
    let is_first = process::id(rt.process()) == FIRST;
    let status = match run(&rt, is_terminal, is_first) {
        Ok(status) => status,
        Err(fault) => {
            report(&rt, &fault);
            status_of(&fault)
        }
    };
    ExitCode::from(status)
}
