//! `umd logs`: prints the output of a unit's processes.

use std::alloc::{AllocError, Global};
use std::fs::Files;
use std::time::{Clock, Duration};
use std::{io, thread};
use um_ctl::{Words, request};
use um_line::{DEVICE, LogsLine, REFUSED, USAGE, put_line};
use um_memory::Fault;
use um_name::UnitName;
use um_output::{Log, LogFault};
use um_proto::{Asked, Mode, Verb, read_request};
use um_state::Query;
use um_wire::Refusal;

/// New output is looked for at this interval, in milliseconds.
const APART: u64 = 200;

/// The error if no folder is given.
const NO_FOLDER: &str = "error: where output is kept is told neither by --output nor by UMD_OUTPUT

Usage: umd logs [--output <OUT>] [-n <K>] [-f] [--raw] <UNIT>

For more information, try '--help'.
";

/// The text of the request to show them, as a client sends it.
fn text_of<'a>(alloc: Global, units: &'a [&'a str]) -> Result<Vec<u8>, AllocError> {
    let words = Words {
        verb: "show",
        arguments: units,
        mode: None,
    };
    request(alloc, Verb::Show, &words, None)
}

/// The unit that the text names, as a request reads it.
fn unit_named(alloc: Global, unit: &str) -> Result<Option<UnitName>, Refusal> {
    let text = text_of(alloc, &[unit])?;
    match read_request(alloc, text.as_slice(), Mode::Service)?.asked {
        Asked::Query(Query::Show { unit }) => Ok(Some(unit)),
        asked => {
            drop(asked);
            Ok(None)
        }
    }
}

/// The output folder: the option's value, or else the variable's; an empty text counts as none.
fn folder_told<'x>(option: Option<&'x str>, variable: Option<&'x str>) -> Option<&'x str> {
    match option {
        Some(folder) if !folder.is_empty() => Some(folder),
        _ => variable.filter(|folder| !folder.is_empty()),
    }
}

/// Prints the unit's output in the folder as the line says; with `--follow`, without an end.
fn put<R: Files + Print + Clock>(
    rt: &R,
    alloc: Global,
    line: &LogsLine<'_>,
    folder: &str,
    unit: &UnitName,
) -> Result<(), LogFault> {
    let mut log = Log::open(
        rt,
        alloc,
        folder,
        unit.as_str(),
        line.is_raw,
        io::writer(rt),
    )?;
    log.put_all(line.lines)?;
    if !line.follows {
        return Ok(());
    }
    for _ in 0..u64::MAX {
        thread::sleep(rt, Duration::from_millis(APART));
        log.put_more()?;
    }
    Ok(())
}

/// Says why the output can't be printed, and returns the exit status.
fn tell<R: Eprint>(rt: &R, alloc: Global, unit: &UnitName, fault: LogFault) -> Result<u8, Fault> {
    match fault {
        LogFault::Absent => {
            let unit = unit.as_str();
            put_line(rt, alloc, format_args!("umd: {unit}: no output is kept"));
            Ok(REFUSED)
        }
        LogFault::Read(path, error) => {
            put_line(rt, alloc, format_args!("umd: {path}: {error}"));
            Ok(DEVICE)
        }
        LogFault::Write(error) => Err(Fault::Write(error)),
        LogFault::NoMemory => Err(Fault::NoMemory),
    }
}

/// Says that the text names no unit, and returns the exit status.
fn refuses<R: Eprint>(rt: &R, alloc: Global, refusal: Refusal) -> u8 {
    let status = match refusal {
        Refusal::NoMemory => REFUSED,
        _ => USAGE,
    };
    put_line(rt, alloc, format_args!("{refusal}"));
    status
}

/// Prints the output of a unit's processes, and returns the exit status; `variable` is the value of UMD_OUTPUT. A fault
/// if standard output can't be written or memory is refused.
pub fn logs<R: Files + Print + Eprint + Clock>(
    rt: &R,
    alloc: Global,
    line: &LogsLine<'_>,
    variable: Option<&str>,
) -> Result<u8, Fault> {
    let unit = match unit_named(alloc, line.unit) {
        Ok(Some(unit)) => unit,
        Ok(None) => return Ok(USAGE),
        Err(refusal) => return Ok(refuses(rt, alloc, refusal)),
    };
    let Some(folder) = folder_told(line.output, variable) else {
        let _unheard = eprint!(rt; "{NO_FOLDER}");
        return Ok(USAGE);
    };
    match put(rt, alloc, line, folder, &unit) {
        Ok(()) => Ok(0),
        Err(fault) => tell(rt, alloc, &unit, fault),
    }
}
