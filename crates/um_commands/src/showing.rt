//! `umd status`: prints the state of units.

use crate::answers::{ctl_fault, put_text};
use crate::controlling::lacks_socket;
use crate::surroundings::{Surroundings, told};
use crate::waiting::{Answer, Asking, refused, value_of};
use serde_json::Value;
use std::alloc::{AllocError, AllocFailed, Global};
use std::fs::{File, Files};
use std::io;
use std::io::{ErrorKind, Read, Seek, SeekFrom};
use std::net::Net;
use std::time::Clock;
use um_ctl::{CtlFault, Told, shown};
use um_line::{DEVICE, StatusLine, put_line};
use um_memory::Fault;
use um_model::ProcessNumber;
use um_runner::FolderFault;
use um_status::{
    LastEnd, Row, UnitShown, details_of, files_given, last_end, row_of, table_text, unit_shown,
};
use um_verify::{Finding, verify_files};

/// The exit status if a named unit isn't active.
const NOT_ACTIVE: u8 = 3;

/// The number of bytes that are read from the end of the file of a unit's ends: a line is shorter.
const LINE: u64 = 256;

/// Why no status is printed.
#[derive(Drop)]
enum ShowFault {
    /// The manager refuses a query.
    Refused(Told),
    /// The manager can't be reached, or doesn't answer.
    Asked(CtlFault),
    /// A file can't be read.
    Read(String, io::Error),
    /// An allocation failed.
    NoMemory,
}

impl From<AllocError> for ShowFault {
    fn from(_refused: AllocError) -> ShowFault {
        ShowFault::NoMemory
    }
}

impl<T: Drop> From<AllocFailed<T>> for ShowFault {
    fn from(_refused: AllocFailed<T>) -> ShowFault {
        ShowFault::NoMemory
    }
}

impl From<CtlFault> for ShowFault {
    fn from(fault: CtlFault) -> ShowFault {
        match fault {
            CtlFault::NoMemory => ShowFault::NoMemory,
            fault => ShowFault::Asked(fault),
        }
    }
}

/// Where processes and their ends are kept, as far as that is given.
#[derive(Clone, Copy)]
struct Kept<'a> {
    dir: Option<&'a str>,
    output: Option<&'a str>,
}

/// The value of the reply to a query.
fn asked<'w, R: Net + Clock + Input>(
    asking: &Asking<'_, R>,
    verb: &'w str,
    arguments: &'w [&'w str],
) -> Result<Value, ShowFault> {
    match value_of(asking, verb, arguments)? {
        Answer::Value(value) => Ok(value),
        Answer::Refused(told) => Err(ShowFault::Refused(told)),
    }
}

/// The fault of a path that can't be read; out of memory is a fault of its own.
fn unread(alloc: Global, path: &str, error: io::Error) -> ShowFault {
    if error.kind() == ErrorKind::OutOfMemory {
        return ShowFault::NoMemory;
    }
    match String::from_str(alloc, path) {
        Ok(path) => ShowFault::Read(path, error),
        Err(_) => ShowFault::NoMemory,
    }
}

/// The fault of a manager whose answer is no reply.
fn no_reply() -> ShowFault {
    ShowFault::Asked(CtlFault::NoReply)
}

/// The pid of a process, read from the folder where it is kept.
fn pid_in<R: Files>(
    rt: &R,
    alloc: Global,
    dir: &str,
    number: ProcessNumber,
) -> Result<Option<u32>, ShowFault> {
    match um_runner::pid_in(rt, alloc, dir, number) {
        Ok(um_runner::Told::Pid(pid)) => Ok(Some(pid)),
        Ok(um_runner::Told::NoPid | um_runner::Told::Nothing) => Ok(None),
        Err(FolderFault::NoMemory) => Err(ShowFault::NoMemory),
        Err(FolderFault::System(error)) => Err(unread(alloc, dir, error)),
    }
}

/// The pid of the main process, if the folder is given.
fn pid_of<R: Files>(
    rt: &R,
    alloc: Global,
    kept: Kept<'_>,
    number: u64,
) -> Result<Option<u32>, ShowFault> {
    match (kept.dir, ProcessNumber::new(number)) {
        (Some(dir), Some(number)) => pid_in(rt, alloc, dir, number),
        _ => Ok(None),
    }
}

/// Opens a file, and goes to its last bytes.
fn open_tail<R: Files>(rt: &R, path: &str) -> io::Result<R::File> {
    let mut file = File::open(rt, path)?;
    let length = file.seek(SeekFrom::End(0))?;
    file.seek(SeekFrom::Start(length.saturating_sub(LINE)))?;
    Ok(file)
}

/// The last bytes of a file.
fn tail_of<R: Files>(rt: &R, alloc: Global, path: &str) -> io::Result<Vec<u8>> {
    let mut bytes = Vec::new(alloc);
    open_tail(rt, path)?.take(LINE).read_to_end(&mut bytes)?;
    Ok(bytes)
}

/// The last whole line of the text; text after its last line feed is ignored.
fn last_line(text: &str) -> &str {
    let Some((lines, _begun)) = text.rsplit_once('\n') else {
        return "";
    };
    match lines.rsplit_once('\n') {
        Some((_, line)) => line,
        None => lines,
    }
}

/// The last whole line of these bytes; an empty text if they are not UTF-8.
fn last_of(alloc: Global, bytes: &[u8]) -> Result<String, AllocError> {
    match str::from_utf8(bytes) {
        Ok(text) => String::from_str(alloc, last_line(text)),
        Err(_) => Ok(String::new(alloc)),
    }
}

/// The last line of the file at the path; an empty text if there is no file.
fn end_at<R: Files>(rt: &R, alloc: Global, path: &str) -> Result<String, ShowFault> {
    match tail_of(rt, alloc, path) {
        Ok(bytes) => Ok(last_of(alloc, bytes.as_slice())?),
        Err(fault) if fault.kind() == ErrorKind::NotFound => Ok(String::new(alloc)),
        Err(fault) => Err(unread(alloc, path, fault)),
    }
}

/// The last line that is kept about the end of the unit's processes; an empty text if there is none.
fn end_kept<R: Files>(
    rt: &R,
    alloc: Global,
    kept: Kept<'_>,
    id: &str,
) -> Result<String, ShowFault> {
    let Some(output) = kept.output else {
        return Ok(String::new(alloc));
    };
    let path = format!(in alloc; "{output}/{id}/ends")?;
    end_at(rt, alloc, path.as_str())
}

/// One line about the whole unit, rather than about a line of its files.
fn whole(alloc: Global, text: &str) -> Result<Vec<String>, ShowFault> {
    let mut lines = Vec::new(alloc);
    lines.push(String::from_str(alloc, text)?)?;
    Ok(lines)
}

/// The findings, a line each.
fn lines_of(alloc: Global, findings: &[Finding]) -> Result<Vec<String>, ShowFault> {
    let mut lines = Vec::new(alloc);
    for finding in findings {
        lines.push(finding.to_line(alloc)?)?;
    }
    Ok(lines)
}

/// The reasons why a unit with these findings isn't loaded; if none of them stops it, that a reload is to come.
fn told_of(alloc: Global, findings: &[Finding]) -> Result<Vec<String>, ShowFault> {
    if findings.iter().any(|finding| finding.stops) {
        lines_of(alloc, findings)
    } else {
        whole(alloc, "its files can be loaded now: a reload is to come")
    }
}

/// The reasons why the unit of this name isn't loaded, by these files.
fn reasons_in(alloc: Global, id: &str, files: &[Value]) -> Result<Vec<String>, ShowFault> {
    let given = files_given(alloc, files)?;
    let findings = verify_files(alloc, id, given.as_slice())?;
    told_of(alloc, findings.as_slice())
}

/// The same by the files in the reply to `cat`.
fn reasons_by(alloc: Global, id: &str, files: &Value) -> Result<Vec<String>, ShowFault> {
    match files.as_array() {
        Some(files) => reasons_in(alloc, id, files.as_slice()),
        None => Err(no_reply()),
    }
}

/// Why a unit with a bad setting isn't loaded, by its files as they are now.
fn bad_setting<R: Net + Clock + Input>(
    asking: &Asking<'_, R>,
    unit: UnitShown<'_>,
) -> Result<Vec<String>, ShowFault> {
    let alloc = asking.alloc();
    match value_of(asking, "cat", &[unit.id])? {
        Answer::Value(files) => reasons_by(alloc, unit.id, &files),
        Answer::Refused(told) => {
            drop(told);
            whole(
                alloc,
                "its files are gone or masked now: a reload is to come",
            )
        }
    }
}

/// Why a unit isn't loaded; no lines for one that is.
fn reasons_of<R: Net + Clock + Input>(
    asking: &Asking<'_, R>,
    unit: UnitShown<'_>,
) -> Result<Vec<String>, ShowFault> {
    let alloc = asking.alloc();
    match unit.loaded {
        "bad-setting" => bad_setting(asking, unit),
        "not-found" => whole(alloc, "no file of it is found"),
        "masked" => whole(alloc, "an empty file or a link to /dev/null masks it"),
        _ => Ok(Vec::new(alloc)),
    }
}

/// The warnings in the reply to `show`.
fn warnings_in(value: &Value) -> &[Value] {
    match value.get("Warnings").and_then(Value::as_array) {
        Some(warnings) => warnings.as_slice(),
        None => &[],
    }
}

/// The lines that follow the row of a named unit.
fn details<R: Net + Clock + Input + Files>(
    asking: &Asking<'_, R>,
    kept: Kept<'_>,
    unit: UnitShown<'_>,
    value: &Value,
) -> Result<String, ShowFault> {
    let alloc = asking.alloc();
    let reasons = reasons_of(asking, unit)?;
    let line = end_kept(asking.rt(), alloc, kept, unit.id)?;
    let end: Option<LastEnd<'_>> = last_end(line.as_str());
    Ok(details_of(alloc, end, warnings_in(value), reasons.as_slice())?)
}

/// The same for a named unit, and no lines for others.
fn details_where<R: Net + Clock + Input + Files>(
    asking: &Asking<'_, R>,
    kept: Kept<'_>,
    unit: UnitShown<'_>,
    value: &Value,
    is_named: bool,
) -> Result<String, ShowFault> {
    if is_named {
        details(asking, kept, unit, value)
    } else {
        Ok(String::new(asking.alloc()))
    }
}

/// A row, and whether its unit is active.
#[derive(Drop)]
struct Shown {
    row: Row,
    is_active: bool,
}

/// The row of a unit, followed by these lines.
fn shown_with<R: Net + Clock + Input + Files>(
    asking: &Asking<'_, R>,
    kept: Kept<'_>,
    unit: UnitShown<'_>,
    jobs: &[Value],
    details: String,
) -> Result<Shown, ShowFault> {
    let pid = pid_of(asking.rt(), asking.alloc(), kept, unit.number)?;
    let row = row_of(asking.alloc(), unit, jobs, pid, details)?;
    Ok(Shown {
        row,
        is_active: unit.active == "active",
    })
}

/// The row of a unit by the reply to `show`.
fn shown_by<R: Net + Clock + Input + Files>(
    asking: &Asking<'_, R>,
    kept: Kept<'_>,
    value: &Value,
    jobs: &[Value],
    is_named: bool,
) -> Result<Shown, ShowFault> {
    let Some(unit) = unit_shown(value) else {
        return Err(no_reply());
    };
    let details = details_where(asking, kept, unit, value, is_named)?;
    shown_with(asking, kept, unit, jobs, details)
}

/// The row of a unit.
fn shown_unit<R: Net + Clock + Input + Files>(
    asking: &Asking<'_, R>,
    kept: Kept<'_>,
    name: &str,
    jobs: &[Value],
    is_named: bool,
) -> Result<Shown, ShowFault> {
    let value = asked(asking, "show", &[name])?;
    shown_by(asking, kept, &value, jobs, is_named)
}

/// The rows of these units, given the pending jobs, and whether all are active.
fn rows_beside<R: Net + Clock + Input + Files>(
    asking: &Asking<'_, R>,
    kept: Kept<'_>,
    names: &[&str],
    jobs: &[Value],
    is_named: bool,
) -> Result<(Vec<Row>, bool), ShowFault> {
    let mut rows = Vec::new(asking.alloc());
    let mut are_active = true;
    for name in names {
        let Shown { row, is_active } = shown_unit(asking, kept, name, jobs, is_named)?;
        rows.push(row)?;
        are_active &= is_active;
    }
    Ok((rows, are_active))
}

/// The rows of these units, and whether all are active.
fn rows_of<R: Net + Clock + Input + Files>(
    asking: &Asking<'_, R>,
    kept: Kept<'_>,
    names: &[&str],
    is_named: bool,
) -> Result<(Vec<Row>, bool), ShowFault> {
    let jobs = asked(asking, "list-jobs", &[])?;
    match jobs.as_array() {
        Some(jobs) => rows_beside(asking, kept, names, jobs.as_slice(), is_named),
        None => Err(no_reply()),
    }
}

/// The names of these units.
fn names_of<'v>(alloc: Global, units: &'v [Value]) -> Result<Vec<&'v str>, ShowFault> {
    let mut names = Vec::new(alloc);
    for unit in units {
        if let Some(name) = unit.get(0usize).and_then(Value::as_str) {
            names.push(name)?;
        }
    }
    Ok(names)
}

/// The names of all known units, by the reply to `list-units`.
fn names_in<'v>(alloc: Global, units: &'v Value) -> Result<Vec<&'v str>, ShowFault> {
    match units.as_array() {
        Some(units) => names_of(alloc, units.as_slice()),
        None => Err(no_reply()),
    }
}

/// The text for all known units.
fn text_of_all<R: Net + Clock + Input + Files>(
    asking: &Asking<'_, R>,
    kept: Kept<'_>,
) -> Result<String, ShowFault> {
    let units = asked(asking, "list-units", &[])?;
    let names = names_in(asking.alloc(), &units)?;
    let (rows, _) = rows_of(asking, kept, names.as_slice(), false)?;
    Ok(table_text(asking.alloc(), rows.as_slice())?)
}

/// The text for the named units, and the exit status.
fn text_of_named<R: Net + Clock + Input + Files>(
    asking: &Asking<'_, R>,
    kept: Kept<'_>,
    names: &[&str],
) -> Result<(String, u8), ShowFault> {
    let (rows, are_active) = rows_of(asking, kept, names, true)?;
    let text = table_text(asking.alloc(), rows.as_slice())?;
    Ok((text, if are_active { 0 } else { NOT_ACTIVE }))
}

/// The text for the units of the command line, and the exit status.
fn text_of<R: Net + Clock + Input + Files>(
    asking: &Asking<'_, R>,
    kept: Kept<'_>,
    names: &[&str],
) -> Result<(String, u8), ShowFault> {
    if names.is_empty() {
        Ok((text_of_all(asking, kept)?, 0))
    } else {
        text_of_named(asking, kept, names)
    }
}

/// Appends a line, with its control characters escaped.
pub fn push_shown(all: &mut String, alloc: Global, line: &str) -> Result<(), AllocError> {
    let line = shown(alloc, line)?;
    all.push_str(line.as_str())?;
    all.push_str("\n")
}

/// The text with the control characters of each line escaped.
fn shown_lines(alloc: Global, text: &str) -> Result<String, AllocError> {
    let mut all = String::new(alloc);
    for line in text.lines() {
        push_shown(&mut all, alloc, line)?;
    }
    Ok(all)
}

/// Prints a text with its control characters escaped, and returns the exit status that goes with it.
fn put_shown<R: Print>(rt: &R, alloc: Global, text: &str, status: u8) -> Result<u8, Fault> {
    let lines = shown_lines(alloc, text)?;
    put_text(rt, lines.as_str())?;
    Ok(status)
}

/// Says why no status is printed, and returns the exit status.
fn tell<R: Net + Clock + Input + Eprint>(
    asking: &Asking<'_, R>,
    fault: &ShowFault,
) -> Result<u8, Fault> {
    let (rt, alloc) = (asking.rt(), asking.alloc());
    match fault {
        ShowFault::Refused(told) => refused(rt, told),
        ShowFault::Asked(fault) => {
            ctl_fault(rt, alloc, fault, "status", asking.socket());
            Ok(fault.status())
        }
        ShowFault::Read(path, error) => {
            put_line(rt, alloc, format_args!("umd: {path}: {error}"));
            Ok(DEVICE)
        }
        ShowFault::NoMemory => Err(Fault::NoMemory),
    }
}

/// Prints the status of units, and returns the exit status. A fault if standard output can't be written or memory is
/// refused.
pub fn show_units<R>(
    rt: &R,
    alloc: Global,
    line: &StatusLine<'_>,
    surroundings: Surroundings<'_>,
) -> Result<u8, Fault>
where
    R: Net + Clock + Input + Print + Eprint + Files,
{
    let Some(socket) = told(line.socket, surroundings.socket) else {
        return Ok(lacks_socket(rt));
    };
    let kept = Kept {
        dir: told(line.dir, surroundings.dir),
        output: told(line.output, surroundings.output),
    };
    let asking = Asking::starting(rt, alloc, socket, line.retry, line.timeout);
    match text_of(&asking, kept, line.units.as_slice()) {
        Ok((text, status)) => put_shown(rt, alloc, text.as_str(), status),
        Err(fault) => tell(&asking, &fault),
    }
}
