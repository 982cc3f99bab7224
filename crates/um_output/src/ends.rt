//! The lines that record how processes ended.

ghost use Rattle.std.specs.Prelude.{◌≡◌, IfOk, string_bytes};
ghost use Rattle.um_output.specs.Ends as model;

use crate::files::{MODE, is_regular, make_folder, make_new, path_of_name};
use crate::lines::newer_half;
use std::alloc::{AllocError, Global};
use std::fs::{File, Files, OpenFile, OpenOptions};
use std::io::{ErrorKind, Read, Write};
use std::os::unix::fs::OpenOptionsExt;
use std::{fs, io};
use um_model::{End, Fate, Moment, ProcessNumber};

/// How a process ended, or that it never started.
#[derive(Clone, Copy)]
pub enum Ended {
    By(End),
    NotStarted,
}

/// The file of these lines.
const NAME: &str = "ends";

/// The name of its draft.
const DRAFT: &str = "ends.new";

/// If the file is longer than this many bytes, its older half is removed.
const LONGEST: u64 = 65_536;

impl Ended {
    /// The end that a fate reports; `None` if the process hasn't ended.
    pub fn of(fate: Fate) -> Option<Ended>
        ensures { result ≡ model.ended_of fate }
    {
        match fate {
            Fate::Ended(end) => Some(Ended::By(end)),
            Fate::Absent => Some(Ended::NotStarted),
            Fate::Starting | Fate::Executed => None,
        }
    }
}

/// The text of an end in its line.
fn ended_text(alloc: Global, ended: Ended) -> Result<String, AllocError>
    ensures { IfOk result (λ text. string_bytes text ≡ model.ended_text ended) }
{
    match ended {
        Ended::By(End::Code(code)) => format!(in alloc; "code {code}\n"),
        Ended::By(End::Signal(number)) => format!(in alloc; "signal {number}\n"),
        Ended::By(End::Lost) => String::from_str(alloc, "lost\n"),
        Ended::NotStarted => String::from_str(alloc, "not-started\n"),
    }
}

/// The line of an end: the process's number, the moment in microseconds at which the end was reported, and the end.
pub fn end_line(
    alloc: Global,
    number: ProcessNumber,
    moment: Moment,
    ended: Ended,
) -> Result<String, AllocError>
    ensures { IfOk result (λ text. string_bytes text ≡ model.end_line number moment ended) }
{
    let (number, moment) = (number.get(), moment.micros());
    let text = ended_text(alloc, ended)?;
    format!(in alloc; "{number} {moment} {text}")
}

/// The bytes of a file.
fn bytes_of<R: Files>(rt: &R, alloc: Global, path: &str) -> io::Result<Vec<u8>> {
    let mut bytes = Vec::new(alloc);
    File::open(rt, path)?.read_to_end(&mut bytes)?;
    Ok(bytes)
}

/// Replaces a file with the bytes, by way of a draft.
fn replace<R: Files>(rt: &R, path: &str, draft: &str, bytes: &[u8]) -> io::Result<()> {
    make_new(rt, draft)?.write_all(bytes)?;
    fs::rename(rt, draft, path)
}

/// Replaces the file's text with its newer half.
fn halve<R: Files>(rt: &R, alloc: Global, folder: &str, path: &str) -> io::Result<()> {
    let text = bytes_of(rt, alloc, path)?;
    let draft = path_of_name(alloc, folder, DRAFT)?;
    replace(rt, path, draft.as_str(), newer_half(text.as_slice()))
}

/// Opens the file at the path for appending; the file and its folder are made if they don't exist.
fn open_to_add<R: Files>(rt: &R, folder: &str, path: &str) -> io::Result<R::File> {
    let mut how = OpenOptions::new();
    how.append(true).create(true).mode(MODE);
    match how.open(rt, path) {
        Err(fault) if fault.kind() == ErrorKind::NotFound => {
            make_folder(rt, folder)?;
            how.open(rt, path)
        }
        answer => answer,
    }
}

/// Makes the file of the ends in the folder of a unit, if none is there yet.
pub(crate) fn begin_ends<R: Files>(rt: &R, alloc: Global, folder: &str) -> io::Result<()> {
    let path = path_of_name(alloc, folder, NAME)?;
    let path = path.as_str();
    if is_regular(rt, path)? {
        open_to_add(rt, folder, path)?;
    }
    Ok(())
}

/// Appends the line to the file at the path, and returns the file's length.
fn add_line<R: Files>(rt: &R, folder: &str, path: &str, line: &str) -> io::Result<u64> {
    let mut file = open_to_add(rt, folder, path)?;
    file.write_all(line.as_bytes())?;
    Ok(file.metadata()?.len())
}

/// Appends the line to the ends at the path.
fn add_to<R: Files>(rt: &R, alloc: Global, folder: &str, path: &str, line: &str) -> io::Result<()> {
    // anything but a regular file is left as it is: opening a pipe would wait
    if !is_regular(rt, path)? {
        return Ok(());
    }
    if add_line(rt, folder, path, line)? > LONGEST {
        halve(rt, alloc, folder, path)
    } else {
        Ok(())
    }
}

/// Appends the line to the ends in the folder of a unit, and removes their older half if they are too long.
pub(crate) fn add_end<R: Files>(rt: &R, alloc: Global, folder: &str, line: &str) -> io::Result<()> {
    let path = path_of_name(alloc, folder, NAME)?;
    add_to(rt, alloc, folder, path.as_str(), line)
}
