//! The places that a server uses: its store, the folder of its processes, its socket, and the output folder.

use crate::endings::tell_ending;
use std::alloc::Global;
use std::fmt::Display;
use std::fs::{File, Files};
use std::net::Net;
use std::os::unix::fs::PermissionsExt;
use std::path::Path;
use std::process::Processes;
use std::time::{Clock, Duration};
use std::{fs, thread};
use um_children::{OpenFault, RunnerDir, take_folder};
use um_filedisk::{DirectoryLock, FileDisk, FileFault, is_same_place};
use um_gate::look_at_socket;
use um_line::{DEVICE, REFUSED, ServeLine, USAGE};
use um_runner::news_path;
use um_wire::Refusal;

/// How often a lock that another process has is tried in all. A manager that is killed while it starts a process
/// leaves its locks, for a moment, to the child that was to become that process.
const TRIES: u32 = 10;

/// The interval between two tries, in milliseconds.
const APART: u64 = 20;

/// The greatest length in bytes of the path of the folder of processes. The socket in it appends eleven bytes while
/// it is made, and a socket's path has at most 107.
const LONGEST_DIR: usize = 96;

/// The bits of a mode.
const MODE: u32 = 0o7777;

/// The bits by which a group or others write.
const OTHERS_WRITE: u32 = 0o022;

/// The sticky bit.
const STICKY: u32 = 0o1000;

/// A place, named by the word of the command line that gives it.
#[derive(Clone, Copy)]
struct Place<'a> {
    word: &'static str,
    path: &'a str,
}

/// The places that a server holds before its store is opened.
#[derive(Drop)]
pub struct Taken<'a, R: Files + Processes + Clock> {
    pub disk: FileDisk<'a, R>,
    pub children: RunnerDir<'a, R>,
    /// While it is held, no other manager has the folder.
    pub lock: DirectoryLock,
    /// The same of the output folder, if there is one.
    pub output_lock: Option<DirectoryLock>,
}

/// Says that something required isn't there, and returns the exit status.
pub fn lacks<R: Eprint, E: Display>(rt: &R, path: &str, fault: &E) -> u8 {
    let _unheard = eprintln!(rt; "umd: {path}: {fault}");
    DEVICE
}

/// Checks that two places differ: by the texts of their paths, then by the files at them. The error is the exit
/// status: 2 for equal texts, 5 for one file at both.
fn are_apart<R: Files, E: Eprint>(
    rt: &R,
    lines: &E,
    first: Place<'_>,
    second: Place<'_>,
) -> Result<(), u8> {
    let status = if Path::new(first.path) == Path::new(second.path) {
        USAGE
    } else if is_same_place(rt, first.path, second.path) {
        DEVICE
    } else {
        return Ok(());
    };
    let (one, other, path) = (first.word, second.word, first.path);
    let _unheard = eprintln!(lines; "umd: {one} and {other} name one place: {path}");
    Err(status)
}

/// The path of the socket by which runners wake the manager. Without memory for it, says so and returns the exit
/// status.
pub fn news_in<E: Eprint>(alloc: Global, lines: &E, dir: &str) -> Result<String, u8> {
    match news_path(alloc, dir) {
        Ok(path) => Ok(path),
        Err(_) => {
            tell_ending(lines, &Refusal::NoMemory);
            Err(REFUSED)
        }
    }
}

/// Checks that the output folder, if there is one, differs from this place.
fn is_output_apart<R: Files, E: Eprint>(
    rt: &R,
    lines: &E,
    output: Option<&str>,
    other: Place<'_>,
) -> Result<(), u8> {
    let Some(path) = output else {
        return Ok(());
    };
    let output = Place {
        word: "--output",
        path,
    };
    are_apart(rt, lines, output, other)
}

/// Sees that store, folder, socket and the folder of output are four places, and the socket in the folder by which runners wake the manager another one.
fn are_all_apart<R: Files, E: Eprint>(
    rt: &R,
    lines: &E,
    alloc: Global,
    line: &ServeLine<'_>,
) -> Result<(), u8> {
    let socket = Place {
        word: "--socket",
        path: line.socket,
    };
    let folder = Place {
        word: "--dir",
        path: line.dir,
    };
    let store = Place {
        word: "FILE",
        path: line.file,
    };
    are_apart(rt, lines, socket, store)?;
    are_apart(rt, lines, folder, store)?;
    are_apart(rt, lines, socket, folder)?;
    let path = news_in(alloc, lines, line.dir)?;
    let news = Place {
        word: "the socket in --dir",
        path: path.as_str(),
    };
    are_apart(rt, lines, socket, news)?;
    are_apart(rt, lines, store, news)?;
    is_output_apart(rt, lines, line.output, store)?;
    is_output_apart(rt, lines, line.output, folder)?;
    is_output_apart(rt, lines, line.output, socket)?;
    is_output_apart(rt, lines, line.output, news)
}

/// Waits until the next try.
fn wait<R: Clock>(rt: &R) {
    thread::sleep(rt, Duration::from_millis(APART));
}

/// Opens the store's file and locks it; where another has its lock it is tried again.
fn open_disk<'a, R: Files<File = File> + Clock>(
    rt: &'a R,
    path: &'a str,
) -> Result<FileDisk<'a, R>, FileFault> {
    for _ in 1..TRIES {
        match FileDisk::open(rt, path) {
            Err(FileFault::InUse) => wait(rt),
            opened => return opened,
        }
    }
    FileDisk::open(rt, path)
}

/// Opens the store's file to be read alone; where a manager has its lock it is tried again. Refused as
/// `FileDisk::open_read_only` is.
pub fn open_read_only<'a, R: Files<File = File> + Clock>(
    rt: &'a R,
    path: &'a str,
) -> Result<FileDisk<'a, R>, FileFault> {
    for _ in 1..TRIES {
        match FileDisk::open_read_only(rt, path) {
            Err(FileFault::InUse) => wait(rt),
            opened => return opened,
        }
    }
    FileDisk::open_read_only(rt, path)
}

/// Takes the folder's lock; where another has it, it is tried again.
fn take_lock<R: Files<File = File> + Clock>(
    rt: &R,
    path: &str,
) -> Result<DirectoryLock, FileFault> {
    for _ in 1..TRIES {
        match DirectoryLock::take(rt, path) {
            Err(FileFault::InUse) => wait(rt),
            taken => return taken,
        }
    }
    DirectoryLock::take(rt, path)
}

/// Locks the folder of processes, so that no second manager has it.
fn lock_folder<R: Files<File = File> + Clock, E: Eprint>(
    rt: &R,
    lines: &E,
    path: &str,
) -> Result<DirectoryLock, u8> {
    match take_lock(rt, path) {
        Ok(lock) => Ok(lock),
        Err(FileFault::InUse) => Err(lacks(lines, path, &"another manager has this folder")),
        Err(fault) => Err(lacks(lines, path, &fault)),
    }
}

/// Locks the folder of processes, and checks that the socket in it by which runners wake the manager is free.
fn take_free_folder<R: Files<File = File> + Net + Clock, E: Eprint>(
    rt: &R,
    lines: &E,
    alloc: Global,
    dir: &str,
) -> Result<DirectoryLock, u8> {
    if dir.len() > LONGEST_DIR {
        return Err(lacks(
            lines,
            dir,
            &"its path is longer than 96 bytes, and a socket stands in it",
        ));
    }
    let lock = lock_folder(rt, lines, dir)?;
    let news = news_in(alloc, lines, dir)?;
    match look_at_socket(rt, news.as_str()) {
        Ok(()) => Ok(lock),
        Err(fault) => Err(lacks(lines, news.as_str(), &fault)),
    }
}

/// Checks that the socket is free, and takes the folder and its lock.
fn take_processes<'a, R, E>(
    rt: &'a R,
    lines: &E,
    alloc: Global,
    line: &ServeLine<'a>,
) -> Result<(RunnerDir<'a, R>, DirectoryLock), u8>
where
    R: Files<File = File> + Net + Processes + Clock,
    E: Eprint,
{
    if let Err(fault) = look_at_socket(rt, line.socket) {
        return Err(lacks(lines, line.socket, &fault));
    }
    let children = match RunnerDir::open(rt, alloc, line.runner, line.dir) {
        Ok(children) => children,
        Err(fault) => return Err(lacks(lines, line.dir, &fault)),
    };
    match take_free_folder(rt, lines, alloc, line.dir) {
        Ok(lock) => Ok((children, lock)),
        Err(status) => {
            drop(children);
            Err(status)
        }
    }
}

/// Says why the output folder can't be taken, and returns the exit status.
fn lacks_output<R: Eprint>(rt: &R, path: &str, fault: &OpenFault) -> u8 {
    match fault {
        OpenFault::Owner => lacks(rt, path, &"the folder of output is another user's"),
        OpenFault::Writable => lacks(rt, path, &"others may write the folder of output"),
        fault => lacks(rt, path, fault),
    }
}

/// Takes the output folder and its lock, if there is one.
fn take_output<R: Files<File = File> + Clock, E: Eprint>(
    rt: &R,
    lines: &E,
    output: Option<&str>,
) -> Result<Option<DirectoryLock>, u8> {
    let Some(path) = output else {
        return Ok(None);
    };
    if let Err(fault) = take_folder(rt, path) {
        return Err(lacks_output(lines, path, &fault));
    }
    Ok(Some(lock_folder(rt, lines, path)?))
}

/// Takes both folders and their locks, and checks that the socket is free.
fn take_folders<'a, R, E>(
    rt: &'a R,
    lines: &E,
    alloc: Global,
    line: &ServeLine<'a>,
) -> Result<(RunnerDir<'a, R>, DirectoryLock, Option<DirectoryLock>), u8>
where
    R: Files<File = File> + Net + Processes + Clock,
    E: Eprint,
{
    let output_lock = take_output(rt, lines, line.output)?;
    match take_processes(rt, lines, alloc, line) {
        Ok((children, lock)) => Ok((children, lock, output_lock)),
        Err(status) => {
            drop(output_lock);
            Err(status)
        }
    }
}

/// Warns if others than its owner may write the file or folder at the path. With `is_safe_if_sticky` it doesn't warn if
/// the sticky bit is set: then nobody else may replace the files of a folder.
fn tell_writable<R: Files, E: Eprint>(rt: &R, lines: &E, path: &str, is_safe_if_sticky: bool) {
    let Ok(found) = fs::metadata(rt, path) else {
        return;
    };
    let mode = found.permissions().mode() & MODE;
    if mode & OTHERS_WRITE == 0 || (is_safe_if_sticky && mode & STICKY != 0) {
        return;
    }
    let _unheard = eprintln!(lines; "umd: {path}: others may write it (mode {mode:o})");
}

/// The folder that the socket stands in.
fn folder_of(socket: &str) -> &str {
    match Path::new(socket).parent().and_then(Path::to_str) {
        Some(folder) if !folder.is_empty() => folder,
        _ => ".",
    }
}

/// Takes the store's file and the folders, and checks that the socket is free. If one of them can't be had, says so
/// and returns the exit status; nothing of the store, or of the files in the folders, was read or changed.
pub fn take_places<'a, R, E>(
    rt: &'a R,
    lines: &E,
    alloc: Global,
    line: &ServeLine<'a>,
) -> Result<Taken<'a, R>, u8>
where
    R: Files<File = File> + Net + Processes + Clock,
    E: Eprint,
{
    are_all_apart(rt, lines, alloc, line)?;
    let disk = match open_disk(rt, line.file) {
        Ok(disk) => disk,
        Err(fault) => return Err(lacks(lines, line.file, &fault)),
    };
    match take_folders(rt, lines, alloc, line) {
        Ok((children, lock, output_lock)) => {
            tell_writable(rt, lines, line.file, false);
            tell_writable(rt, lines, folder_of(line.socket), true);
            Ok(Taken {
                disk,
                children,
                lock,
                output_lock,
            })
        }
        Err(status) => {
            drop(disk);
            Err(status)
        }
    }
}
