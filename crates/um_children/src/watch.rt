//! Whether any file arrived in the folder since the last look.

use std::fs::Files;
use std::io::ErrorKind;
use std::time::{Clock, Duration, Instant, SystemTime};
use std::{fs, io};

/// A folder's time that is younger than this doesn't count: the clock of the files goes on in steps of up to 10 ms, so
/// the next file may have the same time.
const YOUNG_MILLIS: u128 = 20;

/// The milliseconds after which the files are read again if the folder's time is one of whole seconds, as some file
/// systems give only those.
const OLD_MILLIS: u128 = 1_000;

/// The milliseconds after which they are read again whatever that time is.
const AGED_MILLIS: u128 = 60_000;

/// The folder's time as it was seen.
#[derive(Clone, Copy, Debug)]
pub struct Watch {
    /// At the last look; None where it was too young, or couldn't be seen.
    time: Option<SystemTime>,
    /// How often a file may have arrived.
    changes: u64,
    /// When the files were to be read last.
    read: Option<Instant>,
    /// At the last look there was no such folder.
    is_gone: bool,
}

fn folder_time<R: Files>(rt: &R, folder: &str) -> io::Result<SystemTime> {
    fs::metadata(rt, folder)?.modified()
}

/// The folder's time, where it isn't young.
fn settled_time<R: Files + Clock>(rt: &R, folder: &str) -> io::Result<Option<SystemTime>> {
    // read first, so that the time may only look younger than it is
    let now = SystemTime::now(rt)?;
    let time = folder_time(rt, folder)?;
    let is_old = match now.duration_since(time) {
        Ok(age) => age.as_millis() >= YOUNG_MILLIS,
        Err(_) => false,
    };
    Ok(if is_old { Some(time) } else { None })
}

/// Whether the time is one of whole seconds: the folder's may be the same again after more files arrived.
fn is_coarse(time: SystemTime) -> bool {
    match time.duration_since(SystemTime::UNIX_EPOCH) {
        Ok(since) => since.subsec_nanos() == 0,
        Err(_) => true,
    }
}

/// Whether files that were read so long ago have to be read again, where this is the folder's time.
fn is_old(age: Duration, time: SystemTime) -> bool {
    let most = if is_coarse(time) {
        OLD_MILLIS
    } else {
        AGED_MILLIS
    };
    age.as_millis() >= most
}

impl Watch {
    /// Nothing was seen yet.
    pub const NEW: Watch = Watch {
        time: None,
        changes: 0,
        read: None,
        is_gone: false,
    };

    /// How often a file may have arrived in the folder.
    pub fn changes(&self) -> u64 {
        self.changes
    }

    /// Whether there was no such folder at the last look.
    pub fn is_gone(&self) -> bool {
        self.is_gone
    }

    /// Whether the files were read too long ago to go by the folder's time, where that is this one.
    fn is_overdue<R: Clock>(&self, rt: &R, time: SystemTime) -> bool {
        match (self.read, Instant::now(rt)) {
            (Some(read), Ok(now)) => is_old(now.duration_since(read), time),
            _ => true,
        }
    }

    /// Whether a file may have arrived since the last look. If the folder's time can't be seen, one may have.
    pub fn has_changed<R: Files + Clock>(&self, rt: &R, folder: &str) -> bool {
        match (self.time, folder_time(rt, folder)) {
            // it wasn't young at that look, so each file since has a later time, if the file system's times are fine
            (Some(seen), Ok(time)) => time != seen || self.is_overdue(rt, time),
            _ => true,
        }
    }

    /// Whether files that were read before have to be read again, where this is the folder's time.
    fn has_to_read<R: Clock>(&self, rt: &R, time: Option<SystemTime>) -> bool {
        match time {
            Some(time) => self.time != Some(time) || self.is_overdue(rt, time),
            None => true,
        }
    }

    /// Looks at the folder's time: files that were read before have to be read again, unless it is as at the last look and they were read within a
    /// minute, or within a second where it is one of whole seconds.
    pub fn look<R: Files + Clock>(&mut self, rt: &R, folder: &str) {
        let seen = settled_time(rt, folder);
        self.is_gone = match &seen {
            Ok(_) => false,
            Err(error) => error.kind() == ErrorKind::NotFound,
        };
        let time = seen.unwrap_or(None);
        if self.has_to_read(rt, time) {
            self.changes = self.changes.wrapping_add(1);
            self.read = match Instant::now(rt) {
                Ok(now) => Some(now),
                Err(_) => None,
            };
        }
        self.time = time;
    }
}
