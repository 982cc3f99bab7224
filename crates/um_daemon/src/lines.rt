//! Standard error of a manager that serves, which never waits for it.

use mio::unix::SourceFd;
use mio::{Events, Interest, Poll, Token};
use std::alloc::Global;
use std::cell::{Cell, RefCell};
use std::fmt::Display;
use std::io;
use std::io::ErrorKind;
use std::net::Net;
use std::time::Duration;
use um_line::shown_line;

/// The descriptor of standard error.
const STANDARD_ERROR: i32 = 2;

/// A longer line is cut to this many bytes: a pipe that takes anything takes 4,096 bytes at once.
const LONGEST: usize = 4_000;

/// The front of the line that goes out.
fn cut(line: &str) -> &str {
    // a character has at most four bytes
    for end in [LONGEST, LONGEST - 1, LONGEST - 2, LONGEST - 3] {
        if let Some(front) = line.get(..end) {
            return front;
        }
    }
    line
}

/// How to find out whether standard error takes a line at once.
#[derive(Drop)]
enum Readiness {
    /// It is a file: it always takes a line, and no event is available for it.
    Always,
    /// It is polled. The poll was made at the start, since later there may be no descriptor for one.
    Asked { poll: Poll, events: Events },
    /// Even at the start there was no descriptor for a poll, or no memory.
    Unknown,
}

impl Readiness {
    fn new<R: Net>(rt: &R, alloc: Global) -> Readiness {
        let (Ok(poll), Ok(events)) = (Poll::new(rt), Events::with_capacity(alloc, 1)) else {
            return Readiness::Unknown;
        };
        let mut source = SourceFd(&STANDARD_ERROR);
        match poll
            .registry()
            .register(&mut source, Token(0), Interest::WRITABLE)
        {
            Ok(()) => Readiness::Asked { poll, events },
            Err(_) => Readiness::Always,
        }
    }

    /// Whether standard error takes a line now. It is registered again for each line, since an event says only once
    /// that it takes one.
    fn takes_line(&mut self) -> bool {
        let Readiness::Asked { poll, events } = self else {
            return matches!(self, Readiness::Always);
        };
        let mut source = SourceFd(&STANDARD_ERROR);
        let asked = poll
            .registry()
            .reregister(&mut source, Token(0), Interest::WRITABLE);
        asked.is_ok() && poll.poll(events, Some(Duration::ZERO)).is_ok() && !events.is_empty()
    }
}

/// Standard error of a manager that serves. A line that it doesn't take at once is dropped, and the next one that goes out says how many were.
#[derive(Drop)]
pub struct Lines<'a, R> {
    rt: &'a R,
    alloc: Global,
    readiness: RefCell<Readiness>,
    dropped: Cell<u64>,
}

impl<'a, R: Net + Eprint> Lines<'a, R> {
    /// No line was dropped yet.
    pub fn new(rt: &'a R, alloc: Global) -> Lines<'a, R> {
        Lines {
            rt,
            alloc,
            readiness: RefCell::new(Readiness::new(rt, alloc)),
            dropped: Cell::new(0),
        }
    }

    fn takes_line(&self) -> bool {
        match self.readiness.try_borrow_mut() {
            Ok(mut readiness) => readiness.takes_line(),
            Err(_) => false,
        }
    }

    /// Puts the line, where it is taken at once.
    fn put(&self, line: &str) -> io::Result<()> {
        if !self.takes_line() {
            return Err(io::Error::from(ErrorKind::WouldBlock));
        }
        let line = cut(line);
        eprintln!(self.rt; "{line}")
    }

    /// Says how many lines were dropped, if any were.
    fn put_dropped(&self) -> io::Result<()> {
        let count = self.dropped.get();
        if count == 0 {
            return Ok(());
        }
        let line = format!(in self.alloc;
            "umd: {count} lines were dropped here, since standard error took none"
        )?;
        self.put(line.as_str())?;
        self.dropped.set(0);
        Ok(())
    }

    fn put_shown<D: Display + Drop>(&self, line: D) -> io::Result<()> {
        let line = shown_line(self.alloc, line)?;
        self.put_dropped()?;
        self.put(line.as_str())
    }
}

impl<'a, R: Net + Eprint> Eprint for Lines<'a, R> {
    fn eprint<D: Display + Drop>(&self, value: D) -> io::Result<()> {
        self.eprintln(value)
    }

    fn eprintln<D: Display + Drop>(&self, value: D) -> io::Result<()> {
        let put = self.put_shown(value);
        if put.is_err() {
            self.dropped.set(self.dropped.get().saturating_add(1));
        }
        put
    }
}
