//! The times for which the client waits, and a connection that waits no longer.

ghost use Rattle.std.specs.Prelude.{◌≡◌};

use std::io::{ErrorKind, Read, Write};
use std::os::unix::net::UnixStream;
use std::time::{Clock, Duration, Instant};
use std::{io, thread};

/// The wait between two connections, in milliseconds.
const APART: u64 = 50;

/// How long the client waits, in seconds from its first connection.
#[derive(Clone, Copy, Debug, PartialEq, Eq)]
pub struct Patience {
    /// How long it connects again while nobody is there to read the request. `None`: it doesn't.
    pub retry: Option<u32>,
    /// How long it waits for the reply, retries included. `None`: for ever.
    pub timeout: Option<u32>,
}

/// A patience, and when it began.
#[derive(Clone, Copy)]
pub(crate) struct Waiting {
    pub patience: Patience,
    /// `None` if the system gave no time.
    begun: Option<Instant>,
}

impl Waiting {
    /// Starts to wait now, with this patience.
    pub fn starting<R: Clock>(rt: &R, patience: Patience) -> Waiting
        ensures { result.patience ≡ patience }
    {
        Waiting {
            patience,
            begun: Instant::now(rt).ok(),
        }
    }

    /// How long ago it began.
    fn spent<R: Clock>(self, rt: &R) -> io::Result<Duration> {
        match self.begun {
            Some(begun) => begun.elapsed(rt),
            None => Err(io::Error::from(ErrorKind::Unsupported)),
        }
    }

    /// How much longer to wait for a reply, more than nothing; `None` for ever. `TimedOut` if the time is up.
    fn left<R: Clock>(self, rt: &R) -> io::Result<Option<Duration>> {
        let Some(seconds) = self.patience.timeout else {
            return Ok(None);
        };
        let whole = Duration::from_secs(u64::from(seconds));
        match whole.checked_sub(self.spent(rt)?) {
            Some(left) if !left.is_zero() => Ok(Some(left)),
            _ => Err(io::Error::from(ErrorKind::TimedOut)),
        }
    }

    /// Whether the time for connecting again isn't up.
    pub fn may_retry<R: Clock>(self, rt: &R) -> bool {
        match (self.patience.retry, self.spent(rt)) {
            (Some(seconds), Ok(spent)) => spent < Duration::from_secs(u64::from(seconds)),
            _ => false,
        }
    }

    /// Waits before it connects again. `TimedOut` if the time for the reply is up.
    pub fn pause<R: Clock>(self, rt: &R) -> io::Result<()> {
        let apart = Duration::from_millis(APART);
        let wait = match self.left(rt)? {
            Some(left) => left.min(apart),
            None => apart,
        };
        thread::sleep(rt, wait);
        Ok(())
    }
}

/// A connection whose reads and writes wait no longer than the patience.
#[derive(Drop)]
pub(crate) struct Timed<'a, 'b, R> {
    stream: &'a UnixStream,
    rt: &'b R,
    waiting: Waiting,
    /// Whether a byte was received.
    pub has_heard: bool,
}

impl<'a, 'b, R> Timed<'a, 'b, R> {
    /// A connection over this stream; nothing was received yet.
    pub fn over(stream: &'a UnixStream, rt: &'b R, waiting: Waiting) -> Timed<'a, 'b, R> {
        Timed {
            stream,
            rt,
            waiting,
            has_heard: false,
        }
    }
}

/// The error of a wait that was too long, as `TimedOut`; other errors are unchanged.
fn in_time(error: io::Error) -> io::Error {
    match error.kind() {
        ErrorKind::WouldBlock => io::Error::from(ErrorKind::TimedOut),
        _ => error,
    }
}

impl<'a, 'b, R: Clock> Read for Timed<'a, 'b, R> {
    fn read(&mut self, buf: &mut [u8]) -> io::Result<usize> {
        if let Some(left) = self.waiting.left(self.rt)? {
            self.stream.set_read_timeout(Some(left))?;
        }
        let mut stream = self.stream;
        match stream.read(buf) {
            Ok(count) => {
                self.has_heard |= count > 0;
                Ok(count)
            }
            Err(error) => Err(in_time(error)),
        }
    }
}

impl<'a, 'b, R: Clock> Write for Timed<'a, 'b, R> {
    fn write(&mut self, buf: &[u8]) -> io::Result<usize> {
        if let Some(left) = self.waiting.left(self.rt)? {
            self.stream.set_write_timeout(Some(left))?;
        }
        let mut stream = self.stream;
        match stream.write(buf) {
            Ok(count) => Ok(count),
            Err(error) => Err(in_time(error)),
        }
    }

    fn flush(&mut self) -> io::Result<()> {
        Ok(())
    }
}
