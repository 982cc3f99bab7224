//! Limits how often one failure is reported: at most ten times a second, then once a second the count of the others.

use std::alloc::{AllocError, Global};
use std::fmt;
use std::time::{Duration, Instant};

/// One failure is reported at most this often within a second.
const MOST: usize = 10;

/// An action for a process that may fail.
#[derive(Clone, Copy, PartialEq, Eq)]
pub enum Deed {
    Start,
    Signal,
}

impl fmt::Display for Deed {
    fn fmt<W: fmt::Write>(&self, f: &mut fmt::Formatter<W>) -> fmt::Result {
        match self {
            Deed::Start => f.write_str("starting"),
            Deed::Signal => f.write_str("signalling"),
        }
    }
}

/// A deed that fails for one reason, of any process.
#[derive(Drop)]
struct Failure {
    deed: Deed,
    why: String,
    /// When it was reported within the last second, the oldest first.
    told: Vec<Instant>,
    /// How often it wasn't reported, since this moment.
    more: u64,
    since: Instant,
}

/// How often a failure wasn't reported.
#[derive(Drop)]
pub struct Count {
    pub deed: Deed,
    pub why: String,
    pub more: u64,
}

/// The failures of the last second.
#[derive(Drop)]
pub struct Repeats {
    alloc: Global,
    failures: Vec<Failure>,
}

/// Whether a second has gone by.
fn is_over(since: Instant, now: Instant) -> bool {
    now.duration_since(since) >= Duration::from_secs(1)
}

impl Failure {
    fn is_of(&self, deed: Deed, why: &str) -> bool {
        self.deed == deed && self.why.as_str() == why
    }

    /// Whether it may be reported now; if not, it is counted.
    fn is_told(&mut self, now: Instant) -> bool {
        self.told.retain(|told| !is_over(*told, now));
        if self.more == 0 && self.told.len() < MOST && self.told.push(now).is_ok() {
            return true;
        }
        if self.more == 0 {
            self.since = now;
        }
        self.more = self.more.saturating_add(1);
        false
    }

    /// Whether its count is to be reported now.
    fn is_due(&self, now: Instant) -> bool {
        self.more > 0 && is_over(self.since, now)
    }

    /// Whether it can be forgotten.
    fn is_past(&self, now: Instant) -> bool {
        self.more == 0 && self.told.iter().all(|told| is_over(*told, now))
    }

    /// Takes the number of times it wasn't reported, and starts the count again.
    fn take_count(&mut self, alloc: Global) -> Result<Count, AllocError> {
        let count = Count {
            deed: self.deed,
            why: String::from_str(alloc, self.why.as_str())?,
            more: self.more,
        };
        self.more = 0;
        Ok(count)
    }
}

impl Repeats {
    /// Without any failure yet.
    pub fn new(alloc: Global) -> Repeats {
        Repeats {
            alloc,
            failures: Vec::new(alloc),
        }
    }

    fn begin(&mut self, deed: Deed, why: &str, now: Instant) -> Result<(), AllocError> {
        let mut told = Vec::new(self.alloc);
        told.push(now)?;
        let failure = Failure {
            deed,
            why: String::from_str(self.alloc, why)?,
            told,
            more: 0,
            since: now,
        };
        self.failures.push(failure)?;
        Ok(())
    }

    /// Whether the failure is to be reported now; if not, it is counted. Without memory for a count it is reported.
    pub fn is_told(&mut self, deed: Deed, why: &str, now: Instant) -> bool {
        self.failures.retain(|failure| !failure.is_past(now));
        let at = self
            .failures
            .iter()
            .position(|failure| failure.is_of(deed, why));
        let Some(at) = at else {
            let _begun = self.begin(deed, why, now);
            return true;
        };
        match self.failures.get_mut(at) {
            Some(failure) => failure.is_told(now),
            None => true,
        }
    }

    /// Whether the count of any failure is still to be reported.
    pub fn is_counting(&self) -> bool {
        self.failures.iter().any(|failure| failure.more > 0)
    }

    /// The next count that is to be reported now.
    pub fn next_due(&mut self, now: Instant) -> Option<Count> {
        let at = self
            .failures
            .iter()
            .position(|failure| failure.is_due(now))?;
        let alloc = self.alloc;
        self.failures.get_mut(at)?.take_count(alloc).ok()
    }
}
