//! The socket by which runners wake a manager that serves.

use crate::places::lacks;
use std::alloc::Global;
use std::fs::Files;
use std::io;
use std::io::ErrorKind;
use std::net::Net;
use std::time::{Duration, Instant};
use um_gate::SocketGate;

/// The interval at which the socket is checked, in milliseconds.
const APART: u64 = 500;

/// The socket in the folder of processes by which runners wake the manager.
#[derive(Drop)]
pub struct Waking {
    path: String,
    /// The time of the last check.
    looked: Option<Instant>,
    /// A failure was reported, and no check since succeeded.
    is_told: bool,
}

impl Waking {
    /// Makes the socket at the path, for this gate. If that fails, says so and returns the exit status.
    pub fn open<R: Files + Net, E: Eprint>(
        rt: &R,
        alloc: Global,
        lines: &E,
        gate: &mut SocketGate,
        path: String,
    ) -> Result<Waking, u8> {
        match gate.open_news(rt, alloc, path.as_str()) {
            Ok(()) => Ok(Waking {
                path,
                looked: None,
                is_told: false,
            }),
            Err(fault) => Err(lacks(lines, path.as_str(), &fault)),
        }
    }

    /// Whether it is to be checked now.
    fn is_due(&self, now: Instant) -> bool {
        match self.looked {
            Some(looked) => now.duration_since(looked) >= Duration::from_millis(APART),
            None => true,
        }
    }

    /// Says that no runner can wake the manager, and why, once until that works again. The loss of the folder is
    /// reported elsewhere.
    fn tell<E: Eprint>(&mut self, lines: &E, fault: &io::Error) {
        if self.is_told || fault.kind() == ErrorKind::NotFound {
            return;
        }
        let path = self.path.as_str();
        let _unheard = eprintln!(lines;
            "umd: {path}: {fault}: runners wake nobody there, and what they tell is noticed within a second"
        );
        self.is_told = true;
    }

    /// Makes the socket again if it was removed, and reports a failure, unless it was checked just now.
    pub fn keep<R: Files + Net, E: Eprint>(
        &mut self,
        rt: &R,
        alloc: Global,
        lines: &E,
        gate: &mut SocketGate,
        now: Instant,
    ) {
        if !self.is_due(now) {
            return;
        }
        self.looked = Some(now);
        if let Err(fault) = gate.keep_news(rt, alloc, self.path.as_str()) {
            return self.tell(lines, &fault);
        }
        match gate.news_fault() {
            Some(fault) => self.tell(lines, fault),
            None => self.is_told = false,
        }
    }
}
