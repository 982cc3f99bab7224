//! The backlog of the clients of a gate.
ghost use Rattle.std.specs.Prelude.{◌≡◌, ◌≢◌, ℕ, List, length, replicate, slice_get, IfOk};
ghost use Rattle.um_gate.specs.Frames.{KeepsGate};
ghost use Rattle.um_backlog.specs.Backlog.{Waits, nothing, gone, is_behind_at, HandsAt};
ghost use Rattle.um_gate.specs.Events.{Event, Logs};

use crate::waiting::Waiting;
use std::alloc::{AllocError, Global};
use std::marker::Model;
use um_gate::{CONNECTIONS, Gate};

/// What waits for each client, by the numbers of their connections.
#[derive(Drop)]
pub struct Backlog {
    waiting: Vec<Waiting>,
}

impl Model for Backlog {
    ghost Value = { List Waits };

    ghost view = { λ b. b.waiting.items };

    ghost invariant = { λ b. length b.waiting.items ≡ 64 };
}

impl Backlog {
    /// A backlog in which no bytes wait for any client. Refused only for want of memory.
    pub fn new(alloc: Global) -> Result<Backlog, AllocError>
        ensures { IfOk result (λ backlog. backlog ≡ replicate 64 nothing) }
    {
        let mut waiting = Vec::with_capacity(alloc, CONNECTIONS)?;
        for _ in 0..CONNECTIONS {
            waiting.push(Waiting::new(alloc))?;
        }
        Ok(Backlog { waiting })
    }

    /// The client of a connection is gone, and another one may come.
    pub fn forget(&mut self, number: usize)
        ensures gone { slice_get self.new number ≡ gone (slice_get self.old number) }
        ensures others { (other : ℕ) → other ≢ number → slice_get self.new other ≡ slice_get self.old other }
    {
        if number < CONNECTIONS {
            self.waiting[number].forget();
        }
    }

    /// Whether more than 4 MiB wait for a client, so that nothing is to be read of it.
    pub fn is_behind(&self, number: usize) -> bool
        ensures { result ≡ is_behind_at (slice_get self.now number) }
    {
        match self.waiting.get(number) {
            Some(waiting) => waiting.is_behind(),
            None => false,
        }
    }

    /// Puts bytes out for a client; with `is_last` none follow them. The gate is handed as many as it takes.
    pub fn put<G: Gate>(&mut self, gate: &mut G, number: usize, bytes: Vec<u8>, is_last: bool)
        ensures hands { (events : List Event) × HandsAt number (slice_get self.old number) bytes.items is_last events (slice_get self.new number)
            × Logs (G.honest gate.old) (G.whole gate.new) (G.past gate.old) (G.past gate.new) events }
        ensures others { (other : ℕ) → other ≢ number → slice_get self.new other ≡ slice_get self.old other }
        ensures gate { KeepsGate G.Gate gate.old gate.new }
    {
        if number < CONNECTIONS {
            self.waiting[number].put(gate, number, bytes, is_last);
        }
    }
}
