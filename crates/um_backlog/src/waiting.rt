//! The bytes that wait for one client.
ghost use Rattle.std.specs.Prelude.{◌≡◌, ◌≤◌, ◌++◌, ◌∷◌, [], List, ℕ, drop, take, length, true, false, OnErr, OnOk, ◌≢◌};
ghost use Rattle.um_gate.specs.Frames.{KeepsGate};
ghost use Rattle.um_backlog.specs.Backlog.{Waits, nothing, given_up, is_behind, is_given_up, writes, Hands};
ghost use Rattle.um_gate.specs.Events.{Event, dropped, Logs};

use std::alloc::{AllocError, Global};
use std::marker::Model;
use um_gate::Gate;

/// The most bytes that wait for a client: with more the connection is given up.
const MOST_WAITING: usize = 64 << 20;

/// While more bytes than this wait for a client, nothing is read of it.
const MOST_UNREAD: usize = 4 << 20;

/// Room past this many bytes is given back once nothing waits in it.
const KEPT_ROOM: usize = 64 << 10;

/// The bytes that wait for one client.
#[derive(Drop)]
pub struct Waiting {
    alloc: Global,
    bytes: Vec<u8>,
    /// The number of them that are taken.
    at: usize,
    /// No bytes follow them.
    is_last: bool,
    /// The connection was given up: nothing more is written to it, until it is reported closed.
    is_over: bool,
}

impl Model for Waiting {
    ghost Value = { Waits };

    ghost view = { λ w. record { bytes = drop w.at w.bytes.items; is_last = w.is_last; is_over = w.is_over } };

    ghost invariant = { λ w. w.at ≤ length w.bytes.items };
}

impl Waiting {
    /// No bytes, and no memory taken.
    pub fn new(alloc: Global) -> Waiting
        ensures { result ≡ nothing }
    {
        Waiting {
            alloc,
            bytes: Vec::new(alloc),
            at: 0,
            is_last: false,
            is_over: false,
        }
    }

    /// Its client is gone, and another one may connect.
    pub fn forget(&mut self)
        ensures { self.new ≡ nothing }
    {
        self.clear();
        self.is_last = false;
        self.is_over = false;
    }

    /// Nothing waits any more. Much room is given back.
    fn clear(&mut self)
        ensures { self.new ≡ record self.old { bytes = [] } }
    {
        if self.bytes.capacity() > KEPT_ROOM {
            self.bytes = Vec::new(self.alloc);
        } else {
            self.bytes.clear();
        }
        self.at = 0;
    }

    /// Gives back the place of the bytes taken, once they are half of those held: so no more bytes are moved than were
    /// taken.
    fn pack(&mut self)
        ensures { self.new ≡ self.old }
    {
        if self.at >= self.bytes.len() - self.at {
            self.bytes.drain(..self.at);
            self.at = 0;
        }
    }

    /// Adds bytes after those that wait; if they find no memory none of them is added.
    fn push(&mut self, mut bytes: Vec<u8>) -> Result<(), AllocError>
        ensures ok { OnOk result (self.new ≡ record self.old { bytes = self.old.bytes ++ bytes.items }) }
        ensures err { OnErr result ((self.old.bytes ≢ []) × (bytes.items ≢ [])) }
        ensures same { OnErr result (self.new ≡ self.old) }
    {
        if bytes.is_empty() {
            return Ok(());
        }
        if self.at == self.bytes.len() {
            self.bytes = bytes;
            self.at = 0;
            return Ok(());
        }
        self.pack();
        self.bytes.append(&mut bytes)
    }

    /// Gives the connection up: drops the bytes that wait, and has the gate drop the connection.
    fn give_up<G: Gate>(&mut self, gate: &mut G, number: usize)
        ensures value { self.new ≡ given_up }
        ensures past { Logs (G.honest gate.old) (G.whole gate.new) (G.past gate.old) (G.past gate.new) (dropped number ∷ []) }
        ensures gate { KeepsGate G.Gate gate.old gate.new }
    {
        gate.drop_connection(number);
        self.clear();
        self.is_last = true;
        self.is_over = true;
    }

    /// Hands to the gate as many bytes as it takes.
    fn write<G: Gate>(&mut self, gate: &mut G, number: usize)
        ensures taken { (taken : List ℕ) × (taken ++ self.new.bytes ≡ self.old.bytes)
            × Logs (G.honest gate.old) (G.whole gate.new) (G.past gate.old) (G.past gate.new) (writes number self.old.bytes taken) }
        ensures is_last { self.new.is_last ≡ self.old.is_last }
        ensures is_over { self.new.is_over ≡ self.old.is_over }
        ensures gate { KeepsGate G.Gate gate.old gate.new }
    {
        if self.at < self.bytes.len() {
            self.at += gate.write(number, &self.bytes[self.at..]);
        }
    }

    /// Whether too much waits for its client to read more of it.
    pub fn is_behind(&self) -> bool
        ensures { result ≡ is_behind self.now }
    {
        self.bytes.len() - self.at > MOST_UNREAD
    }

    /// Whether its client is to be given up now.
    fn is_done(&self) -> bool
        ensures { result ≡ is_given_up self.now.is_last self.now.bytes }
    {
        let left = self.bytes.len() - self.at;
        if left == 0 {
            self.is_last
        } else {
            left > MOST_WAITING
        }
    }

    /// Where nothing waits any more, much room is given back.
    fn settle(&mut self)
        ensures { self.new ≡ self.old }
    {
        if self.bytes.len() - self.at == 0 {
            self.clear();
        }
    }

    /// Puts bytes out for its client; with `is_last` none follow them. The gate is handed as many as it takes. A client
    /// is given up if too many bytes wait for it then, if none wait and none follow, and if its bytes find no memory.
    pub fn put<G: Gate>(&mut self, gate: &mut G, number: usize, bytes: Vec<u8>, is_last: bool)
        ensures hands { (events : List Event) × Hands number self.old bytes.items is_last events self.new
            × Logs (G.honest gate.old) (G.whole gate.new) (G.past gate.old) (G.past gate.new) events }
        ensures gate { KeepsGate G.Gate gate.old gate.new }
    {
        if self.is_over {
            return;
        }
        self.is_last = is_last;
        match self.push(bytes) {
            Ok(()) => {}
            Err(_) => {
                self.give_up(gate, number);
                return;
            }
        }
        self.write(gate, number);
        if self.is_done() {
            self.give_up(gate, number);
            return;
        }
        self.settle();
    }
}
