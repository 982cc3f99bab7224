//! The trait of the clients of a manager.
ghost use Rattle.std.specs.Prelude.{◌≡◌, ◌≤◌, ◌∷◌, [], List, Bool, IsTrue, length, take, vec_capacity};
ghost use Rattle.um_gate.specs.Events.{Event, accepted, read, wrote, dropped, came, Logs};

/// The most connections that are open.
pub const CONNECTIONS: usize = 64;

/// The most bytes that a read gives.
pub const MOST_BYTES: usize = 4096;

/// Which connections are open, by their numbers 0 to 63.
#[derive(Clone, Copy, Debug)]
pub struct Open {
    pub is_open: [bool; CONNECTIONS],
}

/// The clients of a manager, each under the number of its connection. The behaviour is described by one list of events.
///
/// The clauses on the list stand under `honest`, and under `whole`, since a gate that keeps its list may find no memory
/// for an event. No call takes memory otherwise, and none waits. A connection that fails is closed.
pub trait Gate {
    /// The accepts, reads and writes, the oldest first.
    ghost past: { Self → List Event };

    /// No event is missing from the list.
    ghost whole: { Self → Bool };

    /// It does what it answers.
    ghost honest: { Self → Bool };

    /// Takes one client if one waits, under the least number that is free, and returns which connections are open. If
    /// none is free the client's connection is closed unread.
    fn accept(&mut self) -> Open
        ensures past { Logs (honest self.old) (whole self.new) (past self.old) (past self.new) (accepted result.is_open ∷ []) }
        ensures whole { IsTrue (whole self.new) → IsTrue (whole self.old) }
        ensures honest { honest self.new ≡ honest self.old };

    /// Reads the bytes that are there, `most` at most, and returns whether the connection is open still. The rest stays
    /// there: with `most` 0 all of it. A connection that was dropped, or failed in a write, is reported closed here,
    /// whatever `most` is.
    fn read(&mut self, number: usize, most: usize, bytes: &mut Vec<u8>) -> bool
        requires empty { bytes.old.items ≡ [] }
        requires few { most ≤ MOST_BYTES }
        requires room { most ≤ vec_capacity bytes.old }
        ensures past { Logs (honest self.old) (whole self.new) (past self.old) (past self.new) (read number most (came result bytes.new.items) ∷ []) }
        ensures bound { length bytes.new.items ≤ most }
        ensures whole { IsTrue (whole self.new) → IsTrue (whole self.old) }
        ensures honest { honest self.new ≡ honest self.old };

    /// Takes some of these bytes, from the first on, and returns how many.
    fn write(&mut self, number: usize, bytes: &[u8]) -> usize
        ensures bound { result ≤ length bytes.now }
        ensures past { Logs (honest self.old) (whole self.new) (past self.old) (past self.new) (wrote number bytes.now (take result bytes.now) ∷ []) }
        ensures whole { IsTrue (whole self.new) → IsTrue (whole self.old) }
        ensures honest { honest self.new ≡ honest self.old };

    /// Gives a connection up: nothing more is read of it or written to it, and its next read reports it closed.
    fn drop_connection(&mut self, number: usize)
        ensures past { Logs (honest self.old) (whole self.new) (past self.old) (past self.new) (dropped number ∷ []) }
        ensures whole { IsTrue (whole self.new) → IsTrue (whole self.old) }
        ensures honest { honest self.new ≡ honest self.old };
}
