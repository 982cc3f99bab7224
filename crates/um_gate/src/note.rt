//! The note of an event at a gate.
use crate::gate::Open;

/// An event at a gate.
#[derive(Debug, Drop)]
pub enum Note {
    /// An accept, with which connections are open after it.
    Accepted(Open),
    /// A read of a connection, with the bytes that it gave.
    Came {
        number: usize,
        /// The most bytes that were to be read.
        most: usize,
        bytes: Vec<u8>,
    },
    /// A read of a connection that is closed.
    Closed {
        number: usize,
        /// The most bytes that were to be read.
        most: usize,
    },
    /// A write to a connection.
    Wrote {
        number: usize,
        /// All that was offered.
        offered: Vec<u8>,
        /// The bytes that it took of those.
        taken: Vec<u8>,
    },
    /// A connection given up.
    Dropped(usize),
}
