//! A socket at which a gate is woken.

use mio::net::UnixListener;
use std::io;
use std::io::ErrorKind;

/// The most connections that are closed at once.
const MOST: usize = 64;

/// A socket at which a gate is woken: each connection to it is closed at once, and nothing is read.
#[derive(Drop)]
pub(crate) struct News {
    listener: UnixListener,
    /// As many were closed as are at once: another one may wait that no event reports any more.
    has_more: bool,
    /// Why none could be closed at the last look, whether any waited or not.
    fault: Option<io::Error>,
}

/// Why no connection can be closed; None if none waits.
fn fault_of(error: io::Error) -> Option<io::Error> {
    match error.kind() {
        ErrorKind::WouldBlock | ErrorKind::Interrupted | ErrorKind::ConnectionAborted => None,
        _ => Some(error),
    }
}

impl News {
    /// The socket, of which no connection was closed yet.
    pub fn of(listener: UnixListener) -> News {
        News {
            listener,
            has_more: false,
            fault: None,
        }
    }

    /// Whether another one may wait that no event reports.
    pub fn has_more(&self) -> bool {
        self.has_more
    }

    /// Why none could be closed at the last look, whether any waited or not. It is returned once.
    pub fn take_fault(&mut self) -> Option<io::Error> {
        self.fault.take()
    }

    /// Closes the connections that wait, 64 at most, and returns whether there was any.
    pub fn take(&mut self) -> bool {
        self.has_more = false;
        self.fault = None;
        for count in 0..MOST {
            match self.listener.accept() {
                Ok(connection) => drop(connection),
                Err(error) => {
                    self.fault = fault_of(error);
                    return count > 0;
                }
            }
        }
        self.has_more = true;
        true
    }
}
