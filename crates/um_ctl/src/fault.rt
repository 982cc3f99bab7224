//! The faults of the client, and their exit statuses.

ghost use Rattle.std.specs.Prelude.{◌≡◌};
ghost use Rattle.um_ctl.specs.View.{fault_of, status_of};

use std::alloc::AllocError;
use std::io;
use um_stream::Fault;

/// Why the client ends without a reply.
#[derive(Debug, Drop)]
pub enum CtlFault {
    /// An unknown verb, another number of arguments, or a mode out of place.
    Usage,
    /// The text of a file has more than 65,536 bytes.
    TooLarge,
    /// The text of a file isn't UTF-8.
    NoText,
    /// Nobody serves the socket.
    NoConnection(io::Error),
    /// The connection was closed before the frame was read whole: the manager has 64 clients, or it ended.
    Unread,
    /// No reply came within this many seconds.
    Late(u32),
    /// Standard input couldn't be read.
    Input(io::Error),
    /// The connection couldn't be read.
    Read(io::Error),
    /// The connection couldn't be written.
    Write(io::Error),
    /// The received bytes are no reply.
    NoReply,
    /// An allocation failed.
    NoMemory,
}

impl CtlFault {
    /// The exit status: 1 refused, 2 wrong words, 4 nobody read the request, 5 reading or writing failed, 6 the time
    /// was up.
    pub fn status(&self) -> u8
        ensures { result ≡ status_of self.now }
    {
        match self {
            CtlFault::TooLarge | CtlFault::NoMemory => 1,
            CtlFault::Usage | CtlFault::NoText => 2,
            CtlFault::NoConnection(_) | CtlFault::Unread => 4,
            CtlFault::Input(_) | CtlFault::Read(_) | CtlFault::Write(_) | CtlFault::NoReply => 5,
            CtlFault::Late(_) => 6,
        }
    }
}

impl From<AllocError> for CtlFault {
    ghost use Rattle.um_ctl.specs.declared.fault.CtlFault.TheVariants.{NoMemory};

    ghost from_gives = { λ _ e. e ≡ NoMemory };

    fn from(_refused: AllocError) -> CtlFault {
        CtlFault::NoMemory
    }
}

/// A fault of the connection.
impl From<Fault> for CtlFault {
    ghost from_gives = { λ fault e. e ≡ fault_of fault };

    fn from(fault: Fault) -> CtlFault {
        match fault {
            Fault::Read(e) => CtlFault::Read(e),
            Fault::Write(e) => CtlFault::Write(e),
            Fault::NoMemory => CtlFault::NoMemory,
        }
    }
}
