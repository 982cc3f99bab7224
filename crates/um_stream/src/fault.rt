//! Why a stream can't be served.
ghost use Rattle.std.specs.Prelude.{◌≡◌};

use std::alloc::AllocError;
use std::io;

/// Why serving stopped before the end of the input.
#[derive(Debug, Drop)]
pub enum Fault {
    /// The input couldn't be read.
    Read(io::Error),
    /// The output couldn't be written.
    Write(io::Error),
    /// A growth of memory was refused.
    NoMemory,
}

impl From<AllocError> for Fault {
    ghost use Rattle.um_stream.specs.declared.fault.Fault.TheVariants.{NoMemory};

    ghost from_gives = { λ _ e. e ≡ NoMemory };

    fn from(_refused: AllocError) -> Fault {
        Fault::NoMemory
    }
}
