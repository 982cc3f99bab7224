//! Why a file of a process can't be used.
ghost use Rattle.std.specs.Prelude.{◌≡◌};

use std::alloc::AllocError;
use std::io;
use thiserror::Error;

/// Why a file of the folder couldn't be read or made.
#[derive(Debug, Drop, Error)]
pub enum FolderFault {
    /// A growth of memory was refused.
    #[error("no memory")]
    NoMemory,
    /// The system refused, for the cause shown.
    #[error("{0}")]
    System(io::Error),
}

impl From<AllocError> for FolderFault {
    ghost use Rattle.um_runner.specs.declared.fault.FolderFault.TheVariants.{NoMemory};

    ghost from_gives = { λ _ fault. fault ≡ NoMemory };

    fn from(_refused: AllocError) -> FolderFault {
        FolderFault::NoMemory
    }
}

impl From<io::Error> for FolderFault {
    ghost use Rattle.um_runner.specs.declared.fault.FolderFault.TheVariants.{System};

    ghost from_gives = { λ error fault. fault ≡ System error };

    fn from(error: io::Error) -> FolderFault {
        FolderFault::System(error)
    }
}
