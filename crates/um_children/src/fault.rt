//! Why a call to the children isn't done.
ghost use Rattle.std.specs.Prelude.{◌≡◌};
ghost use Rattle.um_children.specs.Faults.{fault_of, refusal_of};

use std::alloc::{AllocError, AllocFailed};
use std::{fmt, io};
use thiserror::Error;
use um_runner::FolderFault;
use um_wire::Refusal;

/// Why a call to the children isn't done.
#[derive(Clone, Copy, Debug, PartialEq, Eq, Error)]
pub enum ChildFault {
    /// A growth of memory was refused.
    #[error("there is no memory")]
    NoMemory,
    /// The children failed in that call, and counted it.
    #[error("the children failed")]
    Device,
    /// The words and the environment of a start are longer than a process may be given.
    #[error("argument list too long")]
    TooLong,
}

impl From<AllocError> for ChildFault {
    ghost use Rattle.um_children.specs.declared.fault.ChildFault.{ChildFault};

    ghost from_gives = { λ _ fault. fault ≡ ChildFault.NoMemory };

    fn from(_error: AllocError) -> ChildFault {
        ChildFault::NoMemory
    }
}

impl<T: Drop> From<AllocFailed<T>> for ChildFault {
    ghost use Rattle.um_children.specs.declared.fault.ChildFault.{ChildFault};

    ghost from_gives = { λ _ fault. fault ≡ ChildFault.NoMemory };

    fn from(_refused: AllocFailed<T>) -> ChildFault {
        ChildFault::NoMemory
    }
}

impl From<io::Error> for ChildFault {
    ghost use Rattle.um_children.specs.declared.fault.ChildFault.{ChildFault};

    ghost from_gives = { λ _ fault. fault ≡ ChildFault.Device };

    fn from(_error: io::Error) -> ChildFault {
        ChildFault::Device
    }
}

impl From<FolderFault> for ChildFault {
    ghost from_gives = { λ error fault. fault ≡ fault_of error };

    fn from(error: FolderFault) -> ChildFault {
        match error {
            FolderFault::NoMemory => ChildFault::NoMemory,
            FolderFault::System(_) => ChildFault::Device,
        }
    }
}

impl From<ChildFault> for Refusal {
    ghost from_gives = { λ fault refusal. refusal ≡ refusal_of fault };

    fn from(fault: ChildFault) -> Refusal {
        match fault {
            ChildFault::NoMemory => Refusal::NoMemory,
            ChildFault::Device | ChildFault::TooLong => Refusal::Device,
        }
    }
}
