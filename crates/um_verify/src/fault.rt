//! Why unit files can't be read into a tree.

use std::alloc::{AllocError, AllocFailed};
use std::io;
use um_wire::Refusal;

/// Why unit files can't be read into a tree.
#[derive(Drop)]
pub enum VerifyFault {
    /// Two files are the same unit's in the same layer.
    Twice { path: String, other: String },
    /// The file or folder at this path can't be read.
    Read(String, io::Error),
    /// There are more files than a tree may have.
    Refused(Refusal),
    /// An allocation failed.
    NoMemory,
}

impl From<AllocError> for VerifyFault {
    fn from(_refused: AllocError) -> VerifyFault {
        VerifyFault::NoMemory
    }
}

impl<T: Drop> From<AllocFailed<T>> for VerifyFault {
    fn from(_refused: AllocFailed<T>) -> VerifyFault {
        VerifyFault::NoMemory
    }
}

impl From<Refusal> for VerifyFault {
    fn from(refusal: Refusal) -> VerifyFault {
        match refusal {
            Refusal::NoMemory => VerifyFault::NoMemory,
            refusal => VerifyFault::Refused(refusal),
        }
    }
}
