//! The faults of output.

use std::io;
use thiserror::Error;
use um_model::ProcessNumber;

/// An action that failed for the output of a process, or of a whole unit.
#[derive(Drop)]
pub struct Failure {
    pub number: Option<ProcessNumber>,
    pub error: io::Error,
}

/// Why a folder of output can't be opened.
#[derive(Debug, Drop, Error)]
pub enum OpenFault {
    /// It is another store's: it has output of the process of this number, and of none of a greater one.
    #[error("it is another store's")]
    Foreign(u64),
    /// The system refuses it.
    #[error("{0}")]
    System(io::Error),
}

impl From<io::Error> for OpenFault {
    fn from(error: io::Error) -> OpenFault {
        OpenFault::System(error)
    }
}
