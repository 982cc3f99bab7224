//! Why a call to the children through runners isn't done, for an operator.

use std::alloc::{AllocError, AllocFailed};
use std::{fmt, io};
use thiserror::Error;
use um_runner::FolderFault;

/// The cause of a failure.
#[derive(Debug, Drop, Error)]
pub enum Cause {
    /// The system refused the folder, or a file in it.
    #[error("{0}")]
    Folder(io::Error),
    /// The system refused a shell, by which processes are started and signalled.
    #[error("{0}")]
    Shell(io::Error),
    /// The process is there, and the shell's `kill` failed.
    #[error("it can't be signalled")]
    Unsignalled,
    /// The runner's program isn't there, or nobody can execute it.
    #[error("the runner can't be executed")]
    Runner,
    /// The folder has files of processes that this store never started.
    #[error("it is another store's")]
    Foreign,
}

impl Cause {
    /// Whether a process is there that can't be signalled.
    pub fn is_unsignalled(&self) -> bool {
        matches!(self, Cause::Unsignalled)
    }
}

/// Why a call isn't done.
#[derive(Debug, Drop)]
pub(crate) enum Trouble {
    /// A growth of memory was refused.
    NoMemory,
    Failed(Cause),
}

impl Trouble {
    /// Whether it is the process itself that can't be signalled: another try would fail as this one did.
    pub(crate) fn is_of_the_process(&self) -> bool {
        matches!(self, Trouble::Failed(Cause::Unsignalled))
    }
}

impl From<AllocError> for Trouble {
    fn from(_refused: AllocError) -> Trouble {
        Trouble::NoMemory
    }
}

impl<T: Drop> From<AllocFailed<T>> for Trouble {
    fn from(_refused: AllocFailed<T>) -> Trouble {
        Trouble::NoMemory
    }
}

impl From<io::Error> for Trouble {
    fn from(error: io::Error) -> Trouble {
        Trouble::Failed(Cause::Folder(error))
    }
}

impl From<FolderFault> for Trouble {
    fn from(fault: FolderFault) -> Trouble {
        match fault {
            FolderFault::NoMemory => Trouble::NoMemory,
            FolderFault::System(error) => Trouble::Failed(Cause::Folder(error)),
        }
    }
}
