//! Why the file of a disk can't be used.
ghost use Rattle.std.specs.Prelude.{◌≢◌};
ghost use Rattle.um_filedisk.specs.declared.fault.FileFault.{FileFault};

use std::fs::TryLockError;
use std::io;
use std::io::ErrorKind;
use thiserror::Error;

/// Why a file can't be taken as a disk.
#[derive(Debug, Drop, Error)]
pub enum FileFault {
    /// Nothing stands at the path, or its directory is missing.
    #[error("there is no such file or directory")]
    Absent,
    /// A file was to be created where something stands.
    #[error("something stands there already")]
    Exists,
    /// The path names no regular file.
    #[error("what stands there is not a regular file")]
    NotAFile,
    /// Another open of the file holds its lock.
    #[error("the file is in use")]
    InUse,
    /// A file was to be created with 2^54 sectors or more: its length would pass 2^63 - 1 bytes.
    #[error("no file can hold so many sectors")]
    TooLarge,
    /// The system refused for another cause, which is shown.
    #[error("the system refused the file: {0}")]
    System(io::Error),
}

impl From<io::Error> for FileFault {
    ghost from_gives = { λ _ fault. fault ≢ FileFault.TooLarge };

    fn from(error: io::Error) -> FileFault {
        match error.kind() {
            ErrorKind::NotFound => FileFault::Absent,
            ErrorKind::AlreadyExists => FileFault::Exists,
            ErrorKind::IsADirectory => FileFault::NotAFile,
            _ => FileFault::System(error),
        }
    }
}

impl From<TryLockError> for FileFault {
    ghost from_gives = { λ _ fault. fault ≢ FileFault.TooLarge };

    fn from(error: TryLockError) -> FileFault {
        match error {
            TryLockError::WouldBlock => FileFault::InUse,
            TryLockError::Error(error) => FileFault::from(error),
        }
    }
}
