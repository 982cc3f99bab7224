//! Why a store can't be created.
ghost use Rattle.std.specs.Prelude.{◌≡◌};
ghost use Rattle.um_create.specs.Statuses.{fault_of, status_of};

use thiserror::Error;
use um_filedisk::FileFault;
use um_wire::Refusal;

/// Why no store was made.
#[derive(Debug, Drop, Error)]
pub enum CreateFault {
    /// Something stands at the path, which is left as it was.
    #[error("E11 Exists")]
    Exists,
    /// The file couldn't be made.
    #[error("{0}")]
    File(FileFault),
    /// The store couldn't be written; the new file is removed.
    #[error("{0}")]
    Store(Refusal),
}

impl CreateFault {
    /// The exit status: 1 where it was refused, 5 where the file or the disk failed.
    pub fn status(&self) -> u8
        ensures { result ≡ status_of self.now }
    {
        match self {
            CreateFault::Exists => 1,
            CreateFault::File(_) => 5,
            CreateFault::Store(Refusal::NoMemory) => 1,
            CreateFault::Store(_) => 5,
        }
    }
}

impl From<FileFault> for CreateFault {
    ghost from_gives = { λ fault e. e ≡ fault_of fault };

    fn from(fault: FileFault) -> CreateFault {
        match fault {
            FileFault::Exists => CreateFault::Exists,
            fault => CreateFault::File(fault),
        }
    }
}
