//! A directory that one process has at a time.

use crate::fault::FileFault;
use std::fs::{File, Files};

/// The exclusive lock, that of flock(2), on a directory. It is held until it is dropped or its process ends.
#[derive(Drop)]
pub struct DirectoryLock {
    /// Its lock goes when it is closed.
    directory: File,
}

impl DirectoryLock {
    /// Locks the directory at `path`, in which nothing is made or changed.
    ///
    /// `Absent` where nothing stands there, `InUse` where another open of it holds the lock, `System` where the system refuses it.
    pub fn take<R: Files<File = File>>(rt: &R, path: &str) -> Result<DirectoryLock, FileFault> {
        let directory = File::open(rt, path)?;
        directory.try_lock()?;
        Ok(DirectoryLock { directory })
    }
}
