//! A file as a disk of sectors: each call and each failure is counted, and a lock keeps every other disk off the file. A lock on a directory, and
//! whether two paths name one place.
#![tactic(auto)]

mod fault;
mod file;
mod lock;
mod place;

pub use fault::FileFault;
pub use file::FileDisk;
pub use lock::DirectoryLock;
pub use place::is_same_place;
