//! A disk in a regular file.
ghost use Rattle.std.specs.Prelude.{◌≡◌, ◌≢◌, ◌↔◌, ◌*◌, ◌/◌, ◌^◌, ◌≤◌, [], false, true, IfSome, IsNone, IfOk, IsOk, IfErr, IsErrOf, IsTrue};
ghost use Rattle.std.proofs.lemmas.Bool.{false≢true};
ghost use Rattle.um_sector.specs.Runs.{CountsFailure};
ghost use Rattle.um_model.specs.Disk.{one_more};

use crate::fault::FileFault;
use crate::place::directory_of;
use std::fs::{File, Files, Metadata, OpenOptions, Permissions};
use std::os::unix::fs::{FileExt, MetadataExt, OpenOptionsExt, PermissionsExt};
use std::{fs, io};
use um_sector::{Disk, Fault, Sector};

/// A disk in a regular file, sector after sector from its beginning. Bytes past the last whole sector are no part of
/// the disk. Its exclusive lock, that of flock(2), is held until it is dropped or its process ends.
///
/// It is the file at its path for as long as it is used. Once another file or none stands there, or the file was cut,
/// each write and sync fails.
///
/// No contract can say which bytes a file gives back. So `honest` isn't claimed of it, and of the clauses of `Disk`
/// only those on counts and on which sectors are there say something here. That a file follows the disk model is a
/// premise of the proofs above.
#[derive(Drop)]
pub struct FileDisk<'a, R> {
    rt: &'a R,
    path: &'a str,
    file: File,
    /// The identity of the file when it was opened.
    identity: Identity,
    /// The whole sectors that the file had when it was opened.
    sectors: usize,
    /// Each write is a fault.
    is_read_only: bool,
    calls: u64,
    failures: u64,
    ghost addressed: { sectors ≤ 2 ^ 55 },
}

/// The identity of a file: no other file has the same as long as it is open.
#[derive(Clone, Copy, PartialEq, Eq)]
struct Identity {
    device: u64,
    inode: u64,
}

/// The bytes of a sector.
const SECTOR_BYTES: u64 = 512;

/// The number of bytes that are zeroed at once.
const RUN_BYTES: u64 = 4096;

/// The owner alone reads and writes a store, which holds the environment of services.
const MODE: u32 = 0o600;

fn identity_of(about: &Metadata) -> Identity {
    Identity {
        device: about.dev(),
        inode: about.ino(),
    }
}

/// The number of whole sectors in a length in bytes.
fn sectors_in(length: u64) -> usize
    ensures { result ≡ length / 512 }
{
    (length / SECTOR_BYTES) as usize
}

/// The length in bytes of a file of this many sectors. None if it would pass the longest file, 2^63 - 1 bytes.
fn length_of(sectors: usize) -> Option<u64>
    ensures length { IfSome result (λ length. length ≡ sectors * 512) }
    ensures too_large { IsNone result ↔ 2 ^ 54 ≤ sectors }
{
    if sectors < 1 << 54 {
        Some(sectors as u64 * SECTOR_BYTES)
    } else {
        None
    }
}

/// Makes the name of a new file durable: fsync(2) of the file alone doesn't.
pub(crate) fn sync_directory<R: Files<File = File>>(rt: &R, path: &str) -> io::Result<()> {
    File::open(rt, directory_of(path))?.sync_all()
}

/// Writes `length` zeros from the beginning of a file on.
fn write_zeros(file: &File, length: u64) -> io::Result<()> {
    let zeros = [0; RUN_BYTES as usize];
    for run in 0..length / RUN_BYTES {
        file.write_all_at(&zeros, run * RUN_BYTES)?;
    }
    let rest = length % RUN_BYTES;
    file.write_all_at(&zeros[..rest as usize], length - rest)
}

/// Locks a new file, which its owner alone may read and write, writes all of its zeros, and makes both the file and its
/// name durable. Returns the file's identity.
fn fill<R: Files<File = File>>(
    rt: &R,
    path: &str,
    file: &File,
    length: u64,
) -> Result<Identity, FileFault>
    ensures { IfErr result (λ fault. fault ≢ FileFault.TooLarge) }
{
    file.try_lock()?;
    // the mode that it was made with lacks the bits that the umask takes
    file.set_permissions(Permissions::from_mode(MODE))?;
    // a length that the system doesn't grant is refused here, before anything is written
    file.set_len(length)?;
    write_zeros(file, length)?;
    file.sync_all()?;
    sync_directory(rt, path)?;
    Ok(identity_of(&file.metadata()?))
}

impl<'a, R: Files<File = File>> FileDisk<'a, R> {
    /// Opens the file at `path` and locks it. Its length divided by 512, rounded down, is its count of sectors.
    ///
    /// `Absent` where nothing stands there, `NotAFile` where it is no regular file, `InUse` where another open of it holds the
    /// lock, `System` where the system refuses it. The file is left as it was.
    pub fn open(rt: &'a R, path: &'a str) -> Result<FileDisk<'a, R>, FileFault>
        ensures counts { IfOk result (λ disk. (disk.calls ≡ 0) × (disk.failures ≡ 0)) }
        ensures never_too_large { IfErr result (λ fault. fault ≢ FileFault.TooLarge) }
    {
        let file = OpenOptions::new().read(true).write(true).open(rt, path)?;
        file.try_lock()?;
        FileDisk::locked(rt, path, file, false)
    }

    /// Opens the file at `path` to be read alone, and locks it against those that `open` it; others may read it at the same time. Its count of
    /// sectors is that of `open`, and its faults are those of `open`. Each write is a fault.
    pub fn open_read_only(rt: &'a R, path: &'a str) -> Result<FileDisk<'a, R>, FileFault>
        ensures read_only { IfOk result (λ disk. disk.is_read_only ≡ true) }
        ensures counts { IfOk result (λ disk. (disk.calls ≡ 0) × (disk.failures ≡ 0)) }
        ensures never_too_large { IfErr result (λ fault. fault ≢ FileFault.TooLarge) }
    {
        // opening a pipe would wait until somebody writes it
        if !fs::metadata(rt, path)?.is_file() {
            return Err(FileFault::NotAFile);
        }
        let file = File::open(rt, path)?;
        file.try_lock_shared()?;
        FileDisk::locked(rt, path, file, true)
    }

    /// The disk over a file that was opened at `path` and is locked.
    fn locked(
        rt: &'a R,
        path: &'a str,
        file: File,
        is_read_only: bool,
    ) -> Result<FileDisk<'a, R>, FileFault>
        ensures read_only { IfOk result (λ disk. disk.is_read_only ≡ is_read_only) }
        ensures counts { IfOk result (λ disk. (disk.calls ≡ 0) × (disk.failures ≡ 0)) }
        ensures never_too_large { IfErr result (λ fault. fault ≢ FileFault.TooLarge) }
    {
        // read with the lock held, so that nobody else who takes the lock changes the length any more
        let about = file.metadata()?;
        if !about.is_file() {
            return Err(FileFault::NotAFile);
        }
        Ok(FileDisk {
            rt,
            path,
            file,
            identity: identity_of(&about),
            sectors: sectors_in(about.len()),
            is_read_only,
            calls: 0,
            failures: 0,
        })
    }

    /// Makes a new file of `sectors` sectors of zeros at `path`, which its owner alone may read and write (mode 600),
    /// and locks it. All of its sectors are written, so that the disk has room for them. At Ok the file and its name
    /// are durable.
    ///
    /// `Exists` where something stands there, which is left as it was; `TooLarge` from 2^54 sectors on; `Absent` where
    /// there is no such directory; `InUse` where another open took the lock first; `System` where the system refuses
    /// it, for example if the disk has no room. A new file that can't be finished is removed.
    pub fn create(rt: &'a R, path: &'a str, sectors: usize) -> Result<FileDisk<'a, R>, FileFault>
        ensures size { IfOk result (λ disk. disk.sectors ≡ sectors) }
        ensures counts { IfOk result (λ disk. (disk.calls ≡ 0) × (disk.failures ≡ 0)) }
        ensures too_large { IsErrOf result FileFault.TooLarge ↔ 2 ^ 54 ≤ sectors }
    {
        let Some(length) = length_of(sectors) else {
            return Err(FileFault::TooLarge);
        };
        let file = OpenOptions::new()
            .read(true)
            .write(true)
            .create_new(true)
            .mode(MODE)
            .open(rt, path)?;
        match fill(rt, path, &file, length) {
            Ok(identity) => Ok(FileDisk {
                rt,
                path,
                file,
                identity,
                sectors,
                is_read_only: false,
                calls: 0,
                failures: 0,
            }),
            Err(fault) => {
                let _ = fs::remove_file(rt, path);
                Err(fault)
            }
        }
    }

    /// Whether the file stands at its path still, and has all of its sectors.
    fn is_there(&self) -> bool {
        match fs::metadata(self.rt, self.path) {
            Ok(about) => {
                identity_of(&about) == self.identity && self.sectors <= sectors_in(about.len())
            }
            Err(_) => false,
        }
    }

    /// Whether a write is passed to the system.
    fn takes_writes(&self) -> bool
        ensures { self.now.is_read_only ≡ true → result ≡ false }
    {
        !self.is_read_only && self.is_there()
    }

    /// How many disk calls were made since it was opened, the failed ones included. It stays at its last value.
    pub fn calls(&self) -> u64
        ensures { result ≡ self.now.calls }
    {
        self.calls
    }

    /// How many disk calls failed since it was opened. It stays at its last value.
    pub fn failures(&self) -> u64
        ensures { result ≡ self.now.failures }
    {
        self.failures
    }

    /// Where sector `k` begins in the file, in bytes. None where there is no such sector.
    fn place_of(&self, k: usize) -> Option<u64>
        ensures place { IfSome result (λ place. place ≡ k * 512) }
        ensures absent { IsNone result ↔ self.now.sectors ≤ k }
    {
        if k < self.sectors {
            Some(k as u64 * SECTOR_BYTES)
        } else {
            None
        }
    }

    /// Counts a call, and its failure where it wasn't done.
    fn count(&mut self, is_done: bool) -> Result<(), Fault>
        ensures ok { IsOk result ↔ IsTrue is_done }
        ensures calls { self.new.calls ≡ one_more self.old.calls }
        ensures failures { CountsFailure result self.old.failures self.new.failures }
        ensures sectors { self.new.sectors ≡ self.old.sectors }
    {
        self.calls = self.calls.saturating_add(1);
        if is_done {
            return Ok(());
        }
        self.failures = self.failures.saturating_add(1);
        Err(Fault)
    }
}

impl<'a, R: Files<File = File>> Disk for FileDisk<'a, R> {
    // No clause reads it, since nothing is claimed of the bytes in the file.
    ghost past = { λ _. record { start = λ _. []; calls = [] } };

    ghost size = { λ disk. disk.sectors };

    ghost calls = { λ disk. disk.calls };

    ghost failures = { λ disk. disk.failures };

    ghost honest = { λ _. false };

    ghost seen_is_image = { λ _ never. absurd (false≢true never) };

    fn sectors(&self) -> usize {
        self.sectors
    }

    /// A file that was cut meanwhile, and a read that the system refuses, is a fault too.
    fn read(&mut self, k: usize, sector: &mut Sector) -> Result<(), Fault> {
        let is_done = match self.place_of(k) {
            Some(place) => self.file.read_exact_at(sector, place).is_ok(),
            None => false,
        };
        self.count(is_done)
    }

    /// A write that the system refuses is a fault too. So is each write to a file that was opened to be read alone, and
    /// to one that isn't at its path any more or was cut, which the write would make longer again.
    fn write(&mut self, k: usize, sector: &Sector) -> Result<(), Fault> {
        let is_done = match self.place_of(k) {
            Some(place) => self.takes_writes() && self.file.write_all_at(sector, place).is_ok(),
            None => false,
        };
        self.count(is_done)
    }

    /// A sync that the system refuses is a fault. So is a sync of a file that isn't at its path any more or was cut:
    /// writes to it would be lost.
    fn sync(&mut self) -> Result<(), Fault> {
        let is_done = self.file.sync_data().is_ok() && self.is_there();
        self.count(is_done)
    }
}
