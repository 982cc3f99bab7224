//! A file as a disk, and the bytes that the system keeps of it.
use crate::answers::fails;
use crate::marks::marked_byte;
use std::fs::{File, Files, OpenOptions};
use std::os::unix::fs::MetadataExt;
use std::path::PathBuf;
use std::process::Abort;
use std::test::Fail;
use std::{env, fs, process};
use um_asserts::{same, same_at};
use um_filedisk::{DirectoryLock, FileDisk, FileFault, is_same_place};
use um_sector::{Disk, Sector};

/// A place for a test's file, free of files that an earlier process left there.
fn place(rt: &HostRuntime, name: &str) -> Result<PathBuf, Fail> {
    let path = um_asserts::place(rt, rt.process(), name)?;
    let _ = fs::remove_file(rt, &path);
    Ok(path)
}

/// The first byte of a sector, where a read answers Ok.
fn first_byte<D: Disk>(disk: &mut D, k: usize) -> Option<u8> {
    let mut sector: Sector = [255; 512];
    match disk.read(k, &mut sector) {
        Ok(()) => Some(sector[0]),
        Err(_) => None,
    }
}

/// The text of the fault; None if there is none.
fn said<D: Drop>(
    rt: &(impl AllocGlobal + Files<File = File> + Abort),
    answer: Result<D, FileFault>,
) -> Option<String> {
    match answer {
        Ok(_) => None,
        Err(fault) => Some(fault.to_string(rt.alloc()).expect(rt, "no memory")),
    }
}

/// Asserts that the fault says this; None: that there is none.
fn says<D: Drop>(
    rt: &(impl AllocGlobal + Files<File = File> + Abort),
    answer: Result<D, FileFault>,
    wanted: Option<&str>,
) {
    let said = said(rt, answer);
    same!(rt, said.as_deref(), wanted);
}

/// A sector of 7, with 8 at its begin and 9 at its end.
fn marked() -> Sector {
    let mut sector: Sector = [7; 512];
    sector[0] = 8;
    sector[511] = 9;
    sector
}

/// Makes a file of this many sectors.
fn created<'a, R: Files<File = File> + Abort>(
    rt: &'a R,
    path: &'a str,
    sectors: usize,
) -> FileDisk<'a, R> {
    FileDisk::create(rt, path, sectors).expect(rt, "no disk")
}

/// Opens the file.
fn opened<'a, R: Files<File = File> + Abort>(rt: &'a R, path: &'a str) -> FileDisk<'a, R> {
    FileDisk::open(rt, path).expect(rt, "no disk")
}

/// Asserts the text of the fault of an open; None: that there is none.
fn says_opened(
    rt: &(impl AllocGlobal + Files<File = File> + Abort),
    path: &str,
    wanted: Option<&str>,
) {
    says(rt, FileDisk::open(rt, path), wanted);
}

/// Asserts the text of the fault of an open to read alone; None: that there is none.
fn says_read_only(
    rt: &(impl AllocGlobal + Files<File = File> + Abort),
    path: &str,
    wanted: Option<&str>,
) {
    says(rt, FileDisk::open_read_only(rt, path), wanted);
}

/// Asserts that no file of two sectors is made, for the wanted cause.
fn is_not_made(rt: &(impl AllocGlobal + Files<File = File> + Abort), path: &str, wanted: &str) {
    says(rt, FileDisk::create(rt, path, 2), Some(wanted));
}

/// Asserts how many sectors the disk has.
fn has_sectors<D: Disk>(rt: &impl Abort, disk: &D, count: usize) {
    same!(rt, disk.sectors(), count);
}

/// Asserts the first byte of a sector; None: that it isn't read.
fn begins<D: Disk>(rt: &impl Abort, disk: &mut D, k: usize, byte: Option<u8>) {
    same!(rt, first_byte(disk, k), byte);
}

/// Asserts how many calls the disk took, and how many of them failed.
fn has_counts<R: Files<File = File>>(
    rt: &impl Abort,
    disk: &FileDisk<'_, R>,
    calls: u64,
    failures: u64,
) {
    same!(rt, (disk.calls(), disk.failures()), (calls, failures));
}

/// Writes a marked sector.
fn mark<D: Disk>(rt: &impl Abort, disk: &mut D, k: usize) {
    disk.write(k, &marked()).expect(rt, "not written");
}

/// Syncs the disk.
fn sync<D: Disk>(rt: &impl Abort, disk: &mut D) {
    disk.sync().expect(rt, "not synced");
}

/// Asserts that a write of 6 is refused.
fn takes_no_write<D: Disk>(rt: &(impl AllocGlobal + Abort), disk: &mut D, k: usize) {
    fails(rt, disk.write(k, &[6; 512]));
}

/// Removes the file.
fn remove(rt: &(impl Files + Abort), path: &str) {
    fs::remove_file(rt, path).expect(rt, "not removed");
}

/// Marks the second sector of a disk, and asserts that it has three.
fn mark_second<D: Disk>(rt: &(impl AllocGlobal + Abort), disk: &mut D) {
    has_sectors(rt, disk, 3);
    begins(rt, disk, 2, Some(0));
    mark(rt, disk, 1);
    sync(rt, disk);
    takes_no_write(rt, disk, 3);
    begins(rt, disk, 3, None);
}

/// Makes a disk of three sectors, and marks the second.
fn make_and_mark(rt: &(impl AllocGlobal + Files<File = File> + Abort), path: &str) {
    let mut disk = created(rt, path, 3);
    mark_second(rt, &mut disk);
    has_counts(rt, &disk, 5, 2);
}

/// Asserts that the bytes are those of that disk.
fn are_marked(rt: &impl Abort, bytes: &[u8]) {
    same!(rt, bytes.len(), 1536);
    for (i, byte) in bytes.iter().enumerate() {
        same_at!(rt, *byte, marked_byte(i), i);
    }
}

/// Asserts that the file holds the bytes of that disk.
fn holds_marks(rt: &(impl AllocGlobal + Files<File = File> + Abort), path: &str) {
    let bytes = fs::read(rt, path).expect(rt, "not read");
    are_marked(rt, &bytes);
}

/// Asserts that the second sector is marked.
fn has_mark<D: Disk>(rt: &impl Abort, disk: &mut D) {
    let mut read: Sector = [255; 512];
    disk.read(1, &mut read).expect(rt, "not read");
    same!(rt, read, marked());
}

/// Opens that disk and reads it.
fn open_and_read(rt: &(impl AllocGlobal + Files<File = File> + Abort), path: &str) {
    let mut disk = opened(rt, path);
    has_sectors(rt, &disk, 3);
    has_mark(rt, &mut disk);
    has_counts(rt, &disk, 1, 0);
}

#[test]
fn a_new_file_holds_what_was_written(rt: HostRuntime) -> Result<(), Fail> {
    let path = place(&rt, "new")?;
    make_and_mark(&rt, path.as_str());
    holds_marks(&rt, path.as_str());
    open_and_read(&rt, path.as_str());
    remove(&rt, path.as_str());
    Ok(())
}

const ABSENT: &str = "there is no such file or directory";

const NO_FILE: &str = "what stands there is not a regular file";

/// Asserts that a path with a zero in it is refused by the system.
fn refuses_zero(rt: &(impl AllocGlobal + Files<File = File> + Abort)) {
    let told = said(rt, FileDisk::open(rt, "a\0b")).expect(rt, "no fault");
    let begins = told.as_str().starts_with("the system refused the file: ");
    assert!(rt; begins, "{told}");
}

#[test]
fn what_is_no_file_is_not_opened(rt: HostRuntime) -> Result<(), Fail> {
    let path = place(&rt, "absent")?;
    says_opened(&rt, path.as_str(), Some(ABSENT));
    let folder = env::temp_dir(&rt)?;
    says_opened(&rt, folder.as_str(), Some(NO_FILE));
    refuses_zero(&rt);
    Ok(())
}

const NO_FOLDER: &str = "the system refused the file: Not a directory (os error 20)";

/// Asserts that the file holds this text.
fn holds_text(rt: &(impl AllocGlobal + Files<File = File> + Abort), path: &str, wanted: &str) {
    let text = fs::read_to_string(rt, path).expect(rt, "not read");
    same!(rt, text.as_str(), wanted);
}

/// Asserts that nothing is made in the place of a file, and that nothing is made at the place inside it, nor where it was.
fn nothing_is_made(rt: &(impl AllocGlobal + Files<File = File> + Abort), path: &str, inside: &str) {
    fs::write(rt, path, "stays").expect(rt, "not written");
    is_not_made(rt, path, "something stands there already");
    holds_text(rt, path, "stays");
    // nor inside a file, nor inside a folder that isn't there
    is_not_made(rt, inside, NO_FOLDER);
    remove(rt, path);
    is_not_made(rt, inside, ABSENT);
}

#[test]
fn a_file_is_not_made_where_something_stands(rt: HostRuntime) -> Result<(), Fail> {
    let path = place(&rt, "standing")?;
    let inside = path.join(rt.alloc(), "inside")?;
    nothing_is_made(&rt, path.as_str(), inside.as_str());
    Ok(())
}

/// Asserts that nothing stands at the path.
fn is_free(rt: &(impl Files + Abort), path: &str) {
    let stands = fs::exists(rt, path).expect(rt, "not looked at");
    same!(rt, stands, false);
}

#[test]
fn a_file_that_is_too_long_is_not_made(rt: HostRuntime) -> Result<(), Fail> {
    let path = place(&rt, "long")?;
    let large = FileDisk::create(&rt, path.as_str(), 1 << 54);
    says(&rt, large, Some("no file can hold so many sectors"));
    is_free(&rt, path.as_str());
    Ok(())
}

/// Makes a file of one sector.
fn make_one(rt: &(impl Files<File = File> + Abort), path: &str) {
    let disk = created(rt, path, 1);
    has_sectors(rt, &disk, 1);
}

#[test]
fn a_name_alone_stands_in_the_current_directory(rt: HostRuntime) {
    let number = process::id(rt.process());
    let name = format!(in rt.alloc(); "um_filedisk.{number}.alone").expect(&rt, "no memory");
    make_one(&rt, name.as_str());
    remove(&rt, name.as_str());
}

const IN_USE: &str = "the file is in use";

/// Asserts that a file that is made isn't opened meanwhile.
fn is_in_use_when_made(rt: &(impl AllocGlobal + Files<File = File> + Abort), path: &str) {
    let made = created(rt, path, 1);
    says_opened(rt, path, Some(IN_USE));
    drop(made);
}

/// Asserts that a file that is opened isn't opened again meanwhile.
fn is_in_use_when_opened(rt: &(impl AllocGlobal + Files<File = File> + Abort), path: &str) {
    let disk = opened(rt, path);
    says_opened(rt, path, Some(IN_USE));
    drop(disk);
}

#[test]
fn a_file_has_one_disk_at_a_time(rt: HostRuntime) -> Result<(), Fail> {
    let path = place(&rt, "locked")?;
    is_in_use_when_made(&rt, path.as_str());
    is_in_use_when_opened(&rt, path.as_str());
    says_opened(&rt, path.as_str(), None);
    remove(&rt, path.as_str());
    Ok(())
}

/// Makes a disk of two sectors, the second of which is marked, and which isn't read meanwhile.
fn make_alone(rt: &(impl AllocGlobal + Files<File = File> + Abort), path: &str) {
    let mut made = created(rt, path, 2);
    mark(rt, &mut made, 1);
    says_read_only(rt, path, Some(IN_USE));
    drop(made);
}

/// Asserts that the second of its two sectors is read, and takes no write.
fn keeps_mark<D: Disk>(rt: &(impl AllocGlobal + Abort), disk: &mut D) {
    has_sectors(rt, disk, 2);
    begins(rt, disk, 1, Some(8));
    takes_no_write(rt, disk, 1);
    begins(rt, disk, 1, Some(8));
}

/// Reads that disk alone: it is read by others meanwhile, and isn't opened.
fn read_alone(rt: &(impl AllocGlobal + Files<File = File> + Abort), path: &str) {
    let mut disk = FileDisk::open_read_only(rt, path).expect(rt, "no disk");
    says_opened(rt, path, Some(IN_USE));
    says_read_only(rt, path, None);
    keeps_mark(rt, &mut disk);
    has_counts(rt, &disk, 3, 1);
}

#[test]
fn a_file_that_is_read_alone_takes_no_write(rt: HostRuntime) -> Result<(), Fail> {
    let path = place(&rt, "read")?;
    make_alone(&rt, path.as_str());
    read_alone(&rt, path.as_str());
    says_opened(&rt, path.as_str(), None);
    remove(&rt, path.as_str());
    says_read_only(&rt, path.as_str(), Some(ABSENT));
    let folder = env::temp_dir(&rt)?;
    says_read_only(&rt, folder.as_str(), Some(NO_FILE));
    Ok(())
}

/// Cuts the file, as somebody does who doesn't take the lock.
fn cut(rt: &(impl Files<File = File> + Abort), path: &str, size: u64) {
    let mut options = OpenOptions::new();
    let file = options.write(true).open(rt, path).expect(rt, "no file");
    file.set_len(size).expect(rt, "not cut");
}

/// Asserts that the file has the wanted length, in bytes.
fn has_length(rt: &(impl Files + Abort), path: &str, wanted: u64) {
    let metadata = fs::metadata(rt, path).expect(rt, "no file");
    same!(rt, metadata.len(), wanted);
}

/// Asserts that a disk over two sectors and a part of a third has the two.
fn has_two<D: Disk>(rt: &(impl AllocGlobal + Abort), disk: &mut D) {
    has_sectors(rt, disk, 2);
    begins(rt, disk, 1, Some(5));
    begins(rt, disk, 2, None);
    takes_no_write(rt, disk, 2);
}

/// Asserts that it has one of them once the file is cut inside the other.
fn has_one<D: Disk>(rt: &impl Abort, disk: &mut D) {
    has_sectors(rt, disk, 2);
    begins(rt, disk, 1, None);
    begins(rt, disk, 0, Some(5));
}

/// Opens a file of two sectors and a part of a third, which is cut meanwhile.
fn open_and_cut(rt: &(impl AllocGlobal + Files<File = File> + Abort), path: &str) {
    let mut disk = opened(rt, path);
    has_two(rt, &mut disk);
    same!(rt, disk.failures(), 2);
    has_length(rt, path, 1535);
    cut(rt, path, 1000);
    has_one(rt, &mut disk);
    has_counts(rt, &disk, 5, 3);
}

#[test]
fn a_part_of_a_sector_is_none(rt: HostRuntime) -> Result<(), Fail> {
    let path = place(&rt, "cut")?;
    fs::write(&rt, &path, [5; 1535]).expect(&rt, "not written");
    open_and_cut(&rt, path.as_str());
    remove(&rt, path.as_str());
    Ok(())
}

/// Asserts that neither a write nor a sync is done.
fn takes_nothing<D: Disk>(rt: &(impl AllocGlobal + Abort), disk: &mut D) {
    fails(rt, disk.write(0, &marked()));
    fails(rt, disk.sync());
}

/// Moves the file.
fn rename(rt: &(impl Files + Abort), from: &str, to: &str) {
    fs::rename(rt, from, to).expect(rt, "not moved");
}

/// Moves the file of a disk away, replaces it, moves it back, and cuts it; asserts that the disk takes nothing meanwhile.
fn move_and_cut<D: Disk>(
    rt: &(impl AllocGlobal + Files<File = File> + Abort),
    disk: &mut D,
    path: &str,
    moved: &str,
) {
    // moved away, with another file in its place
    rename(rt, path, moved);
    takes_nothing(rt, disk);
    fs::write(rt, path, [0; 1024]).expect(rt, "not written");
    takes_nothing(rt, disk);
    // and back
    rename(rt, moved, path);
    sync(rt, disk);
    // a sector shorter
    cut(rt, path, 1023);
    takes_nothing(rt, disk);
}

/// Asserts that a disk takes nothing whose file is moved away, replaced, or cut.
fn is_gone(rt: &(impl AllocGlobal + Files<File = File> + Abort), path: &str, moved: &str) {
    let mut disk = created(rt, path, 2);
    mark(rt, &mut disk, 0);
    move_and_cut(rt, &mut disk, path, moved);
    has_counts(rt, &disk, 8, 6);
}

#[test]
fn a_file_that_is_gone_takes_nothing(rt: HostRuntime) -> Result<(), Fail> {
    let path = place(&rt, "gone")?;
    let moved = place(&rt, "moved")?;
    is_gone(&rt, path.as_str(), moved.as_str());
    remove(&rt, path.as_str());
    Ok(())
}

/// Asserts that the file is its owner's alone, and has all its blocks.
fn is_whole(rt: &(impl Files + Abort), path: &str) {
    let about = fs::metadata(rt, path).expect(rt, "no file");
    same!(rt, about.mode() & 0o777, 0o600);
    same!(rt, about.len(), 4608);
    // blocks of 512 bytes, whatever those of the file system are
    assert!(rt; about.blocks() >= 9, "{}", about.blocks());
}

/// Makes a file of nine sectors.
fn make_nine(rt: &(impl Files<File = File> + Abort), path: &str) {
    let disk = created(rt, path, 9);
    is_whole(rt, path);
    drop(disk);
}

#[test]
fn a_new_file_is_its_owners_alone_and_has_no_hole(rt: HostRuntime) -> Result<(), Fail> {
    let path = place(&rt, "mode")?;
    make_nine(&rt, path.as_str());
    remove(&rt, path.as_str());
    Ok(())
}

/// Asserts that two paths lead to one place, or not.
fn is_one(rt: &(impl Files + Abort), path: &str, other: &str, wanted: bool) {
    same!(rt, is_same_place(rt, path, other), wanted);
}

/// Asserts that two names of one file lead to one place.
fn are_names_of_one(rt: &(impl Files<File = File> + Abort), path: &str, other: &str) {
    fs::write(rt, path, "a").expect(rt, "not written");
    fs::hard_link(rt, path, other).expect(rt, "not linked");
    is_one(rt, path, other, true);
    remove(rt, path);
    remove(rt, other);
}

/// The place of the file `one`, by another path.
fn detour(rt: &HostRuntime) -> Result<String, Fail> {
    let folder = env::temp_dir(rt)?;
    let number = process::id(rt.process());
    Ok(format!(in rt.alloc(); "{}/./umd.{number}.one", folder.as_str())?)
}

#[test]
fn two_paths_name_one_place(rt: HostRuntime) -> Result<(), Fail> {
    let path = place(&rt, "one")?;
    let other = place(&rt, "other")?;
    let name = detour(&rt)?;
    // nothing stands there: the same name in the same folder
    is_one(&rt, path.as_str(), name.as_str(), true);
    is_one(&rt, path.as_str(), other.as_str(), false);
    // two names of one file
    are_names_of_one(&rt, path.as_str(), other.as_str());
    Ok(())
}

/// Asserts the text of the fault of a lock of the directory; None: that there is none.
fn says_locked(
    rt: &(impl AllocGlobal + Files<File = File> + Abort),
    path: &str,
    wanted: Option<&str>,
) {
    says(rt, DirectoryLock::take(rt, path), wanted);
}

/// Asserts that a directory that is locked isn't locked again meanwhile.
fn is_locked_once(rt: &(impl AllocGlobal + Files<File = File> + Abort), path: &str) {
    let lock = DirectoryLock::take(rt, path).expect(rt, "not locked");
    says_locked(rt, path, Some(IN_USE));
    drop(lock);
}

#[test]
fn a_directory_is_locked_once(rt: HostRuntime) -> Result<(), Fail> {
    let path = place(&rt, "folder")?;
    fs::create_dir(&rt, &path).expect(&rt, "not made");
    is_locked_once(&rt, path.as_str());
    says_locked(&rt, path.as_str(), None);
    fs::remove_dir(&rt, &path).expect(&rt, "not removed");
    says_locked(&rt, path.as_str(), Some(ABSENT));
    Ok(())
}
