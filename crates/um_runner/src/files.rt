//! Small files: read up to a few bytes, and written whole or not at all.

ghost use Rattle.std.specs.Prelude.{◌≡◌, ◌≤◌, length, None, IfOk};

use crate::fault::FolderFault;
use crate::paths::file_path;
use crate::runner_file::RunnerFile;
use std::alloc::Global;
use std::fs::{File, Files, OpenFile, OpenOptions};
use std::io::{ErrorKind, Read, Seek, SeekFrom, Write};
use std::os::unix::fs::OpenOptionsExt;
use std::{fs, io};
use um_model::ProcessNumber;

/// The number of bytes that are read of a file: a few more than the longest text has.
const LIMIT: usize = 16;

/// As long as the longest text of a pid or an end.
const ROOM: &str = "           \n";

/// The beginning of a file: all of it, where it is shorter than `LIMIT`.
#[derive(Clone, Copy, Debug)]
pub struct Beginning {
    bytes: [u8; LIMIT],
    size: usize,
    ghost within: { size ≤ 16 },
}

impl Beginning {
    /// That of a file of which nothing is read.
    const NOTHING: Beginning = Beginning {
        bytes: [0; LIMIT],
        size: 0,
    };

    /// The bytes that were read.
    pub fn bytes(&self) -> &[u8] {
        &self.bytes[..self.size]
    }
}

/// Reads into the buffer until it is full or the file ends, and returns the number of bytes read.
fn fill<F: Read>(file: &mut F, buffer: &mut [u8]) -> io::Result<usize>
    ensures within { IfOk result (λ size. size ≤ length buffer.old) }
    ensures same { length buffer.new ≡ length buffer.old }
{
    let mut size = 0;
    'parts: for _ in 0..u64::MAX {
        if size >= buffer.len() {
            return Ok(size);
        }
        match file.read(&mut buffer[size..]) {
            Ok(0) => return Ok(size),
            Ok(n) => size += n,
            Err(e) => {
                if e.kind() != ErrorKind::Interrupted {
                    return Err(e);
                }
            }
        }
    }
    Err(io::Error::from(ErrorKind::Interrupted))
}

/// Reads the beginning of the file at the path; None where nothing stands there. A file that isn't regular, such as a
/// directory, a link or a pipe, isn't read: nobody waits for a pipe's other end, and no link is followed.
pub fn read_beginning<R: Files>(rt: &R, path: &str) -> io::Result<Option<Beginning>> {
    let about = match fs::symlink_metadata(rt, path) {
        Ok(about) => about,
        Err(e) if e.kind() == ErrorKind::NotFound => return Ok(None),
        Err(e) => return Err(e),
    };
    if !about.is_file() {
        return Ok(Some(Beginning::NOTHING));
    }
    let mut bytes = [0; LIMIT];
    let size = fill(&mut File::open(rt, path)?, &mut bytes)?;
    Ok(Some(Beginning { bytes, size }))
}

/// Reads the beginning of a file of the folder; None where it isn't there. `NoMemory` if memory is wanting, `System` if
/// the system refuses the file.
pub fn read_file<R: Files>(
    rt: &R,
    alloc: Global,
    folder: &str,
    number: ProcessNumber,
    file: RunnerFile,
) -> Result<Option<Beginning>, FolderFault> {
    let path = file_path(alloc, folder, number, file)?;
    Ok(read_beginning(rt, path.as_str())?)
}

/// The number of attempts at a draft. Between two of them one that somebody else made in the meantime is removed.
const TRIES: u32 = 8;

/// A draft holds nothing that isn't shown to anyone who may look into the folder.
const DRAFT_MODE: u32 = 0o666;

/// Removes the file at the path of a draft, or a link and not the file that it leads to.
fn remove_draft<R: Files>(rt: &R, path: &str) -> io::Result<()> {
    match fs::remove_file(rt, path) {
        Err(e) if e.kind() != ErrorKind::NotFound => Err(e),
        Ok(()) | Err(_) => Ok(()),
    }
}

/// Makes a new file of this mode in place of the one there: never one that was there before, nor one that a link leads
/// to.
pub fn make_new<R: Files>(rt: &R, path: &str, mode: u32) -> io::Result<R::File> {
    let mut how = OpenOptions::new();
    how.write(true).create_new(true).mode(mode);
    for _ in 0..TRIES {
        match how.open(rt, path) {
            Err(e) if e.kind() == ErrorKind::AlreadyExists => remove_draft(rt, path)?,
            answer => return answer,
        }
    }
    Err(io::Error::from(ErrorKind::AlreadyExists))
}

/// Makes a draft with its text.
fn make_draft<R: Files>(rt: &R, path: &str, text: &str) -> io::Result<()> {
    make_new(rt, path, DRAFT_MODE)?.write_all(text.as_bytes())
}

/// Makes the draft of a file with room for the longest text, and returns it open: a disk that is full later doesn't
/// refuse the file.
///
/// `NoMemory` if memory is wanting, before the folder is touched; `System` if the folder or its disk refuses the draft.
pub fn reserve<R: Files>(
    rt: &R,
    alloc: Global,
    folder: &str,
    number: ProcessNumber,
    draft: RunnerFile,
) -> Result<R::File, FolderFault> {
    let draft = file_path(alloc, folder, number, draft)?;
    let mut file = make_new(rt, draft.as_str(), DRAFT_MODE)?;
    file.write_all(ROOM.as_bytes())?;
    Ok(file)
}

/// Gives an open draft its text, in the room that it has.
fn fill_room<F: Write + Seek + OpenFile>(draft: &mut F, text: &str) -> io::Result<()> {
    draft.seek(SeekFrom::Start(0))?;
    draft.write_all(text.as_bytes())?;
    draft.set_len(text.len() as u64)
}

/// Gives a file its text, whole: by the draft that is open and has room for it, which is renamed. `NoMemory` if memory
/// is wanting, `System` if the folder refuses it; in both cases the file is as it was.
pub fn replace_by<R: Files>(
    rt: &R,
    alloc: Global,
    folder: &str,
    number: ProcessNumber,
    file: (RunnerFile, RunnerFile),
    room: R::File,
    text: &str,
) -> Result<(), FolderFault> {
    let (file, draft) = file;
    let path = file_path(alloc, folder, number, file)?;
    let draft = file_path(alloc, folder, number, draft)?;
    let mut room = room;
    fill_room(&mut room, text)?;
    Ok(fs::rename(rt, draft.as_str(), path.as_str())?)
}

/// Gives a file its text, whole: by its draft, which is renamed. `NoMemory` if memory is wanting, `System` if the folder
/// or its disk refuses it; in both cases the file is as it was.
pub fn replace_file<R: Files>(
    rt: &R,
    alloc: Global,
    folder: &str,
    number: ProcessNumber,
    file: (RunnerFile, RunnerFile),
    text: &str,
) -> Result<(), FolderFault> {
    let (file, draft) = file;
    let path = file_path(alloc, folder, number, file)?;
    let draft = file_path(alloc, folder, number, draft)?;
    make_draft(rt, draft.as_str(), text)?;
    Ok(fs::rename(rt, draft.as_str(), path.as_str())?)
}

/// The outcome of making a file where none stood.
#[derive(Clone, Copy, Debug, PartialEq, Eq)]
pub enum Creation {
    /// It is new.
    New,
    /// One stood there, which is left as it was.
    Stands,
    /// Its draft was removed meanwhile by another maker of the same file.
    DraftTaken,
}

/// Makes a file with its text, whole, where none stands there: by its draft, to which the file is linked. `NoMemory` if
/// memory is wanting, `System` if the folder or its disk refuses it.
pub fn create_file<R: Files>(
    rt: &R,
    alloc: Global,
    folder: &str,
    number: ProcessNumber,
    file: (RunnerFile, RunnerFile),
    text: &str,
) -> Result<Creation, FolderFault> {
    let (file, draft) = file;
    let path = file_path(alloc, folder, number, file)?;
    let draft = file_path(alloc, folder, number, draft)?;
    make_draft(rt, draft.as_str(), text)?;
    let linked = fs::hard_link(rt, draft.as_str(), path.as_str());
    // A draft that is left costs a name in the folder and nothing else.
    let _left = fs::remove_file(rt, draft.as_str());
    match linked {
        Ok(()) => Ok(Creation::New),
        Err(e) if e.kind() == ErrorKind::AlreadyExists => Ok(Creation::Stands),
        Err(e) if e.kind() == ErrorKind::NotFound => Ok(Creation::DraftTaken),
        Err(e) => Err(FolderFault::System(e)),
    }
}
