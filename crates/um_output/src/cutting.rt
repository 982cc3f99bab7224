//! Cuts a file that is too long, and keeps the last of it beside it.

use crate::files::{Part, make_new, path_of, remove};
use crate::reading::{copy_up_to, room};
use std::alloc::Global;
use std::fs::{Files, OpenFile, OpenOptions};
use std::io::{Seek, SeekFrom};
use std::{fs, io};
use um_model::ProcessNumber;

/// Copies up to `size` bytes of a file, from its current place, to a new one at the path.
fn copy_to_new<R: Files>(
    rt: &R,
    file: &mut R::File,
    size: u64,
    path: &str,
    room: &mut [u8],
) -> io::Result<()> {
    let mut draft = make_new(rt, path)?;
    copy_up_to(file, &mut draft, size, room)
}

/// Copies the last `size` bytes of a file, which has this length, to a new one at the path.
fn copy_last<R: Files>(
    rt: &R,
    alloc: Global,
    file: &mut R::File,
    length: u64,
    size: u64,
    path: &str,
) -> io::Result<()> {
    let mut room = room(alloc)?;
    file.seek(SeekFrom::Start(length.saturating_sub(size)))?;
    copy_to_new(rt, file, size, path, room.as_mut_slice())
}

/// Replaces the file at `old` with the last `size` bytes of a file, by way of a draft.
fn replace_old<R: Files>(
    rt: &R,
    alloc: Global,
    file: &mut R::File,
    size: u64,
    draft: &str,
    old: &str,
) -> io::Result<()> {
    let length = file.metadata()?.len();
    match copy_last(rt, alloc, file, length, size, draft) {
        Ok(()) => fs::rename(rt, draft, old),
        Err(fault) => {
            // if this fails, the rest of the draft is removed at an opening
            let _left = remove(rt, draft);
            Err(fault)
        }
    }
}

/// Keeps the last `size` bytes of a number's file beside it.
fn keep_last<R: Files>(
    rt: &R,
    alloc: Global,
    folder: &str,
    number: ProcessNumber,
    file: &mut R::File,
    size: u64,
) -> io::Result<()> {
    let draft = path_of(alloc, folder, number, Part::Draft)?;
    let old = path_of(alloc, folder, number, Part::Old)?;
    replace_old(rt, alloc, file, size, draft.as_str(), old.as_str())
}

/// Opens a file that is to be cut.
fn open_whole<R: Files>(rt: &R, path: &str) -> io::Result<R::File> {
    OpenOptions::new().read(true).write(true).open(rt, path)
}

/// Keeps the last `size` bytes of a number's file beside it, and cuts the file to nothing. Its writer appends, and so
/// goes on. The file is cut too if they can't be kept, as on a full disk, which would stay full.
pub(crate) fn cut<R: Files>(
    rt: &R,
    alloc: Global,
    folder: &str,
    number: ProcessNumber,
    size: u64,
) -> io::Result<()> {
    let path = path_of(alloc, folder, number, Part::Printed)?;
    let mut file = open_whole(rt, path.as_str())?;
    let kept = keep_last(rt, alloc, folder, number, &mut file, size);
    file.set_len(0).and(kept)
}
