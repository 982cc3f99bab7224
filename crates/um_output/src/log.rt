//! Prints the output of a unit's processes.

use crate::files::{OutputFile, Part, files_in, is_folder, length_of, path_of, path_of_name};
use crate::lines::{behind_feeds, feeds_in};
use crate::reading::{next_piece, room};
use crate::showing::{open_end, printed};
use std::alloc::{AllocError, AllocFailed, Global};
use std::fs::{File, Files};
use std::io::{ErrorKind, Read, Seek, SeekFrom, Write};
use std::{io, mem};
use um_model::ProcessNumber;

/// Why the output can't be printed.
#[derive(Drop)]
pub enum LogFault {
    /// There is no folder of the unit.
    Absent,
    /// The file or folder at this path can't be read.
    Read(String, io::Error),
    /// The output can't be written.
    Write(io::Error),
    /// An allocation failed.
    NoMemory,
}

impl From<AllocError> for LogFault {
    fn from(_refused: AllocError) -> LogFault {
        LogFault::NoMemory
    }
}

impl<T: Drop> From<AllocFailed<T>> for LogFault {
    fn from(_refused: AllocFailed<T>) -> LogFault {
        LogFault::NoMemory
    }
}

/// How far the file of a number was printed.
#[derive(Clone, Copy)]
struct Place {
    number: ProcessNumber,
    length: u64,
}

/// The output of a unit, while it is printed.
#[derive(Drop)]
pub struct Log<'a, R: Files, W: Write + Drop> {
    rt: &'a R,
    alloc: Global,
    /// The folder of the unit.
    folder: String,
    /// Each byte is printed as it is.
    is_raw: bool,
    output: W,
    /// The number of line feeds still to be skipped before anything is printed.
    skipped: u64,
    /// The beginning of a character whose rest may follow.
    held: Vec<u8>,
    places: Vec<Place>,
}

/// The fault of a path that can't be read; out of memory is a fault of its own.
fn unread(alloc: Global, path: &str, fault: io::Error) -> LogFault {
    if fault.kind() == ErrorKind::OutOfMemory {
        return LogFault::NoMemory;
    }
    match String::from_str(alloc, path) {
        Ok(path) => LogFault::Read(path, fault),
        Err(_) => LogFault::NoMemory,
    }
}

/// The lines of a file; the last one may lack its line feed.
#[derive(Clone, Copy)]
struct Counted {
    feeds: u64,
    is_open: bool,
}

/// The file, from this place on.
fn from_place<F: Seek + Drop>(file: F, place: u64) -> io::Result<Option<F>> {
    let mut file = file;
    file.seek(SeekFrom::Start(place))?;
    Ok(Some(file))
}

/// Opens a regular file, and goes to the place in it. `None` if there is none, as when it was removed meanwhile.
fn open_at<R: Files>(rt: &R, path: &str, place: u64) -> io::Result<Option<R::File>> {
    if length_of(rt, path)?.is_none() {
        return Ok(None);
    }
    match File::open(rt, path) {
        Ok(file) => from_place(file, place),
        Err(fault) if fault.kind() == ErrorKind::NotFound => Ok(None),
        Err(fault) => Err(fault),
    }
}

/// Counts the lines of an open file, added to those that were counted.
fn count_pieces<F: Read>(file: &mut F, room: &mut [u8], counted: Counted) -> io::Result<Counted> {
    let mut counted = counted;
    for _ in 0..u64::MAX {
        let piece = next_piece(file, room)?;
        let Some(last) = piece.last() else {
            return Ok(counted);
        };
        counted = Counted {
            feeds: counted.feeds.saturating_add(feeds_in(piece)),
            is_open: *last != b'\n',
        };
    }
    Ok(counted)
}

/// Counts the lines of a file, added to those that were counted.
fn count_lines<R: Files>(
    rt: &R,
    path: &str,
    room: &mut [u8],
    counted: Counted,
) -> io::Result<Counted> {
    match open_at(rt, path, 0)? {
        Some(mut file) => count_pieces(&mut file, room, counted),
        None => Ok(counted),
    }
}

/// The bytes in two parts: the whole characters, and the beginning of one whose rest may follow.
fn parts_of(bytes: &[u8]) -> (&[u8], &[u8]) {
    let whole = bytes.len().saturating_sub(open_end(bytes));
    bytes.split_at(whole)
}

/// The folder of the unit of this name. `Absent` if there is none.
fn folder_of<R: Files>(
    rt: &R,
    alloc: Global,
    folder: &str,
    unit: &str,
) -> Result<String, LogFault> {
    let Ok(path) = path_of_name(alloc, folder, unit) else {
        return Err(LogFault::NoMemory);
    };
    match is_folder(rt, path.as_str()) {
        Ok(true) => Ok(path),
        Ok(false) => Err(LogFault::Absent),
        Err(fault) => Err(unread(alloc, path.as_str(), fault)),
    }
}

/// Whether one of these files is the number's.
fn has_file(files: &[OutputFile], number: ProcessNumber) -> bool {
    files.iter().any(|file| file.number == number)
}

impl<'a, R: Files, W: Write + Drop> Log<'a, R, W> {
    /// The output of the unit of this name in the folder, ready to be printed.
    ///
    /// `Absent` if there is no folder of the unit, `Read` if the system refuses it, `NoMemory` if an allocation
    /// failed.
    pub fn open(
        rt: &'a R,
        alloc: Global,
        folder: &str,
        unit: &str,
        is_raw: bool,
        output: W,
    ) -> Result<Log<'a, R, W>, LogFault> {
        let folder = folder_of(rt, alloc, folder, unit)?;
        Ok(Log {
            rt,
            alloc,
            folder,
            is_raw,
            output,
            skipped: 0,
            held: Vec::new(alloc),
            places: Vec::new(alloc),
        })
    }

    /// The files that are printed, in their order.
    fn files(&self) -> Result<Vec<OutputFile>, LogFault> {
        let mut files = match files_in(self.rt, self.alloc, self.folder.as_str()) {
            Ok(files) => files,
            Err(fault) => return Err(unread(self.alloc, self.folder.as_str(), fault)),
        };
        files.retain(|file| file.part != Part::Draft);
        files.sort_unstable_by_key(|file| (file.number.get(), file.part == Part::Printed));
        Ok(files)
    }

    fn path_of(&self, file: OutputFile) -> Result<String, LogFault> {
        match path_of(self.alloc, self.folder.as_str(), file.number, file.part) {
            Ok(path) => Ok(path),
            Err(_) => Err(LogFault::NoMemory),
        }
    }

    /// Counts the lines of a file, added to those that were counted.
    fn count_of(
        &self,
        file: OutputFile,
        room: &mut [u8],
        counted: Counted,
    ) -> Result<Counted, LogFault> {
        let path = self.path_of(file)?;
        match count_lines(self.rt, path.as_str(), room, counted) {
            Ok(counted) => Ok(counted),
            Err(fault) => Err(unread(self.alloc, path.as_str(), fault)),
        }
    }

    /// How many lines the files have in all.
    fn count(&self, files: &[OutputFile], room: &mut [u8]) -> Result<u64, LogFault> {
        let mut counted = Counted {
            feeds: 0,
            is_open: false,
        };
        for file in files {
            counted = self.count_of(*file, room, counted)?;
        }
        Ok(counted.feeds.saturating_add(u64::from(counted.is_open)))
    }

    fn write(&mut self, bytes: &[u8]) -> Result<(), LogFault> {
        match self.output.write_all(bytes) {
            Ok(()) => Ok(()),
            Err(fault) => Err(LogFault::Write(fault)),
        }
    }

    /// Prints the bytes with their escapes.
    fn write_printed(&mut self, bytes: &[u8]) -> Result<(), LogFault> {
        let text = printed(self.alloc, bytes)?;
        self.write(text.as_slice())
    }

    /// Takes the bytes that were held back; none are held any more.
    fn take_held(&mut self) -> Vec<u8> {
        mem::replace(&mut self.held, Vec::new(self.alloc))
    }

    /// Prints the bytes with their escapes; the beginning of a character at their end is held back.
    fn show_whole(&mut self, bytes: &[u8]) -> Result<(), LogFault> {
        let (front, end) = parts_of(bytes);
        self.held.extend_from_slice(end)?;
        self.write_printed(front)
    }

    /// The same for the bytes that were held back, followed by these.
    fn show(&mut self, bytes: &[u8]) -> Result<(), LogFault> {
        self.held.extend_from_slice(bytes)?;
        let held = self.take_held();
        self.show_whole(held.as_slice())
    }

    /// Prints bytes of a file.
    fn put(&mut self, bytes: &[u8]) -> Result<(), LogFault> {
        let (rest, skipped) = behind_feeds(bytes, self.skipped);
        self.skipped = skipped;
        if self.is_raw {
            self.write(rest)
        } else {
            self.show(rest)
        }
    }

    /// Prints the bytes that were held back, when no more follow.
    fn put_held(&mut self) -> Result<(), LogFault> {
        let held = self.take_held();
        self.write_printed(held.as_slice())
    }

    /// Prints a piece of a file, and returns its length; an empty piece is the end, where the held bytes are printed.
    fn put_piece(&mut self, piece: &[u8]) -> Result<usize, LogFault> {
        if piece.is_empty() {
            self.put_held()?;
        } else {
            self.put(piece)?;
        }
        Ok(piece.len())
    }

    /// Prints the next piece of an open file, and returns its length; 0 only at its end.
    fn put_next(
        &mut self,
        file: &mut R::File,
        path: &str,
        room: &mut [u8],
    ) -> Result<usize, LogFault> {
        match next_piece(file, room) {
            Ok(piece) => self.put_piece(piece),
            Err(fault) => Err(unread(self.alloc, path, fault)),
        }
    }

    /// Prints the rest of an open file, and returns its length.
    fn put_pieces(
        &mut self,
        file: &mut R::File,
        path: &str,
        room: &mut [u8],
    ) -> Result<u64, LogFault> {
        let mut size: u64 = 0;
        for _ in 0..u64::MAX {
            let more = self.put_next(file, path, room)?;
            if more == 0 {
                return Ok(size);
            }
            size = size.saturating_add(more as u64);
        }
        Ok(size)
    }

    /// Prints a file from a place on, and returns its end.
    fn put_from(&mut self, file: OutputFile, place: u64, room: &mut [u8]) -> Result<u64, LogFault> {
        let path = self.path_of(file)?;
        match open_at(self.rt, path.as_str(), place) {
            Ok(Some(mut opened)) => {
                let size = self.put_pieces(&mut opened, path.as_str(), room)?;
                Ok(place.saturating_add(size))
            }
            Ok(None) => Ok(place),
            Err(fault) => Err(unread(self.alloc, path.as_str(), fault)),
        }
    }

    /// Prints a file from a place on, and notes its end.
    fn put_noted(
        &mut self,
        file: &OutputFile,
        place: u64,
        room: &mut [u8],
    ) -> Result<(), LogFault> {
        let length = self.put_from(*file, place, room)?;
        self.note(*file, length)
    }

    /// Skips all of these files except the last `lines` lines.
    fn skip_to(
        &mut self,
        files: &[OutputFile],
        lines: Option<u32>,
        room: &mut [u8],
    ) -> Result<(), LogFault> {
        if let Some(lines) = lines {
            let all = self.count(files, room)?;
            self.skipped = all.saturating_sub(u64::from(lines));
        }
        Ok(())
    }

    /// Prints each of these files from its beginning.
    fn put_whole(&mut self, files: &[OutputFile], room: &mut [u8]) -> Result<(), LogFault> {
        for file in files {
            self.put_noted(file, 0, room)?;
        }
        Ok(())
    }

    /// Prints all output of the unit's processes, or only this number of its last lines, the oldest process first.
    ///
    /// `Read` if a file can't be read, `Write` if the output can't be written, `NoMemory` if an allocation failed.
    pub fn put_all(&mut self, lines: Option<u32>) -> Result<(), LogFault> {
        let mut room = room(self.alloc)?;
        let files = self.files()?;
        self.skip_to(files.as_slice(), lines, room.as_mut_slice())?;
        self.put_whole(files.as_slice(), room.as_mut_slice())?;
        self.skipped = 0;
        Ok(())
    }

    /// Notes how far the file of a number was printed.
    fn note(&mut self, file: OutputFile, length: u64) -> Result<(), LogFault> {
        if file.part != Part::Printed {
            return Ok(());
        }
        self.places.retain(|place| place.number != file.number);
        self.places.push(Place {
            number: file.number,
            length,
        })?;
        Ok(())
    }

    /// How far it was printed.
    fn place_of(&self, number: ProcessNumber) -> u64 {
        match self.places.iter().find(|place| place.number == number) {
            Some(place) => place.length,
            None => 0,
        }
    }

    /// The length of the file now; 0 if there is none.
    fn length(&self, file: OutputFile) -> Result<u64, LogFault> {
        let path = self.path_of(file)?;
        match length_of(self.rt, path.as_str()) {
            Ok(length) => Ok(length.unwrap_or(0)),
            Err(fault) => Err(unread(self.alloc, path.as_str(), fault)),
        }
    }

    /// Prints the bytes that a file got since the last look; the whole file if it was cut meanwhile.
    fn put_new(&mut self, file: &OutputFile, room: &mut [u8]) -> Result<(), LogFault> {
        let length = self.length(*file)?;
        let place = self.place_of(file.number);
        if place == length {
            return Ok(());
        }
        let begin = if length < place { 0 } else { place };
        self.put_noted(file, begin, room)
    }

    /// Forgets the places of files that aren't among these.
    fn forget_others(&mut self, files: &[OutputFile]) {
        self.places.retain(|place| has_file(files, place.number));
    }

    /// Prints the bytes that these files got since the last look.
    fn put_new_of(&mut self, files: &[OutputFile], room: &mut [u8]) -> Result<(), LogFault> {
        for file in files {
            if file.part == Part::Printed {
                self.put_new(file, room)?;
            }
        }
        Ok(())
    }

    /// Prints the output since the last look, also of processes that were started meanwhile. Refused as `put_all` is.
    pub fn put_more(&mut self) -> Result<(), LogFault> {
        let mut room = room(self.alloc)?;
        let files = self.files()?;
        // the number of a removed file never comes again
        self.forget_others(files.as_slice());
        self.put_new_of(files.as_slice(), room.as_mut_slice())
    }
}
