//! Managers in memory, whose calls are repeated if memory is wanting.

use std::alloc::Global;
use um_children::Children;
use um_keeper::create;
use um_manager::{Connection, Manager, Piece, Pieces};
use um_model::{Layout, Moment};
use um_sector::{Disk, MemDisk};
use um_state::BootId;
use um_wire::Refusal;

/// How often a call that finds no memory is tried.
const TIMES: usize = 4;

/// The bytes of a frame's length.
const LENGTH: usize = 4;

/// How the reply of a request ends that found no memory.
const WANTING: &[u8] = b"\"error\":15,\"ok\":false}";

fn boot(alloc: Global) -> Result<BootId, Refusal> {
    BootId::new(String::from_str(alloc, "one")?).ok_or(Refusal::BadRequest)
}

fn store(alloc: Global) -> Result<MemDisk, Refusal> {
    let mut disk = MemDisk::new(alloc, 641)?;
    let layout = Layout::new(64, 512).ok_or(Refusal::BadRequest)?;
    create(alloc, &mut disk, layout)?;
    Ok(disk)
}

/// A disk that holds a new store. If a disk finds no memory it fails, and another one is taken.
pub fn new_store(alloc: Global) -> Result<MemDisk, Refusal> {
    for _ in 1..TIMES {
        match store(alloc) {
            Err(Refusal::NoMemory | Refusal::Device) => {}
            told => return told,
        }
    }
    store(alloc)
}

/// The id of the boot, which is made once more if the first try finds no memory.
fn some_boot(alloc: Global) -> Result<BootId, Refusal> {
    match boot(alloc) {
        Err(Refusal::NoMemory) => boot(alloc),
        told => told,
    }
}

/// The manager that is opened over a disk and children; else the refusal, with both.
fn open<D: Disk, C: Children>(
    alloc: Global,
    disk: D,
    children: C,
) -> Result<Manager<D, C>, (Refusal, D, C)> {
    match some_boot(alloc) {
        Ok(boot) => Manager::open(alloc, disk, children, boot, Moment::FIRST),
        Err(refusal) => Err((refusal, disk, children)),
    }
}

/// The manager that is opened over a disk and children.
pub fn opened<D: Disk + Drop, C: Children + Drop>(
    alloc: Global,
    disk: D,
    children: C,
) -> Result<Manager<D, C>, Refusal> {
    let (mut disk, mut children) = (disk, children);
    for _ in 0..TIMES {
        match open(alloc, disk, children) {
            Ok(manager) => return Ok(manager),
            Err((Refusal::NoMemory, disk_back, children_back)) => {
                (disk, children) = (disk_back, children_back);
            }
            Err((refusal, _, _)) => return Err(refusal),
        }
    }
    Err(Refusal::NoMemory)
}

/// The bytes from a connection: the frame of this text, or none if the text is empty.
fn pieces(alloc: Global, connection: Connection, text: &str) -> Result<Pieces, Refusal> {
    let mut bytes = Vec::new(alloc);
    if !text.is_empty() {
        let length = u32::try_from(text.len()).unwrap_or(0);
        bytes.extend_from_slice(&length.to_be_bytes())?;
        bytes.extend_from_slice(text.as_bytes())?;
    }
    let mut pieces = Pieces::none(alloc)?;
    pieces.set(connection, Piece::Bytes(bytes));
    Ok(pieces)
}

/// A turn in which this request comes from a connection; returns the bytes that are put out for it.
fn turn<D: Disk, C: Children>(
    alloc: Global,
    manager: &mut Manager<D, C>,
    connection: usize,
    text: &str,
) -> Result<Vec<u8>, Refusal> {
    let connection = Connection::new(connection).ok_or(Refusal::BadRequest)?;
    let pieces = pieces(alloc, connection, text)?;
    manager.turn(Moment::FIRST, &pieces)?;
    let output = manager.output(connection);
    if output.failed || output.bytes.ends_with(WANTING) {
        return Err(Refusal::NoMemory);
    }
    Ok(output.bytes)
}

/// A turn in which nothing comes.
pub fn silent_turn<D: Disk, C: Children>(
    alloc: Global,
    manager: &mut Manager<D, C>,
) -> Result<(), Refusal> {
    for _ in 0..TIMES {
        match turn(alloc, manager, 0, "") {
            Err(Refusal::NoMemory) => {}
            Err(refusal) => return Err(refusal),
            Ok(_) => return Ok(()),
        }
    }
    Err(Refusal::NoMemory)
}

/// The reply to a request, which is sent on another connection if it finds no memory.
pub fn ask<D: Disk, C: Children>(
    alloc: Global,
    manager: &mut Manager<D, C>,
    text: &str,
) -> Result<String, Refusal> {
    for connection in 1..TIMES {
        match turn(alloc, manager, connection, text) {
            Err(Refusal::NoMemory) => {}
            Err(refusal) => return Err(refusal),
            Ok(bytes) => return text_of(alloc, bytes.as_slice()),
        }
    }
    Err(Refusal::NoMemory)
}

/// The text of a frame.
fn text_of(alloc: Global, frame: &[u8]) -> Result<String, Refusal> {
    let text = frame.get(LENGTH..).unwrap_or(&[]);
    match String::from_utf8_lossy(alloc, text) {
        Ok(text) => Ok(text),
        Err(_) => Ok(String::from_utf8_lossy(alloc, text)?),
    }
}
