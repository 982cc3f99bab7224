//! Files read and copied by pieces.

use std::alloc::{AllocError, Global};
use std::io;
use std::io::{ErrorKind, Read, Write};

/// The most bytes that are read at once.
const PIECE: usize = 65_536;

/// Room for a piece.
pub(crate) fn room(alloc: Global) -> Result<Vec<u8>, AllocError> {
    vec![in alloc; 0u8; PIECE]
}

/// The next bytes of a file, at most as many as fit; none only at its end.
pub(crate) fn next_piece<'r, F: Read>(file: &mut F, room: &'r mut [u8]) -> io::Result<&'r [u8]> {
    for _ in 0..u64::MAX {
        match file.read(room) {
            Ok(size) => return Ok(room.get(..size).unwrap_or(&[])),
            Err(fault) if fault.kind() == ErrorKind::Interrupted => {}
            Err(fault) => return Err(fault),
        }
    }
    Err(io::Error::from(ErrorKind::Interrupted))
}

/// Copies up to this many bytes of one file to another, fewer if it ends before.
pub(crate) fn copy_up_to<F: Read, W: Write>(
    from: &mut F,
    to: &mut W,
    most: u64,
    room: &mut [u8],
) -> io::Result<()> {
    let mut left = most;
    for _ in 0..u64::MAX {
        if left == 0 {
            return Ok(());
        }
        let piece = next_piece(from, room)?;
        let size = (piece.len() as u64).min(left);
        if size == 0 {
            return Ok(());
        }
        to.write_all(piece.get(..size as usize).unwrap_or(&[]))?;
        left -= size;
    }
    Ok(())
}
