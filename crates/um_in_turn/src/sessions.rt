//! Frames, and the bytes from connections.

use std::alloc::Global;
use um_manager::{Connection, Piece, Pieces};
use um_store_in_turn::wrong::{Wrong, found};

/// The frame of a text.
pub fn frame(alloc: Global, text: &[u8]) -> Result<Vec<u8>, Wrong> {
    let Ok(length) = u32::try_from(text.len()) else {
        return Err(found("a text too long for a frame"));
    };
    let mut bytes = Vec::new(alloc);
    bytes.extend_from_slice(&length.to_be_bytes())?;
    bytes.extend_from_slice(text)?;
    Ok(bytes)
}

/// The frames of texts.
pub fn frames(alloc: Global, texts: &[&str]) -> Result<Vec<u8>, Wrong> {
    let mut bytes = Vec::new(alloc);
    for text in texts {
        bytes.extend_from_slice(frame(alloc, text.as_bytes())?.as_slice())?;
    }
    Ok(bytes)
}

/// Nothing from any connection.
pub fn silence(alloc: Global) -> Result<Pieces, Wrong> {
    Ok(Pieces::none(alloc)?)
}

/// Adds the frames of these texts as the bytes from a connection.
pub fn add(alloc: Global, pieces: &mut Pieces, number: usize, texts: &[&str]) -> Result<(), Wrong> {
    let Some(connection) = Connection::new(number) else {
        return Err(found("no connection"));
    };
    pieces.set(connection, Piece::Bytes(frames(alloc, texts)?));
    Ok(())
}

/// The frames of these texts, as the bytes from one connection.
pub fn sent(alloc: Global, number: usize, texts: &[&str]) -> Result<Pieces, Wrong> {
    let mut pieces = silence(alloc)?;
    add(alloc, &mut pieces, number, texts)?;
    Ok(pieces)
}
