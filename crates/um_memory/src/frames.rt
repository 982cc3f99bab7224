//! Reads and writes the frames of a stream.
ghost use Rattle.std.specs.Prelude.{IfOk};
ghost use Rattle.um_memory.specs.Streams.{Comes, IsBodyOf};

use byteorder::{BigEndian, ByteOrder};
use std::alloc::Global;
use std::io::Read;
use um_model::Ending;
use um_stream::{Fault, HEADER, read_up_to};

/// The longest frame of a request, in bytes.
const FRAME_LIMIT: usize = 524_288;

/// The next piece of an input.
#[derive(Debug, Drop)]
pub enum Piece {
    /// A frame, by the bytes that it holds.
    Frame(Vec<u8>),
    End(Ending),
}

/// The frame after its length, or the end of the input.
fn next_body<R: Read>(alloc: Global, input: &mut R, size: usize) -> Result<Piece, Fault>
    ensures frame { IfOk result (λ piece. IsBodyOf size piece (R.remaining input.old) (R.remaining input.new)) }
{
    let body = read_up_to(alloc, input, size)?;
    if body.len() < size {
        return Ok(Piece::End(Ending::Inside));
    }
    Ok(Piece::Frame(body))
}

/// The next frame, or the end of the input. `Read` where the input can't be read, `NoMemory` where memory is refused.
pub fn next_piece<R: Read>(alloc: Global, input: &mut R) -> Result<Piece, Fault>
    ensures { IfOk result (λ piece. Comes piece (R.remaining input.old) (R.remaining input.new)) }
{
    let header = read_up_to(alloc, input, HEADER)?;
    if header.is_empty() {
        return Ok(Piece::End(Ending::Between));
    }
    if header.len() < HEADER {
        return Ok(Piece::End(Ending::Inside));
    }
    let size = BigEndian::read_u32(header.as_slice()) as usize;
    if size > FRAME_LIMIT {
        return Ok(Piece::End(Ending::TooLong));
    }
    next_body(alloc, input, size)
}
