//! The front of a stream: a frame, less than one, or a length past the limit.

ghost use Rattle.um_session.specs.Fronts.{IsFront};

use byteorder::{BigEndian, ByteOrder};

/// The length of a frame stands in this many bytes in front of it.
pub const HEADER: usize = 4;

/// The longest frame of a request, in bytes.
const FRAME_LIMIT: usize = 524_288;

/// The front of a stream.
#[derive(Clone, Copy, Debug, PartialEq, Eq)]
pub enum FrameFront {
    /// Less than a whole frame.
    Partial,
    /// A length past the limit.
    TooLong,
    /// A frame of this many bytes.
    Frame(usize),
}

/// The front of these bytes.
pub fn front_of(bytes: &[u8]) -> FrameFront
    ensures { IsFront bytes.now result }
{
    if bytes.len() < HEADER {
        return FrameFront::Partial;
    }
    let size = BigEndian::read_u32(bytes) as usize;
    if size > FRAME_LIMIT {
        return FrameFront::TooLong;
    }
    if bytes.len() - HEADER < size {
        return FrameFront::Partial;
    }
    FrameFront::Frame(size)
}
