//! Writes frames: a length and bytes.
ghost use Rattle.std.specs.Prelude.{◌≡◌, ◌<◌, ◌^◌, ◌++◌, ℕ, List, length, OnOk};
ghost use Rattle.std.specs.Io.KnownBytes.{Appends};
ghost use Rattle.um_model.specs.Frames.{frame_of};

use crate::fault::Fault;
use crate::output::{flush, put};
use byteorder::{BigEndian, ByteOrder};
use std::io::Write;

/// The length of a frame stands in this many bytes in front of it.
pub const HEADER: usize = 4;

/// Writes a frame, and flushes. `Write` where the output fails: then a beginning of the frame was written.
pub fn put_frame<W: Write>(output: &mut W, text: &[u8]) -> Result<(), Fault>
    requires { length text.now < 2 ^ 32 }
    ensures ok { OnOk result (Appends (W.contents output.old) (W.contents output.new) (frame_of text.now)) }
    ensures front { (front more : List ℕ) × (frame_of text.now ≡ front ++ more) × Appends (W.contents output.old) (W.contents output.new) front }
{
    let mut header = [0u8; HEADER];
    BigEndian::write_u32(&mut header, text.len() as u32);
    put(output, &header)?;
    put(output, text)?;
    flush(output)
}
