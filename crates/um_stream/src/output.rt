//! Writes bytes to an output.
ghost use Rattle.std.specs.Prelude.{◌≡◌, ◌++◌, ℕ, List, [], OnOk};
ghost use Rattle.std.specs.Io.KnownBytes.{Appends};

use crate::fault::Fault;
use std::io;
use std::io::{ErrorKind, Write};

/// Writes the bytes. `Write` where the output fails: then a beginning of them was written.
pub fn put<W: Write>(output: &mut W, bytes: &[u8]) -> Result<(), Fault>
    ensures ok { OnOk result (Appends (W.contents output.old) (W.contents output.new) bytes.now) }
    ensures front { (front more : List ℕ) × (bytes.now ≡ front ++ more) × Appends (W.contents output.old) (W.contents output.new) front }
{
    let mut written = 0;
    'parts: for _ in 0..u64::MAX {
        if written >= bytes.len() {
            return Ok(());
        }
        match output.write(&bytes[written..]) {
            Ok(0) => return Err(Fault::Write(io::Error::from(ErrorKind::WriteZero))),
            Ok(n) => written += n,
            Err(e) => {
                if e.kind() != ErrorKind::Interrupted {
                    return Err(Fault::Write(e));
                }
            }
        }
    }
    Err(Fault::Write(io::Error::from(ErrorKind::Interrupted)))
}

/// Hands on the bytes written. `Write` where the output fails.
pub fn flush<W: Write>(output: &mut W) -> Result<(), Fault>
    ensures same { Appends (W.contents output.old) (W.contents output.new) [] }
{
    match output.flush() {
        Ok(()) => Ok(()),
        Err(e) => Err(Fault::Write(e)),
    }
}
