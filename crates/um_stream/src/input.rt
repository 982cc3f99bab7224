//! Reads bytes and frames of an input.
ghost use Rattle.std.specs.Prelude.{◌≡◌, ◌≤◌, ◌<◌, length, [], IfOk};
ghost use Rattle.std.specs.Io.KnownBytes.{Consumes, IsAtEnd};

use crate::fault::Fault;
use std::alloc::Global;
use std::io;
use std::io::{ErrorKind, Read};

/// The most bytes that a read takes, so that a frame takes memory only as its bytes arrive.
const PART: usize = 4096;

/// Some bytes of the input, at most `limit`; none only at its end.
fn read_part<R: Read>(alloc: Global, input: &mut R, limit: usize) -> Result<Vec<u8>, Fault>
    ensures bytes { IfOk result (λ part. Consumes (R.remaining input.old) (R.remaining input.new) part.items) }
    ensures bound { IfOk result (λ part. length part.items ≤ limit) }
    ensures end { IfOk result (λ part. 0 < limit → part.items ≡ [] → IsAtEnd (R.remaining input.new)) }
{
    let Ok(mut part) = vec![in alloc; 0u8; limit] else {
        return Err(Fault::NoMemory);
    };
    'tries: for _ in 0..u64::MAX {
        match input.read(part.as_mut_slice()) {
            Ok(n) => {
                part.truncate(n);
                return Ok(part);
            }
            Err(e) => {
                if e.kind() != ErrorKind::Interrupted {
                    return Err(Fault::Read(e));
                }
            }
        }
    }
    Err(Fault::Read(io::Error::from(ErrorKind::Interrupted)))
}

/// The next `size` bytes of the input, or fewer if it ends before. `Read` where the input can't be read, `NoMemory` where
/// memory is refused.
pub fn read_up_to<R: Read>(alloc: Global, input: &mut R, size: usize) -> Result<Vec<u8>, Fault>
    ensures bytes { IfOk result (λ got. Consumes (R.remaining input.old) (R.remaining input.new) got.items) }
    ensures bound { IfOk result (λ got. length got.items ≤ size) }
    ensures end { IfOk result (λ got. length got.items < size → IsAtEnd (R.remaining input.new)) }
{
    let mut got = Vec::new(alloc);
    'parts: while got.len() < size {
        let part = read_part(alloc, input, (size - got.len()).min(PART))?;
        if part.is_empty() {
            return Ok(got);
        }
        got.extend_from_slice(part.as_slice())?;
    }
    Ok(got)
}
