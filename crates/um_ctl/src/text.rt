//! The text of a file from standard input.

ghost use Rattle.std.specs.Prelude.{IfOk};
ghost use Rattle.um_ctl.specs.Streams.{IsFileText};

use std::alloc::Global;
use std::io::Read;
use um_stream::{Fault, read_up_to};

/// The longest text of a file, in bytes.
const TEXT_LIMIT: usize = 65_536;

/// The text of a file, as it was read from standard input.
#[derive(Debug, Drop)]
pub enum FileText {
    Text(String),
    /// It has more than 65,536 bytes, which aren't all read.
    TooLarge,
    /// It isn't UTF-8.
    NoText,
}

/// Reads the text of a file from an input to its end, or 65,537 bytes of it. `Read` where the input can't be read,
/// `NoMemory` where memory is refused.
pub fn read_text<R: Read>(alloc: Global, input: &mut R) -> Result<FileText, Fault>
    ensures { IfOk result (IsFileText (R.remaining input.old) (R.remaining input.new)) }
{
    let bytes = read_up_to(alloc, input, TEXT_LIMIT + 1)?;
    if bytes.len() > TEXT_LIMIT {
        return Ok(FileText::TooLarge);
    }
    match String::from_utf8(bytes) {
        Ok(text) => Ok(FileText::Text(text)),
        Err(_) => Ok(FileText::NoText),
    }
}
