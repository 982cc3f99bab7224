//! The lines of a file by their numbers, and a file in which one line is skipped.

ghost use Rattle.std.specs.Prelude.{IfOk, IfSome, string_bytes};
ghost use Rattle.um_verify.specs.Findings as model;

use std::alloc::{AllocError, Global};

/// The byte at which the physical line of this number begins.
fn line_start(text: &str, line: usize) -> Option<usize>
    ensures { IfSome result (model.BeginsLine text.now line) }
{
    if line == 1 {
        return Some(0);
    }
    let mut feeds = 0;
    for (place, byte) in text.as_bytes().iter().enumerate() {
        if *byte == b'\n' {
            feeds += 1;
            if feeds + 1 == line {
                return Some(place + 1);
            }
        }
    }
    None
}

/// The text with `X-` in front of the line of this number, so that its assignment, also over several lines, is
/// skipped without a warning. All lines keep their numbers.
pub fn without_line(alloc: Global, text: &str, line: usize) -> Result<Option<String>, AllocError>
    ensures { IfOk result (λ marked. IfSome marked (λ m. model.IsMarked line text.now (string_bytes m))) }
{
    let Some(start) = line_start(text, line) else {
        return Ok(None);
    };
    let (Some(front), Some(rest)) = (text.get(..start), text.get(start..)) else {
        return Ok(None);
    };
    let mut marked = String::from_str(alloc, front)?;
    marked.push_str("X-")?;
    marked.push_str(rest)?;
    Ok(Some(marked))
}

/// The physical line of this number, without whitespace at its ends.
pub fn line_text(text: &str, line: usize) -> &str {
    let Some(start) = line_start(text, line) else {
        return "";
    };
    let rest = text.get(start..).unwrap_or("");
    match rest.split_once('\n') {
        Some((line, _)) => line.trim(),
        None => rest.trim(),
    }
}
