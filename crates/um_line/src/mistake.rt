//! How a mistake in the words is reported.

ghost use Rattle.std.specs.Prelude.{◌≡◌, ◌≢◌, IfOk, OnOk};
ghost use Rattle.clap.specs.Words.{kind_of};
ghost use Rattle.um_line.specs.Line.{IsToldAs};

use crate::line::Line;
use clap::Error;
use clap::error::ErrorKind;
use std::alloc::{AllocError, Global};

/// The line for a mistake: the requested help or version, or the error.
pub fn line_of_mistake<'a>(alloc: Global, mistake: &Error) -> Result<Line<'a>, AllocError>
    ensures line { IfOk result (IsToldAs (kind_of mistake.now)) }
    ensures memory { OnOk result (kind_of mistake.now ≢ ErrorKind.OutOfMemory) }
{
    if mistake.kind() == ErrorKind::OutOfMemory {
        return Err(AllocError);
    }
    let text = mistake.to_string(alloc)?;
    if mistake.use_stderr() {
        Ok(Line::Wrong(text))
    } else {
        Ok(Line::Told(text))
    }
}
