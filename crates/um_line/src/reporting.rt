//! Exit statuses, and lines on standard error: no control character goes out as it is.

use std::alloc::{AllocError, Global};
use std::fmt::Display;
use um_ctl::shown;

/// The exit status if a request was refused, a length exceeded the limit, or an allocation failed.
pub const REFUSED: u8 = 1;

/// The exit status at an end of input inside a frame, and for wrong words.
pub const USAGE: u8 = 2;

/// The exit status if standard input or output, a file, or the folder of a runner failed.
pub const DEVICE: u8 = 5;

/// The line with its control characters escaped. Only a failed allocation is an error.
pub fn shown_line<D: Display + Drop>(alloc: Global, line: D) -> Result<String, AllocError> {
    let text = String::format(alloc, line)?;
    shown(alloc, text.as_str())
}

/// Puts a line on standard error, and waits until it is taken. If standard error fails, only the exit status shows
/// the error.
pub fn put_line<R: Eprint, D: Display + Drop>(rt: &R, alloc: Global, line: D) {
    let _unheard = match shown_line(alloc, line) {
        Ok(text) => eprintln!(rt; "{text}"),
        Err(_) => eprintln!(rt; "E15 NoMemory"),
    };
}
