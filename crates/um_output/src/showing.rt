//! The output of a process, as it is shown.

ghost use Rattle.std.specs.Prelude.{◌≡◌, ◌≤◌, ◌<◌, ◌⊎◌, ◌↔◌, ◌++◌, ℕ, IfOk, IsTrue, OnOk, flat_map};
ghost use Rattle.std.specs.Char.{digit_char};
ghost use Rattle.bstr.specs.Utf8.{lead_len};
ghost use Rattle.um_model.specs.Names.{byte_escape};
ghost use Rattle.um_output.specs.Showing as model;

use bstr::decode_utf8;
use std::alloc::{AllocError, Global};

/// Whether it is a mark by which a terminal may turn the direction of text.
fn is_direction(c: char) -> bool
    ensures { result ≡ model.is_direction c }
{
    matches!(
        c,
        '\u{61c}' | '\u{200e}'..='\u{200f}' | '\u{202a}'..='\u{202e}' | '\u{2066}'..='\u{2069}'
    )
}

/// Whether the character is shown by its bytes.
fn misleads(c: char) -> bool
    ensures { result ≡ model.misleads c }
{
    (c.is_control() && c != '\n' && c != '\t') || is_direction(c)
}

/// The lower-case hexadecimal digit of a number below 16.
fn hex_digit(n: u8) -> u8
    requires { n < 16 }
    ensures { result ≡ digit_char n }
{
    if n < 10 { b'0' + n } else { b'a' - 10 + n }
}

/// Appends `\x` and the two digits of a byte.
fn push_escape(text: &mut Vec<u8>, byte: u8) -> Result<(), AllocError>
    ensures { OnOk result (text.new.items ≡ text.old.items ++ byte_escape byte) }
{
    text.extend_from_slice(&[b'\\', b'x', hex_digit(byte / 16), hex_digit(byte % 16)])
}

/// Appends `\x` and two digits for each of the bytes.
fn push_escapes(text: &mut Vec<u8>, bytes: &[u8]) -> Result<(), AllocError>
    ensures { OnOk result (text.new.items ≡ text.old.items ++ flat_map byte_escape bytes.now) }
{
    for byte in bytes {
        push_escape(text, *byte)?;
    }
    Ok(())
}

/// Appends a piece of bytes as it is shown; the piece is this character, or no character.
fn push_piece(text: &mut Vec<u8>, c: Option<char>, bytes: &[u8]) -> Result<(), AllocError>
    ensures { OnOk result (text.new.items ≡ text.old.items ++ model.piece_shown c bytes.now) }
{
    match c {
        Some(c) if !misleads(c) => text.extend_from_slice(bytes),
        _ => push_escapes(text, bytes),
    }
}

/// The bytes as they are shown. A control character (below U+0020, and U+007F to U+009F) other than line feed and
/// tab, a mark of direction, and anything that isn't UTF-8 becomes `\x` and two lower-case hexadecimal digits for
/// each byte. The marks are U+061C, U+200E, U+200F, U+202A to U+202E and U+2066 to U+2069. Other characters are shown
/// as they are.
pub fn printed(alloc: Global, bytes: &[u8]) -> Result<Vec<u8>, AllocError>
    ensures { IfOk result (λ text. text.items ≡ model.shown bytes.now) }
{
    let mut text = Vec::with_capacity(alloc, bytes.len())?;
    let mut rest = bytes;
    while !rest.is_empty() {
        let (c, size) = decode_utf8(rest);
        let (piece, others) = rest.split_at(size);
        push_piece(&mut text, c, piece)?;
        rest = others;
    }
    Ok(text)
}

/// How many bytes a character takes that begins with this byte; 0 if none does.
fn lead_length(first: u8) -> usize
    ensures { result ≡ lead_len first }
{
    match first {
        0..=0x7F => 1,
        0xC2..=0xDF => 2,
        0xE0..=0xEF => 3,
        0xF0..=0xF4 => 4,
        _ => 0,
    }
}

/// Whether this number of bytes at the end begin a character, and lack bytes of it.
fn is_open(bytes: &[u8], size: usize) -> bool
    ensures { IsTrue result ↔ model.IsOpenEnd bytes.now size }
{
    if size == 0 || size > bytes.len() {
        return false;
    }
    let (_, end) = bytes.split_at(bytes.len() - size);
    let (c, read) = decode_utf8(end);
    c.is_none() && read == size && size < lead_length(end[0])
}

/// How many bytes at the end begin a character whose rest may follow.
pub(crate) fn open_end(bytes: &[u8]) -> usize
    ensures open { (result ≡ 0) ⊎ model.IsOpenEnd bytes.now result }
    ensures longest { (size : ℕ) → model.IsOpenEnd bytes.now size → size ≤ result }
{
    if is_open(bytes, 3) {
        3
    } else if is_open(bytes, 2) {
        2
    } else if is_open(bytes, 1) {
        1
    } else {
        0
    }
}
