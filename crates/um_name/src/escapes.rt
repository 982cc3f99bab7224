//! Other text in a name: any bytes as a text that a name can have, and back.
ghost use Rattle.std.specs.Prelude.{◌≡◌, ◌+◌, ◌<◌, ◌≤◌, ◌++◌, ℕ, List, length, true, IfOk, OnOk, IfSome, MatchOption, string_bytes, ◌==◌, if◌then◌else◌};
ghost use Rattle.std.specs.Char.{digit_char, digit_value};
ghost use Rattle.um_model.specs.Specifiers.{StandsForBytes};
ghost use Rattle.um_model.specs.Names as names;
ghost use Rattle.um_name.specs.Escapes.{front_of};

use std::alloc::{AllocError, Global};

fn is_plain_byte(b: u8) -> bool
    ensures { result ≡ names.is_plain_byte b }
{
    b.is_ascii_alphanumeric() || matches!(b, b':' | b'_' | b'.')
}

/// The lower-case hexadecimal digit of a number below 16.
fn hex_digit(n: u8) -> char
    requires { n < 16 }
    ensures value { result ≡ digit_char n }
    ensures ascii { result < 128 }
{
    char::from(if n < 10 { b'0' + n } else { b'a' - 10 + n })
}

/// Writes `\x` and two digits.
fn push_byte_escape(text: &mut String, b: u8) -> Result<(), AllocError>
    ensures { OnOk result (string_bytes text.new ≡ string_bytes text.old ++ names.byte_escape b) }
{
    text.push_str("\\x")?;
    text.push(hex_digit(b / 16))?;
    text.push(hex_digit(b % 16))
}

/// Writes the text for a byte after the front.
fn push_escape(text: &mut String, b: u8) -> Result<(), AllocError>
    ensures { OnOk result (string_bytes text.new ≡ string_bytes text.old ++ names.escape_of b) }
{
    if b == b'/' {
        text.push('-')
    } else if is_plain_byte(b) {
        text.push(char::from(b))
    } else {
        push_byte_escape(text, b)
    }
}

/// Writes the text for the first byte.
fn push_first_escape(text: &mut String, b: u8) -> Result<(), AllocError>
    ensures { OnOk result (string_bytes text.new ≡ string_bytes text.old ++ (if b == 46 then names.byte_escape b else names.escape_of b)) }
{
    if b == b'.' {
        push_byte_escape(text, b)
    } else {
        push_escape(text, b)
    }
}

/// The bytes as a text that a name can have: `/` becomes `-`; ASCII letters, digits, `:`, `_` and, except at the
/// front, `.` stay; any other byte becomes `\x` and two lower-case hexadecimal digits (systemd.unit(5), "String
/// Escaping for Inclusion in Unit Names").
pub fn escape(alloc: Global, bytes: &[u8]) -> Result<String, AllocError>
    ensures { IfOk result (λ text. string_bytes text ≡ names.escaped bytes.now) }
{
    let mut text = String::new(alloc);
    let Some((first, rest)) = bytes.split_first() else {
        return Ok(text);
    };
    push_first_escape(&mut text, *first)?;
    for b in rest {
        push_escape(&mut text, *b)?;
    }
    Ok(text)
}

/// The front of an escaped text: a byte, and the number of bytes that spell it.
#[derive(Clone, Copy)]
struct Piece {
    byte: u8,
    size: usize,
}

fn is_hex_digit(b: u8) -> bool
    ensures { result ≡ names.is_hex_digit b }
{
    b.is_ascii_digit() || matches!(b, b'a'..=b'f')
}

/// The number that a lower-case hexadecimal digit stands for.
fn digit_value(b: u8) -> u8
    requires { names.is_hex_digit b ≡ true }
    ensures value { result ≡ digit_value b }
    ensures small { result < 16 }
{
    if b <= b'9' { b - b'0' } else { b - b'a' + 10 }
}

/// The front of an escaped text that begins with `\`, from the bytes after it.
fn read_escape(more: &[u8]) -> Option<Piece>
    ensures { front_of result ≡ names.escape_front more.now }
{
    match more {
        [b'x', high, low, ..] if is_hex_digit(*high) && is_hex_digit(*low) => Some(Piece {
            byte: 16 * digit_value(*high) + digit_value(*low),
            size: 4,
        }),
        _ => None,
    }
}

/// The front of an escaped text, from its first byte and the bytes after it.
fn read_front(first: u8, more: &[u8]) -> Option<Piece>
    ensures front { front_of result ≡ names.unescape_front first more.now }
    ensures some { IfSome result (λ piece. 0 < piece.size) }
    ensures within { IfSome result (λ piece. piece.size ≤ length more.now + 1) }
{
    match first {
        b'-' => Some(Piece {
            byte: b'/',
            size: 1,
        }),
        b'\\' => read_escape(more),
        _ => Some(Piece {
            byte: first,
            size: 1,
        }),
    }
}

/// The bytes that the text stands for: `-` becomes `/`; `\x` and two lower-case hexadecimal digits become that byte;
/// any other byte stays. `None` if a `\` is followed by anything else (systemd.unit(5), "String Escaping for
/// Inclusion in Unit Names").
pub fn unescape(alloc: Global, text: &str) -> Result<Option<Vec<u8>>, AllocError>
    ensures { IfOk result (λ r. MatchOption r
        ((bytes : List ℕ) → ¬ (StandsForBytes text.now bytes))
        (λ bytes. StandsForBytes text.now bytes.items)) }
{
    let mut bytes = Vec::new(alloc);
    let mut rest = text.as_bytes();
    while let Some((first, more)) = rest.split_first() {
        let Some(piece) = read_front(*first, more) else {
            return Ok(None);
        };
        bytes.push(piece.byte)?;
        rest = &more[piece.size - 1..];
    }
    Ok(Some(bytes))
}
