//! Text as it is shown on standard error: a control character of a name, a path or a key, or a mark that turns the
//! direction of text, could mislead a terminal or a script.

ghost use Rattle.std.specs.Prelude.{◌≡◌, ◌++◌, ◌<◌, IfOk, OnOk, flat_map, string_bytes};
ghost use Rattle.std.specs.Char.{digit_char};
ghost use Rattle.std.specs.Str.{encode_utf8_all};
ghost use Rattle.um_ctl.specs.Shown as model;
ghost use Rattle.um_model.specs.Names.{byte_escape};

use std::alloc::{AllocError, Global};

/// The lower-case hexadecimal digit of a number below 16.
pub(crate) fn hex_digit(n: u8) -> char
    requires { n < 16 }
    ensures value { result ≡ digit_char n }
    ensures ascii { result < 128 }
{
    char::from(if n < 10 { b'0' + n } else { b'a' - 10 + n })
}

/// Appends `\x` and the two digits of a byte.
fn push_byte(text: &mut String, byte: u8) -> Result<(), AllocError>
    ensures { OnOk result (string_bytes text.new ≡ string_bytes text.old ++ byte_escape byte) }
{
    text.push_str("\\x")?;
    text.push(hex_digit(byte / 16))?;
    text.push(hex_digit(byte % 16))
}

/// Appends `\x` and two digits for each of the bytes.
fn push_bytes(text: &mut String, bytes: &[u8]) -> Result<(), AllocError>
    ensures { OnOk result (string_bytes text.new ≡ string_bytes text.old ++ flat_map byte_escape bytes.now) }
{
    for byte in bytes {
        push_byte(text, *byte)?;
    }
    Ok(())
}

/// Whether it is a mark by which a terminal may turn the direction of text.
pub(crate) fn is_direction(c: char) -> bool
    ensures { result ≡ model.is_direction c }
{
    matches!(
        c,
        '\u{61c}' | '\u{200e}'..='\u{200f}' | '\u{202a}'..='\u{202e}' | '\u{2066}'..='\u{2069}'
    )
}

/// Appends a character as it is shown.
#[tactic(auto, using(crate::proofs::ShownLaws::escapes_of_misleading))]
fn push_shown(text: &mut String, c: char) -> Result<(), AllocError>
    ensures { OnOk result (string_bytes text.new ≡ string_bytes text.old ++ encode_utf8_all (model.shown_char c)) }
{
    if c.is_control() || is_direction(c) {
        let mut buffer = [0; 4];
        push_bytes(text, c.encode_utf8(&mut buffer).as_bytes())
    } else {
        text.push(c)
    }
}

/// The text as it is shown on standard error. A control character (below U+0020, and U+007F to U+009F) and a mark of
/// direction (U+061C, U+200E, U+200F, U+202A to U+202E, U+2066 to U+2069) become `\x` and two lower-case hexadecimal
/// digits for each of their bytes in UTF-8; a line feed becomes `\x0a`. Any other character is shown as it is.
pub fn shown(alloc: Global, text: &str) -> Result<String, AllocError>
    ensures { IfOk result (λ s. string_bytes s ≡ model.shown text.now) }
{
    let mut all = String::new(alloc);
    for c in text.chars() {
        push_shown(&mut all, c)?;
    }
    Ok(all)
}
