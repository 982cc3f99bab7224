//! JSON for a terminal, which a character of a name or a text could mislead.

ghost use Rattle.std.specs.Prelude.{◌≡◌, ◌++◌, ◌<◌, ◌%◌, IfOk, OnOk, string_bytes};
ghost use Rattle.std.specs.Char.{digit_char};
ghost use Rattle.std.specs.Str.{encode_utf8_all};
ghost use Rattle.um_ctl.specs.Shown as model;

use crate::escapes::{hex_digit, is_direction};
use std::alloc::{AllocError, Global};

/// Whether the character may mislead a terminal, and JSON doesn't escape it.
fn misleads(c: char) -> bool
    ensures { result ≡ model.misleads_in_json c }
{
    matches!(c, '\u{7f}'..='\u{9f}') || is_direction(c)
}

/// The last hexadecimal digit of a number.
fn last_digit(n: u32) -> char
    ensures value { result ≡ digit_char (n % 16) }
    ensures ascii { result < 128 }
{
    hex_digit((n % 16) as u8)
}

/// Appends JSON's escape of a character.
fn push_escape(text: &mut String, c: char) -> Result<(), AllocError>
    ensures { OnOk result (string_bytes text.new ≡ string_bytes text.old ++ model.json_escape c) }
{
    let n = u32::from(c);
    text.push_str("\\u")?;
    text.push(last_digit(n / 4096))?;
    text.push(last_digit(n / 256))?;
    text.push(last_digit(n / 16))?;
    text.push(last_digit(n))
}

/// Appends a character as it goes to a terminal.
#[tactic(auto, using(crate::proofs::TerminalLaws::escape_of_misleading))]
fn push_terminal(text: &mut String, c: char) -> Result<(), AllocError>
    ensures { OnOk result (string_bytes text.new ≡ string_bytes text.old ++ encode_utf8_all (model.terminal_char c)) }
{
    if misleads(c) {
        push_escape(text, c)
    } else {
        text.push(c)
    }
}

/// A text of JSON as it goes to a terminal. U+007F to U+009F and the marks of direction (U+061C, U+200E, U+200F,
/// U+202A to U+202E, U+2066 to U+2069) become `\u` and four lower-case hexadecimal digits, which JSON reads as the
/// same character; any other character stays as it is.
pub fn on_terminal(alloc: Global, text: &str) -> Result<String, AllocError>
    ensures { IfOk result (λ s. string_bytes s ≡ model.on_terminal text.now) }
{
    let mut all = String::new(alloc);
    for c in text.chars() {
        push_terminal(&mut all, c)?;
    }
    Ok(all)
}
