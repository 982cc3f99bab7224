//! Specifiers in a text.

ghost use Rattle.std.specs.Prelude.{◌≡◌, ◌-◌, ◌+◌, ◌<◌, ◌≤◌, ◌==◌, ℕ, List, length, IfOk, IfSome, MatchOption, string_bytes, option_map, option_copied};
ghost use Rattle.std.specs.List.{after_last};
ghost use Rattle.std.specs.Str.{IsCharBoundary};
ghost use Rattle.um_model.specs.Pieces.{reading};
ghost use Rattle.um_model.specs.Specifiers.{expanded_of, specified, percent_front, specifier_front};
ghost use Rattle.um_model.specs.Specifiers.{IsUnescaped};
ghost use Rattle.um_spec.specs.Piece.{front_of};
ghost use Rattle.um_model.specs.Names.{instance_or_empty};

use std::alloc::{AllocError, Global};
use um_name::{UnitName, unescape};

/// The text that the escapes of an instance stand for; `None` if they are ill formed or stand for no text.
fn unescaped(alloc: Global, instance: &str) -> Result<Option<String>, AllocError>
    ensures { IfOk result (λ text. IsUnescaped instance.now (option_map string_bytes text)) }
{
    match unescape(alloc, instance)? {
        Some(bytes) => Ok(String::from_utf8(bytes).ok()),
        None => Ok(None),
    }
}

/// The text after the last `-`, or all.
fn after_last_dash(prefix: &str) -> &str
    ensures { result.now ≡ after_last (λ b. b == 45) prefix.now }
{
    match prefix.rfind('-') {
        Some(place) => &prefix[place + 1..],
        None => prefix,
    }
}

fn instance_or_empty(unit: &UnitName) -> &str
    ensures { result.now ≡ instance_or_empty unit.now }
{
    unit.instance().unwrap_or("")
}

/// The text that the letter after a `%` stands for.
fn specified<'a>(unit: &'a UnitName, unescaped: Option<&'a str>, letter: u8) -> Option<&'a str>
    ensures { option_copied result ≡ specified unit.now (option_copied unescaped.entry) letter }
{
    match letter {
        b'n' => Some(unit.as_str()),
        b'N' => Some(unit.stem()),
        b'p' => Some(unit.prefix()),
        b'i' => Some(instance_or_empty(unit)),
        b'I' => unescaped,
        b'j' => Some(after_last_dash(unit.prefix())),
        _ => None,
    }
}

/// A `%` and some of the text after it: the text that they stand for, and their length in bytes.
#[derive(Clone, Copy)]
struct Piece<'a> {
    text: &'a str,
    size: usize,
}

/// The text that a `%` stands for, by the text after it.
fn percent<'a>(unit: &'a UnitName, unescaped: Option<&'a str>, after: &str) -> Option<Piece<'a>>
    ensures front { front_of result ≡ percent_front unit.now (option_copied unescaped.entry) after.now }
    ensures some { IfSome result (λ piece. 0 < piece.size) }
    ensures boundary { IfSome result (λ piece. IsCharBoundary after.now (piece.size - 1)) }
{
    match after.as_bytes().first() {
        Some(b'%') => Some(Piece { text: "%", size: 2 }),
        Some(letter) if letter.is_ascii_alphabetic() => Some(Piece {
            text: specified(unit, unescaped, *letter)?,
            size: 2,
        }),
        _ => Some(Piece { text: "%", size: 1 }),
    }
}

/// The text with each specifier expanded; `unescaped` is the text for `%I`.
fn expand_with(
    alloc: Global,
    text: &str,
    unit: &UnitName,
    unescaped: Option<&str>,
) -> Result<Option<String>, AllocError>
    ensures { IfOk result (λ r. option_map string_bytes r ≡ reading (specifier_front unit.now (option_copied unescaped.entry)) text.now) }
{
    let mut expanded = String::new(alloc);
    let mut rest = text;
    while let Some((before, after)) = rest.split_once('%') {
        expanded.push_str(before)?;
        let Some(piece) = percent(unit, unescaped, after) else {
            return Ok(None);
        };
        expanded.push_str(piece.text)?;
        rest = &after[piece.size - 1..];
    }
    expanded.push_str(rest)?;
    Ok(Some(expanded))
}

/// The text with its specifiers expanded under the unit's name (systemd.unit(5), "Specifiers"). `%n` is the full
/// name, `%N` the name without its suffix. `%p` is the text before the first `@` of that, or all; `%i` the instance
/// as written, empty without one; `%I` the instance unescaped. `%j` is the text after the last `-` of `%p`, or all,
/// and `%%` a `%`. A `%` before anything but a letter stays, also at the end. `None` if a `%` is followed by another
/// letter, and if there is a `%I` and the instance is ill escaped or isn't UTF-8.
pub fn expand(alloc: Global, text: &str, unit: &UnitName) -> Result<Option<String>, AllocError>
    ensures { IfOk result (λ r. option_map string_bytes r ≡ expanded_of unit.now text.now) }
{
    match unescaped(alloc, instance_or_empty(unit))? {
        Some(instance) => expand_with(alloc, text, unit, Some(instance.as_str())),
        None => expand_with(alloc, text, unit, None),
    }
}
