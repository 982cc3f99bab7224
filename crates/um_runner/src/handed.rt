//! The text by which the manager hands a runner the entries of a start.

ghost use Rattle.std.specs.Prelude.{◌≡◌, ◌-◌, ◌++◌, ◌∷◌, ◌<◌, [], true, false, length, IfOk, OnOk, MatchOption, map, option_map, replicate, string_bytes};
ghost use Rattle.std.specs.List.{after_first, before_first, list_all, list_any, position_or_len};
ghost use Rattle.um_model.specs.Text.{is_empty};
ghost use Rattle.um_runner.specs.Handed as handed;

use std::alloc::{AllocError, Global};

/// The least length of the text, in bytes: once its file is gone, claim, pid and status have that room.
const LEAST: usize = 16_384;

/// The entries, a zero byte after each, and one more at the end.
fn ended(alloc: Global, entries: &[String]) -> Result<Vec<u8>, AllocError>
    ensures { IfOk result (λ text. text.items ≡ handed.ended (map string_bytes entries.now)) }
{
    let mut text = Vec::new(alloc);
    for entry in entries {
        text.extend_from_slice(entry.as_bytes())?;
        text.push(0)?;
    }
    text.push(0)?;
    Ok(text)
}

fn has_none(bytes: &[u8]) -> bool
    ensures { result ≡ is_empty bytes.now }
{
    match bytes.split_first() {
        Some(_) => false,
        None => true,
    }
}

fn has_zero(bytes: &[u8]) -> bool
    ensures { result ≡ list_any handed.is_zero bytes.now }
{
    bytes.iter().any(|b| *b == 0)
}

/// Whether the text can hold the entry: it isn't empty and has no zero byte.
fn can_be_handed(entry: &str) -> bool
    ensures { result ≡ handed.can_be_handed entry.now }
{
    !has_none(entry.as_bytes()) && !has_zero(entry.as_bytes())
}

fn can_each_be_handed(entries: &[String]) -> bool
    ensures { result ≡ list_all (λ entry. handed.can_be_handed (string_bytes entry)) entries.now }
{
    entries.iter().all(|entry| can_be_handed(entry.as_str()))
}

/// Whether the text can hold all entries.
fn can_all_be_handed(entries: &[String]) -> bool
    ensures { result ≡ list_all handed.can_be_handed (map string_bytes entries.now) }
{
    can_each_be_handed(entries)
}

/// Fills the text up with zero bytes to its least length.
fn filled(text: Vec<u8>) -> Result<Vec<u8>, AllocError>
    ensures { IfOk result (λ filled. filled.items ≡ text.items ++ replicate (handed.least_bytes - length text.items) 0) }
{
    if LEAST <= text.len() {
        return Ok(text);
    }
    let mut filled = text;
    filled.resize(LEAST, 0)?;
    Ok(filled)
}

/// The text for entries: a zero byte after each and one more at the end, and zero bytes up to 16,384 in all. A longer
/// one is as long as its entries need. None if it can't hold them, since one is empty or has a zero byte. Refused only
/// for want of memory.
pub fn entries_text(alloc: Global, entries: &[String]) -> Result<Option<Vec<u8>>, AllocError>
    ensures { IfOk result (λ text. MatchOption text (list_all handed.can_be_handed (map string_bytes entries.now) ≡ false)
        (λ text. (list_all handed.can_be_handed (map string_bytes entries.now) ≡ true) × (text.items ≡ handed.entries_text (map string_bytes entries.now)))) }
{
    if !can_all_be_handed(entries) {
        return Ok(None);
    }
    let text = filled(ended(alloc, entries)?)?;
    Ok(Some(text))
}

/// The parts before and after the first zero byte. None if there is none.
fn cut(text: &str) -> Option<(&str, &str)>
    ensures { MatchOption result (position_or_len handed.is_zero text.now ≡ length text.now)
        (λ parts. (parts.0.now ≡ before_first handed.is_zero text.now) × (parts.1.now ≡ after_first handed.is_zero text.now)
        × (position_or_len handed.is_zero text.now < length text.now)) }
{
    text.split_once('\0')
}

/// Adds an entry.
fn push_entry(entries: &mut Vec<String>, alloc: Global, entry: &str) -> Result<(), AllocError>
    ensures { OnOk result (map string_bytes entries.new.items ≡ map string_bytes entries.old.items ++ entry.now ∷ []) }
{
    entries.push(String::from_str(alloc, entry)?)?;
    Ok(())
}

/// The entries that the text holds: each ends with a zero byte, and an empty one is the end of them. None if that is
/// missing. Refused only for want of memory.
pub fn read_entries(alloc: Global, text: &str) -> Result<Option<Vec<String>>, AllocError>
    ensures { IfOk result (λ told. option_map (λ entries. map string_bytes entries.items) told ≡ handed.entries_in text.now) }
{
    let mut entries = Vec::new(alloc);
    let mut rest = text;
    'parts: while let Some((entry, others)) = cut(rest) {
        if has_none(entry.as_bytes()) {
            return Ok(Some(entries));
        }
        push_entry(&mut entries, alloc, entry)?;
        rest = others;
    }
    Ok(None)
}
