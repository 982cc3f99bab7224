//! One word.

ghost use Rattle.std.specs.Prelude.{◌≡◌, ◌<◌, ◌≤◌, ◌+◌, ℕ, None, length, List, IsTrue, IfSome, IfOk, string_bytes, false, slice_index};
ghost use Rattle.std.specs.Option.{option_map};
ghost use Rattle.std.specs.List.{prefix_len};
ghost use Rattle.um_model.specs.Ascii.{is_space};
ghost use Rattle.um_model.specs.WordSpellings.{may_end};
ghost use Rattle.um_model.specs.WordSpellings.{read};
ghost use Rattle.um_model.specs.WordSpellings.{is_plain};

use crate::spelling::{WordFront, begins_escape, front_at, is_quote, is_space};
use std::alloc::{AllocError, Global};
use um_model::WordRules;

/// A word as it is written in a text, and the text that it stands for.
#[derive(Drop)]
pub struct Spelled<'a> {
    pub spelling: &'a [u8],
    pub value: String,
}

/// Whether the byte stands for itself, inside a quote or not.
fn is_plain(rules: WordRules, quote: Option<u8>, b: u8) -> bool
    ensures { result ≡ is_plain rules quote b }
{
    !begins_escape(rules, b)
        && match quote {
            Some(quote) => b != quote,
            None => !is_space(b) && !is_quote(b),
        }
}

/// How many bytes at the front stand for themselves.
fn plain_len(rules: WordRules, quote: Option<u8>, bytes: &[u8]) -> usize
    ensures { result ≡ prefix_len (is_plain rules quote) bytes.now }
{
    bytes
        .iter()
        .take_while(|b| is_plain(rules, quote, **b))
        .count()
}

/// Whether the word may end with the text, inside a quote or not.
fn may_end(rules: WordRules, quote: Option<u8>) -> bool
    ensures { result ≡ may_end rules quote }
{
    match rules {
        WordRules::Escaped | WordRules::Names => quote.is_none(),
        WordRules::Plain => true,
    }
}

/// The word at the front of a text, and the text after it; `None` if the text begins with no word that can be read.
pub fn word<'a>(
    alloc: Global,
    rules: WordRules,
    text: &'a str,
) -> Result<Option<(String, &'a str)>, AllocError>
    requires nonempty { 0 < length text.now }
    requires nonspace { is_space (slice_index text.now 0) ≡ false }
    ensures read { IfOk result (λ r. option_map (λ p. (string_bytes p.0, p.1.now)) r ≡ read rules 0 None text.now) }
    ensures shorter { IfOk result (λ r. IfSome r (λ p. length p.1.now < length text.now)) }
{
    let mut word = String::new(alloc);
    let mut quote = None;
    let mut rest = text;
    while let Some((first, more)) = rest.as_bytes().split_first() {
        match front_at(rules, quote, *first, more) {
            WordFront::Stop => return Ok(Some((word, rest))),
            WordFront::Bad => return Ok(None),
            WordFront::Turn(other) => {
                quote = other;
                rest = &rest[1..];
            }
            WordFront::Means(meaning, n) => {
                word.push(char::from(meaning))?;
                rest = &rest[n..];
            }
            WordFront::Kept(n) => {
                let run = plain_len(rules, quote, &more[n - 1..]);
                let (kept, after) = rest.split_at(n + run);
                word.push_str(kept)?;
                rest = after;
            }
        }
    }
    Ok(may_end(rules, quote).then_some((word, rest)))
}
