//! One spelling: the front of a text.

ghost use Rattle.std.specs.Prelude.{◌≡◌, ◌<◌, ◌≤◌, ℕ, ◌∷◌, length, List, IsTrue, IfSome, All, take};
ghost use Rattle.std.specs.Char.{digit_value};
ghost use Rattle.um_model.specs.Ascii.{is_space};
ghost use Rattle.um_model.specs.Words.{begins_with_digits, begins_escape, is_quote};
ghost use Rattle.um_model.specs.WordSpellings.{escape, bare, spelled_at};
ghost use Rattle.um_words.specs.There.{IsThere};
ghost use Rattle.um_words.specs.Views.{spelling_of};
ghost use Rattle.um_model.specs.FileForms.{meaning_of};

use um_model::WordRules;
use um_text::Class;

/// The front of a text.
#[derive(Clone, Copy, Debug, PartialEq, Eq)]
pub enum WordFront {
    /// Whitespace, before which the word ends.
    Stop,
    /// An escape that can't be read.
    Bad,
    /// A quote; after it the text is inside this one, or none.
    Turn(Option<u8>),
    /// An escape that means this byte, and its length in bytes.
    Means(u8, usize),
    /// The number of bytes that stay as written.
    Kept(usize),
}

/// Whether the byte is a space or a tab.
pub fn is_space(b: u8) -> bool
    ensures { result ≡ is_space b }
{
    Class::Space.contains(b)
}

/// Whether the byte is a quote.
pub fn is_quote(b: u8) -> bool
    ensures { result ≡ is_quote b }
{
    b == b'"' || b == b'\''
}

/// Whether the byte begins an escape.
pub fn begins_escape(rules: WordRules, b: u8) -> bool
    ensures value { result ≡ begins_escape rules b }
    ensures backslash { IsTrue result → b ≡ 92 }
{
    match rules {
        WordRules::Escaped => b == b'\\',
        WordRules::Plain | WordRules::Names => false,
    }
}

/// The number that a digit stands for, or 36.
fn digit_of(b: u8) -> u8
    ensures value { result ≡ digit_value b }
    ensures ascii { result < 36 → b < 128 }
{
    match b {
        b'0'..=b'9' => b - b'0',
        b'A'..=b'Z' => b - b'A' + 10,
        b'a'..=b'z' => b - b'a' + 10,
        _ => 36,
    }
}

/// Whether the bytes begin with this number of digits in the base.
fn begins_with_digits(base: u8, count: usize, bytes: &[u8]) -> bool
    requires { base ≤ 36 }
    ensures value { result ≡ begins_with_digits base count bytes.now }
    ensures there { IsTrue result → count ≤ length bytes.now }
    ensures ascii { IsTrue result → All (λ b. b < 128) (take count bytes.now) }
{
    bytes.len() >= count && bytes[..count].iter().all(|b| digit_of(*b) < base)
}

/// The meaning of a backslash and this byte.
fn meaning_of(b: u8) -> Option<u8>
    ensures value { result ≡ meaning_of b }
    ensures ascii { IfSome result (λ m. (m < 128) × (b < 128)) }
{
    match b {
        b'a' => Some(7),
        b'b' => Some(8),
        b'f' => Some(12),
        b'n' => Some(b'\n'),
        b'r' => Some(b'\r'),
        b't' => Some(b'\t'),
        b'v' => Some(11),
        b's' => Some(b' '),
        b'\\' | b'"' | b'\'' => Some(b),
        _ => None,
    }
}

/// A backslash, by what follows it.
fn escape(behind: &[u8]) -> WordFront
    ensures value { spelling_of result ≡ escape behind.now }
    ensures there { IsThere (spelling_of result) 92 behind.now }
{
    let Some((first, more)) = behind.split_first() else {
        return WordFront::Kept(1);
    };
    if let Some(meaning) = meaning_of(*first) {
        return WordFront::Means(meaning, 2);
    }
    if *first == b'x' && begins_with_digits(16, 2, more) {
        let value = 16 * u16::from(digit_of(more[0])) + u16::from(digit_of(more[1]));
        return match u8::try_from(value) {
            Ok(value @ 1..=127) => WordFront::Means(value, 4),
            _ => WordFront::Bad,
        };
    }
    if begins_with_digits(8, 3, behind)
        || *first == b'u' && begins_with_digits(16, 4, more)
        || *first == b'U' && begins_with_digits(16, 8, more)
    {
        WordFront::Bad
    } else if is_space(*first) {
        WordFront::Kept(2)
    } else {
        WordFront::Kept(1)
    }
}

/// A byte that begins no escape.
fn bare(quote: Option<u8>, first: u8) -> WordFront
    requires { IfSome quote (λ q. q < 128) }
    ensures value { spelling_of result ≡ bare quote first }
    ensures there { (more : List ℕ) → IsThere (spelling_of result) first more }
{
    match quote {
        Some(quote) if first == quote => WordFront::Turn(None),
        Some(_) => WordFront::Kept(1),
        None if is_space(first) => WordFront::Stop,
        None if is_quote(first) => WordFront::Turn(Some(first)),
        None => WordFront::Kept(1),
    }
}

/// The front of a text, inside a quote or not.
pub fn front_at(rules: WordRules, quote: Option<u8>, first: u8, more: &[u8]) -> WordFront
    requires { IfSome quote (λ q. q < 128) }
    ensures value { spelling_of result ≡ spelled_at rules quote first more.now }
    ensures there { IsThere (spelling_of result) first more.now }
{
    if begins_escape(rules, first) {
        escape(more)
    } else {
        bare(quote, first)
    }
}
