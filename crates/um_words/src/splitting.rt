//! The words of a text.

ghost use Rattle.std.specs.Prelude.{◌≡◌, ℕ, List, IfOk, MatchOption, map, option_map, string_bytes};
ghost use Rattle.um_model.specs.Pieces.{reading};
ghost use Rattle.um_model.specs.Words.{piece_of_words, words_of};
ghost use Rattle.um_model.specs.declared.words.WordRules.TheVariants.{Escaped, Names};
ghost use Rattle.um_words.specs.Views.{word_of};

use crate::spelling::is_space;
use crate::word::{Spelled, word};
use std::alloc::{AllocError, Global};
use um_model::WordRules;

/// The words of a text by these rules, each with its spelling; `None` if the text can't be read.
pub fn spelled<'a>(
    alloc: Global,
    rules: WordRules,
    text: &'a str,
) -> Result<Option<Vec<Spelled<'a>>>, AllocError>
    ensures { IfOk result (λ r. option_map (λ words. map word_of words.items) r ≡ reading (piece_of_words rules) text.now) }
{
    let mut words = Vec::new(alloc);
    let mut rest = text;
    while let Some(first) = rest.as_bytes().first() {
        if is_space(*first) {
            rest = &rest[1..];
            continue;
        }
        let Some((value, after)) = word(alloc, rules, rest)? else {
            return Ok(None);
        };
        let spelling = &rest.as_bytes()[..rest.len() - after.len()];
        words.push(Spelled { spelling, value })?;
        rest = after;
    }
    Ok(Some(words))
}

/// The words of a text by these rules; `None` if the text can't be read.
#[tactic(auto, unfolding(um_model::specs::Words::words_of))]
pub(crate) fn words_by(
    alloc: Global,
    rules: WordRules,
    text: &str,
) -> Result<Option<Vec<String>>, AllocError>
    ensures { IfOk result (λ r. option_map (λ words. map string_bytes words.items) r ≡ words_of rules text.now) }
{
    let Some(spelled) = spelled(alloc, rules, text)? else {
        return Ok(None);
    };
    let mut words = Vec::new(alloc);
    for word in spelled {
        words.push(word.value)?;
    }
    Ok(Some(words))
}

/// The words of a setting, split at spaces and tabs. `"` and `'` quote, and may open anywhere in a word. Inside
/// quotes and outside, `\a \b \f \n \r \t \v \\ \" \'` mean the same as in C, `\s` a space and `\x01` to `\x7f` the
/// byte of that number; any other backslash stays, with the character after it. `None` for an unclosed quote, `\x`
/// and two hexadecimal digits of another number, `\` and three octal digits, `\u` and four or `\U` and eight
/// hexadecimal digits (systemd.syntax(7), "Quoting").
pub fn words(alloc: Global, text: &str) -> Result<Option<Vec<String>>, AllocError>
    ensures { IfOk result (λ r. option_map (λ words. map string_bytes words.items) r ≡ words_of Escaped text.now) }
{
    words_by(alloc, WordRules::Escaped, text)
}

/// The words of a list of unit names: `"` and `'` quote, and each backslash stays as it is written. `None` for an
/// unclosed quote (systemd.unit(5)).
pub fn names(alloc: Global, text: &str) -> Result<Option<Vec<String>>, AllocError>
    ensures { IfOk result (λ r. option_map (λ words. map string_bytes words.items) r ≡ words_of Names text.now) }
{
    words_by(alloc, WordRules::Names, text)
}
