//! Variables in the words of a command, as the command starts.

ghost use Rattle.std.specs.Prelude.{◌≡◌, ◌≤◌, ◌+◌, ◌-◌, ◌++◌, List, IfOk, OnOk, length, drop, map, string_bytes};
ghost use Rattle.um_model.specs.Pieces.{Gives};
ghost use Rattle.um_model.specs.Pieces.{StandsForText};
ghost use Rattle.um_model.specs.Substitution.{dollar_front, piece_front, AreSubstituted};
ghost use Rattle.um_model.specs.Substitution as pure;
ghost use Rattle.um_words.specs.Environment.{variables_of};
ghost use Rattle.um_words.specs.Substituted.{becomes};
ghost use Rattle.um_words.specs.Values.{Holds};

use crate::values::Values;
use crate::variables::{Variable, braced_name, whole_name};
use std::alloc::{AllocError, Global};

/// The text that a `$` stands for, by the text after it, and the rest.
pub(crate) fn piece<'a>(values: &'a Values, behind: &'a str) -> (&'a str, &'a str)
    ensures front { (environment : List pure.Variable) → Holds environment values.now
        → dollar_front environment behind.now ≡ Gives result.0.now (length behind.now - length result.1.now + 1) }
    ensures rest { result.1.now ≡ drop (length behind.now - length result.1.now) behind.now }
    ensures within { length result.1.now ≤ length behind.now }
{
    if let Some(rest) = behind.strip_prefix('$') {
        return ("$", rest);
    }
    match braced_name(behind) {
        Some((name, rest)) => (values.text(name), rest),
        None => ("$", behind),
    }
}

/// The word with each `${NAME}` filled in.
fn filled<'a>(alloc: Global, values: &'a Values, word: &'a str) -> Result<String, AllocError>
    ensures { IfOk result (λ text. (environment : List pure.Variable) → Holds environment values.now
        → StandsForText (piece_front environment) word.now (string_bytes text)) }
{
    let mut text = String::new(alloc);
    let mut rest = word;
    while let Some((before, behind)) = rest.split_once('$') {
        let (value, after) = piece(values, behind);
        text.push_str(before)?;
        text.push_str(value)?;
        rest = after;
    }
    text.push_str(rest)?;
    Ok(text)
}

/// Adds these words.
fn push_all(words: &mut Vec<String>, more: &[String]) -> Result<(), AllocError>
    ensures { OnOk result (map string_bytes words.new.items ≡ map string_bytes words.old.items ++ map string_bytes more.now) }
{
    for word in more {
        words.push(word.clone()?)?;
    }
    Ok(())
}

/// Adds the result of a word.
fn push_substituted(
    alloc: Global,
    values: &Values,
    word: &str,
    words: &mut Vec<String>,
) -> Result<(), AllocError>
    ensures { OnOk result ((environment : List pure.Variable) → Holds environment values.now
        → map string_bytes words.new.items ≡ map string_bytes words.old.items ++ becomes environment word.now) }
{
    match whole_name(word) {
        Some(name) => push_all(words, values.words(name))?,
        None => words.push(filled(alloc, values, word)?)?,
    }
    Ok(())
}

/// The words of a command with its variables, as the command starts. The first word stays. If the whole word is
/// `$NAME`, it becomes the words of the value, split at spaces and tabs, where `"` and `'` quote and are removed;
/// there a backslash stands for itself, and an unclosed quote reaches to the end. In any other word, from the left,
/// `$$` becomes `$` and `${NAME}` the value; any other `$` stands for itself. An unset variable is empty, and of
/// equal names the later counts (systemd.service(5), "Command lines").
pub fn substitute(
    alloc: Global,
    words: &[String],
    environment: &[Variable],
) -> Result<Vec<String>, AllocError>
    ensures { IfOk result (λ r. AreSubstituted (variables_of environment.now) (map string_bytes words.now) (map string_bytes r.items)) }
{
    let mut substituted = Vec::new(alloc);
    let Some((first, others)) = words.split_first() else {
        return Ok(substituted);
    };
    let values = Values::of(alloc, environment)?;
    substituted.push(first.clone()?)?;
    for word in others {
        push_substituted(alloc, &values, word, &mut substituted)?;
    }
    Ok(substituted)
}
