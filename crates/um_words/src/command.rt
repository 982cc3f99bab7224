//! The commands of a text.

ghost use Rattle.std.specs.Prelude.{◌≡◌, ◌++◌, ◌==◌, ℕ, List, IfOk, OnOk, MatchOption, bytes_eq, drop, length, map, string_bytes};
ghost use Rattle.std.specs.Option.{option_map};
ghost use Rattle.std.specs.List.{list_any, prefix_len};
ghost use Rattle.um_model.specs.Commands.{commands_read, command_of, is_separator, is_sign, value_in_command, is_executable_word};
ghost use Rattle.um_words.specs.Views.{word_of};
ghost use Rattle.um_words.specs.Commands.{command_seen, commands_seen, signs_of};

use crate::splitting::spelled;
use crate::word::Spelled;
use std::alloc::{AllocError, Global};
use um_model::WordRules;

/// A command of a setting: its words, and the meaning of the signs before the first one.
#[derive(Debug, PartialEq, Eq, Drop)]
pub struct Command {
    /// One or more words, the first without its signs.
    pub words: Vec<String>,
    /// There is a `-` in front: a failure counts as success.
    pub ignores_failure: bool,
    /// There is no `:` in front: variables stand for their values.
    pub substitutes: bool,
}

fn is_separator(word: &Spelled) -> bool
    ensures { result ≡ is_separator (word_of word.now) }
{
    word.spelling == ";".as_bytes()
}

/// The text that a word of a command stands for.
fn in_command(alloc: Global, word: Spelled) -> Result<String, AllocError>
    ensures { IfOk result (λ value. string_bytes value ≡ value_in_command (word_of word.entry)) }
{
    if word.spelling == "\\;".as_bytes() {
        Ok(String::from_str(alloc, ";")?)
    } else {
        Ok(word.value)
    }
}

fn is_sign(b: u8) -> bool
    ensures { result ≡ is_sign b }
{
    matches!(b, b'-' | b':' | b'+' | b'!')
}

/// How many signs stand in front.
fn signs_len(first: &str) -> usize
    ensures { result ≡ prefix_len is_sign first.now }
{
    let bytes = first.as_bytes().iter();
    bytes.take_while(|b| is_sign(**b)).count()
}

/// The signs in front, and what follows them.
fn split_signs(first: &str) -> (&str, &str)
    ensures signs { result.0.now ≡ signs_of first.now }
    ensures rest { result.1.now ≡ drop (length result.0.now) first.now }
{
    first.split_at(signs_len(first))
}

/// Whether the text holds the byte.
fn has(text: &str, byte: u8) -> bool
    ensures { result ≡ list_any (λ b. b == byte) text.now }
{
    text.as_bytes().iter().any(|b| *b == byte)
}

/// Adds the command of these words, if there are any.
fn push_command(
    alloc: Global,
    commands: &mut Vec<Command>,
    mut words: Vec<String>,
) -> Result<(), AllocError>
    ensures { OnOk result (commands_seen commands.new.items ≡ commands_seen commands.old.items ++ command_of (map string_bytes words.items)) }
{
    let Some(first) = words.first_mut() else {
        return Ok(());
    };
    let (signs, rest) = split_signs(first.as_str());
    let ignores_failure = has(signs, b'-');
    let substitutes = !has(signs, b':');
    let word = String::from_str(alloc, rest)?;
    *first = word;
    commands.push(Command {
        words,
        ignores_failure,
        substitutes,
    })?;
    Ok(())
}

/// The commands of a setting. Its words are read as `words` reads them. A word that is written as a lone `;`
/// separates commands, and a command without words is left out; a word that is written `\;` is `;`. Any of `-`, `:`,
/// `+` and `!` before a command's first word are cut off; `+` and `!` have no effect. `None` if the text can't be
/// read (systemd.service(5), "Command lines").
pub fn commands(alloc: Global, text: &str) -> Result<Option<Vec<Command>>, AllocError>
    ensures { IfOk result (λ r. option_map (λ commands. commands_seen commands.items) r ≡ commands_read text.now) }
{
    let Some(spelled) = spelled(alloc, WordRules::Escaped, text)? else {
        return Ok(None);
    };
    let mut commands = Vec::new(alloc);
    let mut words = Vec::new(alloc);
    for word in spelled {
        if is_separator(&word) {
            push_command(alloc, &mut commands, words)?;
            words = Vec::new(alloc);
        } else {
            words.push(in_command(alloc, word)?)?;
        }
    }
    push_command(alloc, &mut commands, words)?;
    Ok(Some(commands))
}

/// Whether the first word of a command, its specifiers expanded, can be run: an absolute path, or a name without `/`. An
/// empty word can't.
pub fn is_executable_word(word: &str) -> bool
    ensures { result ≡ is_executable_word word.now }
{
    match word.as_bytes() {
        [] => false,
        [first, ..] => *first == b'/' || !has(word, b'/'),
    }
}
