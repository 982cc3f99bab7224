//! The words of `umd ctl`, and the verb that they stand for.

ghost use Rattle.std.specs.Prelude.{◌≡◌, ◌++◌, IfOk, length, map, option_map, filter, is_some};
ghost use Rattle.um_ctl.specs.Words as model;
ghost use Rattle.um_model.specs.Requests.{job_mode_of, is_among as is_among_texts};
ghost use Rattle.um_model.specs.Requests as table;

use std::alloc::{AllocError, Global};
use um_proto::{Mode, Verb, row_of, verb_in};

/// The words after `umd ctl`, as they are written.
#[derive(Clone, Copy, Debug)]
pub struct Words<'a> {
    pub verb: &'a str,
    pub arguments: &'a [&'a str],
    /// The value of `--mode`.
    pub mode: Option<&'a str>,
}

/// Whether an argument gives the field: neither the text nor the mode.
pub(crate) fn is_argument(name: &str) -> bool
    ensures { result ≡ model.is_argument name.now }
{
    name != "text" && name != "mode"
}

/// How many of these fields are arguments.
fn argument_count(names: &[&str]) -> usize
    ensures { result ≡ length (filter model.is_argument (map (λ s. s.now) names.now)) }
{
    let mut count = 0;
    for name in names {
        if is_argument(name) {
            count += 1;
        }
    }
    count
}

/// The fields, followed by those of these that are arguments.
fn with_argument_names(
    found: Vec<&'static str>,
    names: &'static [&'static str],
) -> Result<Vec<&'static str>, AllocError>
    ensures { IfOk result (λ all. map (λ s. s.now) all.items ≡ map (λ s. s.now) found.entry.items ++ filter model.is_argument (map (λ s. s.now) names.now)) }
{
    let mut all = found;
    for name in names {
        if is_argument(name) {
            all.push(*name)?;
        }
    }
    Ok(all)
}

/// The fields that are arguments, in their order.
pub(crate) fn argument_names(alloc: Global, verb: Verb) -> Result<Vec<&'static str>, AllocError>
    ensures { IfOk result (λ names. map (λ s. s.now) names.items ≡ model.argument_names (table.row_of verb)) }
{
    let row = row_of(verb);
    let names = with_argument_names(Vec::new(alloc), row.required)?;
    with_argument_names(names, row.optional)
}

pub(crate) fn is_among(text: &str, texts: &[&str]) -> bool
    ensures { result ≡ is_among_texts text.now (map (λ s. s.now) texts.now) }
{
    texts.iter().any(|other| text == *other)
}

/// Whether the text of a file comes on standard input.
pub(crate) fn takes_text(verb: Verb) -> bool
    ensures { result ≡ model.takes_text (table.row_of verb) }
{
    is_among("text", row_of(verb).required)
}

/// Whether the verb takes this number of arguments.
fn fits_count(verb: Verb, count: usize) -> bool
    ensures { result ≡ model.fits_count (table.row_of verb) count }
{
    let row = row_of(verb);
    let required = argument_count(row.required);
    required <= count && count - required <= argument_count(row.optional)
}

/// Whether the word is a job mode, which decides about pending jobs in a command's way.
fn is_job_mode(word: &str) -> bool
    ensures { result ≡ is_some (job_mode_of word.now) }
{
    word == "replace" || word == "fail"
}

/// Whether this mode may be given to the verb.
fn fits_mode(verb: Verb, mode: Option<&str>) -> bool
    ensures { result ≡ model.fits_mode (table.row_of verb) (option_map (λ s. s.now) mode.entry) }
{
    match mode {
        Some(mode) => is_among("mode", row_of(verb).optional) && is_job_mode(mode),
        None => true,
    }
}

impl<'a> Words<'a> {
    /// The verb of the words. `None` for wrong words: an unknown verb, a number of arguments that the verb doesn't
    /// take, a mode for a verb that has none, or a mode other than `replace` and `fail`.
    pub fn verb(&self) -> Option<Verb>
        ensures { result ≡ model.verb_of self.now.verb.now (length self.now.arguments.now) (option_map (λ s. s.now) self.now.mode) }
    {
        let verb = verb_in(Mode::Service, self.verb)?;
        if fits_count(verb, self.arguments.len()) && fits_mode(verb, self.mode) {
            Some(verb)
        } else {
            None
        }
    }
}
