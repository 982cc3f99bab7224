//! The words of `umd help`.

ghost use Rattle.std.specs.Prelude.{◌∷◌, [], IfOk, MatchOption, map, string_bytes};
ghost use Rattle.um_line.specs.Line.{IsCode, IsHelpLine, IsNoCode};

use crate::check::read_check;
use crate::create::read_create;
use crate::ctl::read_ctl;
use crate::line::{Line, Subcommand, named};
use crate::logs::read_logs;
use crate::run::read_run;
use crate::serve::read_serve;
use crate::status::read_status;
use crate::verify::read_verify;
use std::alloc::{AllocError, Global};
use um_runner::number_in;
use um_sentences::{Topic, topic_named};

/// A word of a reply whose meaning is wanted.
#[derive(Clone, Copy, Debug)]
pub struct TopicLine<'a> {
    pub word: &'a str,
    /// The kind of the word.
    pub topic: Topic,
}

/// The number of the last refusal.
const LAST: u64 = 22;

/// The text of `umd help --help`.
const HELP: &str =
    "Says what a refusal means and what to do, what a reason or a result means, or how a subcommand is used

Usage: umd help <WORD>

WORD is the first word of the line that a refusal prints, E1 to E22; a reason of E6, as exec-count, or setting; a result, as exit-code; or a subcommand. 'umd --help' lists the subcommands.

For example:
  umd help E9
  umd help exec-count
  umd help serve
";

/// The error for other words after `umd help`.
const USAGE: &str = "error: there is no help for these words: a refusal is E1 to E22

Usage: umd help <WORD>

For more information, try 'umd help --help', or 'umd --help' for the subcommands.
";

/// The number of the refusal that the word stands for.
fn code_in(word: &str) -> Option<u32>
    ensures { MatchOption result (IsNoCode word.now) (λ n. IsCode n word.now) }
{
    let (first, digits) = word.as_bytes().split_first()?;
    if *first != b'E' && *first != b'e' {
        return None;
    }
    let number = number_in(digits)?;
    if number < 1 || number > LAST {
        return None;
    }
    Some(number as u32)
}

/// The line for the words of a subcommand followed by `--help`.
fn told_of<'a>(
    alloc: Global,
    subcommand: Subcommand,
    words: &'a [String],
) -> Result<Line<'a>, AllocError> {
    match subcommand {
        Subcommand::Create => read_create(alloc, words),
        Subcommand::Check => read_check(alloc, words),
        Subcommand::Serve => read_serve(alloc, words),
        Subcommand::Ctl => read_ctl(alloc, words),
        Subcommand::Status => read_status(alloc, words),
        Subcommand::Verify => read_verify(alloc, words),
        Subcommand::Logs => read_logs(alloc, words),
        Subcommand::Run => read_run(alloc, words.get(1..).unwrap_or(&[])),
        Subcommand::Help | Subcommand::Nothing => { Ok(Line::Told(String::from_str(alloc, HELP)?)) }
    }
}

/// The usage of the subcommand of this name.
fn usage_of(alloc: Global, subcommand: Subcommand, name: &str) -> Result<String, AllocError> {
    let mut words = Vec::new(alloc);
    words.push(String::from_str(alloc, name)?)?;
    words.push(String::from_str(alloc, "--help")?)?;
    match told_of(alloc, subcommand, words.as_slice())? {
        Line::Told(text) => Ok(text),
        line => {
            drop(line);
            Ok(String::new(alloc))
        }
    }
}

/// The line for one word after `help`.
fn help_line<'a>(alloc: Global, word: &'a str) -> Result<Line<'a>, AllocError>
    ensures { IfOk result (IsHelpLine (word.entry.now ∷ [])) }
{
    if let Some(number) = code_in(word) {
        return Ok(Line::Help(number));
    }
    let subcommand = named(word);
    if subcommand != Subcommand::Nothing {
        return Ok(Line::Told(usage_of(alloc, subcommand, word)?));
    }
    if let Some(topic) = topic_named(word) {
        return Ok(Line::Topic(TopicLine { word, topic }));
    }
    if word == "--help" {
        Ok(Line::Told(String::from_str(alloc, HELP)?))
    } else {
        Ok(Line::Wrong(String::from_str(alloc, USAGE)?))
    }
}

/// Reads the words after `help`: the code of a refusal, a reason of E6, a result, or a subcommand. No word at all and
/// `--help` show the usage of `help`.
pub fn read_help<'a>(alloc: Global, words: &'a [String]) -> Result<Line<'a>, AllocError>
    ensures { IfOk result (IsHelpLine (map string_bytes words.now)) }
{
    let Some((word, others)) = words.split_first() else {
        return Ok(Line::Told(String::from_str(alloc, HELP)?));
    };
    if others.is_empty() {
        help_line(alloc, word.as_str())
    } else {
        Ok(Line::Wrong(String::from_str(alloc, USAGE)?))
    }
}
