//! Options and words, and their values.

ghost use Rattle.std.specs.Prelude.{◌≡◌, ◌↔◌, Some, IfOk, IsTrue, codes, false, map, option_map};
ghost use Rattle.clap.specs.Words.{all_of, app_of, first_of, found_of, new_app, rows_of, rule_of, with_rule};
ghost use Rattle.um_line.specs.Line.{any_words_rule, flag_rule, letter_flag_rule, letter_rule, option_rule, optional_rule, word_rule, words_rule};

use clap::{Arg, ArgAction, ArgMatches, Command};
use std::alloc::{AllocError, Global};

/// A command without arguments, with its description.
pub fn described<'a>(
    alloc: Global,
    name: &'a str,
    usage: &'a str,
    about: &'a str,
    after: &'a str,
) -> Command<'a>
    ensures { app_of result ≡ new_app name.entry.now }
{
    Command::new(alloc, name)
        .override_usage(usage)
        .about(about)
        .after_help(after)
}

/// A required option of this name with one value; `value` and `help` are shown in the help.
pub fn option<'a>(alloc: Global, name: &'a str, value: &'a str, help: &'a str) -> Arg<'a>
    ensures rule { rule_of result ≡ option_rule name.entry.now }
    ensures local { result.global ≡ false }
{
    Arg::new(alloc, name)
        .long(name)
        .value_name(value)
        .help(help)
        .required(true)
}

/// The command with one more required option.
pub fn with_option<'a>(
    command: Command<'a>,
    alloc: Global,
    name: &'a str,
    value: &'a str,
    help: &'a str,
) -> Result<Command<'a>, AllocError>
    ensures { IfOk result (λ c. app_of c ≡ with_rule (app_of command.entry) (option_rule name.entry.now)) }
{
    command.arg(option(alloc, name, value, help))
}

/// A required word; `value` and `help` are shown in the help.
pub fn word<'a>(alloc: Global, name: &'a str, value: &'a str, help: &'a str) -> Arg<'a>
    ensures rule { rule_of result ≡ word_rule name.entry.now }
    ensures local { result.global ≡ false }
{
    Arg::new(alloc, name)
        .value_name(value)
        .help(help)
        .required(true)
}

/// The command with one more required word.
pub fn with_word<'a>(
    command: Command<'a>,
    alloc: Global,
    name: &'a str,
    value: &'a str,
    help: &'a str,
) -> Result<Command<'a>, AllocError>
    ensures { IfOk result (λ c. app_of c ≡ with_rule (app_of command.entry) (word_rule name.entry.now)) }
{
    command.arg(word(alloc, name, value, help))
}

/// An option of this name with one value, which may be omitted.
pub fn optional<'a>(alloc: Global, name: &'a str, value: &'a str, help: &'a str) -> Arg<'a>
    ensures rule { rule_of result ≡ optional_rule name.entry.now }
    ensures local { result.global ≡ false }
{
    Arg::new(alloc, name)
        .long(name)
        .value_name(value)
        .help(help)
}

/// The command with one more option that may be omitted.
pub fn with_optional<'a>(
    command: Command<'a>,
    alloc: Global,
    name: &'a str,
    value: &'a str,
    help: &'a str,
) -> Result<Command<'a>, AllocError>
    ensures { IfOk result (λ c. app_of c ≡ with_rule (app_of command.entry) (optional_rule name.entry.now)) }
{
    command.arg(optional(alloc, name, value, help))
}

/// A flag, which is optional.
pub fn flag<'a>(alloc: Global, name: &'a str, help: &'a str) -> Arg<'a>
    ensures rule { rule_of result ≡ flag_rule name.entry.now }
    ensures local { result.global ≡ false }
{
    Arg::new(alloc, name)
        .long(name)
        .help(help)
        .action(ArgAction::SetTrue)
}

/// An option of one letter, which is optional.
pub fn letter<'a>(
    alloc: Global,
    name: &'a str,
    short: char,
    value: &'a str,
    help: &'a str,
) -> Arg<'a>
    ensures rule { rule_of result ≡ letter_rule name.entry.now short }
    ensures local { result.global ≡ false }
{
    Arg::new(alloc, name)
        .short(short)
        .value_name(value)
        .help(help)
}

/// A flag of one letter, which is optional.
pub fn letter_flag<'a>(alloc: Global, name: &'a str, short: char, help: &'a str) -> Arg<'a>
    ensures rule { rule_of result ≡ letter_flag_rule name.entry.now short }
    ensures local { result.global ≡ false }
{
    Arg::new(alloc, name)
        .short(short)
        .help(help)
        .action(ArgAction::SetTrue)
}

/// The command with one more option of one letter, which may be omitted.
pub fn with_letter<'a>(
    command: Command<'a>,
    alloc: Global,
    name: &'a str,
    short: char,
    value: &'a str,
    help: &'a str,
) -> Result<Command<'a>, AllocError>
    ensures { IfOk result (λ c. app_of c ≡ with_rule (app_of command.entry) (letter_rule name.entry.now short)) }
{
    command.arg(letter(alloc, name, short, value, help))
}

/// The command with one more optional flag of one letter.
pub fn with_letter_flag<'a>(
    command: Command<'a>,
    alloc: Global,
    name: &'a str,
    short: char,
    help: &'a str,
) -> Result<Command<'a>, AllocError>
    ensures { IfOk result (λ c. app_of c ≡ with_rule (app_of command.entry) (letter_flag_rule name.entry.now short)) }
{
    command.arg(letter_flag(alloc, name, short, help))
}

/// The command with one more optional flag.
pub fn with_flag<'a>(
    command: Command<'a>,
    alloc: Global,
    name: &'a str,
    help: &'a str,
) -> Result<Command<'a>, AllocError>
    ensures { IfOk result (λ c. app_of c ≡ with_rule (app_of command.entry) (flag_rule name.entry.now)) }
{
    command.arg(flag(alloc, name, help))
}

/// One or more words, collected under this name.
pub fn words<'a>(alloc: Global, name: &'a str, value: &'a str, help: &'a str) -> Arg<'a>
    ensures rule { rule_of result ≡ words_rule name.entry.now }
    ensures local { result.global ≡ false }
{
    Arg::new(alloc, name)
        .value_name(value)
        .help(help)
        .required(true)
        .action(ArgAction::Append)
}

/// The command with one or more further words.
pub fn with_words<'a>(
    command: Command<'a>,
    alloc: Global,
    name: &'a str,
    value: &'a str,
    help: &'a str,
) -> Result<Command<'a>, AllocError>
    ensures { IfOk result (λ c. app_of c ≡ with_rule (app_of command.entry) (words_rule name.entry.now)) }
{
    command.arg(words(alloc, name, value, help))
}

/// Any number of words, collected under this name.
pub fn any_words<'a>(alloc: Global, name: &'a str, value: &'a str, help: &'a str) -> Arg<'a>
    ensures rule { rule_of result ≡ any_words_rule name.entry.now }
    ensures local { result.global ≡ false }
{
    Arg::new(alloc, name)
        .value_name(value)
        .help(help)
        .action(ArgAction::Append)
}

/// The command with any number of further words.
pub fn with_any_words<'a>(
    command: Command<'a>,
    alloc: Global,
    name: &'a str,
    value: &'a str,
    help: &'a str,
) -> Result<Command<'a>, AllocError>
    ensures { IfOk result (λ c. app_of c ≡ with_rule (app_of command.entry) (any_words_rule name.entry.now)) }
{
    command.arg(any_words(alloc, name, value, help))
}

/// The value of an option or a word.
pub fn value<'a>(matches: &ArgMatches<'a>, name: &str) -> Option<&'a str>
    ensures { option_map (λ s. s.now) result ≡ first_of name.now (rows_of (found_of matches.now)) }
{
    matches.get_str(name)
}

/// Whether the flag was given.
pub fn is_given(matches: &ArgMatches<'_>, name: &str) -> bool
    ensures { IsTrue result ↔ (first_of name.now (rows_of (found_of matches.now)) ≡ Some (codes "true")) }
{
    value(matches, name) == Some("true")
}

/// A copy of the texts.
pub fn copied<'a>(alloc: Global, texts: &[&'a str]) -> Result<Vec<&'a str>, AllocError>
    ensures { IfOk result (λ copies. copies.items ≡ texts.now) }
{
    let mut copies = Vec::new(alloc);
    copies.extend_from_slice(texts)?;
    Ok(copies)
}

/// The values of a word that may stand several times.
pub fn values<'m, 'a>(matches: &'m ArgMatches<'a>, name: &str) -> Option<&'m [&'a str]>
    ensures { option_map (λ s. map (λ v. v.now) s.now) result ≡ all_of name.now (rows_of (found_of matches.now)) }
{
    matches.get_raw(name)
}
