//! The help of the client: a line for each verb, from the table of requests.

ghost use Rattle.std.specs.Prelude.{◌≡◌, ◌++◌, IfOk, OnOk, flat_map, map, string_bytes};
ghost use Rattle.um_ctl.specs.Help as model;
ghost use Rattle.um_model.specs.Requests as table;
ghost use Rattle.um_ctl.specs.Words.{takes_mode as takes_mode_of};

use crate::words::{is_among, is_argument, takes_text};
use std::alloc::{AllocError, Global};
use um_proto::{Mode, Verb, row_of, verbs_in};

/// Appends the fields that are arguments, each between these.
fn push_arguments(
    text: &mut String,
    left: &str,
    right: &str,
    names: &[&str],
) -> Result<(), AllocError>
    ensures { OnOk result (string_bytes text.new ≡ string_bytes text.old ++ model.arguments_shown left.now right.now (map (λ s. s.now) names.now)) }
{
    for name in names {
        if is_argument(name) {
            text.push_str(left)?;
            text.push_str(name)?;
            text.push_str(right)?;
        }
    }
    Ok(())
}

/// Whether a mode may be given to the verb.
fn takes_mode(verb: Verb) -> bool
    ensures { result ≡ takes_mode_of (table.row_of verb) }
{
    is_among("mode", row_of(verb).optional)
}

/// Appends the words, if this holds.
fn push_where(text: &mut String, holds: bool, words: &str) -> Result<(), AllocError>
    ensures { OnOk result (string_bytes text.new ≡ string_bytes text.old ++ model.words_where holds words.now) }
{
    if holds { text.push_str(words) } else { Ok(()) }
}

/// Appends the usage of the verb: `start [--mode <MODE>] <unit>`.
fn push_usage(text: &mut String, verb: Verb) -> Result<(), AllocError>
    ensures { OnOk result (string_bytes text.new ≡ string_bytes text.old ++ model.verb_usage (table.row_of verb)) }
{
    let row = row_of(verb);
    text.push_str(row.text)?;
    push_where(text, takes_mode(verb), " [--mode <MODE>]")?;
    push_arguments(text, " <", ">", row.required)?;
    push_arguments(text, " [", "]", row.optional)?;
    push_where(text, takes_text(verb), " < FILE")?;
    Ok(())
}

/// Appends the line of the verb.
fn push_line(text: &mut String, verb: Verb) -> Result<(), AllocError>
    ensures { OnOk result (string_bytes text.new ≡ string_bytes text.old ++ model.verb_line verb) }
{
    text.push_str("  ")?;
    push_usage(text, verb)?;
    text.push_str("\n")
}

/// A line for each verb that a manager knows at its socket: the verb with its arguments in their order, a required
/// one as `<unit>`, an optional one as `[unit]`.
pub fn verb_lines(alloc: Global) -> Result<String, AllocError>
    ensures { IfOk result (λ s. string_bytes s ≡ model.verb_lines) }
{
    let mut text = String::new(alloc);
    let verbs = verbs_in(Mode::Service);
    for verb in verbs {
        push_line(&mut text, *verb)?;
    }
    Ok(text)
}
