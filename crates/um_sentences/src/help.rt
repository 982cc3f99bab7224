//! The text that `umd help` prints for a word.

ghost use Rattle.std.specs.Prelude.{◌≡◌, ◌++◌, IfOk, OnOk, flat_map, map, string_bytes};
ghost use Rattle.um_sentences.specs.Sentences as model;

use crate::keys::{REFUSED_FRONTS, REFUSED_KEYS};
use crate::topics::{REASONS, Topic};
use std::alloc::{AllocError, Global};
use std::fmt::Write;

/// Appends the line of a key, with why it isn't served; `more` follows its name.
fn push_key(text: &mut String, key: &str, more: &str, why: &str) -> Result<(), AllocError>
    ensures { OnOk result (string_bytes text.new ≡ string_bytes text.old ++ model.key_line more.now (key.now, why.now)) }
{
    write!(text, "  {key}{more}= isn't served: {why}\n")
}

/// Appends a line for each of the keys.
fn push_keys(text: &mut String, known: &[(&str, &str)], more: &str) -> Result<(), AllocError>
    ensures { OnOk result (string_bytes text.new
        ≡ string_bytes text.old ++ flat_map (model.key_line more.now) (map (λ k. (k.0.now, k.1.now)) known.now)) }
{
    for (key, why) in known {
        push_key(text, key, more, why)?;
    }
    Ok(())
}

/// Appends a line for each key that no unit may have.
fn push_all_keys(text: &mut String) -> Result<(), AllocError>
    ensures { OnOk result (string_bytes text.new ≡ string_bytes text.old ++ model.key_lines) }
{
    push_keys(text, &REFUSED_KEYS, "")?;
    push_keys(text, &REFUSED_FRONTS, "..")?;
    Ok(())
}

/// Appends the text after the sentence of a topic.
fn push_behind(text: &mut String, topic: Topic) -> Result<(), AllocError>
    ensures { OnOk result (string_bytes text.new ≡ string_bytes text.old ++ model.behind_topic topic) }
{
    match topic {
        Topic::Setting => push_all_keys(text),
        _ => Ok(()),
    }
}

/// The text that `umd help` prints for a word that has this topic: a line of the word and the topic's sentence. For
/// `setting`, a line for each key that no unit may have follows.
pub fn topic_help(alloc: Global, word: &str, topic: Topic) -> Result<String, AllocError>
    ensures { IfOk result (λ text. string_bytes text ≡ model.topic_help word.now topic) }
{
    let sentence = topic.sentence();
    let mut text = format!(in alloc; "{word}: {sentence}\n")?;
    push_behind(&mut text, topic)?;
    Ok(text)
}

/// Appends the line of a reason.
fn push_reason(text: &mut String, word: &str, topic: Topic) -> Result<(), AllocError>
    ensures { OnOk result (string_bytes text.new ≡ string_bytes text.old ++ model.reason_line (word.now, topic)) }
{
    let sentence = topic.sentence();
    write!(text, "  {word}: {sentence}\n")
}

/// Appends a line for each of the reasons.
fn push_reasons(text: &mut String, known: &[(&str, Topic)]) -> Result<(), AllocError>
    ensures { OnOk result (string_bytes text.new ≡ string_bytes text.old ++ flat_map model.reason_line (map (λ k. (k.0.now, k.1)) known.now)) }
{
    for (word, topic) in known {
        push_reason(text, word, *topic)?;
    }
    Ok(())
}

/// Appends a line for each reason of E6.
#[tactic(auto, unfolding(crate::specs::Sentences::reason_lines))]
fn push_all_reasons(text: &mut String) -> Result<(), AllocError>
    ensures { OnOk result (string_bytes text.new ≡ string_bytes text.old ++ model.reason_lines) }
{
    push_reasons(text, &REASONS)?;
    Ok(())
}

/// A line for each reason of `E6 BadSetting`, as `  type: the Type= isn't served: simple, exec and oneshot are.`
pub fn reason_lines(alloc: Global) -> Result<String, AllocError>
    ensures { IfOk result (λ text. string_bytes text ≡ model.reason_lines) }
{
    let mut text = String::new(alloc);
    push_all_reasons(&mut text)?;
    Ok(text)
}
