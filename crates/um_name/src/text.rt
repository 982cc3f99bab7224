//! The parts of any text, read as a unit name.
ghost use Rattle.std.specs.Prelude.{◌≡◌, IfOk, string_bytes};
ghost use Rattle.um_model.specs.Names as names;

use crate::suffixes::suffix_of;
use std::alloc::{AllocError, Global};

// These also work for a text that is no unit name: the target of a link is read before it is known to be a name.

/// The text before the suffix, or all of a text without one.
fn stem_of(text: &str) -> &str
    ensures { result.now ≡ names.stem_of text.now }
{
    match suffix_of(text) {
        Some(suffix) => &text[..text.len() - suffix.text().len()],
        None => text,
    }
}

/// The text before the first `@` and the suffix.
fn prefix_of(text: &str) -> &str
    ensures { result.now ≡ names.prefix_of text.now }
{
    let stem = stem_of(text);
    match stem.split_once('@') {
        Some((prefix, _)) => prefix,
        None => stem,
    }
}

/// Whether the text has an `@` and an empty instance.
pub fn is_template(text: &str) -> bool
    ensures { result ≡ names.is_template text.now }
{
    match stem_of(text).split_once('@') {
        Some((_, instance)) => instance.is_empty(),
        None => false,
    }
}

/// The text with this instance, in place of its own if it has one.
pub fn with_instance(alloc: Global, text: &str, instance: &str) -> Result<String, AllocError>
    ensures { IfOk result (λ t. string_bytes t ≡ names.with_instance text.now instance.now) }
{
    let mut named = String::from_str(alloc, prefix_of(text))?;
    named.push('@')?;
    named.push_str(instance)?;
    if let Some(suffix) = suffix_of(text) {
        named.push_str(suffix.text())?;
    }
    Ok(named)
}
