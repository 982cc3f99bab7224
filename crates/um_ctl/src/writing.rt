//! The request as JSON.

ghost use Rattle.std.specs.Prelude.{◌≡◌, IfOk, OnOk, map, option_map};
ghost use Rattle.serde_json.specs.Data.{object};
ghost use Rattle.serde_json.specs.View.{view, members_view};
ghost use Rattle.serde_json.specs.Written.{compact_text};
ghost use Rattle.um_ctl.specs.Words as model;

use crate::words::{Words, argument_names};
use serde_json::{Map, Value};
use std::alloc::{AllocError, Global};
use um_proto::{Verb, row_of};

/// Adds a field with its text.
fn tell(
    alloc: Global,
    members: &mut Map<String, Value>,
    name: &str,
    text: &str,
) -> Result<(), AllocError>
    ensures { OnOk result (members_view members.new.entries ≡ model.with_field name.now text.now (members_view members.old.entries)) }
{
    let name = String::from_str(alloc, name)?;
    let text = String::from_str(alloc, text)?;
    members.insert(name, Value::String(text))?;
    Ok(())
}

/// Adds an optional field.
fn tell_some(
    alloc: Global,
    members: &mut Map<String, Value>,
    name: &str,
    text: Option<&str>,
) -> Result<(), AllocError>
    ensures { OnOk result (members_view members.new.entries ≡ model.with_told name.now (option_map (λ s. s.now) text.entry) (members_view members.old.entries)) }
{
    match text {
        Some(text) => tell(alloc, members, name, text),
        None => Ok(()),
    }
}

/// Adds the arguments, each under its name.
fn tell_arguments(
    alloc: Global,
    members: &mut Map<String, Value>,
    names: &[&str],
    arguments: &[&str],
) -> Result<(), AllocError>
    ensures { OnOk result (members_view members.new.entries ≡ model.with_arguments (map (λ s. s.now) names.now) (map (λ s. s.now) arguments.now) (members_view members.old.entries)) }
{
    let Some((name, names)) = names.split_first() else {
        return Ok(());
    };
    let Some((argument, arguments)) = arguments.split_first() else {
        return Ok(());
    };
    tell(alloc, members, name, argument)?;
    tell_arguments(alloc, members, names, arguments)
}

/// The object of a request.
fn request_value(
    alloc: Global,
    verb: Verb,
    words: &Words,
    text: Option<&str>,
) -> Result<Value, AllocError>
    ensures { IfOk result (λ v. view v ≡ model.request_data verb (map (λ s. s.now) words.now.arguments.now) (option_map (λ s. s.now) text.entry) (option_map (λ s. s.now) words.now.mode)) }
{
    let names = argument_names(alloc, verb)?;
    let mut members = Map::new(alloc);
    tell(alloc, &mut members, "verb", row_of(verb).text)?;
    tell_arguments(alloc, &mut members, names.as_slice(), words.arguments)?;
    tell_some(alloc, &mut members, "text", text)?;
    tell_some(alloc, &mut members, "mode", words.mode)?;
    Ok(Value::Object(members))
}

/// The text of the request for a verb, with the arguments and the mode of the words and the text of a file. It is
/// compact JSON, which a manager reads as exactly this request.
pub fn request(
    alloc: Global,
    verb: Verb,
    words: &Words,
    text: Option<&str>,
) -> Result<Vec<u8>, AllocError>
    ensures text { IfOk result (λ bytes. bytes.items ≡ compact_text (model.request_data verb (map (λ s. s.now) words.now.arguments.now) (option_map (λ s. s.now) text.entry) (option_map (λ s. s.now) words.now.mode))) }
    ensures read { IfOk result (λ bytes. model.IsReadAs bytes.items (model.request_data verb (map (λ s. s.now) words.now.arguments.now) (option_map (λ s. s.now) text.entry) (option_map (λ s. s.now) words.now.mode))) }
{
    let value = request_value(alloc, verb, words, text)?;
    let bytes = value.to_vec(alloc)?;
    Ok(bytes)
}
