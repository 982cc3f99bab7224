//! The report of a reply: text and exit status.

ghost use Rattle.std.specs.Prelude.{◌≡◌, ◌++◌, true, IfOk, OnOk, codes, flat_map, option_map, map, string_bytes};
ghost use Rattle.std.specs.List.{list_all};
ghost use Rattle.serde_json.specs.Find.{get};
ghost use Rattle.serde_json.specs.View.{view};
ghost use Rattle.um_ctl.specs.Shown.{shown as shown_of};
ghost use Rattle.um_ctl.specs.Told as model;
ghost use Rattle.um_ctl.specs.View.{told_view};
ghost use Rattle.um_model.specs.Refusals.{refused as refused_of};

use crate::escapes::shown;
use serde_json::Value;
use std::alloc::{AllocError, Global};
use um_proto::Verb;

/// The report of a reply.
#[derive(Debug, Drop)]
pub struct Told {
    /// The text for standard output.
    pub output: String,
    /// The text for standard error.
    pub error: String,
    /// The exit status.
    pub status: u8,
}

/// The name of the refusal of this number.
pub(crate) fn name_of(number: u64) -> Option<&'static str>
    ensures { option_map (λ s. s.now) result ≡ model.name_of number }
{
    let name = match number {
        1 => "BadRequest",
        2 => "UnknownVerb",
        3 => "BadName",
        4 => "NotFound",
        5 => "Masked",
        6 => "BadSetting",
        7 => "NotLoaded",
        8 => "Clash",
        9 => "OrderingCycle",
        10 => "JobConflict",
        11 => "Exists",
        12 => "BadPath",
        13 => "TooLarge",
        14 => "NoRoom",
        15 => "NoMemory",
        16 => "Device",
        17 => "Reopen",
        18 => "Damaged",
        19 => "NotFormatted",
        20 => "GenerationsSpent",
        21 => "NoSuchJob",
        22 => "OtherLayout",
        _ => return None,
    };
    Some(name)
}

/// Adds the details, each after a space.
fn add_details(text: &mut String, details: &[Value]) -> Result<(), AllocError>
    ensures { OnOk result (string_bytes text.new ≡ string_bytes text.old ++ flat_map model.spaced (model.texts_in (map view details.now))) }
{
    for detail in details {
        if let Some(word) = detail.as_str() {
            text.push_str(" ")?;
            text.push_str(word)?;
        }
    }
    Ok(())
}

/// The number of the refusal in a reply.
fn number_in(reply: &Value) -> Option<u64>
    ensures { result ≡ model.number_in (view reply.now) }
{
    reply.get("error")?.as_u64()
}

/// The details of the refusal in a reply.
fn details_in(reply: &Value) -> Option<&Vec<Value>>
    ensures { option_map (λ v. map view v.now.items) result ≡ model.details_in (view reply.now) }
{
    reply.get("detail")?.as_array()
}

/// Whether each of the values is a text.
fn are_texts(values: &[Value]) -> bool
    ensures { result ≡ list_all model.is_text (map view values.now) }
{
    values.iter().all(Value::is_string)
}

/// A refusal in a reply.
#[derive(Clone, Copy)]
struct Refused<'v> {
    number: u64,
    name: &'static str,
    details: &'v [Value],
}

/// The refusal in a reply; each of its details has to be a text.
#[tactic(auto, unfolding(crate::specs::Told::refused_in))]
fn refused_in(reply: &Value) -> Option<Refused<'_>>
    ensures { option_map (λ r. refused_of r.number r.name.now (model.texts_in (map view r.details.now))) result ≡ model.refused_in (view reply.now) }
{
    let number = number_in(reply)?;
    let name = name_of(number)?;
    let details = details_in(reply)?;
    if !are_texts(details.as_slice()) {
        return None;
    }
    Some(Refused {
        number,
        name,
        details: details.as_slice(),
    })
}

/// The text of a refusal: `E4 NotFound b.service`.
fn refusal_text(alloc: Global, refused: Refused<'_>) -> Result<String, AllocError>
    ensures { IfOk result (λ s. string_bytes s ≡ model.refusal_text (refused_of refused.entry.number refused.entry.name.now (model.texts_in (map view refused.entry.details.now)))) }
{
    let digits = refused.number.to_string(alloc)?;
    let mut text = String::from_str(alloc, "E")?;
    text.push_str(digits.as_str())?;
    text.push_str(" ")?;
    text.push_str(refused.name)?;
    add_details(&mut text, refused.details)?;
    Ok(text)
}

/// The line of a refusal.
fn refusal_line(alloc: Global, refused: Refused<'_>) -> Result<String, AllocError>
    ensures { IfOk result (λ s. string_bytes s ≡ model.line (shown_of (model.refusal_text (refused_of refused.entry.number refused.entry.name.now (model.texts_in (map view refused.entry.details.now)))))) }
{
    let text = refusal_text(alloc, refused)?;
    let mut line = shown(alloc, text.as_str())?;
    line.push_str("\n")?;
    Ok(line)
}

/// The answers of `is-active`, `is-failed` and `is-enabled` are also shown by the exit status.
fn status_of(verb: Verb, value: &Value) -> u8
    ensures { result ≡ model.status_of verb (view value.now) }
{
    let word = value.as_str();
    match verb {
        Verb::IsActive => if word == Some("active") { 0 } else { 3 },
        Verb::IsFailed => if word == Some("failed") { 0 } else { 3 },
        Verb::IsEnabled => match word {
            Some("not-found" | "masked" | "disabled") => 3,
            _ => 0,
        },
        _ => 0,
    }
}

/// The report of a reply that isn't a refusal.
fn done_told(alloc: Global, verb: Verb, value: Option<&Value>) -> Result<Told, AllocError>
    ensures { IfOk result (λ t. model.is_plain (option_map (λ v. view v.now) value.entry) ≡ true → told_view t ≡ model.done_told verb (option_map (λ v. view v.now) value.entry)) }
{
    let error = String::new(alloc);
    let Some(value) = value else {
        return Ok(Told {
            output: String::new(alloc),
            error,
            status: 0,
        });
    };
    let mut output = value.to_string(alloc)?;
    output.push_str("\n")?;
    Ok(Told {
        output,
        error,
        status: status_of(verb, value),
    })
}

/// The report of a refusal.
fn refused_told(alloc: Global, refused: Refused<'_>) -> Result<Told, AllocError>
    ensures { IfOk result (λ t. told_view t ≡ model.refused_told (refused_of refused.entry.number refused.entry.name.now (model.texts_in (map view refused.entry.details.now)))) }
{
    let error = refusal_line(alloc, refused)?;
    Ok(Told {
        output: String::new(alloc),
        error,
        status: 1,
    })
}

/// The report of a reply to the verb: its value as compact JSON and a line feed on standard output, or the line of
/// its refusal on standard error. `None` if it is no reply.
pub fn told_of(alloc: Global, verb: Verb, reply: &Value) -> Result<Option<Told>, AllocError>
    ensures { IfOk result (λ o. model.is_plain (get (codes "value") (view reply.now)) ≡ true → option_map told_view o ≡ model.told_of verb (view reply.now)) }
{
    match reply.get("ok").and_then(Value::as_bool) {
        Some(true) => {
            let told = done_told(alloc, verb, reply.get("value"))?;
            Ok(Some(told))
        }
        Some(false) => match refused_in(reply) {
            Some(refused) => {
                let told = refused_told(alloc, refused)?;
                Ok(Some(told))
            }
            None => Ok(None),
        },
        None => Ok(None),
    }
}
