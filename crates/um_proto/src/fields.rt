//! The fields of a request, as their types.

ghost use Rattle.std.specs.Prelude.{◌≡◌, ◌≤◌, IfSome, is_some, map, option_and_then, option_map};
ghost use Rattle.std.specs.List.{list_all};
ghost use Rattle.serde_json.specs.Find.{get};
ghost use Rattle.serde_json.specs.View.{view};
ghost use Rattle.um_model.specs.Requests as model;

use crate::verb::{may_have, row_of};
use serde_json::Value;
use um_model::{End, JobMode, Mode, Moment, Verb};

/// The text of a field: `None` if it is missing, is no text, or has U+0000.
#[tactic(auto, unfolding(um_model::specs::Requests::text_told))]
pub fn text_told<'v>(value: &'v Value, name: &str) -> Option<&'v str>
    ensures { option_map (λ s. s.now) result ≡ model.text_told name.now (view value.now) }
{
    let text = value.get(name)?.as_str()?;
    if text.as_bytes().contains(&0) {
        return None;
    }
    Some(text)
}

/// The whole number of a value, of at most this size.
fn number_in(value: &Value, limit: u64) -> Option<u64>
    ensures number { result ≡ model.number_in limit (view value.now) }
    ensures within { IfSome result (λ n. n ≤ limit) }
{
    let number = value.as_u64()?;
    if number > limit {
        return None;
    }
    Some(number)
}

/// The whole number of a field, of at most this size.
pub fn number_told(value: &Value, name: &str, limit: u64) -> Option<u64>
    ensures { result ≡ option_and_then (model.number_in limit) (get name.now (view value.now)) }
{
    let field = value.get(name)?;
    number_in(field, limit)
}

/// The moment that a request gives, if any; over a socket it gives none. `None` if the field is no moment.
#[tactic(auto, unfolding(um_model::specs::Requests::moment_told))]
pub fn moment_told(value: &Value, mode: Mode) -> Option<Option<Moment>>
    ensures { result ≡ model.moment_told mode (view value.now) }
{
    if let Mode::Service = mode {
        return Some(None);
    }
    let Some(field) = value.get("at") else {
        return Some(None);
    };
    let moment = Moment::new(field.as_u64()?)?;
    Some(Some(moment))
}

/// How a process ended: exactly one field gives it.
#[tactic(auto, unfolding(um_model::specs::Requests::end_told))]
pub fn end_told(value: &Value) -> Option<End>
    ensures { result ≡ model.end_told (view value.now) }
{
    match (value.get("code"), value.get("signal"), value.get("lost")) {
        (Some(code), None, None) => {
            let code = number_in(code, 255)?;
            Some(End::Code(code as u8))
        }
        (None, Some(signal), None) => {
            let signal = number_in(signal, 64)?;
            Some(End::Signal(signal as u8))
        }
        (None, None, Some(lost)) => {
            if lost.as_bool()? {
                Some(End::Lost)
            } else {
                None
            }
        }
        _ => None,
    }
}

/// The job mode, which decides about pending jobs in a command's way; without the field they are dropped. `None` if
/// the field is no such word.
#[tactic(auto, unfolding(um_model::specs::Requests::job_mode_told))]
pub fn job_mode_told(value: &Value) -> Option<JobMode>
    ensures { result ≡ model.job_mode_told (view value.now) }
{
    let Some(field) = value.get("mode") else {
        return Some(JobMode::Replace);
    };
    match field.as_str()? {
        "replace" => Some(JobMode::Replace),
        "fail" => Some(JobMode::Fail),
        _ => None,
    }
}

/// Whether each key is one that a request of this verb may have.
fn has_only(mode: Mode, verb: Verb, value: &Value) -> bool
    ensures { result ≡ list_all (model.may_have mode (model.row_of verb)) (model.keys_at (view value.now)) }
{
    match value.as_object() {
        Some(members) => members.keys().all(|key| may_have(mode, verb, key.as_str())),
        None => true,
    }
}

/// Whether each of these fields is there.
fn has_each(names: &[&str], value: &Value) -> bool
    ensures { result ≡ list_all (λ name. is_some (get name (view value.now))) (map (λ s. s.now) names.now) }
{
    names.iter().all(|name| value.get(*name).is_some())
}

/// Whether a request of this verb has each field that it must have, and no other than it may have.
#[tactic(auto, unfolding(um_model::specs::Requests::has_its_fields))]
pub fn has_its_fields(mode: Mode, verb: Verb, value: &Value) -> bool
    ensures { result ≡ model.has_its_fields mode (model.row_of verb) (view value.now) }
{
    has_only(mode, verb, value) && has_each(row_of(verb).required, value)
}
