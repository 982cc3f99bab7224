//! Reads a request from the bytes of a frame.

ghost use Rattle.std.specs.Prelude.{◌≡◌, string_bytes, IfOk};
ghost use Rattle.serde_json.specs.View.{view};
ghost use Rattle.um_model.specs.Requests as model;
ghost use Rattle.um_model.specs.Machine.{Happened};
ghost use Rattle.um_state.specs.View.{command_of, happening_of};
ghost use Rattle.um_proto.specs.View.{asked_of, asking_of, refused_for, request_drafted, request_of};
ghost use Rattle.um_wire.specs.Gives.{Gives};
ghost use Rattle.um_wire.specs.Refusal.{refused_of};

use crate::draft::{Asking, Cause, Draft, draft_of};
use crate::request::{Asked, Request};
use serde_json::Value;
use std::alloc::{AllocError, Global};
use um_model::Mode;
use um_name::{UnitName, suffix_of};
use um_state::{Command, Event, Happening, Query};
use um_wire::{Refusal, bad_name, unknown_verb};

/// The name with a suffix: `.service` if it has none.
fn completed(alloc: Global, text: &str) -> Result<String, AllocError>
    ensures { IfOk result (λ s. string_bytes s ≡ model.completed text.now) }
{
    let mut name = String::from_str(alloc, text)?;
    if suffix_of(text).is_none() {
        name.push_str(".service")?;
    }
    Ok(name)
}

/// The unit of a text; a text that is no name is refused as it was sent.
fn name_asked(alloc: Global, text: &str) -> Result<UnitName, Refusal>
    ensures { Gives (λ n. n) result (model.name_asked text.now) }
{
    let name = completed(alloc, text)?;
    match UnitName::named(alloc, name.as_str())? {
        Some(unit) => Ok(unit),
        None => Err(bad_name(alloc, text)?),
    }
}

fn commanded(command: Command) -> Asked
    ensures { asked_of result ≡ model.command (command_of command) }
{
    Asked::Event(Event::Commanded(command))
}

fn happened(happening: Happening) -> Asked
    ensures { asked_of result ≡ model.OfEvent (Happened (happening_of happening)) }
{
    Asked::Event(Event::Happened(happening))
}

/// The request, with its texts copied and its unit named.
fn asked_by(alloc: Global, asking: Asking) -> Result<Asked, Refusal>
    ensures { Gives asked_of result (asking_of asking.entry) }
{
    match asking {
        Asking::PutFile { path, text } => {
            let path = String::from_str(alloc, path)?;
            let text = String::from_str(alloc, text)?;
            Ok(commanded(Command::PutFile { path, text }))
        }
        Asking::PutLink { path, target } => {
            let path = String::from_str(alloc, path)?;
            let target = String::from_str(alloc, target)?;
            Ok(commanded(Command::PutLink { path, target }))
        }
        Asking::Remove { path } => {
            let path = String::from_str(alloc, path)?;
            Ok(commanded(Command::Remove { path }))
        }
        Asking::DaemonReload => Ok(commanded(Command::DaemonReload)),
        Asking::ForUnit { verb, unit, mode } => {
            let unit = name_asked(alloc, unit)?;
            Ok(commanded(Command::ForUnit { verb, unit, mode }))
        }
        Asking::Cancel { unit } => {
            let unit = name_asked(alloc, unit)?;
            Ok(commanded(Command::Cancel { unit }))
        }
        Asking::ResetFailed { unit: None } => Ok(commanded(Command::ResetFailed { unit: None })),
        Asking::ResetFailed { unit: Some(unit) } => {
            let unit = Some(name_asked(alloc, unit)?);
            Ok(commanded(Command::ResetFailed { unit }))
        }
        Asking::Install { verb, unit } => {
            let unit = name_asked(alloc, unit)?;
            Ok(commanded(Command::Install { verb, unit }))
        }
        Asking::Show { unit } => {
            let unit = name_asked(alloc, unit)?;
            Ok(Asked::Query(Query::Show { unit }))
        }
        Asking::IsActive { unit } => {
            let unit = name_asked(alloc, unit)?;
            Ok(Asked::Query(Query::IsActive { unit }))
        }
        Asking::IsFailed { unit } => {
            let unit = name_asked(alloc, unit)?;
            Ok(Asked::Query(Query::IsFailed { unit }))
        }
        Asking::Cat { unit } => {
            let unit = name_asked(alloc, unit)?;
            Ok(Asked::Query(Query::Cat { unit }))
        }
        Asking::IsEnabled { unit } => {
            let unit = name_asked(alloc, unit)?;
            Ok(Asked::Query(Query::IsEnabled { unit }))
        }
        Asking::ListUnits => Ok(Asked::Query(Query::ListUnits)),
        Asking::ListJobs => Ok(Asked::Query(Query::ListJobs)),
        Asking::Tick => Ok(happened(Happening::Tick)),
        Asking::ProcessEnded { number, end } => {
            Ok(happened(Happening::ProcessEnded { number, end }))
        }
        Asking::ProcessExecuted { number } => Ok(happened(Happening::ProcessExecuted { number })),
        Asking::Actions => Ok(Asked::Actions),
    }
}

/// The request with its moment, its texts copied and its unit named.
fn request_by(alloc: Global, draft: Draft) -> Result<Request, Refusal>
    ensures { Gives request_of result (request_drafted draft.entry) }
{
    let asked = asked_by(alloc, draft.asking)?;
    Ok(Request {
        at: draft.at,
        asked,
    })
}

/// The refusal of a request for this cause.
fn refusal_for(alloc: Global, cause: Cause) -> Result<Refusal, AllocError>
    ensures { IfOk result (λ refusal. refused_of refusal ≡ refused_for cause.entry) }
{
    match cause {
        Cause::BadRequest => Ok(Refusal::BadRequest),
        Cause::UnknownVerb(text) => unknown_verb(alloc, text),
    }
}

/// The request of an object.
fn request_of_value(alloc: Global, mode: Mode, value: &Value) -> Result<Request, Refusal>
    ensures { Gives request_of result (model.request_of_data mode (view value.now)) }
{
    match draft_of(mode, value) {
        Ok(draft) => request_by(alloc, draft),
        Err(cause) => Err(refusal_for(alloc, cause)?),
    }
}

/// The request of the bytes of a frame.
///
/// The first refusal that holds: `BadRequest` for bytes that are no JSON object, a verb that is missing or no text, a
/// text with U+0000; `UnknownVerb`; `BadRequest` for a moment past 2^62 microseconds, and for fields other than the
/// verb's; `BadName` for a unit that isn't named, with the text as it was sent; `NoMemory` in place of any of these.
#[tactic(auto, unfolding(um_model::specs::Requests::request_of))]
pub fn read_request(alloc: Global, bytes: &[u8], mode: Mode) -> Result<Request, Refusal>
    ensures { Gives request_of result (model.request_of mode bytes.now) }
{
    match Value::from_slice(alloc, bytes) {
        Ok(value) => request_of_value(alloc, mode, &value),
        Err(e) if e.is_memory() => Err(Refusal::NoMemory),
        Err(_) => Err(Refusal::BadRequest),
    }
}
