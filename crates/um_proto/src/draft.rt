//! A request as it is in its frame: found, or refused, without memory.

ghost use Rattle.std.specs.Prelude.{◌≡◌, None, if◌then◌else◌, option_map};
ghost use Rattle.serde_json.specs.View.{view};
ghost use Rattle.um_model.specs.Requests as model;
ghost use Rattle.um_model.specs.declared.requests.Verb.TheVariants as verbs;
ghost use Rattle.um_proto.specs.View.{asking_of, leads_to};

use crate::fields::{end_told, has_its_fields, job_mode_told, moment_told, number_told, text_told};
use crate::verb::verb_in;
use serde_json::Value;
use um_model::{End, InstallVerb, JobMode, Mode, Moment, UnitVerb, Verb};

/// The meaning of a request's fields. Whether `unit` names a unit isn't known yet.
#[derive(Clone, Copy)]
pub enum Asking<'v> {
    PutFile {
        path: &'v str,
        text: &'v str,
    },
    PutLink {
        path: &'v str,
        target: &'v str,
    },
    Remove {
        path: &'v str,
    },
    DaemonReload,
    ForUnit {
        verb: UnitVerb,
        unit: &'v str,
        mode: JobMode,
    },
    Cancel {
        unit: &'v str,
    },
    ResetFailed {
        unit: Option<&'v str>,
    },
    Install {
        verb: InstallVerb,
        unit: &'v str,
    },
    Show {
        unit: &'v str,
    },
    IsActive {
        unit: &'v str,
    },
    IsFailed {
        unit: &'v str,
    },
    Cat {
        unit: &'v str,
    },
    IsEnabled {
        unit: &'v str,
    },
    ListUnits,
    ListJobs,
    Tick,
    ProcessEnded {
        number: u64,
        end: End,
    },
    ProcessExecuted {
        number: u64,
    },
    Actions,
}

/// A request with the right fields.
#[derive(Clone, Copy)]
pub struct Draft<'v> {
    /// The moment that the request gives.
    pub at: Option<Moment>,
    pub asking: Asking<'v>,
}

/// Why an object is no request.
#[derive(Clone, Copy)]
pub enum Cause<'v> {
    BadRequest,
    UnknownVerb(&'v str),
}

fn file_asked<'v>(value: &'v Value) -> Option<Asking<'v>>
    ensures { option_map asking_of result ≡ (model.row_of verbs.PutFile).asks (view value.now) }
{
    let path = text_told(value, "path")?;
    let text = text_told(value, "text")?;
    Some(Asking::PutFile { path, text })
}

fn link_asked<'v>(value: &'v Value) -> Option<Asking<'v>>
    ensures { option_map asking_of result ≡ (model.row_of verbs.PutLink).asks (view value.now) }
{
    let path = text_told(value, "path")?;
    let target = text_told(value, "target")?;
    Some(Asking::PutLink { path, target })
}

fn removal_asked<'v>(value: &'v Value) -> Option<Asking<'v>>
    ensures { option_map asking_of result ≡ (model.row_of verbs.Remove).asks (view value.now) }
{
    let path = text_told(value, "path")?;
    Some(Asking::Remove { path })
}

/// A command for a unit.
#[tactic(auto, unfolding(um_model::specs::Requests::for_unit, um_model::specs::Requests::of_unit))]
fn for_unit<'v>(verb: UnitVerb, value: &'v Value) -> Option<Asking<'v>>
    ensures { option_map asking_of result ≡ model.for_unit verb (view value.now) }
{
    let mode = job_mode_told(value)?;
    let unit = text_told(value, "unit")?;
    Some(Asking::ForUnit { verb, unit, mode })
}

/// Enabling a unit, or its kin.
#[tactic(auto, unfolding(um_model::specs::Requests::of_unit))]
fn install<'v>(verb: InstallVerb, value: &'v Value) -> Option<Asking<'v>>
    ensures { option_map asking_of result ≡ model.install verb (view value.now) }
{
    let unit = text_told(value, "unit")?;
    Some(Asking::Install { verb, unit })
}

#[tactic(auto, unfolding(um_model::specs::Requests::of_process))]
fn end_asked<'v>(value: &'v Value) -> Option<Asking<'v>>
    ensures { option_map asking_of result ≡ (model.row_of verbs.End).asks (view value.now) }
{
    let number = number_told(value, "number", u64::MAX)?;
    let end = end_told(value)?;
    Some(Asking::ProcessEnded { number, end })
}

#[tactic(auto, unfolding(um_model::specs::Requests::of_process))]
fn run_asked<'v>(value: &'v Value) -> Option<Asking<'v>>
    ensures { option_map asking_of result ≡ (model.row_of verbs.Executed).asks (view value.now) }
{
    let number = number_told(value, "number", u64::MAX)?;
    Some(Asking::ProcessExecuted { number })
}

/// The request to forget failures: of all units if no unit is given.
#[tactic(auto, unfolding(um_model::specs::Requests::of_unit))]
fn reset_asked<'v>(value: &'v Value) -> Option<Asking<'v>>
    ensures { option_map asking_of result ≡ (model.row_of verbs.ResetFailed).asks (view value.now) }
{
    if value.get("unit").is_none() {
        return Some(Asking::ResetFailed { unit: None });
    }
    let unit = text_told(value, "unit")?;
    Some(Asking::ResetFailed { unit: Some(unit) })
}

/// The request of a verb with its fields.
#[tactic(auto, unfolding(um_model::specs::Requests::of_unit))]
fn asking_with<'v>(verb: Verb, value: &'v Value) -> Option<Asking<'v>>
    ensures { option_map asking_of result ≡ (model.row_of verb).asks (view value.now) }
{
    match verb {
        Verb::PutFile => file_asked(value),
        Verb::PutLink => link_asked(value),
        Verb::Remove => removal_asked(value),
        Verb::DaemonReload => Some(Asking::DaemonReload),
        Verb::Start => for_unit(UnitVerb::Start, value),
        Verb::Stop => for_unit(UnitVerb::Stop, value),
        Verb::Restart => for_unit(UnitVerb::Restart, value),
        Verb::TryRestart => for_unit(UnitVerb::TryRestart, value),
        Verb::Cancel => {
            let unit = text_told(value, "unit")?;
            Some(Asking::Cancel { unit })
        }
        Verb::ResetFailed => reset_asked(value),
        Verb::Enable => install(InstallVerb::Enable, value),
        Verb::Disable => install(InstallVerb::Disable, value),
        Verb::Mask => install(InstallVerb::Mask, value),
        Verb::Unmask => install(InstallVerb::Unmask, value),
        Verb::Show => {
            let unit = text_told(value, "unit")?;
            Some(Asking::Show { unit })
        }
        Verb::IsActive => {
            let unit = text_told(value, "unit")?;
            Some(Asking::IsActive { unit })
        }
        Verb::IsFailed => {
            let unit = text_told(value, "unit")?;
            Some(Asking::IsFailed { unit })
        }
        Verb::IsEnabled => {
            let unit = text_told(value, "unit")?;
            Some(Asking::IsEnabled { unit })
        }
        Verb::Cat => {
            let unit = text_told(value, "unit")?;
            Some(Asking::Cat { unit })
        }
        Verb::ListUnits => Some(Asking::ListUnits),
        Verb::ListJobs => Some(Asking::ListJobs),
        Verb::Tick => Some(Asking::Tick),
        Verb::End => end_asked(value),
        Verb::Executed => run_asked(value),
        Verb::Actions => Some(Asking::Actions),
    }
}

/// The request of a verb with exactly its fields.
fn asking_by<'v>(mode: Mode, verb: Verb, value: &'v Value) -> Option<Asking<'v>>
    ensures { option_map asking_of result ≡ (if model.has_its_fields mode (model.row_of verb) (view value.now) then (model.row_of verb).asks (view value.now) else None) }
{
    if !has_its_fields(mode, verb, value) {
        return None;
    }
    asking_with(verb, value)
}

/// The request of an object, or the first cause why it is none. A unit's name, which is checked last, is not checked
/// here.
#[tactic(auto, unfolding(um_model::specs::Requests::request_of_data))]
pub fn draft_of<'v>(mode: Mode, value: &'v Value) -> Result<Draft<'v>, Cause<'v>>
    ensures { leads_to result ≡ model.request_of_data mode (view value.now) }
{
    let Some(text) = text_told(value, "verb") else {
        return Err(Cause::BadRequest);
    };
    let Some(verb) = verb_in(mode, text) else {
        return Err(Cause::UnknownVerb(text));
    };
    let Some(at) = moment_told(value, mode) else {
        return Err(Cause::BadRequest);
    };
    let Some(asking) = asking_by(mode, verb, value) else {
        return Err(Cause::BadRequest);
    };
    Ok(Draft { at, asking })
}
