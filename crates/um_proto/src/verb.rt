//! The verbs of requests, and the fields of each.

ghost use Rattle.std.specs.Prelude.{◌≡◌, ◌∷◌, ◌&&◌, [], map, codes};
ghost use Rattle.std.specs.Str.{bytes_eq};
ghost use Rattle.um_model.specs.Requests as model;

use um_model::{Mode, Verb};

/// The verbs that are known over a socket.
const SERVED: [Verb; 21] = [
    Verb::PutFile,
    Verb::PutLink,
    Verb::Remove,
    Verb::DaemonReload,
    Verb::Start,
    Verb::Stop,
    Verb::Restart,
    Verb::TryRestart,
    Verb::Cancel,
    Verb::ResetFailed,
    Verb::Enable,
    Verb::Disable,
    Verb::Mask,
    Verb::Unmask,
    Verb::Show,
    Verb::IsActive,
    Verb::IsFailed,
    Verb::IsEnabled,
    Verb::Cat,
    Verb::ListUnits,
    Verb::ListJobs,
];

/// All verbs: those that are known over standard input.
const VERBS: [Verb; 25] = [
    Verb::PutFile,
    Verb::PutLink,
    Verb::Remove,
    Verb::DaemonReload,
    Verb::Start,
    Verb::Stop,
    Verb::Restart,
    Verb::TryRestart,
    Verb::Cancel,
    Verb::ResetFailed,
    Verb::Enable,
    Verb::Disable,
    Verb::Mask,
    Verb::Unmask,
    Verb::Show,
    Verb::IsActive,
    Verb::IsFailed,
    Verb::IsEnabled,
    Verb::Cat,
    Verb::ListUnits,
    Verb::ListJobs,
    Verb::Tick,
    Verb::End,
    Verb::Executed,
    Verb::Actions,
];

/// A row of the table of requests.
#[derive(Clone, Copy)]
pub struct Row {
    /// The text of the verb.
    pub text: &'static str,
    /// The required fields.
    pub required: &'static [&'static str],
    /// The optional fields.
    pub optional: &'static [&'static str],
}

impl Row {
    fn of(
        text: &'static str,
        required: &'static [&'static str],
        optional: &'static [&'static str],
    ) -> Row
        ensures text { result.text.now ≡ text.now }
        ensures required { result.required.now ≡ required.now }
        ensures optional { result.optional.now ≡ optional.now }
    {
        Row {
            text,
            required,
            optional,
        }
    }

    /// A row without fields.
    fn bare(text: &'static str) -> Row
        ensures text { result.text.now ≡ text.now }
        ensures required { map (λ s. s.now) result.required.now ≡ [] }
        ensures optional { map (λ s. s.now) result.optional.now ≡ [] }
    {
        Row::of(text, &[], &[])
    }

    /// A row that must have a unit.
    fn of_unit(text: &'static str) -> Row
        ensures text { result.text.now ≡ text.now }
        ensures required { map (λ s. s.now) result.required.now ≡ codes "unit" ∷ [] }
        ensures optional { map (λ s. s.now) result.optional.now ≡ [] }
    {
        Row::of(text, &["unit"], &[])
    }

    /// A row that must have a unit, and may have the mode of a job.
    fn of_job(text: &'static str) -> Row
        ensures text { result.text.now ≡ text.now }
        ensures required { map (λ s. s.now) result.required.now ≡ codes "unit" ∷ [] }
        ensures optional { map (λ s. s.now) result.optional.now ≡ codes "mode" ∷ [] }
    {
        Row::of(text, &["unit"], &["mode"])
    }
}

/// The row of a verb in the table of requests.
pub fn row_of(verb: Verb) -> Row
    ensures text { result.text.now ≡ (model.row_of verb).text }
    ensures required { map (λ s. s.now) result.required.now ≡ (model.row_of verb).required }
    ensures optional { map (λ s. s.now) result.optional.now ≡ (model.row_of verb).optional }
{
    match verb {
        Verb::PutFile => Row::of("put-file", &["path", "text"], &[]),
        Verb::PutLink => Row::of("put-link", &["path", "target"], &[]),
        Verb::Remove => Row::of("remove", &["path"], &[]),
        Verb::DaemonReload => Row::bare("daemon-reload"),
        Verb::Start => Row::of_job("start"),
        Verb::Stop => Row::of_job("stop"),
        Verb::Restart => Row::of_job("restart"),
        Verb::TryRestart => Row::of_job("try-restart"),
        Verb::Cancel => Row::of_unit("cancel"),
        Verb::ResetFailed => Row::of("reset-failed", &[], &["unit"]),
        Verb::Enable => Row::of_unit("enable"),
        Verb::Disable => Row::of_unit("disable"),
        Verb::Mask => Row::of_unit("mask"),
        Verb::Unmask => Row::of_unit("unmask"),
        Verb::Show => Row::of_unit("show"),
        Verb::IsActive => Row::of_unit("is-active"),
        Verb::IsFailed => Row::of_unit("is-failed"),
        Verb::IsEnabled => Row::of_unit("is-enabled"),
        Verb::Cat => Row::of_unit("cat"),
        Verb::ListUnits => Row::bare("list-units"),
        Verb::ListJobs => Row::bare("list-jobs"),
        Verb::Tick => Row::bare("tick"),
        Verb::End => Row::of("end", &["number"], &["code", "signal", "lost"]),
        Verb::Executed => Row::of("executed", &["number"], &[]),
        Verb::Actions => Row::bare("actions"),
    }
}

/// The verbs that are known there, in the order of the table of requests.
pub fn verbs_in(mode: Mode) -> &'static [Verb]
    ensures { result.now ≡ model.verbs_in mode }
{
    match mode {
        Mode::Service => &SERVED,
        Mode::Memory => &VERBS,
    }
}

/// Whether the verb has this text.
fn is_written(verb: Verb, text: &str) -> bool
    ensures { result ≡ bytes_eq text.now (model.row_of verb).text }
{
    text == row_of(verb).text
}

/// The verb of this text that is known there.
#[tactic(auto, unfolding(um_model::specs::Requests::verb_in))]
pub fn verb_in(mode: Mode, text: &str) -> Option<Verb>
    ensures { result ≡ model.verb_in mode text.now }
{
    verbs_in(mode)
        .iter()
        .copied()
        .find(|verb| is_written(*verb, text))
}

fn is_among(text: &str, texts: &[&str]) -> bool
    ensures { result ≡ model.is_among text.now (map (λ s. s.now) texts.now) }
{
    texts.iter().any(|other| text == *other)
}

fn is_moment_key(mode: Mode, key: &str) -> bool
    ensures { result ≡ (model.in_memory mode && bytes_eq key.now (codes "at")) }
{
    match mode {
        Mode::Memory => key == "at",
        Mode::Service => false,
    }
}

/// Whether a request of this verb may have this key.
pub fn may_have(mode: Mode, verb: Verb, key: &str) -> bool
    ensures { result ≡ model.may_have mode (model.row_of verb) key.now }
{
    let row = row_of(verb);
    key == "verb"
        || is_moment_key(mode, key)
        || is_among(key, row.required)
        || is_among(key, row.optional)
}
