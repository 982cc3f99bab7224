//! Writes the text of a reply.

ghost use Rattle.std.specs.Prelude.{◌≡◌, ◌∷◌, [], map, string_bytes, false, ◌++◌, IfOk, IsOkAnd, IsTrue, OnOk, length, unwrap_or, ◌<◌, ◌≤◌};
ghost use Rattle.serde_json.specs.Data.{array, string};
ghost use Rattle.std.specs.List.{flat_map};
ghost use Rattle.serde_json.specs.View.{view, items_of};
ghost use Rattle.serde_json.specs.Written.{compact_text};
ghost use Rattle.um_model.specs.Machine.{Shown, Told};
ghost use Rattle.um_model.specs.Refusals.{too_large};
ghost use Rattle.um_model.specs.declared.refusals.Limit.TheVariants.{Reply as TooLong};
ghost use Rattle.um_model.specs.Replies as model;
ghost use Rattle.um_proto.specs.Written as written;
ghost use Rattle.um_proto.specs.Written.{words_told};
ghost use Rattle.um_resolve.specs.View.{file_of};
ghost use Rattle.um_state.specs.View.{action_of, job_of, listed_of, shown_of, reply_of};
ghost use Rattle.um_unit.specs.View.{warned_by, warnings_seen};
ghost use Rattle.um_words.specs.Rooms.{left};
ghost use Rattle.um_wire.specs.Refusal.{refused_of};

use serde_json::{Value, json};
use std::alloc::{AllocError, Global};
use um_model::{ProcessNumber, Signal};
use um_resolve::UnitFile;
use um_state::{Action, JobShown, Reply, Start, UnitListed, UnitShown};
use um_unit::{FileWarnings, Warning};
use um_wire::{Limit, Refusal};
use um_words::Room;

/// The longest text of a reply, in bytes.
const REPLY_LIMIT: usize = 1 << 24;

/// The room of a reply for the words of its actions: each takes two quotes and a comma or a bracket in addition.
fn room_of_words() -> Room
    ensures total { result.total ≡ model.reply_limit }
    ensures longest { result.longest ≡ result.total }
    ensures beside { result.beside ≡ 3 }
{
    Room {
        total: 1 << 24,
        longest: 1 << 24,
        beside: 3,
    }
}

fn texts_value(alloc: Global, texts: &[String]) -> Result<Value, AllocError>
    ensures { IfOk result (λ v. view v ≡ model.texts_data (map string_bytes texts.now)) }
{
    let mut list = Vec::new(alloc);
    for text in texts {
        list.push(Value::try_from_str(alloc, text.as_str())?)?;
    }
    Ok(Value::Array(list))
}

fn no_texts(alloc: Global) -> Value
    ensures { view result ≡ model.texts_data [] }
{
    Value::Array(Vec::new(alloc))
}

/// A list of one text.
fn one_text(alloc: Global, text: &str) -> Result<Value, AllocError>
    ensures { IfOk result (λ v. view v ≡ model.texts_data (text.now ∷ [])) }
{
    json!(in alloc; [text])
}

/// The details of a refusal.
fn detail_value(alloc: Global, refusal: &Refusal) -> Result<Value, AllocError>
    ensures { IfOk result (λ v. view v ≡ model.texts_data (refused_of refusal.now).detail) }
{
    match refusal {
        Refusal::UnknownVerb { verb } => one_text(alloc, verb.as_str()),
        Refusal::BadName { text } => one_text(alloc, text.as_str()),
        Refusal::BadSetting { unit, reason } => json!(in alloc; [unit, reason]),
        Refusal::NotFound { unit }
        | Refusal::Masked { unit }
        | Refusal::NotLoaded { unit }
        | Refusal::Clash { unit }
        | Refusal::JobConflict { unit }
        | Refusal::NoSuchJob { unit } => one_text(alloc, unit.as_str()),
        Refusal::OrderingCycle { units } => texts_value(alloc, units.items.as_slice()),
        Refusal::Exists { path } | Refusal::BadPath { path } => one_text(alloc, path.as_str()),
        Refusal::TooLarge { limit } => one_text(alloc, limit.word()),
        Refusal::Damaged { sector } => one_text(alloc, sector.to_string(alloc)?.as_str()),
        Refusal::BadRequest
        | Refusal::NoRoom
        | Refusal::NoMemory
        | Refusal::Device
        | Refusal::Reopen
        | Refusal::NotFormatted
        | Refusal::GenerationsSpent
        | Refusal::OtherLayout => Ok(no_texts(alloc)),
    }
}

fn refused_value(alloc: Global, refusal: &Refusal) -> Result<Value, AllocError>
    ensures { IfOk result (λ v. view v ≡ model.refused_data (refused_of refusal.now)) }
{
    json!(in alloc; {"detail": detail_value(alloc, refusal)?, "error": refusal.number(), "ok": false})
}

/// The number of a process; 0 if there is none.
fn main_number(process: Option<ProcessNumber>) -> u64
    ensures { result ≡ unwrap_or process 0 }
{
    match process {
        Some(process) => process.get(),
        None => 0,
    }
}

/// The value of a shown unit, with an empty list in place of its warnings.
fn shown_value(alloc: Global, shown: &UnitShown) -> Result<Value, AllocError>
    ensures { IfOk result (λ v. view v ≡ model.shown_data (written.without_warnings (shown_of shown.now))) }
{
    json!(in alloc; {
        "ActiveState": shown.state.sub.active_state().text(),
        "Description": &shown.description,
        "Id": &shown.id,
        "LoadState": shown.load.text(),
        "MainNumber": main_number(shown.state.main),
        "Result": shown.state.result.text(),
        "SubState": shown.state.sub.text(),
        "Warnings": no_texts(alloc),
    })
}

fn signal_text(signal: Signal) -> &'static str
    ensures { result.now ≡ model.signal_text signal }
{
    match signal {
        Signal::Term => "TERM",
        Signal::Kill => "KILL",
    }
}

/// The words of a start.
fn words_value(alloc: Global, start: &Start) -> Result<Value, AllocError>
    ensures { IfOk result (λ v. view v ≡ model.texts_data start.now.words) }
{
    texts_value(alloc, start.words(alloc)?.as_slice())
}

/// An action's name, its process, and its details.
fn told_value(
    alloc: Global,
    action: &str,
    number: ProcessNumber,
    told: Value,
) -> Result<Value, AllocError>
    ensures { IfOk result (λ v. view v ≡ array (items_of (string action.now ∷ model.number_data number ∷ view told ∷ []))) }
{
    json!(in alloc; [action, number.get(), told])
}

fn action_value(alloc: Global, action: &Action) -> Result<Value, AllocError>
    ensures { IfOk result (λ v. view v ≡ model.action_data (action_of action.now)) }
{
    match action {
        Action::Spawn { number, start } => {
            told_value(alloc, "spawn", *number, words_value(alloc, start)?)
        }
        Action::Signal { number, signal } => {
            let told = Value::try_from_str(alloc, signal_text(*signal))?;
            told_value(alloc, "signal", *number, told)
        }
    }
}

fn actions_value(alloc: Global, actions: &[Action]) -> Result<Value, AllocError>
    ensures { IfOk result (λ v. view v ≡ array (items_of (map model.action_data (map action_of actions.now)))) }
{
    let mut list = Vec::new(alloc);
    for action in actions {
        list.push(action_value(alloc, action)?)?;
    }
    Ok(Value::Array(list))
}

/// A file: its path and its text.
fn file_value(alloc: Global, file: &UnitFile) -> Result<Value, AllocError>
    ensures { IfOk result (λ v. view v ≡ written.file_data (file_of file.now)) }
{
    json!(in alloc; [&file.path, &file.text])
}

fn files_value(alloc: Global, files: &[UnitFile]) -> Result<Value, AllocError>
    ensures { IfOk result (λ v. view v ≡ array (items_of (map written.file_data (map file_of files.now)))) }
{
    let mut list = Vec::new(alloc);
    for file in files {
        list.push(file_value(alloc, file)?)?;
    }
    Ok(Value::Array(list))
}

/// The paths that were made and removed.
fn relinked_value(alloc: Global, made: &[String], removed: &[String]) -> Result<Value, AllocError>
    ensures { IfOk result (λ v. view v ≡ written.relinked_data (map string_bytes made.now) (map string_bytes removed.now)) }
{
    json!(in alloc; {"made": texts_value(alloc, made)?, "removed": texts_value(alloc, removed)?})
}

/// A known unit: its name, its active state and its sub state.
fn unit_value(alloc: Global, unit: &UnitListed) -> Result<Value, AllocError>
    ensures { IfOk result (λ v. view v ≡ written.unit_data (listed_of unit.now)) }
{
    json!(in alloc; [unit.unit.as_str(), unit.sub.active_state().text(), unit.sub.text()])
}

fn units_value(alloc: Global, units: &[UnitListed]) -> Result<Value, AllocError>
    ensures { IfOk result (λ v. view v ≡ array (items_of (map written.unit_data (map listed_of units.now)))) }
{
    let mut list = Vec::new(alloc);
    for unit in units {
        list.push(unit_value(alloc, unit)?)?;
    }
    Ok(Value::Array(list))
}

/// A pending job: its unit, its kind, and how far it is.
fn job_value(alloc: Global, job: &JobShown) -> Result<Value, AllocError>
    ensures { IfOk result (λ v. view v ≡ written.job_data (job_of job.now)) }
{
    json!(in alloc; [job.unit.as_str(), job.kind.text(), job.state.text()])
}

fn jobs_value(alloc: Global, jobs: &[JobShown]) -> Result<Value, AllocError>
    ensures { IfOk result (λ v. view v ≡ array (items_of (map written.job_data (map job_of jobs.now)))) }
{
    let mut list = Vec::new(alloc);
    for job in jobs {
        list.push(job_value(alloc, job)?)?;
    }
    Ok(Value::Array(list))
}

/// A reply with a value.
fn valued(alloc: Global, value: Value) -> Result<Value, AllocError>
    ensures { IfOk result (λ v. view v ≡ model.valued (view value)) }
{
    json!(in alloc; {"ok": true, "value": value})
}

/// A reply with this value, if it could be made.
fn valued_by(alloc: Global, value: Result<Value, AllocError>) -> Result<Value, AllocError>
    ensures { IfOk result (λ v. IsOkAnd value (λ w. view v ≡ model.valued (view w))) }
{
    valued(alloc, value?)
}

/// A reply, with an empty list in place of the warnings of a shown unit.
fn reply_value(alloc: Global, reply: &Reply) -> Result<Value, AllocError>
    ensures { IfOk result (λ v. view v ≡ model.reply_data (written.unwarned (reply_of reply.now))) }
{
    match reply {
        Reply::Done => json!(in alloc; {"ok": true}),
        Reply::Shown(shown) => valued_by(alloc, shown_value(alloc, shown)),
        Reply::Activity(state) => valued_by(alloc, Value::try_from_str(alloc, state.text())),
        Reply::Files(files) => valued_by(alloc, files_value(alloc, files.as_slice())),
        Reply::Relinked { made, removed } => {
            valued_by(
                alloc,
                relinked_value(alloc, made.as_slice(), removed.as_slice()),
            )
        }
        Reply::EnabledAs(answer) => valued_by(alloc, Value::try_from_str(alloc, answer.text())),
        Reply::Listed(units) => valued_by(alloc, units_value(alloc, units.as_slice())),
        Reply::Jobs(jobs) => valued_by(alloc, jobs_value(alloc, jobs.as_slice())),
        Reply::Told(actions) => valued_by(alloc, actions_value(alloc, actions.as_slice())),
        Reply::Refused(refusal) => refused_value(alloc, refusal),
    }
}

/// The room that the words of an action leave.
fn room_after(alloc: Global, room: Room, action: &Action) -> Result<Option<Room>, AllocError>
    ensures { IfOk result (λ free. free ≡ left room (words_told (action_of action.now))) }
{
    match action {
        Action::Spawn { start, .. } => start.room_after_words(alloc, room),
        Action::Signal { .. } => Ok(Some(room)),
    }
}

/// The room that the words of these actions leave.
fn room_after_all(alloc: Global, room: Room, actions: &[Action]) -> Result<Option<Room>, AllocError>
    ensures { IfOk result (λ free. free ≡ left room (flat_map words_told (map action_of actions.now))) }
{
    let mut free = room;
    for action in actions {
        let Some(less) = room_after(alloc, free, action)? else {
            return Ok(None);
        };
        free = less;
    }
    Ok(Some(free))
}

/// Whether the words of the starts alone make a reply with these actions too long. The words are not put together.
fn are_too_long(alloc: Global, actions: &[Action]) -> Result<bool, AllocError>
    ensures { IfOk result (λ told. IsTrue told → model.is_told_whole (Told (map action_of actions.now)) ≡ false) }
{
    let free = room_after_all(alloc, room_of_words(), actions)?;
    Ok(free.is_none())
}

/// Whether the words of the reply make it too long.
fn is_too_long(alloc: Global, reply: &Reply) -> Result<bool, AllocError>
    ensures { IfOk result (λ told. IsTrue told → model.is_told_whole (reply_of reply.now) ≡ false) }
{
    match reply {
        Reply::Told(actions) => are_too_long(alloc, actions.as_slice()),
        _other => Ok(false),
    }
}

/// Appends a warning and a comma to a text; `path` is the JSON text of its path.
fn add_warning(
    alloc: Global,
    path: &str,
    warning: &Warning,
    text: &mut Vec<u8>,
) -> Result<(), AllocError>
    ensures { OnOk result (text.new.items ≡ text.old.items ++ written.warning_behind path.now warning.now) }
{
    let told = format!(in alloc; "[{},{path},{}],", warning.kind.number(), warning.line)?;
    text.extend_from_slice(told.as_bytes())
}

/// Appends the warnings of a file to a text, a comma after each. False if the text gets too long; then no more is
/// written.
fn add_warnings(alloc: Global, file: &FileWarnings, text: &mut Vec<u8>) -> Result<bool, AllocError>
    ensures all { IfOk result (λ all. IsTrue all → text.new.items ≡ text.old.items ++ written.warnings_text (warned_by file.now)) }
    ensures long { IfOk result (λ all. all ≡ false → model.reply_limit < length (text.old.items ++ written.warnings_text (warned_by file.now))) }
{
    let path = Value::try_from_str(alloc, file.path.as_str())?.to_string(alloc)?;
    for warning in &file.warnings {
        if REPLY_LIMIT < text.len() {
            return Ok(false);
        }
        add_warning(alloc, path.as_str(), warning, text)?;
    }
    Ok(true)
}

/// The same for several files.
fn add_all_warnings(
    alloc: Global,
    files: &[FileWarnings],
    text: &mut Vec<u8>,
) -> Result<bool, AllocError>
    ensures all { IfOk result (λ all. IsTrue all → text.new.items ≡ text.old.items ++ written.warnings_text (warnings_seen files.now)) }
    ensures long { IfOk result (λ all. all ≡ false → model.reply_limit < length (text.old.items ++ written.warnings_text (warnings_seen files.now))) }
{
    for file in files {
        let is_whole = add_warnings(alloc, file, text)?;
        if !is_whole {
            return Ok(false);
        }
    }
    Ok(true)
}

/// Writes the warnings of a shown unit into the text of its reply, which has none. `None` if they make it too long;
/// then no more is written.
fn with_warnings(
    alloc: Global,
    shown: &UnitShown,
    mut text: Vec<u8>,
) -> Result<Option<Vec<u8>>, AllocError>
    requires { text.items ≡ compact_text (model.reply_data (Shown (written.without_warnings (shown_of shown.now)))) }
    ensures { IfOk result (λ text. written.IsOwnText (Shown (shown_of shown.now)) text) }
{
    // the list's, the unit's and the reply's brackets are closed again after the warnings
    text.truncate(text.len() - 3);
    let begin = text.len();
    let is_whole = add_all_warnings(alloc, shown.warnings.as_slice(), &mut text)?;
    if !is_whole {
        return Ok(None);
    }
    if text.len() > begin {
        // no comma after the last one
        text.pop();
    }
    text.extend_from_slice(b"]}}")?;
    Ok(Some(text))
}

/// The reply's own text, however long. `None` if it is found to be too long before it is whole.
fn own_text(alloc: Global, reply: &Reply) -> Result<Option<Vec<u8>>, AllocError>
    ensures { IfOk result (λ text. written.IsOwnText (reply_of reply.now) text) }
{
    let text = reply_value(alloc, reply)?.to_vec(alloc)?;
    match reply {
        Reply::Shown(shown) => with_warnings(alloc, shown, text),
        _other => Ok(Some(text)),
    }
}

/// The text of a reply.
#[derive(Debug, Drop)]
pub struct ReplyText {
    /// Compact JSON, at most 2^24 bytes.
    pub bytes: Vec<u8>,
    /// Whether it is the reply's own text; otherwise it is the refusal `TooLarge` `reply`.
    pub is_whole: bool,
}

/// The refusal of a reply that is too long.
fn too_long_value(alloc: Global) -> Result<Value, AllocError>
    ensures { IfOk result (λ v. view v ≡ model.refused_data (too_large TooLong)) }
{
    let refusal = Refusal::TooLarge {
        limit: Limit::Reply,
    };
    refused_value(alloc, &refusal)
}

/// The text that replaces a reply whose text is too long.
fn refused_text(alloc: Global) -> Result<ReplyText, AllocError>
    ensures text { IfOk result (λ text. text.bytes.items ≡ compact_text (model.refused_data (too_large TooLong))) }
    ensures whole { IfOk result (λ text. text.is_whole ≡ false) }
    ensures short { IfOk result (λ text. length text.bytes.items ≤ model.reply_limit) }
{
    let bytes = too_long_value(alloc)?.to_vec(alloc)?;
    Ok(ReplyText {
        bytes,
        is_whole: false,
    })
}

/// The text of a reply; a text past 2^24 bytes is replaced by that of the refusal `TooLarge` `reply`. If the words of
/// the reply's actions are too long already, they are not put together; of its warnings none is written after the
/// first past the limit.
#[tactic(auto, unfolding(um_model::specs::Replies::reply_text))]
pub fn write_reply(alloc: Global, reply: &Reply) -> Result<ReplyText, AllocError>
    ensures text { IfOk result (λ text. text.bytes.items ≡ model.reply_text (reply_of reply.now)) }
    ensures whole { IfOk result (λ text. text.is_whole ≡ model.is_told_whole (reply_of reply.now)) }
    ensures short { IfOk result (λ text. length text.bytes.items ≤ model.reply_limit) }
{
    let is_long = is_too_long(alloc, reply)?;
    if is_long {
        return refused_text(alloc);
    }
    let Some(text) = own_text(alloc, reply)? else {
        return refused_text(alloc);
    };
    if text.len() > REPLY_LIMIT {
        return refused_text(alloc);
    }
    Ok(ReplyText {
        bytes: text,
        is_whole: true,
    })
}
