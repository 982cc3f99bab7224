//! A unit's jobs in the reply to `list-jobs`.

ghost use Rattle.std.specs.Prelude.{◌≡◌, IfOk, OnOk, map, option_map, string_bytes};
ghost use Rattle.serde_json.specs.View.{view};
ghost use Rattle.um_status.specs.Status as model;

use serde_json::Value;
use std::alloc::{AllocError, Global};

/// The text at a place of a list.
pub(crate) fn text_in<'v>(value: &'v Value, place: usize) -> Option<&'v str>
    ensures { option_map (λ s. s.now) result ≡ model.text_in place (view value.now) }
{
    value.get(place)?.as_str()
}

/// Whether a job is one of the unit of this name.
fn is_job_of(id: &str, job: &Value) -> bool
    ensures { result ≡ model.is_job_of id.now (view job.now) }
{
    match text_in(job, 0) {
        Some(unit) => unit == id,
        None => false,
    }
}

/// A job in words, as `start running`. `None` if the value is no job.
#[tactic(auto, unfolding(crate::specs::Status::job_words))]
fn job_words(alloc: Global, job: &Value) -> Result<Option<String>, AllocError>
    ensures { IfOk result (λ words. option_map string_bytes words ≡ model.job_words (view job.now)) }
{
    let Some(kind) = text_in(job, 1) else {
        return Ok(None);
    };
    let Some(state) = text_in(job, 2) else {
        return Ok(None);
    };
    let words = format!(in alloc; "{kind} {state}")?;
    Ok(Some(words))
}

/// Appends a job in words to others.
fn push_words(text: &mut String, words: Option<String>) -> Result<(), AllocError>
    ensures { OnOk result (string_bytes text.new ≡ model.with_words (string_bytes text.old) (option_map string_bytes words)) }
{
    let Some(words) = words else {
        return Ok(());
    };
    if !text.is_empty() {
        text.push_str(", ")?;
    }
    text.push_str(words.as_str())
}

/// Appends a job in words to others, if it is the unit's.
fn push_job(alloc: Global, id: &str, text: &mut String, job: &Value) -> Result<(), AllocError>
    ensures { OnOk result (string_bytes text.new ≡ model.with_job id.now (string_bytes text.old) (view job.now)) }
{
    if is_job_of(id, job) {
        let words = job_words(alloc, job)?;
        push_words(text, words)
    } else {
        Ok(())
    }
}

/// The pending jobs of a unit in words, as `start running`; an empty text if there is none.
pub(crate) fn jobs_words(alloc: Global, id: &str, jobs: &[Value]) -> Result<String, AllocError>
    ensures { IfOk result (λ text. string_bytes text ≡ model.jobs_words id.now (map view jobs.now)) }
{
    let mut text = String::new(alloc);
    for job in jobs {
        push_job(alloc, id, &mut text, job)?;
    }
    Ok(text)
}

/// Whether a job of the unit is pending.
pub(crate) fn has_job(id: &str, jobs: &[Value]) -> bool
    ensures { result ≡ model.has_job id.now (map view jobs.now) }
{
    for job in jobs {
        if is_job_of(id, job) {
            return true;
        }
    }
    false
}
