//! The sentences at the lines of a unit's file.

ghost use Rattle.std.specs.Prelude.{◌≡◌, IfOk, string_bytes};
ghost use Rattle.um_sentences.specs.Sentences as model;

use crate::warnings::warning_sentence;
use std::alloc::{AllocError, Global};
use um_model::WarningKind;

/// The sentence at a `Type=` that isn't served: `Type=notify isn't served: simple, exec and oneshot are`.
pub fn type_sentence(alloc: Global, value: &str) -> Result<String, AllocError>
    ensures { IfOk result (λ text. string_bytes text ≡ model.type_sentence value.now) }
{
    format!(in alloc; "Type={value} isn't served: simple, exec and oneshot are")
}

/// The sentence at a `Restart=` that isn't served: `Restart=always isn't served with Type=oneshot`.
pub fn restart_sentence(alloc: Global, value: &str) -> Result<String, AllocError>
    ensures { IfOk result (λ text. string_bytes text ≡ model.restart_sentence value.now) }
{
    format!(in alloc; "Restart={value} isn't served with Type=oneshot")
}

/// The sentence for a unit without any command that a service could be started with.
pub fn no_command() -> &'static str
    ensures { result.now ≡ model.no_command }
{
    "no ExecStart= that can be read"
}

/// The sentence at an `ExecStart=` after the one that is allowed.
pub fn further_command() -> &'static str
    ensures { result.now ≡ model.further_command }
{
    "a command too many: all but Type=oneshot have exactly one"
}

/// The sentence at a line with a warning, with the text of the line: `unknown key, no effect: ExecStrat=/bin/true`.
pub fn warning_at(alloc: Global, kind: WarningKind, text: &str) -> Result<String, AllocError>
    ensures { IfOk result (λ said. string_bytes said ≡ model.warning_at kind text.now) }
{
    let sentence = warning_sentence(kind);
    format!(in alloc; "{sentence}: {text}")
}
