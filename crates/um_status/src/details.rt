//! The lines after a row.

ghost use Rattle.std.specs.Prelude.{◌≡◌, ◌++◌, IfOk, OnOk, flat_map, map, option_map, string_bytes};
ghost use Rattle.serde_json.specs.View.{view};
ghost use Rattle.um_status.specs.Status as model;

use crate::ends::{LastEnd, process_text};
use crate::jobs::text_in;
use serde_json::Value;
use std::alloc::{AllocError, Global};
use um_model::WarningKind;
use um_sentences::warning_sentence;

/// The kind of a warning of this number.
fn warning_kind(number: u64) -> Option<WarningKind>
    ensures { result ≡ model.warning_kind number }
{
    match number {
        1 => Some(WarningKind::BeforeAnySection),
        2 => Some(WarningKind::NoEqualsSign),
        3 => Some(WarningKind::UnknownSection),
        4 => Some(WarningKind::UnknownKey),
        5 => Some(WarningKind::UnreadableValue),
        6 => Some(WarningKind::UnreadableSpecifier),
        _ => None,
    }
}

/// The number at a place of a list.
fn number_at(value: &Value, place: usize) -> Option<u64>
    ensures { result ≡ model.number_in place (view value.now) }
{
    value.get(place)?.as_u64()
}

/// A warning as `show` has it.
#[derive(Clone, Copy)]
struct WarnedLine<'v> {
    kind: WarningKind,
    path: &'v str,
    line: u64,
}

/// The warning of the value.
#[tactic(auto, unfolding(crate::specs::Status::warning_of))]
fn warned(value: &Value) -> Option<WarnedLine<'_>>
    ensures { option_map (λ w. model.warning_text w.kind w.path.now w.line) result ≡ model.warning_of (view value.now) }
{
    let kind = warning_kind(number_at(value, 0)?)?;
    let path = text_in(value, 1)?;
    let line = number_at(value, 2)?;
    Some(WarnedLine { kind, path, line })
}

/// The text of a warning: `lib/y.service:4: unknown key, no effect`. `None` if the value is no warning.
fn warning_text(alloc: Global, value: &Value) -> Result<Option<String>, AllocError>
    ensures { IfOk result (λ text. option_map string_bytes text ≡ model.warning_of (view value.now)) }
{
    let Some(WarnedLine { kind, path, line }) = warned(value) else {
        return Ok(None);
    };
    let sentence = warning_sentence(kind);
    let text = format!(in alloc; "{path}:{line}: {sentence}")?;
    Ok(Some(text))
}

/// Appends a line for a warning, if the value is one.
fn push_warning(alloc: Global, text: &mut String, value: &Value) -> Result<(), AllocError>
    ensures { OnOk result (string_bytes text.new ≡ string_bytes text.old ++ model.warning_line (view value.now)) }
{
    match warning_text(alloc, value)? {
        Some(told) => push_line(text, told.as_str()),
        None => Ok(()),
    }
}

/// Appends a line for each warning.
fn push_warnings(alloc: Global, text: &mut String, values: &[Value]) -> Result<(), AllocError>
    ensures { OnOk result (string_bytes text.new ≡ string_bytes text.old ++ model.warning_lines (map view values.now)) }
{
    for value in values {
        push_warning(alloc, text, value)?;
    }
    Ok(())
}

/// Appends a line to the lines after a row, with its indent.
fn push_line(text: &mut String, line: &str) -> Result<(), AllocError>
    ensures { OnOk result (string_bytes text.new ≡ string_bytes text.old ++ model.detail_line line.now) }
{
    text.push_str("  ")?;
    text.push_str(line)?;
    text.push_str("\n")
}

/// The line about the end of a process, if that is recorded.
fn end_line(alloc: Global, end: Option<LastEnd<'_>>) -> Result<String, AllocError>
    ensures { IfOk result (λ line. model.IsEndLine end.entry (string_bytes line)) }
{
    let mut line = String::new(alloc);
    let Some(end) = end else {
        return Ok(line);
    };
    if let Some(told) = process_text(alloc, end)? {
        push_line(&mut line, told.as_str())?;
    }
    Ok(line)
}

/// Appends a line for each of these texts.
fn push_lines(text: &mut String, lines: &[String]) -> Result<(), AllocError>
    ensures { OnOk result (string_bytes text.new ≡ string_bytes text.old ++ flat_map model.detail_line (map string_bytes lines.now)) }
{
    for line in lines {
        push_line(text, line.as_str())?;
    }
    Ok(())
}

/// The lines after the row of a unit: the end of its last process, if that is recorded; the warnings of `show`; and
/// the reports on its files as they are now.
pub fn details_of(
    alloc: Global,
    end: Option<LastEnd<'_>>,
    warnings: &[Value],
    told: &[String],
) -> Result<String, AllocError>
    ensures { IfOk result (λ text. model.AreDetails end.entry (map view warnings.now) (map string_bytes told.now) (string_bytes text)) }
{
    let mut text = end_line(alloc, end)?;
    push_warnings(alloc, &mut text, warnings)?;
    push_lines(&mut text, told)?;
    Ok(text)
}
