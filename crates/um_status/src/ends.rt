//! The end of a unit's last process, by the line that records it.

ghost use Rattle.std.specs.Prelude.{◌≡◌, IfOk, MatchOption, string_bytes};
ghost use Rattle.um_status.specs.Status as model;

use jiff::Timestamp;
use jiff::tz::Offset;
use std::alloc::{AllocError, Global};
use um_runner::number_in;

/// A line that records the end of a process.
#[derive(Clone, Copy)]
pub struct LastEnd<'a> {
    /// The process's number.
    pub number: u64,
    /// When the end was reported, in microseconds from the beginning of 1970.
    pub moment: u64,
    /// How it ended, as `code 78`, `signal 9`, `lost` or `not-started`.
    pub how: &'a str,
}

/// The parts of the line, without its line feed. `None` if it is no line of an end.
pub fn last_end(line: &str) -> Option<LastEnd<'_>>
    ensures { MatchOption result (model.IsNoEnd line.now) (λ end. line.now ≡ model.end_text end.number end.moment end.how.now) }
{
    let (number, rest) = line.split_once(' ')?;
    let (moment, how) = rest.split_once(' ')?;
    let number = number_in(number.as_bytes())?;
    let moment = number_in(moment.as_bytes())?;
    Some(LastEnd {
        number,
        moment,
        how,
    })
}

/// How a process ended, for a person.
fn how_told(how: &str) -> &str
    ensures { result.now ≡ model.how_told how.now }
{
    if how == "code 203" {
        "can't be executed"
    } else {
        how
    }
}

/// The time of a moment in microseconds, in UTC, as `2026-11-29T19:44:45Z`. `None` past the year 9999.
fn time_text(alloc: Global, moment: u64) -> Result<Option<String>, AllocError>
    ensures { IfOk result (λ text. MatchOption text (¬ model.HasDate moment) (λ t. model.IsTimeOf moment (string_bytes t))) }
{
    let seconds = moment / 1_000_000;
    let Ok(instant) = Timestamp::from_second(seconds as i64) else {
        return Ok(None);
    };
    let shown = Offset::UTC.to_datetime(instant);
    let text = format!(in alloc; "{shown}Z")?;
    Ok(Some(text))
}

/// The text about the end of a process: `process 1: code 78, 2026-11-29T19:44:45Z`. `None` if its time has no date.
pub(crate) fn process_text(alloc: Global, end: LastEnd<'_>) -> Result<Option<String>, AllocError>
    ensures { IfOk result (λ text. MatchOption text (¬ model.HasDate end.entry.moment)
        (λ t. model.IsProcessText end.entry.number end.entry.moment end.entry.how.now (string_bytes t))) }
{
    let Some(time) = time_text(alloc, end.moment)? else {
        return Ok(None);
    };
    let (number, how) = (end.number, how_told(end.how));
    let text = format!(in alloc; "process {number}: {how}, {time}")?;
    Ok(Some(text))
}
