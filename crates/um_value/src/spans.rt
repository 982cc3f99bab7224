//! Time spans.

ghost use Rattle.std.specs.Prelude.{◌≡◌, ◌+◌, ◌<◌, ◌≤◌, ◌^◌, ℕ, length, option_map, IfSome, IfNone};
ghost use Rattle.um_model.specs.Values.{span_of};
ghost use Rattle.um_model.specs.ValueSpellings.{IsTime, IsSpan};
ghost use Rattle.um_value.specs.Spans.{micros_in};
ghost use Rattle.um_model.specs.FileForms.{unit_size, digits_of, unit_of, past_part};

use crate::numbers::decimal;
use crate::tables::number_among;
use um_model::{Span, TimeSpan};
use um_text::{Class, split_run, trim_start};

/// The units of time by their names, with their microseconds; a part without a unit is in seconds.
const TIME_UNITS: [(&str, u64); 23] = [
    ("", 1_000_000),
    ("s", 1_000_000),
    ("sec", 1_000_000),
    ("second", 1_000_000),
    ("seconds", 1_000_000),
    ("us", 1),
    ("usec", 1),
    ("ms", 1_000),
    ("msec", 1_000),
    ("m", 60_000_000),
    ("min", 60_000_000),
    ("minute", 60_000_000),
    ("minutes", 60_000_000),
    ("h", 3_600_000_000),
    ("hr", 3_600_000_000),
    ("hour", 3_600_000_000),
    ("hours", 3_600_000_000),
    ("d", 86_400_000_000),
    ("day", 86_400_000_000),
    ("days", 86_400_000_000),
    ("w", 604_800_000_000),
    ("week", 604_800_000_000),
    ("weeks", 604_800_000_000),
];

/// Microseconds in the unit; in a second if none is named.
fn unit_size(unit: &str) -> Option<u64>
    ensures value { result ≡ unit_size unit.now }
    ensures positive { IfSome result (λ size. 0 < size) }
{
    number_among(&TIME_UNITS, unit.as_bytes())
}

/// A number and its unit as a text spells them, and the text after them.
#[derive(Clone, Copy)]
struct Part<'a> {
    digits: &'a str,
    unit: &'a str,
    rest: &'a str,
}

/// The part at the front: a run of digits, and after whitespace a run of letters; both may be empty.
fn split_part(text: &str) -> Part<'_>
    ensures digits { result.digits.now ≡ digits_of text.now }
    ensures unit { result.unit.now ≡ unit_of text.now }
    ensures rest { result.rest.now ≡ past_part text.now }
    ensures shorter { length result.digits.now + length result.rest.now ≤ length text.now }
{
    let (digits, after) = split_run(text, Class::Digit);
    let (unit, rest) = split_run(trim_start(after), Class::Letter);
    Part { digits, unit, rest }
}

/// The time of a number and its unit. `None` without a number, for an unknown unit, and if it is longer than a span
/// can be.
fn time(digits: &str, unit: &str) -> Option<Span>
    ensures found { IfSome result (λ n. IsTime digits.now unit.now n × (n ≤ 2 ^ 62)) }
    ensures none { IfNone result ((n : ℕ) → n ≤ 2 ^ 62 → ¬ (IsTime digits.now unit.now n)) }
{
    if digits.is_empty() {
        return None;
    }
    let size = unit_size(unit)?;
    Span::new(decimal(digits.as_bytes())?.checked_mul(size)?)
}

/// The sum of the parts. `None` if the text has no part, or has other text, or if they are longer than a span can be.
fn sum_of_parts(text: &str) -> Option<Span>
    ensures found { IfSome result (λ n. IsSpan text.now (Some n)) }
    ensures none { IfNone result ((n : ℕ) → ¬ (IsSpan text.now (Some n))) }
{
    let mut rest = trim_start(text);
    if rest.is_empty() {
        return None;
    }
    let mut total = Span::from_micros(0);
    while !rest.is_empty() {
        let part = split_part(rest);
        total = Span::new(total.micros() + time(part.digits, part.unit)?.micros())?;
        rest = trim_start(part.rest);
    }
    Some(total)
}

/// The time span of the text: parts of decimal digits and a unit, added up, at most 2^62 microseconds, or `infinity`
/// alone. The units are `us usec`, `ms msec`, `s sec second seconds`, `m min minute minutes`, `h hr hour hours`, `d
/// day days` and `w week weeks`; a part without one is in seconds. There may be whitespace around each number and
/// unit (systemd.time(7), "Parsing Time Spans"). `None` for any other text.
pub fn span(text: &str) -> Option<TimeSpan>
    ensures { option_map micros_in result ≡ span_of text.now }
{
    if text == "infinity" {
        return Some(TimeSpan::Infinite);
    }
    sum_of_parts(text).map(TimeSpan::Micros)
}
