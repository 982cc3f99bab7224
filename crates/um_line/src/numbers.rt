//! Numbers among the words.

ghost use Rattle.std.specs.Prelude.{◌≡◌, MatchOption, option_map};
ghost use Rattle.um_line.specs.Line.{IsCount, IsNoCount, IsNumber, IsNoNumber, IsSize, IsNoSize, IsTime, IsNoTime};

use um_runner::number_in;

/// The number of a text of decimal digits without leading zeros. `None` for another text, and outside the limits.
pub fn limited(text: Option<&str>, low: u32, high: u32) -> Option<u32>
    ensures { MatchOption result (IsNoNumber low high (option_map (λ s. s.now) text.entry)) (λ n. IsNumber low high n (option_map (λ s. s.now) text.entry)) }
{
    let number = number_in(text?.as_bytes())?;
    if number < u64::from(low) {
        return None;
    }
    if number > u64::from(high) {
        return None;
    }
    Some(number as u32)
}

/// The longest wait, in seconds: a day.
const MOST_SECONDS: u32 = 86_400;

/// An optional time in seconds, 1 to 86,400: `Some(None)` if it is absent, `None` for another text.
pub fn time(text: Option<&str>) -> Option<Option<u32>>
    ensures { MatchOption result (IsNoTime (option_map (λ s. s.now) text.entry)) (IsTime (option_map (λ s. s.now) text.entry)) }
{
    if text.is_none() {
        return Some(None);
    }
    let seconds = limited(text, 1, MOST_SECONDS)?;
    Some(Some(seconds))
}

/// The bytes of an output file that are kept by default, and the least and greatest such size.
const USUAL_SIZE: u32 = 1 << 20;

const LEAST_SIZE: u32 = 4096;

const MOST_SIZE: u32 = 1 << 24;

/// How many bytes of an output file are kept, 4,096 to 2^24; 2^20 by default. `None` for another text.
pub fn size(text: Option<&str>) -> Option<u32>
    ensures { MatchOption result (IsNoSize (option_map (λ s. s.now) text.entry)) (IsSize (option_map (λ s. s.now) text.entry)) }
{
    if text.is_none() {
        return Some(USUAL_SIZE);
    }
    limited(text, LEAST_SIZE, MOST_SIZE)
}

/// The greatest number of lines that can be requested.
const MOST_LINES: u32 = 1_000_000;

/// An optional number of lines, 0 to 1,000,000: `Some(None)` if it is absent, `None` for another text.
pub fn count(text: Option<&str>) -> Option<Option<u32>>
    ensures { MatchOption result (IsNoCount (option_map (λ s. s.now) text.entry)) (IsCount (option_map (λ s. s.now) text.entry)) }
{
    if text.is_none() {
        return Some(None);
    }
    let lines = limited(text, 0, MOST_LINES)?;
    Some(Some(lines))
}
