//! Physical lines.

ghost use Rattle.std.specs.Prelude.{◌≡◌, ◌<◌, ◌≤◌, ◌∷◌, ◌-◌, take, drop, length, MatchOption, true, false};
ghost use Rattle.std.specs.Str.Lines.{lines};
ghost use Rattle.std.specs.Ffi.{without_last};
ghost use Rattle.um_model.specs.Syntax.{is_comment, continues};

use um_text::trim_start;

/// Whether the first character after whitespace is `#` or `;`.
pub fn is_comment(line: &str) -> bool
    ensures { result ≡ is_comment line.now }
{
    matches!(trim_start(line).as_bytes(), [b'#' | b';', ..])
}

/// Whether the line ends in an odd number of backslashes.
fn continues(line: &str) -> bool
    ensures { result ≡ continues line.now }
{
    let backslashes = line
        .as_bytes()
        .iter()
        .rev()
        .take_while(|b| **b == b'\\')
        .count();
    backslashes % 2 == 1
}

/// The line without its last backslash, if it goes on in the next one.
pub fn continued(line: &str) -> Option<&str>
    ensures { MatchOption result (continues line.now ≡ false)
        (λ front. (continues line.now ≡ true) × (front.now ≡ without_last line.now)) }
{
    let front = line.strip_suffix('\\')?;
    continues(line).then_some(front)
}

/// The first line, without its end, and the text after it.
pub fn cut_line(text: &str) -> (&str, &str)
    requires { 0 < length text.now }
    ensures line { lines text.now ≡ result.0.now ∷ lines result.1.now }
    ensures shorter { length result.1.now < length text.now }
    ensures within { length result.0.now ≤ length text.now }
    ensures front { take (length result.0.now) text.now ≡ result.0.now }
    ensures rest { drop (length text.now - length result.1.now) text.now ≡ result.1.now }
{
    match text.split_once('\n') {
        Some((line, after)) => (line.strip_suffix('\r').unwrap_or(line), after),
        None => (text, ""),
    }
}
