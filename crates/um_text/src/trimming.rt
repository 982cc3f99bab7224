//! Texts without the spaces and tabs at their ends. Characters past ASCII are no whitespace here (systemd.syntax(7)).

ghost use Rattle.std.specs.Prelude.{◌≡◌, ◌-◌, ◌≤◌, take, drop, length};
ghost use Rattle.um_model.specs.Text.{trim_start, trim, is_blank};
ghost use Rattle.um_model.specs.FileForms.{trim_end};

/// The text without the spaces and tabs in front: an end of it.
pub fn trim_start(text: &str) -> &str
    ensures value { result.now ≡ trim_start text.now }
    ensures shorter { length result.now ≤ length text.now }
    ensures end { drop (length text.now - length result.now) text.now ≡ result.now }
{
    let mut rest = text;
    while let [b' ' | b'\t', ..] = rest.as_bytes() {
        rest = &rest[1..];
    }
    rest
}

/// The text without the spaces and tabs at its end: a front of it.
pub fn trim_end(text: &str) -> &str
    ensures value { result.now ≡ trim_end text.now }
    ensures shorter { length result.now ≤ length text.now }
    ensures front { take (length result.now) text.now ≡ result.now }
{
    let mut rest = text;
    while let [.., b' ' | b'\t'] = rest.as_bytes() {
        rest = &rest[..rest.len() - 1];
    }
    rest
}

/// The text without the spaces and tabs at both ends.
pub fn trim(text: &str) -> &str
    ensures { result.now ≡ trim text.now }
{
    trim_end(trim_start(text))
}

/// Whether the text has no characters but spaces and tabs. An empty text is blank.
pub fn is_blank(text: &str) -> bool
    ensures { result ≡ is_blank text.now }
{
    trim_start(text).is_empty()
}
