//! Classes of characters, and runs of one class.

ghost use Rattle.std.specs.Prelude.{◌≡◌, drop, length, take_while};
ghost use Rattle.std.specs.List.{prefix_len};
ghost use Rattle.um_text.specs.Class.{is_of};

/// A class of ASCII characters.
#[derive(Clone, Copy, Debug, PartialEq, Eq)]
pub enum Class {
    /// Space and tab, the only whitespace in unit files (systemd.syntax(7)).
    Space,
    /// `0` to `9`.
    Digit,
    /// `a` to `z`.
    SmallLetter,
    /// `A` to `Z` and `a` to `z`.
    Letter,
}

impl Class {
    /// Whether the character of this code is of the class.
    pub fn contains(self, code: u8) -> bool
        ensures { result ≡ is_of self code }
    {
        match self {
            Class::Space => code == b' ' || code == b'\t',
            Class::Digit => code.is_ascii_digit(),
            Class::SmallLetter => code.is_ascii_lowercase(),
            Class::Letter => code.is_ascii_alphabetic(),
        }
    }
}

/// How many characters at the front of the text are of the class.
fn run_length(text: &str, class: Class) -> usize
    ensures { result ≡ prefix_len (is_of class) text.now }
{
    let codes = text.as_bytes().iter();
    codes.take_while(|code| class.contains(**code)).count()
}

/// The characters at the front of the text that are of the class, as far as they go, and the text after them.
pub fn split_run(text: &str, class: Class) -> (&str, &str)
    ensures run { result.0.now ≡ take_while (is_of class) text.now }
    ensures rest { result.1.now ≡ drop (length result.0.now) text.now }
{
    text.split_at(run_length(text, class))
}
