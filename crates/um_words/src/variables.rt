//! Variables, and their names in words.

ghost use Rattle.std.specs.Prelude.{◌≡◌, ◌++◌, ◌∷◌, IfSome, length, drop, take_while, find, reverse, string_bytes, bytes_eq};
ghost use Rattle.std.specs.Option.{option_copied, option_map};
ghost use Rattle.std.specs.List.{prefix_len, list_all};
ghost use Rattle.um_model.specs.Substitution.{is_name_start, is_name_byte, is_variable_name, value_of, whole_name, braced_name};
ghost use Rattle.um_words.specs.Environment.{variables_of};

use um_text::Class;

/// A variable of a service's environment.
#[derive(Clone, Debug, PartialEq, Eq, Drop)]
pub struct Variable {
    /// A letter or `_`, then letters, digits and `_`; a variable of another name is never found.
    pub name: String,
    /// Any text.
    pub value: String,
}

fn is_name_start(b: u8) -> bool
    ensures { result ≡ is_name_start b }
{
    Class::Letter.contains(b) || b == b'_'
}

fn is_name_byte(b: u8) -> bool
    ensures { result ≡ is_name_byte b }
{
    is_name_start(b) || Class::Digit.contains(b)
}

fn are_name_bytes(bytes: &[u8]) -> bool
    ensures { result ≡ list_all is_name_byte bytes.now }
{
    bytes.iter().all(|b| is_name_byte(*b))
}

/// Whether the text is the name of a variable.
pub fn is_variable_name(text: &str) -> bool
    ensures { result ≡ is_variable_name text.now }
{
    match text.as_bytes() {
        [first, more @ ..] => is_name_start(*first) && are_name_bytes(more),
        [] => false,
    }
}

/// How many bytes at the front can stand in a name.
fn name_len(text: &str) -> usize
    ensures { result ≡ prefix_len is_name_byte text.now }
{
    let bytes = text.as_bytes().iter();
    bytes.take_while(|b| is_name_byte(**b)).count()
}

/// The bytes at the front that can stand in a name, and what follows them.
fn split_name(text: &str) -> (&str, &str)
    ensures name { result.0.now ≡ take_while is_name_byte text.now }
    ensures rest { result.1.now ≡ drop (length result.0.now) text.now }
{
    text.split_at(name_len(text))
}

/// The name in a word that is `$NAME` as a whole.
pub fn whole_name(word: &str) -> Option<&str>
    ensures { option_copied result ≡ whole_name word.now }
{
    let name = word.strip_prefix('$')?;
    if is_variable_name(name) {
        Some(name)
    } else {
        None
    }
}

/// The name at the front of a text that begins with `{NAME}`, and the text after the `}`.
pub fn braced_name(text: &str) -> Option<(&str, &str)>
    ensures name { option_map (λ p. p.0.now) result ≡ braced_name text.now }
    ensures parts { IfSome result (λ p. text.now ≡ 123 ∷ p.0.now ++ 125 ∷ p.1.now) }
{
    let (name, after) = split_name(text.strip_prefix('{')?);
    let rest = after.strip_prefix('}')?;
    if is_variable_name(name) {
        Some((name, rest))
    } else {
        None
    }
}
