//! Truth values.

ghost use Rattle.std.specs.Prelude.{◌≡◌};
ghost use Rattle.std.specs.List.{list_any};
ghost use Rattle.um_model.specs.Values.{boolean_of};
ghost use Rattle.std.specs.Str.{str_eq_ignore_ascii_case};

const YES: [&str; 6] = ["1", "yes", "true", "on", "y", "t"];

const NO: [&str; 6] = ["0", "no", "false", "off", "n", "f"];

fn is_same_in_any_case(text: &str, word: &str) -> bool
    ensures { result ≡ str_eq_ignore_ascii_case text.now word.now }
{
    text.eq_ignore_ascii_case(word)
}

/// Whether the text is one of the words, in any ASCII case.
fn is_one_of(words: &[&str], text: &str) -> bool
    ensures { result ≡ list_any (λ word. str_eq_ignore_ascii_case text.now word.now) words.now }
{
    words.iter().any(|word| is_same_in_any_case(text, word))
}

#[tactic(auto, unfolding(um_model::specs::Values::boolean_of))]
/// The truth value of the text: `1 yes true on y t` or `0 no false off n f`, in any ASCII case (systemd.syntax(7)).
/// `None` for any other text.
pub fn boolean(text: &str) -> Option<bool>
    ensures { result ≡ boolean_of text.now }
{
    if is_one_of(&YES, text) {
        Some(true)
    } else if is_one_of(&NO, text) {
        Some(false)
    } else {
        None
    }
}
