//! The statement of a joined line.

ghost use Rattle.std.specs.Prelude.{◌≡◌, option_map};
ghost use Rattle.um_model.specs.Syntax.{statement_of, in_brackets};
ghost use Rattle.um_syntax.specs.Statements.{statement_view, ValueLiesIn};

use um_text::{is_blank, trim, trim_end, trim_start};

/// The statement of a joined line. A value lies at byte `at` of the line.
#[derive(Clone, Copy)]
pub enum Statement<'a> {
    Blank,
    Head(&'a str),
    Pair {
        key: &'a str,
        value: &'a str,
        at: usize,
    },
    Stray,
}

/// The text between `[` at the front and `]` at the end.
fn in_brackets(text: &str) -> Option<&str>
    ensures { option_map (λ s. s.now) result ≡ in_brackets text.now }
{
    text.strip_prefix('[')?.strip_suffix(']')
}

/// The statement of the line.
pub fn read_line(line: &str) -> Statement<'_>
    ensures said { statement_view result ≡ statement_of line.now }
    ensures place { ValueLiesIn line.now result }
{
    if let Some(name) = in_brackets(trim(line)) {
        return Statement::Head(name);
    }
    if is_blank(line) {
        return Statement::Blank;
    }
    match line.split_once('=') {
        Some((key, after)) => {
            let value = trim_start(after);
            Statement::Pair {
                key: trim(key),
                value: trim_end(value),
                at: line.len() - value.len(),
            }
        }
        None => Statement::Stray,
    }
}
