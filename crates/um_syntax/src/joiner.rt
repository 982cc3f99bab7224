//! Joined lines.

ghost use Rattle.std.specs.Prelude.{◌≡◌, ◌∷◌, List, IfOk, OnOk, All, map, ℕ};
ghost use Rattle.um_model.specs.Syntax.{Line, joined_lines};
ghost use Rattle.um_syntax.specs.Joining.{line_of, all_lines, LiesIn};
ghost use Rattle.um_syntax.specs.Places.{LiesAt};
ghost use Rattle.um_model.specs.FileForms.{physical_line};

use crate::lines::{continued, cut_line, is_comment};
use std::alloc::{AllocError, Global};
use std::borrow::CowStr;
use um_text::is_blank;

/// A joined line, with the number of its first physical line. Borrowed text is one physical line, and lies at byte `start` of
/// the source.
#[derive(Drop)]
pub struct Joined<'a> {
    pub number: usize,
    pub start: usize,
    pub text: CowStr<'a>,
}

/// A line that goes on: its text so far, with a space for each backslash that joined.
#[derive(Drop)]
struct Begun {
    number: usize,
    text: String,
}

/// The lines so far, and the one that goes on.
#[derive(Drop)]
struct Joiner<'a> {
    lines: Vec<Joined<'a>>,
    begun: Option<Begun>,
}

/// Adds the physical line that lies at byte `start` of the source.
fn add_line<'a>(
    alloc: Global,
    joiner: &mut Joiner<'a>,
    number: usize,
    start: usize,
    line: &'a str,
) -> Result<(), AllocError>
    ensures lines { OnOk result ((later : List Line) →
        all_lines joiner.new later ≡ all_lines joiner.old (physical_line number line.now ∷ later)) }
    ensures places { OnOk result ((source : List ℕ) → LiesAt source start line.now →
        All (LiesIn source) joiner.old.lines.items → All (LiesIn source) joiner.new.lines.items) }
{
    let begun = joiner.begun.take();
    if let Some(front) = continued(line) {
        let mut begun = begun.unwrap_or(Begun {
            number,
            text: String::new(alloc),
        });
        begun.text.push_str(front)?;
        begun.text.push(' ')?;
        joiner.begun = Some(begun);
        return Ok(());
    }
    let joined = match begun {
        Some(mut begun) => {
            begun.text.push_str(line)?;
            Joined {
                number: begun.number,
                start,
                text: CowStr::Owned(begun.text),
            }
        }
        None => Joined {
            number,
            start,
            text: CowStr::Borrowed(line),
        },
    };
    joiner.lines.push(joined)?;
    Ok(())
}

/// The joined lines of a text.
pub fn joined_lines<'a>(alloc: Global, text: &'a str) -> Result<Vec<Joined<'a>>, AllocError>
    ensures lines { IfOk result (λ v. map line_of v.items ≡ joined_lines text.now) }
    ensures places { IfOk result (λ v. All (LiesIn text.now) v.items) }
{
    let mut joiner = Joiner {
        lines: Vec::new(alloc),
        begun: None,
    };
    let mut rest = text;
    let mut number = 0;
    while !rest.is_empty() {
        let start = text.len() - rest.len();
        let (line, after) = cut_line(rest);
        rest = after;
        number += 1;
        if is_comment(line) {
            continue;
        }
        let kept = if is_blank(line) { "" } else { line };
        add_line(alloc, &mut joiner, number, start, kept)?;
    }
    let Joiner { mut lines, begun } = joiner;
    if let Some(begun) = begun {
        lines.push(Joined {
            number: begun.number,
            start: text.len(),
            text: CowStr::Owned(begun.text),
        })?;
    }
    Ok(lines)
}
