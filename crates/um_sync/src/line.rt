//! The lines of the record.

ghost use Rattle.std.specs.Prelude.{◌≡◌, ◌++◌, IfOk, Some, codes, option_map, string_bytes};
ghost use Rattle.hex.specs.Hex.{encode_lower};
ghost use Rattle.um_sync.specs.Sync as model;
ghost use Rattle.um_sync.specs.View.{said_of};
ghost use Rattle.um_tree.specs.View.{two_texts};

use crate::mark::Mark;
use hex::FromHex;
use std::alloc::{AllocError, Global};

/// The meaning of a line, without its line feed.
#[derive(Clone, Copy, Debug)]
pub(crate) enum Line<'a> {
    /// The last entry put at a path.
    Marked(&'a str, Mark),
    /// A reload is owed.
    Reload,
}

/// The text before the first space and the text after it, if there is a space.
fn around_space(text: &str) -> Option<(&str, &str)>
    ensures { option_map two_texts result ≡ model.around_space text.now }
{
    text.split_once(' ')
}

/// The mark of this kind with a sum. `None` if there is no such kind.
fn mark_by(kind: &str, sum: [u8; 32]) -> Option<Mark>
    ensures { result ≡ model.mark_by kind.now sum }
{
    if kind == "file" {
        Some(Mark::File(sum))
    } else if kind == "link" {
        Some(Mark::Link(sum))
    } else {
        None
    }
}

/// The meaning of a path with a sum, of this kind.
fn with_sum<'a>(kind: &str, sum: &str, path: &'a str) -> Option<Line<'a>>
    ensures { option_map said_of result ≡ model.summed kind.now (Some (sum.now, path.now)) }
{
    match <[u8; 32] as FromHex>::from_hex(sum) {
        Ok(sum) => Some(Line::Marked(path, mark_by(kind, sum)?)),
        Err(_) => None,
    }
}

/// The meaning of the text after this kind.
fn marked<'a>(kind: &str, rest: &'a str) -> Option<Line<'a>>
    ensures { option_map said_of result ≡ model.marked kind.now rest.now }
{
    if kind == "asked" {
        return Some(Line::Marked(rest, Mark::Asked));
    }
    let (sum, path) = around_space(rest)?;
    with_sum(kind, sum, path)
}

/// The meaning of a line. `None` if it has none.
pub(crate) fn line_in(line: &str) -> Option<Line<'_>>
    ensures { option_map said_of result ≡ model.says line.now }
{
    if line == "reload" {
        return Some(Line::Reload);
    }
    let (kind, rest) = around_space(line)?;
    marked(kind, rest)
}

/// The line of a path with a sum.
fn summed(alloc: Global, kind: &str, sum: &[u8], path: &str) -> Result<String, AllocError>
    ensures { IfOk result (λ text. string_bytes text ≡ kind.now ++ (codes " " ++ (encode_lower sum.now ++ (codes " " ++ (path.now ++ codes "\n"))))) }
{
    let sum = hex::encode(alloc, sum)?;
    format!(in alloc; "{kind} {sum} {path}\n")
}

/// The line of a path, with its line feed.
pub(crate) fn mark_line(alloc: Global, path: &str, mark: Mark) -> Result<String, AllocError>
    ensures { IfOk result (λ text. string_bytes text ≡ model.mark_line path.now mark) }
{
    match mark {
        Mark::File(sum) => summed(alloc, "file", &sum, path),
        Mark::Link(sum) => summed(alloc, "link", &sum, path),
        Mark::Asked => format!(in alloc; "asked {path}\n"),
    }
}
