//! The items of a text.

ghost use Rattle.std.specs.Prelude.{◌≡◌, ◌+◌, ◌<◌, ◌^◌, ℕ, List, None, IfOk, IfSome, All, map, length, true, false};
ghost use Rattle.um_model.specs.FileForms.{items_of, is_head, in_sections};
ghost use Rattle.um_model.specs.Syntax.{statement_of, reading_of};
ghost use Rattle.um_syntax.specs.Places.{cow_text, is_borrowed, LiesAt};
ghost use Rattle.um_syntax.specs.Joining.{line_of, LiesIn, HasPlace};
ghost use Rattle.um_syntax.specs.Items.{item_of, items_seen, is_section, begins_section, SpanIsIn, BorrowsIfWhole};

use crate::joiner::{Joined, joined_lines};
use crate::statements::{Statement, read_line};
use std::alloc::{AllocError, Global};
use std::borrow::CowStr;
use um_model::WarningKind;

/// A part of a text, in bytes: from `start` up to `end`.
#[derive(Clone, Copy, Debug, PartialEq, Eq)]
pub struct Span {
    pub start: usize,
    pub end: usize,
}

/// An item of a unit file (systemd.syntax(7)). `line` is the number, from 1, of its first physical line. An item
/// belongs to the section of the last head before it.
#[derive(Debug, Drop)]
pub enum Item<'a> {
    /// The head of a section, as `[Unit]`, with its name.
    Section {
        name: CowStr<'a>,
        line: usize,
    },
    /// A key and a value in a section, without the whitespace around them. If the line is one physical line, both are
    /// borrowed from the source, and the span is the value's place there; a line that was joined has no span.
    Assignment {
        key: CowStr<'a>,
        value: CowStr<'a>,
        line: usize,
        span: Option<Span>,
    },
    /// The line is without effect: an assignment before any section, or no `=`.
    Warning {
        kind: WarningKind,
        line: usize,
    },
}

impl Item<'_> {
    /// Whether the item is the head of a section.
    fn is_section(&self) -> bool
        ensures { result ≡ is_section self.now }
    {
        matches!(self, Item::Section { .. })
    }
}

/// The item of a line that is one physical line, and lies at byte `start` of the source.
fn whole_item<'a>(text: &'a str, begun: bool, line: usize, start: usize) -> Option<Item<'a>>
    requires { start + length text.now < 2 ^ 64 }
    ensures said { items_seen result ≡ items_of (statement_of text.now) begun line true }
    ensures head { begins_section result ≡ is_head (statement_of text.now) }
    ensures span { (source : List ℕ) → LiesAt source start text.now → IfSome result (SpanIsIn source) }
    ensures borrowed { IfSome result BorrowsIfWhole }
{
    let kind = match read_line(text) {
        Statement::Blank => return None,
        Statement::Head(name) => {
            let name = CowStr::Borrowed(name);
            return Some(Item::Section { name, line });
        }
        Statement::Pair { key, value, at } if begun => {
            let start = start + at;
            let end = start + value.len();
            return Some(Item::Assignment {
                key: CowStr::Borrowed(key),
                value: CowStr::Borrowed(value),
                line,
                span: Some(Span { start, end }),
            });
        }
        Statement::Pair { .. } => WarningKind::BeforeAnySection,
        Statement::Stray => WarningKind::NoEqualsSign,
    };
    Some(Item::Warning { kind, line })
}

/// The text, in memory of its own.
fn owned(alloc: Global, text: &str) -> Result<CowStr<'static>, AllocError>
    ensures { IfOk result (λ copy. (cow_text copy ≡ text.now) × (is_borrowed copy ≡ false)) }
{
    Ok(CowStr::Owned(String::from_str(alloc, text)?))
}

/// The item of a line that was joined.
fn joined_item(
    alloc: Global,
    text: &str,
    begun: bool,
    line: usize,
) -> Result<Option<Item<'static>>, AllocError>
    ensures said { IfOk result (λ r. items_seen r ≡ items_of (statement_of text.now) begun line false) }
    ensures head { IfOk result (λ r. begins_section r ≡ is_head (statement_of text.now)) }
    ensures span { IfOk result (λ r. (source : List ℕ) → IfSome r (SpanIsIn source)) }
    ensures owned { IfOk result (λ r. IfSome r BorrowsIfWhole) }
{
    let kind = match read_line(text) {
        Statement::Blank => return Ok(None),
        Statement::Head(name) => {
            let name = owned(alloc, name)?;
            return Ok(Some(Item::Section { name, line }));
        }
        Statement::Pair { key, value, .. } if begun => {
            return Ok(Some(Item::Assignment {
                key: owned(alloc, key)?,
                value: owned(alloc, value)?,
                line,
                span: None,
            }));
        }
        Statement::Pair { .. } => WarningKind::BeforeAnySection,
        Statement::Stray => WarningKind::NoEqualsSign,
    };
    Ok(Some(Item::Warning { kind, line }))
}

/// The item of a joined line, after a section's head or before any.
fn read_item<'a>(
    alloc: Global,
    line: &Joined<'a>,
    begun: bool,
) -> Result<Option<Item<'a>>, AllocError>
    requires { HasPlace line.now }
    ensures said { let line = line_of line.now in
        IfOk result (λ r. items_seen r ≡ items_of (statement_of line.text) begun line.number line.whole) }
    ensures head { IfOk result (λ r. begins_section r ≡ is_head (statement_of (line_of line.now).text)) }
    ensures span { IfOk result (λ r. (source : List ℕ) → LiesIn source line.now → IfSome r (SpanIsIn source)) }
    ensures borrowed { IfOk result (λ r. IfSome r BorrowsIfWhole) }
{
    match &line.text {
        CowStr::Borrowed(text) => Ok(whole_item(text, begun, line.number, line.start)),
        CowStr::Owned(text) => joined_item(alloc, text.as_str(), begun, line.number),
    }
}

/// The items of the text of a unit file, in the order of its lines (systemd.syntax(7)): heads of sections,
/// assignments, and the warnings `BeforeAnySection` and `NoEqualsSign`. Every text can be read.
pub fn parse<'a>(alloc: Global, source: &'a str) -> Result<Vec<Item<'a>>, AllocError>
    ensures reading { IfOk result (λ items. in_sections None (map item_of items.items) ≡ reading_of source.now) }
    ensures spans { IfOk result (λ items. All (SpanIsIn source.now) items.items) }
    ensures borrowed { IfOk result (λ items. All BorrowsIfWhole items.items) }
{
    let lines = joined_lines(alloc, source)?;
    let mut items = Vec::new(alloc);
    let mut begun = false;
    for line in &lines {
        if let Some(item) = read_item(alloc, line, begun)? {
            begun |= item.is_section();
            items.push(item)?;
        }
    }
    Ok(items)
}
