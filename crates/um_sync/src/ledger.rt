//! The record of the files of a folder that were put into a tree.

ghost use Rattle.std.specs.Prelude.{◌≡◌, ℕ, List, [], IfOk, MatchOption, OnOk, Some, bytes_eq, false, if◌then◌else◌, map, option_map, string_bytes, true};
ghost use Rattle.std.specs.List.{list_any};
ghost use Rattle.std.specs.Str.Lines.{lines as text_lines};
ghost use Rattle.um_sync.specs.Sync as model;
ghost use Rattle.um_sync.specs.View.{IsRead, mark_at, marks_in, said_of};

use crate::line::{Line, line_in, mark_line};
use crate::mark::Mark;
use std::alloc::{AllocError, Global};
use std::collections::BTreeMap;

/// The record of the files of a folder that were put, by path, and whether a reload is owed since.
#[derive(Drop)]
pub struct Ledger {
    pub(crate) alloc: Global,
    pub(crate) marks: BTreeMap<String, Mark>,
    /// Something was put or removed, or may have been, and no reload followed.
    pub owes_reload: bool,
}

/// The lines of a text.
fn lines_of(alloc: Global, text: &str) -> Result<Vec<&str>, AllocError>
    ensures { IfOk result (λ all. map (λ line. line.now) all.items ≡ text_lines text.now) }
{
    text.lines().collect(alloc)
}

/// The meanings of the lines. `None` if one of them has none.
fn said_by<'a>(alloc: Global, lines: &[&'a str]) -> Result<Option<Vec<Line<'a>>>, AllocError>
    ensures { IfOk result (λ found. MatchOption found (list_any model.says_nothing (map (λ line. line.now) lines.now) ≡ true)
        (λ said. map Some (map said_of said.items) ≡ map model.says (map (λ line. line.now) lines.now))) }
{
    let mut said = Vec::new(alloc);
    for line in lines {
        match line_in(line) {
            Some(line) => said.push(line)?,
            None => return Ok(None),
        }
    }
    Ok(Some(said))
}

impl Ledger {
    /// The empty record.
    pub fn new(alloc: Global) -> Ledger
        ensures marks { marks_in result ≡ [] }
        ensures owes { result.owes_reload ≡ false }
    {
        Ledger {
            alloc,
            marks: BTreeMap::new(alloc),
            owes_reload: false,
        }
    }

    /// The mark of the last entry put at the path.
    pub fn mark(&self, path: &str) -> Option<Mark>
        ensures { result ≡ mark_at self.now path.now }
    {
        self.marks.get(path).copied()
    }

    /// Records the entry at the path now: its mark, or none if it is nothing of this folder's.
    pub fn note(&mut self, path: &str, mark: Option<Mark>) -> Result<(), AllocError>
        ensures marks { OnOk result ((other : List ℕ) → mark_at self.new other ≡ (if bytes_eq path.now other then mark else mark_at self.old other)) }
        ensures owes { self.new.owes_reload ≡ self.old.owes_reload }
    {
        match mark {
            Some(mark) => {
                let path = String::from_str(self.alloc, path)?;
                self.marks.insert(path, mark)?;
            }
            None => {
                self.marks.remove(path);
            }
        }
        Ok(())
    }

    /// Records the meaning of a line.
    fn take(&mut self, line: Line<'_>) -> Result<(), AllocError>
        ensures marks { OnOk result ((path : List ℕ) → mark_at self.new path ≡ model.mark_after path (mark_at self.old path) (said_of line.entry)) }
        ensures owes { OnOk result (self.new.owes_reload ≡ model.owed_after self.old.owes_reload (said_of line.entry)) }
    {
        match line {
            Line::Marked(path, mark) => self.note(path, Some(mark)),
            Line::Reload => {
                self.owes_reload = true;
                Ok(())
            }
        }
    }

    /// The record of these lines together.
    fn of_lines(alloc: Global, lines: &[Line<'_>]) -> Result<Ledger, AllocError>
        ensures marks { IfOk result (λ l. (path : List ℕ) → mark_at l path ≡ model.last_mark path (map said_of lines.now)) }
        ensures owes { IfOk result (λ l. l.owes_reload ≡ model.is_owed (map said_of lines.now)) }
    {
        let mut ledger = Ledger::new(alloc);
        for line in lines {
            ledger.take(*line)?;
        }
        Ok(ledger)
    }

    /// The record of a text with a line per path; the last line of a path counts. `None` if one of its lines has no
    /// meaning.
    pub fn read(alloc: Global, text: &str) -> Result<Option<Ledger>, AllocError>
        ensures { IfOk result (λ read. MatchOption read (list_any model.says_nothing (text_lines text.now) ≡ true) (IsRead text.now)) }
    {
        let lines = lines_of(alloc, text)?;
        let Some(said) = said_by(alloc, lines.as_slice())? else {
            return Ok(None);
        };
        let ledger = Ledger::of_lines(alloc, said.as_slice())?;
        Ok(Some(ledger))
    }

    /// The text of the record, a line per path.
    pub fn to_text(&self) -> Result<String, AllocError>
        ensures { IfOk result (λ text. string_bytes text ≡ model.kept_text (marks_in self.now) self.now.owes_reload) }
    {
        let mut text = String::new(self.alloc);
        for (path, mark) in self.marks.iter() {
            text.push_str(mark_line(self.alloc, path.as_str(), *mark)?.as_str())?;
        }
        if self.owes_reload {
            text.push_str("reload\n")?;
        }
        Ok(text)
    }
}
