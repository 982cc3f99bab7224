//! The canonical bytes of a tree: its paths, each with a file or a link.
ghost use Rattle.std.specs.Prelude.{◌≡◌};
ghost use Rattle.um_model.specs.StateSpellings.{FitEntry, FitTree, entry_at, entry_spelling, is_tree, tree_at, tree_spelling};
ghost use Rattle.um_model.specs.Tree as model;
ghost use Rattle.um_model.proofs.StateSpellingsLaws.{canonical_entry, canonical_tree};
ghost use Rattle.um_tree.specs.View.{entry_of, stored_entry, tree_of};

use crate::entry::{Entry, Stored};
use crate::path::{ServedPath, is_fit_target};
use crate::tree::{ENTRY_LIMIT, TEXT_LIMIT, Tree};
use std::alloc::{AllocError, Global};
use std::collections::BTreeMap;
use std::rc::RcStr;
use um_wire::{Canon, put_text, text_in_front};

impl Canon for Stored {
    ghost Value = { model.Entry };

    ghost value = { stored_entry };

    ghost fits = { FitEntry };

    ghost spelling = { entry_spelling };

    ghost reading = { entry_at };

    fn put(&self, out: &mut Vec<u8>) -> Result<(), AllocError> {
        match self {
            Stored::File(text) => {
                out.push(0)?;
                put_text(text.as_str(), out)
            }
            Stored::Link(target) => {
                out.push(1)?;
                put_text(target.as_str(), out)
            }
        }
    }

    fn get(alloc: Global, bytes: &[u8]) -> Result<Option<(Stored, usize)>, AllocError> {
        match bytes {
            [0, rest @ ..] => match text_in_front(rest) {
                Some((text, n)) => {
                    let text = RcStr::from_str(alloc, text)?;
                    Ok(Some((Stored::File(text), n + 1)))
                }
                None => Ok(None),
            },
            [1, rest @ ..] => match text_in_front(rest) {
                Some((target, n)) => {
                    let target = RcStr::from_str(alloc, target)?;
                    Ok(Some((Stored::Link(target), n + 1)))
                }
                None => Ok(None),
            },
            _ => Ok(None),
        }
    }

    ghost canonical = { canonical_entry };
}

/// Whether the entry is allowed at the path.
fn is_fit_entry(path: &str, entry: Entry<'_>) -> bool
    ensures { result ≡ model.is_fit_entry path.now (entry_of entry.entry) }
{
    match entry {
        Entry::File(text) => ServedPath::parse(path).is_some() && text.len() <= TEXT_LIMIT,
        Entry::Link(target) => is_fit_target(ServedPath::parse(path), target),
    }
}

/// Whether the entries are those of a tree: each is allowed at its path, and there are no more than the limit.
fn are_tree(entries: &BTreeMap<String, Stored>) -> bool
    ensures { result ≡ is_tree (tree_of entries.now.entries) }
{
    for (path, entry) in entries.iter() {
        if !is_fit_entry(path.as_str(), entry.as_entry()) {
            return false;
        }
    }
    entries.len() <= ENTRY_LIMIT
}

impl Canon for Tree {
    ghost Value = { model.Tree };

    ghost value = { λ tree. tree };

    ghost fits = { FitTree };

    ghost spelling = { tree_spelling };

    ghost reading = { tree_at };

    fn put(&self, out: &mut Vec<u8>) -> Result<(), AllocError> {
        self.entries.put(out)
    }

    fn get(alloc: Global, bytes: &[u8]) -> Result<Option<(Tree, usize)>, AllocError> {
        let Some((entries, n)) = <BTreeMap<String, Stored> as Canon>::get(alloc, bytes)? else {
            return Ok(None);
        };
        if !are_tree(&entries) {
            return Ok(None);
        }
        Ok(Some((Tree { alloc, entries }, n)))
    }

    ghost canonical = { canonical_tree };
}
