//! The steps after which a tree has the files of a folder.

ghost use Rattle.std.specs.Prelude.{◌≡◌, ◌++◌, IfOk, codes, map, string_bytes};
ghost use Rattle.std.specs.Cmp.Lexicographic.{slice_cmp};
ghost use Rattle.std.specs.List.Sorted.{IsPermutation, IsSortedByKey};
ghost use Rattle.std.specs.Ordering.{nat_cmp};
ghost use Rattle.um_sync.specs.Sync as model;
ghost use Rattle.um_sync.specs.View.{AreSteps, mark_at, marks_in, step_of};

use crate::ledger::Ledger;
use crate::mark::Mark;
use std::alloc::{AllocError, Global};
use um_tree::{Entry, Tree};

/// The action at a path.
#[derive(Clone, Copy, Debug, PartialEq, Eq)]
pub enum Action {
    /// The folder's entry is put.
    Put,
    /// The folder's entry is put after the old one is removed: a link can't replace anything, and nothing can replace
    /// a link.
    Replace,
    /// The entry is removed.
    Remove,
}

/// The action at one path.
#[derive(Debug, Drop)]
pub struct Step {
    pub path: String,
    pub action: Action,
}

impl Step {
    /// Its line: `put lib/a.service`, or `remove lib/a.service`.
    pub fn to_line(&self, alloc: Global) -> Result<String, AllocError>
        ensures { IfOk result (λ text. string_bytes text ≡ model.step_line (step_of self.now)) }
    {
        let path = &self.path;
        match self.action {
            Action::Remove => format!(in alloc; "remove {path}\n"),
            Action::Put | Action::Replace => format!(in alloc; "put {path}\n"),
        }
    }
}

/// How an entry replaces the one that was put before: a file can replace a file directly.
fn in_place_of(before: Mark, now: Mark) -> Action
    ensures { result ≡ model.in_place_of before now }
{
    match (before, now) {
        (Mark::File(_), Mark::File(_)) => Action::Put,
        _ => Action::Replace,
    }
}

/// The action for this mark in the folder and that mark of the record. `None` if both are the same, unless `all`
/// files are to be put again.
fn action_for(all: bool, before: Option<Mark>, now: Mark) -> Option<Action>
    ensures { result ≡ model.action_for all before now }
{
    let Some(before) = before else {
        return Some(Action::Put);
    };
    if !before.is_same(now) {
        return Some(in_place_of(before, now));
    }
    if all { Some(Action::Put) } else { None }
}

/// A step at a path.
fn step_at(alloc: Global, path: &str, action: Action) -> Result<Step, AllocError>
    ensures { IfOk result (λ step. step_of step ≡ (path.now, action)) }
{
    let path = String::from_str(alloc, path)?;
    Ok(Step { path, action })
}

/// The steps that put the entries of the tree, as a folder holds it.
fn puts(alloc: Global, all: bool, ledger: &Ledger, tree: &Tree) -> Result<Vec<Step>, AllocError>
    ensures { IfOk result (λ steps. map step_of steps.items ≡ model.puts all (mark_at ledger.now) tree.now) }
{
    let mut steps = Vec::new(alloc);
    for (path, entry) in tree.entries() {
        if let Some(action) = action_for(all, ledger.mark(path), Mark::of(entry)) {
            steps.push(step_at(alloc, path, action)?)?;
        }
    }
    Ok(steps)
}

/// These steps, followed by those that remove the entries that were put and aren't in the tree.
fn with_removals(
    steps: Vec<Step>,
    alloc: Global,
    ledger: &Ledger,
    tree: &Tree,
) -> Result<Vec<Step>, AllocError>
    ensures { IfOk result (λ more. map step_of more.items ≡ map step_of steps.items ++ model.removals tree.now (map (λ e. e.0) (marks_in ledger.now))) }
{
    let mut steps = steps;
    for (path, _) in ledger.marks.iter() {
        if tree.get(path.as_str()).is_none() {
            steps.push(step_at(alloc, path.as_str(), Action::Remove)?)?;
        }
    }
    Ok(steps)
}

/// These in the order of their paths by bytes.
fn in_order(steps: Vec<Step>) -> Result<Vec<Step>, AllocError>
    ensures same { IfOk result (λ sorted. IsPermutation steps.items sorted.items) }
    ensures sorted { IfOk result (λ sorted. IsSortedByKey (λ s. string_bytes s.path) (slice_cmp nat_cmp) sorted.items) }
{
    let mut steps = steps;
    steps.sort_by(|one, other| one.path.cmp(&other.path))?;
    Ok(steps)
}

/// The steps for a folder that holds the tree, by path: new and changed entries are put, missing ones are removed;
/// with `all` every entry is put.
pub fn steps_of(
    alloc: Global,
    all: bool,
    ledger: &Ledger,
    tree: &Tree,
) -> Result<Vec<Step>, AllocError>
    ensures { IfOk result (λ steps. AreSteps all ledger.now tree.now steps.items) }
{
    let found = puts(alloc, all, ledger, tree)?;
    let found = with_removals(found, alloc, ledger, tree)?;
    let steps = in_order(found)?;
    Ok(steps)
}
