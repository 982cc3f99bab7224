//! The whole report on a unit: each reason why it can't be loaded, one after another, and each warning.

ghost use Rattle.std.specs.Prelude.{◌≡◌, ◌++◌, List, IfOk, OnOk, map};
ghost use Rattle.um_unit.specs.View.{unit_of, warned_by, warnings_seen};
ghost use Rattle.um_verify.specs.Findings.{warning_place};
ghost use Rattle.um_verify.specs.View.{IsTaken, LooksAt, place_of};
ghost use Rattle.um_verify.specs.declared.finding.Finding as findings_of;

use crate::finding::Finding;
use crate::given::read_now;
use crate::marking::line_text;
use crate::obstacle::{Obstacle, obstacle_of};
use std::alloc::{AllocError, Global};
use um_name::UnitName;
use um_sentences::warning_at;
use um_tree::{Entry, Tree};
use um_unit::{FileWarnings, LoadedUnit, Loading, load};
use um_wire::Refusal;

/// The outcome of a look at a unit.
#[derive(Drop)]
pub enum Looked {
    /// It is found, or would be without these.
    Found(Vec<Finding>),
    /// An empty file or a link to `/dev/null` masks it.
    Masked,
    NotFound,
}

/// The outcome for a reason.
#[derive(Drop)]
pub(crate) enum Taken {
    /// It is reported, and the tree is without it.
    Out(Finding),
    /// The tree is unchanged. The reason is reported if a line was found for it.
    Left(Option<Finding>),
}

/// The text of the file at the path of the tree.
fn file_text<'t>(tree: &'t Tree, path: &str) -> Option<&'t str> {
    match tree.get(path) {
        Some(Entry::File(text)) => Some(text),
        Some(Entry::Link(_)) | None => None,
    }
}

/// Adds the warnings of a file.
fn add_file(
    alloc: Global,
    tree: &Tree,
    file: &FileWarnings,
    findings: &mut Vec<Finding>,
) -> Result<(), AllocError>
    ensures { OnOk result ((rest : List findings_of.Finding) × (findings.new.items ≡ findings.old.items ++ rest) × (map place_of rest ≡ map warning_place (warned_by file.now))) }
{
    let text = file_text(tree, file.path.as_str()).unwrap_or("");
    for warning in &file.warnings {
        findings.push(Finding {
            path: file.path.clone()?,
            line: Some(warning.line),
            text: warning_at(alloc, warning.kind, line_text(text, warning.line))?,
            stops: false,
        })?;
    }
    Ok(())
}

/// Adds the warnings of files.
fn add_files(
    alloc: Global,
    tree: &Tree,
    files: &[FileWarnings],
    findings: &mut Vec<Finding>,
) -> Result<(), AllocError>
    ensures { OnOk result ((rest : List findings_of.Finding) × (findings.new.items ≡ findings.old.items ++ rest) × (map place_of rest ≡ map warning_place (warnings_seen files.now))) }
{
    for file in files {
        add_file(alloc, tree, file, findings)?;
    }
    Ok(())
}

/// Reports the reason at its line, and removes it from the tree, if a line is found for it and the tree can hold the
/// file without it.
fn take_out(
    alloc: Global,
    tree: &mut Tree,
    unit: &UnitName,
    reason: &str,
) -> Result<Taken, AllocError>
    ensures { IfOk result (IsTaken tree.old tree.new unit.now reason.now) }
{
    let Some(obstacle) = obstacle_of(alloc, tree, unit, reason)? else {
        return Ok(Taken::Left(None));
    };
    let Obstacle { finding, text } = obstacle;
    match tree.put(finding.path.as_str(), text.as_str()) {
        Ok(()) => Ok(Taken::Out(finding)),
        Err(Refusal::NoMemory) => Err(AllocError),
        Err(refusal) => {
            drop(refusal);
            Ok(Taken::Left(Some(finding)))
        }
    }
}

/// The findings, followed by the last one, if there is one.
fn with_last(findings: Vec<Finding>, last: Option<Finding>) -> Result<Vec<Finding>, AllocError>
    ensures { IfOk result (λ all. (rest : List findings_of.Finding) × (all.items ≡ findings.items ++ rest)) }
{
    let mut all = findings;
    if let Some(last) = last {
        all.push(last)?;
    }
    Ok(all)
}

/// The findings, followed by the warnings of the unit that was found.
fn with_warnings(
    alloc: Global,
    tree: &Tree,
    findings: Vec<Finding>,
    unit: &LoadedUnit,
) -> Result<Vec<Finding>, AllocError>
    ensures { IfOk result (λ all. (rest : List findings_of.Finding) × (all.items ≡ findings.items ++ rest) × (map place_of rest ≡ map warning_place (unit_of unit.now).warnings)) }
{
    let mut all = findings;
    add_files(alloc, tree, unit.warnings.as_slice(), &mut all)?;
    Ok(all)
}

/// Looks at the unit of that name in a tree. The reason that `load` gives is reported at its line and the line is
/// removed, until the unit can be loaded; then its warnings are reported. The tree keeps the changes.
pub fn look_at(alloc: Global, tree: &mut Tree, unit: &UnitName) -> Result<Looked, AllocError>
    ensures { IfOk result (LooksAt tree.old tree.new unit.now) }
{
    let mut findings = Vec::new(alloc);
    for _ in 0..u64::MAX {
        match load(alloc, read_now(tree), unit)? {
            Loading::Found(found) => {
                let all = with_warnings(alloc, tree, findings, &found)?;
                return Ok(Looked::Found(all));
            }
            Loading::Masked { unit: _ } => return Ok(Looked::Masked),
            Loading::NotFound => return Ok(Looked::NotFound),
            Loading::BadSetting { unit, reason } => {
                match take_out(alloc, tree, &unit, reason.as_str())? {
                    Taken::Out(finding) => findings.push(finding)?,
                    Taken::Left(last) => return Ok(Looked::Found(with_last(findings, last)?)),
                }
            }
        }
    }
    Err(AllocError)
}
