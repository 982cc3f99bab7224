//! Reports on all units of a tree that was read, one after another.

ghost use Rattle.std.specs.Prelude.{IsPermutation, IfOk, map};
ghost use Rattle.um_verify.specs.Findings.{tree_with};
ghost use Rattle.um_verify.specs.View.{AreFindingsOf, LooksAt, findings_in};
ghost use Rattle.um_verify.specs.declared.reasons.Looked as looks;

use crate::fault::VerifyFault;
use crate::finding::Finding;
use crate::given::tree_of;
use crate::places::Collected;
use crate::reasons::{Looked, look_at};
use std::alloc::{AllocError, Global};
use std::collections::BTreeMap;
use um_model::Suffix;
use um_name::UnitName;
use um_tree::{Place, ServedPath, Tree};

/// The units that have an entry in the tree, and the path of the first.
fn units_in(alloc: Global, tree: &Tree) -> Result<BTreeMap<String, String>, VerifyFault> {
    let mut units = BTreeMap::new(alloc);
    for (path, _) in tree.entries() {
        let Some(parts) = ServedPath::parse(path) else {
            continue;
        };
        if parts.place() != Place::Unit || units.contains_key(parts.unit()) {
            continue;
        }
        let unit = String::from_str(alloc, parts.unit())?;
        units.insert(unit, String::from_str(alloc, path)?)?;
    }
    Ok(units)
}

/// The report on a unit that isn't found.
fn not_found(unit: &UnitName) -> &'static str {
    match unit.suffix() {
        Suffix::Service | Suffix::Target => "the link leads to no unit",
        _ => "only services and targets are served",
    }
}

/// The findings about the unit of this name, which has an entry at the path; the paths are those in the tree. There
/// are none for a unit whose file is another unit's, since they are that unit's findings.
fn findings_of(
    alloc: Global,
    tree: &Tree,
    name: &str,
    path: &str,
) -> Result<Vec<Finding>, VerifyFault> {
    let mut findings = Vec::new(alloc);
    let Some(unit) = UnitName::named(alloc, name)? else {
        return Ok(findings);
    };
    let mut tree = tree.copy()?;
    match look_at(alloc, &mut tree, &unit)? {
        Looked::Found(found) => findings = found,
        Looked::Masked => {}
        Looked::NotFound => {
            let finding = Finding::of_file(alloc, path, not_found(&unit), true)?;
            findings.push(finding)?;
        }
    }
    Ok(findings)
}

/// Whether the same was reported already.
fn is_told(findings: &[Finding], finding: &Finding) -> bool {
    findings.iter().any(|other| {
        other.path == finding.path && other.line == finding.line && other.text == finding.text
    })
}

/// Adds the findings about a unit, with the paths of its files on the disk.
fn add_findings(
    origins: &BTreeMap<String, String>,
    found: Vec<Finding>,
    findings: &mut Vec<Finding>,
) -> Result<(), VerifyFault> {
    for finding in found {
        let mut finding = finding;
        if let Some(origin) = origins.get(finding.path.as_str()) {
            finding.path = origin.clone()?;
        }
        if !is_told(findings.as_slice(), &finding) {
            findings.push(finding)?;
        }
    }
    Ok(())
}

/// These by path and line; findings about a whole file follow those about its lines.
fn in_order(findings: Vec<Finding>) -> Result<Vec<Finding>, AllocError>
    ensures { IfOk result (λ sorted. IsPermutation findings.items sorted.items) }
{
    let mut findings = findings;
    findings.sort_by(|one, other| {
        let by_path = one.path.cmp(&other.path);
        by_path.then(
            one.line
                .unwrap_or(usize::MAX)
                .cmp(&other.line.unwrap_or(usize::MAX)),
        )
    })?;
    Ok(findings)
}

/// The findings about files that were read, by path and line; those about a whole file follow those about its lines.
/// Only a failed allocation is an error: `NoMemory`.
pub fn verify(collected: Collected) -> Result<Vec<Finding>, VerifyFault> {
    let Collected {
        alloc,
        tree,
        origins,
        findings,
        misfits: _,
    } = collected;
    let mut findings = findings;
    for (name, path) in &units_in(alloc, &tree)? {
        let found = findings_of(alloc, &tree, name.as_str(), path.as_str())?;
        add_findings(&origins, found, &mut findings)?;
    }
    Ok(in_order(findings)?)
}

/// The findings about a unit of the tree, in order.
fn told_of(alloc: Global, tree: &mut Tree, unit: &UnitName) -> Result<Vec<Finding>, AllocError>
    ensures { IfOk result (λ found. (l : looks.Looked) × LooksAt tree.old tree.new unit.now l × IsPermutation (findings_in l) found.items) }
{
    let looked = look_at(alloc, tree, unit)?;
    match looked {
        Looked::Found(findings) => {
            let sorted = in_order(findings)?;
            Ok(sorted)
        }
        Looked::Masked => Ok(Vec::new(alloc)),
        Looked::NotFound => Ok(Vec::new(alloc)),
    }
}

/// The findings about the unit of this name in these files, each its path in the tree and its text; the paths are
/// those of the tree. There are none for a unit that isn't found in them, or is masked.
pub fn verify_files(
    alloc: Global,
    name: &str,
    files: &[(&str, &str)],
) -> Result<Vec<Finding>, AllocError>
    ensures { IfOk result (λ found. AreFindingsOf (tree_with (map (λ f. (f.0.now, f.1.now)) files.now)) name.now found.items) }
{
    let mut tree = tree_of(alloc, files)?;
    let Some(unit) = UnitName::named(alloc, name)? else {
        return Ok(Vec::new(alloc));
    };
    let found = told_of(alloc, &mut tree, &unit)?;
    Ok(found)
}
