//! The reason why a unit can't be loaded, and its files without it.

ghost use Rattle.std.specs.Prelude.{◌≡◌, ◌++◌, ◌-◌, ◌==◌, IfOk, IfSome, if◌then◌else◌, length, map, option_map, slice_get, string_bytes, true};
ghost use Rattle.um_resolve.specs.View.{unit_file_of};
ghost use Rattle.um_verify.specs.Findings as model;
ghost use Rattle.um_verify.specs.View.{IsObstacle, spot_of, told_of};

use crate::finding::Finding;
use crate::marking::without_line;
use crate::seeking::{first_with, last_with};
use crate::spots::{Spot, readings, spots};
use crate::starts::starts_in;
use std::alloc::{AllocError, Global};
use um_name::UnitName;
use um_resolve::{SourceFile, resolve, source_files};
use um_sentences::{
    further_command, key_sentence, key_why, no_command, restart_sentence, type_sentence,
};
use um_tree::Tree;

/// A reason why a unit can't be loaded, and the file without it.
#[derive(Drop)]
pub struct Obstacle {
    /// The report on it; its path is that in the tree.
    pub finding: Finding,
    /// The text of the file at that path, without it.
    pub text: String,
}

/// Why a unit can't be loaded.
#[derive(Clone, Copy)]
pub enum Reason<'r> {
    /// A key that no unit may have is given a value.
    Setting(&'r str),
    /// The type isn't served.
    ServiceType,
    /// A oneshot would be started again after a success.
    Restart,
    /// There is no command, or there are too many.
    ExecCount,
}

/// The types of services that aren't served.
const TYPES: [&str; 5] = ["notify", "notify-reload", "dbus", "forking", "idle"];

/// The policies by which a service is started again after a success.
const POLICIES: [&str; 2] = ["always", "on-success"];

/// A command that starts any service, as lines that are appended to a file.
const COMMAND: &str = "\n\n[Service]\nExecStart=/bin/true\n";

/// The text of the file at the path.
fn text_at<'t>(files: &[SourceFile<'t>], path: &str) -> Option<&'t str>
    ensures { option_map (λ s. s.now) result ≡ model.text_at path.now (map unit_file_of files.now) }
{
    for file in files {
        if file.path == path {
            return Some(file.text);
        }
    }
    None
}

/// The report on an assignment.
fn finding_at(alloc: Global, spot: Spot<'_>, text: String) -> Result<Finding, AllocError>
    ensures told { IfOk result (λ f. told_of f ≡ model.told_at (spot_of spot.entry) (string_bytes text)) }
    ensures stops { IfOk result (λ f. f.stops ≡ true) }
{
    Ok(Finding {
        path: String::from_str(alloc, spot.path)?,
        line: Some(spot.line),
        text,
        stops: true,
    })
}

/// The report on an assignment, and its file without it. `None` if its line isn't found.
fn obstacle_at(
    alloc: Global,
    files: &[SourceFile<'_>],
    spot: Spot<'_>,
    text: String,
) -> Result<Option<Obstacle>, AllocError>
    ensures { IfOk result (λ o. IfSome o (IsObstacle (model.TellsAt (map unit_file_of files.now) (spot_of spot.entry) (string_bytes text)))) }
{
    let Some(file) = text_at(files, spot.path) else {
        return Ok(None);
    };
    let Some(marked) = without_line(alloc, file, spot.line)? else {
        return Ok(None);
    };
    let finding = finding_at(alloc, spot, text)?;
    Ok(Some(Obstacle {
        finding,
        text: marked,
    }))
}

/// A file with a command appended.
fn with_command(alloc: Global, text: &str) -> Result<String, AllocError>
    ensures { IfOk result (λ more. string_bytes more ≡ text.now ++ model.command) }
{
    let mut text = String::from_str(alloc, text)?;
    text.push_str(COMMAND)?;
    Ok(text)
}

/// The report that there is no command, and the unit's own file with one.
fn lack_of_command(alloc: Global, files: &[SourceFile<'_>]) -> Result<Option<Obstacle>, AllocError>
    ensures { IfOk result (λ o. IfSome o (IsObstacle (model.TellsLack (map unit_file_of files.now)))) }
{
    let Some(file) = files.first() else {
        return Ok(None);
    };
    let finding = Finding::of_file(alloc, file.path, no_command(), true)?;
    let text = with_command(alloc, file.text)?;
    Ok(Some(Obstacle { finding, text }))
}

/// The text; if its command was the only one, with another.
fn with_one(alloc: Global, text: String, count: usize) -> Result<String, AllocError>
    ensures { IfOk result (λ more. string_bytes more ≡ (if count == 1 then string_bytes text ++ model.command else string_bytes text)) }
{
    if count == 1 {
        with_command(alloc, text.as_str())
    } else {
        Ok(text)
    }
}

/// The report that there is a further command, at the last of `starts`, which are all of them.
fn command_too_many(
    alloc: Global,
    files: &[SourceFile<'_>],
    starts: &[Spot<'_>],
    last: Spot<'_>,
) -> Result<Option<Obstacle>, AllocError>
    requires { slice_get starts.now (length starts.now - 1) ≡ Some last }
    ensures { IfOk result (λ o. IfSome o (IsObstacle (model.TellsFurther (map unit_file_of files.now) (map spot_of starts.now)))) }
{
    let told = String::from_str(alloc, further_command())?;
    let Some(obstacle) = obstacle_at(alloc, files, last, told)? else {
        return Ok(None);
    };
    let Obstacle { finding, text } = obstacle;
    let text = with_one(alloc, text, starts.len())?;
    Ok(Some(Obstacle { finding, text }))
}

/// The report of a wrong number of commands, given the assignments that hold them.
fn wrong_count_of(
    alloc: Global,
    files: &[SourceFile<'_>],
    starts: &[Spot<'_>],
) -> Result<Option<Obstacle>, AllocError>
    ensures { IfOk result (λ o. IfSome o (IsObstacle (model.TellsCount (map unit_file_of files.now) (map spot_of starts.now)))) }
{
    match starts.last() {
        Some(last) => command_too_many(alloc, files, starts, *last),
        None => lack_of_command(alloc, files),
    }
}

/// The report of a wrong number of commands of the unit.
fn wrong_count(
    alloc: Global,
    unit: &UnitName,
    files: &[SourceFile<'_>],
    spots: &[Spot<'_>],
) -> Result<Option<Obstacle>, AllocError>
    ensures { IfOk result (λ o. IfSome o (IsObstacle (model.TellsCount (map unit_file_of files.now) (model.starts_in unit.now (map spot_of spots.now))))) }
{
    let starts = starts_in(alloc, unit, spots)?;
    wrong_count_of(alloc, files, starts.as_slice())
}

/// The report of a key that no unit may have, at its first value.
fn refused_setting(
    alloc: Global,
    files: &[SourceFile<'_>],
    spots: &[Spot<'_>],
    key: &str,
) -> Result<Option<Obstacle>, AllocError>
    ensures { IfOk result (λ o. IfSome o (IsObstacle (model.TellsSetting key.now (map unit_file_of files.now) (map spot_of spots.now)))) }
{
    let Some(why) = key_why(key) else {
        return Ok(None);
    };
    let Some(spot) = first_with(spots, key) else {
        return Ok(None);
    };
    let told = key_sentence(alloc, key, why)?;
    obstacle_at(alloc, files, spot, told)
}

/// The report of a type that isn't served.
fn unserved_type(
    alloc: Global,
    files: &[SourceFile<'_>],
    spots: &[Spot<'_>],
) -> Result<Option<Obstacle>, AllocError>
    ensures { IfOk result (λ o. IfSome o (IsObstacle (model.TellsType (map unit_file_of files.now) (map spot_of spots.now)))) }
{
    let Some(spot) = last_with(spots, "Type", &TYPES) else {
        return Ok(None);
    };
    let told = type_sentence(alloc, spot.value)?;
    obstacle_at(alloc, files, spot, told)
}

/// The report of a policy by which a oneshot would be started again after a success.
fn unserved_restart(
    alloc: Global,
    files: &[SourceFile<'_>],
    spots: &[Spot<'_>],
) -> Result<Option<Obstacle>, AllocError>
    ensures { IfOk result (λ o. IfSome o (IsObstacle (model.TellsRestart (map unit_file_of files.now) (map spot_of spots.now)))) }
{
    let Some(spot) = last_with(spots, "Restart", &POLICIES) else {
        return Ok(None);
    };
    let told = restart_sentence(alloc, spot.value)?;
    obstacle_at(alloc, files, spot, told)
}

/// The reason of this text.
fn reason_named(text: &str) -> Option<Reason<'_>>
    ensures { IfSome result (λ reason. model.Spells reason text.now) }
{
    if let Some(key) = text.strip_prefix("setting ") {
        return Some(Reason::Setting(key));
    }
    if text == "type" {
        return Some(Reason::ServiceType);
    }
    if text == "restart" {
        return Some(Reason::Restart);
    }
    if text == "exec-count" {
        return Some(Reason::ExecCount);
    }
    None
}

/// The report of the reason, at its place.
fn reason_at(
    alloc: Global,
    unit: &UnitName,
    files: &[SourceFile<'_>],
    spots: &[Spot<'_>],
    reason: Reason<'_>,
) -> Result<Option<Obstacle>, AllocError>
    ensures { IfOk result (λ o. IfSome o (IsObstacle (model.TellsReason unit.now reason.entry (map unit_file_of files.now) (map spot_of spots.now)))) }
{
    match reason {
        Reason::Setting(key) => refused_setting(alloc, files, spots, key),
        Reason::ServiceType => unserved_type(alloc, files, spots),
        Reason::Restart => unserved_restart(alloc, files, spots),
        Reason::ExecCount => wrong_count(alloc, unit, files, spots),
    }
}

/// The report of the reason, at its place in the unit's files.
fn reason_in(
    alloc: Global,
    tree: &Tree,
    unit: &UnitName,
    reason: Reason<'_>,
) -> Result<Option<Obstacle>, AllocError>
    ensures { IfOk result (λ o. IfSome o (IsObstacle (model.TellsReason unit.now reason.entry (model.unit_files tree.now unit.now) (model.unit_spots tree.now unit.now)))) }
{
    let resolution = resolve(alloc, tree, unit)?;
    let files = source_files(alloc, tree, &resolution)?;
    let readings = readings(alloc, files.as_slice())?;
    let spots = spots(alloc, unit.suffix(), readings.as_slice())?;
    reason_at(alloc, unit, files.as_slice(), spots.as_slice(), reason)
}

/// The report of the reason why the unit of the tree isn't loaded, at its place. `None` if no place is found.
pub fn obstacle_of(
    alloc: Global,
    tree: &Tree,
    unit: &UnitName,
    reason: &str,
) -> Result<Option<Obstacle>, AllocError>
    ensures { IfOk result (λ o. IfSome o (IsObstacle (model.TellsIn tree.now unit.now reason.now))) }
{
    let Some(reason) = reason_named(reason) else {
        return Ok(None);
    };
    reason_in(alloc, tree, unit, reason)
}
