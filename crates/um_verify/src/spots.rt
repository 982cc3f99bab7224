//! The assignments of a unit's files, each with its place.

ghost use Rattle.std.specs.Prelude.{◌≡◌, Some, None, IfOk, OnOk, ◌++◌, map, option_map, option_to_list};
ghost use Rattle.um_model.specs.FileForms.{in_sections, section_past};
ghost use Rattle.um_model.specs.Keys.{is_known_section as is_known};
ghost use Rattle.um_model.specs.Units as units;
ghost use Rattle.um_resolve.specs.View.{unit_file_of};
ghost use Rattle.um_syntax.specs.Items.{item_of};
ghost use Rattle.um_verify.specs.Findings as model;
ghost use Rattle.um_verify.specs.View.{source_seen, spot_of};

use std::alloc::{AllocError, Global};
use um_model::Suffix;
use um_resolve::SourceFile;
use um_syntax::{Item, parse};

/// A file as it is read.
#[derive(Drop)]
pub struct Reading<'t> {
    /// Its path in the tree.
    pub path: &'t str,
    pub items: Vec<Item<'t>>,
}

/// An assignment in a known section, and its place.
#[derive(Clone, Copy)]
pub struct Spot<'a> {
    /// The path of its file in the tree.
    pub path: &'a str,
    /// The number of its first physical line, from 1.
    pub line: usize,
    pub section: &'a str,
    pub key: &'a str,
    pub value: &'a str,
}

/// Whether a unit of this type has the section.
fn is_known_section(suffix: Suffix, section: &str) -> bool
    ensures { result ≡ is_known (Some suffix) section.now }
{
    match suffix {
        Suffix::Service => section == "Unit" || section == "Install" || section == "Service",
        _ => section == "Unit" || section == "Install",
    }
}

/// The section after an item.
fn section_after<'i>(section: Option<&'i str>, item: &'i Item<'_>) -> Option<&'i str>
    ensures { option_map (λ s. s.now) result ≡ section_past (option_map (λ s. s.now) section.entry) (item_of item.now) }
{
    match item {
        Item::Section { name, .. } => Some(name.as_str()),
        Item::Assignment { .. } | Item::Warning { .. } => section,
    }
}

/// The assignment of an item in a known section.
fn spot_at<'i>(
    suffix: Suffix,
    path: &'i str,
    section: Option<&'i str>,
    item: &'i Item<'_>,
) -> Option<Spot<'i>>
    ensures { option_to_list (option_map spot_of result) ≡ model.spot_by (Some suffix) path.now (option_map (λ s. s.now) section.entry) (item_of item.now) }
{
    let section = section?;
    let Item::Assignment {
        key,
        value,
        line,
        ..
    } = item
    else {
        return None;
    };
    if !is_known_section(suffix, section) {
        return None;
    }
    Some(Spot {
        path,
        line: *line,
        section,
        key: key.as_str(),
        value: value.as_str(),
    })
}

/// Adds the assignments of a file.
fn add_spots<'a>(
    suffix: Suffix,
    path: &'a str,
    items: &'a [Item<'_>],
    spots: &mut Vec<Spot<'a>>,
) -> Result<(), AllocError>
    ensures { OnOk result (map spot_of spots.new.items
        ≡ map spot_of spots.old.items ++ model.spots_in (Some suffix) path.now (in_sections None (map item_of items.now))) }
{
    let mut section = None;
    for item in items {
        section = section_after(section, item);
        if let Some(spot) = spot_at(suffix, path, section, item) {
            spots.push(spot)?;
        }
    }
    Ok(())
}

/// A file as it is read.
fn reading_of<'t>(alloc: Global, file: &SourceFile<'t>) -> Result<Reading<'t>, AllocError>
    ensures { IfOk result (λ reading. source_seen reading ≡ units.source_of (unit_file_of file.now)) }
{
    Ok(Reading {
        path: file.path,
        items: parse(alloc, file.text)?,
    })
}

/// The files as they are read.
pub fn readings<'t>(alloc: Global, files: &[SourceFile<'t>]) -> Result<Vec<Reading<'t>>, AllocError>
    ensures { IfOk result (λ readings. map source_seen readings.items ≡ map units.source_of (map unit_file_of files.now)) }
{
    let mut readings = Vec::new(alloc);
    for file in files {
        readings.push(reading_of(alloc, file)?)?;
    }
    Ok(readings)
}

/// The assignments of a unit's files, in the order in which they are read.
pub fn spots<'a>(
    alloc: Global,
    suffix: Suffix,
    readings: &'a [Reading<'_>],
) -> Result<Vec<Spot<'a>>, AllocError>
    ensures { IfOk result (λ spots. map spot_of spots.items ≡ model.all_spots (Some suffix) (map source_seen readings.now)) }
{
    let mut spots = Vec::new(alloc);
    for reading in readings {
        add_spots(suffix, reading.path, reading.items.as_slice(), &mut spots)?;
    }
    Ok(spots)
}
