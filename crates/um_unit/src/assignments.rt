//! The assignments of a unit's files as one list.

ghost use Rattle.std.specs.Prelude.{◌≡◌, ◌&&◌, Some, None, IfOk, OnOk, ◌++◌, map, not, option_map, option_to_list};
ghost use Rattle.std.specs.List.{after_last, suffix_len};
ghost use Rattle.std.specs.Str.{bytes_eq};
ghost use Rattle.um_model.specs.Text.{is_empty};
ghost use Rattle.um_model.specs.FileForms.{in_sections, section_past};
ghost use Rattle.um_model.specs.Units as model;
ghost use Rattle.um_syntax.specs.Items.{item_of};
ghost use Rattle.um_unit.specs.Sources.{all_assigned, assigned_by, assigned_in, assigned_of};
ghost use Rattle.um_unit.specs.Tests.{assigns};

use crate::keys::is_known_section;
use std::alloc::{AllocError, Global};
use um_model::Suffix;
use um_syntax::Item;

/// The items that were read of a unit's file.
#[derive(Drop)]
pub struct Source<'t> {
    /// Its path in the tree.
    pub path: &'t str,
    pub items: Vec<Item<'t>>,
}

/// An assignment in a known section.
#[derive(Clone, Copy)]
pub struct Assigned<'a> {
    pub section: &'a str,
    pub key: &'a str,
    pub value: &'a str,
}

/// A key with its section before it.
pub type Key<'k> = (&'k str, &'k str);

/// The section after an item.
pub fn section_after<'i>(section: Option<&'i str>, item: &'i Item<'_>) -> Option<&'i str>
    ensures { option_map (λ s. s.now) result ≡ section_past (option_map (λ s. s.now) section.entry) (item_of item.now) }
{
    match item {
        Item::Section { name, .. } => Some(name.as_str()),
        Item::Assignment { .. } | Item::Warning { .. } => section,
    }
}

/// The assignment that an item is, in a known section.
fn assigned_by<'i>(
    suffix: Suffix,
    section: Option<&'i str>,
    item: &'i Item<'_>,
) -> Option<Assigned<'i>>
    ensures { option_to_list (option_map assigned_of result) ≡ assigned_by (Some suffix) (option_map (λ s. s.now) section.entry) (item_of item.now) }
{
    let section = section?;
    let Item::Assignment { key, value, .. } = item else {
        return None;
    };
    if !is_known_section(suffix, section) {
        return None;
    }
    Some(Assigned {
        section,
        key: key.as_str(),
        value: value.as_str(),
    })
}

/// Adds the assignments of a file.
fn add_assignments<'a>(
    suffix: Suffix,
    items: &'a [Item<'_>],
    assigned: &mut Vec<Assigned<'a>>,
) -> Result<(), AllocError>
    ensures { OnOk result (map assigned_of assigned.new.items
        ≡ map assigned_of assigned.old.items ++ assigned_in (Some suffix) (in_sections None (map item_of items.now))) }
{
    let mut section = None;
    for item in items {
        section = section_after(section, item);
        if let Some(one) = assigned_by(suffix, section, item) {
            assigned.push(one)?;
        }
    }
    Ok(())
}

/// The assignments of a unit's files, in the order in which they are read.
pub fn assignments<'a>(
    alloc: Global,
    suffix: Suffix,
    sources: &'a [Source<'_>],
) -> Result<Vec<Assigned<'a>>, AllocError>
    ensures { IfOk result (λ a. map assigned_of a.items ≡ all_assigned (Some suffix) sources.now) }
{
    let mut assigned = Vec::new(alloc);
    for source in sources {
        add_assignments(suffix, source.items.as_slice(), &mut assigned)?;
    }
    Ok(assigned)
}

/// Whether it assigns to the key.
fn is_of(assigned: &Assigned<'_>, section: &str, key: &str) -> bool
    ensures { result ≡ (bytes_eq assigned.now.section.now section.now && bytes_eq assigned.now.key.now key.now) }
{
    assigned.section == section && assigned.key == key
}

/// Whether it assigns to one of the keys.
fn assigns(keys: &[Key<'_>], assigned: &Assigned<'_>) -> bool
    ensures { result ≡ assigns (map (λ k. (k.0.now, k.1.now)) keys.now) (assigned_of assigned.now) }
{
    for (section, key) in keys {
        if is_of(assigned, section, key) {
            return true;
        }
    }
    false
}

/// The values of one setting, in order: each assignment to one of its keys.
pub fn values_of<'a>(
    alloc: Global,
    assigned: &[Assigned<'a>],
    keys: &[Key<'_>],
) -> Result<Vec<&'a str>, AllocError>
    ensures { IfOk result (λ values. map (λ v. v.now) values.items ≡ model.values_of (map (λ k. (k.0.now, k.1.now)) keys.now) (map assigned_of assigned.now)) }
{
    let mut values = Vec::new(alloc);
    for one in assigned {
        if assigns(keys, one) {
            values.push(one.value)?;
        }
    }
    Ok(values)
}

/// The number of values after the last empty one.
fn said_len(values: &[&str]) -> usize
    ensures { result ≡ suffix_len (λ v. not (is_empty v.now)) values.now }
{
    let last = values.iter().rev();
    last.take_while(|value| !value.is_empty()).count()
}

/// The values after the last empty one, which takes back those before it.
pub fn since_empty<'v, 'a>(values: &'v [&'a str]) -> &'v [&'a str]
    ensures { map (λ v. v.now) result.now ≡ after_last is_empty (map (λ v. v.now) values.now) }
{
    &values[values.len() - said_len(values)..]
}
