//! Whether two trees, two readings, or two lists of names are the same.

ghost use Rattle.std.specs.FinMap as map;
ghost use Rattle.std.specs.Prelude.{◌≡◌, ◌↔◌, Some, IsTrue, option_copied, option_map};
ghost use Rattle.um_tree.specs.View.{entry_of, path_with_entry};
ghost use Rattle.um_unit.specs.View.{tree_read};

use um_model::Profile;
use um_name::{Names, UnitName};
use um_tree::{Entries, Entry, Tree};
use um_unit::Reading;

/// Whether both are files with the same text, or links to the same target.
fn is_same_entry(entry: Entry<'_>, other: Entry<'_>) -> bool
    ensures { IsTrue result ↔ (entry_of entry.entry ≡ entry_of other.entry) }
{
    match (entry, other) {
        (Entry::File(text), Entry::File(other)) => text == other,
        (Entry::Link(target), Entry::Link(other)) => target == other,
        (Entry::File(_), Entry::Link(_)) | (Entry::Link(_), Entry::File(_)) => false,
    }
}

/// Whether the other is this entry at this path.
fn is_same_at(path: &str, entry: Entry<'_>, other: Option<(&str, Entry<'_>)>) -> bool
    ensures { IsTrue result ↔ (option_map path_with_entry other.entry ≡ Some (path.now, entry_of entry.entry)) }
{
    match other {
        Some((other_path, other)) => path == other_path && is_same_entry(entry, other),
        None => false,
    }
}

/// Whether this entry stands in the tree at the path. It reads no other text, and takes no memory.
pub fn has_entry(tree: &Tree, path: &str, entry: Entry<'_>) -> bool
    ensures { IsTrue result ↔ (map.get tree.now path.now ≡ Some (entry_of entry.entry)) }
{
    match tree.get(path) {
        Some(other) => is_same_entry(entry, other),
        None => false,
    }
}

/// Whether both are the same entries at the same paths.
fn are_same_entries(entries: Entries<'_>, others: Entries<'_>) -> bool
    ensures { IsTrue result ↔ (entries.entry ≡ others.entry) }
{
    let mut others = others;
    for (path, entry) in entries {
        if !is_same_at(path, entry, others.next()) {
            return false;
        }
    }
    others.next().is_none()
}

/// Whether both have the same entries. It takes no memory.
pub fn is_same_tree(tree: &Tree, other: &Tree) -> bool
    ensures { IsTrue result ↔ (tree.now ≡ other.now) }
{
    tree.len() == other.len() && are_same_entries(tree.entries(), other.entries())
}

/// Whether both are the same profile.
fn is_same_profile(profile: Profile, other: Profile) -> bool
    ensures { IsTrue result ↔ (profile ≡ other) }
{
    match (profile, other) {
        (Profile::One, Profile::One) | (Profile::Two, Profile::Two) => true,
        (Profile::One, Profile::Two) | (Profile::Two, Profile::One) => false,
    }
}

/// Whether both have the same entries, read by the same profile. It takes no memory.
pub fn is_same_reading(reading: Reading<'_>, other: Reading<'_>) -> bool
    ensures { IsTrue result ↔ (tree_read reading.entry ≡ tree_read other.entry) }
{
    is_same_profile(reading.profile, other.profile) && is_same_tree(reading.tree, other.tree)
}

/// Whether both are the same name, or none.
fn is_same_name(name: Option<&UnitName>, other: Option<&UnitName>) -> bool
    ensures { IsTrue result ↔ (option_copied name.entry ≡ option_copied other.entry) }
{
    match (name, other) {
        (Some(name), Some(other)) => name == other,
        (None, None) => true,
        (Some(_), None) | (None, Some(_)) => false,
    }
}

/// Whether both have the same names. It takes no memory.
pub fn is_same_names(names: &Names, others: &Names) -> bool
    ensures { IsTrue result ↔ (names.now ≡ others.now) }
{
    if names.len() != others.len() {
        return false;
    }
    for number in 0..names.len() {
        if !is_same_name(names.name(number), others.name(number)) {
            return false;
        }
    }
    true
}
