//! Where paths lead.

use std::fs;
use std::fs::Files;
use std::os::unix::fs::MetadataExt;
use std::path::Path;

/// The directory in which the last part of a path stands.
pub(crate) fn directory_of(path: &str) -> Path<'_> {
    match Path::new(path).parent() {
        Some(parent) if !parent.as_str().is_empty() => parent,
        _ => Path::new("."),
    }
}

/// Whether something stands at both paths, and it is the same: links are followed.
fn lead_to_one<R: Files>(rt: &R, first: Path<'_>, second: Path<'_>) -> bool {
    match (fs::metadata(rt, first), fs::metadata(rt, second)) {
        (Ok(one), Ok(other)) => one.dev() == other.dev() && one.ino() == other.ino(),
        _ => false,
    }
}

/// Whether two paths name one place: they lead to the same, or have the same last part in the same directory. It looks, and touches nothing;
/// where the system refuses a look, they aren't found to be the same.
pub fn is_same_place<R: Files>(rt: &R, first: &str, second: &str) -> bool {
    if lead_to_one(rt, Path::new(first), Path::new(second)) {
        return true;
    }
    let named_alike = Path::new(first).file_name() == Path::new(second).file_name();
    named_alike && lead_to_one(rt, directory_of(first), directory_of(second))
}
