//! Where a unit's name leads in a tree, and its files: `resolve` follows links, templates and masks exactly as the
//! definition does, and `files_of` returns the files that the unit is read from.
#![tactic(auto)]

mod drop_ins;
mod files;
mod laws;
mod resolution;

pub use files::{Files, SourceFile, UnitFile, files_of, source_files};
pub use laws::a_unit_is_found_by_hops;
pub use resolution::{Resolution, resolve, unit_named};
