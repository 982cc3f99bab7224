//! The manager's own tree of unit files and links: a finite map from served paths. Its calls return exactly the
//! results of its definition, and a refused call leaves it unchanged.
#![tactic(auto)]

mod bytes;
mod cause;
mod entries;
mod entry;
mod laws;
mod path;
mod text;
mod tree;

pub use cause::Cause;
pub use entries::Entries;
pub use entry::Entry;
pub use laws::{a_path_has_one_reading, a_served_path_has_its_parts};
pub use path::{Place, ServedPath};
pub use text::unit_in_target;
pub use tree::Tree;
pub use um_model::Layer;
