//! A tree with the profile by which its files are read.

use um_model::Profile;
use um_tree::Tree;

/// A tree as it is read: with the profile by which the files of its units are read.
#[derive(Clone, Copy)]
pub struct Reading<'t> {
    pub tree: &'t Tree,
    pub profile: Profile,
}
