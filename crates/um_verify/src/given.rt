//! A tree of files that are given by their texts.

ghost use Rattle.std.specs.Prelude.{◌≡◌, IfOk, OnOk, map};
ghost use Rattle.um_model.specs.Profiles.{current, read_by};
ghost use Rattle.um_unit.specs.View.{tree_read};
ghost use Rattle.um_verify.specs.Findings.{tree_with, with_file};

use std::alloc::{AllocError, Global};
use um_model::Profile;
use um_tree::Tree;
use um_unit::Reading;
use um_wire::Refusal;

/// Puts a file into the tree; a file that can't be there is left out.
fn put(tree: &mut Tree, path: &str, text: &str) -> Result<(), AllocError>
    ensures { OnOk result (tree.new ≡ with_file tree.old (path.now, text.now)) }
{
    match tree.put(path, text) {
        Err(Refusal::NoMemory) => Err(AllocError),
        Err(refusal) => {
            drop(refusal);
            Ok(())
        }
        Ok(()) => Ok(()),
    }
}

/// The tree as the current profile reads it.
pub(crate) fn read_now(tree: &Tree) -> Reading<'_>
    ensures { tree_read result ≡ read_by current tree.now }
{
    Reading {
        tree,
        profile: Profile::current(),
    }
}

/// The tree of these files, each its path in the tree and its text.
pub fn tree_of(alloc: Global, files: &[(&str, &str)]) -> Result<Tree, AllocError>
    ensures { IfOk result (λ tree. tree ≡ tree_with (map (λ f. (f.0.now, f.1.now)) files.now)) }
{
    let mut tree = Tree::new(alloc);
    for (path, text) in files {
        put(&mut tree, path, text)?;
    }
    Ok(tree)
}
