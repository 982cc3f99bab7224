//! An entry of a tree: a file or a link.

use std::alloc::AllocError;
use std::rc::RcStr;

/// The entry at a path of the tree.
#[derive(Clone, Copy, Debug, PartialEq, Eq)]
pub enum Entry<'a> {
    /// A file, with its text.
    File(&'a str),
    /// A link, with its target.
    Link(&'a str),
}

impl<'a> Entry<'a> {
    ghost use Rattle.std.specs.Prelude.{◌≡◌};
    ghost use Rattle.um_model.specs.Weight.{text_of_entry};
    ghost use Rattle.um_tree.specs.View.{entry_of};

    /// The text of the file, or the link's target.
    pub(crate) fn text(self) -> &'a str
        ensures { result.now ≡ text_of_entry (entry_of self.entry) }
    {
        match self {
            Entry::File(text) => text,
            Entry::Link(target) => target,
        }
    }
}

/// The entry at a path, as the tree holds it: copies of a tree share its texts.
#[derive(Drop)]
pub(crate) enum Stored {
    File(RcStr),
    Link(RcStr),
}

impl Stored {
    ghost use Rattle.std.specs.Prelude.{◌≡◌};
    ghost use Rattle.um_tree.specs.View.{entry_of, stored_entry};

    /// The entry, as it is returned.
    pub(crate) fn as_entry(&self) -> Entry<'_>
        ensures { entry_of result ≡ stored_entry self.now }
    {
        match self {
            Stored::File(text) => Entry::File(text.as_str()),
            Stored::Link(target) => Entry::Link(target.as_str()),
        }
    }
}

impl Clone for Stored {
    ghost use Rattle.std.specs.Prelude.{◌≡◌};
    ghost use Rattle.um_tree.specs.View.{stored_entry};

    ghost is_clone = { λ old new. stored_entry new ≡ stored_entry old };

    fn clone(&self) -> Result<Stored, AllocError> {
        match self {
            Stored::File(text) => Ok(Stored::File(text.clone()?)),
            Stored::Link(target) => Ok(Stored::Link(target.clone()?)),
        }
    }
}
