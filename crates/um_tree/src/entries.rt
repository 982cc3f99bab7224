//! The entries of a tree, in order.
ghost use Rattle.std.specs.Prelude.{◌≡◌, map as each};
ghost use Rattle.std.specs.Iterator.{YieldsFirstBy, item_count};
ghost use Rattle.um_tree.specs.View.{path_and_entry, path_with_entry};

use crate::entry::{Entry, Stored};
use std::collections::btree_map::Range;
use std::marker::Model;

/// The entries of a tree, or of a part of it, with their paths, in ascending order of the paths by bytes. It takes no memory.
#[derive(Drop)]
pub struct Entries<'a> {
    rest: Range<'a, String, Stored>,
}

impl<'a> Model for Entries<'a> {
    ghost use Rattle.std.specs.Prelude.{ℕ, List, map as each};
    ghost use Rattle.um_model.specs.Tree as model;
    ghost use Rattle.um_tree.specs.View.{path_and_entry};

    ghost Value = { List (List ℕ × model.Entry) };

    ghost view = { λ e. each path_and_entry e.rest };
}

impl<'a> Entries<'a> {
    pub(crate) fn of(rest: Range<'a, String, Stored>) -> Entries<'a>
        ensures { result ≡ each path_and_entry rest.entry }
    {
        Entries { rest }
    }
}

impl<'a> Iterator for Entries<'a> {
    type Item = (&'a str, Entry<'a>);

    ghost next_gives = { YieldsFirstBy path_with_entry (λ rest. rest) };

    ghost remaining = { item_count (λ rest. rest) };

    fn next(&mut self) -> Option<(&'a str, Entry<'a>)> {
        let (path, entry) = self.rest.next()?;
        Some((path.as_str(), entry.as_entry()))
    }
}
