//! Names in their order, each found by its hash.

ghost use Rattle.std.specs.Prelude.{◌≡◌, ℕ, List, length, IfOk, MatchOption, bytes_eq, option_copied, slice_get};
ghost use Rattle.std.specs.List.{list_any};
ghost use Rattle.um_name.specs.Names.{AreAscending, HasPlace, IsApart};

use crate::UnitName;
use indexmap::IndexSet;
use std::alloc::{AllocError, Global};
use std::marker::Model;

/// Names, each once, in ascending order.
#[derive(Drop)]
pub(crate) struct Ordered {
    set: IndexSet<UnitName>,
}

impl Model for Ordered {
    ghost Value = { List (List ℕ) };

    ghost view = { λ n. n.set.keys };

    ghost invariant = { λ n. AreAscending n.set.keys };
}

impl Ordered {
    /// The table of these names.
    pub(crate) fn of(alloc: Global, given: &[UnitName]) -> Result<Ordered, AllocError>
        ensures ascending { IfOk result AreAscending }
        ensures whole { IfOk result (λ n. (name : List ℕ) → list_any (bytes_eq name) n ≡ list_any (bytes_eq name) given.now) }
    {
        let mut set = IndexSet::new(alloc);
        for name in given {
            set.insert_full(name.copy()?)?;
        }
        set.sort()?;
        Ok(Ordered { set })
    }

    /// The number of names.
    pub(crate) fn len(&self) -> usize
        ensures len { result ≡ length self.now }
        ensures ascending { AreAscending self.now }
    {
        self.set.len()
    }

    /// The number of a name; `None` if it isn't there. It takes no memory.
    pub(crate) fn number(&self, name: &UnitName) -> Option<usize>
        ensures number { MatchOption result (IsApart self.now name.now) (HasPlace self.now name.now) }
        ensures ascending { AreAscending self.now }
    {
        self.set.get_index_of(name)
    }

    /// The name with that number; `None` past the last.
    pub(crate) fn name(&self, number: usize) -> Option<&UnitName>
        ensures name { option_copied result ≡ slice_get self.now number }
        ensures ascending { AreAscending self.now }
    {
        self.set.get_index(number)
    }
}
