//! Names with numbers, shared by all tables with rows for units.

ghost use Rattle.std.specs.Prelude.{◌≡◌, [], ℕ, List, length, IfOk, MatchOption, bytes_eq, option_copied, slice_get};
ghost use Rattle.std.specs.List.{list_any};
ghost use Rattle.std.specs.Option.{option_map_or};
ghost use Rattle.um_name.specs.Names.{AreAscending, HasPlace, IsApart};

use crate::UnitName;
use crate::ordered::Ordered;
use std::alloc::{AllocError, Global};
use std::marker::Model;
use std::rc::Rc;

/// Names of units, each once, in ascending order; the number of a name is its place. Copies share them.
#[derive(Drop)]
pub struct Names {
    ordered: Option<Rc<Ordered>>,
}

impl Model for Names {
    ghost Value = { List (List ℕ) };

    ghost view = { λ n. option_map_or (λ rc. rc.value) n.ordered [] };

    ghost invariant = { λ n. AreAscending (option_map_or (λ rc. rc.value) n.ordered []) };
}

impl Names {
    /// No name. It takes no memory.
    pub fn new() -> Names
        ensures { result ≡ [] }
    {
        Names { ordered: None }
    }

    /// The table of these names.
    pub fn of(alloc: Global, given: &[UnitName]) -> Result<Names, AllocError>
        ensures ascending { IfOk result AreAscending }
        ensures whole { IfOk result (λ n. (name : List ℕ) → list_any (bytes_eq name) n ≡ list_any (bytes_eq name) given.now) }
    {
        let ordered = Ordered::of(alloc, given)?;
        Ok(Names {
            ordered: Some(Rc::new(alloc, ordered)?),
        })
    }

    /// The number of names.
    pub fn len(&self) -> usize
        ensures len { result ≡ length self.now }
        ensures ascending { AreAscending self.now }
    {
        match &self.ordered {
            Some(ordered) => ordered.len(),
            None => 0,
        }
    }

    /// The number of a name; `None` if the table doesn't have it. It takes no memory.
    pub fn number(&self, name: &UnitName) -> Option<usize>
        ensures number { MatchOption result (IsApart self.now name.now) (HasPlace self.now name.now) }
        ensures ascending { AreAscending self.now }
    {
        match &self.ordered {
            Some(ordered) => ordered.number(name),
            None => None,
        }
    }

    /// The name with that number; `None` past the last.
    pub fn name(&self, number: usize) -> Option<&UnitName>
        ensures name { option_copied result ≡ slice_get self.now number }
        ensures ascending { AreAscending self.now }
    {
        match &self.ordered {
            Some(ordered) => ordered.name(number),
            None => None,
        }
    }

    /// The same names, which both share.
    pub fn copy(&self) -> Result<Names, AllocError>
        ensures same { IfOk result (λ n. n ≡ self.now) }
    {
        match &self.ordered {
            Some(ordered) => Ok(Names {
                ordered: Some(ordered.clone()?),
            }),
            None => Ok(Names { ordered: None }),
        }
    }
}
