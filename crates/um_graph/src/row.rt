//! The neighbours of one unit.

ghost use Rattle.std.specs.Prelude.{◌≡◌, [], OnOk, nat_eq};
ghost use Rattle.std.specs.List.Sorted.{IsSorted};
ghost use Rattle.std.specs.Ordering.{nat_cmp};
ghost use Rattle.indexmap.specs.IndexMap.{IsReordered, IsUnique, keys, values};
ghost use Rattle.um_graph.specs.Rows.{found_or_new, with_kind};

use crate::kinds::Kinds;
use bitflags::Flags;
use indexmap::IndexMap;
use std::alloc::{AllocError, Global};

/// A unit beside another, and how that one stands to it.
#[derive(Clone, Copy, Debug, PartialEq, Eq)]
pub struct Neighbour {
    /// The number of the neighbour in the graph.
    pub unit: usize,
    /// The kinds in which the unit whose neighbour it is stands to it.
    pub kinds: Kinds,
}

/// The neighbours of one unit, by their numbers.
#[derive(Drop)]
pub(crate) struct Row {
    neighbours: IndexMap<usize, Neighbour>,
}

impl Row {
    /// No neighbour yet.
    pub(crate) fn new(alloc: Global) -> Row
        ensures { result.neighbours.entries ≡ [] }
    {
        Row {
            neighbours: IndexMap::new(alloc),
        }
    }

    /// The neighbours in the order in which they were added, or in that of their numbers once they were sorted.
    pub(crate) fn neighbours(&self) -> &[Neighbour]
        ensures { result.now ≡ values self.now.neighbours }
    {
        self.neighbours.values().as_slice()
    }

    /// The neighbour as it stands so far.
    pub(crate) fn neighbour(&self, unit: usize) -> Neighbour
        ensures { result ≡ found_or_new self.now.neighbours.entries unit }
    {
        match self.neighbours.get(&unit) {
            Some(neighbour) => *neighbour,
            None => Neighbour {
                unit,
                kinds: Kinds(0),
            },
        }
    }

    /// Adds kinds to those of the unit.
    pub(crate) fn add(&mut self, unit: usize, kinds: Kinds) -> Result<(), AllocError>
        ensures added { OnOk result (self.new.neighbours.entries ≡ with_kind self.old.neighbours.entries unit kinds) }
        ensures unique { OnOk result (IsUnique nat_eq self.new.neighbours) }
    {
        let mut neighbour = self.neighbour(unit);
        neighbour.kinds.insert(kinds);
        self.neighbours.insert(unit, neighbour)?;
        Ok(())
    }

    /// Puts the neighbours in the order of their numbers.
    pub(crate) fn sort(&mut self) -> Result<(), AllocError>
        ensures sorted { OnOk result (IsSorted nat_cmp (keys self.new.neighbours)) }
        ensures same { IsReordered nat_eq self.old.neighbours self.new.neighbours }
        ensures unique { IsUnique nat_eq self.new.neighbours }
    {
        self.neighbours.sort_keys()
    }
}
