//! The units of a graph with their rows.

ghost use Rattle.std.specs.Prelude.{◌≡◌, ◌++◌, ◌∷◌, ◌<◌, ◌^◌, [], ℕ, List, All, AllPairs, IfOk, IfSome, OnOk, map, vec_len};
ghost use Rattle.std.specs.BTreeMap.{IsOrdered};
ghost use Rattle.std.specs.Cmp.Lexicographic.{slice_cmp};
ghost use Rattle.std.specs.List.{flat_map};
ghost use Rattle.std.specs.Ordering.{nat_cmp};
ghost use Rattle.um_model.specs.Least.{IsNamedBefore};
ghost use Rattle.um_graph.specs.Edges.{edge_bonds, names_of, number_in, pair_bonds, unit_seen};
ghost use Rattle.um_graph.specs.Rows.{AreRows, Bond};
ghost use Rattle.um_graph.specs.Sorted.{AreSorted, SortsRow};

use crate::kinds::{Kinds, inverse_of, kinds_of};
use crate::row::Row;
use crate::told::Link;
use std::alloc::{AllocError, Global};
use std::collections::BTreeMap;
use um_name::{Names, UnitName};
use um_unit::Loading;

/// A unit of the graph.
#[derive(Drop)]
pub(crate) struct Unit {
    pub(crate) name: UnitName,
    pub(crate) loading: Loading,
    pub(crate) row: Row,
}

/// That one unit stands to another one, by their numbers.
#[derive(Clone, Copy)]
pub(crate) struct Edge {
    pub(crate) link: Link,
    pub(crate) from: usize,
    pub(crate) to: usize,
}

/// That one unit comes before another, by their numbers.
#[derive(Clone, Copy)]
pub(crate) struct Pair {
    pub(crate) first: usize,
    pub(crate) second: usize,
}

/// The units by their numbers: in the order of their names.
#[derive(Drop)]
pub(crate) struct Units {
    pub(crate) units: Vec<Unit>,
}

impl Units {
    /// These units, with no neighbours yet.
    pub(crate) fn of(
        alloc: Global,
        loaded: BTreeMap<UnitName, Loading>,
    ) -> Result<Units, AllocError>
        ensures units { IfOk result (λ u. map unit_seen u.units.items ≡ loaded.entries) }
        ensures rows { IfOk result (λ u. AreRows [] u.units.items) }
        ensures ordered { IfOk result (λ _. IsOrdered (slice_cmp nat_cmp) loaded) }
    {
        let mut units = Vec::new(alloc);
        for (name, loading) in loaded {
            units.push(Unit {
                name,
                loading,
                row: Row::new(alloc),
            })?;
        }
        Ok(Units { units })
    }

    /// The number of the unit, if it is one of these.
    pub(crate) fn number(&self, name: &UnitName) -> Option<usize>
        requires { AllPairs IsNamedBefore (names_of self.now.units.items) }
        ensures number { result ≡ number_in (names_of self.now.units.items) name.now }
        ensures within { IfSome result (λ i. i < vec_len self.now.units) }
    {
        self.units.binary_search_by(|unit| unit.name.cmp(name)).ok()
    }

    /// A copy of their names.
    fn copies(&self, alloc: Global) -> Result<Vec<UnitName>, AllocError>
        ensures { IfOk result (λ copies. copies.items ≡ names_of self.now.units.items) }
    {
        let mut copies = Vec::new(alloc);
        for unit in &self.units {
            copies.push(unit.name.copy()?)?;
        }
        Ok(copies)
    }

    /// Their names with the same numbers.
    pub(crate) fn names(&self, alloc: Global) -> Result<Names, AllocError>
        requires { AllPairs IsNamedBefore (names_of self.now.units.items) }
        ensures { IfOk result (λ names. names ≡ names_of self.now.units.items) }
    {
        let copies = self.copies(alloc)?;
        let names = Names::of(alloc, copies.as_slice())?;
        Ok(names)
    }

    /// Adds that x stands to y in this way.
    fn join(&mut self, x: usize, y: usize, kinds: Kinds) -> Result<(), AllocError>
        requires x { x < vec_len self.old.units }
        requires y { y < vec_len self.old.units }
        ensures same { OnOk result (map unit_seen self.new.units.items ≡ map unit_seen self.old.units.items) }
        ensures len { OnOk result (vec_len self.new.units ≡ vec_len self.old.units) }
        ensures bonds { OnOk result ((bonds : List Bond) (bit : ℕ) → kinds.0 ≡ 2 ^ bit → AreRows bonds self.old.units.items
            → AreRows (bonds ++ (bit, x, y) ∷ []) self.new.units.items) }
    {
        self.units[x].row.add(y, kinds)?;
        Ok(())
    }

    /// Adds that a unit stands to another in this way, and the other to it in that one.
    fn join_both(
        &mut self,
        x: usize,
        y: usize,
        kinds: Kinds,
        inverse: Kinds,
    ) -> Result<(), AllocError>
        requires x { x < vec_len self.old.units }
        requires y { y < vec_len self.old.units }
        ensures same { OnOk result (map unit_seen self.new.units.items ≡ map unit_seen self.old.units.items) }
        ensures len { OnOk result (vec_len self.new.units ≡ vec_len self.old.units) }
        ensures bonds { OnOk result ((bonds : List Bond) (bit back : ℕ) → kinds.0 ≡ 2 ^ bit → inverse.0 ≡ 2 ^ back → AreRows bonds self.old.units.items
            → AreRows (bonds ++ (bit, x, y) ∷ (back, y, x) ∷ []) self.new.units.items) }
    {
        self.join(x, y, kinds)?;
        self.join(y, x, inverse)?;
        Ok(())
    }

    /// Adds that a unit comes before another, to the rows of both.
    fn add_pair(&mut self, pair: Pair) -> Result<(), AllocError>
        requires first { pair.first < vec_len self.old.units }
        requires second { pair.second < vec_len self.old.units }
        ensures same { OnOk result (map unit_seen self.new.units.items ≡ map unit_seen self.old.units.items) }
        ensures len { OnOk result (vec_len self.new.units ≡ vec_len self.old.units) }
        ensures bonds { OnOk result ((bonds : List Bond) → AreRows bonds self.old.units.items
            → AreRows (bonds ++ pair_bonds pair) self.new.units.items) }
    {
        self.join_both(pair.first, pair.second, Kinds::BEFORE, Kinds::AFTER)?;
        Ok(())
    }

    /// Adds a dependency or a declared order to the rows of both units.
    fn add_edge(&mut self, edge: Edge) -> Result<(), AllocError>
        requires from { edge.from < vec_len self.old.units }
        requires to { edge.to < vec_len self.old.units }
        ensures same { OnOk result (map unit_seen self.new.units.items ≡ map unit_seen self.old.units.items) }
        ensures len { OnOk result (vec_len self.new.units ≡ vec_len self.old.units) }
        ensures bonds { OnOk result ((bonds : List Bond) → AreRows bonds self.old.units.items
            → AreRows (bonds ++ edge_bonds edge) self.new.units.items) }
    {
        match edge.link {
            Link::Depends(kind) => {
                self.join_both(edge.from, edge.to, kinds_of(kind), inverse_of(kind))?
            }
            Link::Declared => { self.join_both(edge.from, edge.to, Kinds::BEFORE, Kinds::AFTER)? }
            Link::Ending => {}
        }
        Ok(())
    }

    /// Adds these dependencies and the declared order.
    pub(crate) fn add_edges(&mut self, edges: &[Edge]) -> Result<(), AllocError>
        requires within { All (λ e. (e.from < vec_len self.old.units) × (e.to < vec_len self.old.units)) edges.now }
        ensures same { OnOk result (map unit_seen self.new.units.items ≡ map unit_seen self.old.units.items) }
        ensures len { OnOk result (vec_len self.new.units ≡ vec_len self.old.units) }
        ensures bonds { OnOk result (AreRows [] self.old.units.items → AreRows (flat_map edge_bonds edges.now) self.new.units.items) }
    {
        for edge in edges {
            self.add_edge(*edge)?;
        }
        Ok(())
    }

    /// Adds these pairs of the order.
    pub(crate) fn add_pairs(&mut self, pairs: &[Pair]) -> Result<(), AllocError>
        requires within { All (λ p. (p.first < vec_len self.old.units) × (p.second < vec_len self.old.units)) pairs.now }
        ensures same { OnOk result (map unit_seen self.new.units.items ≡ map unit_seen self.old.units.items) }
        ensures bonds { OnOk result ((bonds : List Bond) → AreRows bonds self.old.units.items
            → AreRows (bonds ++ flat_map pair_bonds pairs.now) self.new.units.items) }
    {
        for pair in pairs {
            self.add_pair(*pair)?;
        }
        Ok(())
    }

    /// Puts the row of the unit with this number in the order of its numbers.
    fn sort_row(&mut self, x: usize) -> Result<(), AllocError>
        requires { x < vec_len self.old.units }
        ensures same { OnOk result (map unit_seen self.new.units.items ≡ map unit_seen self.old.units.items) }
        ensures len { OnOk result (vec_len self.new.units ≡ vec_len self.old.units) }
        ensures sorts { OnOk result ((bonds : List Bond) → AreRows bonds self.old.units.items → SortsRow bonds x self.old.units.items self.new.units.items) }
    {
        self.units[x].row.sort()?;
        Ok(())
    }

    /// Puts each row in the order of its numbers.
    pub(crate) fn sort_rows(&mut self) -> Result<(), AllocError>
        ensures same { OnOk result (map unit_seen self.new.units.items ≡ map unit_seen self.old.units.items) }
        ensures sorts { OnOk result ((bonds : List Bond) → AreRows bonds self.old.units.items
            → AreRows bonds self.new.units.items × AreSorted self.new.units.items) }
    {
        for x in 0..self.units.len() {
            self.sort_row(x)?;
        }
        Ok(())
    }
}
