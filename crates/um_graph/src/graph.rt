//! The graph of a tree: its known units, by number, with their neighbours.

ghost use Rattle.std.specs.Prelude.{◌≡◌, ◌⊎◌, ◌<◌, [], ℕ, All, Option, Some, Contains, IfOk, IfErr, MatchOption, length, map, max, option_copied, slice_get, unwrap_or};
ghost use Rattle.std.specs.Map.{values_of};
ghost use Rattle.um_model.specs.Dependencies.{CountsFor, KnowsTooMany};
ghost use Rattle.um_model.specs.Profiles.{lasting_tree};
ghost use Rattle.um_unit.specs.View.{tree_read};
ghost use Rattle.um_graph.specs.Edges.{AreUnits};
ghost use Rattle.um_graph.specs.Graph.{GraphView, IsGraph, IsGraphOf, IsNumberOf, first_after, row_of};
ghost use Rattle.um_graph.specs.Known.{CountsLasting};
ghost use Rattle.um_graph.specs.Sorted.{AreSorted, IsAscending, IsSortedGraph};
ghost use Rattle.um_graph.specs.View.{graph_of};
ghost use Rattle.um_wire.specs.declared.refusal.Refusal.TheVariants as refusals;
ghost use Rattle.um_model.specs.declared.refusals.Limit.TheVariants as limits;

use crate::edges::joined;
use crate::known::Known;
use crate::row::Neighbour;
use crate::units::Units;
use std::alloc::{AllocError, Global};
use std::marker::Model;
use um_name::UnitName;
use um_unit::{Loading, Reading};
use um_wire::Refusal;

/// All known units of a tree, numbered from 0 in ascending order of their names, with the contents of their files and their neighbours. A
/// neighbour is another unit that a unit depends on, that depends on it, or that it is ordered with.
#[derive(Drop)]
pub struct Graph {
    units: Units,
    count: usize,
    /// For each unit the first neighbour that it comes after. As a rule this alone shows that a start isn't ready, without a look at its
    /// row.
    firsts: Vec<Option<usize>>,
}

impl Model for Graph {
    ghost Value = { GraphView };

    ghost view = { λ g. graph_of g.units.units.items g.count };

    ghost invariant = { λ g. IsSortedGraph (graph_of g.units.units.items g.count) × (g.firsts.items ≡ map first_after (graph_of g.units.units.items g.count).rows) };
}

impl Graph {
    /// The graph of the tree as it is read, and of the units that are named beside it: those of which the state holds something, or that a
    /// command names. Refused with more than 1,024 known units, now or without the entries under `run/` (E13 `units`), and for want of
    /// memory (E15).
    pub fn of(alloc: Global, reading: Reading<'_>, extra: &[UnitName]) -> Result<Graph, Refusal>
        ensures whole { IfOk result IsGraph }
        ensures graph { IfOk result (λ g. IsGraphOf (tree_read reading.entry) (λ x. Contains extra.now x) g) }
        ensures count { IfOk result (λ g. CountsFor (tree_read reading.entry) (λ x. Contains extra.now x) g.count) }
        ensures few { IfOk result (λ _. ¬ (KnowsTooMany (tree_read reading.entry) (λ x. Contains extra.now x)
            ⊎ KnowsTooMany (lasting_tree (tree_read reading.entry)) (λ x. Contains extra.now x))) }
        ensures refused { IfErr result (λ e. ¬ (e ≡ refusals.NoMemory) → (e ≡ refusals.TooLarge limits.Units)
            × (KnowsTooMany (tree_read reading.entry) (λ x. Contains extra.now x) ⊎ KnowsTooMany (lasting_tree (tree_read reading.entry)) (λ x. Contains extra.now x))) }
    {
        let lasting = lasting_count(alloc, reading, extra)?;
        let known = Known::of(alloc, reading, extra)?;
        let count = greater(known.loaded.len(), lasting);
        let units = joined_units(alloc, known)?;
        let firsts = firsts_of(alloc, &units)?;
        Ok(Graph {
            units,
            count,
            firsts,
        })
    }

    /// The tree's count of units: the greater of the counts of known units now and without the entries under `run/`.
    pub fn count(&self) -> usize
        ensures count { result ≡ self.now.count }
        ensures graph { IsGraph self.now }
    {
        self.count
    }

    /// The number of known units.
    pub fn len(&self) -> usize
        ensures len { result ≡ length self.now.names }
        ensures graph { IsGraph self.now }
    {
        self.units.units.len()
    }

    /// The number of the unit, if it is known.
    pub fn number(&self, name: &UnitName) -> Option<usize>
        ensures { MatchOption result (¬ Contains self.now.names name.now) (λ i. slice_get self.now.names i ≡ Some name.now) }
    {
        self.units.number(name)
    }

    /// The name of the unit with this number.
    pub fn name(&self, unit: usize) -> Option<&UnitName>
        ensures { option_copied result ≡ slice_get self.now.names unit }
    {
        match self.units.units.get(unit) {
            Some(unit) => Some(&unit.name),
            None => None,
        }
    }

    /// The outcome of the look-up for the unit with this number, which was read once.
    pub fn loading(&self, unit: usize) -> Option<&Loading>
        ensures { option_copied result ≡ slice_get self.now.loadings unit }
    {
        match self.units.units.get(unit) {
            Some(unit) => Some(&unit.loading),
            None => None,
        }
    }

    /// The neighbours of the unit with this number, in the order of their numbers; none past the last unit.
    pub fn neighbours(&self, unit: usize) -> &[Neighbour]
        ensures { result.now ≡ row_of self.now.rows unit }
    {
        match self.units.units.get(unit) {
            Some(unit) => unit.row.neighbours(),
            None => &[],
        }
    }

    /// The first neighbour, by number, that the unit with this number comes after. None if there is none, and past the last unit.
    pub fn first_after(&self, unit: usize) -> Option<usize>
        ensures { result ≡ first_after (row_of self.now.rows unit) }
    {
        match self.firsts.get(unit) {
            Some(first) => *first,
            None => None,
        }
    }

    /// The neighbours of the unit of this name, in the order of their numbers; none if it isn't known.
    pub fn neighbours_of(&self, name: &UnitName) -> &[Neighbour]
        ensures row { (unit : ℕ) → IsNumberOf self.now unit name.now → result.now ≡ row_of self.now.rows unit }
        ensures none { ¬ Contains self.now.names name.now → result.now ≡ [] }
        ensures ascends { IsAscending result.now }
        ensures within { All (λ n. n.unit < length self.now.names) result.now }
    {
        // the proof reads here that the rows ascend
        let _ = &self.units;
        let Some(unit) = self.number(name) else {
            return &[];
        };
        self.neighbours(unit)
    }
}

/// The number of units that are known by the tree without its entries under `run/`; None if it has no such entries. Refused with too many.
fn lasting_count(
    alloc: Global,
    reading: Reading<'_>,
    extra: &[UnitName],
) -> Result<Option<usize>, Refusal>
    ensures counts { IfOk result (λ count. CountsLasting (tree_read reading.entry) extra.now count) }
    ensures refused { IfErr result (λ e. ¬ (e ≡ refusals.NoMemory)
        → (e ≡ refusals.TooLarge limits.Units) × KnowsTooMany (lasting_tree (tree_read reading.entry)) (Contains extra.now)) }
{
    if !reading.tree.has_run() {
        return Ok(None);
    }
    let mut lasting = reading.tree.copy()?;
    lasting.clear_run();
    let reading = Reading {
        tree: &lasting,
        profile: reading.profile,
    };
    let known = Known::of(alloc, reading, extra)?;
    Ok(Some(known.loaded.len()))
}

/// The first of these neighbours that the unit in whose row they stand comes after.
fn first_after(row: &[Neighbour]) -> Option<usize>
    ensures { result ≡ first_after row.now }
{
    row.iter()
        .copied()
        .find(|neighbour| neighbour.kinds.is_after())
        .map(|first| first.unit)
}

/// For each unit the first neighbour that it comes after.
fn firsts_of(alloc: Global, units: &Units) -> Result<Vec<Option<usize>>, AllocError>
    ensures { IfOk result (λ firsts. firsts.items ≡ map first_after (map (λ u. values_of u.row.neighbours.entries) units.now.units.items)) }
{
    let mut firsts = Vec::new(alloc);
    for unit in &units.units {
        firsts.push(first_after(unit.row.neighbours()))?;
    }
    Ok(firsts)
}

/// The greater of two counts, or the first if there is no second.
fn greater(count: usize, other: Option<usize>) -> usize
    ensures { result ≡ max count (unwrap_or other count) }
{
    match other {
        Some(other) if other > count => other,
        _ => count,
    }
}

/// The known units, joined by their relations. Each row stands in the order of its numbers.
fn joined_units(alloc: Global, known: Known) -> Result<Units, AllocError>
    ensures units { IfOk result (λ u. AreUnits known.loaded known.told.items u.units.items) }
    ensures sorted { IfOk result (λ u. AreSorted u.units.items) }
{
    let Known { loaded, told, .. } = known;
    let units = Units::of(alloc, loaded)?;
    joined(alloc, units, told.as_slice())
}
