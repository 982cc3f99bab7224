//! The dependencies and the order of a graph as lists of pairs of numbers.

ghost use Rattle.std.specs.Prelude.{◌≡◌, ◌↔◌, ◌++◌, ℕ, Contains, IfOk, OnOk};
ghost use Rattle.um_graph.specs.Graph.{Stands};
ghost use Rattle.um_graph.specs.Kinds.{before_bit, bit_of};
ghost use Rattle.um_graph.specs.Listed.{dependencies_by, dependencies_in, dependency_by, order_in};
ghost use Rattle.um_model.specs.declared.dependencies.DependencyKind.{DependencyKind as Kind};

use crate::graph::Graph;
use crate::row::Neighbour;
use std::alloc::{AllocError, Global};
use um_model::DependencyKind;

/// A dependency: its kind, and the numbers of the unit that depends and of the one on which it does.
type Dependency = (DependencyKind, usize, usize);

/// Adds the dependency of this kind of the unit with this number on its neighbour, if there is one.
fn push_kind(
    edges: &mut Vec<Dependency>,
    unit: usize,
    neighbour: Neighbour,
    kind: DependencyKind,
) -> Result<(), AllocError>
    ensures { OnOk result (edges.new.items ≡ edges.old.items ++ dependency_by unit neighbour kind) }
{
    if neighbour.kinds.has(kind) {
        edges.push((kind, unit, neighbour.unit))?;
    }
    Ok(())
}

/// Adds all dependencies of the unit with this number on its neighbour.
fn push_kinds(
    edges: &mut Vec<Dependency>,
    unit: usize,
    neighbour: Neighbour,
) -> Result<(), AllocError>
    ensures { OnOk result (edges.new.items ≡ edges.old.items ++ dependencies_by unit neighbour) }
{
    push_kind(edges, unit, neighbour, DependencyKind::Wants)?;
    push_kind(edges, unit, neighbour, DependencyKind::Requires)?;
    push_kind(edges, unit, neighbour, DependencyKind::BindsTo)?;
    push_kind(edges, unit, neighbour, DependencyKind::PartOf)?;
    push_kind(edges, unit, neighbour, DependencyKind::Conflicts)?;
    Ok(())
}

/// Adds the dependencies of the unit with this number on its neighbours.
fn push_dependencies(
    edges: &mut Vec<Dependency>,
    unit: usize,
    row: &[Neighbour],
) -> Result<(), AllocError>
    ensures { OnOk result (edges.new.items ≡ edges.old.items ++ dependencies_in unit row.now) }
{
    for neighbour in row {
        push_kinds(edges, unit, *neighbour)?;
    }
    Ok(())
}

/// Adds the neighbours before which the unit with this number comes.
fn push_order(
    pairs: &mut Vec<(usize, usize)>,
    unit: usize,
    row: &[Neighbour],
) -> Result<(), AllocError>
    ensures { OnOk result (pairs.new.items ≡ pairs.old.items ++ order_in unit row.now) }
{
    for neighbour in row {
        if neighbour.kinds.is_before() {
            pairs.push((unit, neighbour.unit))?;
        }
    }
    Ok(())
}

impl Graph {
    /// All dependencies, each as its kind and the numbers of the unit that depends and of the one on which it does. The only
    /// error is want of memory.
    pub fn edges(&self, alloc: Global) -> Result<Vec<(DependencyKind, usize, usize)>, AllocError>
        ensures { IfOk result (λ edges. (kind : Kind) (x y : ℕ) → Contains edges.items (kind, x, y) ↔ Stands self.now.rows (bit_of kind) x y) }
    {
        let mut edges = Vec::new(alloc);
        for unit in 0..self.len() {
            push_dependencies(&mut edges, unit, self.neighbours(unit))?;
        }
        Ok(edges)
    }

    /// The order, as pairs of numbers: of a unit that comes before another, and of that one. The only error is want of memory.
    pub fn before(&self, alloc: Global) -> Result<Vec<(usize, usize)>, AllocError>
        ensures { IfOk result (λ pairs. (x y : ℕ) → Contains pairs.items (x, y) ↔ Stands self.now.rows before_bit x y) }
    {
        let mut pairs = Vec::new(alloc);
        for unit in 0..self.len() {
            push_order(&mut pairs, unit, self.neighbours(unit))?;
        }
        Ok(pairs)
    }
}
