//! The edges of a graph: the relations found, by numbers, and the order that follows.

ghost use Rattle.std.specs.Prelude.{◌≡◌, ◌<◌, [], Some, option_map, slice_get, All, AllPairs, IfOk, IfSome, length, vec_len};
ghost use Rattle.std.specs.List.{flat_map};
ghost use Rattle.std.specs.Option.{option_to_list};
ghost use Rattle.um_model.specs.Least.{IsNamedBefore};
ghost use Rattle.um_model.specs.Names.{is_target};
ghost use Rattle.um_graph.specs.Edges.{AreJoined, comes_after, comes_after_by, declines, edge_seen, names_of, number_in, order_seen, pulled};
ghost use Rattle.um_graph.specs.Rows.{AreRows};
ghost use Rattle.um_graph.specs.Sorted.{AreSorted};

use crate::told::{Link, Told, loadable};
use crate::units::{Edge, Pair, Unit, Units};
use std::alloc::{AllocError, Global};
use um_model::{DependencyKind, Suffix};
use um_name::{Names, UnitName};

/// The number of a name, if it has one.
fn number_of(names: &Names, name: &UnitName) -> Option<usize>
    ensures number { result ≡ number_in names.now name.now }
    ensures within { IfSome result (λ i. i < length names.now) }
{
    names.number(name)
}

/// The relation by numbers; None if it is one of a unit with itself, or one of its names isn't among these.
fn edge_of(names: &Names, told: &Told) -> Option<Edge>
    ensures edge { option_to_list result ≡ edge_seen names.now told.now }
    ensures within { IfSome result (λ e. (e.from < length names.now) × (e.to < length names.now)) }
{
    let from = number_of(names, &told.from)?;
    let to = number_of(names, &told.to)?;
    if from == to {
        return None;
    }
    Some(Edge {
        link: told.link,
        from,
        to,
    })
}

/// All relations, by numbers.
fn edges_of(alloc: Global, names: &Names, told: &[Told]) -> Result<Vec<Edge>, AllocError>
    ensures edges { IfOk result (λ es. es.items ≡ flat_map (edge_seen names.now) told.now) }
    ensures within { IfOk result (λ es. All (λ e. (e.from < length names.now) × (e.to < length names.now)) es.items) }
{
    let mut edges = Vec::new(alloc);
    for each in told {
        if let Some(edge) = edge_of(names, each) {
            edges.push(edge)?;
        }
    }
    Ok(edges)
}

fn is_target(unit: &Unit) -> bool
    ensures { result ≡ is_target unit.now.name }
{
    unit.name.suffix() == Suffix::Target
}

/// Whether the unit can be loaded and says `DefaultDependencies=no`.
fn declines(unit: &Unit) -> bool
    ensures { result ≡ declines unit.now }
{
    match loadable(&unit.loading) {
        Some(unit) => !unit.settings.dependencies.default_dependencies,
        None => false,
    }
}

/// Whether the unit, which wants or requires the other one of this number, comes after it.
fn comes_behind(unit: &Unit, other: &Unit, number: usize) -> bool
    ensures { result ≡ comes_after_by (Some unit.now) (Some other.now) number }
{
    is_target(unit)
        && !declines(unit)
        && !declines(other)
        && !unit.row.neighbour(number).kinds.is_before()
}

/// The unit of this number.
fn unit_at(units: &Units, number: usize) -> Option<&Unit>
    ensures { option_map (λ u. u.now) result ≡ slice_get units.now.units.items number }
{
    units.units.get(number)
}

/// Whether x, which wants or requires y, comes after it: it is a target that isn't declared before y, and neither declines.
fn comes_after(units: &Units, x: usize, y: usize) -> bool
    ensures { result ≡ comes_after units.now.units.items x y }
{
    let Some(unit) = unit_at(units, x) else {
        return false;
    };
    let Some(other) = unit_at(units, y) else {
        return false;
    };
    comes_behind(unit, other, y)
}

/// A target comes after the units that it wants or requires.
fn order_by_pull(units: &Units, edge: Edge) -> Option<Pair>
    ensures { option_to_list result ≡ pulled units.now.units.items edge.from edge.to }
{
    if comes_after(units, edge.from, edge.to) {
        Some(Pair {
            first: edge.to,
            second: edge.from,
        })
    } else {
        None
    }
}

/// The order that follows from an edge.
fn order_of(units: &Units, edge: Edge) -> Option<Pair>
    ensures pair { option_to_list result ≡ order_seen units.now.units.items edge }
    ensures within { (edge.from < vec_len units.now.units) → (edge.to < vec_len units.now.units)
        → IfSome result (λ p. (p.first < vec_len units.now.units) × (p.second < vec_len units.now.units)) }
{
    match edge.link {
        Link::Ending => Some(Pair {
            first: edge.from,
            second: edge.to,
        }),
        Link::Depends(DependencyKind::Wants) => order_by_pull(units, edge),
        Link::Depends(DependencyKind::Requires) => order_by_pull(units, edge),
        _ => None,
    }
}

/// The order that follows from the edges.
fn orders_of(alloc: Global, units: &Units, edges: &[Edge]) -> Result<Vec<Pair>, AllocError>
    requires within { All (λ e. (e.from < vec_len units.now.units) × (e.to < vec_len units.now.units)) edges.now }
    ensures pairs { IfOk result (λ ps. ps.items ≡ flat_map (order_seen units.now.units.items) edges.now) }
    ensures within { IfOk result (λ ps. All (λ p. (p.first < vec_len units.now.units) × (p.second < vec_len units.now.units)) ps.items) }
{
    let mut orders = Vec::new(alloc);
    for edge in edges {
        if let Some(pair) = order_of(units, *edge) {
            orders.push(pair)?;
        }
    }
    Ok(orders)
}

/// The units joined by their relations: first by dependencies and the declared order, then by the order that follows. Each row stands in
/// the order of its numbers.
pub(crate) fn joined(alloc: Global, units: Units, told: &[Told]) -> Result<Units, AllocError>
    requires sorted { AllPairs IsNamedBefore (names_of units.units.items) }
    requires rows { AreRows [] units.units.items }
    ensures joined { IfOk result (λ new. AreJoined told.now units.units.items new.units.items) }
    ensures sorted { IfOk result (λ new. AreSorted new.units.items) }
{
    let mut units = units;
    let names = units.names(alloc)?;
    let edges = edges_of(alloc, &names, told)?;
    units.add_edges(edges.as_slice())?;
    let orders = orders_of(alloc, &units, edges.as_slice())?;
    units.add_pairs(orders.as_slice())?;
    units.sort_rows()?;
    Ok(units)
}
