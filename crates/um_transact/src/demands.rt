//! The demands that a demand on a unit brings (systemd.unit(5), "Requires=", "BindsTo=", "PartOf=", "Conflicts=", "Wants=").

ghost use Rattle.std.specs.Bool.{Decides};
ghost use Rattle.std.specs.Prelude.{◌≡◌, ◌<◌, ◌++◌, ◌↔◌, true, Contains, None, IfOk, OnOk, length, replicate, vec_len, is_some};
ghost use Rattle.um_graph.specs.Graph.{IsGraph, row_of};
ghost use Rattle.um_graph.specs.Kinds.{has, bit_of};
ghost use Rattle.um_model.specs.Dependencies.{loadable_of};
ghost use Rattle.um_model.specs.Jobs as jobs;
ghost use Rattle.um_model.specs.declared.dependencies.DependencyKind.TheVariants.{Wants};
ghost use Rattle.um_transact.specs.Situation.{AddsWanted, AreFine, AreTested, IsDemandedBy, IsRequiredBy, IsStartableBy, LeadsAlongBy, is_fine_at, is_loadable_at, is_starting, tested_at};
ghost use Rattle.um_transact.specs.Walk as walks;
ghost use Rattle.um_transact.specs.Walk.{Demanded, IsMarked, activity_at, brought_by, marks_at, one_if};
ghost use Rattle.um_unit.specs.View.{loading_of};

use crate::walk::{Marks, Walk};
use std::alloc::{AllocError, Global};
use um_graph::{Graph, Neighbour, loadable};
use um_model::{ActiveState, Demand, DependencyKind};
use um_unit::Loading;

/// Whether a start of the unit starts the neighbour.
fn needs(neighbour: Neighbour) -> bool
    ensures { result ≡ walks.needs neighbour }
{
    neighbour.kinds.has(DependencyKind::Requires) || neighbour.kinds.has(DependencyKind::BindsTo)
}

/// Whether a start of either stops the other.
fn conflicts(neighbour: Neighbour) -> bool
    ensures { result ≡ walks.conflicts neighbour }
{
    neighbour.kinds.has(DependencyKind::Conflicts)
        || neighbour.kinds.has_inverse(DependencyKind::Conflicts)
}

/// Whether the neighbour is stopped and restarted with the unit.
fn leans(neighbour: Neighbour) -> bool
    ensures { result ≡ walks.leans neighbour }
{
    neighbour.kinds.has_inverse(DependencyKind::Requires)
        || neighbour.kinds.has_inverse(DependencyKind::BindsTo)
        || neighbour.kinds.has_inverse(DependencyKind::PartOf)
}

/// Whether a demand on the unit brings the other on its neighbour, which is active or not.
fn brings(demand: Demand, other: Demand, active: bool, neighbour: Neighbour) -> bool
    ensures { result ≡ walks.brings demand other active neighbour }
{
    match (demand, other) {
        (Demand::Start | Demand::Restart, Demand::Start) => needs(neighbour),
        (Demand::Start | Demand::Restart, Demand::Stop) => conflicts(neighbour),
        (Demand::Stop, Demand::Stop) => leans(neighbour),
        (Demand::Restart, Demand::Restart) => leans(neighbour) && active,
        _ => false,
    }
}

fn push_if(
    found: &mut Vec<(Demand, usize)>,
    holds: bool,
    demand: (Demand, usize),
) -> Result<(), AllocError>
    ensures { OnOk result (found.new.items ≡ found.old.items ++ one_if holds demand) }
{
    if holds {
        found.push(demand)?;
    }
    Ok(())
}

/// Adds the demands that a demand on a unit brings by one neighbour.
fn push_brought(
    found: &mut Vec<(Demand, usize)>,
    demand: Demand,
    active: bool,
    neighbour: Neighbour,
) -> Result<(), AllocError>
    ensures { OnOk result (found.new.items ≡ found.old.items ++ brought_by demand active neighbour) }
{
    let starts = brings(demand, Demand::Start, active, neighbour);
    push_if(found, starts, (Demand::Start, neighbour.unit))?;
    let stops = brings(demand, Demand::Stop, active, neighbour);
    push_if(found, stops, (Demand::Stop, neighbour.unit))?;
    let restarts = brings(demand, Demand::Restart, active, neighbour);
    push_if(found, restarts, (Demand::Restart, neighbour.unit))?;
    Ok(())
}

/// Whether the unit with this number is active.
fn is_active(activity: &[ActiveState], unit: usize) -> bool
    ensures { result ≡ jobs.is_active (activity_at activity.now unit) }
{
    matches!(activity.get(unit), Some(ActiveState::Active))
}

/// The demands that a demand on a unit brings.
fn brought(
    alloc: Global,
    graph: &Graph,
    activity: &[ActiveState],
    demand: (Demand, usize),
) -> Result<Vec<(Demand, usize)>, AllocError>
    ensures { IfOk result (λ found. found.items ≡ walks.brought activity.now demand.0 (row_of graph.now.rows demand.1)) }
{
    let mut found = Vec::new(alloc);
    for neighbour in graph.neighbours(demand.1) {
        let active = is_active(activity, neighbour.unit);
        push_brought(&mut found, demand.0, active, *neighbour)?;
    }
    Ok(found)
}

/// Marks each demand that the demand on the unit requires.
fn required(
    alloc: Global,
    graph: &Graph,
    activity: &[ActiveState],
    root: (Demand, usize),
) -> Result<Vec<Marks>, AllocError>
    requires graph { IsGraph graph.now }
    requires unit { root.1 < length graph.now.names }
    ensures long { IfOk result (λ marks. vec_len marks ≡ length graph.now.names) }
    ensures marks { IfOk result (λ marks. (q : Demanded) → IsMarked marks.items q ↔ IsRequiredBy graph.now activity.now root q) }
{
    let mut walk = Walk::new(alloc, graph.len())?;
    walk.meet(root)?;
    while let Some(demand) = walk.list.pop() {
        let found = brought(alloc, graph, activity, demand)?;
        walk.meet_all(&found)?;
    }
    Ok(walk.marks)
}

/// The demands that are marked for the unit with this number.
pub fn marks_of(marks: &[Marks], unit: usize) -> Marks
    ensures { result ≡ marks_at marks.now unit }
{
    marks.get(unit).copied().unwrap_or(Marks::NONE)
}

fn can_load(loading: &Loading) -> bool
    ensures { result ≡ is_some (loadable_of (loading_of loading.now)) }
{
    loadable(loading).is_some()
}

/// Whether the unit with this number can be loaded.
fn is_loadable(graph: &Graph, unit: usize) -> bool
    ensures { result ≡ is_loadable_at graph.now unit }
{
    match graph.loading(unit) {
        Some(loading) => can_load(loading),
        None => false,
    }
}

/// Whether the unit isn't started, or can be loaded and isn't stopped.
fn is_fine(graph: &Graph, marks: &[Marks], unit: usize) -> bool
    ensures { result ≡ is_fine_at graph.now marks.now unit }
{
    let marked = marks_of(marks, unit);
    !marked.start || (is_loadable(graph, unit) && !marked.stop)
}

fn are_fine(graph: &Graph, marks: &[Marks]) -> bool
    ensures { Decides result (AreFine graph.now marks.now (length graph.now.names)) }
{
    for unit in 0..graph.len() {
        if !is_fine(graph, marks, unit) {
            return false;
        }
    }
    true
}

/// Whether the unit can be started along: each unit that its start starts can be loaded, and none is both started and stopped.
fn is_startable(
    alloc: Global,
    graph: &Graph,
    activity: &[ActiveState],
    unit: usize,
) -> Result<bool, AllocError>
    requires graph { IsGraph graph.now }
    requires unit { unit < length graph.now.names }
    ensures { IfOk result (λ b. Decides b (IsStartableBy graph.now activity.now unit)) }
{
    let marks = required(alloc, graph, activity, (Demand::Start, unit))?;
    Ok(are_fine(graph, &marks))
}

/// The recorded test of the unit with this number; None if it wasn't tested.
fn tested_at(tested: &[Option<bool>], unit: usize) -> Option<bool>
    ensures { result ≡ tested_at tested.now unit }
{
    tested.get(unit).copied().unwrap_or(None)
}

/// Whether the unit can be started along. It is tested once, however many units want it.
fn can_start(
    alloc: Global,
    tested: &mut Vec<Option<bool>>,
    graph: &Graph,
    activity: &[ActiveState],
    unit: usize,
) -> Result<bool, AllocError>
    requires graph { IsGraph graph.now }
    requires unit { unit < length graph.now.names }
    requires tested { AreTested graph.now activity.now tested.old.items }
    ensures answer { IfOk result (λ b. Decides b (IsStartableBy graph.now activity.now unit)) }
    ensures tested { AreTested graph.now activity.now tested.new.items }
{
    if let Some(known) = tested_at(tested, unit) {
        return Ok(known);
    }
    let startable = is_startable(alloc, graph, activity, unit)?;
    tested[unit] = Some(startable);
    Ok(startable)
}

/// Adds the start of the neighbour, if it is wanted and can be started along.
fn push_wanted(
    alloc: Global,
    found: &mut Vec<(Demand, usize)>,
    tested: &mut Vec<Option<bool>>,
    graph: &Graph,
    activity: &[ActiveState],
    neighbour: Neighbour,
) -> Result<(), AllocError>
    requires graph { IsGraph graph.now }
    requires within { neighbour.unit < length graph.now.names }
    requires tested { AreTested graph.now activity.now tested.old.items }
    ensures adds { OnOk result (AddsWanted graph.now activity.now neighbour found.old.items found.new.items) }
    ensures tested { AreTested graph.now activity.now tested.new.items }
{
    if !neighbour.kinds.has(DependencyKind::Wants) {
        return Ok(());
    }
    if !can_start(alloc, tested, graph, activity, neighbour.unit)? {
        return Ok(());
    }
    found.push((Demand::Start, neighbour.unit))?;
    Ok(())
}

fn is_starting(demand: Demand) -> bool
    ensures { result ≡ is_starting demand }
{
    matches!(demand, Demand::Start | Demand::Restart)
}

/// The demands that a demand on a unit brings, and the starts of the units that it wants along.
fn brought_along(
    alloc: Global,
    tested: &mut Vec<Option<bool>>,
    graph: &Graph,
    activity: &[ActiveState],
    demand: (Demand, usize),
) -> Result<Vec<(Demand, usize)>, AllocError>
    requires graph { IsGraph graph.now }
    requires tested { AreTested graph.now activity.now tested.old.items }
    ensures tested { AreTested graph.now activity.now tested.new.items }
    ensures found { IfOk result (λ found. (q : Demanded) → Contains found.items q ↔ LeadsAlongBy graph.now activity.now demand q) }
{
    let mut found = brought(alloc, graph, activity, demand)?;
    if !is_starting(demand.0) {
        return Ok(found);
    }
    for neighbour in graph.neighbours(demand.1) {
        push_wanted(alloc, &mut found, tested, graph, activity, *neighbour)?;
    }
    Ok(found)
}

/// No unit was tested yet, of this number of units.
fn untested(alloc: Global, units: usize) -> Result<Vec<Option<bool>>, AllocError>
    ensures { IfOk result (λ tested. tested.items ≡ replicate units None) }
{
    vec![in alloc; None; units]
}

/// Marks each demand that the demand on the unit brings.
pub fn demanded(
    alloc: Global,
    graph: &Graph,
    activity: &[ActiveState],
    root: (Demand, usize),
) -> Result<Vec<Marks>, AllocError>
    requires graph { IsGraph graph.now }
    requires unit { root.1 < length graph.now.names }
    ensures long { IfOk result (λ marks. vec_len marks ≡ length graph.now.names) }
    ensures marks { IfOk result (λ marks. (q : Demanded) → IsMarked marks.items q ↔ IsDemandedBy graph.now activity.now root q) }
{
    let mut tested = untested(alloc, graph.len())?;
    let mut walk = Walk::new(alloc, graph.len())?;
    walk.meet(root)?;
    while let Some(demand) = walk.list.pop() {
        let found = brought_along(alloc, &mut tested, graph, activity, demand)?;
        walk.meet_all(&found)?;
    }
    Ok(walk.marks)
}
