//! An event of a unit, with the units that fall with it: those that are bound to one that comes to rest are stopped at once
//! (systemd.unit(5), "BindsTo=").

ghost use Rattle.std.specs.Prelude.{◌≡◌, ◌<◌, ◌≤◌, ◌++◌, ℕ, List, [], All, false, length, IfOk, OnOk, slice_get};
ghost use Rattle.um_falling.specs.Carrying.{KeepsOthers, OnlyEnds};
ghost use Rattle.um_falling.specs.Falling as falls;
ghost use Rattle.um_falling.specs.Falling.{AddsFalling, AreNamed, StopsIf, StopsOne, falling_from, goes, sub_of};
ghost use Rattle.um_falling.specs.Work.{Goes, Keeps};
ghost use Rattle.um_graph.specs.Graph.{IsNumberOf};
ghost use Rattle.um_graph.specs.Sorted.{IsAscending};
ghost use Rattle.um_model.specs.Transitions.{comes_to_rest};
ghost use Rattle.um_model.specs.Waiting.{NoMoreWait};
ghost use Rattle.um_model.specs.Jobs.{jobs_of_unit};
ghost use Rattle.um_model.specs.Machine as model;
ghost use Rattle.um_model.specs.declared.transition.UnitEvent.TheVariants.{BoundStop};
ghost use Rattle.um_state.specs.View.{state_of};

use crate::carrying::carry;
use crate::work::Work;
use std::alloc::AllocError;
use std::collections::VecDeque;
use um_graph::Neighbour;
use um_model::{ActiveState, DependencyKind, SubState, UnitEvent};

/// Whether a unit that stands so came to rest: it is dead or failed, and wasn't the same before.
fn comes_to_rest(before: SubState, after: SubState) -> bool
    ensures { result ≡ comes_to_rest before after }
{
    match after {
        SubState::Dead => !matches!(before, SubState::Dead),
        SubState::Failed => !matches!(before, SubState::Failed),
        _ => false,
    }
}

/// Whether the neighbour is bound to the unit in whose row it stands.
fn is_bound(neighbour: Neighbour) -> bool
    ensures { result ≡ falls.binds neighbour }
{
    neighbour.kinds.has_inverse(DependencyKind::BindsTo)
}

/// Whether the unit with this number is active or activating.
fn is_going(work: &Work<'_>, unit: usize) -> bool
    ensures { (name : List ℕ) → IsNumberOf work.now.graph unit name → result ≡ goes (state_of work.now.now) name }
{
    matches!(
        work.unit(unit).sub.active_state(),
        ActiveState::Active | ActiveState::Activating
    )
}

/// Puts the units that are bound to the one of the row and are active or activating at the front of the list, by name, as they stand in the
/// row.
fn push_bound(
    work: &Work<'_>,
    list: &mut VecDeque<usize>,
    row: &[Neighbour],
) -> Result<(), AllocError>
    requires ascends { IsAscending row.now }
    requires within { All (λ n. n.unit < length work.now.graph.names) row.now }
    ensures { OnOk result (list.new.items ≡ falling_from (state_of work.now.now) row.now 0 work.now.graph.names ++ list.old.items) }
{
    let mut place = row.len();
    while place > 0 {
        place -= 1;
        let neighbour = row[place];
        if is_bound(neighbour) && is_going(work, neighbour.unit) {
            list.push_front(neighbour.unit)?;
        }
    }
    Ok(())
}

/// Puts the units that fall with this one, if it came to rest, at the front of the list.
fn push_falling(
    work: &Work<'_>,
    list: &mut VecDeque<usize>,
    unit: usize,
    before: SubState,
) -> Result<(), AllocError>
    ensures { OnOk result ((name : List ℕ) → IsNumberOf work.now.graph unit name
        → AddsFalling work.now.graph (state_of work.now.now) before name list.old.items list.new.items) }
{
    let Some(name) = work.graph().name(unit) else {
        return Ok(());
    };
    if !comes_to_rest(before, work.unit(unit).sub) {
        return Ok(());
    }
    push_bound(work, list, work.graph().neighbours_of(name))
}

/// Carries out an event of the unit with this number by itself, and puts the units that fall with it at the front of the list. Returns
/// whether its start failed.
fn carry_on(
    work: &mut Work<'_>,
    list: &mut VecDeque<usize>,
    unit: usize,
    event: UnitEvent,
) -> Result<bool, AllocError>
    ensures carries { OnOk result ((name : List ℕ) → IsNumberOf work.old.graph unit name
        → Goes (model.Carries work.old.moment name event (state_of work.old.now)) work.old work.new) }
    ensures adds { OnOk result ((name : List ℕ) → IsNumberOf work.old.graph unit name
        → AddsFalling work.old.graph (state_of work.new.now) (sub_of (state_of work.old.now) name) name list.old.items list.new.items) }
    ensures waits { OnOk result ((name : List ℕ) → IsNumberOf work.old.graph unit name
        → NoMoreWait (state_of work.new.now).pending (state_of work.old.now).pending) }
    ensures others { IfOk result (λ fails. (name : List ℕ) → IsNumberOf work.old.graph unit name
        → fails ≡ false → KeepsOthers name (state_of work.old.now) (state_of work.new.now)) }
    ensures ends { IfOk result (λ fails. (name : List ℕ) → IsNumberOf work.old.graph unit name
        → fails ≡ false → OnlyEnds (jobs_of_unit (state_of work.old.now).pending name) (jobs_of_unit (state_of work.new.now).pending name)) }
    ensures stops { OnOk result ((name : List ℕ) → IsNumberOf work.old.graph unit name
        → event ≡ BoundStop → StopsOne name (state_of work.old.now) (state_of work.new.now)) }
    ensures keeps { OnOk result (Keeps work.old work.new) }
{
    let before = work.unit(unit).sub;
    let fails = carry(work, unit, event)?;
    push_falling(work, list, unit, before)?;
    Ok(fails)
}

/// Gives the unit with this number a bound stop, and puts the units that fall with it at the front of the list.
fn fall_next(work: &mut Work<'_>, list: &mut VecDeque<usize>, unit: usize) -> Result<(), AllocError>
    ensures carries { OnOk result ((name : List ℕ) → IsNumberOf work.old.graph unit name
        → Goes (model.Carries work.old.moment name BoundStop (state_of work.old.now)) work.old work.new) }
    ensures adds { OnOk result ((name : List ℕ) → IsNumberOf work.old.graph unit name
        → AddsFalling work.old.graph (state_of work.new.now) (sub_of (state_of work.old.now) name) name list.old.items list.new.items) }
    ensures waits { OnOk result (NoMoreWait (state_of work.new.now).pending (state_of work.old.now).pending) }
    ensures stops { OnOk result (StopsIf (slice_get work.old.graph.names unit) (state_of work.old.now) list.old.items (state_of work.new.now) list.new.items) }
    ensures keeps { OnOk result (Keeps work.old work.new) }
{
    let Some(_) = work.graph().name(unit) else {
        return Ok(());
    };
    carry_on(work, list, unit, UnitEvent::BoundStop)?;
    Ok(())
}

/// Gives each unit of the list a bound stop, one after another. If one comes to rest by that, those that are bound to it come first, by
/// name.
fn fall_all(work: &mut Work<'_>, list: &mut VecDeque<usize>) -> Result<(), AllocError>
    ensures falls { OnOk result ((names : List (List ℕ)) → AreNamed work.old.graph list.old.items names
        → Goes (model.FallDown work.old.moment names (state_of work.old.now)) work.old work.new) }
    ensures waits { OnOk result (NoMoreWait (state_of work.new.now).pending (state_of work.old.now).pending) }
    ensures none { OnOk result (list.old.items ≡ [] → state_of work.new.now ≡ state_of work.old.now) }
    ensures keeps { OnOk result (Keeps work.old work.new) }
{
    // The proof reads here that the graph serves.
    let _ = work.graph();
    'units: while let Some(unit) = list.pop_front() {
        fall_next(work, list, unit)?;
    }
    Ok(())
}

/// Carries out an event of the unit with this number at the moment, with all units that fall with it. Its actions follow those so far. Past
/// the last unit nothing happens. Returns whether other units may have changed too. If memory is refused, the work is of no use.
pub fn happen(work: &mut Work<'_>, unit: usize, event: UnitEvent) -> Result<bool, AllocError>
    ensures happens { OnOk result ((name : List ℕ) → IsNumberOf work.old.graph unit name
        → Goes (model.Happens work.old.moment name event (state_of work.old.now)) work.old work.new) }
    ensures waits { OnOk result ((name : List ℕ) → IsNumberOf work.old.graph unit name
        → NoMoreWait (state_of work.new.now).pending (state_of work.old.now).pending) }
    ensures others { IfOk result (λ spreads. (name : List ℕ) → IsNumberOf work.old.graph unit name
        → spreads ≡ false → KeepsOthers name (state_of work.old.now) (state_of work.new.now)) }
    ensures ends { IfOk result (λ spreads. (name : List ℕ) → IsNumberOf work.old.graph unit name
        → spreads ≡ false → OnlyEnds (jobs_of_unit (state_of work.old.now).pending name) (jobs_of_unit (state_of work.new.now).pending name)) }
    ensures past { length work.old.graph.names ≤ unit → OnOk result (work.new ≡ work.old) }
    ensures keeps { OnOk result (Keeps work.old work.new) }
{
    // The proof reads here that the graph serves, too.
    let Some(_) = work.graph().name(unit) else {
        return Ok(false);
    };
    let mut list = VecDeque::new(work.alloc());
    let fails = carry_on(work, &mut list, unit, event)?;
    let spreads = fails || !list.is_empty();
    fall_all(work, &mut list)?;
    Ok(spreads)
}
