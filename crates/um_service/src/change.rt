//! Parts of a unit's changes.

ghost use Rattle.std.specs.Prelude.{◌≡◌, ℕ};
ghost use Rattle.um_model.specs.Transitions.{deadline_after, is_live, just, asking, start_ends, start_fails, stop_ends};

use um_model::{Change, Deadline, Moment, Order, Span, StartJob, UnitState};

/// The deadline a span after the moment; None if the span never ends.
pub fn deadline_after(moment: Moment, span: Option<Span>) -> Option<Deadline>
    ensures { result ≡ deadline_after moment span }
{
    match span {
        Some(span) => Some(moment.after(span)),
        None => None,
    }
}

/// Whether a process of the unit is live.
pub fn is_live(unit: &UnitState) -> bool
    ensures { result ≡ is_live unit.now }
{
    unit.main.is_some() || unit.control.is_some()
}

/// The unit is now this, and nothing else follows.
pub fn just(unit: UnitState) -> Change
    ensures { result ≡ just unit }
{
    Change {
        unit,
        order: Order::Nothing,
        start: StartJob::Stays,
        stop_ends: false,
    }
}

/// The unit is now this, with this order to its processes.
pub fn asking(order: Order, unit: UnitState) -> Change
    ensures { result ≡ asking order (just unit) }
{
    Change {
        order,
        ..just(unit)
    }
}

/// Its running start job ends.
pub fn start_ends(change: Change) -> Change
    ensures { result ≡ start_ends change }
{
    Change {
        start: StartJob::Ends,
        ..change
    }
}

/// Its running start job fails.
pub fn start_fails(change: Change) -> Change
    ensures { result ≡ start_fails change }
{
    Change {
        start: StartJob::Fails,
        ..change
    }
}

/// Its running stop job ends.
pub fn stop_ends(change: Change) -> Change
    ensures { result ≡ stop_ends change }
{
    Change {
        stop_ends: true,
        ..change
    }
}
