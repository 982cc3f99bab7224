//! The next deadline of the units.

ghost use Rattle.std.specs.Prelude.{◌≡◌, MatchOption};
ghost use Rattle.um_serve.specs.Scan.{sooner_past};
ghost use Rattle.um_serve.specs.Sleep.{NoneAfter, IsNextAfter};

use um_model::{Deadline, Moment};
use um_state::Units;

/// The sooner one of a deadline so far and that of a unit, where it has one past the moment.
fn sooner_past(
    moment: Moment,
    so_far: Option<Deadline>,
    deadline: Option<Deadline>,
) -> Option<Deadline>
    ensures { result ≡ sooner_past moment so_far deadline }
{
    let Some(deadline) = deadline else {
        return so_far;
    };
    if deadline.micros() <= moment.micros() {
        return so_far;
    }
    match so_far {
        Some(sooner) if sooner.micros() <= deadline.micros() => Some(sooner),
        _ => Some(deadline),
    }
}

/// The least deadline past a moment that a unit has; none where none has one. It takes no memory.
pub fn next_deadline(units: &Units, moment: Moment) -> Option<Deadline>
    ensures { MatchOption result (NoneAfter units.now.held moment) (IsNextAfter units.now.held moment) }
{
    let mut next = None;
    for unit in units.rows() {
        next = sooner_past(moment, next, unit.deadline);
    }
    next
}
