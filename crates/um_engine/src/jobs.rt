//! The demand of a command on its unit, and the event with which a job begins.

ghost use Rattle.std.specs.Prelude.{◌≡◌};
ghost use Rattle.um_model.specs.Machine.{begins, demand_of};

use um_jobs::is_active;
use um_model::{ActiveState, Demand, JobKind, UnitEvent, UnitVerb};

/// A command's demand on its unit; for try-restart there is none unless the unit is active.
pub fn demand_of(verb: UnitVerb, active: ActiveState) -> Option<Demand>
    ensures { result ≡ demand_of verb active }
{
    match verb {
        UnitVerb::Start => Some(Demand::Start),
        UnitVerb::Stop => Some(Demand::Stop),
        UnitVerb::Restart => Some(Demand::Restart),
        UnitVerb::TryRestart if is_active(active) => Some(Demand::Restart),
        UnitVerb::TryRestart => None,
    }
}

/// The unit's event when a job of this kind begins.
pub fn begins(kind: JobKind) -> UnitEvent
    ensures { result ≡ begins kind }
{
    match kind {
        JobKind::Start => UnitEvent::StartBegins,
        JobKind::Stop => UnitEvent::StopBegins,
    }
}
