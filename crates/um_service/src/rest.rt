//! How a unit comes to rest: it is dead, failed, or waits for its restart.

ghost use Rattle.std.specs.Prelude.{◌≡◌, ℕ, if◌then◌else◌};
ghost use Rattle.um_model.specs.Service.{is_success};
ghost use Rattle.um_model.specs.Transitions.{rests_for_good, waits_to_restart, rests, rests_unless_live, terminates};
ghost use Rattle.um_model.specs.declared.service.SubState.TheVariants.{Dead, Failed};
ghost use Rattle.um_unit.specs.ServiceView.{service_settings_of};

use crate::change::{asking, deadline_after, is_live, just, stop_ends};
use crate::ends::is_restart_wanted;
use um_model::{Around, Change, Order, Signal, SubState, UnitResult, UnitState};
use um_unit::ServiceSettings;

/// Dead if all went well, else failed.
fn resting(left: UnitResult) -> SubState
    ensures { result ≡ (if is_success left then Dead else Failed) }
{
    match left {
        UnitResult::Success => SubState::Dead,
        _ => SubState::Failed,
    }
}

/// The unit is at rest, and isn't started again by itself.
pub fn rests_for_good(unit: UnitState) -> Change
    ensures { result ≡ rests_for_good unit }
{
    stop_ends(just(UnitState {
        sub: resting(unit.result),
        main: None,
        control: None,
        deadline: None,
        ..unit
    }))
}

/// The unit waits for its restart (systemd.service(5), `RestartSec=`).
fn waits_to_restart(settings: &ServiceSettings, around: Around, unit: UnitState) -> Change
    ensures { result ≡ waits_to_restart (service_settings_of settings.now) around unit }
{
    stop_ends(just(UnitState {
        sub: SubState::AutoRestart,
        main: None,
        control: None,
        deadline: deadline_after(around.moment, settings.restart_delay),
        ..unit
    }))
}

/// The unit is at rest; or it waits for its restart, if no stop was requested, no stop job waits, and a restart is wanted.
pub fn rests(settings: &ServiceSettings, around: Around, unit: UnitState) -> Change
    ensures { result ≡ rests (service_settings_of settings.now) around unit }
{
    if !unit.stop_asked && !around.stop_waits && is_restart_wanted(settings, &unit) {
        waits_to_restart(settings, around, unit)
    } else {
        rests_for_good(unit)
    }
}

/// The unit stays as it is while one of its processes is live.
pub fn rests_unless_live(settings: &ServiceSettings, around: Around, unit: UnitState) -> Change
    ensures { result ≡ rests_unless_live (service_settings_of settings.now) around unit }
{
    if is_live(&unit) {
        just(unit)
    } else {
        rests(settings, around, unit)
    }
}

/// The unit's live processes are sent a signal to end; without one the unit is at rest.
pub fn terminates(settings: &ServiceSettings, around: Around, unit: UnitState) -> Change
    ensures { result ≡ terminates (service_settings_of settings.now) around unit }
{
    if !is_live(&unit) {
        return rests(settings, around, unit);
    }
    asking(
        Order::Signal(Signal::Term),
        UnitState {
            sub: SubState::StopSigterm,
            deadline: deadline_after(around.moment, settings.timeout_stop),
            ..unit
        },
    )
}
