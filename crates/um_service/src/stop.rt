//! How a unit stops.

ghost use Rattle.std.specs.Prelude.{◌≡◌, ◌+◌, ℕ, if◌then◌else◌};
ghost use Rattle.um_model.specs.Transitions.{asking, deadline_after, dies, exits, forgiven, just, stop_command, told_to_stop, winds_down};
ghost use Rattle.um_model.specs.Ends.{is_failed};
ghost use Rattle.um_model.specs.declared.service.Signal.TheVariants.{Kill};
ghost use Rattle.um_model.specs.declared.service.SubState.TheVariants.{Dead, StopSigkill};
ghost use Rattle.um_model.specs.declared.transition.Order.TheVariants.{Signal as SignalAll};
ghost use Rattle.um_unit.specs.ServiceView.{service_settings_of};

use crate::change::{asking, deadline_after, just, stop_ends};
use crate::rest::terminates;
use crate::settings::{has_place, next_place};
use um_model::{Around, Change, CommandList, Order, Signal, SubState, UnitResult, UnitState};
use um_unit::ServiceSettings;

/// The `ExecStop=` command at this place is started; without a number for it the unit's processes are sent a signal to end.
fn stop_command(settings: &ServiceSettings, around: Around, unit: UnitState, index: u32) -> Change
    ensures { result ≡ stop_command (service_settings_of settings.now) around unit index }
{
    let Some(number) = around.next.process() else {
        let spent = UnitState {
            result: UnitResult::Resources,
            index,
            ..unit
        };
        return terminates(settings, around, spent);
    };
    asking(
        Order::Spawn(CommandList::OfStop, index),
        UnitState {
            sub: SubState::Stop,
            control: Some(number),
            index,
            deadline: deadline_after(around.moment, settings.timeout_stop),
            ..unit
        },
    )
}

/// The unit goes down, by its `ExecStop=` commands if it has any.
pub fn winds_down(settings: &ServiceSettings, around: Around, unit: UnitState) -> Change
    ensures { result ≡ winds_down (service_settings_of settings.now) around unit 0 }
{
    if has_place(settings, CommandList::OfStop, 0) {
        stop_command(settings, around, unit, 0)
    } else {
        terminates(settings, around, unit)
    }
}

/// The next `ExecStop=` command is started; after the last one the unit's processes are sent a signal to end.
pub fn next_stop(settings: &ServiceSettings, around: Around, unit: UnitState) -> Change
    ensures { result ≡ winds_down (service_settings_of settings.now) around unit (unit.index + 1) }
{
    match next_place(settings, CommandList::OfStop, unit.index) {
        Some(next) => stop_command(settings, around, unit, next),
        None => terminates(settings, around, unit),
    }
}

/// The main process ended well: the unit has exited (systemd.service(5), `RemainAfterExit=`), or goes down.
pub fn exits(settings: &ServiceSettings, around: Around, unit: UnitState) -> Change
    ensures { result ≡ exits (service_settings_of settings.now) around unit }
{
    if !settings.remains {
        return winds_down(settings, around, unit);
    }
    just(UnitState {
        sub: SubState::Exited,
        deadline: None,
        ..unit
    })
}

/// Notes that a stop was requested.
pub fn told_to_stop(unit: UnitState) -> UnitState
    ensures { result ≡ told_to_stop unit }
{
    UnitState {
        stop_asked: true,
        ..unit
    }
}

/// The unit is dead at once.
pub fn dies(unit: UnitState) -> Change
    ensures { result ≡ dies unit }
{
    stop_ends(just(UnitState {
        sub: SubState::Dead,
        deadline: None,
        ..unit
    }))
}

fn unless_failed(sub: SubState) -> SubState
    ensures { result ≡ (if is_failed sub then Dead else sub) }
{
    match sub {
        SubState::Failed => SubState::Dead,
        other => other,
    }
}

/// The unit's failure is forgotten, and the count of its starts (systemctl(1), `reset-failed`).
pub fn forgiven(unit: UnitState) -> UnitState
    ensures { result ≡ forgiven unit }
{
    UnitState {
        sub: unless_failed(unit.sub),
        result: UnitResult::Success,
        window: None,
        ..unit
    }
}

/// The unit's live processes are killed.
pub fn kills(settings: &ServiceSettings, around: Around, unit: UnitState) -> Change
    ensures { result ≡ asking (SignalAll Kill) (just (record unit { sub = StopSigkill; deadline = deadline_after around.moment (service_settings_of settings.now).timeout_stop })) }
{
    asking(
        Order::Signal(Signal::Kill),
        UnitState {
            sub: SubState::StopSigkill,
            deadline: deadline_after(around.moment, settings.timeout_stop),
            ..unit
        },
    )
}
