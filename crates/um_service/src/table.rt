//! The service table.

ghost use Rattle.std.specs.Prelude.{◌≡◌};
ghost use Rattle.um_model.specs.Ends.{is_starting};
ghost use Rattle.um_model.specs.Service.{active_state_of};
ghost use Rattle.um_model.specs.Transitions.{fails_start, noted, without_main, without_control, timed_out, is_control_done, start_times_out, is_going, row, transition};
ghost use Rattle.um_model.specs.declared.service.ActiveState.TheVariants.{Activating, Active as IsActive, Deactivating};
ghost use Rattle.um_model.specs.declared.service.SubState.TheVariants.{StartPre, Start, Running, Stop};
ghost use Rattle.um_model.specs.declared.transition.UnitEvent.TheVariants.{MainEnds, ControlEnds};
ghost use Rattle.um_unit.specs.ServiceView.{service_settings_of};

use crate::change::{just, start_ends, start_fails, stop_ends};
use crate::ends::{has_one_command, is_clean, is_told, or_later, unclean_result};
use crate::rest::{rests, rests_for_good, rests_unless_live, terminates};
use crate::settings::has_dash;
use crate::start::{pre_goes_on, start_goes_on, starts};
use crate::stop::{dies, exits, forgiven, kills, next_stop, told_to_stop, winds_down};
use um_model::{
    ActiveState, Around, Change, CommandList, End, Process, SubState, UnitEvent, UnitResult,
    UnitState,
};
use um_unit::ServiceSettings;

/// The unit after an end of one of its processes: an unclean one sets the result.
fn noted(unit: UnitState, end: End, clean: bool) -> UnitState
    ensures { result ≡ noted unit end clean }
{
    if clean {
        return unit;
    }
    UnitState {
        result: or_later(unit.result, unclean_result(end)),
        ..unit
    }
}

/// The unit without its main process, which ended so.
fn without_main(settings: &ServiceSettings, unit: UnitState, end: End) -> UnitState
    ensures { result ≡ without_main (service_settings_of settings.now) unit end }
{
    let clean = is_clean(settings, &unit, Process::Main, end);
    let left = UnitState {
        main: None,
        last: Some(end),
        ..unit
    };
    noted(left, end, clean)
}

/// The unit without its control process, which ended so.
fn without_control(settings: &ServiceSettings, unit: UnitState, end: End) -> UnitState
    ensures { result ≡ without_control (service_settings_of settings.now) unit end }
{
    let clean = is_clean(settings, &unit, Process::Control, end);
    let left = UnitState {
        control: None,
        ..unit
    };
    noted(left, end, clean)
}

/// The unit whose time is over: the result is timeout if it was success.
fn timed_out(unit: UnitState) -> UnitState
    ensures { result ≡ timed_out unit }
{
    UnitState {
        result: or_later(unit.result, UnitResult::Timeout),
        ..unit
    }
}

/// Whether the control process, which is the unit's command in this list, ended well: cleanly, or as the command's `-` allows.
fn is_control_done(
    settings: &ServiceSettings,
    which: CommandList,
    unit: &UnitState,
    end: End,
) -> bool
    ensures { result ≡ is_control_done (service_settings_of settings.now) which unit.now end }
{
    is_clean(settings, unit, Process::Control, end)
        || is_told(end) && has_dash(settings, which, unit.index)
}

/// An `ExecStartPre=` command ended: well, so that the start goes on, or so that it fails.
fn pre_meets(settings: &ServiceSettings, around: Around, unit: UnitState, end: End) -> Change
    ensures { result ≡ row (service_settings_of settings.now) around unit Activating StartPre (ControlEnds end) }
{
    if is_control_done(settings, CommandList::OfStartPre, &unit, end) {
        return pre_goes_on(
            settings,
            around,
            UnitState {
                control: None,
                ..unit
            },
        );
    }
    start_fails(rests(settings, around, without_control(settings, unit, end)))
}

/// The start doesn't end in time.
fn start_times_out(settings: &ServiceSettings, around: Around, unit: UnitState) -> Change
    ensures { result ≡ start_times_out (service_settings_of settings.now) around unit }
{
    let late = UnitState {
        result: UnitResult::Timeout,
        ..unit
    };
    start_fails(terminates(settings, around, late))
}

/// The main process ended during the start: cleanly, so that the start goes on, or so that it fails.
fn start_meets(settings: &ServiceSettings, around: Around, unit: UnitState, end: End) -> Change
    ensures { result ≡ row (service_settings_of settings.now) around unit Activating Start (MainEnds end) }
{
    let clean = is_clean(settings, &unit, Process::Main, end);
    let left = without_main(settings, unit, end);
    if clean {
        start_goes_on(settings, around, left)
    } else {
        start_fails(rests(settings, around, left))
    }
}

/// The main process of a unit that runs ended.
fn run_meets(settings: &ServiceSettings, around: Around, unit: UnitState, end: End) -> Change
    ensures { result ≡ row (service_settings_of settings.now) around unit IsActive Running (MainEnds end) }
{
    let clean = is_clean(settings, &unit, Process::Main, end);
    let left = without_main(settings, unit, end);
    if clean {
        exits(settings, around, left)
    } else {
        winds_down(settings, around, left)
    }
}

/// An `ExecStop=` command ended: if it ended well, the next one is started; otherwise the unit's processes are sent a signal to end.
fn stop_meets(settings: &ServiceSettings, around: Around, unit: UnitState, end: End) -> Change
    ensures { result ≡ row (service_settings_of settings.now) around unit Deactivating Stop (ControlEnds end) }
{
    if is_control_done(settings, CommandList::OfStop, &unit, end) {
        return next_stop(
            settings,
            around,
            UnitState {
                control: None,
                ..unit
            },
        );
    }
    terminates(settings, around, without_control(settings, unit, end))
}

/// The rows of the table, by event and state. The first that fits counts.
fn row(settings: &ServiceSettings, around: Around, unit: UnitState, event: UnitEvent) -> Change
    ensures { result ≡ row (service_settings_of settings.now) around unit (active_state_of unit.sub) unit.sub event }
{
    use SubState::{
        Active, AutoRestart, Dead, Exited, Failed, Running, Start, StartPre, Stop, StopSigkill,
        StopSigterm,
    };
    use UnitEvent::{
        ControlEnds, DeadlinePasses, Executed, MainEnds, Reset, StartBegins, StopBegins,
    };
    match (unit.sub, event) {
        (_, Reset) => just(forgiven(unit)),
        (Running | Exited | Active, StartBegins) => start_ends(just(unit)),
        (Dead | Failed | AutoRestart, StartBegins) => starts(settings, around, unit),
        (StartPre, ControlEnds(end)) => pre_meets(settings, around, unit, end),
        (StartPre | Start, DeadlinePasses) => start_times_out(settings, around, unit),
        (Start, Executed) if has_one_command(settings.kind) => start_ends(just(UnitState {
            sub: Running,
            deadline: None,
            ..unit
        })),
        (Start, Executed) => just(unit),
        (Start, MainEnds(end)) => start_meets(settings, around, unit, end),
        (Running, MainEnds(end)) => run_meets(settings, around, unit, end),
        (Active | AutoRestart, StopBegins) => dies(unit),
        (Running | Exited, StopBegins) => winds_down(settings, around, told_to_stop(unit)),
        (StartPre | Start, StopBegins) => terminates(settings, around, told_to_stop(unit)),
        (Stop | StopSigterm | StopSigkill, StopBegins) => just(told_to_stop(unit)),
        (Dead | Failed, StopBegins) => stop_ends(just(unit)),
        (Stop, ControlEnds(end)) => stop_meets(settings, around, unit, end),
        (Stop, MainEnds(end)) => just(without_main(settings, unit, end)),
        (StopSigterm, MainEnds(end)) => {
            rests_unless_live(settings, around, without_main(settings, unit, end))
        }
        (StopSigterm, ControlEnds(end)) => {
            rests_unless_live(settings, around, without_control(settings, unit, end))
        }
        (StopSigkill, MainEnds(end)) => {
            rests_unless_live(settings, around, without_main(settings, unit, end))
        }
        (StopSigkill, ControlEnds(end)) => {
            rests_unless_live(settings, around, without_control(settings, unit, end))
        }
        (Stop, DeadlinePasses) => terminates(settings, around, timed_out(unit)),
        (StopSigterm, DeadlinePasses) => kills(settings, around, timed_out(unit)),
        (StopSigkill, DeadlinePasses) => rests_for_good(timed_out(unit)),
        _ => just(unit),
    }
}

/// Whether a unit in this state is active or activating.
fn is_going(sub: SubState) -> bool
    ensures { result ≡ is_going (active_state_of sub) }
{
    matches!(
        sub.active_state(),
        ActiveState::Active | ActiveState::Activating
    )
}

/// Whether a start has begun and hasn't ended.
fn is_starting(sub: SubState) -> bool
    ensures { result ≡ is_starting sub }
{
    matches!(sub, SubState::StartPre | SubState::Start)
}

/// The change, by which a start that has begun fails.
fn fails_start(sub: SubState, change: Change) -> Change
    ensures { result ≡ fails_start sub change }
{
    if is_starting(sub) {
        start_fails(change)
    } else {
        change
    }
}

/// The change by an event. A unit that can't be loaded isn't started. A bound stop of a unit that is active or activating is like a stop
/// job that begins, but a start that has begun fails by it.
pub fn transition(
    settings: &ServiceSettings,
    around: Around,
    unit: UnitState,
    event: UnitEvent,
) -> Change
    ensures { result ≡ transition (service_settings_of settings.now) around unit event }
{
    match event {
        UnitEvent::StartBegins if !around.loadable => start_fails(just(UnitState {
            result: UnitResult::NotLoaded,
            ..unit
        })),
        UnitEvent::BoundStop if is_going(unit.sub) => fails_start(
            unit.sub,
            row(settings, around, unit, UnitEvent::StopBegins),
        ),
        UnitEvent::BoundStop => just(unit),
        _ => row(settings, around, unit, event),
    }
}
