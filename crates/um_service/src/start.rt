//! How a unit starts.

ghost use Rattle.std.specs.Prelude.{◌≡◌, ℕ};
ghost use Rattle.um_model.specs.Transitions.{start_fails, rests_for_good, first_command, start_of, pre_command, prepares, starts, starts_prepared, pre_goes_on, next_command, start_goes_on};
ghost use Rattle.um_model.specs.declared.service.UnitResult.TheVariants.{Resources};
ghost use Rattle.um_model.specs.declared.transition.UnitKind.TheVariants.{Simple, Oneshot};
ghost use Rattle.um_unit.specs.ServiceView.{service_settings_of};

use crate::change::{asking, deadline_after, just, start_ends, start_fails};
use crate::rest::{rests, rests_for_good};
use crate::settings::{has_place, next_place};
use crate::stop::exits;
use um_limit::Window;
use um_model::{Around, Change, CommandList, Order, SubState, UnitKind, UnitResult, UnitState};
use um_unit::ServiceSettings;

/// A start for which there is no process number.
fn lacks_number(unit: UnitState) -> Change
    ensures { result ≡ start_fails (rests_for_good (record unit { result = Resources })) }
{
    start_fails(rests_for_good(UnitState {
        result: UnitResult::Resources,
        ..unit
    }))
}

/// The first `ExecStart=` command is started as the main process, and the start goes on.
fn first_command(settings: &ServiceSettings, around: Around, unit: UnitState) -> Change
    ensures { result ≡ first_command (service_settings_of settings.now) around unit }
{
    let Some(number) = around.next.process() else {
        return lacks_number(unit);
    };
    asking(
        Order::Spawn(CommandList::OfStart, 0),
        UnitState {
            sub: SubState::Start,
            main: Some(number),
            deadline: deadline_after(around.moment, settings.timeout_start),
            ..unit
        },
    )
}

/// The main process is started, and the start is done.
fn start_simple(settings: &ServiceSettings, around: Around, unit: UnitState) -> Change
    ensures { result ≡ start_of Simple (service_settings_of settings.now) around unit }
{
    let Some(number) = around.next.process() else {
        return lacks_number(unit);
    };
    start_ends(asking(
        Order::Spawn(CommandList::OfStart, 0),
        UnitState {
            sub: SubState::Running,
            main: Some(number),
            deadline: None,
            ..unit
        },
    ))
}

/// The first command is started; without one the unit has exited.
fn start_oneshot(settings: &ServiceSettings, around: Around, unit: UnitState) -> Change
    ensures { result ≡ start_of Oneshot (service_settings_of settings.now) around unit }
{
    if has_place(settings, CommandList::OfStart, 0) {
        return first_command(settings, around, unit);
    }
    start_ends(just(UnitState {
        sub: SubState::Exited,
        deadline: None,
        ..unit
    }))
}

/// A start by the kind of the unit (systemd.service(5), `Type=`).
fn start_of(settings: &ServiceSettings, around: Around, unit: UnitState) -> Change
    ensures { result ≡ start_of settings.now.kind (service_settings_of settings.now) around unit }
{
    match settings.kind {
        UnitKind::Target => start_ends(just(UnitState {
            sub: SubState::Active,
            deadline: None,
            ..unit
        })),
        UnitKind::Simple => start_simple(settings, around, unit),
        UnitKind::Exec => first_command(settings, around, unit),
        UnitKind::Oneshot => start_oneshot(settings, around, unit),
    }
}

/// The `ExecStartPre=` command at this place is started as the control process. The unit has its deadline from the first one.
fn pre_command(around: Around, unit: UnitState, index: u32) -> Change
    ensures { result ≡ pre_command around unit index }
{
    let Some(number) = around.next.process() else {
        return lacks_number(UnitState { index, ..unit });
    };
    asking(
        Order::Spawn(CommandList::OfStartPre, index),
        UnitState {
            sub: SubState::StartPre,
            control: Some(number),
            index,
            ..unit
        },
    )
}

/// The unit starts by its first `ExecStartPre=` command, or by its kind if it has none.
fn prepares(settings: &ServiceSettings, around: Around, unit: UnitState) -> Change
    ensures { result ≡ prepares (service_settings_of settings.now) around unit }
{
    if !has_place(settings, CommandList::OfStartPre, 0) {
        return start_of(settings, around, unit);
    }
    let timed = UnitState {
        deadline: deadline_after(around.moment, settings.timeout_start),
        ..unit
    };
    pre_command(around, timed, 0)
}

/// A start of a unit at rest: refused by its limit, or counted by it (systemd.unit(5), `StartLimitIntervalSec=`).
pub fn starts(settings: &ServiceSettings, around: Around, unit: UnitState) -> Change
    ensures { result ≡ starts (service_settings_of settings.now) around unit }
{
    let mut window = Window::from_counted(unit.window);
    if !window.count(around.moment, settings.limit_interval, settings.limit_burst) {
        return start_fails(just(UnitState {
            sub: SubState::Failed,
            result: UnitResult::StartLimitHit,
            deadline: None,
            ..unit
        }));
    }
    let fresh = UnitState {
        result: UnitResult::Success,
        stop_asked: false,
        index: 0,
        last: None,
        window: window.counted(),
        ..unit
    };
    prepares(settings, around, fresh)
}

/// All `ExecStartPre=` commands are done: the unit starts by its kind, unless it can't be loaded any more.
fn starts_prepared(settings: &ServiceSettings, around: Around, unit: UnitState) -> Change
    ensures { result ≡ starts_prepared (service_settings_of settings.now) around unit }
{
    if around.loadable {
        return start_of(settings, around, UnitState { index: 0, ..unit });
    }
    let left = UnitState {
        result: UnitResult::NotLoaded,
        ..unit
    };
    start_fails(rests(settings, around, left))
}

/// An `ExecStartPre=` command is done: the next one is started, or it was the last.
pub fn pre_goes_on(settings: &ServiceSettings, around: Around, unit: UnitState) -> Change
    ensures { result ≡ pre_goes_on (service_settings_of settings.now) around unit }
{
    match next_place(settings, CommandList::OfStartPre, unit.index) {
        Some(next) => pre_command(around, unit, next),
        None => starts_prepared(settings, around, unit),
    }
}

/// The next command of a oneshot is started as its main process.
fn next_command(around: Around, unit: UnitState, index: u32) -> Change
    ensures { result ≡ next_command around unit index }
{
    let Some(number) = around.next.process() else {
        return lacks_number(UnitState { index, ..unit });
    };
    asking(
        Order::Spawn(CommandList::OfStart, index),
        UnitState {
            main: Some(number),
            index,
            ..unit
        },
    )
}

/// A command of a oneshot ended well: the next one is started, or the start is done.
fn next_start(settings: &ServiceSettings, around: Around, unit: UnitState) -> Change
    ensures { result ≡ start_goes_on Oneshot (service_settings_of settings.now) around unit }
{
    match next_place(settings, CommandList::OfStart, unit.index) {
        Some(next) => next_command(around, unit, next),
        None => start_ends(exits(settings, around, unit)),
    }
}

/// The main process ended well during the start: a oneshot goes on with its next command.
pub fn start_goes_on(settings: &ServiceSettings, around: Around, unit: UnitState) -> Change
    ensures { result ≡ start_goes_on settings.now.kind (service_settings_of settings.now) around unit }
{
    match settings.kind {
        UnitKind::Oneshot => next_start(settings, around, unit),
        UnitKind::Simple | UnitKind::Exec | UnitKind::Target => {
            start_ends(exits(settings, around, unit))
        }
    }
}
