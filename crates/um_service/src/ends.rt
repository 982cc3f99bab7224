//! How the end of a process counts.

ghost use Rattle.std.specs.Prelude.{◌≡◌, ℕ, false};
ghost use Rattle.std.specs.Option.{option_map_or};
ghost use Rattle.um_model.specs.Ends.{is_told, is_stopping, asks_to_end, has_one_command, is_clean_alone, main_has_dash, is_clean, unclean_result, or_later, restarts_after, is_restart_wanted};
ghost use Rattle.um_unit.specs.ServiceView.{service_settings_of};
ghost use Rattle.um_value.specs.ExitSet.{holds};

use crate::settings::has_dash;
use um_model::{
    CommandList, End, Process, RestartPolicy, SubState, UnitKind, UnitResult, UnitState,
};
use um_unit::ServiceSettings;
use um_value::ExitSet;

/// Whether the end is known, as a code or a signal.
pub fn is_told(end: End) -> bool
    ensures { result ≡ is_told end }
{
    match end {
        End::Code(_) | End::Signal(_) => true,
        End::Lost => false,
    }
}

fn is_stopping(sub: SubState) -> bool
    ensures { result ≡ is_stopping sub }
{
    match sub {
        SubState::Stop | SubState::StopSigterm | SubState::StopSigkill => true,
        _ => false,
    }
}

/// Whether the signal is a request to end: hang-up, interrupt, a broken pipe, terminate.
fn asks_to_end(signal: u8) -> bool
    ensures { result ≡ asks_to_end signal }
{
    signal == 1 || signal == 2 || signal == 13 || signal == 15
}

/// Whether a unit of this kind runs one command, which is its main process.
pub fn has_one_command(kind: UnitKind) -> bool
    ensures { result ≡ has_one_command kind }
{
    match kind {
        UnitKind::Simple | UnitKind::Exec => true,
        UnitKind::Oneshot | UnitKind::Target => false,
    }
}

/// Whether the end is clean, whatever is set.
fn is_clean_alone(kind: UnitKind, sub: SubState, end: End) -> bool
    ensures { result ≡ is_clean_alone kind sub end }
{
    match end {
        End::Code(code) => code == 0,
        End::Signal(signal) => has_one_command(kind) && asks_to_end(signal)
            || signal == 0 && is_stopping(sub),
        End::Lost => false,
    }
}

/// Whether the command of the main process is written with `-`. For a oneshot in start, stop-sigterm or stop-sigkill that is the command at
/// the unit's index; in another state it has none.
fn main_has_dash(settings: &ServiceSettings, unit: &UnitState) -> bool
    ensures { result ≡ main_has_dash settings.now.kind unit.now.sub (service_settings_of settings.now) unit.now }
{
    match (settings.kind, unit.sub) {
        (UnitKind::Simple | UnitKind::Exec, _) => has_dash(settings, CommandList::OfStart, 0),
        (UnitKind::Oneshot, SubState::Start | SubState::StopSigterm | SubState::StopSigkill) =>
            has_dash(settings, CommandList::OfStart, unit.index),
        _ => false,
    }
}

/// Whether the end of the process is clean (systemd.service(5), `SuccessExitStatus=`).
pub fn is_clean(settings: &ServiceSettings, unit: &UnitState, process: Process, end: End) -> bool
    ensures { result ≡ is_clean (service_settings_of settings.now) unit.now process end }
{
    if is_clean_alone(settings.kind, unit.sub, end) || settings.success.holds(end) {
        return true;
    }
    match process {
        Process::Control => false,
        Process::Main => is_told(end) && main_has_dash(settings, unit),
    }
}

/// The result that an unclean end leaves.
pub fn unclean_result(end: End) -> UnitResult
    ensures { result ≡ unclean_result end }
{
    match end {
        End::Code(_) => UnitResult::ExitCode,
        End::Signal(_) => UnitResult::Signal,
        End::Lost => UnitResult::Lost,
    }
}

/// The first result, unless it is success; else the later one.
pub fn or_later(first: UnitResult, later: UnitResult) -> UnitResult
    ensures { result ≡ or_later first later }
{
    match first {
        UnitResult::Success => later,
        _ => first,
    }
}

/// The table of `Restart=` (systemd.service(5)).
fn restarts_after(left: UnitResult, policy: RestartPolicy) -> bool
    ensures { result ≡ restarts_after left policy }
{
    match (policy, left) {
        (RestartPolicy::Always | RestartPolicy::OnSuccess, UnitResult::Success) => true,
        (RestartPolicy::Always | RestartPolicy::OnFailure, UnitResult::ExitCode) => true,
        (
            RestartPolicy::Always
            | RestartPolicy::OnFailure
            | RestartPolicy::OnAbnormal
            | RestartPolicy::OnAbort,
            UnitResult::Signal,
        ) => true,
        (
            RestartPolicy::Always | RestartPolicy::OnFailure | RestartPolicy::OnAbnormal,
            UnitResult::Timeout | UnitResult::Lost,
        ) => true,
        _ => false,
    }
}

/// Whether the set holds the main process's end.
fn ended_in(set: &ExitSet, last: Option<End>) -> bool
    ensures { result ≡ option_map_or (holds set.now) last false }
{
    match last {
        Some(end) => set.holds(end),
        None => false,
    }
}

/// Whether a restart is wanted: never if the last end of the main process prevents it, always if that forces it, else by the result and
/// `Restart=`.
pub fn is_restart_wanted(settings: &ServiceSettings, unit: &UnitState) -> bool
    ensures { result ≡ is_restart_wanted (service_settings_of settings.now) unit.now }
{
    !ended_in(&settings.prevents_restart, unit.last)
        && (ended_in(&settings.forces_restart, unit.last)
            || restarts_after(unit.result, settings.restart))
}
