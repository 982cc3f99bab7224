//! Why a unit can't be loaded.

ghost use Rattle.std.specs.Prelude.{◌≡◌, ◌++◌, IfOk, Some, codes, map, option_map, string_bytes};
ghost use Rattle.std.specs.Option.{option_or};
ghost use Rattle.um_model.specs.Units as model;
ghost use Rattle.um_unit.specs.ServiceView.{service_settings_of};
ghost use Rattle.um_unit.specs.Sources.{assigned_of};
ghost use Rattle.um_unit.specs.Tests as tests;
ghost use Rattle.um_unit.specs.View.{said_of};

use crate::assignments::Assigned;
use crate::keys::is_refused_key;
use crate::service_settings::ServiceSettings;
use crate::singles::{TypeSaid, type_of};
use std::alloc::{AllocError, Global};
use um_model::{Profile, RestartPolicy, Suffix, UnitKind};

fn setting_reason(alloc: Global, key: &str) -> Result<String, AllocError>
    ensures { IfOk result (λ reason. string_bytes reason ≡ codes "setting " ++ key.now) }
{
    let mut reason = String::from_str(alloc, "setting ")?;
    reason.push_str(key)?;
    Ok(reason)
}

fn is_refused(profile: Profile, assigned: &Assigned<'_>) -> bool
    ensures { result ≡ tests.is_refused profile (assigned_of assigned.now) }
{
    is_refused_key(profile, assigned.key) && !assigned.value.is_empty()
}

/// `setting` and the first key that no unit may have, if it is given a value.
fn refused_setting(
    alloc: Global,
    profile: Profile,
    assigned: &[Assigned<'_>],
) -> Result<Option<String>, AllocError>
    ensures { IfOk result (λ reason. option_map string_bytes reason ≡ model.refused_setting profile (map assigned_of assigned.now)) }
{
    for one in assigned {
        if is_refused(profile, one) {
            return Ok(Some(setting_reason(alloc, one.key)?));
        }
    }
    Ok(None)
}

/// Whether it has no command of `ExecStart=`, and doesn't remain with one of `ExecStop=`.
fn lacks_command(settings: &ServiceSettings) -> bool
    ensures { result ≡ tests.lacks_command (service_settings_of settings.now) }
{
    settings.start.is_empty() && !(settings.remains && !settings.stop.is_empty())
}

/// Whether a oneshot service has too few commands, or another doesn't have exactly one.
fn has_wrong_count(settings: &ServiceSettings) -> bool
    ensures { result ≡ tests.has_wrong_count settings.now.kind (service_settings_of settings.now) }
{
    match settings.kind {
        UnitKind::Oneshot => lacks_command(settings),
        _ => settings.start.len() != 1,
    }
}

/// Whether a oneshot service is to be started again after a success.
fn restarts_after_success(kind: UnitKind, policy: RestartPolicy) -> bool
    ensures { result ≡ tests.restarts_after_success kind policy }
{
    kind == UnitKind::Oneshot && matches!(policy, RestartPolicy::Always | RestartPolicy::OnSuccess)
}

/// Why a service can't be loaded, by its type, its commands and its restarts (systemd.service(5)).
fn refused_service(
    suffix: Suffix,
    said: TypeSaid,
    settings: &ServiceSettings,
) -> Option<&'static str>
    ensures { option_map (λ reason. reason.now) result ≡ tests.refused_service (Some suffix) (said_of said) (service_settings_of settings.now) }
{
    let Suffix::Service = suffix else {
        return None;
    };
    if said == TypeSaid::Unserved {
        Some("type")
    } else if has_wrong_count(settings) {
        Some("exec-count")
    } else if restarts_after_success(settings.kind, settings.restart) {
        Some("restart")
    } else {
        None
    }
}

/// The first reason why a unit with these settings, which were read by the profile, can't be loaded.
pub fn reason_of(
    alloc: Global,
    profile: Profile,
    suffix: Suffix,
    assigned: &[Assigned<'_>],
    settings: &ServiceSettings,
) -> Result<Option<String>, AllocError>
    ensures { IfOk result (λ reason. option_map string_bytes reason ≡ option_or (model.refused_setting profile (map assigned_of assigned.now))
        (tests.refused_service (Some suffix) (model.type_of (map assigned_of assigned.now)) (service_settings_of settings.now))) }
{
    if let Some(reason) = refused_setting(alloc, profile, assigned)? {
        return Ok(Some(reason));
    }
    match refused_service(suffix, type_of(alloc, assigned)?, settings) {
        Some(reason) => Ok(Some(String::from_str(alloc, reason)?)),
        None => Ok(None),
    }
}
