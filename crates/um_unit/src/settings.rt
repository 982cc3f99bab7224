//! The settings of a unit's files.

ghost use Rattle.std.specs.Prelude.{◌≡◌, ◌∷◌, [], IfOk, map, string_bytes};
ghost use Rattle.um_model.specs.Names.{suffix_of};
ghost use Rattle.um_model.specs.Units as model;
ghost use Rattle.um_model.specs.declared.profile.Profile.TheVariants.{One};
ghost use Rattle.um_model.specs.declared.transition.UnitKind.TheVariants.{Target};
ghost use Rattle.um_model.specs.declared.units.ValueKind.TheVariants as kinds;
ghost use Rattle.um_unit.specs.Parts.{AreExits, AreTimes};
ghost use Rattle.um_unit.specs.ServiceView.{service_settings_of};
ghost use Rattle.um_unit.specs.Sources.{assigned_of};
ghost use Rattle.um_unit.specs.View.{dependencies_of, install_of, said_of, settings_of};
ghost use Rattle.um_words.specs.Commands.{commands_seen};

use crate::assignments::{Assigned, Key};
use crate::lists::{commands_of, environment_of, exits_in, install_names, units_named};
use crate::readings::NameUse;
use crate::service_settings::ServiceSettings;
use crate::singles::{Count, Delay, Instance, Policy, Text, Truth, TypeSaid, last_read, type_of};
use std::alloc::{AllocError, Global};
use std::rc::Rc;
use um_model::{Profile, RestartPolicy, Span, Suffix, UnitKind};
use um_name::UnitName;
use um_value::ExitSet;
use um_words::Command;

/// The other units that a unit names, each list in order (systemd.unit(5)).
#[derive(Debug)]
pub struct Dependencies {
    /// `After=`.
    pub after: Vec<String>,
    /// `Before=`.
    pub before: Vec<String>,
    /// `Wants=`.
    pub wants: Vec<String>,
    /// `Requires=`.
    pub required: Vec<String>,
    /// `BindsTo=`.
    pub binds_to: Vec<String>,
    /// `PartOf=`.
    pub part_of: Vec<String>,
    /// `Conflicts=`.
    pub conflicts: Vec<String>,
    /// `DefaultDependencies=`.
    pub default_dependencies: bool,
}

// One call for the prover, which takes a derived `Drop` apart at each exit.
impl Drop for Dependencies {
    fn drop(self) {
        let Dependencies {
            after: _after,
            before: _before,
            wants: _wants,
            required: _required,
            binds_to: _binds_to,
            part_of: _part_of,
            conflicts: _conflicts,
            default_dependencies: _,
        } = self;
    }
}

/// The links that enabling a unit makes (systemd.unit(5), "[Install] Section Options").
#[derive(Debug)]
pub struct InstallSettings {
    /// `Alias=`.
    pub alias: Vec<String>,
    /// `WantedBy=`.
    pub wanted_by: Vec<String>,
    /// `RequiredBy=`.
    pub required_by: Vec<String>,
    /// `Also=`.
    pub also: Vec<String>,
    /// `DefaultInstance=`.
    pub default_instance: Option<String>,
}

// One call for the prover, which takes a derived `Drop` apart at each exit.
impl Drop for InstallSettings {
    fn drop(self) {
        let InstallSettings {
            alias: _alias,
            wanted_by: _wanted_by,
            required_by: _required_by,
            also: _also,
            default_instance: _default_instance,
        } = self;
    }
}

/// The settings of a unit's files.
#[derive(Debug)]
pub struct Settings {
    /// The text for people, empty if none is given (systemd.unit(5), `Description=`).
    pub description: String,
    /// The other units that it names.
    pub dependencies: Dependencies,
    /// The settings of its processes, its restarts and its start limit; a target has only the limit. The start actions of its commands
    /// share it.
    pub service: Rc<ServiceSettings>,
    /// The links that enabling it makes.
    pub install: InstallSettings,
}

// One call for the prover, which takes a derived `Drop` apart at each exit.
impl Drop for Settings {
    fn drop(self) {
        let Settings {
            description: _description,
            dependencies: _dependencies,
            service: _service,
            install: _install,
        } = self;
    }
}

impl InstallSettings {
    /// The settings of a unit for which enabling makes no link.
    pub fn nothing(alloc: Global) -> InstallSettings
        ensures { install_of result ≡ model.nothing_installed }
    {
        InstallSettings {
            alias: Vec::new(alloc),
            wanted_by: Vec::new(alloc),
            required_by: Vec::new(alloc),
            also: Vec::new(alloc),
            default_instance: None,
        }
    }
}

/// The last truth value of the key, or else the default.
fn last_truth(
    alloc: Global,
    assigned: &[Assigned<'_>],
    key: Key<'_>,
    default: bool,
) -> Result<bool, AllocError>
    ensures { IfOk result (λ last. last ≡ model.last_said [] kinds.Truth default ((key.entry.0.now, key.entry.1.now) ∷ []) (map assigned_of assigned.now)) }
{
    last_read(alloc, &Truth, assigned, &[key], default)
}

/// The last time span of the keys, or else the default.
fn last_span(
    alloc: Global,
    assigned: &[Assigned<'_>],
    keys: &[Key<'_>],
    default: Option<Span>,
) -> Result<Option<Span>, AllocError>
    ensures { IfOk result (λ last. last ≡ model.last_said [] kinds.Span default (map (λ k. (k.0.now, k.1.now)) keys.now) (map assigned_of assigned.now)) }
{
    last_read(alloc, &Delay, assigned, keys, default)
}

/// The units that two settings of `[Unit]` name.
fn two_named(
    alloc: Global,
    unit: &UnitName,
    assigned: &[Assigned<'_>],
    first: &str,
    second: &str,
) -> Result<(Vec<String>, Vec<String>), AllocError>
    ensures first { IfOk result (λ named. map string_bytes named.0.items ≡ model.units_named first.now unit.now (map assigned_of assigned.now)) }
    ensures second { IfOk result (λ named. map string_bytes named.1.items ≡ model.units_named second.now unit.now (map assigned_of assigned.now)) }
{
    let by_first = units_named(alloc, unit, assigned, ("Unit", first))?;
    let by_second = units_named(alloc, unit, assigned, ("Unit", second))?;
    Ok((by_first, by_second))
}

#[tactic(auto, unfolding(um_model::specs::Units::dependencies_of))]
fn dependencies_of(
    alloc: Global,
    unit: &UnitName,
    assigned: &[Assigned<'_>],
) -> Result<Dependencies, AllocError>
    ensures { IfOk result (λ d. dependencies_of d ≡ model.dependencies_of unit.now (map assigned_of assigned.now)) }
{
    let default_dependencies = last_truth(alloc, assigned, ("Unit", "DefaultDependencies"), true)?;
    let (after, before) = two_named(alloc, unit, assigned, "After", "Before")?;
    let (wants, required) = two_named(alloc, unit, assigned, "Wants", "Requires")?;
    let (binds_to, part_of) = two_named(alloc, unit, assigned, "BindsTo", "PartOf")?;
    let conflicts = units_named(alloc, unit, assigned, ("Unit", "Conflicts"))?;
    Ok(Dependencies {
        after,
        before,
        wants,
        required,
        binds_to,
        part_of,
        conflicts,
        default_dependencies,
    })
}

#[tactic(auto, unfolding(um_model::specs::Units::install_settings_of))]
fn install_settings_of(
    alloc: Global,
    unit: &UnitName,
    assigned: &[Assigned<'_>],
) -> Result<InstallSettings, AllocError>
    ensures { IfOk result (λ i. install_of i ≡ model.install_settings_of unit.now (map assigned_of assigned.now)) }
{
    let default_instance = last_read(
        alloc,
        &Instance { alloc },
        assigned,
        &[("Install", "DefaultInstance")],
        None,
    )?;
    let alias = install_names(alloc, NameUse::Aliases, unit, assigned, "Alias")?;
    let wanted_by = install_names(alloc, NameUse::Units, unit, assigned, "WantedBy")?;
    let required_by = install_names(alloc, NameUse::Units, unit, assigned, "RequiredBy")?;
    let also = units_named(alloc, unit, assigned, ("Install", "Also"))?;
    Ok(InstallSettings {
        alias,
        wanted_by,
        required_by,
        also,
        default_instance,
    })
}

/// The kind of a service by its type: without a type, simple with a command and oneshot without (systemd.service(5), `Type=`).
fn kind_by(said: TypeSaid, start: &[Command]) -> UnitKind
    ensures { result ≡ model.kind_by (said_of said) (commands_seen start.now) }
{
    match said {
        TypeSaid::Served(kind) => kind,
        TypeSaid::Unsaid if start.is_empty() => UnitKind::Oneshot,
        TypeSaid::Unsaid | TypeSaid::Unserved => UnitKind::Simple,
    }
}

/// A oneshot service may start as long as it likes, any other 90 seconds.
pub(crate) fn default_timeout_start(kind: UnitKind) -> Option<Span>
    ensures { result ≡ model.default_timeout_start kind }
{
    match kind {
        UnitKind::Oneshot => None,
        _ => Some(Span::from_micros(90_000_000)),
    }
}

/// A time-out of 0 never passes.
fn unless_zero(span: Option<Span>) -> Option<Span>
    ensures { result ≡ model.unless_zero span }
{
    match span {
        Some(span) if span.micros() == 0 => None,
        other => other,
    }
}

fn restart_delay_of(alloc: Global, assigned: &[Assigned<'_>]) -> Result<Option<Span>, AllocError>
    ensures { IfOk result (λ span. span ≡ (model.service_settings_with [] [] Target [] (map assigned_of assigned.now)).restart_delay) }
{
    let default = Some(Span::from_micros(100_000));
    last_span(alloc, assigned, &[("Service", "RestartSec")], default)
}

fn timeout_start_of(
    alloc: Global,
    kind: UnitKind,
    assigned: &[Assigned<'_>],
) -> Result<Option<Span>, AllocError>
    ensures { IfOk result (λ span. span ≡ (model.service_settings_with [] [] kind [] (map assigned_of assigned.now)).timeout_start) }
{
    let keys = [("Service", "TimeoutStartSec"), ("Service", "TimeoutSec")];
    let said = last_span(alloc, assigned, &keys, default_timeout_start(kind))?;
    Ok(unless_zero(said))
}

fn timeout_stop_of(alloc: Global, assigned: &[Assigned<'_>]) -> Result<Option<Span>, AllocError>
    ensures { IfOk result (λ span. span ≡ (model.service_settings_with [] [] Target [] (map assigned_of assigned.now)).timeout_stop) }
{
    let keys = [("Service", "TimeoutStopSec"), ("Service", "TimeoutSec")];
    let default = Some(Span::from_micros(90_000_000));
    let said = last_span(alloc, assigned, &keys, default)?;
    Ok(unless_zero(said))
}

fn limit_interval_of(alloc: Global, assigned: &[Assigned<'_>]) -> Result<Option<Span>, AllocError>
    ensures { IfOk result (λ span. span ≡ (model.service_settings_with [] [] Target [] (map assigned_of assigned.now)).limit_interval) }
{
    let keys = [
        ("Unit", "StartLimitIntervalSec"),
        ("Service", "StartLimitInterval"),
    ];
    last_span(alloc, assigned, &keys, Some(Span::from_micros(10_000_000)))
}

fn limit_burst_of(alloc: Global, assigned: &[Assigned<'_>]) -> Result<u32, AllocError>
    ensures { IfOk result (λ burst. burst ≡ (model.service_settings_with [] [] Target [] (map assigned_of assigned.now)).limit_burst) }
{
    let keys = [("Unit", "StartLimitBurst"), ("Service", "StartLimitBurst")];
    last_read(alloc, &Count, assigned, &keys, 5)
}

fn restart_of(alloc: Global, assigned: &[Assigned<'_>]) -> Result<RestartPolicy, AllocError>
    ensures { IfOk result (λ policy. policy ≡ (model.service_settings_with [] [] Target [] (map assigned_of assigned.now)).restart) }
{
    last_read(
        alloc,
        &Policy,
        assigned,
        &[("Service", "Restart")],
        RestartPolicy::No,
    )
}

/// How long a unit takes and waits.
#[derive(Clone, Copy)]
struct Times {
    restart_delay: Option<Span>,
    timeout_start: Option<Span>,
    timeout_stop: Option<Span>,
    limit_interval: Option<Span>,
}

fn times_of(alloc: Global, kind: UnitKind, assigned: &[Assigned<'_>]) -> Result<Times, AllocError>
    ensures { IfOk result (λ times. AreTimes times (model.service_settings_with [] [] kind [] (map assigned_of assigned.now))) }
{
    Ok(Times {
        restart_delay: restart_delay_of(alloc, assigned)?,
        timeout_start: timeout_start_of(alloc, kind, assigned)?,
        timeout_stop: timeout_stop_of(alloc, assigned)?,
        limit_interval: limit_interval_of(alloc, assigned)?,
    })
}

/// The sets of ends of the main process that the settings name.
#[derive(Clone, Copy)]
struct Exits {
    success: ExitSet,
    prevents_restart: ExitSet,
    forces_restart: ExitSet,
}

fn exits_of(alloc: Global, assigned: &[Assigned<'_>]) -> Result<Exits, AllocError>
    ensures { IfOk result (λ exits. AreExits exits (model.service_settings_with [] [] Target [] (map assigned_of assigned.now))) }
{
    Ok(Exits {
        success: exits_in(alloc, assigned, "SuccessExitStatus")?,
        prevents_restart: exits_in(alloc, assigned, "RestartPreventExitStatus")?,
        forces_restart: exits_in(alloc, assigned, "RestartForceExitStatus")?,
    })
}

/// The settings of a service of this kind with these commands.
fn service_settings_with(
    alloc: Global,
    start_pre: Vec<Command>,
    start: Vec<Command>,
    kind: UnitKind,
    unit: &UnitName,
    assigned: &[Assigned<'_>],
) -> Result<ServiceSettings, AllocError>
    ensures { IfOk result (λ s. service_settings_of s ≡ model.service_settings_with (commands_seen start_pre.items) (commands_seen start.items) kind unit.now (map assigned_of assigned.now)) }
{
    let times = times_of(alloc, kind, assigned)?;
    let exits = exits_of(alloc, assigned)?;
    let remains = last_truth(alloc, assigned, ("Service", "RemainAfterExit"), false)?;
    let restart = restart_of(alloc, assigned)?;
    let limit_burst = limit_burst_of(alloc, assigned)?;
    let environment = environment_of(alloc, unit, assigned)?;
    let stop = commands_of(alloc, unit, assigned, "ExecStop")?;
    Ok(ServiceSettings {
        kind,
        start_pre,
        start,
        stop,
        environment,
        remains,
        restart,
        restart_delay: times.restart_delay,
        timeout_start: times.timeout_start,
        timeout_stop: times.timeout_stop,
        limit_interval: times.limit_interval,
        limit_burst,
        success: exits.success,
        prevents_restart: exits.prevents_restart,
        forces_restart: exits.forces_restart,
    })
}

/// The commands of `ExecStartPre=`, if the profile serves it.
fn start_pre_of(
    alloc: Global,
    profile: Profile,
    unit: &UnitName,
    assigned: &[Assigned<'_>],
) -> Result<Vec<Command>, AllocError>
    ensures { IfOk result (λ commands. commands_seen commands.items ≡ model.start_pre_of profile unit.now (map assigned_of assigned.now)) }
{
    if profile.serves_start_pre() {
        commands_of(alloc, unit, assigned, "ExecStartPre")
    } else {
        Ok(Vec::new(alloc))
    }
}

/// The settings of a unit's processes by its files. A unit that isn't a service has none, and may set only the start limit.
#[tactic(auto, unfolding(um_model::specs::Units::service_settings_of))]
fn service_settings_of(
    alloc: Global,
    profile: Profile,
    unit: &UnitName,
    assigned: &[Assigned<'_>],
) -> Result<ServiceSettings, AllocError>
    ensures { IfOk result (λ s. service_settings_of s ≡ model.service_settings_of profile (suffix_of unit.now) unit.now (map assigned_of assigned.now)) }
{
    let Suffix::Service = unit.suffix() else {
        return service_settings_with(
            alloc,
            Vec::new(alloc),
            Vec::new(alloc),
            UnitKind::Target,
            unit,
            assigned,
        );
    };
    let start = commands_of(alloc, unit, assigned, "ExecStart")?;
    let kind = kind_by(type_of(alloc, assigned)?, start.as_slice());
    let start_pre = start_pre_of(alloc, profile, unit, assigned)?;
    service_settings_with(alloc, start_pre, start, kind, unit, assigned)
}

fn description_of(
    alloc: Global,
    unit: &UnitName,
    assigned: &[Assigned<'_>],
) -> Result<String, AllocError>
    ensures { IfOk result (λ text. string_bytes text ≡ (model.settings_of One unit.now (map assigned_of assigned.now)).description) }
{
    last_read(
        alloc,
        &Text { alloc, unit },
        assigned,
        &[("Unit", "Description")],
        String::new(alloc),
    )
}

/// The settings of a unit by its assignments, read by the profile.
pub fn settings_of(
    alloc: Global,
    profile: Profile,
    unit: &UnitName,
    assigned: &[Assigned<'_>],
) -> Result<Settings, AllocError>
    ensures { IfOk result (λ s. settings_of s ≡ model.settings_of profile unit.now (map assigned_of assigned.now)) }
{
    let service = Rc::new(alloc, service_settings_of(alloc, profile, unit, assigned)?)?;
    let description = description_of(alloc, unit, assigned)?;
    let install = install_settings_of(alloc, unit, assigned)?;
    let dependencies = dependencies_of(alloc, unit, assigned)?;
    Ok(Settings {
        description,
        dependencies,
        service,
        install,
    })
}
