//! The settings of a service.

ghost use Rattle.std.specs.Prelude.{◌≡◌};
ghost use Rattle.um_model.specs.Settings.{default_settings};
ghost use Rattle.um_unit.specs.ServiceView.{service_settings_of};

use crate::settings::default_timeout_start;
use std::alloc::Global;
use um_model::{RestartPolicy, Span, UnitKind};
use um_value::ExitSet;
use um_words::{Command, Variable};

/// The settings of a unit's processes, its restarts and its start limit (systemd.service(5); for the limit systemd.unit(5)). A span of None
/// never ends.
#[derive(Debug)]
pub struct ServiceSettings {
    pub kind: UnitKind,
    /// `ExecStartPre=`, its commands in order.
    pub start_pre: Vec<Command>,
    /// `ExecStart=`, its commands in order.
    pub start: Vec<Command>,
    /// `ExecStop=`, its commands in order.
    pub stop: Vec<Command>,
    /// `Environment=`: of equal names the later counts.
    pub environment: Vec<Variable>,
    /// `RemainAfterExit=`.
    pub remains: bool,
    /// `Restart=`.
    pub restart: RestartPolicy,
    /// `RestartSec=`.
    pub restart_delay: Option<Span>,
    /// `TimeoutStartSec=`.
    pub timeout_start: Option<Span>,
    /// `TimeoutStopSec=`.
    pub timeout_stop: Option<Span>,
    /// `StartLimitIntervalSec=`.
    pub limit_interval: Option<Span>,
    /// `StartLimitBurst=`.
    pub limit_burst: u32,
    /// `SuccessExitStatus=`.
    pub success: ExitSet,
    /// `RestartPreventExitStatus=`.
    pub prevents_restart: ExitSet,
    /// `RestartForceExitStatus=`.
    pub forces_restart: ExitSet,
}

// One call for the prover, which takes a derived `Drop` apart at each exit.
impl Drop for ServiceSettings {
    fn drop(self) {
        let ServiceSettings {
            kind: _,
            start_pre: _start_pre,
            start: _start,
            stop: _stop,
            environment: _environment,
            remains: _,
            restart: _,
            restart_delay: _,
            timeout_start: _,
            timeout_stop: _,
            limit_interval: _,
            limit_burst: _,
            success: _success,
            prevents_restart: _prevents_restart,
            forces_restart: _forces_restart,
        } = self;
    }
}

impl ServiceSettings {
    /// The settings of a unit of this kind that sets nothing: no commands, no restart, time-outs of 90 seconds (a oneshot may take any time
    /// to start), and five starts in ten seconds. It takes no memory.
    pub fn new(alloc: Global, kind: UnitKind) -> ServiceSettings
        ensures { service_settings_of result ≡ default_settings kind }
    {
        ServiceSettings {
            kind,
            start_pre: Vec::new(alloc),
            start: Vec::new(alloc),
            stop: Vec::new(alloc),
            environment: Vec::new(alloc),
            remains: false,
            restart: RestartPolicy::No,
            restart_delay: Some(Span::from_micros(100_000)),
            timeout_start: default_timeout_start(kind),
            timeout_stop: Some(Span::from_micros(90_000_000)),
            limit_interval: Some(Span::from_micros(10_000_000)),
            limit_burst: 5,
            success: ExitSet::empty(),
            prevents_restart: ExitSet::empty(),
            forces_restart: ExitSet::empty(),
        }
    }
}
