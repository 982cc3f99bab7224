//! Lengths of time and restart policies, as settings give them.

ghost use Rattle.std.specs.Prelude.{◌≡◌};
ghost use Rattle.um_model.specs.Values.{restart_text};

use crate::time::Span;

/// A length of time, as a setting gives it (systemd.time(7)).
#[derive(Clone, Copy, Debug, PartialEq, Eq)]
pub enum TimeSpan {
    /// A number of microseconds.
    Micros(Span),
    /// It never ends.
    Infinite,
}

/// When a service is started again after its end (systemd.service(5), `Restart=`).
#[derive(Clone, Copy, Debug, PartialEq, Eq)]
pub enum RestartPolicy {
    No,
    Always,
    OnSuccess,
    OnFailure,
    OnAbnormal,
    OnAbort,
    OnWatchdog,
}

impl RestartPolicy {
    /// The word for the policy.
    pub fn text(self) -> &'static str
        ensures { result.now ≡ restart_text self }
    {
        match self {
            RestartPolicy::No => "no",
            RestartPolicy::Always => "always",
            RestartPolicy::OnSuccess => "on-success",
            RestartPolicy::OnFailure => "on-failure",
            RestartPolicy::OnAbnormal => "on-abnormal",
            RestartPolicy::OnAbort => "on-abort",
            RestartPolicy::OnWatchdog => "on-watchdog",
        }
    }
}
