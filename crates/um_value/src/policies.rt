//! Restart policies.

ghost use Rattle.std.specs.Prelude.{◌≡◌};
ghost use Rattle.um_model.specs.Values.{policy_named};

use um_model::RestartPolicy;

const POLICIES: [RestartPolicy; 7] = [
    RestartPolicy::No,
    RestartPolicy::Always,
    RestartPolicy::OnSuccess,
    RestartPolicy::OnFailure,
    RestartPolicy::OnAbnormal,
    RestartPolicy::OnAbort,
    RestartPolicy::OnWatchdog,
];

/// The policy of that name: `no always on-success on-failure on-abnormal on-abort on-watchdog` (systemd.service(5),
/// `Restart=`). `None` for any other text.
pub fn restart(text: &str) -> Option<RestartPolicy>
    ensures { result ≡ policy_named text.now }
{
    POLICIES
        .iter()
        .copied()
        .find(|policy| text == policy.text())
}
