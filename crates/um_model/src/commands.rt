//! The commands for a unit, and their job modes.

/// The verb of a command for a unit (systemctl(1)).
#[derive(Clone, Copy, Debug, PartialEq, Eq)]
pub enum UnitVerb {
    Start,
    Stop,
    /// Stop it if it is up, and start it.
    Restart,
    /// The same if the unit is active; else nothing.
    TryRestart,
}

/// The treatment of pending jobs that stand in a command's way (systemctl(1), `--job-mode=`).
#[derive(Clone, Copy, Debug, PartialEq, Eq)]
pub enum JobMode {
    /// They are dropped.
    Replace,
    /// The command is refused.
    Fail,
}
