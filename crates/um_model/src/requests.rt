//! The verbs of requests, and where requests come from.

/// Where requests come from: over standard input, where they may give a moment, or over a socket.
#[derive(Clone, Copy, Debug, PartialEq, Eq)]
pub enum Mode {
    Memory,
    Service,
}

/// The verb of a request (systemctl(1)).
#[derive(Clone, Copy, Debug, PartialEq, Eq)]
pub enum Verb {
    PutFile,
    PutLink,
    Remove,
    DaemonReload,
    Start,
    Stop,
    Restart,
    TryRestart,
    Cancel,
    ResetFailed,
    Enable,
    Disable,
    Mask,
    Unmask,
    Show,
    IsActive,
    IsFailed,
    IsEnabled,
    Cat,
    ListUnits,
    ListJobs,
    Tick,
    End,
    Executed,
    Actions,
}
