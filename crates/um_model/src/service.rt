//! The state of one unit, with its sub state, its result and its processes.

ghost use Rattle.std.specs.Prelude.{◌≡◌, ◌||◌, ◌&&◌, ◌==◌, not, is_none};
ghost use Rattle.um_model.specs.Ends.{waits_for_report};
ghost use Rattle.um_model.specs.Service.{holds_nothing, sub_state_text, active_state_of, active_state_text, result_text, is_number};

use crate::limit::Counted;
use crate::processes::ProcessNumber;
use crate::time::Deadline;

/// How far a unit has come (systemd.service(5); `systemctl show -p SubState`).
#[derive(Clone, Copy, Debug, PartialEq, Eq)]
pub enum SubState {
    Dead,
    StartPre,
    Start,
    Running,
    Exited,
    Stop,
    StopSigterm,
    StopSigkill,
    Failed,
    AutoRestart,
    Active,
}

/// The state of a unit as all types of units have it (systemctl(1)).
#[derive(Clone, Copy, Debug, PartialEq, Eq)]
pub enum ActiveState {
    Inactive,
    Activating,
    Active,
    Deactivating,
    Failed,
}

/// The result of a unit: why it isn't as its start would have it.
#[derive(Clone, Copy, Debug, PartialEq, Eq)]
pub enum UnitResult {
    Success,
    ExitCode,
    Signal,
    Timeout,
    Lost,
    StartLimitHit,
    Dependency,
    NotLoaded,
    Resources,
}

/// How a process ended.
#[derive(Clone, Copy, Debug, PartialEq, Eq)]
pub enum End {
    /// It exited with this code.
    Code(u8),
    /// A signal of this number ended it; 0 if the number isn't known.
    Signal(u8),
    /// It isn't known how, or whether it ever ran.
    Lost,
}

/// A signal that is sent to a process.
#[derive(Clone, Copy, Debug, PartialEq, Eq)]
pub enum Signal {
    Term,
    Kill,
}

/// Whether a process is there and has the number.
fn is_number(number: u64, process: Option<ProcessNumber>) -> bool
    ensures { result ≡ is_number number process }
{
    match process {
        Some(process) => process.get() == number,
        None => false,
    }
}

/// The state of one unit.
#[derive(Clone, Copy, Debug, PartialEq, Eq)]
pub struct UnitState {
    pub sub: SubState,
    pub result: UnitResult,
    /// The process number of the main process while it is live.
    pub main: Option<ProcessNumber>,
    /// The process number of the control process while it is live.
    pub control: Option<ProcessNumber>,
    /// The place of the command under way in its list.
    pub index: u32,
    /// The moment at which the unit's time-out or restart is due.
    pub deadline: Option<Deadline>,
    pub window: Option<Counted>,
    /// Whether a stop was requested.
    pub stop_asked: bool,
    /// How the main process last ended.
    pub last: Option<End>,
}

impl UnitState {
    /// A unit of which the state holds nothing.
    pub const DEAD: UnitState = UnitState {
        sub: SubState::Dead,
        result: UnitResult::Success,
        main: None,
        control: None,
        index: 0,
        deadline: None,
        window: None,
        stop_asked: false,
        last: None,
    };

    /// Whether a live process of the unit has the number.
    pub fn has_number(&self, number: u64) -> bool
        ensures { result ≡ (is_number number self.now.main || is_number number self.now.control) }
    {
        is_number(number, self.main) || is_number(number, self.control)
    }

    /// Whether it is a dead unit of which nothing is known, so that the state needn't hold it.
    pub fn holds_nothing(&self) -> bool
        ensures { result ≡ holds_nothing self.now }
    {
        *self == UnitState::DEAD
    }
}

impl SubState {
    /// The word for the sub state.
    pub fn text(self) -> &'static str
        ensures { result.now ≡ sub_state_text self }
    {
        match self {
            SubState::Dead => "dead",
            SubState::StartPre => "start-pre",
            SubState::Start => "start",
            SubState::Running => "running",
            SubState::Exited => "exited",
            SubState::Stop => "stop",
            SubState::StopSigterm => "stop-sigterm",
            SubState::StopSigkill => "stop-sigkill",
            SubState::Failed => "failed",
            SubState::AutoRestart => "auto-restart",
            SubState::Active => "active",
        }
    }

    /// Whether a unit that has come so far waits for the report that the program of its main process runs.
    pub fn waits_for_report(self) -> bool
        ensures { result ≡ waits_for_report self }
    {
        matches!(self, SubState::Start)
    }

    /// The active state of a unit that has come so far.
    pub fn active_state(self) -> ActiveState
        ensures { result ≡ active_state_of self }
    {
        match self {
            SubState::Dead => ActiveState::Inactive,
            SubState::StartPre | SubState::Start | SubState::AutoRestart => ActiveState::Activating,
            SubState::Running | SubState::Exited | SubState::Active => ActiveState::Active,
            SubState::Stop | SubState::StopSigterm | SubState::StopSigkill =>
                ActiveState::Deactivating,
            SubState::Failed => ActiveState::Failed,
        }
    }
}

impl ActiveState {
    /// The word for the active state.
    pub fn text(self) -> &'static str
        ensures { result.now ≡ active_state_text self }
    {
        match self {
            ActiveState::Inactive => "inactive",
            ActiveState::Activating => "activating",
            ActiveState::Active => "active",
            ActiveState::Deactivating => "deactivating",
            ActiveState::Failed => "failed",
        }
    }
}

impl UnitResult {
    /// The word for the result.
    pub fn text(self) -> &'static str
        ensures { result.now ≡ result_text self }
    {
        match self {
            UnitResult::Success => "success",
            UnitResult::ExitCode => "exit-code",
            UnitResult::Signal => "signal",
            UnitResult::Timeout => "timeout",
            UnitResult::Lost => "lost",
            UnitResult::StartLimitHit => "start-limit-hit",
            UnitResult::Dependency => "dependency",
            UnitResult::NotLoaded => "not-loaded",
            UnitResult::Resources => "resources",
        }
    }
}
