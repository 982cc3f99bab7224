//! The events of the service table, and the changes that follow from them.

use crate::processes::NextNumber;
use crate::service::{End, Signal, UnitState};
use crate::time::Moment;

/// The kind of a unit in the service table: a target, or a service of one of the types (systemd.service(5), `Type=`).
#[derive(Clone, Copy, Debug, PartialEq, Eq)]
pub enum UnitKind {
    Simple,
    Exec,
    Oneshot,
    Target,
}

/// One of a unit's processes.
#[derive(Clone, Copy, Debug, PartialEq, Eq)]
pub enum Process {
    Main,
    Control,
}

/// One of a unit's lists of commands (systemd.service(5), `ExecStartPre=`, `ExecStart=` and `ExecStop=`).
#[derive(Clone, Copy, Debug, PartialEq, Eq)]
pub enum CommandList {
    OfStartPre,
    OfStart,
    OfStop,
}

/// An event of a unit.
#[derive(Clone, Copy, Debug, PartialEq, Eq)]
pub enum UnitEvent {
    /// A job that starts it begins.
    StartBegins,
    /// A job that stops it begins.
    StopBegins,
    /// A unit that it is bound to is down.
    BoundStop,
    /// The program of its main process runs.
    Executed,
    /// Its main process ended.
    MainEnds(End),
    /// Its control process ended.
    ControlEnds(End),
    /// The moment of its deadline has come.
    DeadlinePasses,
    /// Its failure is to be forgotten (systemctl(1), "reset-failed").
    Reset,
}

/// The surroundings of a unit at an event.
#[derive(Clone, Copy, Debug, PartialEq, Eq)]
pub struct Around {
    /// The moment of the event.
    pub moment: Moment,
    /// The next process number.
    pub next: NextNumber,
    /// Whether the unit can be started: it is found, has no refused setting and is no template.
    pub loadable: bool,
    /// Whether a job that stops the unit waits.
    pub stop_waits: bool,
}

/// An order for the unit's processes: nothing, to start one, or a signal to each live one.
#[derive(Clone, Copy, Debug, PartialEq, Eq)]
pub enum Order {
    Nothing,
    /// The command of this list at this place, from 0, is started under the next number.
    Spawn(CommandList, u32),
    Signal(Signal),
}

/// The change of the unit's running start job, if there is one.
#[derive(Clone, Copy, Debug, PartialEq, Eq)]
pub enum StartJob {
    Stays,
    Ends,
    Fails,
}

/// The change of a unit by an event.
#[derive(Clone, Copy, Debug, PartialEq, Eq)]
pub struct Change {
    /// The unit from now on.
    pub unit: UnitState,
    pub order: Order,
    pub start: StartJob,
    /// Whether the unit's running stop job ends, if there is one.
    pub stop_ends: bool,
}
