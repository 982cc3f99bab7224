//! The replies to commands and queries.

use std::rc::Rc;
use um_model::{ActiveState, Enabling, JobKind, JobState, LoadState, SubState, UnitState};
use um_name::UnitName;
use um_resolve::UnitFile;
use um_service::Action;
use um_unit::FileWarnings;
use um_wire::Refusal;

/// A unit as `show` reports it.
#[derive(Debug, Drop)]
pub struct UnitShown {
    /// The name that counts for the requested one, or the requested one itself if it leads nowhere.
    pub id: String,
    pub load: LoadState,
    /// Empty if the unit isn't loaded.
    pub description: String,
    /// None if the unit isn't loaded. They are the loaded unit's own.
    pub warnings: Rc<Vec<FileWarnings>>,
    pub state: UnitState,
}

/// A known unit as `list-units` reports it.
#[derive(Debug, Drop)]
pub struct UnitListed {
    pub unit: UnitName,
    pub sub: SubState,
}

/// A pending job as `list-jobs` reports it.
#[derive(Debug, Drop)]
pub struct JobShown {
    pub unit: UnitName,
    pub kind: JobKind,
    pub state: JobState,
}

/// The reply to a command or a query.
#[derive(Debug, Drop)]
pub enum Reply {
    Done,
    /// Boxed, since it is far larger than the others.
    Shown(Box<UnitShown>),
    /// The active state of a unit.
    Activity(ActiveState),
    /// The files of a unit, its own and then its drop-ins.
    Files(Vec<UnitFile>),
    /// The paths at which links were made, and those at which links were removed, each list ascending.
    Relinked {
        made: Vec<String>,
        removed: Vec<String>,
    },
    /// How a unit is enabled.
    EnabledAs(Enabling),
    /// The known units in the order of their names.
    Listed(Vec<UnitListed>),
    /// The pending jobs in the order of the names of their units, a unit's stop job first.
    Jobs(Vec<JobShown>),
    /// The actions since the last such reply.
    Told(Vec<Action>),
    Refused(Refusal),
}
