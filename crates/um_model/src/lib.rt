//! The model of the service manager, which every reader has to believe: the definitions in `specs/`, and the plain types that code
//! and definitions share.
#![tactic(auto)]

mod children;
mod commands;
mod dependencies;
mod frames;
mod install;
mod jobs;
mod layout;
mod limit;
mod names;
mod processes;
mod profile;
mod refusals;
mod requests;
mod service;
mod settings;
mod time;
mod transition;
mod tree;
mod units;
mod warnings;
mod words;

pub use children::Fate;
pub use commands::{JobMode, UnitVerb};
pub use dependencies::{Demand, DependencyKind};
pub use frames::Ending;
pub use install::{Enabling, InstallVerb};
pub use jobs::{JobKind, JobState, UnitJobs};
pub use layout::{CURRENT, Format, Layout, SECTOR_BYTES, Slot};
pub use limit::Counted;
pub use names::Suffix;
pub use processes::{NextNumber, ProcessNumber};
pub use profile::Profile;
pub use refusals::Limit;
pub use requests::{Mode, Verb};
pub use service::{ActiveState, End, Signal, SubState, UnitResult, UnitState};
pub use settings::{RestartPolicy, TimeSpan};
pub use time::{Deadline, Moment, Span};
pub use transition::{Around, Change, CommandList, Order, Process, StartJob, UnitEvent, UnitKind};
pub use tree::Layer;
pub use units::{LoadState, ValueKind};
pub use warnings::WarningKind;
pub use words::WordRules;
