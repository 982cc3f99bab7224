//! The inputs: commands and happenings; and the queries.

ghost use Rattle.std.specs.Prelude.{◌≡◌};
ghost use Rattle.um_model.specs.Machine as model;
ghost use Rattle.um_model.specs.Profiles.{current};

use crate::boot::BootId;
use um_model::{End, InstallVerb, JobMode, Moment, Profile, UnitVerb};
use um_name::UnitName;

/// A command to the manager, which may be refused.
#[derive(Debug, Drop)]
pub enum Command {
    /// Put the text into the tree as the file at the path.
    PutFile {
        path: String,
        text: String,
    },
    /// Put a link to the target into the tree at the path.
    PutLink {
        path: String,
        target: String,
    },
    /// Remove the entry at the path in the tree.
    Remove {
        path: String,
    },
    /// Load the tree in hand (systemctl(1), `daemon-reload`).
    DaemonReload,
    /// Start the unit, stop it or restart it (systemctl(1), `start`, `stop`, `restart`, `try-restart`).
    ForUnit {
        verb: UnitVerb,
        unit: UnitName,
        mode: JobMode,
    },
    /// Drop the waiting jobs of the unit (systemctl(1), `cancel`).
    Cancel {
        unit: UnitName,
    },
    /// Forget that the unit failed, or that any unit did (systemctl(1), `reset-failed`).
    ResetFailed {
        unit: Option<UnitName>,
    },
    /// Enable the unit, disable, mask or unmask it (systemctl(1)), and load the resulting tree.
    Install {
        verb: InstallVerb,
        unit: UnitName,
    },
}

/// Something that happens to the manager, and is never refused.
#[derive(Debug, Drop)]
pub enum Happening {
    /// The process of this number ended. If no live process has the number, this has no effect and is no error.
    ProcessEnded { number: u64, end: End },
    /// The program of the process of this number runs. If no unit waits for that, this has no effect.
    ProcessExecuted { number: u64 },
    /// Time has passed.
    Tick,
    /// The machine was booted. If the state has this boot's id, this has no effect.
    Booted { boot: BootId },
}

/// A command or a happening.
#[derive(Debug, Drop)]
pub enum Event {
    Commanded(Command),
    Happened(Happening),
}

/// An event with its moment, and the profile by which the tree in hand is read for it.
#[derive(Debug, Drop)]
pub struct Input {
    pub(crate) profile: Profile,
    pub(crate) moment: Moment,
    pub(crate) event: Event,
}

impl Input {
    ghost use Rattle.um_state.specs.View.{input_of, event_of};

    /// The event at this moment, of the current profile; a moment before the clock counts as the clock.
    pub fn new(moment: Moment, event: Event) -> Input
        ensures { input_of result ≡ record { profile = current; moment = moment; event = event_of event } }
    {
        Input {
            profile: Profile::current(),
            moment,
            event,
        }
    }

    /// The profile by which the tree in hand is read for the input.
    pub fn profile(&self) -> Profile
        ensures { result ≡ (input_of self.now).profile }
    {
        self.profile
    }

    /// The moment of the input.
    pub fn moment(&self) -> Moment
        ensures { result ≡ (input_of self.now).moment }
    {
        self.moment
    }

    /// The input's command or happening.
    pub fn event(&self) -> &Event
        ensures { event_of result.now ≡ (input_of self.now).event }
    {
        &self.event
    }
}

/// A question to the manager, which changes nothing.
#[derive(Drop)]
pub enum Query {
    /// How a unit stands (systemctl(1), `show`).
    Show { unit: UnitName },
    /// Its active state (systemctl(1), `is-active`).
    IsActive { unit: UnitName },
    /// Its active state, to see whether it failed (systemctl(1), `is-failed`).
    IsFailed { unit: UnitName },
    /// Its files in the tree in hand (systemctl(1), `cat`).
    Cat { unit: UnitName },
    /// How it is enabled in the tree in hand (systemctl(1), `is-enabled`).
    IsEnabled { unit: UnitName },
    /// The known units (systemctl(1), `list-units`).
    ListUnits,
    /// The pending jobs (systemctl(1), `list-jobs`).
    ListJobs,
}
