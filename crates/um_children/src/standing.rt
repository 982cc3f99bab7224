//! How a number stands by the files of its runner.

ghost use Rattle.std.specs.Prelude.{◌≡◌, false};
ghost use Rattle.um_children.specs.History.{is_absent};
ghost use Rattle.um_children.specs.Standings.{by_pid, claimed, fate_of, is_final, is_settled, stronger, waits_for_runner};

use um_model::{End, Fate, Signal};
use um_runner::{Claimant, Claiming, Told};

/// How a number stands.
#[derive(Clone, Copy, Debug, PartialEq, Eq)]
pub enum Standing {
    /// No file says anything.
    Silent,
    /// A runner has claimed it, and hasn't reported more.
    Taken,
    /// Its program was executed, under this pid; none if the pid file names none, and no signal can reach it.
    Running(Option<u32>),
    Ended(End),
    /// The manager has claimed it: it never starts.
    Barred,
}

/// The facts known of a number.
#[derive(Clone, Copy, Debug, PartialEq, Eq)]
pub struct Known {
    pub standing: Standing,
    /// A signal that waits for the pid.
    pub kept: Option<Signal>,
    /// How often the folder had changed when its files were read; None where they weren't.
    pub changes: Option<u64>,
}

impl Known {
    /// The facts known of a number that was never queried.
    pub fn nothing() -> Known
        ensures standing { result.standing ≡ Standing.Silent }
        ensures kept { result.kept ≡ None }
        ensures changes { result.changes ≡ None }
    {
        Known {
            standing: Standing::Silent,
            kept: None,
            changes: None,
        }
    }

    /// Whether nothing but a file can change its fate, or the next step for it: it runs, and no signal waits.
    pub fn is_settled(self) -> bool
        ensures { result ≡ is_settled self.standing self.kept }
    {
        matches!(self.standing, Standing::Running(_)) && self.kept.is_none()
    }

    /// Whether all that can change its fate, or what is done for it, is a file that its runner is to make, and wakes
    /// the manager for: it hasn't ended, nor has the manager claimed it, and no signal waits.
    pub fn waits_for_runner(self) -> bool
        ensures { result ≡ waits_for_runner self.standing self.kept }
    {
        !self.standing.is_final() && self.kept.is_none()
    }
}

impl Standing {
    /// How a number stands after the manager tried to claim it.
    pub fn claimed(claiming: Claiming) -> Standing
        ensures { result ≡ claimed claiming }
    {
        match claiming {
            Claiming::New | Claiming::Stands(Claimant::Manager) => Standing::Barred,
            Claiming::Stands(Claimant::Runner) => Standing::Taken,
        }
    }

    /// How it stands by its pid file, where it hasn't ended.
    pub fn by_pid(self, told: Told) -> Standing
        ensures { result ≡ by_pid told self }
    {
        match told {
            Told::Pid(pid) => Standing::Running(Some(pid)),
            Told::NoPid => Standing::Running(None),
            Told::Nothing => self,
        }
    }

    /// The fate that is reported of a number that stands so.
    pub fn fate(self, claim: bool) -> Fate
        ensures { result ≡ fate_of self claim }
    {
        match self {
            Standing::Silent | Standing::Taken => Fate::Starting,
            Standing::Running(_) => Fate::Executed,
            Standing::Ended(end) => Fate::Ended(end),
            Standing::Barred => if claim { Fate::Absent } else { Fate::Starting },
        }
    }

    /// Whether no file can change it any more.
    pub fn is_final(self) -> bool
        ensures { result ≡ is_final self }
    {
        match self {
            Standing::Ended(_) | Standing::Barred => true,
            Standing::Silent | Standing::Taken | Standing::Running(_) => false,
        }
    }
}

/// Of a signal that is kept and another one the stronger.
pub fn stronger(kept: Option<Signal>, signal: Signal) -> Signal
    ensures { result ≡ stronger kept signal }
{
    match kept {
        Some(Signal::Kill) => Signal::Kill,
        Some(Signal::Term) | None => signal,
    }
}
