//! The files by which a runner reports on a process to the manager.

ghost use Rattle.std.specs.Prelude.{◌≡◌};
ghost use Rattle.um_runner.specs.Runner.{claim_text, ending_of};

/// Who has claimed a process number: the one whose claim was there first.
#[derive(Clone, Copy, Debug, PartialEq, Eq)]
pub enum Claimant {
    /// The manager: the process is never started.
    Manager,
    /// A runner, which starts it.
    Runner,
}

impl Claimant {
    /// The text of the claim.
    pub fn text(self) -> &'static str
        ensures { result.now ≡ claim_text self }
    {
        match self {
            Claimant::Manager => "manager\n",
            Claimant::Runner => "runner\n",
        }
    }
}

/// A file of a process number in the manager's folder. A draft becomes the file that it is a draft of, whole, in one step.
#[derive(Clone, Copy, Debug, PartialEq, Eq)]
pub enum RunnerFile {
    /// Who has claimed the number.
    Claim,
    /// The pid of the process.
    Pid,
    /// How the process ended.
    Status,
    /// The draft of a manager's claim.
    ManagerDraft,
    /// The draft of a runner's claim.
    RunnerDraft,
    PidDraft,
    StatusDraft,
    /// The entries that the manager hands a runner over.
    Entries,
}

impl RunnerFile {
    /// The part of the file's name after the number.
    pub fn ending(self) -> &'static str
        ensures { result.now ≡ ending_of self }
    {
        match self {
            RunnerFile::Claim => ".claim",
            RunnerFile::Pid => ".pid",
            RunnerFile::Status => ".status",
            RunnerFile::ManagerDraft => ".claim.manager",
            RunnerFile::RunnerDraft => ".claim.runner",
            RunnerFile::PidDraft => ".pid.new",
            RunnerFile::StatusDraft => ".status.new",
            RunnerFile::Entries => ".env",
        }
    }
}
