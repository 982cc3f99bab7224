//! The trait of a runner's surroundings: its folder and its process.
ghost use Rattle.std.specs.Prelude.{◌≡◌, ◌∷◌, ◌++◌, [], List, Bool, IsTrue, is_ok};
ghost use Rattle.um_runner.specs.Runner.{pid_text, status_text};
ghost use Rattle.um_runner.specs.declared.runner_file.RunnerFile.TheVariants as files;
ghost use Rattle.um_runner.specs.RunnerSteps.{RunnerStep, Claims, Starts, Writes, Waits};
ghost use Rattle.um_runner.specs.Jobs.{words_of, entries_of};
ghost use Rattle.um_runner.specs.Lives.{claimed_of};

use crate::fault::FolderFault;
use crate::job::Job;
use um_model::End;

/// The surroundings of a runner: its folder and its process. Each call is a step with its answer.
///
/// No contract can say what a real folder holds and what a real process does, so the clauses stand under `honest`.
pub trait Host {
    /// The steps of the runner so far, the oldest first.
    ghost past: { Self → List RunnerStep };

    /// It does what it answers.
    ghost honest: { Self → Bool };

    /// Claims the number for this runner. False where somebody has claimed it; an error where the folder refuses it.
    fn claim(&mut self) -> Result<bool, FolderFault>
        ensures past { IsTrue (honest self.old) → past self.new ≡ past self.old ++ Claims (claimed_of result) ∷ [] }
        ensures honest { honest self.new ≡ honest self.old };

    /// Starts the job as a process, and gives its pid; None where it can't be executed.
    fn start(&mut self, job: &Job<'_>) -> Option<u32>
        ensures past { IsTrue (honest self.old) → past self.new ≡ past self.old ++ Starts (words_of job.now) (entries_of job.now) result ∷ [] }
        ensures honest { honest self.new ≡ honest self.old };

    /// Writes the pid file, whole or not at all. An error where the folder refuses it.
    fn write_pid(&mut self, pid: u32) -> Result<(), FolderFault>
        ensures past { IsTrue (honest self.old) → past self.new ≡ past self.old ++ Writes files.Pid (pid_text pid) (is_ok result) ∷ [] }
        ensures honest { honest self.new ≡ honest self.old };

    /// Waits until the process has ended, and returns how; `End::Lost` if nobody can know.
    fn wait(&mut self) -> End
        ensures past { IsTrue (honest self.old) → past self.new ≡ past self.old ++ Waits result ∷ [] }
        ensures honest { honest self.new ≡ honest self.old };

    /// Writes the status file, whole or not at all. An error where the folder refuses it.
    fn write_status(&mut self, end: End) -> Result<(), FolderFault>
        ensures past { IsTrue (honest self.old) → past self.new ≡ past self.old ++ Writes files.Status (status_text end) (is_ok result) ∷ [] }
        ensures honest { honest self.new ≡ honest self.old };
}
