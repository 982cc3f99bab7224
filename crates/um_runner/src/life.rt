//! The life of a runner.
ghost use Rattle.std.specs.Prelude.{◌≡◌, IsTrue, is_ok};
ghost use Rattle.um_runner.specs.Jobs.{words_of, entries_of};
ghost use Rattle.um_runner.specs.Lives.{LivesOn};

use crate::fault::FolderFault;
use crate::host::Host;
use crate::job::Job;
use um_model::End;

/// The end that is reported of a command that can't be executed.
const NOT_EXECUTED: End = End::Code(203);

/// Lives the life of a runner: claims the number and ends where somebody has it; else starts the job, writes its pid, waits for it
/// and writes how it ended. A job that can't be executed ends with code 203 and has no pid.
///
/// An error where the folder refused the claim, and nothing was started; or the pid or the status. Where it was the pid, the process
/// was waited for all the same, and its status written or refused.
pub fn run<H: Host>(host: &mut H, job: &Job<'_>) -> Result<(), FolderFault>
    ensures life { IsTrue (H.honest host.old) → LivesOn (words_of job.now) (entries_of job.now) (H.past host.old) (H.past host.new) (is_ok result) }
    ensures honest { H.honest host.new ≡ H.honest host.old }
{
    if !host.claim()? {
        return Ok(());
    }
    let Some(pid) = host.start(job) else {
        return host.write_status(NOT_EXECUTED);
    };
    let told = host.write_pid(pid);
    let end = host.wait();
    let ended = host.write_status(end);
    match told {
        Ok(()) => ended,
        Err(fault) => Err(fault),
    }
}
