//! The host of a runner over a real folder and a real process.
ghost use Rattle.std.specs.Prelude.{◌≡◌, [], false};

use crate::fault::FolderFault;
use crate::files::{replace_by, replace_file, reserve};
use crate::host::Host;
use crate::job::Job;
use crate::notes::{Claiming, claim};
use crate::paths::news_path;
use crate::runner_file::{Claimant, RunnerFile};
use crate::texts::{pid_text, status_text};
use mio::net::UnixStream;
use std::alloc::Global;
use std::fs::Files;
use std::io::ErrorKind;
use std::net::Net;
use std::os::unix::process::ExitStatusExt;
use std::process::{Child, ExitStatus, Processes};
use std::time::{Clock, Duration};
use std::{fs, thread};
use um_model::{End, ProcessNumber};

/// The seconds after which a status that was refused is written again.
const PAUSE: u64 = 1;

/// A real folder, and a real process that is started for a number.
#[derive(Drop)]
pub struct Folder<'a, R: Files + Net + Processes + Clock> {
    rt: &'a R,
    alloc: Global,
    path: &'a str,
    number: ProcessNumber,
    child: Option<Child<R::Started>>,
    /// The job isn't known, so nothing is started.
    is_stopped: bool,
    /// The draft of the pid file, which has room for it.
    pid_room: Option<R::File>,
    /// That of the status file.
    status_room: Option<R::File>,
}

/// How a process ended that was waited for.
fn end_of(status: ExitStatus) -> End {
    if let Some(code) = status.code() {
        return End::Code((code % 256) as u8);
    }
    match status.signal() {
        Some(signal) => End::Signal((signal % 256) as u8),
        None => End::Lost,
    }
}

impl<'a, R: Files + Net + Processes + Clock> Folder<'a, R> {
    /// The folder at the path, with a number of which nothing is started.
    pub fn of(rt: &'a R, alloc: Global, path: &'a str, number: ProcessNumber) -> Folder<'a, R> {
        Folder {
            rt,
            alloc,
            path,
            number,
            child: None,
            is_stopped: false,
            pid_room: None,
            status_room: None,
        }
    }

    /// From now on no job can be executed.
    pub(crate) fn start_nothing(&mut self) {
        self.is_stopped = true;
    }

    /// Takes the room for a file on the folder's disk.
    fn take_room(&self, draft: RunnerFile) -> Result<R::File, FolderFault> {
        reserve(self.rt, self.alloc, self.path, self.number, draft)
    }

    /// Takes the room for the status and the pid.
    fn take_rooms(&mut self) -> Result<(), FolderFault> {
        self.status_room = Some(self.take_room(RunnerFile::StatusDraft)?);
        self.pid_room = Some(self.take_room(RunnerFile::PidDraft)?);
        Ok(())
    }

    /// The job's command as a process.
    fn spawn(&self, job: &Job<'_>) -> Option<Child<R::Started>> {
        let mut command = job.command(self.alloc).ok()?;
        command.spawn(self.rt).ok()
    }

    /// Wakes the manager, which then looks at the folder: connects to its socket there, and closes. It waits for
    /// nothing, and ignores that nobody is woken: the manager looks at the folder once a second in any case.
    fn wake(&self) {
        if let Ok(path) = news_path(self.alloc, self.path) {
            let _woken = UnixStream::connect(self.rt, path.as_str());
        }
    }

    /// Gives a file of the number its text, in the room that was taken for it where there is some. Once it stands the manager is woken.
    fn put(
        &self,
        file: (RunnerFile, RunnerFile),
        room: Option<R::File>,
        text: &str,
    ) -> Result<(), FolderFault> {
        let (rt, alloc, path, number) = (self.rt, self.alloc, self.path, self.number);
        match room {
            Some(room) => replace_by(rt, alloc, path, number, file, room, text)?,
            None => replace_file(rt, alloc, path, number, file, text)?,
        }
        self.wake();
        Ok(())
    }

    /// Writes the status file once.
    fn put_status(&mut self, end: End) -> Result<(), FolderFault> {
        let text = status_text(self.alloc, end)?;
        let room = self.status_room.take();
        let file = (RunnerFile::Status, RunnerFile::StatusDraft);
        self.put(file, room, text.as_str())
    }

    /// Whether there is no such folder any more.
    fn is_gone(&self) -> bool {
        match fs::symlink_metadata(self.rt, self.path) {
            Err(e) => e.kind() == ErrorKind::NotFound,
            Ok(_) => false,
        }
    }
}

impl<'a, R: Files + Net + Processes + Clock> Host for Folder<'a, R> {
    // No clause reads it, since nothing is claimed of the folder and the process.
    ghost past = { λ _. [] };

    ghost honest = { λ _. false };

    fn claim(&mut self) -> Result<bool, FolderFault> {
        let claiming = claim(
            self.rt,
            self.alloc,
            self.path,
            self.number,
            Claimant::Runner,
        )?;
        Ok(claiming == Claiming::New)
    }

    /// A command that finds no memory can't be executed either, nor one for whose pid and status the disk has no room.
    fn start(&mut self, job: &Job<'_>) -> Option<u32> {
        if self.is_stopped {
            return None;
        }
        self.take_rooms().ok()?;
        let child = self.spawn(job)?;
        let pid = child.id();
        self.child = Some(child);
        Some(pid)
    }

    fn write_pid(&mut self, pid: u32) -> Result<(), FolderFault> {
        let text = pid_text(self.alloc, pid)?;
        let room = self.pid_room.take();
        let file = (RunnerFile::Pid, RunnerFile::PidDraft);
        self.put(file, room, text.as_str())
    }

    fn wait(&mut self) -> End {
        match &mut self.child {
            Some(child) => child.wait().map_or(End::Lost, end_of),
            None => End::Lost,
        }
    }

    /// Where the folder refuses it, it is written again each second, until it is written or the folder is gone.
    fn write_status(&mut self, end: End) -> Result<(), FolderFault> {
        let mut answer = self.put_status(end);
        for _ in 0..u64::MAX {
            if answer.is_ok() || self.is_gone() {
                return answer;
            }
            thread::sleep(self.rt, Duration::from_secs(PAUSE));
            answer = self.put_status(end);
        }
        answer
    }
}
