//! `umd ctl sync`: brings the files of a folder into a manager's tree.

use crate::answers::{ctl_fault, put_text};
use crate::controlling::lacks_socket;
use crate::surroundings::{Surroundings, told};
use crate::verifying::tell_unread;
use crate::waiting::Asking;
use std::alloc::{AllocError, Global};
use std::fs::{File, Files};
use std::io::{ErrorKind, Read};
use std::net::Net;
use std::time::Clock;
use std::{fs, io};
use um_ctl::{CtlFault, Told, Words};
use um_line::{DEVICE, REFUSED, SyncLine, put_line};
use um_memory::Fault;
use um_sync::{Action, Ledger, Mark, Step, steps_of};
use um_tree::{Entry, Tree};
use um_verify::{Collected, Finding, collect_layers, verify};

/// The file in a folder that records which of its files were put, and its draft.
const KEPT: &str = ".umd-sync";

const DRAFT: &str = ".umd-sync.new";

/// The most bytes of it that are read: twice the text of a tree's entries is less.
const LONGEST: u64 = 1 << 23;

/// The exit status if nobody read a request.
const UNREAD: u8 = 4;

/// Why a sync ends early.
#[derive(Drop)]
enum Stop {
    /// The error is reported already; this is the exit status.
    Told(u8),
    /// The manager refuses a request for the path, or the reload.
    Refused(Told),
    /// The manager can't be reached, or doesn't answer.
    Asked(CtlFault),
    /// The record of the files that were put can't be read or written.
    Kept(io::Error),
    /// Standard output can't be written, or an allocation failed.
    Failed(Fault),
}

impl From<AllocError> for Stop {
    fn from(_refused: AllocError) -> Stop {
        Stop::Failed(Fault::NoMemory)
    }
}

impl From<Fault> for Stop {
    fn from(fault: Fault) -> Stop {
        Stop::Failed(fault)
    }
}

impl From<io::Error> for Stop {
    fn from(fault: io::Error) -> Stop {
        Stop::Kept(fault)
    }
}

/// The paths of the record in a folder and of its draft.
#[derive(Drop)]
struct Places {
    kept: String,
    draft: String,
}

/// The inputs of a sync: the folder's files, the record of the files that were put, and the steps to take.
#[derive(Drop)]
struct Plan {
    tree: Tree,
    ledger: Ledger,
    steps: Vec<Step>,
}

/// The result of the requests for one path.
#[derive(Drop)]
enum Outcome {
    Done,
    /// It is refused, and nothing changed.
    Refused(Told),
    /// The old entry is removed, and the new one is refused.
    Emptied(Told),
}

/// A manager, and the record of the folder's files in its tree.
#[derive(Drop)]
struct Syncing<'a, R> {
    asking: Asking<'a, R>,
    places: &'a Places,
    ledger: Ledger,
}

/// The paths in a folder.
fn places_in(alloc: Global, folder: &str) -> Result<Places, AllocError> {
    Ok(Places {
        kept: format!(in alloc; "{folder}/{KEPT}")?,
        draft: format!(in alloc; "{folder}/{DRAFT}")?,
    })
}

/// The bytes of a file; none if there is no file.
fn bytes_at<R: Files>(rt: &R, alloc: Global, path: &str) -> io::Result<Vec<u8>> {
    let mut bytes = Vec::new(alloc);
    match File::open(rt, path) {
        Ok(file) => {
            file.take(LONGEST).read_to_end(&mut bytes)?;
            Ok(bytes)
        }
        Err(fault) if fault.kind() == ErrorKind::NotFound => Ok(bytes),
        Err(fault) => Err(fault),
    }
}

/// The record that these bytes hold; `None` if no sync wrote them.
fn ledger_in(alloc: Global, bytes: Vec<u8>) -> Result<Option<Ledger>, AllocError> {
    match String::from_utf8(bytes) {
        Ok(text) => Ledger::read(alloc, text.as_str()),
        Err(_) => Ok(None),
    }
}

/// The record of the files that were put, read from its file.
fn ledger_at<R: Files + Eprint>(rt: &R, alloc: Global, kept: &str) -> Result<Ledger, Stop> {
    let bytes = bytes_at(rt, alloc, kept)?;
    match ledger_in(alloc, bytes)? {
        Some(ledger) => Ok(ledger),
        None => {
            put_line(
                rt,
                alloc,
                format_args!("umd: {kept}: no sync wrote this: without it, all is put again"),
            );
            Err(Stop::Told(REFUSED))
        }
    }
}

/// Replaces the whole text of the record: writes its draft and renames that.
fn replace<R: Files>(rt: &R, places: &Places, text: &str) -> io::Result<()> {
    fs::write(rt, places.draft.as_str(), text)?;
    fs::rename(rt, places.draft.as_str(), places.kept.as_str())
}

/// Writes the record of the files that were put.
fn keep<R: Files>(rt: &R, places: &Places, ledger: &Ledger) -> Result<(), Stop> {
    let text = ledger.to_text()?;
    replace(rt, places, text.as_str())?;
    Ok(())
}

/// The answer to a verb with these arguments.
fn ask_for<'w, R: Net + Clock + Input>(
    asking: &Asking<'_, R>,
    verb: &'w str,
    arguments: &'w [&'w str],
) -> Result<Told, CtlFault> {
    asking.ask(&Words {
        verb,
        arguments,
        mode: None,
    })
}

/// The answer to `put-file` with these arguments and this text.
fn ask_file<'w, R: Net + Clock + Input>(
    asking: &Asking<'_, R>,
    arguments: &'w [&'w str],
    text: &str,
) -> Result<Told, CtlFault> {
    let words = Words {
        verb: "put-file",
        arguments,
        mode: None,
    };
    asking.ask_with(&words, &mut text.as_bytes())
}

/// The answer to `put-link`.
fn ask_link<'w, R: Net + Clock + Input>(
    asking: &Asking<'_, R>,
    path: &'w str,
    target: &'w str,
) -> Result<Told, CtlFault> {
    ask_for(asking, "put-link", &[path, target])
}

/// Puts the entry of the folder at the path.
fn ask_put<R: Net + Clock + Input>(
    asking: &Asking<'_, R>,
    path: &str,
    entry: Entry<'_>,
) -> Result<Told, CtlFault> {
    match entry {
        Entry::File(text) => ask_file(asking, &[path], text),
        Entry::Link(target) => ask_link(asking, path, target),
    }
}

/// Removes the entry at the path. `None` if none stands there now.
fn ask_removal<R: Net + Clock + Input>(
    asking: &Asking<'_, R>,
    path: &str,
) -> Result<Option<Told>, CtlFault> {
    let told = ask_for(asking, "remove", &[path])?;
    // a path that was put is served: E12 says that nothing stands there
    if told.status == 0 || told.error.as_str().starts_with("E12 ") {
        Ok(None)
    } else {
        Ok(Some(told))
    }
}

/// The result of putting this entry at the path; `is_emptied`: the old entry was removed for it.
fn put_outcome<R: Net + Clock + Input>(
    asking: &Asking<'_, R>,
    path: &str,
    entry: Entry<'_>,
    is_emptied: bool,
) -> Result<Outcome, CtlFault> {
    let told = ask_put(asking, path, entry)?;
    if told.status == 0 {
        Ok(Outcome::Done)
    } else if is_emptied {
        Ok(Outcome::Emptied(told))
    } else {
        Ok(Outcome::Refused(told))
    }
}

/// Sends the requests of a step; `entry` is the folder's entry at its path.
fn ask_step<R: Net + Clock + Input>(
    asking: &Asking<'_, R>,
    step: &Step,
    entry: Option<Entry<'_>>,
) -> Result<Outcome, CtlFault> {
    let path = step.path.as_str();
    let is_emptied = step.action != Action::Put;
    if is_emptied {
        if let Some(told) = ask_removal(asking, path)? {
            return Ok(Outcome::Refused(told));
        }
    }
    match entry {
        Some(entry) => put_outcome(asking, path, entry, is_emptied),
        None => Ok(Outcome::Done),
    }
}

impl<'a, R: Net + Clock + Input + Files + Print> Syncing<'a, R> {
    /// Records the mark of the path, and whether a reload is owed, and writes the record.
    fn note(&mut self, path: &str, mark: Option<Mark>, owes_reload: bool) -> Result<(), Stop> {
        self.ledger.note(path, mark)?;
        self.ledger.owes_reload = owes_reload;
        keep(self.asking.rt(), self.places, &self.ledger)
    }

    /// Records the outcome of a step, given the mark before it.
    fn note_outcome(
        &mut self,
        path: &str,
        before: (Option<Mark>, bool),
        now: Option<Mark>,
        outcome: Outcome,
    ) -> Result<(), Stop> {
        let (mark, owed) = before;
        match outcome {
            Outcome::Done => self.note(path, now, true),
            Outcome::Refused(told) => {
                self.note(path, mark, owed)?;
                Err(Stop::Refused(told))
            }
            Outcome::Emptied(told) => {
                self.note(path, None, true)?;
                Err(Stop::Refused(told))
            }
        }
    }

    /// Records that the manager took no request for the path, if that is known.
    fn note_fault(
        &mut self,
        step: &Step,
        before: (Option<Mark>, bool),
        fault: CtlFault,
    ) -> Result<(), Stop> {
        if fault.status() == UNREAD && step.action == Action::Put {
            self.note(step.path.as_str(), before.0, before.1)?;
        }
        Err(Stop::Asked(fault))
    }

    /// Takes a step for the folder's entry at its path. The request is recorded first, so that the next sync knows of
    /// it if this one is cut off.
    fn take_step(&mut self, step: &Step, entry: Option<Entry<'_>>) -> Result<(), Stop> {
        let path = step.path.as_str();
        let before = (self.ledger.mark(path), self.ledger.owes_reload);
        self.note(path, Some(Mark::Asked), true)?;
        match ask_step(&self.asking, step, entry) {
            Ok(outcome) => self.note_outcome(path, before, entry.map(Mark::of), outcome),
            Err(fault) => self.note_fault(step, before, fault),
        }
    }

    /// Takes a step, and prints its line.
    fn do_step(&mut self, step: &Step, entry: Option<Entry<'_>>) -> Result<(), Stop> {
        self.take_step(step, entry)?;
        put_step(self.asking.rt(), self.asking.alloc(), step)?;
        Ok(())
    }

    /// Reloads the tree, if that is owed.
    fn reload(&mut self) -> Result<(), Stop> {
        if !self.ledger.owes_reload {
            return Ok(());
        }
        match ask_for(&self.asking, "daemon-reload", &[]) {
            Ok(told) if told.status == 0 => {
                self.ledger.owes_reload = false;
                keep(self.asking.rt(), self.places, &self.ledger)
            }
            Ok(told) => Err(Stop::Refused(told)),
            Err(fault) => Err(Stop::Asked(fault)),
        }
    }
}

/// Says why a sync ended early, and returns the exit status.
fn tell_stop<R: Eprint>(
    rt: &R,
    alloc: Global,
    stop: Stop,
    at: &str,
    places: (&str, &str),
) -> Result<u8, Fault> {
    let (kept, socket) = places;
    match stop {
        Stop::Told(status) => Ok(status),
        Stop::Refused(told) => {
            let error = told.error.as_str().trim_end();
            put_line(rt, alloc, format_args!("{at}: {error}"));
            Ok(told.status)
        }
        Stop::Asked(fault) => {
            ctl_fault(rt, alloc, &fault, "sync", socket);
            Ok(fault.status())
        }
        Stop::Kept(fault) if fault.kind() == ErrorKind::OutOfMemory => Err(Fault::NoMemory),
        Stop::Kept(fault) => {
            put_line(rt, alloc, format_args!("umd: {kept}: {fault}"));
            Ok(DEVICE)
        }
        Stop::Failed(fault) => Err(fault),
    }
}

/// Takes the steps one by one, then reloads.
fn take_steps<R: Net + Clock + Input + Files + Print + Eprint>(
    syncing: &mut Syncing<'_, R>,
    steps: &[Step],
    tree: &Tree,
) -> Result<u8, Fault> {
    let (rt, alloc) = (syncing.asking.rt(), syncing.asking.alloc());
    let places = (syncing.places.kept.as_str(), syncing.asking.socket());
    for step in steps {
        let path = step.path.as_str();
        if let Err(stop) = syncing.do_step(step, tree.get(path)) {
            return tell_stop(rt, alloc, stop, path, places);
        }
    }
    match syncing.reload() {
        Ok(()) => Ok(0),
        Err(stop) => tell_stop(rt, alloc, stop, "daemon-reload", places),
    }
}

/// Prints the line of a step.
fn put_step<R: Print>(rt: &R, alloc: Global, step: &Step) -> Result<u8, Fault> {
    put_text(rt, step.to_line(alloc)?.as_str())
}

/// Prints the lines of the steps.
fn put_steps<R: Print>(rt: &R, alloc: Global, steps: &[Step]) -> Result<u8, Fault> {
    for step in steps {
        put_step(rt, alloc, step)?;
    }
    Ok(0)
}

/// Reports the findings that keep a unit from being loaded.
fn tell_stopping<R: Eprint>(rt: &R, alloc: Global, findings: &[Finding]) -> Result<(), AllocError> {
    for finding in findings {
        if finding.stops {
            put_line(rt, alloc, finding.to_line(alloc)?);
        }
    }
    Ok(())
}

/// Says which units of the folder can't be loaded.
fn tell_unloadable<R: Eprint>(rt: &R, alloc: Global, collected: Collected) -> Result<(), Stop> {
    match verify(collected) {
        Ok(findings) => Ok(tell_stopping(rt, alloc, findings.as_slice())?),
        Err(fault) => Err(Stop::Told(tell_unread(rt, alloc, &fault)?)),
    }
}

/// Reports the files that can't be put.
fn tell_misfits<R: Eprint>(rt: &R, alloc: Global, misfits: &[String]) -> Result<(), Stop> {
    for misfit in misfits {
        put_line(rt, alloc, misfit.as_str());
    }
    if misfits.is_empty() {
        Ok(())
    } else {
        Err(Stop::Told(REFUSED))
    }
}

/// The files that the folder has.
fn collected_in<R: Files + Eprint>(rt: &R, alloc: Global, folder: &str) -> Result<Collected, Stop> {
    match collect_layers(rt, alloc, folder) {
        Ok(collected) => Ok(collected),
        Err(fault) => Err(Stop::Told(tell_unread(rt, alloc, &fault)?)),
    }
}

/// The files of the folder as a tree, after everything wrong with them is reported.
fn tree_in<R: Files + Eprint>(rt: &R, alloc: Global, folder: &str) -> Result<Tree, Stop> {
    let collected = collected_in(rt, alloc, folder)?;
    tell_misfits(rt, alloc, collected.misfits())?;
    let tree = collected.tree().copy()?;
    tell_unloadable(rt, alloc, collected)?;
    Ok(tree)
}

/// The steps to take for the folder, given the path of its record.
fn plan_of<R: Files + Eprint>(
    rt: &R,
    alloc: Global,
    line: SyncLine<'_>,
    kept: &str,
) -> Result<Plan, Stop> {
    let tree = tree_in(rt, alloc, line.folder)?;
    let ledger = ledger_at(rt, alloc, kept)?;
    let steps = steps_of(alloc, line.all, &ledger, &tree)?;
    Ok(Plan {
        tree,
        ledger,
        steps,
    })
}

/// Takes the planned steps at the manager of the socket.
fn carry_out<R: Net + Clock + Input + Files + Print + Eprint>(
    asking: Asking<'_, R>,
    places: &Places,
    plan: Plan,
) -> Result<u8, Fault> {
    let Plan {
        tree,
        ledger,
        steps,
    } = plan;
    let mut syncing = Syncing {
        asking,
        places,
        ledger,
    };
    take_steps(&mut syncing, steps.as_slice(), &tree)
}

/// Brings the files of a folder to the manager at a socket, or only prints the steps, and returns the exit status. A
/// fault if standard output can't be written or memory is refused.
pub fn sync<R: Net + Clock + Input + Files + Print + Eprint>(
    rt: &R,
    alloc: Global,
    line: SyncLine<'_>,
    surroundings: Surroundings<'_>,
) -> Result<u8, Fault> {
    let socket = told(line.socket, surroundings.socket).unwrap_or("");
    if socket.is_empty() && !line.is_dry {
        return Ok(lacks_socket(rt));
    }
    let places = places_in(alloc, line.folder)?;
    match plan_of(rt, alloc, line, places.kept.as_str()) {
        Ok(plan) if line.is_dry => put_steps(rt, alloc, plan.steps.as_slice()),
        Ok(plan) => {
            let asking = Asking::starting(rt, alloc, socket, line.retry, line.timeout);
            carry_out(asking, &places, plan)
        }
        Err(stop) => tell_stop(rt, alloc, stop, line.folder, (places.kept.as_str(), socket)),
    }
}
