//! `umd serve`: one loop over a store, children and a socket.

use crate::endings::{tell_ending, tell_uncounted};
use crate::keeping::{Keeping, Keeps};
use crate::lines::Lines;
use crate::places::{Taken, lacks, news_in, take_places};
use crate::starting::{request_in, start_first};
use crate::telling::{News, Tally, Telling};
use crate::waking::Waking;
use std::alloc::{AllocError, Global};
use std::fs::{File, Files};
use std::net::Net;
use std::process::Processes;
use std::thread;
use std::time::{Clock, Duration, Instant};
use um_children::{Children, RunnerDir};
use um_filedisk::FileDisk;
use um_gate::{Moments, SocketGate, SystemMoments, system_moment};
use um_keeper::{OpenedStore, look};
use um_line::{DEVICE, REFUSED, ServeLine};
use um_manager::Manager;
use um_model::{Deadline, Moment};
use um_output::{OpenFault, Outputs};
use um_sector::Disk;
use um_serve::{Buffered, pause, serve};
use um_state::BootId;
use um_wire::Refusal;

/// A sleep of at most a second has this many parts, and is followed by a round in any case.
const PARTS: u32 = 10;

/// The least that the system waits for a socket, in microseconds.
const LEAST_POLL: u64 = 1000;

/// The longest sleep, in milliseconds, while a count of failures is to be reported.
const COUNTING: u64 = 100;

/// The longest sleep, in milliseconds, while a snapshot is written, a part of it after each turn: it also ends if no
/// request comes.
const WRITING: u64 = 5;

/// The size of a block that is allocated and freed before anything is served. From then on the system's allocator
/// keeps twice as much free memory; otherwise it would return all free memory past 128 KiB after each turn, and fetch
/// it again in the next.
const BLOCK: usize = 1 << 19;

fn take_block(alloc: Global) {
    let _block: Result<Vec<u8>, AllocError> = Vec::with_capacity(alloc, BLOCK);
}

/// Why the manager stops serving: reported on standard error, with this exit status.
#[derive(Clone, Copy)]
struct End {
    status: u8,
}

/// Says why the manager stops serving, and returns the exit status. If standard error fails too, only the exit status
/// shows the error.
fn ends<R: Eprint>(rt: &R, refusal: Refusal) -> End {
    tell_ending(rt, &refusal);
    End {
        status: match refusal {
            Refusal::Device | Refusal::Reopen => DEVICE,
            _ => REFUSED,
        },
    }
}

/// Says what happens to a manager that is the first process, which every process gets as its parent once its own has
/// ended.
fn tell_first<E: Eprint>(lines: &E) {
    let _unheard = eprintln!(lines;
        "umd: it is the first process: ended ones stay as zombies, and TERM does nothing; see examples/container"
    );
}

/// Reports the state in which the store was opened, and which of its records don't count.
fn tell_opened<R: Eprint>(rt: &R, opened: OpenedStore) {
    let OpenedStore {
        generation,
        records,
        cut_off,
        damaged,
    } = opened;
    let _unheard = eprintln!(rt;
        "umd: the store is of generation {generation}, {records} records are replayed"
    );
    tell_uncounted(rt, cut_off, damaged);
}

fn boot_id(alloc: Global, boot: &str) -> Result<BootId, Refusal> {
    match String::from_str(alloc, boot) {
        Ok(text) => match BootId::new(text) {
            Some(boot) => Ok(boot),
            None => Err(Refusal::BadRequest),
        },
        Err(_) => Err(Refusal::NoMemory),
    }
}

/// The data that the program keeps from one round to the next.
#[derive(Drop)]
struct Loop<'a, R, E> {
    system: &'a R,
    alloc: Global,
    lines: &'a E,
    gate: Buffered<SocketGate>,
    waking: Waking,
    clock: SystemMoments<'a, R>,
    /// The deadline of the current sleep, as it was last looked up.
    deadline: Option<Deadline>,
    /// The clock of the state at that time.
    looked: Option<Moment>,
}

impl<'a, R: Files + Net + Clock, E: Eprint> Loop<'a, R, E> {
    /// One round, then a sleep unless more can be done at once. A refusal ends the serving, also a failed allocation.
    fn step<D: Disk, C: Children + News>(
        &mut self,
        manager: &mut Manager<D, C>,
        tally: &Tally,
    ) -> Result<(), Refusal> {
        tally.look(Instant::now(self.system).ok());
        manager.children().begin(self.clock.moment());
        serve(manager, &mut self.gate, &mut self.clock, 1)?;
        manager.children().settle(manager.state());
        self.mind(manager);
        self.rest(manager, tally)
    }

    /// Does the work of each pass: reports the counts of failures, looks after the output files, and keeps the socket
    /// by which runners wake the manager.
    fn mind<D: Disk, C: Children + News>(&mut self, manager: &Manager<D, C>) {
        let Ok(now) = Instant::now(self.system) else {
            return;
        };
        let children = manager.children();
        if children.is_counting() {
            children.tell_counts(now);
        }
        children.tend(manager.state(), now);
        let gate = &mut self.gate.gate;
        self.waking
            .keep(self.system, self.alloc, self.lines, gate, now);
    }

    /// The longest sleep: shorter while a snapshot is written, or while a count is to be reported once its second is
    /// over.
    fn longest<D: Disk, C: Children + News>(&self, manager: &Manager<D, C>) -> Duration {
        if manager.left() > 0 {
            Duration::from_millis(WRITING)
        } else if manager.children().is_counting() {
            Duration::from_millis(COUNTING)
        } else {
            Duration::MAX
        }
    }

    /// Whether the state may have changed since the deadline was looked up. The clock of the state moves with each
    /// change, except if two changes have one moment.
    fn is_stale(&mut self, clock: Moment) -> bool {
        self.looked != Some(clock) || self.clock.moment().micros() <= clock.micros()
    }

    /// Whether the deadline of the sleep has come.
    fn is_due(&mut self) -> bool {
        let now = self.clock.moment();
        self.deadline
            .is_some_and(|deadline| deadline.micros() <= now.micros())
    }

    /// Sleeps until there is something to do, unless another round may have more to do at once. E15 without memory
    /// for the deadlines.
    fn rest<D: Disk, C: Children + News>(
        &mut self,
        manager: &Manager<D, C>,
        tally: &Tally,
    ) -> Result<(), Refusal> {
        if self.gate.was_busy() {
            return Ok(());
        }
        let clock = manager.state().clock();
        if self.is_stale(clock) || self.is_due() {
            self.deadline = self.gate.deadline(manager)?;
            self.looked = Some(clock);
        }
        self.sleep(manager, tally.is_live());
        Ok(())
    }

    /// Waits for the gate, at most this long. A wait for sockets takes whole milliseconds, so for a shorter one the
    /// thread sleeps, and then looks at the gate.
    fn wait(&mut self, longest: Duration) -> bool {
        if longest >= Duration::from_micros(LEAST_POLL) {
            return self.gate.gate.wait(longest);
        }
        thread::sleep(self.system, longest);
        self.gate.gate.wait(Duration::ZERO)
    }

    /// Sleeps until the next deadline, a byte, a client, or news of a live process. A runner wakes the manager, and
    /// once a second the manager looks for news itself. No round is needed before: it would take nothing, and its
    /// fates would be the same. While a snapshot is written, each wait is followed by a round.
    fn sleep<D: Disk, C: Children + News>(&mut self, manager: &Manager<D, C>, is_live: bool) {
        for _ in 0..PARTS {
            self.mind(manager);
            let is_open = is_live && manager.children().is_pressed();
            let wait = pause(is_open, self.clock.moment(), self.deadline).min(self.longest(
                manager,
            ));
            if self.wait(wait) || !is_live || manager.left() > 0 {
                return;
            }
            if manager.children().has_news() || self.is_due() {
                return;
            }
        }
    }
}

/// The gate over both sockets, that of clients and that by which runners wake the manager.
fn open_gate<R: Files + Net, E: Eprint>(
    system: &R,
    alloc: Global,
    lines: &E,
    line: &ServeLine<'_>,
) -> Result<(SocketGate, Waking), u8> {
    let news = news_in(alloc, lines, line.dir)?;
    match SocketGate::open(system, alloc, line.socket) {
        Ok(mut gate) => {
            let waking = Waking::open(system, alloc, lines, &mut gate, news)?;
            Ok((gate, waking))
        }
        Err(fault) => Err(lacks(lines, line.socket, &fault)),
    }
}

/// Opens the sockets and the clock of the rounds, whose moments are no earlier than `least`. This follows the opening
/// of the store: if that fails, no socket is taken.
fn open_loop<'a, R: Files + Net + Clock, E: Eprint>(
    system: &'a R,
    alloc: Global,
    lines: &'a E,
    line: &ServeLine<'_>,
    least: Moment,
) -> Result<Loop<'a, R, E>, End> {
    let (gate, waking) = match open_gate(system, alloc, lines, line) {
        Ok(opened) => opened,
        Err(status) => return Err(End { status }),
    };
    let Ok(gate) = Buffered::new(alloc, gate) else {
        return Err(ends(lines, Refusal::NoMemory));
    };
    Ok(Loop {
        system,
        alloc,
        lines,
        gate,
        waking,
        clock: SystemMoments::starting(system, least),
        deadline: None,
        looked: None,
    })
}

/// The manager of a store in a file, whose children run under runners and report on standard error.
type Served<'a, 'b, R, K> = Manager<
    FileDisk<'b, R>,
    Telling<'a, RunnerDir<'b, R>, Lines<'b, R>, K>,
>;

/// Opens the manager over the store and children that were taken.
fn open_manager<'a, 'b, R, K>(
    system: &'b R,
    alloc: Global,
    lines: &'a Lines<'b, R>,
    tally: &'a Tally,
    keeping: &'a K,
    boot: BootId,
    disk: FileDisk<'b, R>,
    children: RunnerDir<'b, R>,
) -> Result<Served<'a, 'b, R, K>, End>
where
    R: Files<File = File> + Net + Processes + Clock + Eprint,
    K: Keeps,
{
    let moment = system_moment(system);
    keeping.begin(moment);
    let children = Telling::new(children, lines, alloc, tally, keeping);
    match Manager::open(alloc, disk, children, boot, moment) {
        Ok(manager) => {
            keeping.settle(manager.state());
            Ok(manager)
        }
        Err((refusal, disk, children)) => {
            drop(disk);
            drop(children);
            Err(ends(lines, refusal))
        }
    }
}

/// Says that the output folder belongs to another store, since it has output of this process.
fn tell_foreign<E: Eprint>(lines: &E, folder: &str, number: u64) {
    let _unheard = eprintln!(lines;
        "umd: {folder}: it is another store's: it has output of process {number}, which this store never started"
    );
}

/// The kept output, by the state that the store stands for before any input is offered to it; none if no output is
/// kept. From then on the children make its files.
fn open_outputs<'b, R, E, D>(
    system: &'b R,
    alloc: Global,
    lines: &E,
    line: &ServeLine<'b>,
    disk: &mut D,
    children: &mut RunnerDir<'b, R>,
) -> Result<Option<Outputs<'b, R>>, End>
where
    R: Files + Processes + Clock,
    E: Eprint,
    D: Disk,
{
    let Some(folder) = line.output else {
        return Ok(None);
    };
    let state = match look(alloc, disk) {
        Ok((_, state)) => state,
        Err(refusal) => return Err(ends(lines, refusal)),
    };
    match Outputs::open(system, alloc, folder, u64::from(line.output_size), &state) {
        Ok(outputs) => {
            children.keep_output(folder);
            Ok(Some(outputs))
        }
        Err(OpenFault::Foreign(number)) => {
            tell_foreign(lines, folder, number);
            Err(End { status: REFUSED })
        }
        Err(OpenFault::System(fault)) => Err(End {
            status: lacks(lines, folder, &fault),
        }),
    }
}

/// Reports the state in which the store was opened, and how many of its processes were lost.
fn tell_adopted<D: Disk, C: Children, R: Eprint>(rt: &R, manager: &Manager<D, C>, lost: u64) {
    tell_opened(rt, manager.opened());
    let adopted = manager.adopted();
    let _unheard = eprintln!(rt; "umd: {adopted} processes adopted, of which {lost} are lost");
}

/// Serves rounds, until one fails.
fn serve_rounds<R: Files + Net + Clock, E: Eprint, D: Disk, C: Children + News>(
    state: &mut Loop<'_, R, E>,
    manager: &mut Manager<D, C>,
    tally: &Tally,
) -> Result<(), Refusal> {
    for _ in 0..u64::MAX {
        state.step(manager, tally)?;
    }
    Ok(())
}

/// Serves a manager that was opened over a socket, until it fails. Before the first round the request is sent, if
/// nothing ran yet since the boot.
fn serve_opened<R: Files + Net + Clock, E: Eprint, D: Disk, C: Children + News>(
    system: &R,
    alloc: Global,
    lines: &E,
    tally: &Tally,
    line: &ServeLine<'_>,
    request: Option<Vec<u8>>,
    manager: &mut Manager<D, C>,
) -> Result<u8, End> {
    tell_adopted(lines, manager, tally.absent());
    let mut state = open_loop(system, alloc, lines, line, manager.state().clock())?;
    if let Some(request) = request {
        tally.look(Instant::now(system).ok());
        match start_first(alloc, lines, manager, &mut state.clock, request) {
            Ok(()) => {}
            Err(refusal) => return Err(ends(lines, refusal)),
        }
    }
    match serve_rounds(&mut state, manager, tally) {
        Ok(()) => Ok(0),
        Err(refusal) => Err(ends(lines, refusal)),
    }
}

/// Opens the manager and serves it, until it fails.
fn serve_over<'x, R>(
    system: &'x R,
    alloc: Global,
    line: &ServeLine<'x>,
    is_first: bool,
) -> Result<u8, End>
where
    R: Files<File = File> + Net + Processes + Clock + Eprint,
{
    take_block(alloc);
    let lines = Lines::new(system, alloc);
    let tally = Tally::new();
    let boot = match boot_id(alloc, line.boot) {
        Ok(boot) => boot,
        Err(refusal) => return Err(ends(&lines, refusal)),
    };
    let request = match request_in(alloc, &lines, line.start) {
        Ok(request) => request,
        Err(status) => return Err(End { status }),
    };
    if is_first {
        tell_first(&lines);
    }
    let Taken {
        mut disk,
        mut children,
        lock: _lock,
        output_lock: _output_lock,
    } = match take_places(system, &lines, alloc, line) {
        Ok(taken) => taken,
        Err(status) => return Err(End { status }),
    };
    let outputs = open_outputs(system, alloc, &lines, line, &mut disk, &mut children)?;
    let keeping = Keeping::of(&lines, outputs, line.output);
    let mut manager = open_manager(
        system, alloc, &lines, &tally, &keeping, boot, disk, children,
    )?;
    let ended = if manager.children().is_foreign() {
        Err(End { status: REFUSED })
    } else {
        serve_opened(system, alloc, &lines, &tally, line, request, &mut manager)
    };
    drop(manager);
    ended
}

/// Serves a store over a socket, until it fails; then says why on standard error, and returns the exit status. It is 1
/// for a refusal of the store or of memory, and for a folder of another store; 2 for words: a unit to start whose name
/// is none, or equal paths of two places; 5 for a failed file, socket or disk. As the first process, the manager says
/// what that means before it takes its places.
pub fn serve_store<R>(rt: &R, alloc: Global, line: &ServeLine<'_>, is_first: bool) -> u8
where
    R: Files<File = File> + Net + Processes + Clock + Eprint,
{
    match serve_over(rt, alloc, line, is_first) {
        Ok(status) => status,
        Err(end) => end.status,
    }
}
