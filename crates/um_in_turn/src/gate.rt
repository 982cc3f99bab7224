//! Each accept, read and write of a gate fails in turn, for two clients.

use crate::faulty_gate::FaultyGate;
use crate::managers;
use crate::sessions::frames;
use std::alloc::Global;
use um_children::FakeChildren;
use um_gate::{FakeGate, FakeMoments, Note};
use um_manager::Manager;
use um_model::{Moment, UnitVerb};
use um_sector::MemDisk;
use um_serve::Buffered;
use um_store_in_turn::alone::{Course, course_of};
use um_store_in_turn::rows::{Coming, Row, boot_of};
use um_store_in_turn::stores::made;
use um_store_in_turn::wrong::{Wrong, found};
use um_wire::spell;

/// The number of rounds that are served.
const ROUNDS: usize = 24;

/// The requests of the client that commands, and the rows that they are, after the boot.
const COMMANDS: &[&str] = &[
    r#"{"verb":"put-file","path":"lib/a.service","text":"[Service]\nExecStart=/bin/sleep 9\n"}"#,
    r#"{"verb":"daemon-reload"}"#,
    r#"{"verb":"start","unit":"a"}"#,
    r#"{"verb":"stop","unit":"a"}"#,
];

const ROWS: &[Row] = &[
    (0, Coming::Booted("one")),
    (
        0,
        Coming::Put("lib/a.service", "[Service]\nExecStart=/bin/sleep 9\n"),
    ),
    (0, Coming::Reload),
    (0, Coming::Verb(UnitVerb::Start, "a.service")),
    (0, Coming::Verb(UnitVerb::Stop, "a.service")),
];

const DONE: &str = r#"{"ok":true}"#;

/// The replies to the commands.
const DONES: &[&str] = &[DONE, DONE, DONE, DONE];

/// The requests of the client that queries.
const QUERIES: &[&str] = &[
    r#"{"verb":"cat","unit":"b"}"#,
    r#"{"verb":"is-active","unit":"b"}"#,
    r#"{"verb":"fly"}"#,
    r#"{"verb":"cat","unit":"b"}"#,
];

const NOT_FOUND: &str = r#"{"detail":["b.service"],"error":4,"ok":false}"#;

/// Their replies.
const TOLD: &[&str] = &[
    NOT_FOUND,
    r#"{"ok":true,"value":"inactive"}"#,
    r#"{"detail":["fly"],"error":2,"ok":false}"#,
    NOT_FOUND,
];

type Serving = Manager<MemDisk, FakeChildren>;

/// Two clients: under which number the one comes that commands, and how many bytes of a write each takes at most.
#[derive(Clone, Copy)]
pub struct Clients {
    pub commands: usize,
    pub limit: usize,
    /// All requests come at once, in one read.
    pub at_once: bool,
}

impl Clients {
    /// The number of the one that queries.
    fn asks(self) -> usize {
        if self.commands == 0 { 1 } else { 0 }
    }
}

fn parts_of(alloc: Global, texts: &[&str], at_once: bool) -> Result<Vec<Vec<u8>>, Wrong> {
    let mut parts = Vec::new(alloc);
    if at_once {
        parts.push(frames(alloc, texts)?)?;
        return Ok(parts);
    }
    for text in texts {
        parts.push(frames(alloc, &[*text])?)?;
    }
    Ok(parts)
}

/// A gate to which these clients come, the one under number 0 first.
fn gate_of(alloc: Global, clients: Clients, fails: u64) -> Result<FaultyGate, Wrong> {
    let mut gate = FakeGate::new(alloc)?;
    for number in 0..2 {
        let texts = if number == clients.commands {
            COMMANDS
        } else {
            QUERIES
        };
        let parts = parts_of(alloc, texts, clients.at_once)?;
        gate.client(number, parts, false, clients.limit)?;
    }
    Ok(FaultyGate::new(gate, fails))
}

fn manager(alloc: Global) -> Result<Box<Serving>, Wrong> {
    let disk = made(alloc)?;
    let children = FakeChildren::new(alloc);
    managers::opened(alloc, disk, children, boot_of(alloc, "one")?)
}

/// The bytes that a gate took for a client.
fn taken(alloc: Global, notes: &[Note], number: usize) -> Result<Vec<u8>, Wrong> {
    let mut bytes = Vec::new(alloc);
    for note in notes {
        if let Note::Wrote {
            number: to,
            taken,
            ..
        } = note
        {
            if *to == number {
                bytes.extend_from_slice(taken.as_slice())?;
            }
        }
    }
    Ok(bytes)
}

/// How many of the frames of these texts stand whole in front of the bytes; the bytes are a beginning of theirs.
fn whole(alloc: Global, bytes: &[u8], texts: &[&str]) -> Result<usize, Wrong> {
    let all = frames(alloc, texts)?;
    if !all.starts_with(bytes) {
        return Err(found("other bytes than the replies"));
    }
    let mut count: usize = 0;
    for end in 0..=texts.len() {
        let front = texts.get(..end).unwrap_or(&[]);
        if frames(alloc, front)?.len() <= bytes.len() {
            count = end;
        }
    }
    Ok(count)
}

/// Asserts that a client has all its replies, or, if its call failed, a beginning of them. Returns how many whole ones.
fn has(alloc: Global, gate: &FaultyGate, number: usize, texts: &[&str]) -> Result<usize, Wrong> {
    let bytes = taken(alloc, gate.notes(), number)?;
    let count = whole(alloc, bytes.as_slice(), texts)?;
    if gate.hit() != Some(number) && count != texts.len() {
        return Err(found("a client doesn't get all its replies"));
    }
    Ok(count)
}

/// Asserts of a run that its clients have their replies, and that the state is that of a beginning.
fn have(
    alloc: Global,
    course: &Course,
    clients: Clients,
    gate: &FaultyGate,
    manager: &Serving,
) -> Result<(), Wrong> {
    has(alloc, gate, clients.asks(), TOLD)?;
    let replies = has(alloc, gate, clients.commands, DONES)?;
    // after the boot each reply is that to a command that was taken
    let bytes = spell(alloc, manager.state())?;
    let last = course.states.len().saturating_sub(1);
    match course.place(replies.saturating_add(1), last, bytes.as_slice()) {
        Some(_) => Ok(()),
        None => Err(found("the state isn't that of a beginning")),
    }
}

/// The same gate, with the buffers that go from one round to the next.
fn buffered(alloc: Global, clients: Clients, fails: u64) -> Result<Buffered<FaultyGate>, Wrong> {
    Ok(Buffered::new(alloc, gate_of(alloc, clients, fails)?)?)
}

/// Serves `ROUNDS` rounds.
fn served(
    alloc: Global,
    manager: &mut Serving,
    gate: &mut Buffered<FaultyGate>,
) -> Result<(), Wrong> {
    let mut clock = FakeMoments::new(alloc, Moment::FIRST, 0);
    Ok(managers::serve(manager, gate, &mut clock, ROUNDS)?)
}

/// One run; returns how many calls it made.
fn run(alloc: Global, course: &Course, clients: Clients, fails: u64) -> Result<u64, Wrong> {
    let mut manager = manager(alloc)?;
    let mut gate = Box::new(alloc, buffered(alloc, clients, fails)?)?;
    served(alloc, manager.as_mut(), gate.as_mut())?;
    let gate = &gate.as_ref().gate;
    have(alloc, course, clients, gate, manager.as_ref())?;
    Ok(gate.calls())
}

/// Each call of the gate fails in turn; returns how many cases were tried.
pub fn each_call(alloc: Global, clients: Clients) -> Result<u64, Wrong> {
    let course = course_of(alloc, ROWS)?;
    let calls = run(alloc, &course, clients, 0)?;
    for fails in 1..=calls {
        match run(alloc, &course, clients, fails) {
            Ok(_) => {}
            Err(wrong) => return Err(wrong.at(fails, " of the gate")),
        }
    }
    Ok(calls)
}
