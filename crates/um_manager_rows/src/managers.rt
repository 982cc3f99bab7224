//! Managers over a disk and children in memory, and the requests sent to them.
use std::process::Abort;
use um_asserts::{same, text};
use um_children::{Call, Children, FakeChildren};
use um_keeper::create;
use um_manager::{Connection, Manager, Piece, Pieces, Step};
use um_model::{Layout, Moment};
use um_sector::{Disk, MemDisk};
use um_state::BootId;
use um_wire::Refusal;

/// A manager in memory.
pub type InMemory = Manager<MemDisk, FakeChildren>;

/// A request that puts the file `lib/a.service`.
pub const PUT: &str =
    r#"{"verb":"put-file","path":"lib/a.service","text":"[Service]\nExecStart=/bin/sleep 9\n"}"#;

/// A request to load the tree.
pub const RELOAD: &str = r#"{"verb":"daemon-reload"}"#;

/// A request to start `a.service`.
pub const START: &str = r#"{"verb":"start","unit":"a"}"#;

/// A request to show `a.service`.
pub const SHOW: &str = r#"{"verb":"show","unit":"a"}"#;

/// The reply to an event that was taken.
pub const DONE: &str = r#"{"ok":true}"#;

/// The boot that all rows are in.
pub fn boot(rt: &(impl AllocGlobal + Abort)) -> BootId {
    let name = text!(rt, "one");
    BootId::new(name).expect(rt, "no boot")
}

/// A disk that holds a new store.
pub fn new_store(rt: &(impl AllocGlobal + Abort)) -> MemDisk {
    let mut disk = MemDisk::new(rt.alloc(), 641).expect(rt, "no memory");
    let layout = Layout::new(64, 512).expect(rt, "no layout");
    create(rt.alloc(), &mut disk, layout).expect(rt, "not created");
    disk
}

/// The manager that is opened over a disk, with these children, in a box, which a row drops in one call.
pub fn over_children<D: Disk, C: Children>(
    rt: &(impl AllocGlobal + Abort),
    disk: D,
    children: C,
) -> Box<Manager<D, C>> {
    match Manager::open(rt.alloc(), disk, children, boot(rt), Moment::FIRST) {
        Ok(manager) => Box::new(rt.alloc(), manager).expect(rt, "no memory"),
        Err(_) => rt.abort(),
    }
}

/// The manager that is opened over a disk, with children of which none was started.
pub fn over<D: Disk>(rt: &(impl AllocGlobal + Abort), disk: D) -> Box<Manager<D, FakeChildren>> {
    over_children(rt, disk, FakeChildren::new(rt.alloc()))
}

/// The disk and the children of a manager.
pub fn parts_of<D: Disk, C: Children>(manager: Box<Manager<D, C>>) -> (D, C) {
    Box::into_inner(manager).into_parts()
}

/// The frames of these texts.
pub fn frames(rt: &(impl AllocGlobal + Abort), texts: &[&str]) -> Vec<u8> {
    um_asserts::frames(rt.alloc(), texts).expect(rt, "no memory")
}

/// The pieces of connections, by their numbers.
pub fn pieces(rt: &(impl AllocGlobal + Abort), sent: &[(usize, &[u8])]) -> Pieces {
    let mut pieces = Pieces::none(rt.alloc()).expect(rt, "no memory");
    for (number, bytes) in sent {
        let connection = Connection::new(*number).expect(rt, "no connection");
        let copy = Vec::from_slice(rt.alloc(), bytes).expect(rt, "no memory");
        pieces.set(connection, Piece::Bytes(copy));
    }
    pieces
}

/// The turns in each of which one of these arrives on connection 0.
fn steps(rt: &(impl AllocGlobal + Abort), sent: &[&[u8]]) -> Vec<Step> {
    let mut steps = Vec::new(rt.alloc());
    for bytes in sent {
        let step = Step {
            moment: Moment::FIRST,
            pieces: pieces(rt, &[(0, bytes)]),
        };
        steps.push(step).expect(rt, "no memory");
    }
    steps
}

/// A turn for each of these, in which it arrives on connection 0.
pub fn turns<D: Disk, C: Children>(
    rt: &(impl AllocGlobal + Abort),
    manager: &mut Manager<D, C>,
    sent: &[&[u8]],
) -> Result<(), Refusal> {
    manager.run_script(&steps(rt, sent))
}

/// Plays a turn for each of these, in which it arrives on connection 0.
pub fn play<D: Disk, C: Children>(
    rt: &(impl AllocGlobal + Abort),
    manager: &mut Manager<D, C>,
    sent: &[&[u8]],
) {
    turns(rt, manager, sent).expect(rt, "refused");
}

/// A turn in which these pieces arrive.
pub fn turn<D: Disk, C: Children>(
    manager: &mut Manager<D, C>,
    sent: &Pieces,
) -> Result<(), Refusal> {
    manager.turn(Moment::FIRST, sent)
}

/// Asserts that exactly the frames of these texts were put out for a connection, and that its session hasn't failed.
pub fn has_output<D: Disk, C: Children>(
    rt: &(impl AllocGlobal + Abort),
    manager: &mut Manager<D, C>,
    number: usize,
    wanted: &[&str],
) {
    let connection = Connection::new(number).expect(rt, "no connection");
    let output = manager.output(connection);
    same!(rt, output.bytes.as_slice(), frames(rt, wanted).as_slice());
    same!(rt, output.failed, false);
}

/// The numbers that these calls start, in their order.
fn numbers(rt: &(impl AllocGlobal + Abort), calls: &[Call]) -> Vec<u64> {
    let mut numbers = Vec::new(rt.alloc());
    for call in calls {
        if let Call::Spawned { number, .. } = call {
            numbers.push(number.get()).expect(rt, "no memory");
        }
    }
    numbers
}

/// The numbers that were started, in their order.
pub fn started<D: Disk + Drop>(
    rt: &(impl AllocGlobal + Abort),
    manager: Box<Manager<D, FakeChildren>>,
) -> Vec<u64> {
    let (_, children) = parts_of(manager);
    numbers(rt, children.calls())
}
