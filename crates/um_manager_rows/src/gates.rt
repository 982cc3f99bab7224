//! Gates in memory, and the bytes that they took.
use std::process::Abort;
use um_asserts::same;
use um_gate::{FakeGate, Gate, MOST_BYTES, Note};

/// These bytes.
pub fn bytes(rt: &(impl AllocGlobal + Abort), text: &[u8]) -> Vec<u8> {
    Vec::from_slice(rt.alloc(), text).expect(rt, "no memory")
}

/// A gate to which no client has connected yet.
pub fn new_gate(rt: &(impl AllocGlobal + Abort)) -> FakeGate {
    FakeGate::new(rt.alloc()).expect(rt, "no memory")
}

/// A client that sends these bytes in one part, stays, and takes at most `limit` bytes of a write.
pub fn add_client(
    rt: &(impl AllocGlobal + Abort),
    gate: &mut FakeGate,
    number: usize,
    sent: &[u8],
    limit: usize,
) {
    let parts = vec![in rt.alloc(); bytes(rt, sent)].expect(rt, "no memory");
    gate.client(number, parts, false, limit)
        .expect(rt, "no memory");
}

/// A gate that has accepted a client that sends nothing, and takes at most `limit` bytes of a write.
pub fn with_client(rt: &(impl AllocGlobal + Abort), number: usize, limit: usize) -> FakeGate {
    let mut gate = new_gate(rt);
    add_client(rt, &mut gate, number, b"", limit);
    let _open = gate.accept();
    gate
}

/// The bytes that the gate took for a connection, write after write, how many writes it was offered, and whether the
/// connection was given up.
#[derive(Drop)]
pub struct Taken {
    pub bytes: Vec<u8>,
    pub writes: usize,
    pub is_dropped: bool,
}

/// The bytes that the gate took for the connection of this number.
pub fn what_was_taken(rt: &(impl AllocGlobal + Abort), gate: &FakeGate, number: usize) -> Taken {
    let mut bytes = Vec::new(rt.alloc());
    let mut writes: usize = 0;
    let mut is_dropped = false;
    for note in gate.notes() {
        match note {
            Note::Wrote {
                number: to,
                taken,
                ..
            } if *to == number => {
                bytes
                    .extend_from_slice(taken.as_slice())
                    .expect(rt, "no memory");
                writes = writes.saturating_add(1);
            }
            Note::Dropped(to) if *to == number => is_dropped = true,
            _ => {}
        }
    }
    Taken {
        bytes,
        writes,
        is_dropped,
    }
}

/// The bytes that the gate was offered for a connection, a part a write.
pub fn what_was_offered(
    rt: &(impl AllocGlobal + Abort),
    gate: &FakeGate,
    number: usize,
) -> Vec<Vec<u8>> {
    let mut parts = Vec::new(rt.alloc());
    for note in gate.notes() {
        if let Note::Wrote {
            number: to,
            offered,
            ..
        } = note
        {
            if *to == number {
                parts
                    .push(bytes(rt, offered.as_slice()))
                    .expect(rt, "no memory");
            }
        }
    }
    parts
}

/// The bytes of a read of at most `most` bytes; the client is there still.
fn read_of(
    rt: &(impl AllocGlobal + Abort),
    gate: &mut FakeGate,
    number: usize,
    most: usize,
) -> Vec<u8> {
    let most = most.min(MOST_BYTES);
    let mut read = Vec::with_capacity(rt.alloc(), most).expect(rt, "no memory");
    same!(rt, gate.read(number, most, &mut read), true);
    read
}

/// Reads of a client that sends `abcde`, one after another: of how many bytes at most, and the bytes they give.
const READS: &[(usize, &[u8])] = &[(0, b""), (2, b"ab"), (0, b""), (4096, b"cde"), (4096, b"")];

#[test]
fn what_is_not_read_stays_there(rt: HostRuntime) {
    let mut gate = new_gate(&rt);
    add_client(&rt, &mut gate, 3, b"abcde", 9);
    let _open = gate.accept();
    for (most, wanted) in READS {
        let read = read_of(&rt, &mut gate, 3, *most);
        same!(&rt, read.as_slice(), *wanted);
    }
}

#[test]
fn a_client_that_was_given_up_takes_nothing_and_is_told_closed(rt: HostRuntime) {
    let mut gate = with_client(&rt, 2, 9);
    same!(&rt, gate.write(2, b"abc"), 3);
    gate.drop_connection(2);
    same!(&rt, gate.write(2, b"def"), 0);
    let mut read = Vec::with_capacity(rt.alloc(), MOST_BYTES).expect(&rt, "no memory");
    same!(&rt, gate.read(2, MOST_BYTES, &mut read), false);
    same!(&rt, read.len(), 0);
}

#[test]
fn an_accept_that_fails_takes_nobody(rt: HostRuntime) {
    let mut gate = new_gate(&rt);
    for number in [3, 5] {
        add_client(&rt, &mut gate, number, b"abc", 9);
    }
    gate.fuse(2);
    // client 5 waits while its accept fails, and is taken by the next one
    for is_there in [false, false, true] {
        let open = gate.accept();
        same!(&rt, (open.is_open[3], open.is_open[5]), (true, is_there));
    }
    let read = read_of(&rt, &mut gate, 5, MOST_BYTES);
    same!(&rt, read.as_slice(), b"abc".as_slice());
}

#[test]
fn a_client_whose_number_is_taken_is_turned_away(rt: HostRuntime) {
    let mut gate = new_gate(&rt);
    for (number, sent) in [(3, b"abc"), (3, b"def"), (64, b"ghi")] {
        add_client(&rt, &mut gate, number, sent, 9);
    }
    for _ in 0..3 {
        let open = gate.accept();
        let count = open.is_open.iter().filter(|is_open| **is_open).count();
        same!(&rt, (open.is_open[3], count), (true, 1));
    }
    let read = read_of(&rt, &mut gate, 3, MOST_BYTES);
    same!(&rt, read.as_slice(), b"abc".as_slice());
}
