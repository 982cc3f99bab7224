//! Rounds of a manager in memory over a gate in memory.
use crate::gates::{add_client, new_gate, what_was_offered, what_was_taken};
use crate::managers;
use crate::managers::{
    InMemory, PUT, RELOAD, SHOW, START, frames, has_output, new_store, over, over_children,
    parts_of, play,
};
use crate::orders::number;
use std::process::Abort;
use um_asserts::same;
use um_children::{Children, End, FakeChildren};
use um_gate::{FakeGate, FakeMoments, Gate, Moments, Note};
use um_manager::Manager;
use um_model::Moment;
use um_sector::Disk;
use um_serve::{Buffered, rounds_join, serve};

/// Requests of two clients: to load the tree, and to list the jobs.
const LOADS: &[u8] = b"\x00\x00\x00\x18{\"verb\":\"daemon-reload\"}";

const LISTS: &[u8] = b"\x00\x00\x00\x14{\"verb\":\"list-jobs\"}";

/// Their replies.
const DONE: &[u8] = b"\x00\x00\x00\x0b{\"ok\":true}";

const NONE: &[u8] = b"\x00\x00\x00\x16{\"ok\":true,\"value\":[]}";

/// A gate, in a box, before its first round.
fn buffered<G: Gate + Drop>(rt: &(impl AllocGlobal + Abort), gate: G) -> Box<Buffered<G>> {
    let buffered = Buffered::new(rt.alloc(), gate).expect(rt, "no memory");
    Box::new(rt.alloc(), buffered).expect(rt, "no memory")
}

/// Serves `limit` rounds of a manager over a gate, and returns whether the last one was busy.
fn rounds<D: Disk, C: Children, G: Gate, M: Moments>(
    rt: &impl Abort,
    manager: &mut Manager<D, C>,
    gate: &mut Buffered<G>,
    clock: &mut M,
    limit: usize,
) -> bool {
    serve(manager, gate, clock, limit).expect(rt, "refused");
    gate.was_busy()
}

/// A gate, a manager of a new store and a clock, all in memory.
#[derive(Drop)]
struct Served {
    gate: Box<Buffered<FakeGate>>,
    manager: Box<InMemory>,
    clock: FakeMoments,
}

/// A server of this manager over this gate.
fn served_by(rt: &(impl AllocGlobal + Abort), gate: FakeGate, manager: Box<InMemory>) -> Served {
    Served {
        gate: buffered(rt, gate),
        manager,
        clock: FakeMoments::new(rt.alloc(), Moment::FIRST, 1),
    }
}

/// A server over this gate.
fn served_over(rt: &(impl AllocGlobal + Abort), gate: FakeGate) -> Served {
    served_by(rt, gate, over(rt, new_store(rt)))
}

/// Serves `limit` rounds, and returns whether the last one was busy.
fn serve_rounds(rt: &impl Abort, served: &mut Served, limit: usize) -> bool {
    rounds(
        rt,
        &mut served.manager,
        &mut served.gate,
        &mut served.clock,
        limit,
    )
}

/// A gate with two clients that take few bytes of a write.
fn two_clients(rt: &(impl AllocGlobal + Abort)) -> FakeGate {
    let mut gate = new_gate(rt);
    add_client(rt, &mut gate, 0, LOADS, 3);
    add_client(rt, &mut gate, 1, LISTS, 7);
    gate
}

/// Asserts the bytes that the first of them has by now, and the second.
fn have(rt: &(impl AllocGlobal + Abort), gate: &FakeGate, first: &[u8], second: &[u8]) {
    for (number, wanted) in [(0, first), (1, second)] {
        let got = what_was_taken(rt, gate, number);
        same!(rt, got.bytes.as_slice(), wanted);
        same!(rt, got.is_dropped, false);
    }
}

/// A number of rounds, whether the last one was busy, and the bytes that the first client has then, and the second.
const ROUNDS: &[(usize, bool, &[u8], &[u8])] = &[
    (1, true, b"\x00\x00\x00", b""),
    (9, false, DONE, NONE),
];

#[test]
fn clients_that_take_few_bytes_get_their_own_replies(rt: HostRuntime) {
    for (count, is_busy, first, second) in ROUNDS {
        let mut served = served_over(&rt, two_clients(&rt));
        same!(&rt, serve_rounds(&rt, &mut served, *count), *is_busy);
        have(&rt, &served.gate.gate, first, second);
    }
}

/// The bytes that each of the two is offered in its rounds with a write: all that are left of its reply.
const OFFERS: &[(usize, &[&[u8]])] = &[
    (
        0,
        &[
            b"\x00\x00\x00\x0b{\"ok\":true}",
            b"\x0b{\"ok\":true}",
            b"ok\":true}",
            b":true}",
            b"ue}",
        ],
    ),
    (
        1,
        &[
            b"\x00\x00\x00\x16{\"ok\":true,\"value\":[]}",
            b"k\":true,\"value\":[]}",
            b",\"value\":[]}",
            b"\":[]}",
        ],
    ),
];

/// Asserts that the gate was offered exactly these for the client, a part a write.
fn was_offered(rt: &(impl AllocGlobal + Abort), gate: &FakeGate, number: usize, wanted: &[&[u8]]) {
    let offered = what_was_offered(rt, gate, number);
    same!(rt, offered.len(), wanted.len());
    for (at, all) in wanted.iter().enumerate() {
        let part = offered.get(at).expect(rt, "no such write");
        same!(rt, part.as_slice(), *all);
    }
}

#[test]
fn a_client_that_takes_few_bytes_is_offered_all_that_waits_each_round(rt: HostRuntime) {
    let mut served = served_over(&rt, two_clients(&rt));
    serve_rounds(&rt, &mut served, 9);
    for (number, wanted) in OFFERS {
        was_offered(&rt, &served.gate.gate, *number, wanted);
    }
}

/// Nine rounds, as the sum of the rounds of each call.
const CALLS: &[&[usize]] = &[&[4, 5], &[3, 0, 6], &[1, 1, 1, 1, 1, 1, 1, 1, 1]];

#[test]
fn serving_again_and_again_is_serving_once(rt: HostRuntime) {
    // the law that this shows
    rounds_join();
    let mut once = served_over(&rt, two_clients(&rt));
    serve_rounds(&rt, &mut once, 9);
    for calls in CALLS {
        let mut served = served_over(&rt, two_clients(&rt));
        for count in *calls {
            serve_rounds(&rt, &mut served, *count);
        }
        have(&rt, &served.gate.gate, DONE, NONE);
        same!(&rt, served.gate.was_busy(), once.gate.was_busy());
        same!(&rt, served.clock.given(), once.clock.given());
        let notes = served.gate.gate.notes().len();
        same!(&rt, notes, once.gate.gate.notes().len());
    }
}

#[test]
fn a_round_whose_accept_fails_serves_those_that_are_there(rt: HostRuntime) {
    let mut gate = two_clients(&rt);
    gate.fuse(2);
    let mut served = served_over(&rt, gate);
    // the second round takes nobody, and hands three bytes more to the first client
    serve_rounds(&rt, &mut served, 2);
    have(&rt, &served.gate.gate, &DONE[..6], b"");
    serve_rounds(&rt, &mut served, 9);
    have(&rt, &served.gate.gate, DONE, NONE);
}

/// The manager in which `a.service` was put, loaded and started. Its process is over once it was started, and nobody
/// has queried it yet.
fn with_process(rt: &(impl AllocGlobal + Abort)) -> Box<InMemory> {
    let mut children = FakeChildren::new(rt.alloc());
    children
        .ends(number(rt, 1), End::Code(0))
        .expect(rt, "no memory");
    let mut manager = over_children(rt, new_store(rt), children);
    let sent = frames(rt, &[PUT, RELOAD, START]);
    play(rt, &mut manager, &[sent.as_slice(), &[], &[]]);
    let done = managers::DONE;
    has_output(rt, &mut manager, 0, &[done, done, done]);
    manager
}

/// How many processes are live in the store that a manager leaves.
fn live_processes(rt: &(impl AllocGlobal + Abort), manager: Box<InMemory>) -> usize {
    let (disk, _) = parts_of(manager);
    over(rt, disk).adopted()
}

/// The text shown of `a.service` after the end of its process.
const ENDED: &str =
    r#"{"ok":true,"value":{"ActiveState":"inactive","Description":"","Id":"a.service","LoadState":"loaded","MainNumber":0,"Result":"success","SubState":"dead","Warnings":[]}}"#;

/// Serves three rounds to a client that takes at most `limit` bytes of a write, one that holds back the last byte of
/// its request, and one that wants to be shown `a.service`. Asserts that the last one has its reply, and the other two
/// have these bytes and none.
fn three_rounds(rt: &(impl AllocGlobal + Abort), limit: usize, first: &[u8]) -> Box<InMemory> {
    let mut gate = new_gate(rt);
    let (front, _) = LOADS.split_at(LOADS.len() - 1);
    add_client(rt, &mut gate, 0, LISTS, limit);
    add_client(rt, &mut gate, 1, front, 4096);
    let asks = frames(rt, &[SHOW]);
    add_client(rt, &mut gate, 2, asks.as_slice(), 4096);
    let mut served = served_by(rt, gate, with_process(rt));
    serve_rounds(rt, &mut served, 3);
    let shown = frames(rt, &[ENDED]);
    for (number, wanted) in [(0, first), (1, b"".as_slice()), (2, shown.as_slice())] {
        let got = what_was_taken(rt, &served.gate.gate, number);
        same!(rt, got.bytes.as_slice(), wanted);
        same!(rt, got.is_dropped, false);
    }
    let Served { manager, .. } = served;
    manager
}

#[test]
fn a_client_that_holds_back_a_byte_and_one_that_never_reads_hold_up_nobody(rt: HostRuntime) {
    // the end of number 1 isn't recorded before
    same!(&rt, live_processes(&rt, with_process(&rt)), 1);
    for (limit, first) in [(4096, NONE), (0, b"".as_slice())] {
        let manager = three_rounds(&rt, limit, first);
        same!(&rt, live_processes(&rt, manager), 0);
    }
}

/// Rounds one by one, of a client that sends two requests in one part and then a third. Of each round: how many bytes
/// are to be read of the client at most, how many bytes of replies it has then, each of 26, and whether the round was
/// busy.
const ONE_BY_ONE: &[(usize, usize, bool)] = &[
    (4096, 26, true),
    // the second request waits for its turn
    (0, 52, true),
    (4096, 78, true),
    (4096, 78, false),
];

/// How many bytes were to be read at most in the last read.
fn last_read(gate: &FakeGate) -> Option<usize> {
    let mut last = None;
    for note in gate.notes() {
        if let Note::Came { most, .. } = note {
            last = Some(*most);
        }
    }
    last
}

#[test]
fn nothing_is_read_of_a_client_while_a_whole_request_of_it_waits(rt: HostRuntime) {
    let mut gate = new_gate(&rt);
    let mut both = Vec::from_slice(rt.alloc(), LISTS).expect(&rt, "no memory");
    both.extend_from_slice(LISTS).expect(&rt, "no memory");
    let third = Vec::from_slice(rt.alloc(), LISTS).expect(&rt, "no memory");
    let parts = vec![in rt.alloc(); both, third].expect(&rt, "no memory");
    gate.client(0, parts, false, 4096).expect(&rt, "no memory");
    let mut served = served_over(&rt, gate);
    for (most, count, is_busy) in ONE_BY_ONE {
        same!(&rt, serve_rounds(&rt, &mut served, 1), *is_busy);
        same!(&rt, last_read(&served.gate.gate), Some(*most));
        let got = what_was_taken(&rt, &served.gate.gate, 0);
        same!(&rt, got.bytes.len(), *count);
    }
}
