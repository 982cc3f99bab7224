//! Backlogs over a gate.
use crate::gates::{add_client, bytes, what_was_taken, with_client};
use std::process::Abort;
use um_asserts::same;
use um_backlog::Backlog;
use um_gate::Gate;

/// Bytes that are put for a client, and whether they are its last; then the bytes that the gate has taken for it, in
/// how many writes, and whether it was given up.
type Put = (&'static [u8], bool, &'static [u8], usize, bool);

/// Clients, how many bytes each takes of a write, and the bytes put for it, in order.
const CLIENTS: &[(usize, usize, &[Put])] = &[
    // one gets all in order
    (
        5,
        2,
        &[
            (b"hello", false, b"he", 1, false),
            (b"", false, b"hell", 2, false),
            (b"!?", false, b"hello!", 3, false),
            (b"", false, b"hello!?", 4, false),
            (b"", false, b"hello!?", 4, false),
        ],
    ),
    // one is given up once its last bytes are taken
    (
        1,
        2,
        &[
            (b"bye", true, b"by", 1, false),
            (b"", true, b"bye", 2, true),
            (b"more", false, b"bye", 2, true),
        ],
    ),
];

/// Asserts that all of this is taken for the client so.
fn is_served(rt: &(impl AllocGlobal + Abort), number: usize, limit: usize, puts: &[Put]) {
    let mut gate = with_client(rt, number, limit);
    let mut backlog = Backlog::new(rt.alloc()).expect(rt, "no memory");
    for (part, is_last, all, writes, is_dropped) in puts {
        backlog.put(&mut gate, number, bytes(rt, part), *is_last);
        let got = what_was_taken(rt, &gate, number);
        same!(rt, got.bytes.as_slice(), *all);
        same!(rt, (got.writes, got.is_dropped), (*writes, *is_dropped));
    }
}

#[test]
fn a_client_that_takes_two_bytes_a_write_gets_all_in_order(rt: HostRuntime) {
    for (number, limit, puts) in CLIENTS {
        is_served(&rt, *number, *limit, puts);
    }
}

#[test]
fn two_clients_get_each_their_own(rt: HostRuntime) {
    let mut gate = with_client(&rt, 0, 1);
    add_client(&rt, &mut gate, 63, b"", 9);
    let _open = gate.accept();
    let mut backlog = Backlog::new(rt.alloc()).expect(&rt, "no memory");
    backlog.put(&mut gate, 0, bytes(&rt, b"ab"), false);
    backlog.put(&mut gate, 63, bytes(&rt, b"xyz"), false);
    backlog.put(&mut gate, 0, bytes(&rt, b"c"), false);
    backlog.put(&mut gate, 0, bytes(&rt, b""), false);
    let first = what_was_taken(&rt, &gate, 0).bytes;
    same!(&rt, first.as_slice(), b"abc".as_slice());
    let last = what_was_taken(&rt, &gate, 63).bytes;
    same!(&rt, last.as_slice(), b"xyz".as_slice());
}

#[test]
fn a_client_for_which_too_much_waits_is_given_up(rt: HostRuntime) {
    let mut gate = with_client(&rt, 1, 0);
    let mut backlog = Backlog::new(rt.alloc()).expect(&rt, "no memory");
    let mut most = Vec::new(rt.alloc());
    most.resize(67_108_864, 7).expect(&rt, "no memory");
    backlog.put(&mut gate, 1, most, false);
    same!(&rt, what_was_taken(&rt, &gate, 1).is_dropped, false);
    backlog.put(&mut gate, 1, bytes(&rt, b"a"), false);
    same!(&rt, what_was_taken(&rt, &gate, 1).is_dropped, true);
}

#[test]
fn a_client_falls_behind_once_more_than_4_mib_wait_for_it(rt: HostRuntime) {
    let mut gate = with_client(&rt, 1, 0);
    let mut backlog = Backlog::new(rt.alloc()).expect(&rt, "no memory");
    let mut most = Vec::new(rt.alloc());
    most.resize(4_194_304, 7).expect(&rt, "no memory");
    backlog.put(&mut gate, 1, most, false);
    same!(&rt, backlog.is_behind(1), false);
    backlog.put(&mut gate, 1, bytes(&rt, b"a"), false);
    same!(&rt, backlog.is_behind(1), true);
    same!(&rt, backlog.is_behind(2), false);
    same!(&rt, what_was_taken(&rt, &gate, 1).is_dropped, false);
    backlog.forget(1);
    same!(&rt, backlog.is_behind(1), false);
}

#[test]
fn the_next_client_gets_nothing_of_the_one_before_it(rt: HostRuntime) {
    let mut gate = with_client(&rt, 4, 1);
    let mut backlog = Backlog::new(rt.alloc()).expect(&rt, "no memory");
    backlog.put(&mut gate, 4, bytes(&rt, b"abc"), true);
    backlog.forget(4);
    backlog.put(&mut gate, 4, bytes(&rt, b"x"), false);
    let got = what_was_taken(&rt, &gate, 4);
    same!(&rt, got.bytes.as_slice(), b"ax".as_slice());
    same!(&rt, got.is_dropped, false);
}
