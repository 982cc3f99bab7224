//! Turns in which many connections send commands.
use crate::managers::{DONE, InMemory, frames, has_output, new_store, over, parts_of, turn};
use std::process::Abort;
use um_asserts::same;
use um_children::{Children, FakeChildren};
use um_manager::{Connection, Manager, Piece, Pieces};
use um_sector::{Disk, Fuse, MemDisk};

/// A request that puts an empty file, another one for each number.
fn put_of(rt: &(impl AllocGlobal + Abort), number: usize) -> String {
    let path = format!(in rt.alloc(); "lib/u{number}.service").expect(rt, "no memory");
    let mut text = String::new(rt.alloc());
    for part in [
        r#"{"verb":"put-file","path":""#,
        path.as_str(),
        r#"","text":""}"#,
    ] {
        text.push_str(part).expect(rt, "no memory");
    }
    text
}

/// A put-file of each of 64 connections.
fn all_put(rt: &(impl AllocGlobal + Abort)) -> Pieces {
    let mut pieces = Pieces::none(rt.alloc()).expect(rt, "no memory");
    for number in 0..64 {
        let connection = Connection::new(number).expect(rt, "no connection");
        let request = put_of(rt, number);
        pieces.set(connection, Piece::Bytes(frames(rt, &[request.as_str()])));
    }
    pieces
}

/// The number of syncs of its disk.
fn syncs(manager: Box<InMemory>) -> usize {
    let (disk, _) = parts_of(manager);
    disk.syncs()
}

/// Asserts that a turn puts the file of each connection.
fn puts_all<D: Disk, C: Children>(rt: &(impl AllocGlobal + Abort), manager: &mut Manager<D, C>) {
    let sent = all_put(rt);
    turn(manager, &sent).expect(rt, "refused");
    for number in 0..64 {
        has_output(rt, manager, number, &[DONE]);
    }
    same!(rt, manager.state().tree().len(), 64);
}

#[test]
fn the_commands_of_a_turn_share_a_sync(rt: HostRuntime) {
    let before = syncs(over(&rt, new_store(&rt)));
    let mut manager = over(&rt, new_store(&rt));
    puts_all(&rt, &mut manager);
    same!(&rt, Some(syncs(manager)), before.checked_add(1));
}

/// A manager of a new store, over a disk that counts its calls.
fn counted(rt: &(impl AllocGlobal + Abort)) -> Box<Manager<Fuse<MemDisk>, FakeChildren>> {
    over(rt, Fuse::new(new_store(rt), 0))
}

/// The number of calls of its disk.
fn calls(manager: Box<Manager<Fuse<MemDisk>, FakeChildren>>) -> u64 {
    let (disk, _) = parts_of(manager);
    disk.calls()
}

#[test]
fn a_turn_makes_a_disk_call_a_record_and_a_sync(rt: HostRuntime) {
    let before = calls(counted(&rt));
    let mut manager = counted(&rt);
    puts_all(&rt, &mut manager);
    // 64 records of one sector, and the sync after them
    same!(&rt, Some(calls(manager)), before.checked_add(65));
}
