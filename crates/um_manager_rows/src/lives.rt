//! Lives of managers over one store, each stopped by a crash within a turn or an opening, and the run that they are together.
use crate::managers::{
    DONE, InMemory, PUT, RELOAD, SHOW, START, boot, frames, has_output, new_store, over,
    over_children, parts_of, pieces, play, started, turn, turns,
};
use std::process::Abort;
use um_asserts::same;
use um_children::{Call, Children, FakeChildren};
use um_manager::{Connection, Manager, Piece};
use um_model::Moment;
use um_sector::{Disk, Fuse, MemDisk};
use um_wire::Refusal;

/// A manager over a disk of which a chosen call fails.
type Fused = Manager<Fuse<MemDisk>, FakeChildren>;

/// A request that puts the file `lib/b.service`.
const PUT_B: &str =
    r#"{"verb":"put-file","path":"lib/b.service","text":"[Service]\nExecStart=/bin/sleep 9\n"}"#;

/// A request to start `b.service`.
const START_B: &str = r#"{"verb":"start","unit":"b"}"#;

/// A request to stop `a.service`.
const STOP: &str = r#"{"verb":"stop","unit":"a"}"#;

/// A request to show `b.service`.
const SHOW_B: &str = r#"{"verb":"show","unit":"b"}"#;

const A_RUNS: &str =
    r#"{"ok":true,"value":{"ActiveState":"active","Description":"","Id":"a.service","LoadState":"loaded","MainNumber":1,"Result":"success","SubState":"running","Warnings":[]}}"#;

const B_RUNS: &str =
    r#"{"ok":true,"value":{"ActiveState":"active","Description":"","Id":"b.service","LoadState":"loaded","MainNumber":2,"Result":"success","SubState":"running","Warnings":[]}}"#;

/// The manager that is opened over a disk of which the call of that number fails, with these children; with 0 none fails.
fn opened(
    rt: &(impl AllocGlobal + Abort),
    disk: MemDisk,
    children: FakeChildren,
    fails: u64,
) -> Box<Fused> {
    over_children(rt, Fuse::new(disk, fails), children)
}

/// The disk and the children once more.
fn copies(
    rt: &(impl AllocGlobal + Abort),
    disk: &MemDisk,
    children: &FakeChildren,
) -> (MemDisk, FakeChildren) {
    let disk = disk.crash(rt.alloc(), &[]).expect(rt, "no memory");
    let children = children.copy(rt.alloc()).expect(rt, "no memory");
    (disk, children)
}

/// The disk that a crash leaves, by the picks of the sectors that weren't synced.
fn left(rt: &(impl AllocGlobal + Abort), disk: Fuse<MemDisk>, picks: &[usize]) -> MemDisk {
    let crashed = disk.into_inner().crash(rt.alloc(), picks);
    crashed.expect(rt, "no memory")
}

/// How many calls on its disk a manager makes that is opened over a disk and children, and plays these turns.
fn calls_of(
    rt: &(impl AllocGlobal + Abort),
    disk: MemDisk,
    children: FakeChildren,
    sent: &[&[u8]],
) -> u64 {
    let mut manager = opened(rt, disk, children, 0);
    play(rt, &mut manager, sent);
    let (disk, _) = parts_of(manager);
    disk.calls()
}

/// Plays the turns, which are answered so, and asserts that the disk fails after the last request.
fn is_torn<D: Disk, C: Children>(
    rt: &(impl AllocGlobal + Abort),
    manager: &mut Manager<D, C>,
    sent: &[&[u8]],
    replies: &[&str],
    last: &str,
) {
    play(rt, manager, sent);
    has_output(rt, manager, 0, replies);
    let torn = turns(rt, manager, &[frames(rt, &[last]).as_slice()]);
    same!(rt, matches!(&torn, Err(Refusal::Device)), true);
    drop(torn);
}

/// A life: these requests are answered, and then the disk fails at the sync of the last one's record, of which the
/// crash keeps the picked sectors.
fn life(
    rt: &(impl AllocGlobal + Abort),
    disk: MemDisk,
    children: FakeChildren,
    requests: &[&str],
    replies: &[&str],
    last: &str,
    picks: &[usize],
) -> (MemDisk, FakeChildren) {
    let sent = frames(rt, requests);
    let played = [sent.as_slice(), &[], &[], &[]];
    let (same_disk, same_children) = copies(rt, &disk, &children);
    let calls = calls_of(rt, same_disk, same_children, &played);
    // a sector is written, and then synced
    let fails = calls.checked_add(2).expect(rt, "too many");
    let mut manager = opened(rt, disk, children, fails);
    is_torn(rt, &mut manager, &played, replies, last);
    let (disk, children) = parts_of(manager);
    (left(rt, disk, picks), children)
}

/// A life that ends in its opening: the disk fails at the last call of that, the sync of the snapshot's header, of
/// which the crash keeps the picked sectors.
fn opening(
    rt: &(impl AllocGlobal + Abort),
    disk: MemDisk,
    children: FakeChildren,
    picks: &[usize],
) -> (MemDisk, FakeChildren) {
    let (same_disk, same_children) = copies(rt, &disk, &children);
    let calls = calls_of(rt, same_disk, same_children, &[]);
    let disk = Fuse::new(disk, calls);
    match Manager::open(rt.alloc(), disk, children, boot(rt), Moment::FIRST) {
        Ok(_) => rt.abort(),
        Err((refusal, disk, children)) => {
            same!(rt, matches!(refusal, Refusal::Device), true);
            (left(rt, disk, picks), children)
        }
    }
}

/// The disk and the children that both lives and the opening leave.
fn lived(rt: &(impl AllocGlobal + Abort), picks: &[usize]) -> (MemDisk, FakeChildren) {
    let children = FakeChildren::new(rt.alloc());
    let (disk, children) = life(
        rt,
        new_store(rt),
        children,
        &[PUT, RELOAD, START],
        &[DONE, DONE, DONE],
        PUT_B,
        &[1],
    );
    let (disk, children) = life(
        rt,
        disk,
        children,
        &[RELOAD, START_B],
        &[DONE, DONE],
        STOP,
        &[0],
    );
    opening(rt, disk, children, picks)
}

/// Asserts that the manager has both units, and that they run.
fn both_run<D: Disk, C: Children>(rt: &(impl AllocGlobal + Abort), manager: &mut Manager<D, C>) {
    same!(rt, manager.adopted(), 2);
    let sent = frames(rt, &[SHOW, SHOW_B]);
    play(rt, manager, &[sent.as_slice(), &[]]);
    has_output(rt, manager, 0, &[A_RUNS, B_RUNS]);
    same!(rt, manager.state().tree().len(), 2);
}

/// By hand: the inputs kept are a put, a reload and a start, the put that wasn't answered and whose record stood there,
/// and then a reload and a start. The stop whose record didn't stand there is none of them, and the third opening
/// offers nothing that has an effect, whether its snapshot stood there or not. So both units run, under 1 and 2, and no
/// number was started twice.
#[test]
fn three_lives_are_one_run(rt: HostRuntime) {
    for picks in &[[0], [1]] {
        let (disk, children) = lived(&rt, picks);
        let mut manager = opened(&rt, disk, children, 0);
        both_run(&rt, &mut manager);
        same!(&rt, started(&rt, manager).as_slice(), [1, 2].as_slice());
    }
}

/// The text that shows `b.service` if the end of its process is lost.
const B_LOST: &str =
    r#"{"ok":true,"value":{"ActiveState":"failed","Description":"","Id":"b.service","LoadState":"loaded","MainNumber":0,"Result":"lost","SubState":"failed","Warnings":[]}}"#;

/// A turn in which this piece arrives on connection 0, and which answers Done.
fn done(rt: &(impl AllocGlobal + Abort), manager: &mut InMemory, request: &str) {
    play(rt, manager, &[frames(rt, &[request]).as_slice()]);
    has_output(rt, manager, 0, &[DONE]);
}

/// Two clients put a file each, and the second closes while its reply waits.
fn two_clients(rt: &(impl AllocGlobal + Abort), manager: &mut InMemory) {
    let puts = (frames(rt, &[PUT]), frames(rt, &[PUT_B]));
    let sent = pieces(rt, &[(0, puts.0.as_slice()), (1, puts.1.as_slice())]);
    turn(manager, &sent).expect(rt, "refused");
    let mut closes = pieces(rt, &[]);
    let second = Connection::new(1).expect(rt, "no connection");
    closes.set(second, Piece::Closed);
    turn(manager, &closes).expect(rt, "refused");
    has_output(rt, manager, 0, &[DONE]);
    has_output(rt, manager, 1, &[]);
}

/// A life of two clients, whose last order is cut off by the stop: its store had answered, and the children had no call
/// yet.
fn cut_off(rt: &(impl AllocGlobal + Abort)) -> (MemDisk, FakeChildren) {
    let mut manager = over(rt, new_store(rt));
    two_clients(rt, &mut manager);
    done(rt, &mut manager, RELOAD);
    done(rt, &mut manager, START);
    let children = manager.children().copy(rt.alloc());
    done(rt, &mut manager, START_B);
    let (disk, _) = parts_of(manager);
    (
        disk.crash(rt.alloc(), &[]).expect(rt, "no memory"),
        children.expect(rt, "no memory"),
    )
}

/// Asserts that these calls start the numbers 1 and 3, with the words of `a.service` and of `b.service`, which are the same.
fn are_carried(rt: &(impl AllocGlobal + Abort), calls: &[Call]) {
    for call in calls {
        if let Call::Spawned { number, start, .. } = call {
            same!(rt, matches!(number.get(), 1 | 3), true);
            let words = start.words(rt.alloc()).expect(rt, "no memory");
            same!(rt, words.len(), 2);
            same!(rt, words[0].as_str(), "/bin/sleep");
            same!(rt, words[1].as_str(), "9");
        }
    }
}

/// By hand: the inputs kept are all that were answered to both clients, which are each put, the reload and both starts;
/// the second put too, of which the client that closed took nothing. The run wants the starts of 1 and 2, and after the
/// second opening of 3: those that were ordered are 1 and 3, in that order. The end of 2, whose order was cut off, is
/// reported as lost.
#[test]
fn what_two_clients_were_told_outlives_a_stop_that_cuts_off_an_order(rt: HostRuntime) {
    let (disk, children) = cut_off(&rt);
    let mut manager = over_children(&rt, disk, children);
    same!(&rt, manager.state().tree().len(), 2);
    let asked = frames(&rt, &[SHOW, SHOW_B, START_B]);
    play(&rt, &mut manager, &[asked.as_slice(), &[], &[]]);
    has_output(&rt, &mut manager, 0, &[A_RUNS, B_LOST, DONE]);
    are_carried(&rt, manager.children().calls());
    same!(&rt, started(&rt, manager).as_slice(), [1, 3].as_slice());
}
