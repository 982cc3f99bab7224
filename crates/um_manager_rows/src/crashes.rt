//! Managers that are opened after a crash.
use crate::managers::{
    DONE, InMemory, PUT, RELOAD, SHOW, START, boot, frames, has_output, new_store, over, parts_of,
    play, started,
};
use crate::orders::keeper_over;
use std::process::Abort;
use um_asserts::{same, text, unit};
use um_children::{Call, Children, Fate};
use um_keeper::Keeper;
use um_manager::Manager;
use um_model::{JobMode, Moment, UnitVerb};
use um_sector::{Disk, Fuse, MemDisk};
use um_state::{Command, Event, Happening, Input};
use um_wire::Refusal;

const LOST: &str =
    r#"{"ok":true,"value":{"ActiveState":"failed","Description":"","Id":"a.service","LoadState":"loaded","MainNumber":0,"Result":"lost","SubState":"failed","Warnings":[]}}"#;

/// The text of a service.
const SLEEPS: &str = "[Service]\nExecStart=/bin/sleep 9\n";

/// The result of an event at moment 0: how many actions it has. None of them is carried out.
fn submit<D: Disk>(keeper: &mut Keeper<D>, event: Event) -> Result<usize, Refusal> {
    let mut receipt = keeper.submit(Input::new(Moment::FIRST, event))?;
    let mut count: usize = 0;
    while let Some(handed) = receipt.next_action() {
        drop(handed);
        count = count.saturating_add(1);
    }
    receipt.finish();
    Ok(count)
}

/// Submits an event that is taken, and asserts how many actions it has.
fn take<D: Disk>(rt: &impl Abort, keeper: &mut Keeper<D>, event: Event, actions: usize) {
    same!(rt, submit(keeper, event).expect(rt, "not taken"), actions);
}

/// The command that puts a file of this text.
fn put(rt: &(impl AllocGlobal + Abort), path: &str, text: &str) -> Event {
    let path = text!(rt, path);
    let text = text!(rt, text);
    Event::Commanded(Command::PutFile { path, text })
}

/// The keeper in whose boot `a.service` was started, over a disk whose call of that number from now on fails; with 0 none. The order
/// of its process was taken, and isn't carried out.
fn with_order(rt: &(impl AllocGlobal + Abort), fails: u64) -> Box<Keeper<Fuse<MemDisk>>> {
    let mut keeper = keeper_over(rt, Fuse::new(new_store(rt), fails));
    let boot = Event::Happened(Happening::Booted { boot: boot(rt) });
    take(rt, &mut keeper, boot, 0);
    take(rt, &mut keeper, put(rt, "lib/a.service", SLEEPS), 0);
    take(rt, &mut keeper, Event::Commanded(Command::DaemonReload), 0);
    let start = Command::ForUnit {
        verb: UnitVerb::Start,
        unit: unit!(rt, "a.service"),
        mode: JobMode::Replace,
    };
    take(rt, &mut keeper, Event::Commanded(start), 1);
    keeper
}

/// The disk that a crash leaves within the record of two sectors after the start: of each of them the old or the new
/// value.
fn left(rt: &(impl AllocGlobal + Abort), picks: &[usize]) -> MemDisk {
    let calls = Box::into_inner(with_order(rt, 0)).into_disk().calls();
    // the record's sync: two sectors are written before it
    let fails = calls.checked_add(3).expect(rt, "too many");
    let mut keeper = with_order(rt, fails);
    // a text of 450 bytes, whose record takes two sectors
    let text = "#".repeat(rt.alloc(), 450).expect(rt, "no memory");
    let torn = submit(&mut keeper, put(rt, "lib/b.service", text.as_str()));
    same!(rt, matches!(&torn, Err(Refusal::Device)), true);
    drop(torn);
    let disk = Box::into_inner(keeper).into_disk().into_inner();
    disk.crash(rt.alloc(), picks).expect(rt, "no memory")
}

/// Asserts that all but the number were forgotten, below the next one, that it was queried once, with a claim, and
/// reported absent, that it was forgotten then, and that nothing was started or signalled.
fn told_absent(rt: &impl Abort, calls: &[Call]) {
    let [
        Call::ForgotOthers { live, next },
        Call::Asked {
            number,
            claim: true,
            told: Some(Fate::Absent),
        },
        Call::Forgot { number: forgotten },
    ] = calls
    else {
        rt.abort()
    };
    same!(rt, number.get(), 1);
    same!(rt, forgotten.get(), 1);
    same!(rt, live.as_slice(), [*number].as_slice());
    same!(rt, next.get(), 2);
}

/// The manager that is opened after the crash.
fn again(rt: &(impl AllocGlobal + Abort), picks: &[usize]) -> Box<InMemory> {
    let manager = over(rt, left(rt, picks));
    same!(rt, manager.adopted(), 1);
    manager
}

/// What a crash leaves of the torn record, and how many files the manager has then: that of the record is absent where the record is.
const LEFT: &[([usize; 2], usize)] = &[([0, 0], 1), ([1, 0], 1), ([0, 1], 1), ([1, 1], 2)];

/// Asserts that the manager that is opened after the crash has this many files, and that the number of the order is
/// absent.
fn is_lost(rt: &(impl AllocGlobal + Abort), picks: &[usize], files: usize) {
    let manager = again(rt, picks);
    same!(rt, manager.state().tree().len(), files);
    let (_, children) = parts_of(manager);
    told_absent(rt, children.calls());
}

/// Asserts that these turns are answered so.
fn answers<D: Disk, C: Children>(
    rt: &(impl AllocGlobal + Abort),
    manager: &mut Manager<D, C>,
    sent: &[&[u8]],
    replies: &[&str],
) {
    play(rt, manager, sent);
    has_output(rt, manager, 0, replies);
}

/// Asserts that the manager that is opened after the crash starts the next number.
fn starts_next(rt: &(impl AllocGlobal + Abort), picks: &[usize]) {
    let mut manager = again(rt, picks);
    let requests = frames(rt, &[SHOW, START]);
    let sent = [requests.as_slice(), &[], &[]];
    answers(rt, &mut manager, &sent, &[LOST, DONE]);
    same!(rt, started(rt, manager).as_slice(), [2].as_slice());
}

#[test]
fn a_start_whose_order_was_lost_with_a_crash_is_lost_and_no_number_is_started_twice(
    rt: HostRuntime,
) {
    for (picks, files) in LEFT {
        is_lost(&rt, picks, *files);
        starts_next(&rt, picks);
    }
}

#[test]
fn what_was_adopted_is_there_again_when_the_manager_is_opened_once_more(rt: HostRuntime) {
    let (disk, _) = parts_of(again(&rt, &[0, 1]));
    let mut manager = over(&rt, disk);
    same!(&rt, manager.adopted(), 0);
    let requests = frames(&rt, &[PUT, RELOAD, SHOW]);
    let sent = [requests.as_slice(), &[], &[], &[]];
    answers(&rt, &mut manager, &sent, &[DONE, DONE, LOST]);
    same!(&rt, started(&rt, manager).is_empty(), true);
}
