//! Orders of a keeper, which alone can make one.
use std::process::Abort;
use um_asserts::{same_at, text, unit};
use um_children::{Children, Fate};
use um_keeper::{Handed, Keeper, Receipt, SpawnOrder, create};
use um_model::{JobMode, Layout, Moment, NextNumber, ProcessNumber, UnitVerb};
use um_sector::{Disk, MemDisk};
use um_state::{Command, Event, Input};

pub fn number(rt: &impl Abort, n: u64) -> ProcessNumber {
    ProcessNumber::new(n).expect(rt, "no process number")
}

/// The number that is started next.
pub fn next(rt: &impl Abort, n: u64) -> NextNumber {
    NextNumber::new(n).expect(rt, "no next number")
}

/// Asserts the fate of a number.
pub fn told<C: Children>(rt: &impl Abort, children: &mut C, n: u64, claim: bool, wanted: Fate) {
    same_at!(rt, children.fate(number(rt, n), claim), Ok(wanted), n);
}

/// The keeper that is opened over a disk, in a box, which a row drops in one call.
pub fn keeper_over<D: Disk>(rt: &(impl AllocGlobal + Abort), disk: D) -> Box<Keeper<D>> {
    match Keeper::open(rt.alloc(), disk) {
        Ok(keeper) => Box::new(rt.alloc(), keeper).expect(rt, "no memory"),
        Err(_) => rt.abort(),
    }
}

/// The keeper of a new store in memory, with room for a unit of 64 kB.
fn keeper(rt: &(impl AllocGlobal + Abort)) -> Box<Keeper<MemDisk>> {
    let mut disk = MemDisk::new(rt.alloc(), 1_537).expect(rt, "no memory");
    let layout = Layout::new(512, 512).expect(rt, "no layout");
    create(rt.alloc(), &mut disk, layout).expect(rt, "not created");
    keeper_over(rt, disk)
}

/// The order that was handed out, if it is one.
fn spawn_in(handed: Handed) -> Option<SpawnOrder> {
    match handed {
        Handed::Spawn(spawn) => Some(spawn),
        Handed::Signal { .. } => None,
    }
}

/// Spends a receipt, and gives its last order.
fn order_in(mut receipt: Receipt) -> Option<SpawnOrder> {
    let mut order = None;
    while let Some(handed) = receipt.next_action() {
        if let Some(spawn) = spawn_in(handed) {
            drop(order);
            order = Some(spawn);
        }
    }
    receipt.finish();
    order
}

/// The order of a command at moment 0 that is accepted, if any.
fn take<D: Disk>(rt: &impl Abort, keeper: &mut Keeper<D>, command: Command) -> Option<SpawnOrder> {
    let input = Input::new(Moment::FIRST, Event::Commanded(command));
    order_in(keeper.submit(input).expect(rt, "not taken"))
}

/// The order that starts a service with these lines, the first one of a new store.
pub fn order(rt: &(impl AllocGlobal + Abort), lines: &str) -> SpawnOrder {
    let alloc = rt.alloc();
    let mut keeper = keeper(rt);
    let path = text!(rt, "lib/a.service");
    let text = format!(in alloc; "[Service]\n{lines}\n").expect(rt, "no memory");
    drop(take(rt, &mut keeper, Command::PutFile { path, text }));
    drop(take(rt, &mut keeper, Command::DaemonReload));
    let start = Command::ForUnit {
        verb: UnitVerb::Start,
        unit: unit!(rt, "a.service"),
        mode: JobMode::Replace,
    };
    take(rt, &mut keeper, start).expect(rt, "no order")
}
