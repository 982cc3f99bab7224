//! Orders out of the receipts of a keeper, which alone can make one.

use anyhow::{Context, bail};
use std::alloc::Global;
use um_keeper::{Handed, Keeper, Receipt, SpawnOrder, create};
use um_model::{JobMode, Layout, Moment, UnitVerb};
use um_name::UnitName;
use um_sector::{Disk, MemDisk};
use um_state::{Command, Event, Input};
use um_wire::Refusal;

/// A keeper over a new store in memory, whose orders have the numbers from 1 on.
#[derive(Drop)]
pub struct Orders {
    alloc: Global,
    keeper: Box<Keeper<MemDisk>>,
    /// The number of orders given so far.
    count: u64,
}

/// The order of a receipt, if it has one. The receipt is spent.
fn order_in(receipt: Receipt) -> Option<SpawnOrder> {
    let mut receipt = receipt;
    let mut order = None;
    while let Some(handed) = receipt.next_action() {
        if let Handed::Spawn(spawn) = handed {
            order = Some(spawn);
        }
    }
    receipt.finish();
    order
}

/// Submits a command, and returns its order, if any.
fn order_of<D: Disk>(
    keeper: &mut Keeper<D>,
    command: Command,
) -> Result<Option<SpawnOrder>, Refusal> {
    let input = Input::new(Moment::FIRST, Event::Commanded(command));
    Ok(order_in(keeper.submit(input)?))
}

/// Puts the file of a service with these lines, and loads it.
fn load<D: Disk>(
    alloc: Global,
    keeper: &mut Keeper<D>,
    name: &str,
    lines: &str,
) -> Result<(), Refusal> {
    let path = format!(in alloc; "lib/{name}")?;
    let text = format!(in alloc; "[Service]\n{lines}\n")?;
    order_of(keeper, Command::PutFile { path, text })?;
    order_of(keeper, Command::DaemonReload)?;
    Ok(())
}

/// Starts a service, and returns the order for its process, if any.
fn start<D: Disk>(
    alloc: Global,
    keeper: &mut Keeper<D>,
    name: &str,
) -> Result<Option<SpawnOrder>, Refusal> {
    let unit = UnitName::parse(alloc, name)?;
    let verb = UnitVerb::Start;
    let mode = JobMode::Replace;
    order_of(keeper, Command::ForUnit { verb, unit, mode })
}

/// A new store in memory.
fn made(alloc: Global) -> anyhow::Result<MemDisk> {
    let mut disk = MemDisk::new(alloc, 641)?;
    let Some(layout) = Layout::new(64, 512) else {
        bail!("no layout");
    };
    create(alloc, &mut disk, layout)?;
    Ok(disk)
}

impl Orders {
    /// A keeper that gave no order yet.
    pub fn new(alloc: Global) -> anyhow::Result<Orders> {
        match Keeper::open(alloc, made(alloc)?) {
            Ok(keeper) => Ok(Orders {
                alloc,
                keeper: Box::new(alloc, keeper).ok().context("no memory")?,
                count: 0,
            }),
            Err((refusal, _)) => Err(refusal.into()),
        }
    }

    /// The order that starts a new service with these lines, boxed.
    pub fn order(&mut self, lines: &str) -> anyhow::Result<Box<SpawnOrder>> {
        let alloc = self.alloc;
        self.count = self.count.wrapping_add(1);
        let name = format!(in alloc; "a{}.service", self.count)?;
        let keeper = self.keeper.as_mut();
        load(alloc, keeper, name.as_str(), lines)?;
        let order = start(alloc, keeper, name.as_str())?.context("no order")?;
        Box::new(alloc, order).ok().context("no memory")
    }
}
