//! A manager whose children fail a call, beside the engine alone, which takes the same fates and requests.

use crate::faulty_children::FaultyChildren;
use crate::managers;
use crate::sessions::{frame, sent, silence};
use std::alloc::Global;
use um_children::{Call, End, Fate, ProcessNumber};
use um_manager::{Connection, Manager};
use um_model::Moment;
use um_sector::MemDisk;
use um_state::{Event, Happening, Input};
use um_store_in_turn::alone::{Alone, Order};
use um_store_in_turn::rows::{Coming, Row};
use um_store_in_turn::wrong::{Wrong, found};
use um_wire::spell;

/// The boot of all runs.
pub const BOOT: &str = "one";

/// A manager over a disk in memory and these children.
pub type Running = Manager<MemDisk, FaultyChildren>;

/// A manager, and beside it the engine alone, which takes the same fates and requests.
#[derive(Drop)]
pub struct Watched {
    pub manager: Box<Running>,
    pub alone: Alone,
    /// The number of calls of the children that were looked at.
    pub seen: usize,
    /// The numbers whose fates must be queried with a claim.
    claimed: Vec<ProcessNumber>,
    /// Those of them whose fate wasn't reported since.
    pub untold: Vec<ProcessNumber>,
}

fn happened(happening: Happening) -> Input {
    Input::new(Moment::FIRST, Event::Happened(happening))
}

/// The engine alone takes a happening; its orders are added after the others.
fn take_happening(
    alone: &mut Alone,
    happening: Happening,
    orders: &mut Vec<Order>,
) -> Result<(), Wrong> {
    let input = happened(happening);
    let answer = alone.take(&input);
    drop(input);
    orders.extend_from_slice(answer?.orders.as_slice())?;
    Ok(())
}

/// The engine alone takes the happenings of a fate; a process that is absent ended in this way.
fn hear_one(
    alone: &mut Alone,
    number: ProcessNumber,
    fate: Fate,
    absent: End,
    orders: &mut Vec<Order>,
) -> Result<(), Wrong> {
    let is_executed = match fate {
        Fate::Executed => true,
        Fate::Ended(end) => end != End::Code(203),
        Fate::Starting | Fate::Absent => false,
    };
    let number = number.get();
    if is_executed {
        take_happening(alone, Happening::ProcessExecuted { number }, orders)?;
    }
    let end = match fate {
        Fate::Ended(end) => end,
        Fate::Absent => absent,
        Fate::Starting | Fate::Executed => return Ok(()),
    };
    take_happening(alone, Happening::ProcessEnded { number, end }, orders)
}

/// The engine alone takes all fates that were reported in these calls.
fn hear(
    alone: &mut Alone,
    calls: &[Call],
    absent: End,
    orders: &mut Vec<Order>,
) -> Result<(), Wrong> {
    for call in calls {
        if let Call::Asked {
            number,
            told: Some(fate),
            ..
        } = call
        {
            hear_one(alone, *number, *fate, absent, orders)?;
        }
    }
    Ok(())
}

/// The orders in these calls.
fn ordered(alloc: Global, calls: &[Call]) -> Result<Vec<Order>, Wrong> {
    let mut orders = Vec::new(alloc);
    for call in calls {
        match call {
            Call::Spawned { number, .. } => orders.push(Order {
                number: *number,
                signal: None,
            })?,
            Call::Signalled { number, signal } => orders.push(Order {
                number: *number,
                signal: Some(*signal),
            })?,
            _ => {}
        }
    }
    Ok(orders)
}

/// Asserts that each number that must be queried with a claim was queried so.
fn are_claimed(calls: &[Call], claimed: &[ProcessNumber]) -> Result<(), Wrong> {
    for call in calls {
        if let Call::Asked { number, claim, .. } = call {
            if claimed.contains(number) && !*claim {
                return Err(found("a number is asked without a claim"));
            }
        }
    }
    Ok(())
}

/// Whether the first query for the fate of a number in these calls got a fate; wrong if there is no such query.
fn is_told(calls: &[Call], process: ProcessNumber) -> Result<bool, Wrong> {
    for call in calls {
        if let Call::Asked { number, told, .. } = call {
            if *number == process {
                return Ok(told.is_some());
            }
        }
    }
    Err(found("a number isn't asked again"))
}

/// How often a number was ordered to be started.
fn starts_of(calls: &[Call], process: ProcessNumber) -> usize {
    let mut count: usize = 0;
    for call in calls {
        if let Call::Spawned { number, .. } = call {
            if *number == process {
                count = count.saturating_add(1);
            }
        }
    }
    count
}

/// Asserts that no number was ordered to be started twice.
fn are_started_once(calls: &[Call]) -> Result<(), Wrong> {
    for call in calls {
        if let Call::Spawned { number, .. } = call {
            if starts_of(calls, *number) > 1 {
                return Err(found("a number is started twice"));
            }
        }
    }
    Ok(())
}

/// Asserts that these orders were carried out; after them an opening may send signals again.
fn are_carried_out(done: &[Order], orders: &[Order], is_opening: bool) -> Result<(), Wrong> {
    if !done.starts_with(orders) {
        return Err(found("other orders than those that are due"));
    }
    for order in done.iter().skip(orders.len()) {
        if !is_opening || order.signal.is_none() {
            return Err(found("more orders than those that are due"));
        }
    }
    Ok(())
}

/// The numbers whose fates aren't reported yet.
fn left_untold(
    alloc: Global,
    calls: &[Call],
    untold: &[ProcessNumber],
) -> Result<Vec<ProcessNumber>, Wrong> {
    let mut left = Vec::new(alloc);
    for number in untold {
        if !is_told(calls, *number)? {
            left.push(*number)?;
        }
    }
    Ok(left)
}

/// The calls of a manager's children after the first `seen`.
fn calls_behind(manager: &Running, seen: usize) -> &[Call] {
    manager.children().notes().get(seen..).unwrap_or(&[])
}

impl Watched {
    /// Compares the calls of a turn or an opening, and the state after it, with the orders and the state of the engine alone.
    fn look(&mut self, alloc: Global, orders: &[Order], is_opening: bool) -> Result<(), Wrong> {
        let calls = calls_behind(self.manager.as_ref(), self.seen);
        let done = ordered(alloc, calls)?;
        are_carried_out(done.as_slice(), orders, is_opening)?;
        are_claimed(calls, self.claimed.as_slice())?;
        are_started_once(self.manager.children().notes())?;
        let untold = left_untold(alloc, calls, self.untold.as_slice())?;
        self.seen = self.manager.children().notes().len();
        self.untold = untold;
        self.mark()?;
        let bytes = spell(alloc, self.manager.state())?;
        if bytes.as_slice() != self.alone.bytes()?.as_slice() {
            return Err(found("the state isn't what was told and asked"));
        }
        Ok(())
    }

    /// A number whose start was refused must be queried with a claim from now on.
    fn mark(&mut self) -> Result<(), Wrong> {
        if let Some(number) = self.manager.children().refused() {
            if !self.claimed.contains(&number) {
                self.claimed.push(number)?;
                self.untold.push(number)?;
            }
        }
        Ok(())
    }

    /// The engine alone takes the boot and the fates that the opening got.
    fn begin(&mut self, alloc: Global) -> Result<(), Wrong> {
        let mut orders = Vec::new(alloc);
        self.alone.take_row((0, Coming::Booted(BOOT)))?;
        let calls = calls_behind(self.manager.as_ref(), self.seen);
        hear(&mut self.alone, calls, End::Lost, &mut orders)?;
        self.claimed = asked(alloc, calls)?;
        let untold = left_untold(alloc, calls, self.claimed.as_slice())?;
        self.look(alloc, orders.as_slice(), true)?;
        self.untold = untold;
        Ok(())
    }

    /// Asserts that the reply to a row is that of the engine; returns the orders of the engine.
    fn is_answer(&mut self, alloc: Global, row: Row, bytes: &[u8]) -> Result<Vec<Order>, Wrong> {
        let answer = self.alone.take_row(row)?;
        if bytes != frame(alloc, answer.reply.as_slice())?.as_slice() {
            return Err(found("another reply than that of the engine"));
        }
        Ok(answer.orders)
    }

    /// The orders of the engine alone for the fates reported, then a tick, and then the row.
    fn due(&mut self, alloc: Global, row: Option<Row>, bytes: &[u8]) -> Result<Vec<Order>, Wrong> {
        let mut orders = Vec::new(alloc);
        let calls = calls_behind(self.manager.as_ref(), self.seen);
        hear(&mut self.alone, calls, End::Code(203), &mut orders)?;
        let tick = self.alone.take_row((0, Coming::Tick))?;
        orders.extend_from_slice(tick.orders.as_slice())?;
        if let Some(row) = row {
            let more = self.is_answer(alloc, row, bytes)?;
            orders.extend_from_slice(more.as_slice())?;
        }
        Ok(orders)
    }

    /// A turn in which this request comes, or nothing, and the row that it is.
    pub fn turn(&mut self, alloc: Global, text: &str, row: Option<Row>) -> Result<(), Wrong> {
        let Some(connection) = Connection::new(0) else {
            return Err(found("no connection"));
        };
        let pieces = if text.is_empty() {
            silence(alloc)?
        } else {
            sent(alloc, 0, &[text])?
        };
        managers::turn(self.manager.as_mut(), &pieces)?;
        let output = self.manager.output(connection);
        let orders = self.due(alloc, row, output.bytes.as_slice())?;
        self.look(alloc, orders.as_slice(), false)
    }
}

/// The numbers that were queried in these calls, each with a claim.
fn asked(alloc: Global, calls: &[Call]) -> Result<Vec<ProcessNumber>, Wrong> {
    let mut numbers = Vec::new(alloc);
    for call in calls {
        if let Call::Asked { number, claim, .. } = call {
            if !*claim {
                return Err(found("an opening asks without a claim"));
            }
            numbers.push(*number)?;
        }
    }
    Ok(numbers)
}

/// Watches a manager that was just opened, beside the engine alone as it was before that opening.
pub fn watch(
    alloc: Global,
    manager: Box<Running>,
    alone: Alone,
    seen: usize,
) -> Result<Watched, Wrong> {
    let mut watched = Watched {
        manager,
        alone,
        seen,
        claimed: Vec::new(alloc),
        untold: Vec::new(alloc),
    };
    watched.begin(alloc)?;
    Ok(watched)
}
