//! The engine alone, with no keeper, disk or children: the states and answers that a list of inputs leads to.

use crate::rows::{Row, input_of};
use crate::stores::layout;
use crate::wrong::{Wrong, found};
use std::alloc::Global;
use um_engine::Engine;
use um_keeper::{Handed, Receipt};
use um_model::{ProcessNumber, Signal};
use um_proto::write_reply;
use um_state::{Action, Input, Reply, State};
use um_wire::{Refusal, spell};

/// An order for a process: its start, or a signal.
#[derive(Clone, Copy, Debug, PartialEq, Eq)]
pub struct Order {
    pub number: ProcessNumber,
    pub signal: Option<Signal>,
}

/// The answer to an input: the text of its reply, and the orders for processes.
#[derive(Drop)]
pub struct Answer {
    pub reply: Vec<u8>,
    pub orders: Vec<Order>,
}

impl Answer {
    /// Whether both answers have the same reply and the same orders.
    pub fn is(&self, other: &Answer) -> bool {
        self.reply.as_slice() == other.reply.as_slice()
            && self.orders.as_slice() == other.orders.as_slice()
    }
}

/// The text of a reply, which is dropped.
fn text_of(alloc: Global, reply: Reply) -> Result<Vec<u8>, Wrong> {
    let written = write_reply(alloc, &reply);
    drop(reply);
    Ok(written?.bytes)
}

/// The answer that is a refusal.
pub fn refused(alloc: Global, refusal: Refusal) -> Result<Answer, Wrong> {
    Ok(Answer {
        reply: text_of(alloc, Reply::Refused(refusal))?,
        orders: Vec::new(alloc),
    })
}

/// The answer of a receipt, which is spent.
pub fn spent(alloc: Global, mut receipt: Receipt) -> Result<Answer, Wrong> {
    let mut orders = Vec::new(alloc);
    let mut is_short = false;
    while let Some(handed) = receipt.next_action() {
        let order = match handed {
            Handed::Spawn(spawn) => Order {
                number: spawn.number(),
                signal: None,
            },
            Handed::Signal { number, signal } => Order {
                number,
                signal: Some(signal),
            },
        };
        is_short |= orders.push(order).is_err();
    }
    let reply = text_of(alloc, receipt.finish())?;
    if is_short {
        return Err(Wrong::NoMemory);
    }
    Ok(Answer { reply, orders })
}

fn orders_of(alloc: Global, actions: &[Action]) -> Result<Vec<Order>, Wrong> {
    let mut orders = Vec::new(alloc);
    for action in actions {
        let order = match action {
            Action::Spawn { number, .. } => Order {
                number: *number,
                signal: None,
            },
            Action::Signal { number, signal } => Order {
                number: *number,
                signal: Some(*signal),
            },
        };
        orders.push(order)?;
    }
    Ok(orders)
}

/// An engine without a disk.
#[derive(Drop)]
pub struct Alone {
    alloc: Global,
    engine: Box<Engine>,
}

impl Alone {
    /// An engine in the empty state.
    pub fn new(alloc: Global) -> Result<Alone, Wrong> {
        let size = layout()?.body_limit() as u64;
        match Engine::of(alloc, State::empty(alloc), size)? {
            Some(engine) => Ok(Alone {
                alloc,
                engine: Box::new(alloc, engine)?,
            }),
            None => Err(found("no engine")),
        }
    }

    /// The canonical bytes of its state.
    pub fn bytes(&self) -> Result<Vec<u8>, Wrong> {
        Ok(spell(self.alloc, self.engine.state())?)
    }

    /// Takes an input, or refuses it.
    pub fn take(&mut self, input: &Input) -> Result<Answer, Wrong> {
        let next = match self.engine.plan(input) {
            Ok(next) => next,
            Err(Refusal::NoMemory) => return Err(Wrong::NoMemory),
            Err(refusal) => return refused(self.alloc, refusal),
        };
        let (reply, actions, _) = self.engine.commit(next);
        Ok(Answer {
            reply: text_of(self.alloc, reply)?,
            orders: orders_of(self.alloc, actions.as_slice())?,
        })
    }

    /// Takes the input of a row.
    pub fn take_row(&mut self, row: Row) -> Result<Answer, Wrong> {
        self.take(&input_of(self.alloc, row)?)
    }
}

/// The course of a list of rows: the state after each of its beginnings, and each answer.
#[derive(Drop)]
pub struct Course {
    pub states: Vec<Vec<u8>>,
    pub answers: Vec<Answer>,
    /// The state after each beginning and the row that a run goes on with.
    pub onward: Vec<Vec<u8>>,
}

/// The row that a run goes on with.
pub const ONWARD: Row = (0, crate::rows::Coming::Put("lib/onward.service", "#"));

fn onward(alloc: Global, rows: &[Row]) -> Result<Vec<u8>, Wrong> {
    let mut alone = Alone::new(alloc)?;
    for row in rows {
        alone.take_row(*row)?;
    }
    alone.take_row(ONWARD)?;
    alone.bytes()
}

/// The course of rows by the engine alone.
pub fn course_of(alloc: Global, rows: &[Row]) -> Result<Course, Wrong> {
    let mut alone = Alone::new(alloc)?;
    let mut states = vec![in alloc; alone.bytes()?]?;
    let mut answers = Vec::new(alloc);
    for row in rows {
        answers.push(alone.take_row(*row)?)?;
        states.push(alone.bytes()?)?;
    }
    Ok(Course {
        states,
        answers,
        onward: Vec::new(alloc),
    })
}

/// The same, with the state after each beginning and one more row.
pub fn course_onward(alloc: Global, rows: &[Row]) -> Result<Course, Wrong> {
    let mut course = course_of(alloc, rows)?;
    for count in 0..=rows.len() {
        let beginning = rows.get(..count).unwrap_or(&[]);
        course.onward.push(onward(alloc, beginning)?)?;
    }
    Ok(course)
}

impl Course {
    /// The beginning, of at least `low` and at most `high` rows, that leads to these bytes.
    pub fn place(&self, low: usize, high: usize, bytes: &[u8]) -> Option<usize> {
        for count in low..=high {
            if self.is_at(count, bytes) {
                return Some(count);
            }
        }
        None
    }

    /// Whether the beginning of `count` rows leads to these bytes.
    pub fn is_at(&self, count: usize, bytes: &[u8]) -> bool {
        match self.states.get(count) {
            Some(state) => state.as_slice() == bytes,
            None => false,
        }
    }

    /// Whether that beginning and one more row lead to these bytes.
    pub fn is_onward(&self, count: usize, bytes: &[u8]) -> bool {
        match self.onward.get(count) {
            Some(state) => state.as_slice() == bytes,
            None => false,
        }
    }
}
