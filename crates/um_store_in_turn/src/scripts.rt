//! Scripts of a store, and how far one comes over a disk that fails a call.

use crate::alone::spent;
use crate::rows::{Row, input_of, inputs_of};
use crate::stores;
use crate::stores::{blank, create_on, made, made_old, opened};
use crate::wrong::{Wrong, found};
use std::alloc::Global;
use um_keeper::{Keeper, Receipt};
use um_sector::{Fuse, MemDisk};
use um_wire::Refusal;

/// A disk that fails a call.
pub type Failing = Fuse<MemDisk>;

/// A call of a keeper.
#[derive(Clone, Copy)]
pub enum Deed {
    /// The next row is submitted.
    Input,
    /// This many rows are submitted as one list.
    List(usize),
    /// This many sectors of a snapshot under way go out.
    Step(u32),
    Checkpoint,
    /// The store is opened again.
    Open,
}

/// The store with which a script begins.
#[derive(Clone, Copy)]
pub enum Start {
    /// It is created.
    New,
    /// One of layout 1 and this generation, which holds this many rows.
    Old(u8, usize),
}

/// A store is there, it is opened, and then these calls are made over these rows.
#[derive(Drop)]
pub struct Script {
    pub start: Start,
    pub rows: Vec<Row>,
    pub deeds: Vec<Deed>,
}

impl Script {
    /// No call after a creation and an opening.
    pub fn new(alloc: Global) -> Script {
        Script {
            start: Start::New,
            rows: Vec::new(alloc),
            deeds: Vec::new(alloc),
        }
    }

    /// No call after the opening of a store of layout 1 and this generation that holds these rows.
    pub fn old(alloc: Global, generation: u8, rows: &[Row]) -> Result<Script, Wrong> {
        let mut script = Script::new(alloc);
        script.start = Start::Old(generation, rows.len());
        script.rows.extend_from_slice(rows)?;
        Ok(script)
    }

    /// The disk on which it begins.
    pub fn disk(&self, alloc: Global) -> Result<MemDisk, Wrong> {
        match self.start {
            Start::New => blank(alloc),
            Start::Old(generation, count) => {
                old_store(alloc, generation, self.rows_from(0, count)?)
            }
        }
    }

    /// Each of these rows is submitted.
    pub fn each(&mut self, rows: &[Row]) -> Result<(), Wrong> {
        for row in rows {
            self.rows.push(*row)?;
            self.deeds.push(Deed::Input)?;
        }
        Ok(())
    }

    /// These rows are submitted as one list.
    pub fn list(&mut self, rows: &[Row]) -> Result<(), Wrong> {
        self.rows.extend_from_slice(rows)?;
        self.deeds.push(Deed::List(rows.len()))?;
        Ok(())
    }

    /// This call is made next.
    pub fn deed(&mut self, deed: Deed) -> Result<(), Wrong> {
        self.deeds.push(deed)?;
        Ok(())
    }

    fn rows_from(&self, done: usize, count: usize) -> Result<&[Row], Wrong> {
        match self.rows.get(done..done.saturating_add(count)) {
            Some(rows) => Ok(rows),
            None => Err(found("a script of too few rows")),
        }
    }
}

/// How far a script came.
#[derive(Drop)]
pub enum Outcome {
    /// To its end, with this many calls of the disk.
    Done(u64),
    /// The creation was refused.
    Creating(MemDisk),
    /// An opening was refused, after this many rows.
    Opening(MemDisk, usize),
    /// A call of the keeper was refused: the number of rows before it, and of rows in it.
    Taking(Box<Keeper<Failing>>, usize, usize),
}

/// How a call went.
#[derive(Drop)]
enum Gone {
    /// It was done, with this many rows.
    On(Box<Keeper<Failing>>, usize),
    Refused(Box<Keeper<Failing>>, usize),
    NotOpened(Failing),
}

/// How the call went that got this refusal.
fn refused_by(keeper: Box<Keeper<Failing>>, refusal: Refusal) -> Result<Gone, Wrong> {
    let is_fault = matches!(refusal, Refusal::Device);
    let is_due = !matches!(refusal, Refusal::NoMemory | Refusal::Reopen);
    drop(refusal);
    if is_fault {
        return Ok(Gone::Refused(keeper, 1));
    }
    if is_due {
        return Ok(Gone::On(keeper, 1));
    }
    Err(found("a refusal that isn't due"))
}

fn submit(alloc: Global, keeper: Box<Keeper<Failing>>, row: Row) -> Result<Gone, Wrong> {
    let mut keeper = keeper;
    match stores::submit(keeper.as_mut(), input_of(alloc, row)?) {
        Ok(receipt) => {
            spent(alloc, receipt)?;
            Ok(Gone::On(keeper, 1))
        }
        Err(refusal) => refused_by(keeper, refusal),
    }
}

/// The kind of an answer in a list.
#[derive(Clone, Copy)]
enum Kind {
    Done,
    Fault,
    Refused,
}

/// Spends an answer, and returns its kind.
fn spent_kind(alloc: Global, answer: Result<Receipt, Refusal>) -> Kind {
    match answer {
        Ok(receipt) => {
            drop(spent(alloc, receipt));
            Kind::Done
        }
        Err(refusal) => {
            let is_fault = matches!(refusal, Refusal::Device);
            drop(refusal);
            if is_fault { Kind::Fault } else { Kind::Refused }
        }
    }
}

/// How many of the answers are receipts, and how many are E16.
fn counted(alloc: Global, answers: Vec<Result<Receipt, Refusal>>) -> (usize, usize) {
    let mut done: usize = 0;
    let mut faults: usize = 0;
    let mut rest = answers.into_iter();
    while let Some(answer) = rest.next() {
        match spent_kind(alloc, answer) {
            Kind::Done => done = done.saturating_add(1),
            Kind::Fault => faults = faults.saturating_add(1),
            Kind::Refused => {}
        }
    }
    rest.destroy_empty();
    (done, faults)
}

/// Spends the answers to a list.
pub fn let_go(alloc: Global, answers: Vec<Result<Receipt, Refusal>>) {
    let _counts = counted(alloc, answers);
}

fn submit_all(alloc: Global, keeper: Box<Keeper<Failing>>, rows: &[Row]) -> Result<Gone, Wrong> {
    let mut keeper = keeper;
    let answers = keeper.submit_all(inputs_of(alloc, rows)?)?;
    if answers.len() != rows.len() {
        let_go(alloc, answers);
        return Err(found("a list without an answer each"));
    }
    match counted(alloc, answers) {
        (_, 0) => Ok(Gone::On(keeper, rows.len())),
        (0, _) => Ok(Gone::Refused(keeper, rows.len())),
        (_, _) => Err(found("a receipt beside E16")),
    }
}

fn step(keeper: Box<Keeper<Failing>>, sectors: u32) -> Result<Gone, Wrong> {
    let mut keeper = keeper;
    let before = keeper.left();
    match keeper.step(sectors) {
        Ok(told) => {
            let left = keeper.left();
            if left != before.saturating_sub(sectors) || told != (left == 0) {
                return Err(found("a step that wrote something else"));
            }
            Ok(Gone::On(keeper, 0))
        }
        Err(Refusal::Device) => Ok(Gone::Refused(keeper, 0)),
        Err(refusal) => Err(Wrong::from(refusal)),
    }
}

fn checkpoint(keeper: Box<Keeper<Failing>>) -> Result<Gone, Wrong> {
    let mut keeper = keeper;
    match keeper.checkpoint() {
        Ok(()) => Ok(Gone::On(keeper, 0)),
        Err(Refusal::Device) => Ok(Gone::Refused(keeper, 0)),
        Err(refusal) => Err(Wrong::from(refusal)),
    }
}

fn open(alloc: Global, disk: Failing) -> Result<Gone, Wrong> {
    match stores::open(alloc, disk) {
        Ok(keeper) => Ok(Gone::On(keeper, 0)),
        Err((Refusal::Device, disk)) => Ok(Gone::NotOpened(disk)),
        Err((refusal, _)) => Err(Wrong::from(refusal)),
    }
}

/// A store of layout 1 and this generation that holds these rows.
fn old_store(alloc: Global, generation: u8, rows: &[Row]) -> Result<MemDisk, Wrong> {
    let mut keeper = opened(alloc, made(alloc)?)?;
    keeper.checkpoint()?;
    for row in rows {
        match stores::submit(keeper.as_mut(), input_of(alloc, *row)?) {
            Ok(receipt) => drop(spent(alloc, receipt)?),
            Err(refusal) => drop(refusal),
        }
    }
    made_old(Box::into_inner(keeper).into_disk(), generation)
}

impl Script {
    fn go(
        &self,
        alloc: Global,
        keeper: Box<Keeper<Failing>>,
        deed: Deed,
        done: usize,
    ) -> Result<Gone, Wrong> {
        match deed {
            Deed::Input => match self.rows_from(done, 1)? {
                [row] => submit(alloc, keeper, *row),
                _ => Err(found("a script of too few rows")),
            },
            Deed::List(count) => submit_all(alloc, keeper, self.rows_from(done, count)?),
            Deed::Step(sectors) => step(keeper, sectors),
            Deed::Checkpoint => checkpoint(keeper),
            Deed::Open => open(alloc, Box::into_inner(keeper).into_disk()),
        }
    }

    /// How many rows its store holds as it begins.
    fn begun(&self) -> usize {
        match self.start {
            Start::New => 0,
            Start::Old(_, count) => count,
        }
    }

    /// Makes the calls after the opening.
    fn play_over(&self, alloc: Global, keeper: Box<Keeper<Failing>>) -> Result<Outcome, Wrong> {
        let mut keeper = keeper;
        let mut done = self.begun();
        for deed in self.deeds.as_slice() {
            match self.go(alloc, keeper, *deed, done)? {
                Gone::On(after, count) => {
                    keeper = after;
                    done = done.saturating_add(count);
                }
                Gone::Refused(after, count) => return Ok(Outcome::Taking(after, done, count)),
                Gone::NotOpened(disk) => return Ok(Outcome::Opening(disk.into_inner(), done)),
            }
        }
        Ok(Outcome::Done(Box::into_inner(keeper).into_disk().calls()))
    }

    /// Makes the opening of its store and the calls after it.
    fn play_from(&self, alloc: Global, disk: Failing) -> Result<Outcome, Wrong> {
        match open(alloc, disk)? {
            Gone::On(keeper, _) => self.play_over(alloc, keeper),
            Gone::Refused(_, _) => Err(found("an opening that isn't one")),
            Gone::NotOpened(disk) => Ok(Outcome::Opening(disk.into_inner(), self.begun())),
        }
    }

    /// The whole script over the disk on which it begins.
    pub fn play(&self, alloc: Global, disk: Failing) -> Result<Outcome, Wrong> {
        let mut disk = disk;
        if let Start::New = self.start {
            match create_on(alloc, &mut disk) {
                Ok(()) => {}
                Err(Refusal::Device) => return Ok(Outcome::Creating(disk.into_inner())),
                Err(refusal) => return Err(Wrong::from(refusal)),
            }
        }
        self.play_from(alloc, disk)
    }

    /// How many calls of the disk the script makes if none fails.
    pub fn calls(&self, alloc: Global) -> Result<u64, Wrong> {
        match self.play(alloc, Fuse::new(self.disk(alloc)?, 0))? {
            Outcome::Done(calls) => Ok(calls),
            _ => Err(found("a fault where nothing fails")),
        }
    }
}
