//! A client whose round finds little memory: if its turn finds none for itself, the bytes read are lost, and nothing is served after that.

use crate::hoard::Hoard;
use crate::managers;
use crate::sessions::frames;
use std::alloc::Global;
use um_children::FakeChildren;
use um_gate::{FakeGate, FakeMoments};
use um_manager::Manager;
use um_model::Moment;
use um_sector::MemDisk;
use um_serve::Buffered;
use um_store_in_turn::rows::boot_of;
use um_store_in_turn::stores::made;
use um_store_in_turn::wrong::{Wrong, found};
use um_wire::Refusal;

/// The request of the client.
const JOBS: &str = r#"{"verb":"list-jobs"}"#;

/// A manager over a gate.
#[derive(Drop)]
struct Serving {
    manager: Box<Manager<MemDisk, FakeChildren>>,
    gate: Box<Buffered<FakeGate>>,
    clock: FakeMoments,
}

impl Serving {
    /// One round.
    fn round(&mut self) -> Result<(), Refusal> {
        let gate = self.gate.as_mut();
        managers::serve(self.manager.as_mut(), gate, &mut self.clock, 1)
    }

    /// How much the gate has done, and how often the clock was read.
    fn done(&self) -> (usize, usize) {
        let notes = self.gate.as_ref().gate.notes();
        (notes.len(), self.clock.given().len())
    }
}

/// A manager over a gate after a round without clients, which has made room for the bytes read; then a client comes.
fn begun(alloc: Global) -> Result<Serving, Wrong> {
    let boot = boot_of(alloc, "one")?;
    let manager = managers::opened(alloc, made(alloc)?, FakeChildren::new(alloc), boot)?;
    let gate = Buffered::new(alloc, FakeGate::new(alloc)?)?;
    let mut serving = Serving {
        manager,
        gate: Box::new(alloc, gate)?,
        clock: FakeMoments::new(alloc, Moment::FIRST, 0),
    };
    serving.round()?;
    let mut parts = Vec::new(alloc);
    parts.push(frames(alloc, &[JOBS])?)?;
    serving.gate.as_mut().gate.client(0, parts, false, 4096)?;
    Ok(serving)
}

/// Asserts that a round is answered E15, though there is memory, and that it neither uses the gate nor reads the clock.
fn is_over(serving: &mut Serving) -> Result<(), Wrong> {
    let before = serving.done();
    if !matches!(serving.round(), Err(Refusal::NoMemory)) {
        return Err(found("a round is served behind a lost read"));
    }
    if serving.done() != before {
        return Err(found("the gate is asked behind a lost read"));
    }
    Ok(())
}

/// The client's round finds this many grains; returns whether the bytes that it read were lost. Then nothing is served after it.
pub fn is_lost(alloc: Global, grains: Option<usize>) -> Result<bool, Wrong> {
    let mut serving = begun(alloc)?;
    let hoard = Hoard::all_but(alloc, grains)?;
    let told = serving.round();
    drop(hoard);
    match told {
        Ok(()) => Ok(false),
        Err(Refusal::NoMemory) => {
            is_over(&mut serving)?;
            Ok(true)
        }
        Err(refusal) => Err(Wrong::from(refusal)),
    }
}
