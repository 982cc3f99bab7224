//! Calls of managers, for any disk and children: if a call promises much, it costs the prover less here than where both are known.

use std::alloc::Global;
use um_children::Children;
use um_gate::{FakeMoments, Gate};
use um_manager::{Manager, Pieces};
use um_model::Moment;
use um_sector::Disk;
use um_serve::Buffered;
use um_state::BootId;
use um_store_in_turn::wrong::Wrong;
use um_wire::Refusal;

/// Opens a manager; else the refusal, with the disk and the children.
pub fn open<D: Disk, C: Children>(
    alloc: Global,
    disk: D,
    children: C,
    boot: BootId,
) -> Result<Manager<D, C>, (Refusal, D, C)> {
    Manager::open(alloc, disk, children, boot, Moment::FIRST)
}

/// Opens a manager in a place where no opening may be refused. It is boxed, since it is large.
pub fn opened<D: Disk + Drop, C: Children + Drop>(
    alloc: Global,
    disk: D,
    children: C,
    boot: BootId,
) -> Result<Box<Manager<D, C>>, Wrong> {
    match open(alloc, disk, children, boot) {
        Ok(manager) => Ok(Box::new(alloc, manager)?),
        Err((refusal, _, _)) => Err(Wrong::from(refusal)),
    }
}

/// A turn in which these pieces come.
pub fn turn<D: Disk, C: Children>(
    manager: &mut Manager<D, C>,
    pieces: &Pieces,
) -> Result<(), Refusal> {
    manager.turn(Moment::FIRST, pieces)
}

/// Serves this many rounds.
pub fn serve<D: Disk, C: Children, G: Gate>(
    manager: &mut Manager<D, C>,
    gate: &mut Buffered<G>,
    clock: &mut FakeMoments,
    rounds: usize,
) -> Result<(), Refusal> {
    um_serve::serve(manager, gate, clock, rounds)
}
