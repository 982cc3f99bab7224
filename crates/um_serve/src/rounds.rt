//! Rounds over a gate.

ghost use Rattle.std.specs.Prelude.{◌≡◌, ◌≢◌, ◌⊎◌, ◌↔◌, ◌||◌, nat_lt, ℕ, List, slice_get, true, false, Err, IsTrue, IfErr, IfOk, OnOk, OnErr, length, replicate};
ghost use Rattle.um_gate.specs.Frames.{KeepsClock, KeepsGate};
ghost use Rattle.um_manager.specs.Frames.{Frame};
ghost use Rattle.um_backlog.specs.Backlog.{nothing, HandsAt};
ghost use Rattle.um_gate.specs.Events.{Event, Logs};
ghost use Rattle.um_keeper.specs.Keepers.{disk_in, state_in, layout_in, has_failed};
ghost use Rattle.um_manager.specs.Places.{place_in};
ghost use Rattle.um_manager.specs.Turns.{now_in};
ghost use Rattle.um_sector.specs.Refused.{CountsDevice, IsLost};
ghost use Rattle.um_serve.specs.Clients.{IsFollowed};
ghost use Rattle.um_serve.specs.Histories.{LivesOn};
ghost use Rattle.um_serve.specs.Rounds.{Round, Serves, ServesOne, IsCount, Gathers, served, trust, SaysBelow, has_bytes, is_freed, any_stirred, EmptiesAll, is_want};
ghost use Rattle.um_serve.specs.Sleep.{IsSleptFor};

use crate::blanks::{Blank, fill_up};
use crate::deadlines::next_deadline;
use crate::listening::{Held, connection, forget_closed, has_come, held_back, listen};
use std::alloc::{AllocError, Global};
use um_backlog::Backlog;
use um_children::Children;
use um_gate::{CONNECTIONS, Gate, Moments};
use um_manager::{Manager, Output, Pieces};
use um_model::{Deadline, Moment};
use um_sector::Disk;
use um_wire::Refusal;

/// A gate, and beside it the state that goes from one round to the next: the bytes that wait for each client, the room
/// for reads, whether the last round was busy, the moment of its turn, and whether its reads were lost.
pub struct Buffered<G> {
    pub gate: G,
    alloc: Global,
    /// The pieces of the connections.
    pieces: Pieces,
    backlog: Backlog,
    blanks: Vec<Blank>,
    /// Another round may have more to do at once.
    was_busy: bool,
    /// The moment of the last turn.
    turned: Moment,
    /// The reads of a round were lost: its turn found no memory for itself.
    has_lost: bool,
}

// One call, where a derived one is taken apart at each exit.
impl<G: Drop> Drop for Buffered<G> {
    fn drop(self) {
        let Buffered {
            gate: _gate,
            alloc: _,
            pieces: _pieces,
            backlog: _backlog,
            blanks: _blanks,
            was_busy: _,
            turned: _,
            has_lost: _,
        } = self;
    }
}

/// A turn found no memory for itself.
fn wants_memory(turned: &Result<(), Refusal>) -> bool
    ensures { result ≡ is_want turned.now }
{
    matches!(turned, Err(Refusal::NoMemory))
}

/// Whether there are any.
fn has_bytes(bytes: &[u8]) -> bool
    ensures { result ≡ has_bytes bytes.now }
{
    !bytes.is_empty()
}

/// Where the clock of a manager's state stands.
fn clock_of<D: Disk, C: Children>(manager: &Manager<D, C>) -> Moment
    ensures { result ≡ (state_in manager.now.keeper).clock }
{
    manager.state().clock()
}

/// Whether the clock of a manager's state has moved from there.
fn has_moved<D: Disk, C: Children>(manager: &Manager<D, C>, before: Moment) -> bool
    ensures { result ≡ nat_lt before (state_in manager.now.keeper).clock }
{
    before.micros() < clock_of(manager).micros()
}

/// Hands to the gate the output for a client, as far as it takes that, and returns whether there is more to do for it.
fn hand_out<G: Gate>(gate: &mut G, backlog: &mut Backlog, number: usize, output: Output) -> bool
    ensures hands { (events : List Event) × HandsAt number (slice_get backlog.old number) output.bytes.items output.failed events (slice_get backlog.new number)
        × Logs (G.honest gate.old) (G.whole gate.new) (G.past gate.old) (G.past gate.new) events }
    ensures others { (other : ℕ) → other ≢ number → slice_get backlog.new other ≡ slice_get backlog.old other }
    ensures stirred { result ≡ (has_bytes output.bytes.items || is_freed (slice_get backlog.old number) (slice_get backlog.new number)) }
    ensures gate { KeepsGate G.Gate gate.old gate.new }
{
    let Output { bytes, failed } = output;
    let has_spoken = has_bytes(bytes.as_slice());
    let was_behind = backlog.is_behind(number);
    backlog.put(gate, number, bytes, failed);
    let is_behind = backlog.is_behind(number);
    has_spoken | (was_behind & !is_behind)
}

/// Hands to the gate the output of the manager for each connection, as far as it takes that, and returns whether there
/// is more to do for any.
fn speak<D: Disk, C: Children, G: Gate>(
    manager: &mut Manager<D, C>,
    gate: &mut G,
    backlog: &mut Backlog,
) -> bool
    ensures empties { EmptiesAll manager.old.sessions.items manager.new.sessions.items }
    ensures keeper { manager.new.keeper ≡ manager.old.keeper }
    ensures children { manager.new.children ≡ manager.old.children }
    ensures marks { manager.new.marks ≡ manager.old.marks }
    ensures says { (said : List Event) × SaysBelow 64 manager.old.sessions.items backlog.old said backlog.new
        × Logs (G.honest gate.old) (G.whole gate.new) (G.past gate.old) (G.past gate.new) said }
    ensures stirred { result ≡ any_stirred 64 manager.old.sessions.items backlog.old backlog.new }
    ensures gate { KeepsGate G.Gate gate.old gate.new }
{
    let mut is_stirred = false;
    for number in 0..CONNECTIONS {
        let output = manager.output(connection(number));
        is_stirred |= hand_out(gate, backlog, number, output);
    }
    is_stirred
}

impl<G: Gate + Drop> Buffered<G> {
    /// The gate, before its first round: no bytes wait for any client. If there is no memory the gate is dropped.
    pub fn new(alloc: Global, gate: G) -> Result<Buffered<G>, AllocError>
        ensures gate { IfOk result (λ buffered. buffered.gate ≡ gate) }
        ensures waits { IfOk result (λ buffered. buffered.backlog ≡ replicate 64 nothing) }
        ensures busy { IfOk result (λ buffered. buffered.was_busy ≡ false) }
        ensures turned { IfOk result (λ buffered. buffered.turned ≡ 0) }
        ensures lost { IfOk result (λ buffered. buffered.has_lost ≡ false) }
    {
        Ok(Buffered {
            pieces: Pieces::none(alloc)?,
            backlog: Backlog::new(alloc)?,
            gate,
            alloc,
            blanks: Vec::new(alloc),
            was_busy: false,
            turned: Moment::FIRST,
            has_lost: false,
        })
    }
}

impl<G: Gate> Buffered<G> {
    /// Whether another round may have more to do at once: the last one read something, put something out or changed the
    /// state, or a slow client is read again.
    pub fn was_busy(&self) -> bool
        ensures { result ≡ self.now.was_busy }
    {
        self.was_busy
    }

    /// The deadline that is to be slept for after the last round: the next one past the moment of its turn, of all
    /// units of the manager that it served. None where there is none.
    pub fn deadline<D: Disk, C: Children>(
        &self,
        manager: &Manager<D, C>,
    ) -> Result<Option<Deadline>, AllocError>
        ensures { IfOk result (λ deadline. IsSleptFor (state_in manager.now.keeper) self.now.turned deadline) }
    {
        Ok(next_deadline(manager.state().units(), self.turned))
    }

    /// An accept and a read of each open connection; of those that are held back nothing is read. If there is no room
    /// for the bytes of a read nothing is done.
    fn gather(&mut self, held: Held) -> Result<(), AllocError>
        ensures gathers { OnOk result (Gathers (G.honest self.old.gate) (G.whole self.new.gate) held.is_held self.new.pieces
            (G.past self.old.gate) (G.past self.new.gate) self.old.backlog self.new.backlog self.new.was_busy) }
        ensures turned { self.new.turned ≡ self.old.turned }
        ensures lost { self.new.has_lost ≡ self.old.has_lost }
        ensures backlog { OnErr result (self.new.backlog ≡ self.old.backlog) }
        ensures busy { OnErr result (self.new.was_busy ≡ self.old.was_busy) }
        ensures past { OnErr result (G.past self.new.gate ≡ G.past self.old.gate) }
        ensures gate { KeepsGate G.Gate self.old.gate self.new.gate }
    {
        fill_up(self.alloc, &mut self.blanks)?;
        let open = self.gate.accept();
        listen(
            &mut self.gate,
            open,
            held,
            &mut self.blanks,
            &mut self.pieces,
        );
        forget_closed(&self.pieces, &mut self.backlog);
        self.was_busy = has_come(&self.pieces);
        Ok(())
    }

    /// An accept, a read of each open connection, a turn, and the writes. The reads before a turn that found no memory
    /// for itself are lost, and after that nothing is done.
    fn round<D: Disk, C: Children, M: Moments>(
        &mut self,
        manager: &mut Manager<D, C>,
        clock: &mut M,
    ) -> Result<(), Refusal>
        ensures serves { ServesOne (trust (C.honest manager.old.children) (C.whole manager.new.children) (G.honest self.old.gate) (G.whole self.new.gate) (M.honest clock.old) (M.whole clock.new))
            (place_in (D.honest (disk_in manager.old.keeper)) manager.old.keeper) result
            (served (G.past self.old.gate) (M.given clock.old) self.old.backlog self.old.was_busy self.old.turned self.old.has_lost
            (now_in manager.old.keeper (C.past manager.old.children) manager.old.marks manager.old.sessions.items (D.past (disk_in manager.old.keeper))))
            (served (G.past self.new.gate) (M.given clock.new) self.new.backlog self.new.was_busy self.new.turned self.new.has_lost
            (now_in manager.new.keeper (C.past manager.new.children) manager.new.marks manager.new.sessions.items (D.past (disk_in manager.new.keeper)))) }
        ensures refused { IfErr result (λ e. IsLost e ⊎ (e ≡ Refusal.Reopen)) }
        ensures device { CountsDevice result (D.failures (disk_in manager.old.keeper)) (D.failures (disk_in manager.new.keeper)) }
        ensures reopen { result ≢ Err Refusal.NoMemory → (result ≡ Err Refusal.Reopen) ↔ (has_failed manager.old.keeper ≡ true) }
        ensures frame { Frame D.Disk C.Children result manager.old.keeper manager.new.keeper manager.old.children manager.new.children }
        ensures gate { KeepsGate G.Gate self.old.gate self.new.gate }
        ensures clock { KeepsClock M.Moments clock.old clock.new }
    {
        if self.has_lost {
            return Err(Refusal::NoMemory);
        }
        let held = held_back(manager, &self.backlog);
        match self.gather(held) {
            Ok(()) => {}
            Err(_) => return Err(Refusal::NoMemory),
        }
        let before = clock_of(manager);
        let moment = clock.moment();
        let turned = manager.turn(moment, &self.pieces);
        if wants_memory(&turned) {
            self.has_lost = true;
            return turned;
        }
        self.turned = moment;
        let is_stirred = speak(manager, &mut self.gate, &mut self.backlog);
        let has_changed = has_moved(manager, before);
        self.was_busy |= is_stirred | has_changed;
        turned
    }
}

/// Serves `limit` rounds over the gate; a refusal ends them.
///
/// E15 if a round found no memory, before anything was accepted, or its turn none for itself, so that its reads are
/// lost: after that each later call is answered E15 at once, hears nothing and hands out nothing. E16 and E17 of the
/// store, once the replies are handed out: E16 exactly if the count of the disk's failures rises, E17 exactly if it
/// rose in an earlier call.
pub fn serve<D: Disk, C: Children, G: Gate, M: Moments>(
    manager: &mut Manager<D, C>,
    gate: &mut Buffered<G>,
    clock: &mut M,
    limit: usize,
) -> Result<(), Refusal>
    ensures serves { (all : List Round) × IsCount result (length all) limit
        × Serves (trust (C.honest manager.old.children) (C.whole manager.new.children) (G.honest gate.old.gate) (G.whole gate.new.gate) (M.honest clock.old) (M.whole clock.new))
        (place_in (D.honest (disk_in manager.old.keeper)) manager.old.keeper) all result
        (served (G.past gate.old.gate) (M.given clock.old) gate.old.backlog gate.old.was_busy gate.old.turned gate.old.has_lost
        (now_in manager.old.keeper (C.past manager.old.children) manager.old.marks manager.old.sessions.items (D.past (disk_in manager.old.keeper))))
        (served (G.past gate.new.gate) (M.given clock.new) gate.new.backlog gate.new.was_busy gate.new.turned gate.new.has_lost
        (now_in manager.new.keeper (C.past manager.new.children) manager.new.marks manager.new.sessions.items (D.past (disk_in manager.new.keeper)))) }
    ensures life { IsTrue (D.honest (disk_in manager.old.keeper)) → has_failed manager.old.keeper ≡ false
        → LivesOn (trust (C.honest manager.old.children) (C.whole manager.new.children) (G.honest gate.old.gate) (G.whole gate.new.gate) (M.honest clock.old) (M.whole clock.new))
        (place_in (D.honest (disk_in manager.old.keeper)) manager.old.keeper) (layout_in manager.old.keeper) result
        (served (G.past gate.old.gate) (M.given clock.old) gate.old.backlog gate.old.was_busy gate.old.turned gate.old.has_lost
        (now_in manager.old.keeper (C.past manager.old.children) manager.old.marks manager.old.sessions.items (D.past (disk_in manager.old.keeper))))
        (served (G.past gate.new.gate) (M.given clock.new) gate.new.backlog gate.new.was_busy gate.new.turned gate.new.has_lost
        (now_in manager.new.keeper (C.past manager.new.children) manager.new.marks manager.new.sessions.items (D.past (disk_in manager.new.keeper)))) }
    ensures client { (k : ℕ) → IsFollowed k
        (served (G.past gate.old.gate) (M.given clock.old) gate.old.backlog gate.old.was_busy gate.old.turned gate.old.has_lost
        (now_in manager.old.keeper (C.past manager.old.children) manager.old.marks manager.old.sessions.items (D.past (disk_in manager.old.keeper))))
        → IsFollowed k
        (served (G.past gate.new.gate) (M.given clock.new) gate.new.backlog gate.new.was_busy gate.new.turned gate.new.has_lost
        (now_in manager.new.keeper (C.past manager.new.children) manager.new.marks manager.new.sessions.items (D.past (disk_in manager.new.keeper)))) }
    ensures refused { IfErr result (λ e. IsLost e ⊎ (e ≡ Refusal.Reopen)) }
    ensures device { CountsDevice result (D.failures (disk_in manager.old.keeper)) (D.failures (disk_in manager.new.keeper)) }
    ensures reopen { result ≢ Err Refusal.NoMemory → (result ≡ Err Refusal.Reopen) ↔ ((has_failed manager.old.keeper ≡ true) × (limit ≢ 0)) }
    ensures frame { Frame D.Disk C.Children result manager.old.keeper manager.new.keeper manager.old.children manager.new.children }
    ensures gate { KeepsGate G.Gate gate.old.gate gate.new.gate }
    ensures clock { KeepsClock M.Moments clock.old clock.new }
{
    for _ in 0..limit {
        match gate.round(manager, clock) {
            Ok(()) => {}
            Err(refusal) => return Err(refusal),
        }
    }
    Ok(())
}
