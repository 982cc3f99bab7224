//! The keeper of a store: takes inputs, and answers each only once its record is on the disk.
ghost use Rattle.std.specs.Prelude.{◌≡◌, ◌≢◌, ◌⊎◌, ◌↔◌, ◌+◌, ◌-◌, ◌^◌, ◌<◌, ◌≤◌, ◌∷◌, [], ℕ, true, false, List, length, Err, Some, IfOk, IfErr, OnOk, OnErr, IsTrue};
ghost use Rattle.std.proofs.Props.{props};
ghost use Rattle.std.specs.Coded.{codes};
ghost use Rattle.std.specs.FinMap as maps;
ghost use Rattle.um_engine.specs.Engine as machine;
ghost use Rattle.um_engine.specs.Engine.{reply_in, actions_in, state_after};
ghost use Rattle.um_engine.specs.OfStore.{is_of_store};
ghost use Rattle.um_keeper.specs.Keeping.{MayHold, Keeps, IsBegun, record_calls, snapshot_calls};
ghost use Rattle.um_keeper.specs.Offers.{HasCome, GoesOn};
ghost use Rattle.um_log.specs.Reading.{Fits};
ghost use Rattle.um_model.specs.Disk.{During, Images};
ghost use Rattle.um_model.specs.InputSpellings.{FitInput, input_limit, input_spelling};
ghost use Rattle.um_model.specs.Lives.{Offer, MayLeave};
ghost use Rattle.um_model.specs.Machine as model;
ghost use Rattle.um_model.specs.Machine.{Step, moment_of};
ghost use Rattle.um_engine.specs.Engine.{LacksEffect};
ghost use Rattle.um_model.specs.Numbers.{AreNew, started_numbers};
ghost use Rattle.um_model.specs.Refusals.{Refused};
ghost use Rattle.um_model.specs.Stands.{contents_of, IsStoreOf};
ghost use Rattle.um_model.specs.Store.{current, other, body_limit, log_start, part_count};
ghost use Rattle.um_sector.specs.Refused.{CountsDevice, IsLost};
ghost use Rattle.um_state.specs.View.{state_of, input_of, query_of, reply_of};
ghost use Rattle.um_tree.specs.Code.{tree_code};
ghost use Rattle.um_wire.specs.Refusal.{refused_of};

use crate::ahead::Ahead;
use crate::receipt::Receipt;
use crate::recording::{make_room, write_anew};
use std::alloc::{AllocError, Global};
use um_engine::{Engine, Next};
use um_sector::Disk;
use um_state::{Input, Query, Reply, State};
use um_wire::{Refusal, spell};

/// Whole records in the log that don't count, and the sector that shows why.
#[derive(Clone, Copy, Debug, PartialEq, Eq)]
pub struct Uncounted {
    pub sector: u64,
    pub records: usize,
}

/// The findings of an opening.
#[derive(Clone, Copy, Debug, PartialEq, Eq)]
pub struct OpenedStore {
    /// The generation of its newest header.
    pub generation: u64,
    /// The number of records of that generation and the next one that were replayed.
    pub records: usize,
    /// Where whole records of these generations don't count: the sector with which the reading ends of the first that has some, which is damaged,
    /// or a crash cut it off.
    pub cut_off: Option<Uncounted>,
    /// Where the first sector of the other slot is neither a header nor all zeros: that sector, and the whole records of later generations.
    pub damaged: Option<Uncounted>,
}

/// The engine over its store on a disk. Whichever image a crash leaves of the disk, it is a store of the engine's state, as long as
/// the disk does what it answers and no call on it failed.
pub struct Keeper<D: Disk> {
    pub(crate) alloc: Global,
    pub(crate) disk: D,
    pub(crate) engine: Engine,
    pub(crate) ahead: Ahead,
    /// A call on the disk failed, so that the sectors on it aren't known.
    pub(crate) failed: bool,
    pub(crate) opened: OpenedStore,
    ghost holds: { MayHold ahead.log.layout (machine.size_in engine) (machine.state_in engine) },
    ghost synced: { failed ≡ false → ahead.unsynced ≡ false },
    ghost kept: { failed ≡ false → IsTrue (D.honest disk)
        → Keeps (D.past disk) (D.size disk) ahead.log.layout ahead.home.slot ahead.home.generation ahead.aside.body.items ahead.aside.written
        ahead.log.generation ahead.log.number ahead.log.next (machine.state_in engine) } by { Prim.hlevel (props, codes, maps.code, tree_code) },
}

// One call, where a derived one is taken apart at each exit.
impl<D: Disk + Drop> Drop for Keeper<D> {
    fn drop(self) {
        let Keeper {
            alloc: _,
            disk: _disk,
            engine: _engine,
            ahead: _ahead,
            failed: _,
            opened: _,
        } = self;
    }
}

/// The refusal of a call on the disk, noted where the disk failed.
pub(crate) fn noted(failed: &mut bool, refusal: Refusal) -> Refusal
    ensures same { result ≡ refusal }
    ensures failed { (failed.new ≡ true) ↔ ((failed.old ≡ true) ⊎ (refusal ≡ Refusal.Device)) }
{
    if let Refusal::Device = refusal {
        *failed = true;
    }
    refusal
}

impl<D: Disk> Keeper<D> {
    ghost use Rattle.um_keeper.specs.Keepers.{disk_in, standing_in, state_in, size_in, layout_in, slot_in, generation_in, log_generation_in, number_in, next_in, left_in, finish_calls_in, slot_behind, has_failed, opened_in, IsSamePlace, HasNoRoom, IsFreeFrom, IsPlanned};

    /// The findings of the opening of this store.
    pub fn opened(&self) -> OpenedStore
        ensures { result ≡ opened_in self.now }
    {
        self.opened
    }

    /// Whether an earlier call answered E16, so that the store is to be opened again.
    pub fn has_failed(&self) -> bool
        ensures { result ≡ has_failed self.now }
    {
        self.failed
    }

    /// The state after all inputs that were accepted.
    pub fn state(&self) -> &State
        ensures { state_of result.now ≡ state_in self.now }
    {
        self.engine.state()
    }

    /// The reply to a query. It makes no call on the disk. Refused only for want of memory.
    pub fn query(&self, query: &Query) -> Result<Reply, AllocError>
        ensures { IfOk result (λ reply. model.IsReplyTo (state_in self.now) (query_of query.now) (reply_of reply)) }
    {
        self.engine.query(query)
    }

    /// Each image that a crash may leave of the disk is a store of the state, as long as no call on it failed; and the store has the size of
    /// its layout. It does nothing.
    pub fn is_stored(&self)
        ensures stored { has_failed self.now ≡ false → IsTrue (D.honest (disk_in self.now))
            → Images (D.past (disk_in self.now)) (λ image. IsStoreOf (layout_in self.now) image (state_in self.now)) }
        ensures sized { size_in self.now ≡ body_limit (layout_in self.now) }
    {}

    /// The disk, as the last call left it.
    pub fn into_disk(self) -> D
        ensures { result ≡ disk_in self }
    {
        let Keeper {
            alloc: _,
            disk,
            engine: _engine,
            ahead: _ahead,
            failed: _,
            opened: _,
        } = self;
        disk
    }

    /// Finishes the snapshot under way, and writes the state as the next generation, so that no record is read.
    ///
    /// Each image of each moment meanwhile is a store of the state. E17 where an earlier call answered E16; E20 where the log's generation is
    /// the last; E15, with nothing written; E16 where a disk call fails.
    pub fn checkpoint(&mut self) -> Result<(), Refusal>
        ensures during { has_failed self.old ≡ false → IsTrue (D.honest (disk_in self.old))
            → During (D.past (disk_in self.old)) (D.past (disk_in self.new)) (λ image. IsStoreOf (layout_in self.old) image (state_in self.old)) }
        ensures ok { OnOk result ((slot_in self.new ≡ slot_behind self.old) × (generation_in self.new ≡ log_generation_in self.old + 1)
            × (log_generation_in self.new ≡ generation_in self.new) × (number_in self.new ≡ 0) × (next_in self.new ≡ log_start (layout_in self.old) (log_generation_in self.new))
            × (left_in self.new ≡ 0)) }
        ensures stored { OnOk result (IsTrue (D.honest (disk_in self.old)) → Images (D.past (disk_in self.new)) (λ image. contents_of current (layout_in self.old) image
            ≡ Some (record { slot = slot_in self.new; generation = generation_in self.new; start = state_in self.old; inputs = [] }))) }
        ensures state { state_in self.new ≡ state_in self.old }
        ensures stands { standing_in self.new ≡ standing_in self.old }
        ensures place { IsSamePlace self.old self.new }
        ensures same { IfErr result (λ e. (e ≡ Refusal.Device) ⊎ ((slot_in self.new ≡ slot_in self.old) × (generation_in self.new ≡ generation_in self.old)
            × (log_generation_in self.new ≡ log_generation_in self.old) × (number_in self.new ≡ number_in self.old) × (next_in self.new ≡ next_in self.old)
            × (left_in self.new ≡ left_in self.old))) }
        ensures refused { IfErr result (λ e. IsLost e ⊎ (e ≡ Refusal.Reopen) ⊎ (e ≡ Refusal.GenerationsSpent)) }
        ensures unwritten { IfErr result (λ e. (e ≡ Refusal.Device) ⊎ (disk_in self.new ≡ disk_in self.old)) }
        ensures device { CountsDevice result (D.failures (disk_in self.old)) (D.failures (disk_in self.new)) }
        ensures failed { (has_failed self.new ≡ true) ↔ ((has_failed self.old ≡ true) ⊎ (result ≡ Err Refusal.Device)) }
        ensures reopen { (result ≡ Err Refusal.Reopen) ↔ (has_failed self.old ≡ true) }
        ensures spent { (result ≡ Err Refusal.GenerationsSpent) ↔ ((has_failed self.old ≡ false) × (log_generation_in self.old ≡ 2 ^ 64 - 1)) }
        ensures calls { D.calls (disk_in self.new) ≤ D.calls (disk_in self.old) + finish_calls_in self.old + snapshot_calls (state_in self.old) }
        ensures life { (s : model.State) (before : List Offer) → has_failed self.old ≡ false → IsTrue (D.honest (disk_in self.old))
            → HasCome (layout_in self.old) s before (state_in self.old)
            → During (D.past (disk_in self.old)) (D.past (disk_in self.new)) (MayLeave (layout_in self.old) s before) }
        ensures size { D.size (disk_in self.new) ≡ D.size (disk_in self.old) }
        ensures honest { D.honest (disk_in self.new) ≡ D.honest (disk_in self.old) }
    {
        if self.failed {
            return Err(Refusal::Reopen);
        }
        match write_anew(self.alloc, &mut self.disk, &mut self.ahead, &self.engine) {
            Ok(()) => Ok(()),
            Err(refusal) => Err(noted(&mut self.failed, refusal)),
        }
    }

    /// Makes sure that a record of `bytes` bytes fits: if it doesn't, a snapshot begins first.
    fn make_room(&mut self, bytes: usize) -> Result<(), Refusal>
        requires working { self.old.failed ≡ false }
        requires some { 0 < bytes }
        requires short { bytes ≤ input_limit }
        ensures during { IsTrue (D.honest (disk_in self.old))
            → During (D.past (disk_in self.old)) (D.past (disk_in self.new)) (λ image. IsStoreOf (layout_in self.old) image (state_in self.old)) }
        ensures fits { OnOk result (Fits (layout_in self.new) (log_generation_in self.new) (next_in self.new) bytes) }
        ensures free { (from : ℕ) → IsFreeFrom self.old from → IsFreeFrom self.new from }
        ensures state { standing_in self.new ≡ standing_in self.old }
        ensures place { IsSamePlace self.old self.new }
        ensures grows { generation_in self.old ≤ generation_in self.new }
        ensures log_grows { log_generation_in self.old ≤ log_generation_in self.new }
        ensures refused { IfErr result (λ e. IsLost e ⊎ (e ≡ Refusal.GenerationsSpent)) }
        ensures unwritten { IfErr result (λ e. (e ≡ Refusal.Device) ⊎ (disk_in self.new ≡ disk_in self.old)) }
        ensures device { CountsDevice result (D.failures (disk_in self.old)) (D.failures (disk_in self.new)) }
        ensures failed { (has_failed self.new ≡ true) ↔ (result ≡ Err Refusal.Device) }
        ensures spent { result ≡ Err Refusal.GenerationsSpent → HasNoRoom self.old bytes }
        ensures untouched { Fits (layout_in self.old) (log_generation_in self.old) (next_in self.old) bytes → disk_in self.new ≡ disk_in self.old }
        ensures none { left_in self.old ≡ 0 → D.calls (disk_in self.new) ≤ D.calls (disk_in self.old) }
        ensures calls { D.calls (disk_in self.new) ≤ D.calls (disk_in self.old) + finish_calls_in self.old }
        ensures size { D.size (disk_in self.new) ≡ D.size (disk_in self.old) }
        ensures honest { D.honest (disk_in self.new) ≡ D.honest (disk_in self.old) }
    {
        match make_room(
            self.alloc,
            &mut self.disk,
            &mut self.ahead,
            &self.engine,
            bytes,
        ) {
            Ok(()) => Ok(()),
            Err(refusal) => Err(noted(&mut self.failed, refusal)),
        }
    }

    /// Takes a planned step once its record is on the disk, and returns the receipt of its answer.
    fn append(&mut self, input: &Input, next: Next, bytes: &[u8]) -> Result<Receipt, Refusal>
        requires working { self.old.failed ≡ false }
        requires step { IsPlanned self.old input.now next }
        requires bytes { bytes.now ≡ input_spelling (input_of input.now) }
        requires has_bytes { FitInput (input_of input.now) }
        requires fits { Fits (layout_in self.old) (log_generation_in self.old) (next_in self.old) (length bytes.now) }
        ensures during { IsTrue (D.honest (disk_in self.old))
            → During (D.past (disk_in self.old)) (D.past (disk_in self.new)) (IsBegun (layout_in self.old) (state_in self.old) (input_of input.now ∷ [])) }
        ensures ok { IfOk result (λ receipt. (receipt.0 ≡ reply_in next) × (receipt.1 ≡ actions_in next) × (standing_in self.new ≡ state_after next (standing_in self.old))) }
        ensures state { OnErr result (standing_in self.new ≡ standing_in self.old) }
        ensures place { IsSamePlace self.old self.new }
        ensures grows { generation_in self.old ≤ generation_in self.new }
        ensures log_grows { log_generation_in self.old ≤ log_generation_in self.new }
        ensures filled { OnOk result ((from : ℕ) → IsFreeFrom self.old from
            → IsFreeFrom self.new (from + part_count (length (input_spelling (input_of input.now))))) }
        ensures free { OnErr result ((from : ℕ) → IsFreeFrom self.old from → IsFreeFrom self.new from) }
        ensures refused { IfErr result (λ e. e ≡ Refusal.Device) }
        ensures device { CountsDevice result (D.failures (disk_in self.old)) (D.failures (disk_in self.new)) }
        ensures failed { (has_failed self.new ≡ true) ↔ (result ≡ Err Refusal.Device) }
        ensures calls { D.calls (disk_in self.new) ≤ D.calls (disk_in self.old) + record_calls (input_of input.now) }
        ensures size { D.size (disk_in self.new) ≡ D.size (disk_in self.old) }
        ensures honest { D.honest (disk_in self.new) ≡ D.honest (disk_in self.old) }
    {
        match self.ahead.log.append(&mut self.disk, bytes) {
            Ok(true) => {
                let (reply, actions, back) = self.engine.commit(next);
                drop(back);
                Ok(Receipt::new(reply, actions))
            }
            Ok(false) => unreachable!(),
            Err(refusal) => {
                drop(next);
                Err(noted(&mut self.failed, refusal))
            }
        }
    }

    /// Records a planned input and takes its step. A snapshot begins first if the log has no room for the record.
    fn record(&mut self, input: &Input, next: Next) -> Result<Receipt, Refusal>
        requires working { self.old.failed ≡ false }
        requires step { IsPlanned self.old input.now next }
        ensures during { IsTrue (D.honest (disk_in self.old))
            → During (D.past (disk_in self.old)) (D.past (disk_in self.new)) (IsBegun (layout_in self.old) (state_in self.old) (input_of input.now ∷ [])) }
        ensures ok { IfOk result (λ receipt. (receipt.0 ≡ reply_in next) × (receipt.1 ≡ actions_in next) × (standing_in self.new ≡ state_after next (standing_in self.old))) }
        ensures state { OnErr result (standing_in self.new ≡ standing_in self.old) }
        ensures kept { IfErr result (λ e. (e ≡ Refusal.Device) ⊎ (IsTrue (D.honest (disk_in self.old))
            → During (D.past (disk_in self.old)) (D.past (disk_in self.new)) (λ image. IsStoreOf (layout_in self.old) image (state_in self.old)))) }
        ensures place { IsSamePlace self.old self.new }
        ensures grows { generation_in self.old ≤ generation_in self.new }
        ensures log_grows { log_generation_in self.old ≤ log_generation_in self.new }
        ensures filled { OnOk result ((from : ℕ) → IsFreeFrom self.old from
            → IsFreeFrom self.new (from + part_count (length (input_spelling (input_of input.now))))) }
        ensures free { OnErr result ((from : ℕ) → IsFreeFrom self.old from → IsFreeFrom self.new from) }
        ensures refused { IfErr result (λ e. IsLost e ⊎ (e ≡ Refusal.GenerationsSpent)) }
        ensures unwritten { IfErr result (λ e. (e ≡ Refusal.Device) ⊎ (disk_in self.new ≡ disk_in self.old)) }
        ensures device { CountsDevice result (D.failures (disk_in self.old)) (D.failures (disk_in self.new)) }
        ensures failed { (has_failed self.new ≡ true) ↔ (result ≡ Err Refusal.Device) }
        ensures spent { result ≡ Err Refusal.GenerationsSpent → HasNoRoom self.old (length (input_spelling (input_of input.now))) }
        ensures calls { Fits (layout_in self.old) (log_generation_in self.old) (next_in self.old) (length (input_spelling (input_of input.now)))
            → D.calls (disk_in self.new) ≤ D.calls (disk_in self.old) + record_calls (input_of input.now) }
        ensures begins { left_in self.old ≡ 0 → D.calls (disk_in self.new) ≤ D.calls (disk_in self.old) + record_calls (input_of input.now) + 1 }
        ensures most_calls { D.calls (disk_in self.new) ≤ D.calls (disk_in self.old) + finish_calls_in self.old + record_calls (input_of input.now) }
        ensures size { D.size (disk_in self.new) ≡ D.size (disk_in self.old) }
        ensures honest { D.honest (disk_in self.new) ≡ D.honest (disk_in self.old) }
    {
        let bytes = match spell(self.alloc, input) {
            Ok(bytes) => bytes,
            Err(AllocError) => {
                drop(next);
                return Err(Refusal::NoMemory);
            }
        };
        match self.make_room(bytes.len()) {
            Ok(()) => self.append(input, next, &bytes),
            Err(refusal) => {
                drop(next);
                Err(refusal)
            }
        }
    }

    /// Takes a step, as `submit` does.
    fn take_step(&mut self, input: &Input) -> Result<Receipt, Refusal>
        requires working { self.old.failed ≡ false }
        ensures during { IsTrue (D.honest (disk_in self.old))
            → During (D.past (disk_in self.old)) (D.past (disk_in self.new)) (IsBegun (layout_in self.old) (state_in self.old) (input_of input.now ∷ [])) }
        ensures ok { IfOk result (λ receipt. Step (size_in self.old) (state_in self.old) (input_of input.now) receipt.0 receipt.1 (state_in self.new)) }
        ensures accepted { IfOk result (λ receipt. (r : Refused) → receipt.0 ≢ model.Refusal r) }
        ensures order { IfOk result (λ receipt. AreNew (state_in self.old).next (state_in self.new).next (started_numbers receipt.1)) }
        ensures stored { has_failed self.new ≡ false → IsTrue (D.honest (disk_in self.old))
            → Images (D.past (disk_in self.new)) (λ image. IsStoreOf (layout_in self.old) image (state_in self.new)) }
        ensures state { OnErr result (standing_in self.new ≡ standing_in self.old) }
        ensures kept { IfErr result (λ e. (e ≡ Refusal.Device) ⊎ (IsTrue (D.honest (disk_in self.old))
            → During (D.past (disk_in self.old)) (D.past (disk_in self.new)) (λ image. IsStoreOf (layout_in self.old) image (state_in self.old)))) }
        ensures place { IsSamePlace self.old self.new }
        ensures grows { generation_in self.old ≤ generation_in self.new }
        ensures log_grows { log_generation_in self.old ≤ log_generation_in self.new }
        ensures filled { OnOk result ((from : ℕ) → IsFreeFrom self.old from
            → IsFreeFrom self.new (from + part_count (length (input_spelling (input_of input.now))))) }
        ensures free { OnErr result ((from : ℕ) → IsFreeFrom self.old from → IsFreeFrom self.new from) }
        ensures refused { IfErr result (λ e. IsLost e ⊎ (e ≡ Refusal.GenerationsSpent) ⊎ ((is_of_store e ≡ false)
            × Step (size_in self.old) (state_in self.old) (input_of input.now) (model.Refusal (refused_of e)) [] (state_in self.old))) }
        ensures unwritten { IfErr result (λ e. (e ≡ Refusal.Device) ⊎ (disk_in self.new ≡ disk_in self.old)) }
        ensures idle { LacksEffect (moment_of (state_in self.old) (input_of input.now).moment) (state_in self.old) (input_of input.now).event
            → disk_in self.new ≡ disk_in self.old }
        ensures still { LacksEffect (moment_of (state_in self.old) (input_of input.now).moment) (state_in self.old) (input_of input.now).event
            → state_in self.new ≡ state_in self.old }
        ensures device { CountsDevice result (D.failures (disk_in self.old)) (D.failures (disk_in self.new)) }
        ensures failed { (has_failed self.new ≡ true) ↔ (result ≡ Err Refusal.Device) }
        ensures spent { result ≡ Err Refusal.GenerationsSpent → HasNoRoom self.old (length (input_spelling (input_of input.now))) }
        ensures calls { Fits (layout_in self.old) (log_generation_in self.old) (next_in self.old) (length (input_spelling (input_of input.now)))
            → D.calls (disk_in self.new) ≤ D.calls (disk_in self.old) + record_calls (input_of input.now) }
        ensures begins { left_in self.old ≡ 0 → D.calls (disk_in self.new) ≤ D.calls (disk_in self.old) + record_calls (input_of input.now) + 1 }
        ensures most_calls { D.calls (disk_in self.new) ≤ D.calls (disk_in self.old) + finish_calls_in self.old + record_calls (input_of input.now) }
        ensures size { D.size (disk_in self.new) ≡ D.size (disk_in self.old) }
        ensures honest { D.honest (disk_in self.new) ≡ D.honest (disk_in self.old) }
    {
        let next = self.engine.plan(input)?;
        if next.has_effect() {
            return self.record(input, next);
        }
        let (reply, actions, back) = self.engine.commit(next);
        drop(back);
        Ok(Receipt::new(reply, actions))
    }

    /// Takes a step: plans it, records it and syncs, and only then answers.
    ///
    /// Each image of each moment meanwhile is a store of the state before, or of that with the input. The step's refusals (E4 to E14, E21);
    /// E15; E17 where an earlier call answered E16; E20 where the record has no room and the generation is the last: each with nothing
    /// written. E16, after which the state is that from before. But for E16 and E17 each image meanwhile is of the state before.
    pub fn submit(&mut self, input: Input) -> Result<Receipt, Refusal>
        ensures during { has_failed self.old ≡ false → IsTrue (D.honest (disk_in self.old))
            → During (D.past (disk_in self.old)) (D.past (disk_in self.new)) (IsBegun (layout_in self.old) (state_in self.old) (input_of input ∷ [])) }
        ensures ok { IfOk result (λ receipt. Step (size_in self.old) (state_in self.old) (input_of input) receipt.0 receipt.1 (state_in self.new)) }
        ensures accepted { IfOk result (λ receipt. (r : Refused) → receipt.0 ≢ model.Refusal r) }
        ensures order { IfOk result (λ receipt. AreNew (state_in self.old).next (state_in self.new).next (started_numbers receipt.1)) }
        ensures stored { has_failed self.new ≡ false → IsTrue (D.honest (disk_in self.old))
            → Images (D.past (disk_in self.new)) (λ image. IsStoreOf (layout_in self.old) image (state_in self.new)) }
        ensures state { OnErr result (state_in self.new ≡ state_in self.old) }
        ensures kept { IfErr result (λ e. (e ≡ Refusal.Device) ⊎ (e ≡ Refusal.Reopen) ⊎ (IsTrue (D.honest (disk_in self.old))
            → During (D.past (disk_in self.old)) (D.past (disk_in self.new)) (λ image. IsStoreOf (layout_in self.old) image (state_in self.old)))) }
        ensures place { IsSamePlace self.old self.new }
        ensures grows { generation_in self.old ≤ generation_in self.new }
        ensures log_grows { log_generation_in self.old ≤ log_generation_in self.new }
        ensures refused { IfErr result (λ e. IsLost e ⊎ (e ≡ Refusal.Reopen) ⊎ (e ≡ Refusal.GenerationsSpent) ⊎ ((is_of_store e ≡ false)
            × Step (size_in self.old) (state_in self.old) (input_of input) (model.Refusal (refused_of e)) [] (state_in self.old))) }
        ensures unwritten { IfErr result (λ e. (e ≡ Refusal.Device) ⊎ (disk_in self.new ≡ disk_in self.old)) }
        ensures idle { LacksEffect (moment_of (state_in self.old) (input_of input).moment) (state_in self.old) (input_of input).event
            → disk_in self.new ≡ disk_in self.old }
        ensures device { CountsDevice result (D.failures (disk_in self.old)) (D.failures (disk_in self.new)) }
        ensures failed { (has_failed self.new ≡ true) ↔ ((has_failed self.old ≡ true) ⊎ (result ≡ Err Refusal.Device)) }
        ensures reopen { (result ≡ Err Refusal.Reopen) ↔ (has_failed self.old ≡ true) }
        ensures spent { result ≡ Err Refusal.GenerationsSpent → HasNoRoom self.old (length (input_spelling (input_of input))) }
        ensures calls { Fits (layout_in self.old) (log_generation_in self.old) (next_in self.old) (length (input_spelling (input_of input)))
            → D.calls (disk_in self.new) ≤ D.calls (disk_in self.old) + record_calls (input_of input) }
        ensures begins { left_in self.old ≡ 0 → D.calls (disk_in self.new) ≤ D.calls (disk_in self.old) + record_calls (input_of input) + 1 }
        ensures most_calls { D.calls (disk_in self.new) ≤ D.calls (disk_in self.old) + finish_calls_in self.old + record_calls (input_of input) }
        ensures life { (s : model.State) (before : List Offer) → has_failed self.old ≡ false → IsTrue (D.honest (disk_in self.old))
            → HasCome (layout_in self.old) s before (state_in self.old)
            → GoesOn (layout_in self.old) s before (input_of input ∷ []) (result ∷ []) (D.past (disk_in self.old)) (D.past (disk_in self.new))
            (has_failed self.new) (state_in self.new) }
        ensures size { D.size (disk_in self.new) ≡ D.size (disk_in self.old) }
        ensures honest { D.honest (disk_in self.new) ≡ D.honest (disk_in self.old) }
    {
        if self.failed {
            drop(input);
            return Err(Refusal::Reopen);
        }
        let answer = self.take_step(&input);
        drop(input);
        answer
    }
}
