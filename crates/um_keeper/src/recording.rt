//! Records of inputs, written ahead of the last sync, and snapshots that begin between them.
ghost use Rattle.std.specs.Prelude.{◌≡◌, ◌⊎◌, ◌↔◌, ◌+◌, ◌-◌, ◌^◌, ◌<◌, ◌≤◌, ◌∷◌, ◌++◌, [], ℕ, List, true, false, if◌then◌else◌, length, Err, Some, IfOk, IfErr, OnOk, OnErr, IsTrue};
ghost use Rattle.um_engine.specs.Engine.{reply_in, actions_in, standing_in, state_in, size_in, state_after, state_before};
ghost use Rattle.um_keeper.specs.Keeping.{MayHold, IsBegun, snapshot_calls};
ghost use Rattle.um_keeper.specs.Underway.{UnderwayIn, SettledIn, is_renewing, finish_ahead, owed, LacksRoom, HasRoomFor, IsFreeAt, IsPlannedBy, MayRise};
ghost use Rattle.um_log.specs.Reading.{Fits};
ghost use Rattle.um_model.specs.Bytes.{nothing_left};
ghost use Rattle.um_model.specs.Disk.{Past, IsImage, During, seen};
ghost use Rattle.um_model.specs.InputSpellings.{FitInput, input_limit, input_spelling};
ghost use Rattle.um_model.specs.Machine as model;
ghost use Rattle.um_model.specs.Servable.{IsServable};
ghost use Rattle.um_model.specs.StateSpellings.{state_at};
ghost use Rattle.um_model.specs.Store.{other, body_limit, log_start, log_end, part_count};
ghost use Rattle.um_sector.specs.Refused.{CountsDevice, IsLost};
ghost use Rattle.um_sector.specs.Unsynced.{sync_count};
ghost use Rattle.um_state.specs.View.{input_of};

use crate::ahead::Ahead;
use crate::receipt::Receipt;
use crate::snapshot::NextSnapshot;
use crate::step::advance;
use std::alloc::Global;
use um_engine::{Back, Engine, Next};
use um_log::Log;
use um_sector::Disk;
use um_state::Input;
use um_wire::{Refusal, spell};

/// Syncs the disk if anything was written since the last sync. E16.
pub(crate) fn settle<D: Disk>(disk: &mut D, ahead: &Ahead) -> Result<(), Refusal>
    ensures during { IsTrue (D.honest disk.old) → (s : model.State) (taken : List model.Input) (state : model.State) → UnderwayIn s taken (D.past disk.old) ahead.now state
        → During (D.past disk.old) (D.past disk.new) (IsBegun ahead.now.log.layout s taken) }
    ensures ok { OnOk result (IsTrue (D.honest disk.old) → (s : model.State) (taken : List model.Input) (state : model.State) → UnderwayIn s taken (D.past disk.old) ahead.now state
        → SettledIn s taken (D.past disk.new) ahead.now state) }
    ensures untouched { ahead.now.unsynced ≡ false → disk.new ≡ disk.old }
    ensures needed { OnErr result (ahead.now.unsynced ≡ true) }
    ensures syncs { OnOk result (IsTrue (D.honest disk.old) → sync_count (D.past disk.new) ≡ sync_count (D.past disk.old) + owed ahead.now.unsynced) }
    ensures calls { D.calls disk.new ≤ D.calls disk.old + owed ahead.now.unsynced }
    ensures refused { IfErr result (λ e. e ≡ Refusal.Device) }
    ensures device { CountsDevice result (D.failures disk.old) (D.failures disk.new) }
    ensures size { D.size disk.new ≡ D.size disk.old }
    ensures honest { D.honest disk.new ≡ D.honest disk.old }
{
    if ahead.unsynced {
        return ahead.log.flush(disk);
    }
    Ok(())
}

/// Syncs the records written so far, and finishes the snapshot under way. It takes no memory. E16.
fn conclude<D: Disk>(disk: &mut D, ahead: &mut Ahead) -> Result<(), Refusal>
    ensures during { IsTrue (D.honest disk.old) → (s : model.State) (taken : List model.Input) (state : model.State) → UnderwayIn s taken (D.past disk.old) ahead.old state
        → During (D.past disk.old) (D.past disk.new) (IsBegun ahead.old.log.layout s taken) }
    ensures under { OnOk result (IsTrue (D.honest disk.old) → (s : model.State) (taken : List model.Input) (state : model.State) → UnderwayIn s taken (D.past disk.old) ahead.old state
        → UnderwayIn s taken (D.past disk.new) ahead.new state) }
    ensures idle { OnOk result (is_renewing ahead.new ≡ false) }
    ensures synced { OnOk result (ahead.new.unsynced ≡ false) }
    ensures clean { ahead.old.unsynced ≡ false → ahead.new.unsynced ≡ false }
    ensures slot { OnOk result (ahead.new.home.slot ≡ (if is_renewing ahead.old then other ahead.old.home.slot else ahead.old.home.slot)) }
    ensures older { ahead.old.home.generation ≤ ahead.new.home.generation }
    ensures log { ahead.new.log ≡ ahead.old.log }
    ensures refused { IfErr result (λ e. e ≡ Refusal.Device) }
    ensures none { is_renewing ahead.old ≡ false → D.calls disk.new ≤ D.calls disk.old + owed ahead.old.unsynced }
    ensures calls { D.calls disk.new ≤ D.calls disk.old + owed ahead.old.unsynced + finish_ahead ahead.old }
    ensures device { CountsDevice result (D.failures disk.old) (D.failures disk.new) }
    ensures size { D.size disk.new ≡ D.size disk.old }
    ensures honest { D.honest disk.new ≡ D.honest disk.old }
{
    settle(disk, ahead)?;
    ahead.unsynced = false;
    advance(disk, ahead, usize::MAX)?;
    Ok(())
}

/// Begins a snapshot of the state that these bytes spell, where none is under way and nothing is to be synced. Nothing is written, and
/// records go on as the next generation.
fn begin(ahead: &mut Ahead, next: NextSnapshot)
    requires early { ahead.old.log.generation < 2 ^ 64 - 1 }
    requires idle { is_renewing ahead.old ≡ false }
    requires some { 0 < length next.body.items }
    requires anew { next.written ≡ 0 }
    requires fits { length next.body.items ≤ body_limit ahead.old.log.layout }
    ensures under { (past : Past) → IsImage past (seen past) → (s : model.State) (taken : List model.Input) (state : model.State) → nothing_left (state_at next.body.items) ≡ Some state
        → IsServable (body_limit ahead.old.log.layout) state → ahead.old.unsynced ≡ false → UnderwayIn s taken past ahead.old state → UnderwayIn s taken past ahead.new state }
    ensures log { (ahead.new.log.layout ≡ ahead.old.log.layout) × (ahead.new.log.generation ≡ ahead.old.log.generation + 1) × (ahead.new.log.number ≡ 0)
        × (ahead.new.log.next ≡ log_start ahead.old.log.layout ahead.new.log.generation) }
    ensures aside { (ahead.new.aside.body.items ≡ next.body.items) × (ahead.new.aside.written ≡ 0) }
    ensures home { ahead.new.home ≡ ahead.old.home }
    ensures unsynced { ahead.new.unsynced ≡ ahead.old.unsynced }
{
    ahead.log = Log::new(ahead.log.layout, ahead.log.generation + 1);
    ahead.aside = next;
}

/// Begins a snapshot of the state. The records written so far are synced first, and the snapshot under way is finished.
/// E20 and E15, with nothing written and nothing changed; E16.
fn renew<D: Disk>(
    alloc: Global,
    disk: &mut D,
    ahead: &mut Ahead,
    engine: &Engine,
) -> Result<(), Refusal>
    requires held { MayHold ahead.old.log.layout (size_in engine.now) (state_in engine.now) }
    ensures during { IsTrue (D.honest disk.old) → (s : model.State) (taken : List model.Input) → UnderwayIn s taken (D.past disk.old) ahead.old (state_in engine.now)
        → During (D.past disk.old) (D.past disk.new) (IsBegun ahead.old.log.layout s taken) }
    ensures ok { OnOk result (IsTrue (D.honest disk.old) → (s : model.State) (taken : List model.Input) → UnderwayIn s taken (D.past disk.old) ahead.old (state_in engine.now)
        → UnderwayIn s taken (D.past disk.new) ahead.new (state_in engine.now)) }
    ensures slot { OnOk result (ahead.new.home.slot ≡ (if is_renewing ahead.old then other ahead.old.home.slot else ahead.old.home.slot)) }
    ensures next { OnOk result ((ahead.new.log.next ≡ log_start ahead.old.log.layout ahead.new.log.generation) × (ahead.new.log.generation ≡ ahead.old.log.generation + 1)) }
    ensures number { OnOk result (ahead.new.log.number ≡ 0) }
    ensures renewing { OnOk result (is_renewing ahead.new ≡ true) }
    ensures aside { OnOk result (finish_ahead ahead.new ≡ snapshot_calls (state_in engine.now)) }
    ensures unsynced { OnOk result (ahead.new.unsynced ≡ false) }
    ensures clean { ahead.old.unsynced ≡ false → ahead.new.unsynced ≡ false }
    ensures layout { ahead.new.log.layout ≡ ahead.old.log.layout }
    ensures grows { (ahead.old.log.generation ≤ ahead.new.log.generation) × OnErr result (ahead.new.log ≡ ahead.old.log) }
    ensures older { ahead.old.home.generation ≤ ahead.new.home.generation }
    ensures kept { IfErr result (λ e. (e ≡ Refusal.Device) ⊎ ((disk.new ≡ disk.old) × (ahead.new ≡ ahead.old))) }
    ensures refused { IfErr result (λ e. IsLost e ⊎ (e ≡ Refusal.GenerationsSpent)) }
    ensures spent { (result ≡ Err Refusal.GenerationsSpent) ↔ (ahead.old.log.generation ≡ 2 ^ 64 - 1) }
    ensures none { is_renewing ahead.old ≡ false → D.calls disk.new ≤ D.calls disk.old + owed ahead.old.unsynced }
    ensures calls { D.calls disk.new ≤ D.calls disk.old + owed ahead.old.unsynced + finish_ahead ahead.old }
    ensures device { CountsDevice result (D.failures disk.old) (D.failures disk.new) }
    ensures size { D.size disk.new ≡ D.size disk.old }
    ensures honest { D.honest disk.new ≡ D.honest disk.old }
{
    if ahead.log.generation == u64::MAX {
        return Err(Refusal::GenerationsSpent);
    }
    let next = NextSnapshot::begin(alloc, engine.state())?;
    conclude(disk, ahead)?;
    begin(ahead, next);
    Ok(())
}

/// Writes the state as the next generation, so that no record is read: it begins a snapshot as `renew` does, and finishes it. E20 and E15,
/// with nothing written and nothing changed; E16.
pub(crate) fn write_anew<D: Disk>(
    alloc: Global,
    disk: &mut D,
    ahead: &mut Ahead,
    engine: &Engine,
) -> Result<(), Refusal>
    requires held { MayHold ahead.old.log.layout (size_in engine.now) (state_in engine.now) }
    ensures during { IsTrue (D.honest disk.old) → (s : model.State) (taken : List model.Input) → UnderwayIn s taken (D.past disk.old) ahead.old (state_in engine.now)
        → During (D.past disk.old) (D.past disk.new) (IsBegun ahead.old.log.layout s taken) }
    ensures ok { OnOk result (IsTrue (D.honest disk.old) → (s : model.State) (taken : List model.Input) → UnderwayIn s taken (D.past disk.old) ahead.old (state_in engine.now)
        → UnderwayIn s taken (D.past disk.new) ahead.new (state_in engine.now)) }
    ensures idle { OnOk result (is_renewing ahead.new ≡ false) }
    ensures slot { OnOk result (ahead.new.home.slot ≡ (if is_renewing ahead.old then ahead.old.home.slot else other ahead.old.home.slot)) }
    ensures next { OnOk result ((ahead.new.log.next ≡ log_start ahead.old.log.layout ahead.new.log.generation) × (ahead.new.log.generation ≡ ahead.old.log.generation + 1)) }
    ensures number { OnOk result (ahead.new.log.number ≡ 0) }
    ensures unsynced { OnOk result (ahead.new.unsynced ≡ false) }
    ensures layout { ahead.new.log.layout ≡ ahead.old.log.layout }
    ensures kept { IfErr result (λ e. (e ≡ Refusal.Device) ⊎ ((disk.new ≡ disk.old) × (ahead.new ≡ ahead.old))) }
    ensures refused { IfErr result (λ e. IsLost e ⊎ (e ≡ Refusal.GenerationsSpent)) }
    ensures spent { (result ≡ Err Refusal.GenerationsSpent) ↔ (ahead.old.log.generation ≡ 2 ^ 64 - 1) }
    ensures calls { D.calls disk.new ≤ D.calls disk.old + owed ahead.old.unsynced + finish_ahead ahead.old + snapshot_calls (state_in engine.now) }
    ensures device { CountsDevice result (D.failures disk.old) (D.failures disk.new) }
    ensures size { D.size disk.new ≡ D.size disk.old }
    ensures honest { D.honest disk.new ≡ D.honest disk.old }
{
    renew(alloc, disk, ahead, engine)?;
    advance(disk, ahead, usize::MAX)?;
    Ok(())
}

/// Makes sure that a record of `bytes` bytes fits: if it doesn't, a snapshot begins first.
pub(crate) fn make_room<D: Disk>(
    alloc: Global,
    disk: &mut D,
    ahead: &mut Ahead,
    engine: &Engine,
    bytes: usize,
) -> Result<(), Refusal>
    requires held { MayHold ahead.old.log.layout (size_in engine.now) (state_in engine.now) }
    requires some { 0 < bytes }
    requires short { bytes ≤ input_limit }
    ensures during { IsTrue (D.honest disk.old) → (s : model.State) (taken : List model.Input) → UnderwayIn s taken (D.past disk.old) ahead.old (state_in engine.now)
        → During (D.past disk.old) (D.past disk.new) (IsBegun ahead.old.log.layout s taken) }
    ensures ok { OnOk result (IsTrue (D.honest disk.old) → (s : model.State) (taken : List model.Input) → UnderwayIn s taken (D.past disk.old) ahead.old (state_in engine.now)
        → UnderwayIn s taken (D.past disk.new) ahead.new (state_in engine.now)) }
    ensures fits { OnOk result (Fits ahead.new.log.layout ahead.new.log.generation ahead.new.log.next bytes) }
    ensures free { (from : ℕ) → IsFreeAt ahead.old.log from → IsFreeAt ahead.new.log from }
    ensures untouched { Fits ahead.old.log.layout ahead.old.log.generation ahead.old.log.next bytes → (disk.new ≡ disk.old) × (ahead.new ≡ ahead.old) }
    ensures clean { ahead.old.unsynced ≡ false → ahead.new.unsynced ≡ false }
    ensures rises { OnOk result (MayRise ahead.old ahead.new (finish_ahead ahead.old) (D.calls disk.old) (D.calls disk.new)) }
    ensures layout { ahead.new.log.layout ≡ ahead.old.log.layout }
    ensures grows { ahead.old.log.generation ≤ ahead.new.log.generation }
    ensures older { ahead.old.home.generation ≤ ahead.new.home.generation }
    ensures kept { IfErr result (λ e. (e ≡ Refusal.Device) ⊎ ((disk.new ≡ disk.old) × (ahead.new ≡ ahead.old))) }
    ensures refused { IfErr result (λ e. IsLost e ⊎ (e ≡ Refusal.GenerationsSpent)) }
    ensures spent { result ≡ Err Refusal.GenerationsSpent → LacksRoom ahead.old.log bytes }
    ensures none { is_renewing ahead.old ≡ false → D.calls disk.new ≤ D.calls disk.old + owed ahead.old.unsynced }
    ensures calls { D.calls disk.new ≤ D.calls disk.old + owed ahead.old.unsynced + finish_ahead ahead.old }
    ensures device { CountsDevice result (D.failures disk.old) (D.failures disk.new) }
    ensures size { D.size disk.new ≡ D.size disk.old }
    ensures honest { D.honest disk.new ≡ D.honest disk.old }
{
    if ahead.log.fits(bytes) {
        return Ok(());
    }
    renew(alloc, disk, ahead, engine)
}

/// Writes the record of an input without a sync. A snapshot begins first if the log has no room for it. E15 and E20,
/// with nothing written; E16.
fn write<D: Disk>(
    alloc: Global,
    disk: &mut D,
    ahead: &mut Ahead,
    engine: &Engine,
    input: &Input,
) -> Result<(), Refusal>
    requires held { MayHold ahead.old.log.layout (size_in engine.now) (state_in engine.now) }
    requires short { FitInput (input_of input.now) → length (input_spelling (input_of input.now)) ≤ input_limit }
    ensures during { IsTrue (D.honest disk.old) → (next : Next) → IsPlannedBy engine.now input.now next → (s : model.State) (taken : List model.Input)
        → UnderwayIn s taken (D.past disk.old) ahead.old (state_in engine.now) → During (D.past disk.old) (D.past disk.new) (IsBegun ahead.old.log.layout s (taken ++ input_of input.now ∷ [])) }
    ensures under { OnOk result (IsTrue (D.honest disk.old) → (next : Next) → IsPlannedBy engine.now input.now next → (s : model.State) (taken : List model.Input)
        → UnderwayIn s taken (D.past disk.old) ahead.old (state_in engine.now) → UnderwayIn s (taken ++ input_of input.now ∷ []) (D.past disk.new) ahead.new (state_after next (standing_in engine.now)).state) }
    ensures has_bytes { OnOk result (FitInput (input_of input.now)) }
    ensures filled { OnOk result ((from : ℕ) → IsFreeAt ahead.old.log from → IsFreeAt ahead.new.log (from + part_count (length (input_spelling (input_of input.now))))) }
    ensures unsynced { OnOk result (ahead.new.unsynced ≡ true) }
    ensures layout { ahead.new.log.layout ≡ ahead.old.log.layout }
    ensures grows { ahead.old.log.generation ≤ ahead.new.log.generation }
    ensures kept { IfErr result (λ e. (e ≡ Refusal.Device) ⊎ ((disk.new ≡ disk.old) × (ahead.new ≡ ahead.old))) }
    ensures refused { IfErr result (λ e. IsLost e ⊎ (e ≡ Refusal.GenerationsSpent)) }
    ensures spent { result ≡ Err Refusal.GenerationsSpent → LacksRoom ahead.old.log (length (input_spelling (input_of input.now))) }
    ensures fits_syncs { OnOk result (ahead.old.log.next + part_count (length (input_spelling (input_of input.now))) ≤ log_end ahead.old.log.layout ahead.old.log.generation
        → IsTrue (D.honest disk.old) → sync_count (D.past disk.new) ≡ sync_count (D.past disk.old)) }
    ensures fits_next { OnOk result (ahead.old.log.next + part_count (length (input_spelling (input_of input.now))) ≤ log_end ahead.old.log.layout ahead.old.log.generation
        → ahead.new.log.next ≡ ahead.old.log.next + part_count (length (input_spelling (input_of input.now)))) }
    ensures fits_calls { ahead.old.log.next + part_count (length (input_spelling (input_of input.now))) ≤ log_end ahead.old.log.layout ahead.old.log.generation
        → D.calls disk.new ≤ D.calls disk.old + part_count (length (input_spelling (input_of input.now))) }
    ensures fits_generation { OnOk result (ahead.old.log.next + part_count (length (input_spelling (input_of input.now))) ≤ log_end ahead.old.log.layout ahead.old.log.generation
        → ahead.new.log.generation ≡ ahead.old.log.generation) }
    ensures rises { OnOk result (MayRise ahead.old ahead.new (finish_ahead ahead.old)
        (D.calls disk.old + part_count (length (input_spelling (input_of input.now)))) (D.calls disk.new)) }
    ensures calls { D.calls disk.new ≤ D.calls disk.old + owed ahead.old.unsynced + finish_ahead ahead.old + part_count (length (input_spelling (input_of input.now))) }
    ensures device { CountsDevice result (D.failures disk.old) (D.failures disk.new) }
    ensures size { D.size disk.new ≡ D.size disk.old }
    ensures honest { D.honest disk.new ≡ D.honest disk.old }
{
    let bytes = spell(alloc, input)?;
    make_room(alloc, disk, ahead, engine, bytes.len())?;
    match ahead.log.write(disk, &bytes) {
        Ok(true) => {
            ahead.unsynced = true;
            Ok(())
        }
        Ok(false) => unreachable!(),
        Err(refusal) => Err(refusal),
    }
}

/// Records a planned input without a sync and takes its step. A snapshot begins first if the log has no room for the
/// record. E15 and E20, with nothing written; E16.
pub(crate) fn record<D: Disk>(
    alloc: Global,
    disk: &mut D,
    ahead: &mut Ahead,
    engine: &mut Engine,
    input: &Input,
    next: Next,
) -> Result<(Receipt, Back), Refusal>
    requires held { MayHold ahead.old.log.layout (size_in engine.old) (state_in engine.old) }
    requires step { IsPlannedBy engine.old input.now next }
    ensures during { IsTrue (D.honest disk.old) → (s : model.State) (taken : List model.Input) → UnderwayIn s taken (D.past disk.old) ahead.old (state_in engine.old)
        → During (D.past disk.old) (D.past disk.new) (IsBegun ahead.old.log.layout s (taken ++ input_of input.now ∷ [])) }
    ensures under { OnOk result (IsTrue (D.honest disk.old) → (s : model.State) (taken : List model.Input) → UnderwayIn s taken (D.past disk.old) ahead.old (state_in engine.old)
        → UnderwayIn s (taken ++ input_of input.now ∷ []) (D.past disk.new) ahead.new (state_in engine.new)) }
    ensures ok { IfOk result (λ made. (made.0.0 ≡ reply_in next) × (made.0.1 ≡ actions_in next) × (standing_in engine.new ≡ state_after next (standing_in engine.old))) }
    ensures back { IfOk result (λ made. state_before made.1 (standing_in engine.new) ≡ standing_in engine.old) }
    ensures state { OnErr result (engine.new ≡ engine.old) }
    ensures held { MayHold ahead.new.log.layout (size_in engine.new) (state_in engine.new) }
    ensures sized { size_in engine.new ≡ size_in engine.old }
    ensures filled { OnOk result ((from : ℕ) → IsFreeAt ahead.old.log from → IsFreeAt ahead.new.log (from + part_count (length (input_spelling (input_of input.now))))) }
    ensures unsynced { OnOk result (ahead.new.unsynced ≡ true) }
    ensures layout { ahead.new.log.layout ≡ ahead.old.log.layout }
    ensures grows { ahead.old.log.generation ≤ ahead.new.log.generation }
    ensures kept { IfErr result (λ e. (e ≡ Refusal.Device) ⊎ ((disk.new ≡ disk.old) × (ahead.new ≡ ahead.old))) }
    ensures refused { IfErr result (λ e. IsLost e ⊎ (e ≡ Refusal.GenerationsSpent)) }
    ensures spent { result ≡ Err Refusal.GenerationsSpent → LacksRoom ahead.old.log (length (input_spelling (input_of input.now))) }
    ensures fitted { OnOk result (ahead.old.log.next + part_count (length (input_spelling (input_of input.now))) ≤ log_end ahead.old.log.layout ahead.old.log.generation
        → (IsTrue (D.honest disk.old) → sync_count (D.past disk.new) ≡ sync_count (D.past disk.old))
        × (ahead.new.log.next ≡ ahead.old.log.next + part_count (length (input_spelling (input_of input.now))))
        × (D.calls disk.new ≤ D.calls disk.old + part_count (length (input_spelling (input_of input.now))))
        × (ahead.new.log.generation ≡ ahead.old.log.generation)) }
    ensures rises { OnOk result (MayRise ahead.old ahead.new (finish_ahead ahead.old)
        (D.calls disk.old + part_count (length (input_spelling (input_of input.now)))) (D.calls disk.new)) }
    ensures few { HasRoomFor ahead.old.log (input_of input.now) → D.calls disk.new ≤ D.calls disk.old + part_count (length (input_spelling (input_of input.now))) }
    ensures calls { D.calls disk.new ≤ D.calls disk.old + owed ahead.old.unsynced + finish_ahead ahead.old + part_count (length (input_spelling (input_of input.now))) }
    ensures device { CountsDevice result (D.failures disk.old) (D.failures disk.new) }
    ensures size { D.size disk.new ≡ D.size disk.old }
    ensures honest { D.honest disk.new ≡ D.honest disk.old }
{
    match write(alloc, disk, ahead, engine, input) {
        Ok(()) => {
            let (reply, actions, back) = engine.commit(next);
            Ok((Receipt::new(reply, actions), back))
        }
        Err(refusal) => {
            drop(next);
            Err(refusal)
        }
    }
}
