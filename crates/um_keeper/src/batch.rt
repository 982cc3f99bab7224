//! Lists of inputs that are taken in order, with one sync for them all.
ghost use Rattle.std.specs.Prelude.{◌≡◌, ◌≢◌, ◌⊎◌, ◌↔◌, ◌+◌, ◌-◌, ◌<◌, ◌≤◌, ◌∷◌, ◌++◌, [], ℕ, false, true, List, length, map, replicate, vec_len, vec_capacity, Ok, Err, IfOk, IfErr, OnOk, OnErr, IsTrue};
ghost use Rattle.std.specs.List.{AllByRecursion};
ghost use Rattle.um_engine.specs.Engine as machine;
ghost use Rattle.um_keeper.specs.Answering.{Answered, AreAnswered, Recorded, NeedsRecord, FellBack, FellThere, StopsAt, HasFault, CountsFault, denied, all_asked, IsIdle, NeedNoRecord, HasNoRecord, HaveNoRecord, record_sectors, where_step, taken, AreSpentAt, AreSpentAsMeant, TakesCalls, BeginsOne, most_calls, most_snapshot_calls, state_before_all};
ghost use Rattle.um_keeper.specs.Keepers.{disk_in, state_in, size_in, layout_in, log_generation_in, next_in, left_in, has_failed, IsSamePlace, IsFreeFrom};
ghost use Rattle.um_keeper.specs.Keeping.{MayHold, IsBegun, record_calls};
ghost use Rattle.um_keeper.specs.Underway.{UnderwayIn, KeptIn, is_renewing, finish_ahead, owed, LacksRoom, HasRoomFor, IsFreeAt, MayRise, TakesUnsynced};
ghost use Rattle.um_keeper.specs.Answering.{Answer};
ghost use Rattle.um_keeper.specs.Keeping.{snapshot_calls};
ghost use Rattle.um_engine.specs.OfStore.{is_of_store};
ghost use Rattle.um_model.specs.Disk.{During, Images};
ghost use Rattle.um_model.specs.InputSpellings.{input_spelling};
ghost use Rattle.um_model.specs.Machine as model;
ghost use Rattle.um_model.specs.Machine.{State, Step};
ghost use Rattle.um_model.specs.Refusals.{Refused};
ghost use Rattle.um_keeper.specs.Offers.{HasCome, GoesOn};
ghost use Rattle.um_model.specs.Lives.{Offer};
ghost use Rattle.um_model.specs.Numbers.{AreNew, started_numbers};
ghost use Rattle.um_model.specs.Stands.{IsStoreOf};
ghost use Rattle.um_model.specs.Store.{log_end, part_count, store_sectors};
ghost use Rattle.um_sector.specs.Refused.{CountsDevice, IsLost};
ghost use Rattle.um_sector.specs.Unsynced.{sync_count};
ghost use Rattle.um_wire.specs.Refusal.{refused_of};
ghost use Rattle.um_state.specs.View.{input_of};

use crate::ahead::Ahead;
use crate::keeper::Keeper;
use crate::receipt::Receipt;
use crate::recording::{record, settle};
use std::alloc::Global;
use std::mem;
use um_engine::{Back, Engine};
use um_sector::Disk;
use um_state::Input;
use um_wire::Refusal;

/// Notes an answer for which there is room.
fn note(answers: &mut Vec<Result<Receipt, Refusal>>, answer: Result<Receipt, Refusal>)
    requires { vec_len answers.old + 1 ≤ vec_capacity answers.old }
    ensures items { answers.new.items ≡ answers.old.items ++ answer ∷ [] }
    ensures len { vec_len answers.new ≡ vec_len answers.old + 1 }
    ensures capacity { vec_capacity answers.old ≤ vec_capacity answers.new }
{
    answers.push_reserved(answer);
}

/// Keeps the way back from a step, for which there is room.
fn keep(backs: &mut Vec<Back>, back: Back)
    requires { vec_len backs.old + 1 ≤ vec_capacity backs.old }
    ensures items { backs.new.items ≡ backs.old.items ++ back ∷ [] }
    ensures len { vec_len backs.new ≡ vec_len backs.old + 1 }
    ensures capacity { vec_capacity backs.old ≤ vec_capacity backs.new }
{
    backs.push_reserved(back);
}

/// Drops an answer that is not given to anybody.
fn let_one_go(answer: Result<Receipt, Refusal>) {
    match answer {
        Ok(receipt) => receipt.let_go(),
        Err(refusal) => drop(refusal),
    }
}

/// Denies a success, since the disk failed afterwards. A refusal stays.
fn deny_one(answer: &mut Result<Receipt, Refusal>)
    ensures { answer.new ≡ denied answer.old }
{
    if answer.is_ok() {
        let_one_go(mem::replace(answer, Err(Refusal::Device)));
    }
}

/// Denies all that was done.
fn deny_all(answers: &mut Vec<Result<Receipt, Refusal>>)
    ensures items { answers.new.items ≡ map denied answers.old.items }
    ensures len { vec_len answers.new ≡ vec_len answers.old }
    ensures capacity { vec_capacity answers.new ≡ vec_capacity answers.old }
{
    for answer in answers.iter_mut() {
        deny_one(answer);
    }
}

/// Makes `count` answers of these after the disk failed: each success is denied, and each input without an answer gets
/// E16.
fn deny(answers: &mut Vec<Result<Receipt, Refusal>>, count: usize)
    requires { count ≤ vec_capacity answers.old }
    ensures { answers.new.items ≡ map denied answers.old.items ++ replicate (count - length answers.old.items) (Err Refusal.Device) }
{
    deny_all(answers);
    for _ in answers.len()..count {
        note(answers, Err(Refusal::Device));
    }
}

/// Takes steps back, the last one first.
fn go_back(engine: &mut Engine, mut backs: Vec<Back>)
    ensures state { machine.standing_in engine.new ≡ state_before_all backs.items (machine.standing_in engine.old) }
    ensures size { machine.size_in engine.new ≡ machine.size_in engine.old }
{
    while let Some(back) = backs.pop() {
        engine.back(back);
    }
}

/// Whether the disk failed.
fn is_fault(refusal: &Refusal) -> bool
    ensures { IsTrue result ↔ (refusal.now ≡ Refusal.Device) }
{
    match refusal {
        Refusal::Device => true,
        _ => false,
    }
}

/// Takes a step, with its record written but not synced, and gives the receipt and the way back.
fn take_step<D: Disk>(
    alloc: Global,
    disk: &mut D,
    ahead: &mut Ahead,
    engine: &mut Engine,
    input: &Input,
) -> Result<(Receipt, Back), Refusal>
    requires held { MayHold ahead.old.log.layout (machine.size_in engine.old) (machine.state_in engine.old) }
    ensures during { IsTrue (D.honest disk.old) → (s : State) (before : List model.Input) → UnderwayIn s before (D.past disk.old) ahead.old (machine.state_in engine.old)
        → During (D.past disk.old) (D.past disk.new) (IsBegun ahead.old.log.layout s (before ++ input_of input.now ∷ [])) }
    ensures under { OnOk result (IsTrue (D.honest disk.old) → (s : State) (before : List model.Input) → UnderwayIn s before (D.past disk.old) ahead.old (machine.state_in engine.old)
        → UnderwayIn s (before ++ input_of input.now ∷ []) (D.past disk.new) ahead.new (machine.state_in engine.new)) }
    ensures ok { IfOk result (λ made. Step (machine.size_in engine.old) (machine.state_in engine.old) (input_of input.now) made.0.0 made.0.1 (machine.state_in engine.new)) }
    ensures accepted { IfOk result (λ made. (r : Refused) → made.0.0 ≢ model.Refusal r) }
    ensures back { IfOk result (λ made. machine.state_before made.1 (machine.standing_in engine.new) ≡ machine.standing_in engine.old) }
    ensures held { MayHold ahead.new.log.layout (machine.size_in engine.new) (machine.state_in engine.new) }
    ensures sized { machine.size_in engine.new ≡ machine.size_in engine.old }
    ensures filled { OnOk result ((from : ℕ) → IsFreeAt ahead.old.log from → IsFreeAt ahead.new.log (from + part_count (length (input_spelling (input_of input.now))))) }
    ensures idle { IsIdle (machine.state_in engine.old) (input_of input.now) → (disk.new ≡ disk.old) × (ahead.new ≡ ahead.old) × (machine.state_in engine.new ≡ machine.state_in engine.old) }
    ensures either { OnOk result (IsIdle (machine.state_in engine.old) (input_of input.now) ⊎ (¬ IsIdle (machine.state_in engine.old) (input_of input.now))) }
    ensures clean { OnOk result (ahead.new.unsynced ≡ false → (ahead.old.unsynced ≡ false) × IsIdle (machine.state_in engine.old) (input_of input.now)) }
    ensures layout { ahead.new.log.layout ≡ ahead.old.log.layout }
    ensures grows { ahead.old.log.generation ≤ ahead.new.log.generation }
    ensures kept { IfErr result (λ e. (e ≡ Refusal.Device) ⊎ ((disk.new ≡ disk.old) × (ahead.new ≡ ahead.old))) }
    ensures state { OnErr result (engine.new ≡ engine.old) }
    ensures refused { IfErr result (λ e. IsLost e ⊎ (e ≡ Refusal.GenerationsSpent) ⊎ ((is_of_store e ≡ false)
        × Step (machine.size_in engine.old) (machine.state_in engine.old) (input_of input.now) (model.Refusal (refused_of e)) [] (machine.state_in engine.old))) }
    ensures fault { result ≡ Err Refusal.Device → NeedsRecord (machine.size_in engine.old) (machine.state_in engine.old) (input_of input.now) }
    ensures spent { result ≡ Err Refusal.GenerationsSpent → LacksRoom ahead.old.log (length (input_spelling (input_of input.now))) }
    ensures fitted { OnOk result (ahead.old.log.next + part_count (length (input_spelling (input_of input.now))) ≤ log_end ahead.old.log.layout ahead.old.log.generation
        → (IsTrue (D.honest disk.old) → sync_count (D.past disk.new) ≡ sync_count (D.past disk.old))
        × (ahead.new.log.next ≤ ahead.old.log.next + part_count (length (input_spelling (input_of input.now))))
        × (D.calls disk.new ≤ D.calls disk.old + part_count (length (input_spelling (input_of input.now))))
        × (ahead.new.log.generation ≡ ahead.old.log.generation)) }
    ensures rises { OnOk result (MayRise ahead.old ahead.new (finish_ahead ahead.old)
        (D.calls disk.old + part_count (length (input_spelling (input_of input.now)))) (D.calls disk.new)) }
    ensures few { HasRoomFor ahead.old.log (input_of input.now) → D.calls disk.new ≤ D.calls disk.old + part_count (length (input_spelling (input_of input.now))) }
    ensures calls { D.calls disk.new + owed ahead.new.unsynced ≤ D.calls disk.old + owed ahead.old.unsynced + finish_ahead ahead.old + record_calls (input_of input.now) }
    ensures device { CountsDevice result (D.failures disk.old) (D.failures disk.new) }
    ensures size { D.size disk.new ≡ D.size disk.old }
    ensures honest { D.honest disk.new ≡ D.honest disk.old }
{
    let next = engine.plan(input)?;
    if next.has_effect() {
        return record(alloc, disk, ahead, engine, input, next);
    }
    let (reply, actions, back) = engine.commit(next);
    Ok((Receipt::new(reply, actions), back))
}

/// Takes one input of a list and answers it, and keeps the way back from its step. It is refused where a disk call fails (E16).
fn take_one<D: Disk>(
    alloc: Global,
    disk: &mut D,
    ahead: &mut Ahead,
    engine: &mut Engine,
    input: &Input,
    backs: &mut Vec<Back>,
) -> Result<Result<Receipt, Refusal>, Refusal>
    requires held { MayHold ahead.old.log.layout (machine.size_in engine.old) (machine.state_in engine.old) }
    requires room { vec_len backs.old + 1 ≤ vec_capacity backs.old }
    ensures ok { IfOk result (λ answer. Answered (machine.size_in engine.old) (machine.state_in engine.old) (input_of input.now) answer (machine.state_in engine.new)) }
    ensures during { IfOk result (λ answer. IsTrue (D.honest disk.old) → (s : State) (before : List model.Input) → UnderwayIn s before (D.past disk.old) ahead.old (machine.state_in engine.old)
        → During (D.past disk.old) (D.past disk.new) (IsBegun ahead.old.log.layout s (before ++ where_step answer (input_of input.now)))) }
    ensures under { IfOk result (λ answer. IsTrue (D.honest disk.old) → (s : State) (before : List model.Input) → UnderwayIn s before (D.past disk.old) ahead.old (machine.state_in engine.old)
        → UnderwayIn s (before ++ where_step answer (input_of input.now)) (D.past disk.new) ahead.new (machine.state_in engine.new)) }
    ensures lost { OnErr result (IsTrue (D.honest disk.old) → (s : State) (before : List model.Input) → UnderwayIn s before (D.past disk.old) ahead.old (machine.state_in engine.old)
        → During (D.past disk.old) (D.past disk.new) (IsBegun ahead.old.log.layout s (before ++ input_of input.now ∷ []))) }
    ensures back { state_before_all backs.new.items (machine.standing_in engine.new) ≡ state_before_all backs.old.items (machine.standing_in engine.old) }
    ensures one { vec_len backs.new ≤ vec_len backs.old + 1 }
    ensures capacity { vec_capacity backs.old ≤ vec_capacity backs.new }
    ensures held { MayHold ahead.new.log.layout (machine.size_in engine.new) (machine.state_in engine.new) }
    ensures sized { machine.size_in engine.new ≡ machine.size_in engine.old }
    ensures layout { ahead.new.log.layout ≡ ahead.old.log.layout }
    ensures grows { ahead.old.log.generation ≤ ahead.new.log.generation }
    ensures free { OnOk result ((from : ℕ) → IsFreeAt ahead.old.log from → IsFreeAt ahead.new.log (from + record_sectors (input_of input.now))) }
    ensures refused { IfErr result (λ e. e ≡ Refusal.Device) }
    ensures fault { OnErr result (NeedsRecord (machine.size_in engine.old) (machine.state_in engine.old) (input_of input.now)) }
    ensures idle { IsIdle (machine.state_in engine.old) (input_of input.now) → (disk.new ≡ disk.old) × (ahead.new ≡ ahead.old) × (machine.state_in engine.new ≡ machine.state_in engine.old) }
    ensures unrecorded { IfOk result (λ answer. HasNoRecord (machine.state_in engine.old) (input_of input.now) answer
        → (disk.new ≡ disk.old) × (ahead.new ≡ ahead.old) × (machine.state_in engine.new ≡ machine.state_in engine.old)) }
    ensures either { IfOk result (λ answer. HasNoRecord (machine.state_in engine.old) (input_of input.now) answer ⊎ (¬ HasNoRecord (machine.state_in engine.old) (input_of input.now) answer)) }
    ensures clean { IfOk result (λ answer. ahead.new.unsynced ≡ false → (ahead.old.unsynced ≡ false) × HasNoRecord (machine.state_in engine.old) (input_of input.now) answer) }
    ensures fitted { OnOk result (ahead.old.log.next + record_sectors (input_of input.now) ≤ log_end ahead.old.log.layout ahead.old.log.generation
        → (IsTrue (D.honest disk.old) → sync_count (D.past disk.new) ≡ sync_count (D.past disk.old))
        × (ahead.new.log.next ≤ ahead.old.log.next + record_sectors (input_of input.now))
        × (D.calls disk.new ≤ D.calls disk.old + record_sectors (input_of input.now))
        × (ahead.new.log.generation ≡ ahead.old.log.generation)) }
    ensures rises { OnOk result (MayRise ahead.old ahead.new (most_snapshot_calls ahead.old.log.layout)
        (D.calls disk.old + record_sectors (input_of input.now)) (D.calls disk.new)) }
    ensures few { OnErr result (HasRoomFor ahead.old.log (input_of input.now) → D.calls disk.new ≤ D.calls disk.old + part_count (length (input_spelling (input_of input.now)))) }
    ensures spent { IfOk result (λ answer. answer ≡ Err Refusal.GenerationsSpent → LacksRoom ahead.old.log (length (input_spelling (input_of input.now)))) }
    ensures calls { D.calls disk.new + owed ahead.new.unsynced ≤ D.calls disk.old + owed ahead.old.unsynced + most_snapshot_calls ahead.old.log.layout + record_calls (input_of input.now) }
    ensures device { CountsDevice result (D.failures disk.old) (D.failures disk.new) }
    ensures size { D.size disk.new ≡ D.size disk.old }
    ensures honest { D.honest disk.new ≡ D.honest disk.old }
{
    // most inputs are reports that processes run on, of which nothing is planned, and to which no way leads back
    if engine.is_idle(input) {
        return Ok(Ok(Receipt::done(alloc)));
    }
    match take_step(alloc, disk, ahead, engine, input) {
        Ok((receipt, back)) => {
            keep(backs, back);
            Ok(Ok(receipt))
        }
        Err(refusal) => {
            if is_fault(&refusal) {
                return Err(refusal);
            }
            Ok(Err(refusal))
        }
    }
}

/// Takes the inputs of a list, up to the first at which a disk call fails (E16). Their records aren't synced yet.
fn take_all<D: Disk>(
    alloc: Global,
    disk: &mut D,
    ahead: &mut Ahead,
    engine: &mut Engine,
    inputs: &[Input],
    answers: &mut Vec<Result<Receipt, Refusal>>,
    backs: &mut Vec<Back>,
) -> Result<(), Refusal>
    requires held { MayHold ahead.old.log.layout (machine.size_in engine.old) (machine.state_in engine.old) }
    requires synced { ahead.old.unsynced ≡ false }
    requires none { answers.old.items ≡ [] }
    requires room { vec_len answers.old + length inputs.now ≤ vec_capacity answers.old }
    requires ways { vec_len backs.old + length inputs.now ≤ vec_capacity backs.old }
    ensures ok { OnOk result (AreAnswered (machine.size_in engine.old) (machine.state_in engine.old) (map input_of inputs.now) answers.new.items (machine.state_in engine.new)) }
    ensures during { OnOk result (IsTrue (D.honest disk.old) → KeptIn (D.past disk.old) (D.size disk.old) ahead.old (machine.state_in engine.old)
        → During (D.past disk.old) (D.past disk.new) (IsBegun ahead.old.log.layout (machine.state_in engine.old) (taken (map input_of inputs.now) answers.new.items))) }
    ensures under { OnOk result (IsTrue (D.honest disk.old) → KeptIn (D.past disk.old) (D.size disk.old) ahead.old (machine.state_in engine.old)
        → UnderwayIn (machine.state_in engine.old) (taken (map input_of inputs.now) answers.new.items) (D.past disk.new) ahead.new (machine.state_in engine.new)) }
    ensures stopped { OnErr result (StopsAt ahead.old.log.next (log_end ahead.old.log.layout ahead.old.log.generation) (D.calls disk.old) (D.calls disk.new)
        (machine.size_in engine.old) (machine.state_in engine.old) (map input_of inputs.now) answers.new.items) }
    ensures lost { OnErr result (IsTrue (D.honest disk.old) → KeptIn (D.past disk.old) (D.size disk.old) ahead.old (machine.state_in engine.old)
        → During (D.past disk.old) (D.past disk.new)
        (IsBegun ahead.old.log.layout (machine.state_in engine.old) (taken (map input_of inputs.now) (answers.new.items ++ Err Refusal.Device ∷ [])))) }
    ensures back { state_before_all backs.new.items (machine.standing_in engine.new) ≡ state_before_all backs.old.items (machine.standing_in engine.old) }
    ensures held { MayHold ahead.new.log.layout (machine.size_in engine.new) (machine.state_in engine.new) }
    ensures sized { machine.size_in engine.new ≡ machine.size_in engine.old }
    ensures layout { ahead.new.log.layout ≡ ahead.old.log.layout }
    ensures refused { IfErr result (λ e. e ≡ Refusal.Device) }
    ensures idle { AllByRecursion (IsIdle (machine.state_in engine.old)) (map input_of inputs.now) → (disk.new ≡ disk.old) × (ahead.new ≡ ahead.old) }
    ensures unrecorded { OnOk result (HaveNoRecord (machine.state_in engine.old) (map input_of inputs.now) answers.new.items → (disk.new ≡ disk.old) × (ahead.new ≡ ahead.old)) }
    ensures unwritten { OnErr result ((rest : List Answer) → NeedNoRecord (machine.state_in engine.old) (map input_of inputs.now) (answers.new.items ++ Err Refusal.Device ∷ rest)
        → disk.new ≡ disk.old) }
    ensures left { OnErr result (length answers.new.items < length inputs.now) }
    ensures clean { OnOk result (ahead.new.unsynced ≡ false → HaveNoRecord (machine.state_in engine.old) (map input_of inputs.now) answers.new.items) }
    ensures takes { OnOk result (TakesUnsynced (D.honest disk.old) (sync_count (D.past disk.old)) (sync_count (D.past disk.new)) (machine.size_in engine.old) ahead.old ahead.new
        (D.calls disk.old) (D.calls disk.new) (machine.state_in engine.old) (map input_of inputs.now) answers.new.items (machine.state_in engine.new)) }
    ensures capacity { length inputs.now ≤ vec_capacity answers.new }
    ensures spent { OnErr result ((from : ℕ) → IsFreeAt ahead.old.log from
        → AreSpentAsMeant ahead.old.log.layout ahead.new.log.generation (machine.size_in engine.old) from (machine.state_in engine.old) (map input_of inputs.now)
        (map denied answers.new.items ++ replicate (length inputs.now - length answers.new.items) (Err Refusal.Device))) }
    ensures calls { D.calls disk.new + owed ahead.new.unsynced ≤ D.calls disk.old + most_calls ahead.old.log.layout (map input_of inputs.now) }
    ensures device { CountsDevice result (D.failures disk.old) (D.failures disk.new) }
    ensures size { D.size disk.new ≡ D.size disk.old }
    ensures honest { D.honest disk.new ≡ D.honest disk.old }
{
    for input in inputs {
        let answer = take_one(alloc, disk, ahead, engine, input, backs)?;
        note(answers, answer);
    }
    Ok(())
}

/// Takes the inputs of a list, with one sync after the records of them all. E16.
fn record_all<D: Disk>(
    alloc: Global,
    disk: &mut D,
    ahead: &mut Ahead,
    engine: &mut Engine,
    inputs: &[Input],
    answers: &mut Vec<Result<Receipt, Refusal>>,
    backs: &mut Vec<Back>,
) -> Result<(), Refusal>
    requires held { MayHold ahead.old.log.layout (machine.size_in engine.old) (machine.state_in engine.old) }
    requires synced { ahead.old.unsynced ≡ false }
    requires none { answers.old.items ≡ [] }
    requires room { vec_len answers.old + length inputs.now ≤ vec_capacity answers.old }
    requires ways { vec_len backs.old + length inputs.now ≤ vec_capacity backs.old }
    ensures ok { OnOk result (AreAnswered (machine.size_in engine.old) (machine.state_in engine.old) (map input_of inputs.now) answers.new.items (machine.state_in engine.new)) }
    ensures during { OnOk result (IsTrue (D.honest disk.old) → KeptIn (D.past disk.old) (D.size disk.old) ahead.old (machine.state_in engine.old)
        → During (D.past disk.old) (D.past disk.new) (IsBegun ahead.old.log.layout (machine.state_in engine.old) (taken (map input_of inputs.now) answers.new.items))) }
    ensures kept { OnOk result (IsTrue (D.honest disk.old) → KeptIn (D.past disk.old) (D.size disk.old) ahead.old (machine.state_in engine.old)
        → KeptIn (D.past disk.new) (D.size disk.old) ahead.new (machine.state_in engine.new)) }
    ensures stopped { OnErr result (StopsAt ahead.old.log.next (log_end ahead.old.log.layout ahead.old.log.generation) (D.calls disk.old) (D.calls disk.new)
        (machine.size_in engine.old) (machine.state_in engine.old) (map input_of inputs.now) answers.new.items) }
    ensures lost { OnErr result (IsTrue (D.honest disk.old) → KeptIn (D.past disk.old) (D.size disk.old) ahead.old (machine.state_in engine.old)
        → During (D.past disk.old) (D.past disk.new)
        (IsBegun ahead.old.log.layout (machine.state_in engine.old) (taken (map input_of inputs.now) (answers.new.items ++ Err Refusal.Device ∷ [])))) }
    ensures back { state_before_all backs.new.items (machine.standing_in engine.new) ≡ state_before_all backs.old.items (machine.standing_in engine.old) }
    ensures held { MayHold ahead.new.log.layout (machine.size_in engine.new) (machine.state_in engine.new) }
    ensures sized { machine.size_in engine.new ≡ machine.size_in engine.old }
    ensures layout { ahead.new.log.layout ≡ ahead.old.log.layout }
    ensures refused { IfErr result (λ e. e ≡ Refusal.Device) }
    ensures idle { AllByRecursion (IsIdle (machine.state_in engine.old)) (map input_of inputs.now) → disk.new ≡ disk.old }
    ensures unrecorded { OnOk result (HaveNoRecord (machine.state_in engine.old) (map input_of inputs.now) answers.new.items → disk.new ≡ disk.old) }
    ensures unwritten { OnErr result ((rest : ℕ) → length inputs.now ≤ length answers.new.items + rest
        → NeedNoRecord (machine.state_in engine.old) (map input_of inputs.now) (map denied answers.new.items ++ replicate rest (Err Refusal.Device)) → disk.new ≡ disk.old) }
    ensures one_sync { OnOk result (IsTrue (D.honest disk.old) → (sectors : ℕ)
        × Recorded (machine.size_in engine.old) (machine.state_in engine.old) (map input_of inputs.now) answers.new.items sectors (machine.state_in engine.new)
        × (ahead.old.log.next + sectors ≤ log_end ahead.old.log.layout ahead.old.log.generation
        → ¬ HaveNoRecord (machine.state_in engine.old) (map input_of inputs.now) answers.new.items → sync_count (D.past disk.new) ≡ sync_count (D.past disk.old) + 1)) }
    ensures few_calls { OnOk result (TakesCalls ahead.old.log.layout ahead.old.log.next ahead.old.log.generation ahead.new.log.generation (D.calls disk.old) (D.calls disk.new)
        (machine.size_in engine.old) (machine.state_in engine.old) (map input_of inputs.now) answers.new.items (machine.state_in engine.new)) }
    ensures begins { OnOk result (is_renewing ahead.old ≡ false → ahead.new.log.generation ≤ ahead.old.log.generation + 1
        → BeginsOne (D.calls disk.old) (D.calls disk.new) (machine.size_in engine.old) (machine.state_in engine.old) (map input_of inputs.now) answers.new.items (machine.state_in engine.new)) }
    ensures synced { OnOk result (ahead.new.unsynced ≡ false) }
    ensures capacity { length inputs.now ≤ vec_capacity answers.new }
    ensures spent { OnOk result ((from : ℕ) → IsFreeAt ahead.old.log from
        → AreSpentAt ahead.old.log.layout ahead.new.log.generation (machine.size_in engine.old) from (machine.state_in engine.old) (map input_of inputs.now)
        answers.new.items) }
    ensures spent_meant { OnErr result ((from : ℕ) → IsFreeAt ahead.old.log from
        → AreSpentAsMeant ahead.old.log.layout ahead.new.log.generation (machine.size_in engine.old) from (machine.state_in engine.old) (map input_of inputs.now)
        (map denied answers.new.items ++ replicate (length inputs.now - length answers.new.items) (Err Refusal.Device))) }
    ensures calls { D.calls disk.new ≤ D.calls disk.old + most_calls ahead.old.log.layout (map input_of inputs.now) }
    ensures device { CountsDevice result (D.failures disk.old) (D.failures disk.new) }
    ensures size { D.size disk.new ≡ D.size disk.old }
    ensures honest { D.honest disk.new ≡ D.honest disk.old }
{
    take_all(alloc, disk, ahead, engine, inputs, answers, backs)?;
    settle(disk, ahead)?;
    ahead.unsynced = false;
    Ok(())
}

impl<D: Disk> Keeper<D> {
    /// Takes a list of inputs in order, each with its own record, and syncs once after them all. Each input is answered
    /// by its receipt or by its step's refusal (E4 to E14, E21). With none of the others touched it is answered E15, or
    /// E20 if its record has no room and the generation is the last.
    ///
    /// A record that has no room begins a snapshot first: the records written so far are synced, the snapshot under way
    /// is finished, and the records go on as the next generation. If nothing is to be recorded there is no disk call.
    ///
    /// If a disk call fails the state is that from before, no receipt is given, and each input that wasn't refused for
    /// another cause is answered E16. No input that follows the failure is judged.
    ///
    /// Each image of each moment meanwhile is a store of the state after a beginning of the inputs without those
    /// answered E15 or E20. Afterwards, if no disk call failed, it is a store of the state after all of them. The list
    /// as a whole is refused with E17 if an earlier call answered E16, and with E15 before anything is written or
    /// taken.
    pub fn submit_all(
        &mut self,
        inputs: Vec<Input>,
    ) -> Result<Vec<Result<Receipt, Refusal>>, Refusal>
        ensures ok { IfOk result (λ answers. has_failed self.new ≡ false
            → AreAnswered (size_in self.old) (state_in self.old) (map input_of inputs.items) answers.items (state_in self.new)) }
        ensures fell { IfOk result (λ answers. has_failed self.new ≡ true
            → FellBack (size_in self.old) (state_in self.old) (map input_of inputs.items) answers.items (state_in self.new)) }
        ensures fell_there { IfOk result (λ answers. has_failed self.new ≡ true
            → FellThere (next_in self.old) (log_end (layout_in self.old) (log_generation_in self.old)) (D.calls (disk_in self.old)) (D.calls (disk_in self.new))
            (size_in self.old) (state_in self.old) (map input_of inputs.items) answers.items (state_in self.new)) }
        ensures told { IfOk result (λ answers. (has_failed self.new ≡ true) ↔ HasFault answers.items) }
        ensures during { IfOk result (λ answers. IsTrue (D.honest (disk_in self.old))
            → During (D.past (disk_in self.old)) (D.past (disk_in self.new))
            (IsBegun (layout_in self.old) (state_in self.old) (taken (map input_of inputs.items) answers.items))) }
        ensures life { IfOk result (λ answers. (s : State) (before : List Offer) → IsTrue (D.honest (disk_in self.old))
            → HasCome (layout_in self.old) s before (state_in self.old)
            → GoesOn (layout_in self.old) s before (map input_of inputs.items) answers.items (D.past (disk_in self.old)) (D.past (disk_in self.new))
            (has_failed self.new) (state_in self.new)) }
        ensures order { IfOk result (λ answers. AreNew (state_in self.old).next (state_in self.new).next (started_numbers (all_asked answers.items))) }
        ensures stored { has_failed self.new ≡ false → IsTrue (D.honest (disk_in self.old))
            → Images (D.past (disk_in self.new)) (λ image. IsStoreOf (layout_in self.old) image (state_in self.new)) }
        ensures state { OnErr result (state_in self.new ≡ state_in self.old) }
        ensures back { has_failed self.new ≡ true → state_in self.new ≡ state_in self.old }
        ensures place { IsSamePlace self.old self.new }
        ensures refused { IfErr result (λ e. (e ≡ Refusal.NoMemory) ⊎ (e ≡ Refusal.Reopen)) }
        ensures unwritten { OnErr result (disk_in self.new ≡ disk_in self.old) }
        ensures still { OnErr result ((log_generation_in self.new ≡ log_generation_in self.old) × (next_in self.new ≡ next_in self.old)) }
        ensures idle { AllByRecursion (IsIdle (state_in self.old)) (map input_of inputs.items) → disk_in self.new ≡ disk_in self.old }
        ensures unrecorded { IfOk result (λ answers. NeedNoRecord (state_in self.old) (map input_of inputs.items) answers.items
            → disk_in self.new ≡ disk_in self.old) }
        ensures device { IfOk result (λ answers. CountsFault answers.items (D.failures (disk_in self.old)) (D.failures (disk_in self.new))) }
        ensures failed { OnErr result (has_failed self.new ≡ has_failed self.old) }
        ensures reopen { (result ≡ Err Refusal.Reopen) ↔ (has_failed self.old ≡ true) }
        ensures spent { IfOk result (λ answers. (from : ℕ) → IsFreeFrom self.old from
            → AreSpentAsMeant (layout_in self.old) (log_generation_in self.new) (size_in self.old) from (state_in self.old) (map input_of inputs.items)
            answers.items) }
        ensures calls { D.calls (disk_in self.new) ≤ D.calls (disk_in self.old) + most_calls (layout_in self.old) (map input_of inputs.items) }
        ensures one_sync { IfOk result (λ answers. has_failed self.new ≡ false → IsTrue (D.honest (disk_in self.old)) → (sectors : ℕ)
            × Recorded (size_in self.old) (state_in self.old) (map input_of inputs.items) answers.items sectors (state_in self.new)
            × (next_in self.old + sectors ≤ log_end (layout_in self.old) (log_generation_in self.old)
            → (HaveNoRecord (state_in self.old) (map input_of inputs.items) answers.items → sync_count (D.past (disk_in self.new)) ≡ sync_count (D.past (disk_in self.old)))
            × (¬ HaveNoRecord (state_in self.old) (map input_of inputs.items) answers.items → sync_count (D.past (disk_in self.new)) ≡ sync_count (D.past (disk_in self.old)) + 1))) }
        ensures no_call { IfOk result (λ answers. has_failed self.new ≡ false → HaveNoRecord (state_in self.old) (map input_of inputs.items) answers.items
            → disk_in self.new ≡ disk_in self.old) }
        ensures few_calls { IfOk result (λ answers. has_failed self.new ≡ false
            → TakesCalls (layout_in self.old) (next_in self.old) (log_generation_in self.old) (log_generation_in self.new) (D.calls (disk_in self.old)) (D.calls (disk_in self.new))
            (size_in self.old) (state_in self.old) (map input_of inputs.items) answers.items (state_in self.new)) }
        ensures begins { IfOk result (λ answers. has_failed self.new ≡ false → left_in self.old ≡ 0 → log_generation_in self.new ≤ log_generation_in self.old + 1
            → BeginsOne (D.calls (disk_in self.old)) (D.calls (disk_in self.new)) (size_in self.old) (state_in self.old) (map input_of inputs.items) answers.items (state_in self.new)) }
        ensures size { D.size (disk_in self.new) ≡ D.size (disk_in self.old) }
        ensures honest { D.honest (disk_in self.new) ≡ D.honest (disk_in self.old) }
    {
        if self.failed {
            return Err(Refusal::Reopen);
        }
        let count = inputs.len();
        let mut backs = Vec::with_capacity(self.alloc, count)?;
        let mut answers = Vec::with_capacity(self.alloc, count)?;
        match record_all(
            self.alloc,
            &mut self.disk,
            &mut self.ahead,
            &mut self.engine,
            &inputs,
            &mut answers,
            &mut backs,
        ) {
            Ok(()) => Ok(answers),
            Err(refusal) => {
                drop(refusal);
                self.failed = true;
                go_back(&mut self.engine, backs);
                deny(&mut answers, count);
                Ok(answers)
            }
        }
    }
}
