//! Opening: the boot, and then the processes that are live are adopted.

ghost use Rattle.std.specs.Prelude.{◌≡◌, ◌≢◌, ◌⊎◌, ◌+◌, ◌*◌, ◌≤◌, ◌++◌, ◌∷◌, [], ℕ, List, true, false, Ok, Err, IsTrue, IfOk, IfErr, OnOk, OnErr, length, vec_len, vec_capacity};
ghost use Rattle.std.specs.List.{AllByRecursion};
ghost use Rattle.um_children.specs.Frames.{KeepsChildren};
ghost use Rattle.um_manager.specs.Frames.{Frame, KeepsStore};
ghost use Rattle.um_keeper.specs.Keepers.{disk_in, state_in, size_in, layout_in, has_failed, HasNoRoom};
ghost use Rattle.um_keeper.specs.Keeping.{IsBegun};
ghost use Rattle.um_manager.specs.Connections.{IsNew};
ghost use Rattle.um_fates.specs.Fates.{Heard, inputs_in, lost};
ghost use Rattle.um_fates.specs.Live.{AreLive, has};
ghost use Rattle.um_manager.specs.Opening.{Adopted, Began, Ends, Refuses, Signalled, boot_at};
ghost use Rattle.um_manager.specs.Places.{place_in, is_trusted};
ghost use Rattle.um_manager.specs.Turns.{now_in};
ghost use Rattle.um_model.specs.Children.{ForgotOthers};
ghost use Rattle.um_model.specs.Disk.{During};
ghost use Rattle.um_model.specs.InputSpellings.{input_spelling};
ghost use Rattle.um_model.specs.Machine as model;
ghost use Rattle.um_model.specs.Machine.{Step, boot_limit};
ghost use Rattle.um_sector.specs.Refused.{CountsDevice, IsLost};
ghost use Rattle.um_state.specs.View.{state_of};

use crate::connection::CONNECTIONS;
use crate::round::forget_ended;
use crate::submitting::submit;
use std::alloc::{AllocError, Global};
use um_children::Children;
use um_fates::{Marks, claim_all, is_in, live_numbers};
use um_keeper::Keeper;
use um_model::{Moment, NextNumber, ProcessNumber, Signal, SubState};
use um_sector::Disk;
use um_session::Session;
use um_state::{BootId, Event, Happening, Input, Reply, State, Units};
use um_wire::Refusal;

/// The parts of a manager that its opening makes.
#[derive(Drop)]
pub struct Held {
    pub marks: Marks,
    pub sessions: Vec<Session>,
    /// The number of processes that were live.
    pub adopted: usize,
}

/// A new session for each connection.
#[tactic(auto, using(crate::proofs::Anew::one_more))]
fn new_sessions(alloc: Global) -> Result<Vec<Session>, AllocError>
    ensures each { IfOk result (λ sessions. length sessions.items ≡ 64) }
    ensures anew { IfOk result (λ sessions. AllByRecursion IsNew sessions.items) }
{
    let mut sessions = Vec::with_capacity(alloc, CONNECTIONS)?;
    for _ in 0..CONNECTIONS {
        sessions.push(Session::new(alloc))?;
    }
    Ok(sessions)
}

/// Sends the signal to the number, if its unit is in this state. One that fails isn't repeated.
#[tactic(auto, using(crate::proofs::Adoption::signalled_it, crate::proofs::Adoption::signalled_not))]
fn signal_one<C: Children>(
    children: &mut C,
    units: &Units,
    sub: SubState,
    signal: Signal,
    number: ProcessNumber,
)
    ensures signals { IsTrue (C.honest children.old) → IsTrue (C.whole children.new) → Signalled units.now.held sub signal (number ∷ [])
        (C.past children.old) (C.past children.new) }
    ensures children { KeepsChildren C.Children children.old children.new }
{
    if is_in(units, sub, number) {
        let _sent = children.signal(number, signal);
    }
}

/// Sends the signal to each of these numbers whose unit is in this state.
fn signal_all<C: Children>(
    children: &mut C,
    units: &Units,
    sub: SubState,
    signal: Signal,
    numbers: &[ProcessNumber],
)
    ensures signals { IsTrue (C.honest children.old) → IsTrue (C.whole children.new) → Signalled units.now.held sub signal numbers.now
        (C.past children.old) (C.past children.new) }
    ensures children { KeepsChildren C.Children children.old children.new }
{
    for number in numbers {
        signal_one(children, units, sub, signal, *number);
    }
}

/// Forgets the processes that aren't live any more, and queries the fate of each that is, with a claim. One that isn't
/// forgotten because of a fault is forgotten by a later opening.
fn claim_live<C: Children>(
    children: &mut C,
    live: &[ProcessNumber],
    next: NextNumber,
    moment: Moment,
    inputs: &mut Vec<Input>,
)
    requires { vec_len inputs.old + 2 * length live.now ≤ vec_capacity inputs.old }
    ensures hears { Heard lost moment (λ n. true) (C.honest children.old) (C.whole children.new)
        (C.past children.old ++ ForgotOthers live.now next ∷ []) (C.past children.new) live.now (inputs_in inputs.old.items) (inputs_in inputs.new.items) }
    ensures len { vec_len inputs.new ≤ vec_len inputs.old + 2 * length live.now }
    ensures capacity { vec_capacity inputs.old ≤ vec_capacity inputs.new }
    ensures children { KeepsChildren C.Children children.old children.new }
{
    let _forgotten = children.forget_others(live, next);
    claim_all(children, live, moment, inputs);
}

/// Sends TERM to those of these numbers whose unit is in stop-sigterm, and KILL to those whose unit is in stop-sigkill,
/// and forgets those that aren't live any more.
fn end_all<C: Children>(children: &mut C, units: &Units, numbers: &[ProcessNumber])
    ensures ends { IsTrue (C.honest children.old) → IsTrue (C.whole children.new) → Ends units.now.held numbers.now (C.past children.old) (C.past children.new) }
    ensures children { KeepsChildren C.Children children.old children.new }
{
    signal_all(
        children,
        units,
        SubState::StopSigterm,
        Signal::Term,
        numbers,
    );
    signal_all(
        children,
        units,
        SubState::StopSigkill,
        Signal::Kill,
        numbers,
    );
    forget_ended(children, units, numbers);
}

/// Adopts the live numbers: it queries the fate of each with a claim, offers the fates that are reported, and, if the
/// store took them, ends those that were being ended.
fn adopt<D: Disk, C: Children>(
    keeper: &mut Keeper<D>,
    children: &mut C,
    marks: &mut Marks,
    live: &[ProcessNumber],
    moment: Moment,
    inputs: Vec<Input>,
    replies: &mut Vec<Reply>,
) -> Result<(), Refusal>
    requires working { has_failed keeper.old ≡ false }
    requires live { AreLive (state_in keeper.old).units live.now }
    requires marked { (n : ℕ) → has n marks.old ≡ has n live.now }
    requires no_inputs { inputs.items ≡ [] }
    requires no_replies { replies.old.items ≡ [] }
    requires room { 2 * length live.now ≤ vec_capacity inputs }
    requires replies_room { 2 * length live.now ≤ vec_capacity replies.old }
    ensures refused { IfErr result (λ e. e ≡ Refusal.Device) }
    ensures device { CountsDevice result (D.failures (disk_in keeper.old)) (D.failures (disk_in keeper.new)) }
    ensures adopts { Adopted (place_in (D.honest (disk_in keeper.old)) keeper.old) (C.honest children.old) (C.whole children.new) result moment
        (now_in keeper.old (C.past children.old) marks.old [] (D.past (disk_in keeper.old)))
        (now_in keeper.new (C.past children.new) marks.new [] (D.past (disk_in keeper.new))) }
    ensures frame { Frame D.Disk C.Children result keeper.old keeper.new children.old children.new }
{
    let mut inputs = inputs;
    let next = keeper.state().next();
    claim_live(children, live, next, moment, &mut inputs);
    submit(keeper, children, marks, inputs, replies)?;
    end_all(children, keeper.state().units(), live);
    Ok(())
}

/// Offers the boot, which has no actions.
fn offer_boot<D: Disk>(keeper: &mut Keeper<D>, boot: BootId, moment: Moment) -> Result<(), Refusal>
    requires { has_failed keeper.old ≡ false }
    ensures booted { OnOk result ((reply : model.Reply) × Step (size_in keeper.old) (state_in keeper.old) (boot_at moment boot) reply []
        (state_in keeper.new)) }
    ensures state { OnErr result (state_in keeper.new ≡ state_in keeper.old) }
    ensures left { IsTrue (is_trusted (D.honest (disk_in keeper.old)) (has_failed keeper.old)) → During (D.past (disk_in keeper.old)) (D.past
        (disk_in keeper.new))
        (IsBegun (layout_in keeper.old) (state_in keeper.old) (boot_at moment boot ∷ [])) }
    ensures refused { IfErr result (λ e. IsLost e ⊎ (e ≡ Refusal.GenerationsSpent)) }
    ensures spent { result ≡ Err Refusal.GenerationsSpent → HasNoRoom keeper.old (length (input_spelling (boot_at moment boot))) }
    ensures device { CountsDevice result (D.failures (disk_in keeper.old)) (D.failures (disk_in keeper.new)) }
    ensures store { KeepsStore D.Disk result keeper.old keeper.new }
{
    let event = Event::Happened(Happening::Booted { boot });
    let receipt = keeper.submit(Input::new(moment, event))?;
    receipt.finish();
    Ok(())
}

/// The numbers that are live in this boot: those of another one are gone.
fn live_in(alloc: Global, state: &State, boot: &BootId) -> Result<Vec<ProcessNumber>, AllocError>
    ensures same { IfOk result (λ live. boot.now ≡ (state_of state.now).boot → AreLive (state_of state.now).units live.items) }
    ensures other { IfOk result (λ live. boot.now ≢ (state_of state.now).boot → live.items ≡ []) }
    ensures short { length boot.now ≤ boot_limit }
{
    if state.boot().as_str() == boot.as_str() {
        live_numbers(state.units())
    } else {
        Ok(Vec::new(alloc))
    }
}

/// The vectors that an opening fills. Room for all of them is taken before the boot is offered.
struct Room {
    sessions: Vec<Session>,
    live: Vec<ProcessNumber>,
    marks: Marks,
    inputs: Vec<Input>,
    replies: Vec<Reply>,
}

/// Room for a session a connection, and for the fates of those that are live in this boot.
fn room_for(alloc: Global, state: &State, boot: &BootId) -> Result<Room, AllocError>
    ensures sessions { IfOk result (λ room. length room.sessions.items ≡ 64) }
    ensures anew { IfOk result (λ room. AllByRecursion IsNew room.sessions.items) }
    ensures same { IfOk result (λ room. boot.now ≡ (state_of state.now).boot → AreLive (state_of state.now).units room.live.items) }
    ensures other { IfOk result (λ room. boot.now ≢ (state_of state.now).boot → room.live.items ≡ []) }
    ensures marked { IfOk result (λ room. (n : ℕ) → has n room.marks ≡ has n room.live.items) }
    ensures inputs { IfOk result (λ room. (room.inputs.items ≡ []) × (2 * length room.live.items ≤ vec_capacity room.inputs)) }
    ensures replies { IfOk result (λ room. (room.replies.items ≡ []) × (2 * length room.live.items ≤ vec_capacity room.replies)) }
    ensures short { OnOk result (length boot.now ≤ boot_limit) }
{
    let live = live_in(alloc, state, boot)?;
    Ok(Room {
        sessions: new_sessions(alloc)?,
        marks: Marks::of(alloc, live.as_slice())?,
        inputs: Vec::with_capacity(alloc, 2 * live.len())?,
        replies: Vec::with_capacity(alloc, 2 * live.len())?,
        live,
    })
}

/// Offers the boot, and adopts the processes that are live then. Want of memory is found before the boot is offered, or
/// is the boot's own; E20 is the boot's alone.
pub fn begin<D: Disk, C: Children>(
    alloc: Global,
    keeper: &mut Keeper<D>,
    children: &mut C,
    boot: BootId,
    moment: Moment,
) -> Result<Held, Refusal>
    requires { has_failed keeper.old ≡ false }
    ensures began { IfOk result (λ held.
        Began (place_in (D.honest (disk_in keeper.old)) keeper.old) (C.honest children.old) (C.whole children.new) (Ok tt) moment boot held.adopted
        (now_in keeper.old (C.past children.old) [] [] (D.past (disk_in keeper.old)))
        (now_in keeper.new (C.past children.new) held.marks [] (D.past (disk_in keeper.new)))) }
    ensures refuses { IfErr result (λ e. (marks : List ℕ)
        × Refuses (place_in (D.honest (disk_in keeper.old)) keeper.old) (C.honest children.old) (C.whole children.new) e moment boot
        (now_in keeper.old (C.past children.old) [] [] (D.past (disk_in keeper.old)))
        (now_in keeper.new (C.past children.new) marks [] (D.past (disk_in keeper.new)))) }
    ensures sessions { IfOk result (λ held. length held.sessions.items ≡ 64) }
    ensures anew { IfOk result (λ held. AllByRecursion IsNew held.sessions.items) }
    ensures refused { IfErr result (λ e. IsLost e ⊎ (e ≡ Refusal.GenerationsSpent)) }
    ensures spent { IfErr result (λ e. e ≡ Refusal.GenerationsSpent
        → (length boot ≤ boot_limit) × HasNoRoom keeper.old (length (input_spelling (boot_at moment boot)))) }
    ensures device { CountsDevice result (D.failures (disk_in keeper.old)) (D.failures (disk_in keeper.new)) }
    ensures early { IfErr result (λ e. e ≢ Refusal.Device → (state_in keeper.new ≡ state_in keeper.old) × (C.past children.new ≡ C.past children.old)) }
    ensures frame { Frame D.Disk C.Children result keeper.old keeper.new children.old children.new }
{
    keeper.is_stored();
    let room = room_for(alloc, keeper.state(), &boot)?;
    let Room {
        sessions,
        live,
        mut marks,
        inputs,
        mut replies,
    } = room;
    offer_boot(keeper, boot, moment)?;
    let live = live.as_slice();
    adopt(
        keeper,
        children,
        &mut marks,
        live,
        moment,
        inputs,
        &mut replies,
    )?;
    Ok(Held {
        marks,
        sessions,
        adopted: live.len(),
    })
}
