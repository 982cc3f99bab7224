//! One turn.

ghost use Rattle.std.specs.Prelude.{◌≡◌, ◌≢◌, ◌⊎◌, ◌↔◌, ◌≤◌, ◌+◌, ◌*◌, [], true, false, Err, IfOk, IfErr, OnOk, IsTrue, length, drop, vec_capacity};
ghost use Rattle.um_children.specs.Frames.{KeepsChildren};
ghost use Rattle.um_manager.specs.Frames.{Frame, KeepsStore};
ghost use Rattle.um_keeper.specs.Keepers.{disk_in, has_failed};
ghost use Rattle.um_fates.specs.Fates.{tick_at};
ghost use Rattle.um_manager.specs.Orders.{LetGo};
ghost use Rattle.um_manager.specs.Places.{place_in};
ghost use Rattle.um_manager.specs.Turns.{Turns, WritesOn, now_in};
ghost use Rattle.um_sector.specs.Refused.{CountsDevice, IsLost};
ghost use Rattle.um_state.specs.View.{input_of};

use crate::connection::CONNECTIONS;
use crate::paying::pay_all;
use crate::pieces::Piece;
use crate::submitting::submit;
use crate::taking::{Due, room_all, take_all};
use std::alloc::{AllocError, Global};
use um_children::Children;
use um_fates::{Marks, hear, is_live, live_numbers, put};
use um_keeper::Keeper;
use um_model::{End, Moment, ProcessNumber};
use um_sector::Disk;
use um_session::Session;
use um_state::{Event, Happening, Input, Reply, Units};
use um_wire::Refusal;

/// The end of a process whose start was refused, and that is absent.
const UNEXECUTED: End = End::Code(203);

fn tick(moment: Moment) -> Input
    ensures { input_of result ≡ tick_at moment }
{
    Input::new(moment, Event::Happened(Happening::Tick))
}

/// The vectors that a turn fills. Room for all of them is taken before anything is heard.
struct Room {
    inputs: Vec<Input>,
    replies: Vec<Reply>,
    owed: Vec<Due>,
    ended: Vec<ProcessNumber>,
}

impl Room {
    /// Room for the fates of these live numbers, the tick, and a request of each connection.
    fn of(alloc: Global, live: &[ProcessNumber]) -> Result<Room, AllocError>
        ensures inputs { IfOk result (λ room. (room.inputs.items ≡ []) × (2 * length live.now + 65 ≤ vec_capacity room.inputs)) }
        ensures replies { IfOk result (λ room. (room.replies.items ≡ []) × (2 * length live.now + 65 ≤ vec_capacity room.replies)) }
        ensures owed { IfOk result (λ room. (room.owed.items ≡ []) × (64 ≤ vec_capacity room.owed)) }
    {
        let count = 2 * live.len() + 1 + CONNECTIONS;
        Ok(Room {
            inputs: Vec::with_capacity(alloc, count)?,
            replies: Vec::with_capacity(alloc, count)?,
            owed: Vec::with_capacity(alloc, CONNECTIONS)?,
            ended: Vec::with_capacity(alloc, live.len())?,
        })
    }
}

/// The replies after the first `count`.
fn behind(replies: &[Reply], count: usize) -> &[Reply]
    requires { count ≤ length replies.now }
    ensures { result.now ≡ drop count replies.now }
{
    &replies[count..]
}

/// Notes the numbers whose end these inputs report, where there is room.
fn note_ended(inputs: &[Input], ended: &mut Vec<ProcessNumber>) {
    for input in inputs {
        if let Event::Happened(Happening::ProcessEnded { number, end: _ }) = input.event() {
            if let Some(number) = ProcessNumber::new(*number) {
                let _noted = ended.push(number);
            }
        }
    }
}

/// Forgets the number, if it isn't live.
#[tactic(auto, using(crate::proofs::Letting::let_go_it, crate::proofs::Letting::let_go_none))]
fn forget_one<C: Children>(children: &mut C, units: &Units, number: ProcessNumber)
    ensures let_go { IsTrue (C.honest children.old) → IsTrue (C.whole children.new) → LetGo units.now.held (C.past children.old) (C.past children.new) }
    ensures children { KeepsChildren C.Children children.old children.new }
{
    if !is_live(units, number) {
        let _forgotten = children.forget(number);
    }
}

/// Forgets each of these numbers that isn't live any more. One that isn't forgotten because of a fault is forgotten by
/// a later opening.
pub fn forget_ended<C: Children>(children: &mut C, units: &Units, numbers: &[ProcessNumber])
    ensures let_go { IsTrue (C.honest children.old) → IsTrue (C.whole children.new) → LetGo units.now.held (C.past children.old) (C.past children.new) }
    ensures children { KeepsChildren C.Children children.old children.new }
{
    for number in numbers {
        forget_one(children, units, *number);
    }
}

/// The same if the store took the inputs that were offered. If it failed no end is recorded, and nothing is forgotten.
fn forget_recorded<C: Children>(
    children: &mut C,
    units: &Units,
    numbers: &[ProcessNumber],
    submitted: &Result<(), Refusal>,
)
    ensures let_go { IsTrue (C.honest children.old) → IsTrue (C.whole children.new) → LetGo units.now.held (C.past children.old) (C.past children.new) }
    ensures kept { IfErr submitted.now (λ e. C.past children.new ≡ C.past children.old) }
    ensures children { KeepsChildren C.Children children.old children.new }
{
    match submitted {
        Ok(()) => forget_ended(children, units, numbers),
        Err(_) => {}
    }
}

/// The number of sectors of a snapshot under way that go out after each answer of the store, besides the calls that
/// finish it.
const STEP: u32 = 16;

/// After an Ok of the store the next sectors of a snapshot under way go out; E16 where a call on the disk fails then. A
/// refusal of the store stays.
fn write_on<D: Disk>(keeper: &mut Keeper<D>, submitted: Result<(), Refusal>) -> Result<(), Refusal>
    requires working { OnOk submitted (has_failed keeper.old ≡ false) }
    ensures writes { WritesOn (place_in (D.honest (disk_in keeper.old)) keeper.old) submitted result
        (now_in keeper.old [] [] [] (D.past (disk_in keeper.old))) (now_in keeper.new [] [] [] (D.past (disk_in keeper.new))) }
    ensures stays { IfErr submitted (λ e. result ≡ Err e) }
    ensures still { IfErr submitted (λ e. keeper.new ≡ keeper.old) }
    ensures refused { OnOk submitted (IfErr result (λ e. e ≡ Refusal.Device)) }
    ensures device { OnOk submitted (CountsDevice result (D.failures (disk_in keeper.old)) (D.failures (disk_in keeper.new))) }
    ensures store { OnOk submitted (KeepsStore D.Disk result keeper.old keeper.new) }
{
    match submitted {
        Ok(()) => match keeper.step(STEP) {
            Ok(_) => Ok(()),
            Err(refusal) => Err(refusal),
        },
        Err(refusal) => Err(refusal),
    }
}

/// A turn: it hears the fates, takes the pieces, offers the inputs, carries out the actions, puts out the replies, and
/// goes on with a snapshot. Refused as `Manager::turn` is.
#[tactic(auto, using(crate::proofs::Turning::all_same))]
pub fn turn<D: Disk, C: Children>(
    alloc: Global,
    keeper: &mut Keeper<D>,
    children: &mut C,
    marks: &mut Marks,
    sessions: &mut [Session],
    moment: Moment,
    pieces: &[Piece],
) -> Result<(), Refusal>
    requires as_many { length sessions.old ≡ length pieces.now }
    requires few { length sessions.old ≤ 64 }
    ensures turns { Turns (place_in (D.honest (disk_in keeper.old)) keeper.old) result (C.honest children.old) (C.whole children.new) moment pieces.now
        (now_in keeper.old (C.past children.old) marks.old sessions.old (D.past (disk_in keeper.old)))
        (now_in keeper.new (C.past children.new) marks.new sessions.new (D.past (disk_in keeper.new))) }
    ensures refused { IfErr result (λ e. IsLost e ⊎ (e ≡ Refusal.Reopen)) }
    ensures device { CountsDevice result (D.failures (disk_in keeper.old)) (D.failures (disk_in keeper.new)) }
    ensures reopen { result ≢ Err Refusal.NoMemory → (result ≡ Err Refusal.Reopen) ↔ (has_failed keeper.old ≡ true) }
    ensures frame { Frame D.Disk C.Children result keeper.old keeper.new children.old children.new }
{
    let Ok(live) = live_numbers(keeper.state().units()) else {
        return Err(Refusal::NoMemory);
    };
    let Ok(room) = Room::of(alloc, live.as_slice()) else {
        return Err(Refusal::NoMemory);
    };
    let Room {
        mut inputs,
        mut replies,
        mut owed,
        mut ended,
    } = room;
    if room_all(sessions, pieces).is_err() {
        return Err(Refusal::NoMemory);
    }
    hear(
        children,
        live.as_slice(),
        marks,
        UNEXECUTED,
        moment,
        &mut inputs,
    );
    note_ended(&inputs, &mut ended);
    put(&mut inputs, tick(moment));
    let firsts = inputs.len();
    take_all(alloc, sessions, pieces, moment, &mut inputs, &mut owed);
    let submitted = submit(keeper, children, marks, inputs, &mut replies);
    let replies = behind(replies.as_slice(), firsts);
    pay_all(alloc, keeper, sessions, owed.as_slice(), replies);
    // nothing else is over, so that a turn in which nothing ended looks for none
    forget_recorded(
        children,
        keeper.state().units(),
        ended.as_slice(),
        &submitted,
    );
    write_on(keeper, submitted)
}
