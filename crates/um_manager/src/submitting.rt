//! Inputs offered to the store.

ghost use Rattle.std.specs.Prelude.{◌≡◌, ◌⊎◌, ◌↔◌, ◌+◌, ◌≤◌, ◌++◌, [], true, if◌then◌else◌, Ok, Err, IfErr, map, replicate, vec_len, vec_capacity};
ghost use Rattle.um_manager.specs.Frames.{Frame};
ghost use Rattle.um_keeper.specs.Keepers.{disk_in, has_failed};
ghost use Rattle.um_model.specs.Machine as model;
ghost use Rattle.um_sector.specs.Refused.{CountsDevice};
ghost use Rattle.um_state.specs.View.{reply_of};
ghost use Rattle.um_wire.specs.Refusal.{refused_of};
ghost use Rattle.um_fates.specs.Fates.{inputs_in};
ghost use Rattle.um_manager.specs.Places.{place_in};
ghost use Rattle.um_manager.specs.Stores.{refusal_of, StoreAnswers, Submits};
ghost use Rattle.um_manager.specs.Turns.{now_in};

use crate::orders::{carry_all, put_reply};
use um_children::Children;
use um_fates::Marks;
use um_keeper::Keeper;
use um_sector::Disk;
use um_state::{Input, Reply};
use um_wire::Refusal;

/// Why the store refuses a list of inputs as a whole.
#[derive(Clone, Copy)]
pub enum StoreFault {
    NoMemory,
    Reopen,
}

/// The cause of such a refusal.
fn fault_of(refusal: Refusal) -> StoreFault
    requires { (refusal ≡ Refusal.NoMemory) ⊎ (refusal ≡ Refusal.Reopen) }
    ensures { refusal ≡ refusal_of result }
{
    match refusal {
        Refusal::NoMemory => StoreFault::NoMemory,
        _ => StoreFault::Reopen,
    }
}

impl StoreFault {
    fn refusal(self) -> Refusal
        ensures { result ≡ refusal_of self }
    {
        match self {
            StoreFault::NoMemory => Refusal::NoMemory,
            StoreFault::Reopen => Refusal::Reopen,
        }
    }

    /// The answer of the manager: if the list as a whole found no memory each of its inputs did, and the store goes on.
    fn answer(self) -> Result<(), Refusal>
        ensures { StoreAnswers self result }
    {
        match self {
            StoreFault::NoMemory => Ok(()),
            StoreFault::Reopen => Err(Refusal::Reopen),
        }
    }
}

/// Makes `count` replies of this refusal.
fn deny(replies: &mut Vec<Reply>, count: usize, fault: StoreFault)
    requires { vec_len replies.old + count ≤ vec_capacity replies.old }
    ensures items { map reply_of replies.new.items ≡ map reply_of replies.old.items ++ replicate count (model.Refusal (refused_of (refusal_of fault))) }
    ensures len { vec_len replies.new ≡ vec_len replies.old + count }
{
    for _ in 0..count {
        put_reply(replies, Reply::Refused(fault.refusal()));
    }
}

/// E16 where a call on the disk failed.
fn faults<D: Disk>(keeper: &Keeper<D>) -> Result<(), Refusal>
    ensures { result ≡ (if has_failed keeper.now then Err Refusal.Device else Ok tt) }
{
    if keeper.has_failed() {
        return Err(Refusal::Device);
    }
    Ok(())
}

/// Offers the inputs, carries out the actions of the receipts, and notes the replies. Where the store refuses all of them each is
/// answered so; E16 where some of them are, and E17 where an earlier call answered E16.
pub fn submit<D: Disk, C: Children>(
    keeper: &mut Keeper<D>,
    children: &mut C,
    marks: &mut Marks,
    inputs: Vec<Input>,
    replies: &mut Vec<Reply>,
) -> Result<(), Refusal>
    requires empty { replies.old.items ≡ [] }
    requires room { vec_len replies.old + vec_len inputs ≤ vec_capacity replies.old }
    ensures len { vec_len replies.new ≡ vec_len inputs }
    ensures refused { IfErr result (λ e. (e ≡ Refusal.Device) ⊎ (e ≡ Refusal.Reopen)) }
    ensures device { CountsDevice result (D.failures (disk_in keeper.old)) (D.failures (disk_in keeper.new)) }
    ensures reopen { (result ≡ Err Refusal.Reopen) ↔ (has_failed keeper.old ≡ true) }
    ensures submits { Submits (place_in (D.honest (disk_in keeper.old)) keeper.old) result (inputs_in inputs.items) (map reply_of replies.new.items)
        (C.honest children.old) (C.whole children.new)
        (now_in keeper.old (C.past children.old) marks.old [] (D.past (disk_in keeper.old)))
        (now_in keeper.new (C.past children.new) marks.new [] (D.past (disk_in keeper.new))) }
    ensures frame { Frame D.Disk C.Children result keeper.old keeper.new children.old children.new }
{
    let count = inputs.len();
    match keeper.submit_all(inputs) {
        Ok(answers) => {
            carry_all(children, marks, keeper.state().units(), answers, replies);
            faults(keeper)
        }
        Err(refusal) => {
            let fault = fault_of(refusal);
            deny(replies, count, fault);
            fault.answer()
        }
    }
}
