//! Actions carried out, each once, in their order.

ghost use Rattle.std.specs.Prelude.{map, ◌≡◌, ◌+◌, ◌≤◌, length, vec_len, vec_capacity, ◌++◌, ◌∷◌, []};
ghost use Rattle.um_children.specs.Frames.{KeepsChildren};
ghost use Rattle.um_keeper.specs.Answering.{asked_by, all_asked};
ghost use Rattle.um_keeper.specs.Receipts.{handed_of};
ghost use Rattle.um_state.specs.View.{reply_of};
ghost use Rattle.um_manager.specs.Orders.{Carries};
ghost use Rattle.um_manager.specs.Replies.{reply_in};

use um_children::Children;
use um_fates::Marks;
use um_keeper::{Handed, Receipt};
use um_state::{Reply, Units};
use um_wire::Refusal;

/// Gives one order to the children. The number of a start that is refused is marked; a signal that fails isn't
/// repeated.
fn ask<C: Children>(children: &mut C, marks: &mut Marks, units: &Units, handed: Handed)
    ensures carries { Carries (C.honest children.old) (C.whole children.new) units.now.held (C.past children.old) (C.past children.new) marks.old marks.new
        (handed_of handed ∷ []) }
    ensures children { KeepsChildren C.Children children.old children.new }
{
    match handed {
        Handed::Spawn(order) => {
            let number = order.number();
            match children.spawn(order) {
                Ok(()) => {}
                Err(_) => marks.mark(number, units),
            }
        }
        Handed::Signal { number, signal } => {
            let _sent = children.signal(number, signal);
        }
    }
}

/// Carries out the actions of a receipt, and gives its reply.
pub fn carry_out<C: Children>(
    children: &mut C,
    marks: &mut Marks,
    units: &Units,
    receipt: Receipt,
) -> Reply
    ensures carries { Carries (C.honest children.old) (C.whole children.new) units.now.held (C.past children.old)
        (C.past children.new) marks.old marks.new receipt.1 }
    ensures children { KeepsChildren C.Children children.old children.new }
    ensures reply { reply_of result ≡ receipt.0 }
{
    let mut receipt = receipt;
    while let Some(handed) = receipt.next_action() {
        ask(children, marks, units, handed);
    }
    receipt.finish()
}

/// Notes a reply for which there is room.
pub fn put_reply(replies: &mut Vec<Reply>, reply: Reply)
    requires { vec_len replies.old + 1 ≤ vec_capacity replies.old }
    ensures items { map reply_of replies.new.items ≡ map reply_of replies.old.items ++ reply_of reply ∷ [] }
    ensures len { vec_len replies.new ≡ vec_len replies.old + 1 }
    ensures capacity { vec_capacity replies.old ≤ vec_capacity replies.new }
{
    replies.push_reserved(reply);
}

/// Carries out the actions of the answer to an input, and returns the reply.
fn carry_one<C: Children>(
    children: &mut C,
    marks: &mut Marks,
    units: &Units,
    answer: Result<Receipt, Refusal>,
) -> Reply
    ensures carries { Carries (C.honest children.old) (C.whole children.new) units.now.held (C.past children.old) (C.past children.new) marks.old marks.new
        (asked_by answer) }
    ensures children { KeepsChildren C.Children children.old children.new }
    ensures reply { reply_of result ≡ reply_in answer }
{
    match answer {
        Ok(receipt) => carry_out(children, marks, units, receipt),
        Err(refusal) => Reply::Refused(refusal),
    }
}

/// Carries out the actions of the answers, in their order, and notes the replies.
pub fn carry_all<C: Children>(
    children: &mut C,
    marks: &mut Marks,
    units: &Units,
    answers: Vec<Result<Receipt, Refusal>>,
    replies: &mut Vec<Reply>,
)
    requires room { vec_len replies.old + length answers.items ≤ vec_capacity replies.old }
    ensures carries { Carries (C.honest children.old) (C.whole children.new) units.now.held (C.past children.old) (C.past children.new) marks.old marks.new
        (all_asked answers.items) }
    ensures children { KeepsChildren C.Children children.old children.new }
    ensures replies { map reply_of replies.new.items ≡ map reply_of replies.old.items ++ map reply_in answers.items }
{
    let mut rest = answers.into_iter();
    while let Some(answer) = rest.next() {
        let reply = carry_one(children, marks, units, answer);
        put_reply(replies, reply);
    }
    rest.destroy_empty();
}
