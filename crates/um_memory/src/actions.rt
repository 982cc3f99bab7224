//! Actions taken out of receipts and replies.

ghost use Rattle.std.specs.Prelude.{◌≡◌, ◌++◌, ◌∷◌, [], map, Ok, IfOk, OnOk};
ghost use Rattle.um_memory.specs.Managers.{actions_told};
ghost use Rattle.um_keeper.specs.Receipts.{handed_of};
ghost use Rattle.um_state.specs.View.{action_of, reply_of};

use std::alloc::{AllocError, Global};
use um_keeper::{Handed, Receipt};
use um_state::{Action, Reply};

/// The actions that a reply names.
pub fn told_in(alloc: Global, reply: Reply) -> Vec<Action>
    ensures { map action_of result.items ≡ actions_told (reply_of reply) }
{
    match reply {
        Reply::Told(actions) => actions,
        _other => Vec::new(alloc),
    }
}

/// A handed action, as an action again.
fn action_in(handed: Handed) -> Action
    ensures { action_of result ≡ handed_of handed }
{
    match handed {
        Handed::Spawn(order) => {
            let number = order.number();
            let start = order.into_start();
            Action::Spawn { number, start }
        }
        Handed::Signal { number, signal } => Action::Signal { number, signal },
    }
}

/// Keeps one more action, where those before it were kept.
fn keep_one(
    kept: &mut Vec<Action>,
    before: Result<(), AllocError>,
    handed: Handed,
) -> Result<(), AllocError>
    ensures before { OnOk result (before ≡ Ok tt) }
    ensures kept { OnOk result (map action_of kept.new.items ≡ map action_of kept.old.items ++ handed_of handed ∷ []) }
{
    before?;
    kept.push(action_in(handed))?;
    Ok(())
}

/// Takes each action out of a receipt, keeps them in their order, and gives the reply.
pub fn keep_actions(kept: &mut Vec<Action>, receipt: Receipt) -> Result<Reply, AllocError>
    ensures kept { OnOk result (map action_of kept.new.items ≡ map action_of kept.old.items ++ receipt.1) }
    ensures reply { IfOk result (λ reply. reply_of reply ≡ receipt.0) }
{
    let mut receipt = receipt;
    let mut done = Ok(());
    while let Some(handed) = receipt.next_action() {
        done = keep_one(kept, done, handed);
    }
    let reply = receipt.finish();
    done?;
    Ok(reply)
}
