//! The instance of lives with ample memory.
use crate::managers::{PUT, frames, pieces};
use std::process::Abort;
use um_asserts::same;
use um_instance::two_lives;
use um_model::{Layout, Moment};
use um_state::{BootId, State};

fn named(rt: &(impl AllocGlobal + Abort), name: &str) -> BootId {
    let name = String::from_str(rt.alloc(), name).expect(rt, "no memory");
    BootId::new(name).expect(rt, "no boot")
}

/// By hand: the file is put in the first life, and again, as it stands, in the second, which is in another boot. Nothing is loaded, and nothing was started.
fn is_by_hand(rt: &impl Abort, state: &State) {
    same!(rt, state.tree().len(), 1);
    same!(rt, state.loaded().tree.len(), 0);
    same!(rt, state.boot().as_str(), "two");
    same!(rt, state.clock().micros(), Moment::FIRST.micros());
    same!(rt, state.next().get(), 1);
}

#[test]
fn the_instance_is_answered_ok_and_hands_out_the_state_that_was_played_by_hand(rt: HostRuntime) {
    let sent = frames(&rt, &[PUT]);
    let pieces = pieces(&rt, &[(0, sent.as_slice())]);
    let layout = Layout::new(64, 512).expect(&rt, "no layout");
    let boots = (named(&rt, "one"), named(&rt, "two"));
    match two_lives(rt.alloc(), layout, boots, Moment::FIRST, &pieces, &[]) {
        Ok(manager) => is_by_hand(&rt, manager.state()),
        Err(_) => rt.abort(),
    }
}
