//! A script: one turn a step.

ghost use Rattle.std.specs.Prelude.{◌≡◌, ◌≢◌, ◌⊎◌, ◌↔◌, [], true, Err, IfErr, length};
ghost use Rattle.um_manager.specs.Frames.{Frame};
ghost use Rattle.um_keeper.specs.Keepers.{disk_in, has_failed};
ghost use Rattle.um_manager.specs.Places.{place_in};
ghost use Rattle.um_manager.specs.Scripts.{Runs};
ghost use Rattle.um_manager.specs.Turns.{now_in};
ghost use Rattle.um_sector.specs.Refused.{CountsDevice, IsLost};

use crate::pieces::Pieces;
use crate::round::turn;
use std::alloc::Global;
use um_children::Children;
use um_fates::Marks;
use um_keeper::Keeper;
use um_model::Moment;
use um_sector::Disk;
use um_session::Session;
use um_wire::Refusal;

/// The moment and the pieces of one turn.
#[derive(Drop)]
pub struct Step {
    pub moment: Moment,
    pub pieces: Pieces,
}

/// One turn a step, until one is refused.
pub fn run<D: Disk, C: Children>(
    alloc: Global,
    keeper: &mut Keeper<D>,
    children: &mut C,
    marks: &mut Marks,
    sessions: &mut [Session],
    steps: &[Step],
) -> Result<(), Refusal>
    requires { length sessions.old ≡ 64 }
    ensures runs { Runs (place_in (D.honest (disk_in keeper.old)) keeper.old) (C.honest children.old) (C.whole children.new) steps.now result
        (now_in keeper.old (C.past children.old) marks.old sessions.old (D.past (disk_in keeper.old)))
        (now_in keeper.new (C.past children.new) marks.new sessions.new (D.past (disk_in keeper.new))) }
    ensures refused { IfErr result (λ e. IsLost e ⊎ (e ≡ Refusal.Reopen)) }
    ensures device { CountsDevice result (D.failures (disk_in keeper.old)) (D.failures (disk_in keeper.new)) }
    ensures reopen { result ≢ Err Refusal.NoMemory → (result ≡ Err Refusal.Reopen) ↔ ((has_failed keeper.old ≡ true) × (steps.now ≢ [])) }
    ensures frame { Frame D.Disk C.Children result keeper.old keeper.new children.old children.new }
{
    for step in steps {
        let pieces = step.pieces.as_slice();
        turn(
            alloc,
            keeper,
            children,
            marks,
            sessions,
            step.moment,
            pieces,
        )?;
    }
    Ok(())
}
