//! A reader of stores: the state that the image of a disk stands for, with nothing written.

ghost use Rattle.std.specs.Prelude.{◌≡◌, ◌⊎◌, IfOk, IfErr, IsTrue};
ghost use Rattle.um_engine.specs.Engine.{state_in};
ghost use Rattle.um_keeper.specs.Inspecting.{IsSummed, IsSomeSummed};
ghost use Rattle.um_keeper.specs.Opening.{IsUnread};
ghost use Rattle.um_model.specs.Disk.{seen};
ghost use Rattle.um_sector.specs.Refused.{CountsDevice, IsLost};
ghost use Rattle.um_state.specs.View.{state_of};

use crate::keeper::Uncounted;
use crate::opening::{Found, take_up};
use std::alloc::Global;
use um_model::{Moment, NextNumber};
use um_sector::Disk;
use um_state::State;
use um_wire::Refusal;

/// A summary of the store on an image.
#[derive(Clone, Copy, Debug, PartialEq, Eq)]
pub struct Summary {
    /// The generation of its newest header.
    pub generation: u64,
    /// The number of records of that generation and the next one that count.
    pub records: usize,
    /// The moment of the last step.
    pub clock: Moment,
    /// The number of the next process.
    pub next: NextNumber,
    /// Where whole records of these generations don't count: the sector with which the reading ends of the first that has some, which is damaged,
    /// or a crash cut it off.
    pub cut_off: Option<Uncounted>,
    /// Where the first sector of the other slot is neither a header nor all zeros: that sector, and the whole records of later generations.
    pub damaged: Option<Uncounted>,
}

/// The summary of the store that was taken up.
fn summary_of(found: Found) -> Summary
    ensures generation { result.generation ≡ found.opened.generation }
    ensures records { result.records ≡ found.opened.records }
    ensures cut_off { result.cut_off ≡ found.opened.cut_off }
    ensures damaged { result.damaged ≡ found.opened.damaged }
    ensures clock { result.clock ≡ (state_in found.engine).clock }
    ensures next { result.next ≡ (state_in found.engine).next }
{
    let state = found.engine.state();
    let summary = Summary {
        generation: found.opened.generation,
        records: found.opened.records,
        clock: state.clock(),
        next: state.next(),
        cut_off: found.opened.cut_off,
        damaged: found.opened.damaged,
    };
    drop(found.engine);
    summary
}

/// The summary of the store on a disk. It reads as `Keeper::open` does, and writes and syncs nothing.
///
/// It refuses what `Keeper::open` refuses, with the same sector, except for E20, which only an opening gives: E19, E22,
/// E18; E15; E16 where a read fails. Nothing else is refused, so a summary is given of each store that stands for a
/// state and for which the disk has room.
pub fn inspect<D: Disk>(alloc: Global, disk: &mut D) -> Result<Summary, Refusal>
    ensures stands { IfOk result (λ m. IsTrue (D.honest disk.old) → IsSomeSummed (D.size disk.old) (seen (D.past disk.old)) m) }
    ensures err { IfErr result (λ e. IsLost e ⊎ (IsTrue (D.honest disk.old) → IsUnread (D.size disk.old) (seen (D.past disk.old)) e)) }
    ensures past { IsTrue (D.honest disk.old) → D.past disk.new ≡ D.past disk.old }
    ensures failures { CountsDevice result (D.failures disk.old) (D.failures disk.new) }
    ensures size { D.size disk.new ≡ D.size disk.old }
    ensures honest { D.honest disk.new ≡ D.honest disk.old }
{
    let taken = take_up(alloc, disk)?;
    Ok(summary_of(taken))
}

/// The summary of the store on a disk, with its state. It reads as `inspect` does and is refused as that is.
pub fn look<D: Disk>(alloc: Global, disk: &mut D) -> Result<(Summary, State), Refusal>
    ensures stands { IfOk result (λ found. IsTrue (D.honest disk.old)
        → IsSummed (D.size disk.old) (seen (D.past disk.old)) found.0 (state_of found.1)) }
    ensures err { IfErr result (λ e. IsLost e ⊎ (IsTrue (D.honest disk.old) → IsUnread (D.size disk.old) (seen (D.past disk.old)) e)) }
    ensures past { IsTrue (D.honest disk.old) → D.past disk.new ≡ D.past disk.old }
    ensures failures { CountsDevice result (D.failures disk.old) (D.failures disk.new) }
    ensures size { D.size disk.new ≡ D.size disk.old }
    ensures honest { D.honest disk.new ≡ D.honest disk.old }
{
    let found = take_up(alloc, disk)?;
    let state = found.engine.state().copy();
    let summary = summary_of(found);
    Ok((summary, state?))
}
