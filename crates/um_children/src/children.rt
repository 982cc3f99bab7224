//! The trait of the processes of a manager.
ghost use Rattle.std.specs.Prelude.{◌≡◌, ℕ, List, Bool, IsTrue, false, IfOk, OnOk};
ghost use Rattle.um_model.specs.Children.{Call};
ghost use Rattle.um_children.specs.History.{is_absent, IsFinal, Spawns, Signals, Asks, Forgets, ForgetsOthers};
ghost use Rattle.um_children.specs.Faults.{CountsFault, KeepsWhole};
ghost use Rattle.um_service.specs.Started.{is_too_long};

use crate::fault::ChildFault;
use um_keeper::SpawnOrder;
use um_model::{Fate, NextNumber, ProcessNumber, Signal};

/// The processes of a manager, each under its number. Their behaviour is described by one history of calls.
///
/// The clauses on the history stand under `honest`, and under `whole`, since children that keep their history may find
/// no memory for a call. The others always stand. A call that isn't done answers `NoMemory` where a growth was refused,
/// `TooLong` where no process can be started with words and an environment of that length, and `Device` where the
/// children failed. At `Device`, and only then, the count of failures rises by one, up to the last value of a `u64`.
pub trait Children {
    /// The calls, the oldest first.
    ghost past: { Self → List Call };

    /// No call is missing from the history.
    ghost whole: { Self → Bool };

    /// How many calls failed.
    ghost failures: { Self → ℕ };

    /// They do what they answer.
    ghost honest: { Self → Bool };

    /// Starts the process of an order. At Err it may have started all the same; no order is given twice, so only its
    /// fate under a claim shows whether it did. An order that is too long is refused, and its words aren't put
    /// together.
    fn spawn(&mut self, order: SpawnOrder) -> Result<(), ChildFault>
        ensures past { IsTrue (honest self.old) → IsTrue (whole self.new) → Spawns order result (past self.old) (past self.new) }
        ensures bound { OnOk result (is_too_long order.words order.environment ≡ false) }
        ensures whole { KeepsWhole result (whole self.old) (whole self.new) }
        ensures failures { CountsFault result (failures self.old) (failures self.new) }
        ensures honest { honest self.new ≡ honest self.old };

    /// Signals the process of a number. One that isn't there gets none, and that is no failure.
    fn signal(&mut self, number: ProcessNumber, signal: Signal) -> Result<(), ChildFault>
        ensures past { IsTrue (honest self.old) → IsTrue (whole self.new) → Signals number signal (past self.old) (past self.new) }
        ensures whole { KeepsWhole result (whole self.old) (whole self.new) }
        ensures failures { CountsFault result (failures self.old) (failures self.new) }
        ensures honest { honest self.new ≡ honest self.old };

    /// The fate of the process of a number. With a claim one that hasn't started never will, and is reported absent.
    fn fate(&mut self, number: ProcessNumber, claim: bool) -> Result<Fate, ChildFault>
        ensures past { IsTrue (honest self.old) → IsTrue (whole self.new) → Asks number claim result (past self.old) (past self.new) }
        ensures claim { claim ≡ false → IfOk result (λ fate. is_absent fate ≡ false) }
        ensures whole { KeepsWhole result (whole self.old) (whole self.new) }
        ensures failures { CountsFault result (failures self.old) (failures self.new) }
        ensures honest { honest self.new ≡ honest self.old };

    /// Forgets a number whose end is recorded, and which is not queried any more. One that hasn't ended isn't forgotten,
    /// and a claim stays: a number that was reported absent never starts, now as before.
    fn forget(&mut self, number: ProcessNumber) -> Result<(), ChildFault>
        ensures past { IsTrue (honest self.old) → IsTrue (whole self.new) → Forgets number (past self.old) (past self.new) }
        ensures whole { KeepsWhole result (whole self.old) (whole self.new) }
        ensures failures { CountsFault result (failures self.old) (failures self.new) }
        ensures honest { honest self.new ≡ honest self.old };

    /// Forgets each number that has ended and isn't among these, as a manager does that opens: those are not queried any
    /// more. As with `forget` a claim stays. No number from `next` on was ever started: if something is kept of one, it
    /// is another manager's, and nothing is forgotten.
    fn forget_others(&mut self, live: &[ProcessNumber], next: NextNumber) -> Result<(), ChildFault>
        ensures past { IsTrue (honest self.old) → IsTrue (whole self.new) → ForgetsOthers live.now next (past self.old) (past self.new) }
        ensures whole { KeepsWhole result (whole self.old) (whole self.new) }
        ensures failures { CountsFault result (failures self.old) (failures self.new) }
        ensures honest { honest self.new ≡ honest self.old };

    /// A number that was reported absent never starts.
    ghost absence_is_final: { (children : Self) → IsTrue (honest children) → IsFinal (past children) };
}
