//! Children in memory, for tests.
ghost use Rattle.std.specs.Prelude.{IfErr, ◌≡◌, ◌⊎◌, ◌||◌, ◌∷◌, ◌++◌, [], List, IsTrue, true, false, not, if◌then◌else◌, is_ok, IfOk, OnOk, OnErr};
ghost use Rattle.um_model.specs.Children.{Spawned};
ghost use Rattle.um_model.specs.Disk.{one_more};
ghost use Rattle.um_children.specs.History.{is_absent, has_started, was_absent, IsFinal, Spawns, Signals, Asks, Forgets, ForgetsOthers};
ghost use Rattle.um_children.specs.Calls.{call_of, calls_of, Fits};
ghost use Rattle.um_children.specs.Fakes.{fate_of, end_of, fuse_after, is_due};
ghost use Rattle.um_children.specs.Faults.{CountsFault, KeepsWhole};
ghost use Rattle.um_service.specs.Started.{is_too_long};

use crate::call::Call;
use crate::children::Children;
use crate::fault::ChildFault;
use std::alloc::{AllocError, Global};
use um_keeper::SpawnOrder;
use um_model::{End, Fate, NextNumber, ProcessNumber, Signal};

/// Children in memory, for tests. They are honest, and keep each call.
///
/// A number that was started is executed until `ends` sets its end; another one is starting, or absent under a claim. A
/// call that finds no memory for its note fails.
pub struct FakeChildren {
    calls: Vec<Call>,
    ends: Vec<(ProcessNumber, End)>,
    /// The call that fails, counted from now on: 1 is the next, 0 none.
    fuse: u64,
    /// A call is missing from the notes.
    lost: bool,
    failures: u64,
    ghost kept: { IsFinal (calls_of calls.items) },
}

// One call, where a derived one is taken apart at each exit.
impl Drop for FakeChildren {
    fn drop(self) {
        let FakeChildren {
            calls: _calls,
            ends: _ends,
            fuse: _,
            lost: _,
            failures: _,
        } = self;
    }
}

fn has_started(calls: &[Call], number: ProcessNumber) -> bool
    ensures { result ≡ has_started (calls_of calls.now) number }
{
    for call in calls {
        if call.is_start(number) {
            return true;
        }
    }
    false
}

fn was_absent(calls: &[Call], number: ProcessNumber) -> bool
    ensures { result ≡ was_absent (calls_of calls.now) number }
{
    for call in calls {
        if call.is_absence(number) {
            return true;
        }
    }
    false
}

/// The end that was set first for the number.
fn end_of(ends: &[(ProcessNumber, End)], number: ProcessNumber) -> Option<End>
    ensures { result ≡ end_of ends.now number }
{
    for (process, end) in ends {
        if process.get() == number.get() {
            return Some(*end);
        }
    }
    None
}

fn fate_of(
    calls: &[Call],
    ends: &[(ProcessNumber, End)],
    number: ProcessNumber,
    claim: bool,
) -> Fate
    ensures { result ≡ fate_of (calls_of calls.now) ends.now number claim }
{
    if has_started(calls, number) {
        return match end_of(ends, number) {
            Some(end) => Fate::Ended(end),
            None => Fate::Executed,
        };
    }
    if claim { Fate::Absent } else { Fate::Starting }
}

/// Notes a call, where there is memory.
fn note(calls: &mut Vec<Call>, call: Call) -> bool
    requires kept { IsFinal (calls_of calls.old.items) }
    requires fits { Fits (call_of call) (calls_of calls.old.items) }
    ensures items { calls_of calls.new.items ≡ (if result then calls_of calls.old.items ++ call_of call ∷ [] else calls_of calls.old.items) }
    ensures kept { IsFinal (calls_of calls.new.items) }
{
    calls.push(call).is_ok()
}

fn copied(alloc: Global, calls: &[Call]) -> Result<Vec<Call>, AllocError>
    ensures { IfOk result (λ copies. calls_of copies.items ≡ calls_of calls.now) }
{
    let mut copies = Vec::new(alloc);
    for call in calls {
        copies.push(call.copy(alloc)?)?;
    }
    Ok(copies)
}

fn ends_copied(
    alloc: Global,
    ends: &[(ProcessNumber, End)],
) -> Result<Vec<(ProcessNumber, End)>, AllocError>
    ensures { IfOk result (λ copies. copies.items ≡ ends.now) }
{
    Vec::from_slice(alloc, ends)
}

impl FakeChildren {
    /// Children with no calls yet. It takes no memory.
    pub fn new(alloc: Global) -> FakeChildren
        ensures calls { result.calls.items ≡ [] }
        ensures ends { result.ends.items ≡ [] }
        ensures fuse { result.fuse ≡ 0 }
        ensures lost { result.lost ≡ false }
        ensures failures { result.failures ≡ 0 }
    {
        FakeChildren {
            calls: Vec::new(alloc),
            ends: Vec::new(alloc),
            fuse: 0,
            lost: false,
            failures: 0,
        }
    }

    /// The calls so far, the oldest first.
    pub fn calls(&self) -> &[Call]
        ensures { result.now ≡ self.now.calls.items }
    {
        self.calls.as_slice()
    }

    /// How many calls failed. It stays at its last value.
    pub fn failures(&self) -> u64
        ensures { result ≡ self.now.failures }
    {
        self.failures
    }

    /// From now on the process of this number, once it was started, has ended so. An end that was set earlier stands.
    pub fn ends(&mut self, number: ProcessNumber, end: End) -> Result<(), AllocError>
        ensures ends { OnOk result (self.new.ends.items ≡ self.old.ends.items ++ (number, end) ∷ []) }
        ensures err { OnErr result (self.new.ends.items ≡ self.old.ends.items) }
        ensures calls { self.new.calls ≡ self.old.calls }
        ensures fuse { self.new.fuse ≡ self.old.fuse }
        ensures lost { self.new.lost ≡ self.old.lost }
        ensures failures { self.new.failures ≡ self.old.failures }
    {
        self.ends.push((number, end))?;
        Ok(())
    }

    /// Fails the `fails`-th call from now on; with 0 none.
    pub fn fuse(&mut self, fails: u64)
        ensures { self.new ≡ record self.old { fuse = fails } }
    {
        self.fuse = fails;
    }

    /// The same children again, as a crash of the manager leaves them.
    pub fn copy(&self, alloc: Global) -> Result<FakeChildren, AllocError>
        ensures calls { IfOk result (λ copy. calls_of copy.calls.items ≡ calls_of self.now.calls.items) }
        ensures ends { IfOk result (λ copy. copy.ends.items ≡ self.now.ends.items) }
        ensures fuse { IfOk result (λ copy. copy.fuse ≡ self.now.fuse) }
        ensures lost { IfOk result (λ copy. copy.lost ≡ self.now.lost) }
        ensures failures { IfOk result (λ copy. copy.failures ≡ self.now.failures) }
    {
        Ok(FakeChildren {
            calls: copied(alloc, self.calls.as_slice())?,
            ends: ends_copied(alloc, self.ends.as_slice())?,
            fuse: self.fuse,
            lost: self.lost,
            failures: self.failures,
        })
    }

    /// Whether this call is the one to fail.
    fn burns(&mut self) -> bool
        ensures due { result ≡ is_due self.old.fuse }
        ensures fuse { self.new.fuse ≡ fuse_after self.old.fuse }
        ensures calls { self.new.calls ≡ self.old.calls }
        ensures ends { self.new.ends ≡ self.old.ends }
        ensures lost { self.new.lost ≡ self.old.lost }
        ensures failures { self.new.failures ≡ self.old.failures }
    {
        let burns = self.fuse == 1;
        self.fuse = self.fuse.saturating_sub(1);
        burns
    }

    /// Counts a failure.
    fn fail(&mut self) -> ChildFault
        ensures fault { result ≡ ChildFault.Device }
        ensures failures { self.new.failures ≡ one_more self.old.failures }
        ensures calls { self.new.calls ≡ self.old.calls }
        ensures ends { self.new.ends ≡ self.old.ends }
        ensures lost { self.new.lost ≡ self.old.lost }
        ensures fuse { self.new.fuse ≡ self.old.fuse }
    {
        self.failures = self.failures.saturating_add(1);
        ChildFault::Device
    }

    /// Fails a call that found no memory for its note, or to see what it would note.
    fn lose(&mut self) -> ChildFault
        ensures fault { result ≡ ChildFault.Device }
        ensures failures { self.new.failures ≡ one_more self.old.failures }
        ensures calls { self.new.calls ≡ self.old.calls }
        ensures ends { self.new.ends ≡ self.old.ends }
        ensures lost { self.new.lost ≡ true }
        ensures fuse { self.new.fuse ≡ self.old.fuse }
    {
        self.lost = true;
        self.fail()
    }
}

impl Children for FakeChildren {
    ghost past = { λ f. calls_of f.calls.items };

    ghost whole = { λ f. not f.lost };

    ghost failures = { λ f. f.failures };

    ghost honest = { λ _. true };

    ghost absence_is_final = { λ f _. f.kept };

    /// The number starts unless the call fails, it was reported absent, or the order is too long, which is noted as a
    /// start that was refused.
    fn spawn(&mut self, order: SpawnOrder) -> Result<(), ChildFault>
        ensures past { IsTrue true → IsTrue (not self.new.lost) → Spawns order result (calls_of self.old.calls.items) (calls_of self.new.calls.items) }
        ensures bound { OnOk result (is_too_long order.words order.environment ≡ false) }
        ensures starts { OnOk result (calls_of self.new.calls.items ≡ calls_of self.old.calls.items ++ Spawned order true (not (was_absent (calls_of self.old.calls.items) order.number)) ∷ []) }
        ensures refused { IfErr result (λ fault. fault ≡ ChildFault.TooLong → calls_of self.new.calls.items ≡ calls_of self.old.calls.items ++ Spawned order false false ∷ []) }
        ensures whole { KeepsWhole result (not self.old.lost) (not self.new.lost) }
        ensures failures { CountsFault result self.old.failures self.new.failures }
        ensures due { OnOk result (is_due self.old.fuse ≡ false) }
        ensures fails { IfErr result (λ fault. (is_due self.old.fuse ≡ true) ⊎ ((self.new.lost ≡ true) ⊎ (fault ≡ ChildFault.TooLong))) }
        ensures fuse { self.new.fuse ≡ fuse_after self.old.fuse }
        ensures ends { self.new.ends ≡ self.old.ends }
    {
        let number = order.number();
        let burns = self.burns();
        let Ok(is_too_long) = order.is_too_long(*self.calls.allocator()) else {
            return Err(self.lose());
        };
        let is_absent = was_absent(self.calls.as_slice(), number);
        let call = Call::Spawned {
            number,
            start: order.into_start(),
            is_taken: !(burns | is_too_long),
            starts: !(burns | is_too_long | is_absent),
        };
        if !note(&mut self.calls, call) {
            return Err(self.lose());
        }
        if burns {
            return Err(self.fail());
        }
        if is_too_long {
            return Err(ChildFault::TooLong);
        }
        Ok(())
    }

    fn signal(&mut self, number: ProcessNumber, signal: Signal) -> Result<(), ChildFault>
        ensures past { IsTrue true → IsTrue (not self.new.lost) → Signals number signal (calls_of self.old.calls.items) (calls_of self.new.calls.items) }
        ensures whole { KeepsWhole result (not self.old.lost) (not self.new.lost) }
        ensures failures { CountsFault result self.old.failures self.new.failures }
        ensures due { OnOk result (is_due self.old.fuse ≡ false) }
        ensures fails { OnErr result ((is_due self.old.fuse ≡ true) ⊎ (self.new.lost ≡ true)) }
        ensures fuse { self.new.fuse ≡ fuse_after self.old.fuse }
        ensures ends { self.new.ends ≡ self.old.ends }
    {
        let burns = self.burns();
        if !note(&mut self.calls, Call::Signalled { number, signal }) {
            return Err(self.lose());
        }
        if burns { Err(self.fail()) } else { Ok(()) }
    }

    fn fate(&mut self, number: ProcessNumber, claim: bool) -> Result<Fate, ChildFault>
        ensures past { IsTrue true → IsTrue (not self.new.lost) → Asks number claim result (calls_of self.old.calls.items) (calls_of self.new.calls.items) }
        ensures claim { claim ≡ false → IfOk result (λ fate. is_absent fate ≡ false) }
        ensures told { IfOk result (λ fate. fate ≡ fate_of (calls_of self.old.calls.items) self.old.ends.items number claim) }
        ensures whole { KeepsWhole result (not self.old.lost) (not self.new.lost) }
        ensures failures { CountsFault result self.old.failures self.new.failures }
        ensures due { OnOk result (is_due self.old.fuse ≡ false) }
        ensures fails { OnErr result ((is_due self.old.fuse ≡ true) ⊎ (self.new.lost ≡ true)) }
        ensures fuse { self.new.fuse ≡ fuse_after self.old.fuse }
        ensures ends { self.new.ends ≡ self.old.ends }
    {
        if self.burns() {
            let told = None;
            if !note(
                &mut self.calls,
                Call::Asked {
                    number,
                    claim,
                    told,
                },
            ) {
                return Err(self.lose());
            }
            return Err(self.fail());
        }
        let fate = fate_of(self.calls.as_slice(), self.ends.as_slice(), number, claim);
        let told = Some(fate);
        if !note(
            &mut self.calls,
            Call::Asked {
                number,
                claim,
                told,
            },
        ) {
            return Err(self.lose());
        }
        Ok(fate)
    }

    /// Nothing is kept of a number but the notes, which stay. It fails only where there is no memory for its own, and no fuse burns.
    fn forget(&mut self, number: ProcessNumber) -> Result<(), ChildFault>
        ensures past { IsTrue true → IsTrue (not self.new.lost) → Forgets number (calls_of self.old.calls.items) (calls_of self.new.calls.items) }
        ensures whole { KeepsWhole result (not self.old.lost) (not self.new.lost) }
        ensures failures { CountsFault result self.old.failures self.new.failures }
        ensures fails { OnErr result (self.new.lost ≡ true) }
        ensures fuse { self.new.fuse ≡ self.old.fuse }
        ensures ends { self.new.ends ≡ self.old.ends }
    {
        if !note(&mut self.calls, Call::Forgot { number }) {
            return Err(self.lose());
        }
        Ok(())
    }

    /// As `forget`.
    fn forget_others(&mut self, live: &[ProcessNumber], next: NextNumber) -> Result<(), ChildFault>
        ensures past { IsTrue true → IsTrue (not self.new.lost) → ForgetsOthers live.now next (calls_of self.old.calls.items) (calls_of self.new.calls.items) }
        ensures whole { KeepsWhole result (not self.old.lost) (not self.new.lost) }
        ensures failures { CountsFault result self.old.failures self.new.failures }
        ensures fails { OnErr result (self.new.lost ≡ true) }
        ensures fuse { self.new.fuse ≡ self.old.fuse }
        ensures ends { self.new.ends ≡ self.old.ends }
    {
        let Ok(live) = Vec::from_slice(*self.calls.allocator(), live) else {
            return Err(self.lose());
        };
        if !note(&mut self.calls, Call::ForgotOthers { live, next }) {
            return Err(self.lose());
        }
        Ok(())
    }
}
