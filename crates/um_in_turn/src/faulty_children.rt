//! Children in memory of which one call fails.

ghost use Rattle.std.specs.Prelude.{◌≡◌, true, false, []};
ghost use Rattle.std.proofs.lemmas.Bool.{false≢true};
ghost use Rattle.um_children.specs.Faults.{CountsFault};

use std::alloc::AllocError;
use um_children::{
    Call, ChildFault, Children, End, FakeChildren, Fate, NextNumber, ProcessNumber, Signal,
};
use um_keeper::SpawnOrder;

/// Children in memory of which one call fails: the `fails`-th, counted from 1; with 0 none. A start that fails is made all the same if
/// `makes` is set. The calls are kept, except a failed call to forget, which isn't made; a start that was made all the same is kept as
/// taken.
#[derive(Drop)]
pub struct FaultyChildren {
    inner: FakeChildren,
    fails: u64,
    makes: bool,
    calls: u64,
    failures: u64,
    /// The number whose start failed.
    refused: Option<ProcessNumber>,
}

impl FaultyChildren {
    /// Children whose `fails`-th call fails, a start after it was made if `makes` is set; with 0 none.
    pub fn new(inner: FakeChildren, fails: u64, makes: bool) -> FaultyChildren {
        FaultyChildren {
            inner,
            fails,
            makes,
            calls: 0,
            failures: 0,
            refused: None,
        }
    }

    /// The calls, the oldest first.
    pub fn notes(&self) -> &[Call] {
        self.inner.calls()
    }

    /// How many calls were made.
    pub fn calls(&self) -> u64 {
        self.calls
    }

    /// The number whose start failed, whether it was made or not.
    pub fn refused(&self) -> Option<ProcessNumber> {
        self.refused
    }

    /// From now on the process of this number, once it was started, has ended in this way.
    pub fn ends(&mut self, number: ProcessNumber, end: End) -> Result<(), AllocError> {
        self.inner.ends(number, end)
    }

    /// Whether a call has failed.
    pub fn has_failed(&self) -> bool {
        self.failures != 0
    }

    /// Counts a call, and returns whether it is to fail.
    fn burns(&mut self) -> bool
        ensures failures { self.new.failures ≡ self.old.failures }
    {
        self.calls = self.calls.saturating_add(1);
        self.calls == self.fails
    }

    /// The answer of the inner children, whose failures are counted.
    fn counted<T: Drop>(&mut self, answer: Result<T, ChildFault>) -> Result<T, ChildFault>
        ensures answer { result ≡ answer }
        ensures failures { CountsFault result self.old.failures self.new.failures }
    {
        match answer {
            Ok(done) => Ok(done),
            Err(ChildFault::Device) => {
                self.failures = self.failures.saturating_add(1);
                Err(ChildFault::Device)
            }
            Err(ChildFault::NoMemory) => Err(ChildFault::NoMemory),
            Err(ChildFault::TooLong) => Err(ChildFault::TooLong),
        }
    }
}

impl Children for FaultyChildren {
    ghost past = { λ _. [] };

    ghost whole = { λ _. true };

    ghost failures = { λ children. children.failures };

    ghost honest = { λ _. false };

    ghost absence_is_final = { λ _ never. absurd (false≢true never) };

    fn spawn(&mut self, order: SpawnOrder) -> Result<(), ChildFault> {
        let burns = self.burns();
        if burns {
            self.refused = Some(order.number());
        }
        if burns && !self.makes {
            self.inner.fuse(1);
        }
        let mut answer = self.inner.spawn(order);
        if burns && self.makes && answer.is_ok() {
            answer = Err(ChildFault::Device);
        }
        self.counted(answer)
    }

    fn signal(&mut self, number: ProcessNumber, signal: Signal) -> Result<(), ChildFault> {
        if self.burns() {
            self.inner.fuse(1);
        }
        let answer = self.inner.signal(number, signal);
        self.counted(answer)
    }

    fn fate(&mut self, number: ProcessNumber, claim: bool) -> Result<Fate, ChildFault> {
        if self.burns() {
            self.inner.fuse(1);
        }
        let answer = self.inner.fate(number, claim);
        self.counted(answer)
    }

    fn forget(&mut self, number: ProcessNumber) -> Result<(), ChildFault> {
        if self.burns() {
            return self.counted(Err(ChildFault::Device));
        }
        let answer = self.inner.forget(number);
        self.counted(answer)
    }

    fn forget_others(
        &mut self,
        live: &[ProcessNumber],
        next: NextNumber,
    ) -> Result<(), ChildFault> {
        if self.burns() {
            return self.counted(Err(ChildFault::Device));
        }
        let answer = self.inner.forget_others(live, next);
        self.counted(answer)
    }
}
