//! A gate in memory of which one call fails.

ghost use Rattle.std.specs.Prelude.{true, false, []};

use um_gate::{FakeGate, Gate, Note, Open};

/// A gate in memory of which one call fails: the `fails`-th accept, read or write, counted from 1; with 0 none. An accept that fails takes
/// nobody. A read that fails returns closed, and a write that fails takes nothing, and the next read returns closed.
#[derive(Drop)]
pub struct FaultyGate {
    inner: FakeGate,
    fails: u64,
    calls: u64,
    /// The client whose call failed.
    hit: Option<usize>,
}

impl FaultyGate {
    /// A gate whose `fails`-th call fails; with 0 none.
    pub fn new(inner: FakeGate, fails: u64) -> FaultyGate {
        FaultyGate {
            inner,
            fails,
            calls: 0,
            hit: None,
        }
    }

    /// How many calls were made.
    pub fn calls(&self) -> u64 {
        self.calls
    }

    /// The client whose call failed.
    pub fn hit(&self) -> Option<usize> {
        self.hit
    }

    /// The notes of its calls so far, the oldest first.
    pub fn notes(&self) -> &[Note] {
        self.inner.notes()
    }

    /// Counts a call, and returns whether it is to fail.
    fn burns(&mut self) -> bool {
        self.calls = self.calls.saturating_add(1);
        self.calls == self.fails
    }
}

impl Gate for FaultyGate {
    ghost past = { λ _. [] };

    ghost whole = { λ _. true };

    ghost honest = { λ _. false };

    fn accept(&mut self) -> Open {
        if self.burns() {
            self.inner.fuse(1);
        }
        self.inner.accept()
    }

    fn read(&mut self, number: usize, most: usize, bytes: &mut Vec<u8>) -> bool {
        if self.burns() {
            self.hit = Some(number);
            self.inner.drop_connection(number);
        }
        self.inner.read(number, most, bytes)
    }

    fn write(&mut self, number: usize, bytes: &[u8]) -> usize {
        if self.burns() {
            self.hit = Some(number);
            self.inner.drop_connection(number);
            return 0;
        }
        self.inner.write(number, bytes)
    }

    fn drop_connection(&mut self, number: usize) {
        self.inner.drop_connection(number);
    }
}
