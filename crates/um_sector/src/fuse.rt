//! A disk that fails one call, for tests of failures.
ghost use Rattle.std.specs.Prelude.{◌≡◌, ◌≢◌, ◌+◌, ◌<◌, ◌==◌, true, false, OnOk, IsErr, IsTrue};
ghost use Rattle.um_model.specs.Disk.{seen, Wrote, Synced};
ghost use Rattle.um_sector.specs.Runs.{CountsFailure};
ghost use Rattle.um_model.specs.Disk.{one_more};
ghost use Rattle.um_sector.specs.Fused.{failures_with, IsAsked};

use crate::disk::{Disk, Sector};
use crate::fault::Fault;

/// A disk that fails one call and goes on: its `fails`-th, counted from 1 since the fuse was put in. That call isn't
/// passed to the disk below, unless it is a write and the fuse is one that makes it. With `fails` 0 no call is failed.
pub struct Fuse<D: Disk> {
    inner: D,
    fails: u64,
    /// The write that it fails is made below.
    makes: bool,
    calls: u64,
    /// The failures that the disk below knows nothing of.
    own: u64,
}

// One call, where a derived one is taken apart at each exit.
impl<D: Disk + Drop> Drop for Fuse<D> {
    fn drop(self) {
        let Fuse {
            inner: _inner,
            fails: _,
            makes: _,
            calls: _,
            own: _,
        } = self;
    }
}

impl<D: Disk> Fuse<D> {
    /// Fails the `fails`-th call from now on, which isn't made.
    pub fn new(inner: D, fails: u64) -> Fuse<D>
        ensures inner { result.inner ≡ inner }
        ensures fails { result.fails ≡ fails }
        ensures makes { result.makes ≡ false }
        ensures calls { result.calls ≡ 0 }
    {
        Fuse {
            inner,
            fails,
            makes: false,
            calls: 0,
            own: 0,
        }
    }

    /// Fails the `fails`-th call from now on: if it is a write, it is passed to the disk below all the same.
    pub fn making(inner: D, fails: u64) -> Fuse<D>
        ensures inner { result.inner ≡ inner }
        ensures fails { result.fails ≡ fails }
        ensures makes { result.makes ≡ true }
        ensures calls { result.calls ≡ 0 }
    {
        Fuse {
            inner,
            fails,
            makes: true,
            calls: 0,
            own: 0,
        }
    }

    /// How many disk calls were made since the fuse was put in, the failed one included. It stays at its last value.
    pub fn calls(&self) -> u64
        ensures { result ≡ self.now.calls }
    {
        self.calls
    }

    /// The disk below.
    pub fn into_inner(self) -> D
        ensures { result ≡ self.inner }
    {
        let Fuse {
            inner,
            fails: _,
            makes: _,
            calls: _,
            own: _,
        } = self;
        inner
    }

    /// Counts a call, and returns whether it is the one to fail.
    fn burns(&mut self) -> bool
        ensures due { result ≡ (self.old.calls + 1 == self.old.fails) }
        ensures inner { self.new.inner ≡ self.old.inner }
        ensures fails { (self.new.fails ≡ self.old.fails) × (self.new.makes ≡ self.old.makes) }
        ensures calls { self.new.calls ≡ one_more self.old.calls }
        ensures own { self.new.own ≡ self.old.own }
    {
        let is_due = self.calls.checked_add(1) == Some(self.fails);
        self.calls = self.calls.saturating_add(1);
        is_due
    }

    /// Counts a failure of its own.
    fn fail(&mut self) -> Fault
        ensures inner { self.new.inner ≡ self.old.inner }
        ensures fails { (self.new.fails ≡ self.old.fails) × (self.new.makes ≡ self.old.makes) }
        ensures calls { self.new.calls ≡ self.old.calls }
        ensures own { self.new.own ≡ one_more self.old.own }
    {
        self.own = self.own.saturating_add(1);
        Fault
    }

    /// Fails a write, which is passed to the disk below if this fuse makes it. A failure there is counted there alone.
    fn fail_write(&mut self, k: usize, sector: &Sector) -> Result<(), Fault>
        ensures failed { IsErr result }
        ensures past { IsTrue (D.honest self.old.inner) → Wrote result (D.past self.old.inner) k sector.now (D.past self.new.inner) }
        ensures made { self.old.makes ≡ true
            → IsAsked (IsTrue (D.honest self.old.inner)) (D.failures self.old.inner) (D.failures self.new.inner) (D.past self.old.inner) k sector.now (D.past self.new.inner) }
        ensures unmade { self.old.makes ≡ false → self.new.inner ≡ self.old.inner }
        ensures failures { failures_with (D.failures self.new.inner) self.new.own ≡ one_more (failures_with (D.failures self.old.inner) self.old.own) }
        ensures fails { (self.new.fails ≡ self.old.fails) × (self.new.makes ≡ self.old.makes) }
        ensures calls { self.new.calls ≡ self.old.calls }
        ensures size { D.size self.new.inner ≡ D.size self.old.inner }
        ensures honest { D.honest self.new.inner ≡ D.honest self.old.inner }
    {
        if !self.makes {
            return Err(self.fail());
        }
        self.inner.write(k, sector)?;
        Err(self.fail())
    }
}

impl<D: Disk> Disk for Fuse<D> {
    ghost past = { λ f. D.past f.inner };

    ghost size = { λ f. D.size f.inner };

    ghost calls = { λ f. f.calls };

    ghost failures = { λ f. failures_with (D.failures f.inner) f.own };

    ghost honest = { λ f. D.honest f.inner };

    ghost seen_is_image = { λ f h. D.seen_is_image f.inner h };

    fn sectors(&self) -> usize {
        self.inner.sectors()
    }

    fn read(&mut self, k: usize, sector: &mut Sector) -> Result<(), Fault>
        ensures value { OnOk result (IsTrue (D.honest self.old.inner) → sector.new ≡ seen (D.past self.old.inner) k) }
        ensures there { OnOk result (k < D.size self.old.inner) }
        ensures past { IsTrue (D.honest self.old.inner) → D.past self.new.inner ≡ D.past self.old.inner }
        ensures calls { self.new.calls ≡ one_more self.old.calls }
        ensures failures { CountsFailure result (failures_with (D.failures self.old.inner) self.old.own) (failures_with (D.failures self.new.inner) self.new.own) }
        ensures size { D.size self.new.inner ≡ D.size self.old.inner }
        ensures honest { D.honest self.new.inner ≡ D.honest self.old.inner }
        ensures fails { (self.new.fails ≡ self.old.fails) × (self.new.makes ≡ self.old.makes) }
        ensures due { self.old.calls + 1 ≡ self.old.fails → IsErr result × (self.new.inner ≡ self.old.inner) }
        ensures asked { self.old.calls + 1 ≢ self.old.fails → D.calls self.new.inner ≡ one_more (D.calls self.old.inner) }
        ensures answer { self.old.calls + 1 ≢ self.old.fails → CountsFailure result (D.failures self.old.inner) (D.failures self.new.inner) }
    {
        if self.burns() {
            return Err(self.fail());
        }
        self.inner.read(k, sector)
    }

    fn write(&mut self, k: usize, sector: &Sector) -> Result<(), Fault>
        ensures past { IsTrue (D.honest self.old.inner) → Wrote result (D.past self.old.inner) k sector.now (D.past self.new.inner) }
        ensures there { OnOk result (k < D.size self.old.inner) }
        ensures calls { self.new.calls ≡ one_more self.old.calls }
        ensures failures { CountsFailure result (failures_with (D.failures self.old.inner) self.old.own) (failures_with (D.failures self.new.inner) self.new.own) }
        ensures size { D.size self.new.inner ≡ D.size self.old.inner }
        ensures honest { D.honest self.new.inner ≡ D.honest self.old.inner }
        ensures fails { (self.new.fails ≡ self.old.fails) × (self.new.makes ≡ self.old.makes) }
        ensures due { self.old.calls + 1 ≡ self.old.fails → IsErr result × (self.old.makes ≡ false → self.new.inner ≡ self.old.inner) }
        ensures made { self.old.calls + 1 ≡ self.old.fails → self.old.makes ≡ true
            → IsAsked (IsTrue (D.honest self.old.inner)) (D.failures self.old.inner) (D.failures self.new.inner) (D.past self.old.inner) k sector.now (D.past self.new.inner) }
        ensures asked { self.old.calls + 1 ≢ self.old.fails → D.calls self.new.inner ≡ one_more (D.calls self.old.inner) }
        ensures answer { self.old.calls + 1 ≢ self.old.fails → CountsFailure result (D.failures self.old.inner) (D.failures self.new.inner) }
    {
        if self.burns() {
            return self.fail_write(k, sector);
        }
        self.inner.write(k, sector)
    }

    fn sync(&mut self) -> Result<(), Fault>
        ensures past { IsTrue (D.honest self.old.inner) → Synced result (D.past self.old.inner) (D.past self.new.inner) }
        ensures calls { self.new.calls ≡ one_more self.old.calls }
        ensures failures { CountsFailure result (failures_with (D.failures self.old.inner) self.old.own) (failures_with (D.failures self.new.inner) self.new.own) }
        ensures size { D.size self.new.inner ≡ D.size self.old.inner }
        ensures honest { D.honest self.new.inner ≡ D.honest self.old.inner }
        ensures fails { (self.new.fails ≡ self.old.fails) × (self.new.makes ≡ self.old.makes) }
        ensures due { self.old.calls + 1 ≡ self.old.fails → IsErr result × (self.new.inner ≡ self.old.inner) }
        ensures asked { self.old.calls + 1 ≢ self.old.fails → D.calls self.new.inner ≡ one_more (D.calls self.old.inner) }
        ensures answer { self.old.calls + 1 ≢ self.old.fails → CountsFailure result (D.failures self.old.inner) (D.failures self.new.inner) }
    {
        if self.burns() {
            return Err(self.fail());
        }
        self.inner.sync()
    }
}
