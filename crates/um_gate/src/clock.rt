//! The source of moments.

ghost use Rattle.std.specs.Prelude.{◌≡◌, ◌∷◌, [], List, ℕ, Bool, IsTrue, not, true, false};
ghost use Rattle.um_gate.specs.Events.{Ticks};

use std::alloc::{AllocError, Global};
use std::time::{Clock, Instant, SystemTime, UNIX_EPOCH};
use um_model::Moment;

/// The clock of a manager.
///
/// The clauses on the moments stand under `honest`, and under `whole`, since a clock that keeps them may find no memory for one.
pub trait Moments {
    /// The moments that it gave, the oldest first.
    ghost given: { Self → List ℕ };

    /// No moment is missing from the list.
    ghost whole: { Self → Bool };

    /// It does what it answers.
    ghost honest: { Self → Bool };

    /// The moment that it is now. It may go back, and stand still.
    fn moment(&mut self) -> Moment
        ensures given { Ticks (honest self.old) (whole self.new) (given self.old) (given self.new) (result ∷ []) }
        ensures whole { IsTrue (whole self.new) → IsTrue (whole self.old) }
        ensures honest { honest self.new ≡ honest self.old };
}

/// A clock in memory, which gives the moments that were set. It is honest, and keeps them.
#[derive(Drop)]
pub struct FakeMoments {
    given: Vec<Moment>,
    /// The moment that it gives next.
    next: Moment,
    /// The microseconds from one moment to the next.
    step: u64,
    /// A moment is missing from those kept.
    lost: bool,
}

impl FakeMoments {
    /// A clock that gives this moment first, and each next one `step` microseconds later, up to the latest moment. It
    /// takes no memory.
    pub fn new(alloc: Global, first: Moment, step: u64) -> FakeMoments
        ensures given { result.given.items ≡ [] }
        ensures next { result.next ≡ first }
        ensures step { result.step ≡ step }
        ensures lost { result.lost ≡ false }
    {
        FakeMoments {
            given: Vec::new(alloc),
            next: first,
            step,
            lost: false,
        }
    }

    /// The moments that it gave, the oldest first.
    pub fn given(&self) -> &[Moment]
        ensures { result.now ≡ self.now.given.items }
    {
        self.given.as_slice()
    }
}

impl Moments for FakeMoments {
    ghost given = { λ clock. clock.given.items };

    ghost whole = { λ clock. not clock.lost };

    ghost honest = { λ _. true };

    fn moment(&mut self) -> Moment {
        let moment = self.next;
        self.next = Moment::new(moment.micros().saturating_add(self.step)).unwrap_or(moment);
        if self.given.push(moment).is_err() {
            self.lost = true;
        }
        moment
    }
}

/// The moment of the system's clock; the first one if it gives none, as before 1970 and past 2^62 microseconds after
/// that.
pub fn system_moment<R: Clock>(rt: &R) -> Moment {
    told(rt).unwrap_or(Moment::FIRST)
}

/// The moment that the system gives; none before 1970, past 2^62 microseconds, and if it gives none.
fn told<R: Clock>(rt: &R) -> Option<Moment> {
    let now = SystemTime::now(rt).ok()?;
    let since = now.duration_since(UNIX_EPOCH).ok()?;
    Moment::new(u64::try_from(since.as_micros()).ok()?)
}

/// The clock of the program: it starts at a moment of the system's clock, and from then on runs by one that only runs forward. So it isn't
/// moved when the system's clock is set.
///
/// No contract can say what a clock gives. So `honest` isn't claimed of it.
#[derive(Clone, Copy)]
pub struct SystemMoments<'a, R> {
    rt: &'a R,
    start: Moment,
    /// The reading of the clock that runs forward then; none if the system gave none.
    started: Option<Instant>,
}

impl<'a, R: Clock> SystemMoments<'a, R> {
    /// A clock that starts at the system's moment, or at this one where it is greater. Where the system has no clock that runs forward, it stands.
    pub fn starting(rt: &'a R, least: Moment) -> SystemMoments<'a, R> {
        SystemMoments {
            rt,
            start: system_moment(rt).or_later(least),
            started: Instant::now(rt).ok(),
        }
    }

    /// The microseconds since it started; none if the system gives none.
    fn elapsed(&self) -> Option<u64> {
        let elapsed = self.started?.elapsed(self.rt).ok()?;
        u64::try_from(elapsed.as_micros()).ok()
    }
}

impl<'a, R: Clock> Moments for SystemMoments<'a, R> {
    // No clause reads it, since nothing is claimed of the moments that the system gives.
    ghost given = { λ _. [] };

    ghost whole = { λ _. true };

    ghost honest = { λ _. false };

    /// Past 2^62 microseconds, where no moment is, it gives its first one again.
    fn moment(&mut self) -> Moment {
        let elapsed = self.elapsed().unwrap_or(0);
        Moment::new(self.start.micros().saturating_add(elapsed)).unwrap_or(self.start)
    }
}
