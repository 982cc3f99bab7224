//! The window in which the starts of a unit are counted.
ghost use Rattle.std.specs.Prelude.{◌≡◌, ℕ, false, Option, None};
ghost use Rattle.um_model.specs.Limit.{is_unlimited, is_over, counted};
ghost use Rattle.um_model.specs.declared.limit.Counted.{Counted};

use std::marker::Model;
use um_model::{Counted, Moment, Span};

/// The window of time in which the starts of a unit are counted, if it has one (systemd.unit(5), "StartLimitIntervalSec=").
#[derive(Clone, Copy, Debug, PartialEq, Eq)]
pub struct Window {
    counted: Option<Counted>,
}

impl Model for Window {
    ghost Value = { Option Counted };

    ghost view = { λ w. w.counted };

    ghost inverse = { λ c. record { counted = c } };
}

/// Whether there is no limit. An interval of `None` is infinite.
fn is_unlimited(interval: &Option<Span>, burst: u32) -> bool
    ensures { result ≡ is_unlimited interval.now burst }
{
    match *interval {
        Some(interval) => interval.micros() == 0 || burst == 0,
        None => burst == 0,
    }
}

/// Whether more than the interval went by since the moment at which the window began.
fn is_over(interval: Option<Span>, moment: Moment, began: Moment) -> bool
    ensures { result ≡ is_over interval moment began }
{
    match interval {
        Some(interval) => moment.micros() > began.after(interval).micros(),
        None => false,
    }
}

impl Window {
    /// No start was counted yet.
    pub fn new() -> Window
        ensures { result ≡ None }
    {
        Window { counted: None }
    }

    /// The window with these starts.
    pub fn from_counted(counted: Option<Counted>) -> Window
        ensures { result ≡ counted }
    {
        Window { counted }
    }

    /// The starts that the window counted, if there is one.
    pub fn counted(self) -> Option<Counted>
        ensures { result ≡ self }
    {
        self.counted
    }

    /// Whether a start at the moment is let through. It is if the interval or the burst is 0: then there is no limit and the window stays.
    /// Otherwise it begins a window if there is none or more than the interval passed since the last one began. Otherwise it is counted if
    /// the window has fewer starts than the burst, or else refused, and the window stays. A moment before the window counts as its
    /// beginning, and an interval of `None` is infinite: its window never ends.
    pub fn count(&mut self, moment: Moment, interval: Option<Span>, burst: u32) -> bool
        ensures answer { result ≡ (counted interval burst moment self.old).0 }
        ensures after { self.new ≡ (counted interval burst moment self.old).1 }
    {
        if is_unlimited(&interval, burst) {
            return true;
        }
        match self.counted {
            Some(counted) if !is_over(interval, moment, counted.began) => {
                if counted.count >= burst {
                    return false;
                }
                self.counted = Some(Counted {
                    count: counted.count + 1,
                    ..counted
                });
            }
            _ => {
                self.counted = Some(Counted {
                    began: moment,
                    count: 1,
                });
            }
        }
        true
    }

    /// A copy of the window.
    pub fn copy(&self) -> Window
        ensures { result ≡ self.now }
    {
        *self
    }
}

/// A start that is refused leaves the window as it was.
pub fn a_refused_start_changes_nothing()
    ensures { (interval : Option ℕ) (burst moment : ℕ) (window : Option Counted) → (counted interval burst moment window).0 ≡ false → (counted interval burst moment window).1 ≡ window }
{}
