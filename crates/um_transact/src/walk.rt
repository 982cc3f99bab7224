//! A walk over demands: each is marked once, and then followed.

ghost use Rattle.std.specs.Prelude.{◌≡◌, ◌<◌, [], All, IfOk, OnOk, List, vec_len, replicate};
ghost use Rattle.um_transact.specs.Walk.{Demanded, all_met, has_mark, met, no_marks, with_mark};

use std::alloc::{AllocError, Global};
use um_model::Demand;

/// Which demands on a unit are marked.
#[derive(Clone, Copy, Debug, PartialEq, Eq)]
pub struct Marks {
    pub start: bool,
    pub stop: bool,
    pub restart: bool,
}

impl Marks {
    /// No demand is marked.
    pub const NONE: Marks = Marks {
        start: false,
        stop: false,
        restart: false,
    };

    /// Whether the demand is marked.
    pub fn has(&self, demand: Demand) -> bool
        ensures { result ≡ has_mark demand self.now }
    {
        match demand {
            Demand::Start => self.start,
            Demand::Stop => self.stop,
            Demand::Restart => self.restart,
        }
    }

    /// These marks and the demand's.
    fn with(self, demand: Demand) -> Marks
        ensures { result ≡ with_mark demand self }
    {
        match demand {
            Demand::Start => Marks {
                start: true,
                ..self
            },
            Demand::Stop => Marks { stop: true, ..self },
            Demand::Restart => Marks {
                restart: true,
                ..self
            },
        }
    }
}

/// The marked demands, by the number of the unit, and those of them that are yet to be followed.
#[derive(Drop)]
pub struct Walk {
    pub marks: Vec<Marks>,
    pub list: Vec<(Demand, usize)>,
}

impl Walk {
    /// A walk over this number of units, with no mark yet.
    pub fn new(alloc: Global, units: usize) -> Result<Walk, AllocError>
        ensures marks { IfOk result (λ w. w.marks.items ≡ replicate units no_marks) }
        ensures list { IfOk result (λ w. w.list.items ≡ []) }
    {
        Ok(Walk {
            marks: vec![in alloc; Marks::NONE; units]?,
            list: Vec::new(alloc),
        })
    }

    /// Marks a demand on a unit, and lists it to be followed, unless it was marked.
    pub fn meet(&mut self, demand: (Demand, usize)) -> Result<(), AllocError>
        requires within { demand.1 < vec_len self.old.marks }
        ensures { OnOk result ((self.new.marks.items, self.new.list.items) ≡ met demand (self.old.marks.items, self.old.list.items)) }
    {
        let marks = self.marks[demand.1];
        if !marks.has(demand.0) {
            self.list.push(demand)?;
            self.marks[demand.1] = marks.with(demand.0);
        }
        Ok(())
    }

    /// Does the same for all of these.
    pub fn meet_all(&mut self, found: &[(Demand, usize)]) -> Result<(), AllocError>
        requires within { All (λ (p : Demanded). p.1 < vec_len self.old.marks) found.now }
        ensures { OnOk result ((self.new.marks.items, self.new.list.items) ≡ all_met found.now (self.old.marks.items, self.old.list.items)) }
    {
        for demand in found {
            self.meet(*demand)?;
        }
        Ok(())
    }
}
