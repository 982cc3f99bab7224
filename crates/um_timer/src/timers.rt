//! Deadlines by unit.
ghost use Rattle.std.specs.Prelude.{◌≡◌, ℕ, List, IfOk, MatchOption, OnOk, OnErr};
ghost use Rattle.std.specs.FinMap as map;
ghost use Rattle.std.specs.Coded.{coded_list, coded_ℕ};
ghost use Rattle.um_model.specs.Timers as model;
ghost use Rattle.um_model.specs.Timers.{IsDueFirst};

use std::alloc::{AllocError, Global};
use std::collections::BTreeMap;
use std::marker::Model;
use um_model::Deadline;
use um_name::UnitName;

/// For each unit with a timer its deadline.
#[derive(Drop)]
pub struct Timers {
    alloc: Global,
    deadlines: BTreeMap<UnitName, Deadline>,
}

impl Model for Timers {
    ghost Value = { model.Timers };

    ghost coded = { map.code (coded_list coded_ℕ) coded_ℕ };

    ghost view = { λ t. map.from_entries t.deadlines.entries };
}

impl Timers {
    /// No timer is set. It takes no memory.
    pub fn new(alloc: Global) -> Timers
        ensures { result ≡ map.empty }
    {
        Timers {
            alloc,
            deadlines: BTreeMap::new(alloc),
        }
    }

    /// The deadline of the unit, if it has a timer. It takes no memory.
    pub fn get(&self, unit: &UnitName) -> Option<Deadline>
        ensures { result ≡ map.get self.now unit.now }
    {
        self.deadlines.get(unit).copied()
    }

    /// Sets the unit's timer to this deadline, in place of an earlier or a later one. If memory is refused, all is as before.
    pub fn set(&mut self, unit: UnitName, deadline: Deadline) -> Result<(), AllocError>
        ensures ok { OnOk result (self.new ≡ map.insert self.old unit deadline) }
        ensures err { OnErr result (self.new ≡ self.old) }
    {
        self.deadlines.insert(unit, deadline)?;
        Ok(())
    }

    /// Takes the unit's timer away, if it has one. It takes no memory.
    pub fn clear(&mut self, unit: &UnitName)
        ensures { self.new ≡ map.remove self.old unit.now }
    {
        self.deadlines.remove(unit);
    }

    /// The timer that is due first: the one of the least deadline, and of several such the one whose unit's name is least by bytes. None
    /// only if no timer is set. It takes no memory.
    pub fn next_due(&self) -> Option<(Deadline, &UnitName)>
        ensures { MatchOption result (self.now ≡ map.empty) (λ due. IsDueFirst self.now due.0 due.1.now) }
    {
        let mut next: Option<(Deadline, &UnitName)> = None;
        for (unit, deadline) in self.deadlines.iter() {
            next = match next {
                Some(due) if due.0.micros() <= deadline.micros() => Some(due),
                _ => Some((*deadline, unit)),
            };
        }
        next
    }

    /// A copy of the timers.
    pub fn copy(&self) -> Result<Timers, AllocError>
        ensures { IfOk result (λ timers. timers ≡ self.now) }
    {
        Ok(Timers {
            alloc: self.alloc,
            deadlines: self.deadlines.clone()?,
        })
    }
}

/// At most one of the timers is due first.
pub fn one_timer_is_due_first()
    ensures { (timers : model.Timers) (deadline later : ℕ) (unit other : List ℕ) → IsDueFirst timers deadline unit → IsDueFirst timers later other → (deadline ≡ later) × (unit ≡ other) }
{}
