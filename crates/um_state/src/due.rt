//! Whether a deadline is due, found without a copy.
ghost use Rattle.std.specs.Prelude.{◌≡◌, ◌↔◌, IsTrue};
ghost use Rattle.std.specs.List.{list_all};
ghost use Rattle.um_state.specs.Due.{NoneDue, are_later, is_later};

use crate::units::Units;
use um_model::{Deadline, Moment, UnitState};

/// Whether the deadline, if there is one, is later than the moment.
fn is_later(moment: Moment, deadline: Option<Deadline>) -> bool
    ensures { result ≡ is_later moment deadline }
{
    match deadline {
        Some(deadline) => moment.micros() < deadline.micros(),
        None => true,
    }
}

/// Whether the deadline of each unit is later than the moment.
fn are_all_later(rows: &[UnitState], moment: Moment) -> bool
    ensures { result ≡ list_all (λ u. is_later moment u.deadline) rows.now }
{
    rows.iter().all(|unit| is_later(moment, unit.deadline))
}

impl Units {
    /// Whether the deadline of each unit that is held is later than the moment.
    fn are_later(&self, moment: Moment) -> bool
        ensures { result ≡ are_later moment self.now.held }
    {
        are_all_later(self.rows(), moment)
    }

    /// Whether no deadline of any unit is due at the moment: each is later. It takes no memory.
    pub fn none_due(&self, moment: Moment) -> bool
        ensures { IsTrue result ↔ NoneDue moment self.now.held }
    {
        self.are_later(moment)
    }
}
