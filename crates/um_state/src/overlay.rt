//! Rows of units, few of which are changed; the others aren't copied.

ghost use Rattle.std.specs.Prelude.{◌≡◌, ◌+◌, ◌<◌, ◌++◌, ◌∷◌, [], not, length, vec_len, vec_capacity, set as with_item, IfOk, MatchOption};
ghost use Rattle.std.specs.Coded.{codes};
ghost use Rattle.um_state.specs.Finding.{row_at};
ghost use Rattle.um_state.specs.Overlays.{AreLaid, OverlayView, laid_over, place_at, units_in};
ghost use Rattle.um_state.specs.Working.{is_same_unit};

use crate::finder::row_in;
use std::alloc::{AllocError, Global};
use std::marker::Model;
use um_model::UnitState;

/// A row in the place of an old one. It is a type of its own because the prover can't follow a growing list of bare states.
#[derive(Clone, Copy)]
struct ChangedRow {
    unit: UnitState,
}

/// The place of the row with this number among the changed ones; None if the row hasn't changed.
fn place_in(places: &[usize], i: usize) -> Option<usize>
    ensures { MatchOption result (place_at places.now i ≡ 0) (λ k. place_at places.now i ≡ k + 1) }
{
    match places.get(i) {
        Some(place) if *place > 0 => Some(*place - 1),
        _ => None,
    }
}

/// How the unit of the row at this place stands; past the last one it is dead.
fn unit_in(changed: &[ChangedRow], place: usize) -> UnitState
    ensures { result ≡ row_at (units_in changed.now) place }
{
    match changed.get(place) {
        Some(row) => row.unit,
        None => UnitState::DEAD,
    }
}

/// Sets the row at this place.
fn set_again(changed: &mut Vec<ChangedRow>, place: usize, unit: UnitState)
    requires { place < vec_len changed.old }
    ensures items { units_in changed.new.items ≡ with_item (units_in changed.old.items) place unit }
    ensures len { vec_len changed.new ≡ vec_len changed.old }
    ensures room { vec_capacity changed.new ≡ vec_capacity changed.old }
{
    changed[place] = ChangedRow { unit };
}

/// Appends a row, for which there is room.
fn add_last(changed: &mut Vec<ChangedRow>, unit: UnitState)
    requires { vec_len changed.old < vec_capacity changed.old }
    ensures items { units_in changed.new.items ≡ units_in changed.old.items ++ unit ∷ [] }
    ensures len { vec_len changed.new ≡ vec_len changed.old + 1 }
    ensures room { vec_capacity changed.new ≡ vec_capacity changed.old }
{
    changed.push_reserved(ChangedRow { unit });
}

/// Gives the row with this number a place after the changed ones.
fn set_first(places: &mut Vec<usize>, changed: &mut Vec<ChangedRow>, i: usize, unit: UnitState)
    requires within { i < vec_len places.old }
    requires room { vec_len changed.old < vec_capacity changed.old }
    ensures places { places.new.items ≡ with_item places.old.items i (vec_len changed.old + 1) }
    ensures changed { units_in changed.new.items ≡ units_in changed.old.items ++ unit ∷ [] }
    ensures len { vec_len changed.new ≡ vec_len changed.old + 1 }
    ensures room { vec_capacity changed.new ≡ vec_capacity changed.old }
{
    add_last(changed, unit);
    places[i] = changed.len();
}

/// Rows of units, some of them changed.
#[derive(Drop)]
pub(crate) struct Overlay<'s> {
    rows: &'s [UnitState],
    /// By number: the place of the row among the changed ones, plus one; 0 if it hasn't changed.
    places: Vec<usize>,
    /// It has room for all rows. No page of unused memory is touched.
    changed: Vec<ChangedRow>,
}

impl<'s> Model for Overlay<'s> {
    ghost Value = { OverlayView };

    ghost coded = { Prim.hlevel codes };

    ghost view = { λ o. record { was = o.rows.now; now = laid_over o.rows.now o.places.items (units_in o.changed.items) } };

    ghost invariant = { λ o. AreLaid (length o.rows.now) o.places.items (vec_len o.changed) (vec_capacity o.changed) };
}

impl<'s> Overlay<'s> {
    /// These rows, none of them changed.
    pub(crate) fn of(alloc: Global, rows: &'s [UnitState]) -> Result<Overlay<'s>, AllocError>
        ensures was { IfOk result (λ o. o.was ≡ rows.now) }
        ensures now { IfOk result (λ o. o.now ≡ rows.now) }
    {
        let places = vec![in alloc; 0; rows.len()]?;
        let changed = Vec::with_capacity(alloc, rows.len())?;
        Ok(Overlay {
            rows,
            places,
            changed,
        })
    }

    /// The number of rows.
    pub(crate) fn len(&self) -> usize
        ensures { result ≡ length self.now.now }
    {
        self.rows.len()
    }

    /// How the unit of the row with this number stands; past the last one it is dead. It takes no memory.
    pub(crate) fn at(&self, i: usize) -> UnitState
        ensures { result ≡ row_at self.now.now i }
    {
        match place_in(&self.places, i) {
            Some(place) => unit_in(&self.changed, place),
            None => row_in(self.rows, i),
        }
    }

    /// Whether the row with this number differs from the old one.
    pub(crate) fn is_changed(&self, i: usize) -> bool
        ensures { result ≡ not (is_same_unit (row_at self.now.was i) (row_at self.now.now i)) }
    {
        match place_in(&self.places, i) {
            Some(place) => row_in(self.rows, i) != unit_in(&self.changed, place),
            None => false,
        }
    }

    /// Sets the row with this number. It takes no memory.
    pub(crate) fn set(&mut self, i: usize, unit: UnitState)
        requires { i < length self.old.now }
        ensures was { self.new.was ≡ self.old.was }
        ensures now { self.new.now ≡ with_item self.old.now i unit }
    {
        match place_in(&self.places, i) {
            Some(place) => set_again(&mut self.changed, place, unit),
            None => set_first(&mut self.places, &mut self.changed, i, unit),
        }
    }
}
