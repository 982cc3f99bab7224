//! The canonical bytes of the state: its loaded profile and its other fields in order.
ghost use Rattle.std.specs.Prelude.{◌≡◌, ◌++◌, true, nat_lt, IfOk, OnOk, OnErr, Some, None, if◌then◌else◌};
ghost use Rattle.std.specs.List.{list_all};
ghost use Rattle.std.specs.Option.{option_map};
ghost use Rattle.um_model.specs.Bytes.{IsInFront};
ghost use Rattle.um_model.specs.Machine as model;
ghost use Rattle.um_model.specs.StateSpellings.{FitState, is_sound, state_at, state_of as of_fields, state_spelling};
ghost use Rattle.um_model.proofs.StateSpellingsLaws.{canonical_state};
ghost use Rattle.um_state.specs.View.{state_of};

use crate::boot::BootId;
use crate::shared_tree::SharedTree;
use crate::state::State;
use crate::unit_bytes::are_distinct;
use crate::units::{Pending, Units};
use std::alloc::{AllocError, Global};
use um_model::{Moment, NextNumber, Profile};
use um_tree::Tree;
use um_wire::{Canon, Tagged};

/// The fields of a state, in the order of their bytes.
type Fields = (
    Profile,
    (
        Tree,
        (Tree, (BootId, (Moment, (NextNumber, (Units, Pending))))),
    ),
);

/// Whether each number is below the next one.
fn are_below(numbers: &[u64], next: NextNumber) -> bool
    ensures { result ≡ list_all (λ n. nat_lt n next) numbers.now }
{
    let next = next.get();
    numbers.iter().all(|number| *number < next)
}

/// Whether the loaded profile has the sub states of all units, each window began at or before the clock, and the live numbers are distinct
/// and below the next one.
fn is_sound(alloc: Global, state: &State) -> Result<bool, AllocError>
    ensures { IfOk result (λ sound. sound ≡ is_sound (state_of state.now)) }
{
    let units = state.units();
    if !units.have_sub_states(state.profile) || !units.have_begun(state.clock()) {
        return Ok(false);
    }
    let numbers = units.live_numbers()?;
    if !are_below(numbers.as_slice(), state.next()) {
        return Ok(false);
    }
    are_distinct(alloc, numbers.as_slice())
}

/// The state of these fields.
fn state_with(alloc: Global, fields: Fields) -> Result<State, AllocError>
    ensures { IfOk result (λ state. state_of state ≡ of_fields (
      fields.0,
      (
        fields.1.0,
        (
          fields.1.1.0,
          (
            fields.1.1.1.0,
            (
              fields.1.1.1.1.0,
              (fields.1.1.1.1.1.0, (fields.1.1.1.1.1.1.0.held, fields.1.1.1.1.1.1.1.held)),
            ),
          ),
        ),
      ),
    )) }
{
    let (profile, (tree, (loaded, (boot, (clock, (next, (units, pending))))))) = fields;
    Ok(State {
        tree: SharedTree::of(alloc, tree)?,
        loaded: SharedTree::of(alloc, loaded)?,
        profile,
        boot,
        clock,
        next,
        units,
        pending,
        is_common: false,
    })
}

/// The state, if it is sound.
fn if_sound(alloc: Global, state: State) -> Result<Option<State>, AllocError>
    ensures { IfOk result (λ found. option_map state_of found ≡ (if is_sound (state_of state) then Some (state_of state) else None)) }
{
    match is_sound(alloc, &state) {
        Ok(true) => Ok(Some(state)),
        Ok(false) => {
            drop(state);
            Ok(None)
        }
        Err(error) => {
            drop(state);
            Err(error)
        }
    }
}

impl State {
    /// Puts the profile and the fields, sound or not.
    fn put_fields(&self, out: &mut Vec<u8>) -> Result<(), AllocError>
        ensures put { OnOk result (out.new.items ≡ out.old.items ++ state_spelling (state_of self.now)) }
        ensures fits { OnOk result (is_sound (state_of self.now) ≡ true → FitState (state_of self.now)) }
        ensures front { OnErr result (IsInFront out.old.items out.new.items) }
    {
        out.push(self.profile.tag())?;
        self.tree.tree().put(out)?;
        self.loaded.tree().put(out)?;
        self.boot.put(out)?;
        self.clock.put(out)?;
        self.next.put(out)?;
        self.units.put(out)?;
        self.pending.put(out)
    }
}

impl Canon for State {
    ghost Value = { model.State };

    ghost value = { state_of };

    ghost fits = { FitState };

    ghost spelling = { state_spelling };

    ghost reading = { state_at };

    // A state that isn't sound has no spelling. No state of a run is unsound (`each_state_of_a_run_has_a_spelling`), and the test costs
    // less than writing the bytes.
    fn put(&self, out: &mut Vec<u8>) -> Result<(), AllocError> {
        if !is_sound(self.alloc(), self)? {
            return Err(AllocError);
        }
        self.put_fields(out)
    }

    fn get(alloc: Global, bytes: &[u8]) -> Result<Option<(State, usize)>, AllocError> {
        let Some((fields, n)) = Fields::get(alloc, bytes)? else {
            return Ok(None);
        };
        let read = state_with(alloc, fields)?;
        match if_sound(alloc, read)? {
            Some(state) => Ok(Some((state, n))),
            None => Ok(None),
        }
    }

    ghost canonical = { canonical_state };
}
