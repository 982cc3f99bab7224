//! A state with its `Known`.

ghost use Rattle.std.specs.Prelude.{◌≡◌, IfOk, IsTrue, Some};
ghost use Rattle.std.specs.Coded.{codes};
ghost use Rattle.std.specs.FinMap as maps;
ghost use Rattle.um_engine.specs.Exact.{IsExactIfFew};
ghost use Rattle.um_engine.specs.Known.{IsGraphFor, KnowsFor};
ghost use Rattle.um_engine.specs.Served.{IsNumberedBy, ServedView, WorksOn, begun_at, standing_of, trees_weight};
ghost use Rattle.um_model.specs.Machine.{IsHeld, IsHeldOr, IsCrowded};
ghost use Rattle.um_state.specs.Deltas.{delta_after, delta_before};
ghost use Rattle.um_state.specs.View.{state_of};
ghost use Rattle.um_tree.specs.Code.{tree_code};
ghost use Rattle.um_wire.specs.Gives.{RefusesBy};

use crate::known::Known;
use crate::memory::is_for_memory;
use std::alloc::{AllocError, Global};
use std::marker::Model;
use std::rc::Rc;
use um_falling::Work;
use um_model::Moment;
use um_name::UnitName;
use um_state::{Delta, State};
use um_wire::Refusal;

/// A state and the `Known` of its loaded tree, which includes all units that the state holds. States that follow one another share the
/// `Known`.
pub struct Served {
    state: State,
    known: Rc<Known>,
    /// The weight of both trees. A step by rows leaves the trees as they are, so it doesn't go over them.
    trees: u64,
}

impl Model for Served {
    ghost Value = { ServedView };

    ghost coded = { Prim.hlevel (codes, maps.code, tree_code) };

    ghost view = { λ s. record { state = state_of s.state; known = s.known.value } };

    ghost invariant = { λ s. IsNumberedBy s.known.value.graph.names s.state × KnowsFor s.known.value (state_of s.state) × (s.trees ≡ trees_weight (state_of s.state)) };
}

// One call for the prover, which takes a derived `Drop` apart at each exit.
impl Drop for Served {
    fn drop(self) {
        let Served {
            state: _state,
            known: _known,
            trees: _,
        } = self;
    }
}

impl Served {
    /// The state with a `Known` of just its units. Refused with too many known units (E13).
    pub fn of(alloc: Global, state: State) -> Result<Served, Refusal>
        ensures state { IfOk result (λ s. s.state ≡ state_of state) }
        ensures exact { IfOk result IsExactIfFew }
        ensures refused { RefusesBy (IsCrowded (state_of state).loaded (IsHeld (state_of state))) result }
    {
        let known = Known::of(alloc, state.loaded(), &state, None)?;
        let served = Served::numbered(state, known)?;
        Ok(served)
    }

    /// A state with the `Known` for it, and with the numbers that the units have there.
    pub fn numbered(state: State, known: Rc<Known>) -> Result<Served, AllocError>
        requires { KnowsFor known.value (state_of state) }
        ensures state { IfOk result (λ s. s.state ≡ state_of state) }
        ensures known { IfOk result (λ s. s.known ≡ known.value) }
    {
        let mut numbered = state;
        numbered.number(known.names())?;
        let trees = numbered.tree().weight() + numbered.loaded().tree.weight();
        Ok(Served {
            state: numbered,
            known,
            trees,
        })
    }

    /// Drops the `Known`, and returns the state.
    pub fn into_state(self) -> State
        ensures { state_of result ≡ self.state }
    {
        let Served {
            state,
            known: _known,
            trees: _,
        } = self;
        state
    }

    /// A work that begins in this state at the moment.
    pub fn work(&self, alloc: Global, moment: Moment) -> Result<Work<'_>, AllocError>
        ensures begins { IfOk result (λ w. w ≡ begun_at (standing_of self.now) self.now.known.graph moment) }
        ensures works { IfOk result (WorksOn self.now) }
        ensures knows { KnowsFor self.now.known self.now.state }
    {
        match Work::of(alloc, self.known.graph(), &self.state, moment)? {
            Some(work) => Ok(work),
            // the state was numbered
            None => unreachable!(),
        }
    }

    /// Exchanges the delta for what the state has in its place, which is the way back. It takes no memory, and always succeeds.
    pub fn swap(&mut self, delta: &mut Delta)
        ensures state { standing_of self.new ≡ delta_after delta.old (standing_of self.old) }
        ensures known { self.new.known ≡ self.old.known }
        ensures back { delta_before delta.new (standing_of self.new) ≡ standing_of self.old }
    {
        delta.swap(&mut self.state);
    }

    /// Takes the way back. It takes no memory, and always succeeds.
    pub fn undo(&mut self, delta: Delta)
        ensures state { standing_of self.new ≡ delta_before delta (standing_of self.old) }
        ensures known { self.new.known ≡ self.old.known }
    {
        delta.undo(&mut self.state);
    }

    /// The served state.
    pub fn state(&self) -> &State
        ensures state { state_of result.now ≡ self.now.state }
        ensures knows { KnowsFor self.now.known self.now.state }
    {
        &self.state
    }

    /// The state, with the numbers that its units have.
    pub fn standing(&self) -> &State
        ensures { result.now ≡ standing_of self.now }
    {
        &self.state
    }

    /// The weight of both trees (`Tree::weight`). It takes no memory, and goes over no tree.
    pub fn trees_weight(&self) -> u64
        ensures { result ≡ trees_weight self.now.state }
    {
        self.trees
    }

    /// The `Known` of the state.
    pub fn known(&self) -> &Known
        ensures known { result.now ≡ self.now.known }
        ensures knows { KnowsFor self.now.known self.now.state }
    {
        &self.known
    }

    /// The same `Known`, shared.
    pub fn share_known(&self) -> Result<Rc<Known>, AllocError>
        ensures known { IfOk result (λ k. k.value ≡ self.now.known) }
        ensures knows { KnowsFor self.now.known self.now.state }
    {
        self.known.clone()
    }

    /// A copy, which shares the `Known`.
    pub fn copy(&self) -> Result<Served, AllocError>
        ensures { IfOk result (λ s. standing_of s ≡ standing_of self.now) }
    {
        let state = self.state().copy()?;
        let known = self.share_known()?;
        let served = Served::numbered(state, known)?;
        Ok(served)
    }

    /// Whether the `Known` is that of just the state's units.
    fn is_exact(&self) -> bool
        ensures { IsTrue result → IsExactIfFew self.now }
    {
        self.known().fits(self.state(), None)
    }

    /// The same state with a `Known` of just its units, which is made again unless the present one is that. If too many units would be
    /// known, the present one stays; no step leads there.
    pub fn exactly(self, alloc: Global) -> Result<Served, AllocError>
        ensures state { IfOk result (λ s. s.state ≡ self.state) }
        ensures exact { IfOk result IsExactIfFew }
    {
        if self.is_exact() {
            return Ok(self);
        }
        match Known::of_held(alloc, self.state()) {
            Ok(known) => Served::numbered(self.into_state(), known),
            Err(refusal) => {
                if is_for_memory(refusal) {
                    return Err(AllocError);
                }
                Ok(self)
            }
        }
    }

    /// The `Known` with the unit that a command names: the same one if that fits. Refused with too many known units (E13).
    pub fn known_with(&self, alloc: Global, named: &UnitName) -> Result<Rc<Known>, Refusal>
        ensures knows { IfOk result (λ k. KnowsFor k.value self.now.state) }
        ensures known { IfOk result (λ k. IsGraphFor self.now.state.loaded (IsHeldOr self.now.state named.now) k.value.graph) }
        ensures refused { RefusesBy (IsCrowded self.now.state.loaded (IsHeldOr self.now.state named.now)) result }
    {
        if self.known.fits(&self.state, Some(named)) {
            return Ok(self.known.clone()?);
        }
        let known = Known::of(alloc, self.state.loaded(), &self.state, Some(named))?;
        Ok(known)
    }
}
