//! Theorems about the spelling of states and inputs.

ghost use Rattle.std.specs.Prelude.{◌≡◌, ◌≢◌, ◌≤◌, ◌++◌, ℕ, List, Some, None, length};
ghost use Rattle.std.specs.List.{AllByRecursion};
ghost use Rattle.um_model.specs.Bytes.{IsBytes};
ghost use Rattle.um_model.specs.Dependencies.{CountsFor};
ghost use Rattle.um_model.specs.InputSpellings.{FitInput, input_limit, input_spelling};
ghost use Rattle.um_model.specs.Jobs.{AreTidyJobs, jobs_of_unit};
ghost use Rattle.um_model.specs.Machine as model;
ghost use Rattle.um_model.specs.Machine.{IsHeld, Run, Step, empty_of};
ghost use Rattle.um_model.specs.Refusals.{Refused};
ghost use Rattle.um_model.specs.declared.profile.Profile.{Profile};
ghost use Rattle.um_model.specs.Servable.{IsBlank};
ghost use Rattle.um_model.specs.Service.{AreTidyUnits, Action, ByUnit, state_of_unit};
ghost use Rattle.um_model.specs.StateSpellings.{FitState, state_at, state_spelling};
ghost use Rattle.um_model.specs.Weight.{weight_of};
ghost use Rattle.um_model.specs.declared.jobs.UnitJobs.{UnitJobs};
ghost use Rattle.um_model.specs.declared.service.UnitState.{UnitState};
ghost use Rattle.um_state.specs.Short.{HasShortTexts};
ghost use Rattle.um_state.specs.View.{input_of};

use crate::fitting::{event_fits, moment_fits};
use crate::input::Input;

/// Units that are tidy are the same if each stands the same.
pub fn units_are_told_apart_by_look_ups()
    ensures { (a b : ByUnit UnitState) → AreTidyUnits a → AreTidyUnits b
        → ((unit : List ℕ) → state_of_unit a unit ≡ state_of_unit b unit) → a ≡ b }
{}

/// Pending jobs that are tidy are the same if each unit has the same.
pub fn pending_jobs_are_told_apart_by_look_ups()
    ensures { (a b : ByUnit UnitJobs) → AreTidyJobs a → AreTidyJobs b
        → ((unit : List ℕ) → jobs_of_unit a unit ≡ jobs_of_unit b unit) → a ≡ b }
{}

/// A state that has a spelling is read again from it, whatever follows.
pub fn a_spelled_state_is_read_again()
    ensures { (s : model.State) (rest : List ℕ) → FitState s → state_at (state_spelling s ++ rest) ≡ Some (s, rest) }
{}

/// A state that is read stands in front of the bytes, spelled in the one way.
pub fn a_state_that_is_read_is_spelled_so()
    ensures { (bytes : List ℕ) (s : model.State) (rest : List ℕ) → IsBytes bytes → state_at bytes ≡ Some (s, rest)
        → (bytes ≡ state_spelling s ++ rest) × FitState s }
{}

/// If no state is read, then no front of the bytes spells one.
pub fn no_state_is_read_only_where_none_is()
    ensures { (bytes : List ℕ) → state_at bytes ≡ None → (s : model.State) (rest : List ℕ) → FitState s
        → bytes ≡ state_spelling s ++ rest → ⊥ }
{}

/// No spelling of a state begins another, and it spells one state.
pub fn no_spelling_of_a_state_begins_another()
    ensures { (s t : model.State) (p q : List ℕ) → FitState s → FitState t → state_spelling s ++ p ≡ state_spelling t ++ q
        → (s ≡ t) × (p ≡ q) }
{}

/// The empty state of each profile has a spelling.
pub fn the_empty_state_has_a_spelling()
    ensures { (profile : Profile) → FitState (empty_of profile) }
{}

/// Each state of a run from one that has a spelling and in which nothing is held has a spelling.
pub fn each_state_of_a_run_has_a_spelling()
    ensures { (size : ℕ) (s : model.State) (inputs : List model.Input) (t : model.State) → IsBlank s → FitState s
        → AllByRecursion FitInput inputs → Run size s inputs t → FitState t }
{}

/// The spelling of each state of such a run has at most as many bytes as the state weighs.
pub fn no_spelling_of_a_run_is_longer_than_the_weight()
    ensures { (size : ℕ) (s : model.State) (inputs : List model.Input) (t : model.State) (units : ℕ) → IsBlank s → FitState s
        → AllByRecursion FitInput inputs → Run size s inputs t → CountsFor t.loaded (IsHeld t) units
        → length (state_spelling t) ≤ weight_of t.tree t.loaded.entries units }
{}

/// Each input that can be made has a spelling, if its texts have fewer than 2^32 bytes. The function only looks at the input: its types
/// keep the bounds that the spelling needs.
pub fn each_input_has_a_spelling(input: &Input)
    ensures { HasShortTexts (input_of input.now).event → FitInput (input_of input.now) }
{
    moment_fits(input.moment);
    event_fits(&input.event);
}

/// An input that is accepted after a run from a state that has a spelling and in which nothing is held has at most 66,078 bytes.
pub fn an_accepted_input_is_short()
    ensures { (size : ℕ) (s : model.State) (inputs : List model.Input) (t u : model.State) (input : model.Input) (reply : model.Reply)
        (actions : List Action) → IsBlank s → FitState s → AllByRecursion FitInput inputs → FitInput input → Run size s inputs t
        → Step size t input reply actions u
        → ((r : Refused) → reply ≢ model.Refusal r) → length (input_spelling input) ≤ input_limit }
{}
