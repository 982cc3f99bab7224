//! Consequences of the definitions of values together, as functions that do nothing.

ghost use Rattle.std.specs.Prelude.{◌≡◌, ℕ, List, Bool, Option};
ghost use Rattle.um_model.specs.Results.{Finds};
ghost use Rattle.um_model.specs.ValueSpellings.{IsBoolean, IsNumber, IsTime, IsSpan, IsExitSet};
ghost use Rattle.um_model.specs.Values.{restart_text, boolean_of, time_of, number_of, span_of, exits_of, policy_named};
ghost use Rattle.um_model.specs.declared.service.End as ends;
ghost use Rattle.um_model.specs.declared.settings.RestartPolicy as policies;

/// A text has one reading at most as a value of each kind.
pub fn a_value_has_one_reading()
    ensures boolean { (text : List ℕ) (a b : Bool) → IsBoolean text a → IsBoolean text b → a ≡ b }
    ensures number { (text : List ℕ) (a b : ℕ) → IsNumber text a → IsNumber text b → a ≡ b }
    ensures span { (text : List ℕ) (a b : Option ℕ) → IsSpan text a → IsSpan text b → a ≡ b }
    ensures exits { (text : List ℕ) (a b : ends.End → Bool) → IsExitSet text a → IsExitSet text b → (end : ends.End) → a end ≡ b end }
    ensures restart { (a b : policies.RestartPolicy) → restart_text a ≡ restart_text b → a ≡ b }
{}

/// The functions of the definitions find each reading of a text as a value, and nothing else.
pub fn each_value_is_found()
    ensures boolean { (text : List ℕ) → Finds (boolean_of text) (IsBoolean text) }
    ensures number { (text : List ℕ) → Finds (number_of text) (IsNumber text) }
    ensures span { (text : List ℕ) → Finds (span_of text) (IsSpan text) }
    ensures time { (digits unit : List ℕ) → Finds (time_of digits unit) (IsTime digits unit) }
    ensures exits { (text : List ℕ) → Finds (exits_of text) (IsExitSet text) }
    ensures restart { (text : List ℕ) → Finds (policy_named text) (λ policy. restart_text policy ≡ text) }
{}
