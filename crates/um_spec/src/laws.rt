//! Consequences of the definition of specifiers, as functions that do nothing.

ghost use Rattle.std.specs.Prelude.{◌≡◌, ℕ, List};
ghost use Rattle.um_model.specs.Results.{Finds};
ghost use Rattle.um_model.specs.Specifiers.{expanded_of};
ghost use Rattle.um_model.specs.Specifiers.{IsExpanded};

/// Under a name a text stands for at most one other.
pub fn a_text_has_one_expansion()
    ensures { (name text a b : List ℕ) → IsExpanded name text a → IsExpanded name text b → a ≡ b }
{}

/// The function of the definition finds each expansion, and nothing else.
pub fn each_expansion_is_found()
    ensures { (name text : List ℕ) → Finds (expanded_of name text) (IsExpanded name text) }
{}
