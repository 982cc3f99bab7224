//! Theorems about the definitions of settings, of warnings and of names, as functions that do nothing.

ghost use Rattle.std.specs.Prelude.{◌≡◌, ℕ, List, is_none};
ghost use Rattle.um_model.specs.Profiles.{ReadTree};
ghost use Rattle.um_model.specs.Units.{load, name_in, unit_named, value_warning};
ghost use Rattle.um_model.specs.declared.units.ValueKind as kinds;
ghost use Rattle.um_model.specs.Units.{counts};

/// Settings and warnings read values alike: a value counts as a whole exactly if it gives no warning.
pub fn a_value_counts_or_warns()
    ensures { (unit : List ℕ) (kind : kinds.ValueKind) (value : List ℕ) → counts unit kind value ≡ is_none (value_warning unit kind value) }
{}

/// The unit that counts for a name, by where the name leads alone, is the one that is found under it.
pub fn the_unit_of_a_name_is_the_one_found()
    ensures { (tree : ReadTree) (asked : List ℕ) → unit_named tree.entries asked ≡ name_in asked (load tree asked) }
{}
