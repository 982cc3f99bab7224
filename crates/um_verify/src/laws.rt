//! Reported reasons and the definitions of loading agree: laws, as functions that do nothing.

ghost use Rattle.std.specs.Prelude.{◌≡◌, List, Option, Some, map};
ghost use Rattle.um_model.specs.Units.{Source, assignments_in};
ghost use Rattle.um_model.specs.declared.names.Suffix.{Suffix};
ghost use Rattle.um_verify.specs.Findings as model;

/// The assignments that are searched are those by which a unit is loaded, in their order.
pub fn all_assignments_are_looked_through()
    ensures { (type : Option Suffix) (sources : List Source) → assignments_in type sources ≡ map model.assigned_at (model.all_spots type sources) }
{}

/// A refused key is reported where it is refused: the first refused assignment is the first of its key that has a
/// value.
pub fn the_first_refused_key_is_told()
    ensures { (spots : List model.Spot) (s : model.Spot) → model.first_refused spots ≡ Some s → model.first_with s.key spots ≡ Some s }
{}
