//! Laws of served paths, as functions that do nothing.
ghost use Rattle.std.specs.Prelude.{◌≡◌, ◌↔◌, ℕ, List, Some};
ghost use Rattle.um_model.specs.Tree.{IsPathOf, PathParts, path_parts};

/// A path has these parts by the function exactly if it is the text of these parts.
pub fn a_served_path_has_its_parts()
    ensures { (path : List ℕ) (p : PathParts) → (path_parts path ≡ Some p) ↔ IsPathOf path p }
{}

/// A path is the text of one sequence of parts at most.
pub fn a_path_has_one_reading()
    ensures { (path : List ℕ) (p q : PathParts) → IsPathOf path p → IsPathOf path q → p ≡ q }
{}
