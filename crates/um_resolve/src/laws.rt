//! A law of where names lead, as a function that does nothing.

ghost use Rattle.std.specs.Prelude.{◌≡◌, ◌↔◌, ℕ, List, true, false};
ghost use Rattle.um_model.specs.Names.{suffix_of};
ghost use Rattle.um_model.specs.Resolution.{Resolution, Nowhere, hop_limit, is_served_type, resolution_of, resolved};
ghost use Rattle.um_model.specs.Tree.{Tree};
ghost use Rattle.um_resolve.specs.Leads.{Leads};

/// A name leads to a file, a mask, a unit that needs no file, or nowhere, exactly if a chain of hops does, each by a
/// link from one name to the next of the same suffix. The chain has at most the allowed number of hops, eight for a
/// service or a target. A name of another type leads nowhere.
pub fn a_unit_is_found_by_hops()
    ensures hops { (limit : ℕ) (tree : Tree) (name : List ℕ) (end : Resolution) → (resolved limit tree name ≡ end) ↔ Leads tree limit name end }
    ensures eight { (tree : Tree) (name : List ℕ) (end : Resolution) → is_served_type (suffix_of name) ≡ true
        → (resolution_of tree name ≡ end) ↔ Leads tree hop_limit name end }
    ensures other { (tree : Tree) (name : List ℕ) → is_served_type (suffix_of name) ≡ false → resolution_of tree name ≡ Nowhere }
{}
