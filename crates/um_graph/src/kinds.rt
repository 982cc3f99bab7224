//! Sets of dependency kinds.

ghost use Rattle.std.specs.Prelude.{⊤, ◌≡◌, ◌^◌, [], ◌∷◌, codes};
ghost use Rattle.um_graph.specs.Kinds.{has, bit_of, before_bit, after_bit, inverse_bit_of};

use bitflags::{Flag, Flags, bitflag_items};
use um_model::DependencyKind;

/// How one unit stands to another: a set of kinds, with the inverse of each (systemd.unit(5), "Mapping of unit properties to
/// their inverses").
#[derive(Clone, Copy, PartialEq, Eq, Debug)]
pub struct Kinds(pub u16);

bitflag_items! {
    impl Kinds: u16 {
        const WANTS = 1;
        const REQUIRES = 2;
        const BINDS_TO = 4;
        const PART_OF = 8;
        const CONFLICTS = 16;
        const BEFORE = 32;
        const WANTED_BY = 64;
        const REQUIRED_BY = 128;
        const BOUND_BY = 256;
        const CONSISTS_OF = 512;
        const CONFLICTED_BY = 1024;
        const AFTER = 2048;
    }
}

impl Flags for Kinds {
    type Bits = u16;

    ghost exact = { ⊤ };

    ghost table = { (codes "WANTS", 1) ∷ (codes "REQUIRES", 2) ∷ (codes "BINDS_TO", 4) ∷ (codes "PART_OF", 8) ∷ (codes "CONFLICTS", 16)
        ∷ (codes "BEFORE", 32) ∷ (codes "WANTED_BY", 64) ∷ (codes "REQUIRED_BY", 128) ∷ (codes "BOUND_BY", 256) ∷ (codes "CONSISTS_OF", 512)
        ∷ (codes "CONFLICTED_BY", 1024) ∷ (codes "AFTER", 2048) ∷ [] };

    ghost set_of = { λ k. k.0 };

    fn flags<'a>() -> &'a [Flag<Kinds>] {
        Kinds::FLAGS
    }

    fn bits(&self) -> u16 {
        self.0
    }

    fn from_bits_retain(bits: u16) -> Kinds {
        Kinds(bits)
    }
}

/// The set of this kind alone.
pub fn kinds_of(kind: DependencyKind) -> Kinds
    ensures { result.0 ≡ 2 ^ bit_of kind }
{
    match kind {
        DependencyKind::Wants => Kinds::WANTS,
        DependencyKind::Requires => Kinds::REQUIRES,
        DependencyKind::BindsTo => Kinds::BINDS_TO,
        DependencyKind::PartOf => Kinds::PART_OF,
        DependencyKind::Conflicts => Kinds::CONFLICTS,
    }
}

/// The set of the inverse of this kind alone.
pub fn inverse_of(kind: DependencyKind) -> Kinds
    ensures { result.0 ≡ 2 ^ inverse_bit_of kind }
{
    match kind {
        DependencyKind::Wants => Kinds::WANTED_BY,
        DependencyKind::Requires => Kinds::REQUIRED_BY,
        DependencyKind::BindsTo => Kinds::BOUND_BY,
        DependencyKind::PartOf => Kinds::CONSISTS_OF,
        DependencyKind::Conflicts => Kinds::CONFLICTED_BY,
    }
}

impl Kinds {
    /// Whether the kind is in the set.
    pub fn has(self, kind: DependencyKind) -> bool
        ensures { result ≡ has (bit_of kind) self }
    {
        self.contains(kinds_of(kind))
    }

    /// Whether the inverse of the kind is in the set.
    pub fn has_inverse(self, kind: DependencyKind) -> bool
        ensures { result ≡ has (inverse_bit_of kind) self }
    {
        self.contains(inverse_of(kind))
    }

    /// Whether the unit comes before the other.
    pub fn is_before(self) -> bool
        ensures { result ≡ has before_bit self }
    {
        self.contains(Kinds::BEFORE)
    }

    /// Whether the unit comes after the other.
    pub fn is_after(self) -> bool
        ensures { result ≡ has after_bit self }
    {
        self.contains(Kinds::AFTER)
    }
}
