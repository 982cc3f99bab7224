//! Consequences of the definitions of names together, as functions that do nothing.
ghost use Rattle.std.specs.Prelude.{◌≡◌, ◌<◌, ◌↔◌, ℕ, List, All, Some, true};
ghost use Rattle.std.specs.List.{list_all};
ghost use Rattle.um_model.specs.Names.{NameParts, AreFit, IsNameOf, name_text, is_unit_name, prefix_of, instance_of, suffix_of, with_instance, is_prefix_byte, escaped};
ghost use Rattle.um_model.specs.Specifiers.{StandsForBytes};

/// A text is a unit name by the test exactly if it is the name of some parts.
pub fn a_unit_name_has_parts()
    ensures { (text : List ℕ) → (is_unit_name text ≡ true) ↔ ((p : NameParts) × IsNameOf text p) }
{}

/// A text is the name of one prefix, instance and suffix at most.
pub fn a_name_has_one_reading()
    ensures { (text : List ℕ) (p q : NameParts) → IsNameOf text p → IsNameOf text q → p ≡ q }
{}

/// Fit parts are found again in their name.
pub fn parts_are_found_in_their_name()
    ensures prefix { (p : NameParts) → AreFit p → prefix_of (name_text p) ≡ p.prefix }
    ensures instance { (p : NameParts) → AreFit p → instance_of (name_text p) ≡ p.instance }
    ensures suffix { (p : NameParts) → suffix_of (name_text p) ≡ Some p.suffix }
{}

/// A name with another instance has the same prefix and suffix.
pub fn an_instance_takes_its_place()
    ensures { (p : NameParts) (instance : List ℕ) → AreFit p
        → with_instance (name_text p) instance ≡ name_text (record p { instance = Some instance }) }
{}

/// An escaped text stands for the bytes that were escaped.
pub fn escaped_bytes_are_read_back()
    ensures { (bytes : List ℕ) → All (λ b. b < 256) bytes → StandsForBytes (escaped bytes) bytes }
{}

/// An escaped text has only bytes of a name's prefix.
pub fn an_escaped_text_fits_a_name()
    ensures { (bytes : List ℕ) → All (λ b. b < 256) bytes → list_all is_prefix_byte (escaped bytes) ≡ true }
{}

/// A text stands for one sequence of bytes at most.
pub fn an_escaped_text_has_one_reading()
    ensures { (text a b : List ℕ) → StandsForBytes text a → StandsForBytes text b → a ≡ b }
{}
