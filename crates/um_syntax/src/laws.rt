//! Laws of the reading.

ghost use Rattle.std.specs.Prelude.{◌≡◌, ◌↔◌, ℕ, List, map};
ghost use Rattle.std.specs.List.{AllPass};
ghost use Rattle.std.specs.List.Sorted.{IsStrictlyIncreasing};
ghost use Rattle.um_model.specs.Syntax.{Placed, reading_of, line_number};
ghost use Rattle.um_model.specs.SyntaxSpellings.{IsReading, stands_well};

/// Each text has a reading.
pub fn each_text_has_a_reading()
    ensures { (text : List ℕ) → (reading : List Placed) × IsReading text reading }
{}

/// A text has one reading at most.
pub fn one_reading()
    ensures { (text : List ℕ) (a b : List Placed) → IsReading text a → IsReading text b → a ≡ b }
{}

/// The reading is the one that the functions of the definitions compute.
pub fn reading_is_computed()
    ensures { (text : List ℕ) (reading : List Placed) → IsReading text reading ↔ (reading ≡ reading_of text) }
{}

/// Items, and so warnings, are in the order of their lines, and a line has at most one.
pub fn lines_rise()
    ensures { (text : List ℕ) (reading : List Placed) → IsReading text reading →
        IsStrictlyIncreasing (map (λ p. line_number p.item) reading) }
{}

/// A head and an assignment belong to a section, and the warning of an assignment before any section belongs to none.
pub fn sections_fit()
    ensures { (text : List ℕ) (reading : List Placed) → IsReading text reading →
        AllPass (λ p. stands_well p.section p.item) reading }
{}
