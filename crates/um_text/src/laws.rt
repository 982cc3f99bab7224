//! Laws of trimming and of texts of pieces, as functions that do nothing.

ghost use Rattle.std.specs.Prelude.{◌≡◌, ◌↔◌, ℕ, List, Some};
ghost use Rattle.um_model.specs.Pieces.{Front, begun, reading};
ghost use Rattle.um_model.specs.Pieces.{BeginsWith, StandsForText};
ghost use Rattle.um_model.specs.Text.{trim_start};
ghost use Rattle.um_model.specs.Text.{IsCutInFront, IsCutAtEnd};
ghost use Rattle.um_model.specs.FileForms.{trim_end};

/// Trimming in front cuts off whitespace and nothing else, as far as it goes.
pub fn trimming_in_front()
    ensures { (text rest : List ℕ) → IsCutInFront text rest ↔ (rest ≡ trim_start text) }
{}

/// Trimming at the end cuts off whitespace and nothing else, as far as it goes.
pub fn trimming_at_the_end()
    ensures { (text rest : List ℕ) → IsCutAtEnd text rest ↔ (rest ≡ trim_end text) }
{}

/// A text that stands for another one piece by piece, whatever the pieces, stands for at most one. The functions of
/// the definition find each beginning of a text by pieces, and each reading of it, and nothing else.
pub fn a_text_of_pieces_has_one_reading()
    ensures begins { (front : ℕ → List ℕ → Front ℕ) (text found left : List ℕ) → (begun front text ≡ Some (found, left)) ↔ BeginsWith front text found left }
    ensures reads { (front : ℕ → List ℕ → Front ℕ) (text found : List ℕ) → (reading front text ≡ Some found) ↔ StandsForText front text found }
    ensures once { (front : ℕ → List ℕ → Front ℕ) (text first second : List ℕ) → StandsForText front text first → StandsForText front text second → first ≡ second }
{}
