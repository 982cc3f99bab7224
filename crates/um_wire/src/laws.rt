//! Properties of the bytes of every type that has canonical bytes, as functions that do nothing.
ghost use Rattle.std.specs.Prelude.{◌≡◌, ◌↔◌, ◌++◌, ℕ, List, Some, None};
ghost use Rattle.um_model.specs.Bytes.{IsBytes, nothing_left};

use crate::canon::Canon;

/// A spelled value is read again, whatever follows it.
pub fn what_is_spelled_is_read_again<T: Canon>()
    ensures { (v : T.Value) (rest : List ℕ) → T.fits v → T.reading (T.spelling v ++ rest) ≡ Some (v, rest) }
{}

/// A value that is read stands in front of the bytes, in its one spelling.
pub fn what_is_read_is_spelled_so<T: Canon>()
    ensures { (bytes : List ℕ) (v : T.Value) (rest : List ℕ) → IsBytes bytes → T.reading bytes ≡ Some (v, rest) → (bytes ≡ T.spelling v ++ rest) × T.fits v }
{}

/// There is no reading only if no front of the bytes spells a value.
pub fn no_reading_only_where_none_is<T: Canon>()
    ensures { (bytes : List ℕ) → T.reading bytes ≡ None → (v : T.Value) (rest : List ℕ) → T.fits v → bytes ≡ T.spelling v ++ rest → ⊥ }
{}

/// No spelling begins another, and it spells one value.
pub fn no_spelling_begins_another<T: Canon>()
    ensures { (v w : T.Value) (r s : List ℕ) → T.fits v → T.fits w → T.spelling v ++ r ≡ T.spelling w ++ s → (v ≡ w) × (r ≡ s) }
{}

/// A value is read from bytes as a whole exactly if they are its spelling.
pub fn a_whole_is_its_spelling<T: Canon>()
    ensures { (bytes : List ℕ) (v : T.Value) → IsBytes bytes → (nothing_left (T.reading bytes) ≡ Some v) ↔ ((bytes ≡ T.spelling v) × T.fits v) }
{}
