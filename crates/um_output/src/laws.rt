//! A consequence of the definitions alone.

ghost use Rattle.std.specs.Prelude.{◌≡◌, ℕ, List, false, nat_lt, true};
ghost use Rattle.std.specs.List.{list_all, list_any};
ghost use Rattle.std.specs.Str.{IsUtf8, chars};
ghost use Rattle.um_output.specs.Showing.{misleads, shown};

/// The shown text of bytes is UTF-8 without a control character other than line feed and tab, and without a mark of
/// direction. Text of that kind is shown as it is.
pub fn what_is_printed_misleads_nobody()
    ensures text { (bytes : List ℕ) → list_all (λ b. nat_lt b 256) bytes ≡ true → IsUtf8 (shown bytes) }
    ensures plain { (bytes : List ℕ) → list_all (λ b. nat_lt b 256) bytes ≡ true → list_any misleads (chars (shown bytes)) ≡ false }
    ensures same { (text : List ℕ) → IsUtf8 text → list_any misleads (chars text) ≡ false → shown text ≡ text }
{}
