//! Types with canonical bytes.
ghost use Rattle.std.specs.Prelude.{◌≡◌, ◌≤◌, ◌++◌, ℕ, List, Option, length, drop, IfOk, IfSome, OnOk, OnErr};
ghost use Rattle.std.specs.Option.{option_map};
ghost use Rattle.um_model.specs.Bytes.{IsCanonical, IsInFront};

use std::alloc::{AllocError, Global};

/// A type whose values have canonical bytes: each value has one spelling, no spelling begins another, and any other
/// bytes have no reading.
pub trait Canon: Sized {
    /// The value, independent of its place in memory.
    ghost Value: { Type 0 };

    /// The value of an object in memory.
    ghost value: { Self → Value };

    /// Which values have a spelling.
    ghost fits: { Value → Type 0 };

    /// The bytes of a value.
    ghost spelling: { Value → List ℕ };

    /// The value in front of bytes and the bytes after it, if the front has a reading.
    ghost reading: { List ℕ → Option (Value × List ℕ) };

    /// Appends the bytes of the value. Returns `AllocError` if an allocation failed, and for a value that has no
    /// spelling, such as a text of 2^32 bytes or more. In that case the old bytes are unchanged, and any bytes may
    /// follow them.
    fn put(&self, out: &mut Vec<u8>) -> Result<(), AllocError>
        ensures put { OnOk result (out.new.items ≡ out.old.items ++ spelling (value self.now)) }

        // So it can be read again, whatever follows.
        ensures fits { OnOk result (fits (value self.now)) }
        ensures front { OnErr result (IsInFront out.old.items out.new.items) };

    /// The value in front of the bytes and its length in bytes, or `None` if no front of them spells a value. Returns
    /// `AllocError` if an allocation failed.
    fn get(alloc: Global, bytes: &[u8]) -> Result<Option<(Self, usize)>, AllocError>
        ensures read { IfOk result (λ found. reading bytes.now ≡ option_map (λ x. (value x.0, drop x.1 bytes.now)) found) }
        ensures within { IfOk result (λ found. IfSome found (λ x. x.1 ≤ length bytes.now)) };

    /// A read value is spelled so, and a spelled value is read again whatever follows.
    ghost canonical: { IsCanonical fits spelling reading };
}
