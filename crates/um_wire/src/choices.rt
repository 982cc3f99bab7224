//! Choices without fields, each identified by a tag of one byte.
ghost use Rattle.std.specs.Prelude.{◌≡◌, ◌≤◌, ◌++◌, ◌∷◌, [], ℕ, Bool, Option, Some, length, drop, IfSome, OnOk, OnErr, ⊤};
ghost use Rattle.std.specs.Option.{option_map};
ghost use Rattle.std.specs.List.{slice_get};
ghost use Rattle.um_model.specs.Bytes.{IsInFront, tag_at, truth_tag, truths};
ghost use Rattle.um_model.proofs.BytesLaws.{canonical_tag, truth_again, truth_back};

use crate::canon::Canon;
use std::alloc::{AllocError, Global};

/// A choice without fields. Its type has canonical bytes by `put_tag` and `get_tag`.
pub trait Tagged: Copy {
    /// Its tag, below 256.
    ghost tag_of: { Self → ℕ };

    /// The choice of a tag, if there is one.
    ghost with_tag: { ℕ → Option Self };

    /// The tag of the choice.
    fn tag(&self) -> u8
        ensures { result ≡ tag_of self.now };

    /// The choice of the tag, or `None` if no choice has it.
    fn from_tag(tag: u8) -> Option<Self>
        ensures { result ≡ with_tag tag };

    /// The tag identifies the choice.
    ghost again: { (choice : Self) → with_tag (tag_of choice) ≡ Some choice };

    /// No other tag has the choice.
    ghost back: { (n : ℕ) (choice : Self) → with_tag n ≡ Some choice → tag_of choice ≡ n };
}

/// Appends the tag of the choice. If the allocation failed, nothing changes.
pub fn put_tag<T: Tagged>(choice: &T, out: &mut Vec<u8>) -> Result<(), AllocError>
    ensures put { OnOk result (out.new.items ≡ out.old.items ++ T.tag_of choice.now ∷ []) }
    ensures same { OnErr result (out.new.items ≡ out.old.items) }
{
    out.push(choice.tag())?;
    Ok(())
}

/// The choice whose tag is the first of the bytes, and the count of its bytes, if there is one.
pub fn get_tag<T: Tagged>(bytes: &[u8]) -> Option<(T, usize)>
    ensures read { tag_at T.with_tag bytes.now ≡ option_map (λ x. (x.0, drop x.1 bytes.now)) result }
    ensures within { IfSome result (λ x. x.1 ≤ length bytes.now) }
{
    match bytes {
        [] => None,
        [tag, ..] => {
            let choice = T::from_tag(*tag)?;
            Some((choice, 1))
        }
    }
}

/// The tags are 00 for false and 01 for true.
impl Tagged for bool {
    ghost tag_of = { truth_tag };

    ghost with_tag = { slice_get truths };

    fn tag(&self) -> u8 {
        u8::from(*self)
    }

    fn from_tag(tag: u8) -> Option<bool> {
        match tag {
            0 => Some(false),
            1 => Some(true),
            _ => None,
        }
    }

    ghost again = { truth_again };

    ghost back = { truth_back };
}

/// The tag, and nothing else.
impl<T: Tagged> Canon for T {
    ghost Value = { T };

    ghost value = { λ a. a };

    ghost fits = { λ _. ⊤ };

    ghost spelling = { λ a. T.tag_of a ∷ [] };

    ghost reading = { tag_at T.with_tag };

    fn put(&self, out: &mut Vec<u8>) -> Result<(), AllocError> {
        put_tag(self, out)
    }

    fn get(_alloc: Global, bytes: &[u8]) -> Result<Option<(T, usize)>, AllocError> {
        Ok(get_tag(bytes))
    }

    ghost canonical = { canonical_tag T.tag_of T.with_tag T.again T.back };
}
