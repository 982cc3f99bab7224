//! Texts: the number of bytes, then the bytes, in UTF-8.
ghost use Rattle.std.specs.Prelude.{◌≡◌, ◌≤◌, ◌++◌, ℕ, List, length, drop, IfSome, OnOk, OnErr};
ghost use Rattle.std.specs.Option.{option_map};
ghost use Rattle.std.specs.String.{string_bytes};
ghost use Rattle.um_model.specs.Bytes.{FitText, IsInFront, front_text as front_text_of, text_spelling, text_at};
ghost use Rattle.um_model.proofs.BytesLaws.{canonical_text};

use crate::canon::Canon;
use byteorder::{BigEndian, ByteOrder};
use std::alloc::{AllocError, Global};

/// The text of the first `len` bytes, if there are that many and they are UTF-8.
fn front_text(bytes: &[u8], len: usize) -> Option<&str>
    ensures text { option_map (λ s. s.now) result ≡ front_text_of len bytes.now }
    ensures within { IfSome result (λ _. len ≤ length bytes.now) }
{
    if bytes.len() < len {
        return None;
    }
    let (text, _) = bytes.split_at(len);
    match str::from_utf8(text) {
        Ok(text) => Some(text),
        Err(_) => None,
    }
}

/// The text in front of the bytes, and how many bytes it takes with those of its length; `None` if there is none. It
/// takes no memory.
pub fn text_in_front(bytes: &[u8]) -> Option<(&str, usize)>
    ensures read { text_at bytes.now ≡ option_map (λ x. (x.0.now, drop x.1 bytes.now)) result }
    ensures within { IfSome result (λ x. x.1 ≤ length bytes.now) }
{
    if bytes.len() < 4 {
        return None;
    }
    let len = BigEndian::read_u32(bytes) as usize;
    let (_, rest) = bytes.split_at(4);
    let text = front_text(rest, len)?;
    Some((text, 4 + len))
}

/// Appends the bytes of a text, as those of a `String`. Returns `AllocError` also for a text of 2^32 bytes or more.
pub fn put_text(text: &str, out: &mut Vec<u8>) -> Result<(), AllocError>
    ensures put { OnOk result (out.new.items ≡ out.old.items ++ text_spelling text.now) }
    ensures fits { OnOk result (FitText text.now) }
    ensures front { OnErr result (IsInFront out.old.items out.new.items) }
{
    let Ok(len) = u32::try_from(text.len()) else {
        return Err(AllocError);
    };
    len.put(out)?;
    out.extend_from_slice(text.as_bytes())?;
    Ok(())
}

impl Canon for String {
    ghost Value = { List ℕ };

    ghost value = { string_bytes };

    ghost fits = { FitText };

    ghost spelling = { text_spelling };

    ghost reading = { text_at };

    fn put(&self, out: &mut Vec<u8>) -> Result<(), AllocError> {
        put_text(self.as_str(), out)
    }

    fn get(alloc: Global, bytes: &[u8]) -> Result<Option<(String, usize)>, AllocError> {
        match text_in_front(bytes) {
            Some((text, n)) => Ok(Some((String::from_str(alloc, text)?, n))),
            None => Ok(None),
        }
    }

    ghost canonical = { canonical_text };
}
