//! The id of a boot.

ghost use Rattle.std.specs.Prelude.{◌≡◌, ◌≤◌, ◌<◌, [], ℕ, List, length, string_bytes, IfOk, MatchOption};
ghost use Rattle.um_model.specs.Bytes.{text_spelling};
ghost use Rattle.um_model.specs.Machine.{boot_limit};
ghost use Rattle.um_model.specs.StateSpellings.{FitBoot, boot_at};
ghost use Rattle.um_model.proofs.StateSpellingsLaws.{canonical_boot};

use std::alloc::{AllocError, Global};
use std::marker::Model;
use um_wire::{Canon, put_text, text_in_front};

/// The greatest length of a boot's id, in bytes.
const LIMIT: usize = 64;

/// The id of a boot: a text of at most 64 bytes. The empty one is that of no boot.
#[derive(Debug, Drop)]
pub struct BootId {
    text: String,
}

impl Model for BootId {
    ghost Value = { List ℕ };

    ghost view = { λ b. string_bytes b.text };

    ghost invariant = { λ b. length (string_bytes b.text) ≤ boot_limit };
}

impl BootId {
    /// The id of no boot. It takes no memory.
    pub fn none(alloc: Global) -> BootId
        ensures { result ≡ [] }
    {
        BootId {
            text: String::new(alloc),
        }
    }

    /// The id with this text; None if that has more than 64 bytes.
    pub fn new(text: String) -> Option<BootId>
        ensures { MatchOption result (boot_limit < length (string_bytes text)) (λ b. b ≡ string_bytes text) }
    {
        if text.len() > LIMIT {
            return None;
        }
        Some(BootId { text })
    }

    /// The id's text; empty for the id of no boot.
    pub fn as_str(&self) -> &str
        ensures text { result.now ≡ self.now }
        ensures short { length self.now ≤ boot_limit }
    {
        self.text.as_str()
    }

    /// A copy of the id.
    pub fn copy(&self) -> Result<BootId, AllocError>
        ensures { IfOk result (λ b. b ≡ self.now) }
    {
        Ok(BootId {
            text: self.text.clone()?,
        })
    }
}

impl Canon for BootId {
    ghost Value = { List ℕ };

    ghost value = { λ id. id };

    ghost fits = { FitBoot };

    ghost spelling = { text_spelling };

    ghost reading = { boot_at };

    fn put(&self, out: &mut Vec<u8>) -> Result<(), AllocError> {
        put_text(self.as_str(), out)
    }

    fn get(alloc: Global, bytes: &[u8]) -> Result<Option<(BootId, usize)>, AllocError> {
        let Some((text, n)) = text_in_front(bytes) else {
            return Ok(None);
        };
        if text.len() > LIMIT {
            return Ok(None);
        }
        let text = String::from_str(alloc, text)?;
        Ok(Some((BootId { text }, n)))
    }

    ghost canonical = { canonical_boot };
}
