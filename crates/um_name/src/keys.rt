//! A unit name has the canonical bytes of its text, and is a key of maps that have canonical bytes.
ghost use Rattle.std.specs.Prelude.{ℕ, List, refl};
ghost use Rattle.um_model.specs.Bytes.{text_spelling};
ghost use Rattle.um_model.specs.Names.{is_unit_name as is_name};
ghost use Rattle.um_model.specs.Spellings.{FitUnitName, unit_name_at};
ghost use Rattle.um_model.proofs.SpellingsLaws.{canonical_unit_name};

use crate::UnitName;
use std::alloc::{AllocError, Global};
use um_wire::{Canon, Key, Refusal, put_text, text_in_front};

impl Key for UnitName {
    ghost bytes = { λ name. name };

    ghost is_key = { is_name };

    fn as_text(&self) -> &str {
        self.as_str()
    }

    fn from_text(alloc: Global, text: &str) -> Result<Option<UnitName>, AllocError> {
        match UnitName::parse(alloc, text) {
            Ok(name) => Ok(Some(name)),
            Err(Refusal::NoMemory) => Err(AllocError),
            Err(_) => Ok(None),
        }
    }

    ghost order = { λ a b. refl };
}

impl Canon for UnitName {
    ghost Value = { List ℕ };

    ghost value = { λ name. name };

    ghost fits = { FitUnitName };

    ghost spelling = { text_spelling };

    ghost reading = { unit_name_at };

    fn put(&self, out: &mut Vec<u8>) -> Result<(), AllocError> {
        put_text(self.as_str(), out)
    }

    fn get(alloc: Global, bytes: &[u8]) -> Result<Option<(UnitName, usize)>, AllocError> {
        let Some((text, n)) = text_in_front(bytes) else {
            return Ok(None);
        };
        match UnitName::named(alloc, text)? {
            Some(name) => Ok(Some((name, n))),
            None => Ok(None),
        }
    }

    ghost canonical = { canonical_unit_name };
}
