//! Lists: the number of items, then the items.
ghost use Rattle.std.specs.Prelude.{List, map};
ghost use Rattle.um_model.specs.Bytes.{FitList, list_spelling, list_at};
ghost use Rattle.um_model.proofs.BytesLaws.{canonical_list};

use crate::canon::Canon;
use std::alloc::{AllocError, Global};

impl<T: Canon + Drop> Canon for Vec<T> {
    ghost Value = { List T.Value };

    ghost value = { λ xs. map T.value xs.items };

    ghost fits = { FitList T.fits };

    ghost spelling = { list_spelling T.spelling };

    ghost reading = { list_at T.reading };

    fn put(&self, out: &mut Vec<u8>) -> Result<(), AllocError> {
        let Ok(len) = u32::try_from(self.len()) else {
            return Err(AllocError);
        };
        len.put(out)?;
        for item in self {
            item.put(out)?;
        }
        Ok(())
    }

    fn get(alloc: Global, bytes: &[u8]) -> Result<Option<(Vec<T>, usize)>, AllocError> {
        let Some((count, n)) = u32::get(alloc, bytes)? else {
            return Ok(None);
        };
        let mut items = Vec::new(alloc);
        let mut at = n;
        for _ in 0..count {
            let (_, rest) = bytes.split_at(at);
            match T::get(alloc, rest)? {
                Some((item, n)) => {
                    items.push(item)?;
                    at += n;
                }
                None => return Ok(None),
            }
        }
        Ok(Some((items, at)))
    }

    ghost canonical = { canonical_list T.canonical };
}
