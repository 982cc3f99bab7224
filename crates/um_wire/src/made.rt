//! Values made of others: a pair, and an option.
ghost use Rattle.std.specs.Prelude.{IfSome, Option};
ghost use Rattle.std.specs.Option.{option_map};
ghost use Rattle.um_model.specs.Bytes.{pair_spelling, pair_at, option_spelling, option_at};
ghost use Rattle.um_model.proofs.BytesLaws.{canonical_pair, canonical_option};

use crate::canon::Canon;
use std::alloc::{AllocError, Global};

/// A pair: the bytes of the first, then those of the second.
impl<A: Canon + Drop, B: Canon + Drop> Canon for (A, B) {
    ghost Value = { A.Value × B.Value };

    ghost value = { λ p. (A.value p.0, B.value p.1) };

    ghost fits = { λ p. A.fits p.0 × B.fits p.1 };

    ghost spelling = { pair_spelling A.spelling B.spelling };

    ghost reading = { pair_at A.reading B.reading };

    fn put(&self, out: &mut Vec<u8>) -> Result<(), AllocError> {
        self.0.put(out)?;
        self.1.put(out)?;
        Ok(())
    }

    fn get(alloc: Global, bytes: &[u8]) -> Result<Option<((A, B), usize)>, AllocError> {
        let Some((first, n)) = A::get(alloc, bytes)? else {
            return Ok(None);
        };
        let Some((second, m)) = B::get(alloc, &bytes[n..])? else {
            return Ok(None);
        };
        Ok(Some(((first, second), n + m)))
    }

    ghost canonical = { canonical_pair A.canonical B.canonical };
}

/// 00, or 01 and the value.
impl<T: Canon + Drop> Canon for Option<T> {
    ghost Value = { Option T.Value };

    ghost value = { λ o. option_map T.value o };

    ghost fits = { λ o. IfSome o T.fits };

    ghost spelling = { option_spelling T.spelling };

    ghost reading = { option_at T.reading };

    fn put(&self, out: &mut Vec<u8>) -> Result<(), AllocError> {
        match self {
            None => {
                out.push(0)?;
                Ok(())
            }
            Some(value) => {
                out.push(1)?;
                value.put(out)
            }
        }
    }

    fn get(alloc: Global, bytes: &[u8]) -> Result<Option<(Option<T>, usize)>, AllocError> {
        match bytes {
            [0, ..] => Ok(Some((None, 1))),
            [1, rest @ ..] => match T::get(alloc, rest)? {
                Some((value, n)) => Ok(Some((Some(value), n + 1))),
                None => Ok(None),
            },
            _ => Ok(None),
        }
    }

    ghost canonical = { canonical_option T.canonical };
}
