//! Whole numbers, the highest byte first.
ghost use Rattle.std.specs.Prelude.{ℕ, ◌<◌, ◌^◌, ◌∷◌, []};
ghost use Rattle.byteorder.specs.Endian.{big_bytes};
ghost use Rattle.um_model.specs.Bytes.{byte_at, number_at};
ghost use Rattle.um_model.proofs.BytesLaws.{canonical8, canonical32, canonical64};

use crate::canon::Canon;
use byteorder::{BigEndian, ByteOrder};
use std::alloc::{AllocError, Global};

impl Canon for u8 {
    ghost Value = { ℕ };

    ghost value = { λ n. n };

    ghost fits = { λ n. n < 2 ^ 8 };

    ghost spelling = { λ n. n ∷ [] };

    ghost reading = { byte_at };

    fn put(&self, out: &mut Vec<u8>) -> Result<(), AllocError> {
        out.push(*self)?;
        Ok(())
    }

    fn get(_alloc: Global, bytes: &[u8]) -> Result<Option<(u8, usize)>, AllocError> {
        match bytes {
            [] => Ok(None),
            [byte, ..] => Ok(Some((*byte, 1))),
        }
    }

    ghost canonical = { canonical8 };
}

impl Canon for u32 {
    ghost Value = { ℕ };

    ghost value = { λ n. n };

    ghost fits = { λ n. n < 2 ^ 32 };

    ghost spelling = { big_bytes 4 };

    ghost reading = { number_at 4 };

    fn put(&self, out: &mut Vec<u8>) -> Result<(), AllocError> {
        let mut bytes = [0; 4];
        BigEndian::write_u32(&mut bytes, *self);
        out.extend_from_slice(&bytes)
    }

    fn get(_alloc: Global, bytes: &[u8]) -> Result<Option<(u32, usize)>, AllocError> {
        if bytes.len() < 4 {
            return Ok(None);
        }
        Ok(Some((BigEndian::read_u32(bytes), 4)))
    }

    ghost canonical = { canonical32 };
}

impl Canon for u64 {
    ghost Value = { ℕ };

    ghost value = { λ n. n };

    ghost fits = { λ n. n < 2 ^ 64 };

    ghost spelling = { big_bytes 8 };

    ghost reading = { number_at 8 };

    fn put(&self, out: &mut Vec<u8>) -> Result<(), AllocError> {
        let mut bytes = [0; 8];
        BigEndian::write_u64(&mut bytes, *self);
        out.extend_from_slice(&bytes)
    }

    fn get(_alloc: Global, bytes: &[u8]) -> Result<Option<(u64, usize)>, AllocError> {
        if bytes.len() < 8 {
            return Ok(None);
        }
        Ok(Some((BigEndian::read_u64(bytes), 8)))
    }

    ghost canonical = { canonical64 };
}
