//! Builds a sector field by field, and reads its fields.
ghost use Rattle.std.specs.Prelude.{◌≡◌, ◌+◌, ◌-◌, ◌≤◌, ◌++◌, ℕ, List, [], length, take, drop, replicate};
ghost use Rattle.byteorder.specs.Endian.{big_bytes, big_number};
ghost use Rattle.um_model.specs.Store.{filled};

use crate::disk::Sector;
use byteorder::{BigEndian, ByteOrder};
use std::marker::Model;
use um_model::SECTOR_BYTES;

/// The bytes of a sector, put field after field from its front. The rest of it is zero.
#[derive(Drop)]
pub struct Fields {
    sector: Sector,
    length: usize,
}

impl Model for Fields {
    ghost Value = { List ℕ };

    ghost view = { λ f. take f.length f.sector };

    ghost invariant = { λ f. (f.length ≤ 512) × (drop f.length f.sector ≡ replicate (512 - f.length) 0) };
}

/// Puts bytes there.
fn lay(sector: &mut Sector, at: usize, bytes: &[u8])
    requires { at + length bytes.now ≤ 512 }
    ensures { sector.new ≡ take at sector.old ++ (bytes.now ++ drop (at + length bytes.now) sector.old) }
{
    sector[at..at + bytes.len()].copy_from_slice(bytes);
}

impl Fields {
    /// No fields.
    pub fn new() -> Fields
        ensures { result ≡ [] }
    {
        Fields {
            sector: [0; SECTOR_BYTES],
            length: 0,
        }
    }

    /// Puts bytes after the fields.
    pub fn put(&mut self, bytes: &[u8])
        requires { length self.old + length bytes.now ≤ 512 }
        ensures { self.new ≡ self.old ++ bytes.now }
    {
        lay(&mut self.sector, self.length, bytes);
        self.length += bytes.len();
    }

    /// Puts a number of four bytes, the highest first.
    pub fn put_u32(&mut self, number: u32)
        requires { length self.old + 4 ≤ 512 }
        ensures { self.new ≡ self.old ++ big_bytes 4 number }
    {
        let mut bytes = [0; 4];
        BigEndian::write_u32(&mut bytes, number);
        self.put(&bytes);
    }

    /// Puts a number of eight bytes, the highest first.
    pub fn put_u64(&mut self, number: u64)
        requires { length self.old + 8 ≤ 512 }
        ensures { self.new ≡ self.old ++ big_bytes 8 number }
    {
        let mut bytes = [0; 8];
        BigEndian::write_u64(&mut bytes, number);
        self.put(&bytes);
    }

    /// The sector: the fields, then zeros.
    pub fn sector(&self) -> Sector
        ensures { result ≡ filled self.now }
    {
        self.sector
    }
}

/// The number in the four bytes of a sector from `at` on, the highest first.
pub fn u32_at(sector: &Sector, at: usize) -> u32
    requires { at + 4 ≤ 512 }
    ensures { result ≡ big_number 4 (drop at sector.now) }
{
    let (_, behind) = sector.split_at(at);
    BigEndian::read_u32(behind)
}

/// The number in the eight bytes of a sector from `at` on, the highest first.
pub fn u64_at(sector: &Sector, at: usize) -> u64
    requires { at + 8 ≤ 512 }
    ensures { result ≡ big_number 8 (drop at sector.now) }
{
    let (_, behind) = sector.split_at(at);
    BigEndian::read_u64(behind)
}
