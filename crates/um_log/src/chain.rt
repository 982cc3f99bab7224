//! Follows the parts of a record from sector to sector.
ghost use Rattle.std.specs.Prelude.{◌≡◌, ◌↔◌, ◌≤◌, ℕ, suc, IsTrue};
ghost use Rattle.um_log.specs.Following.{ReadsPart, Follows, IsNextPart, IsSomeWith};
ghost use Rattle.um_model.specs.Disk.{Image};

use crate::part::Part;
use crate::sectors::{GENERATION_AT, PART_BYTES, SIZE_AT, log_sector, payload};
use um_model::Format;
use um_sector::{Sector, u32_at, u64_at};

/// The byte of a sector of the log at which the number of its record begins, in eight bytes.
const NUMBER_AT: usize = 12;

/// The byte of a sector of the log at which its part begins, in four bytes.
const WHICH_AT: usize = 20;

/// The part of a record that a sector is, exactly as one is written; None if it is none of this generation or a later
/// one.
fn part_in(format: Format, least: u64, sector: &Sector) -> Option<Part>
    ensures { ReadsPart format least sector.now result }
{
    let generation = u64_at(sector, GENERATION_AT);
    let number = u64_at(sector, NUMBER_AT);
    let part = u32_at(sector, WHICH_AT);
    let size = u32_at(sector, SIZE_AT);
    if generation < least || size as usize > format.longest() || part >= size.div_ceil(PART_BYTES) {
        return None;
    }
    let payload = payload(sector, size - PART_BYTES * part);
    if *sector == log_sector(generation, number, part, size, payload) {
        Some(Part {
            generation,
            number,
            part,
            size,
        })
    } else {
        None
    }
}

/// Whether a part directly follows another one of the same record.
fn goes_on(before: Option<Part>, here: Part) -> bool
    ensures { IsTrue result ↔ IsSomeWith (λ before. IsNextPart before here) before }
{
    match before {
        Some(before) => {
            here.generation == before.generation
                && here.number == before.number
                && here.size == before.size
                && here.part > 0
                && here.part - 1 == before.part
        }
        None => false,
    }
}

/// The last of the consecutive parts that end with a sector, where this is the sector and `before` the one found at the
/// sector before it.
pub fn follow(format: Format, least: u64, before: Option<Part>, sector: &Sector) -> Option<Part>
    ensures { (image : Image) (from next : ℕ) → from ≤ next → sector.now ≡ image next → Follows format least image from next before
        → Follows format least image from (suc next) result }
{
    let here = part_in(format, least, sector)?;
    if here.part == 0 {
        return Some(here);
    }
    if goes_on(before, here) {
        Some(here)
    } else {
        None
    }
}
