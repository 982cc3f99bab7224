//! Reads the records of a generation, up to the first that isn't whole.
ghost use Rattle.std.specs.Prelude.{◌≡◌, ◌⊎◌, ◌↔◌, ◌+◌, ◌-◌, ◌^◌, ◌<◌, ◌≤◌, ℕ, min, length, Ok, None, IfOk, IfErr, IfSome, OnOk, OnErr, IsTrue};
ghost use Rattle.um_model.specs.Disk.{seen};
ghost use Rattle.um_model.specs.Store.{part_count, area_start, area_end, HasRecords, placed};
ghost use Rattle.um_sector.specs.Refused.{CountsDevice, IsLost};
ghost use Rattle.um_sector.specs.Runs.{CountsFailure};
ghost use Rattle.um_log.specs.Reading.{ReadsRecord, ReadsNext, FitsIn, bytes_of, places_of};

use crate::sectors::{PART_BYTES, SIZE_AT, log_sector, payload};
use std::alloc::Global;
use um_model::{Format, Layout};
use um_sector::{Disk, Fault, SECTOR_BYTES, Sector, u32_at};
use um_wire::Refusal;

/// A record that was read.
#[derive(Debug, Drop)]
pub struct Record {
    /// Its first sector.
    pub first: usize,
    pub bytes: Vec<u8>,
}

/// Where the reading of a generation's records goes on.
#[derive(Clone, Copy, Debug)]
pub struct Reader {
    pub format: Format,
    pub layout: Layout,
    pub generation: u64,
    /// The number of the next record.
    pub number: u64,
    /// The first sector of the next record.
    pub next: usize,
    ghost low: { area_start format layout generation + number ≤ next },
    ghost high: { next ≤ area_end format layout generation },
}

/// Whether a record of `size` bytes is possible from a sector of a generation's place in the log on.
pub fn fits(format: Format, layout: Layout, generation: u64, next: usize, size: usize) -> bool
    requires { next ≤ area_end format layout generation }
    ensures { IsTrue result ↔ FitsIn format layout generation next size }
{
    size > 0
        && size <= format.longest()
        && size.div_ceil(PART_BYTES as usize) <= layout.area_end(format, generation) - next
}

/// Reads the sector of a part of a record; that of the first part was read before.
fn read_part<D: Disk>(disk: &mut D, at: usize, part: u32, sector: &mut Sector) -> Result<(), Fault>
    requires { at + part ≤ usize.MAX }
    ensures value { OnOk result (IsTrue (D.honest disk.old) → (part ≡ 0 → sector.old ≡ seen (D.past disk.old) at) → sector.new ≡ seen (D.past disk.old) (at + part)) }
    ensures past { IsTrue (D.honest disk.old) → D.past disk.new ≡ D.past disk.old }
    ensures calls { D.calls disk.new ≤ D.calls disk.old + min part 1 }
    ensures failures { CountsFailure result (D.failures disk.old) (D.failures disk.new) }
    ensures size { D.size disk.new ≡ D.size disk.old }
    ensures honest { D.honest disk.new ≡ D.honest disk.old }
{
    if part == 0 {
        return Ok(());
    }
    disk.read(at + part as usize, sector)
}

/// The record that begins at that sector, where it is whole. Each of its sectors is read once.
fn record_at<D: Disk>(
    alloc: Global,
    disk: &mut D,
    format: Format,
    layout: Layout,
    generation: u64,
    number: u64,
    at: usize,
) -> Result<Option<Vec<u8>>, Refusal>
    requires { at < area_end format layout generation }
    ensures found { IfOk result (λ found. IsTrue (D.honest disk.old) → ReadsRecord format layout generation (seen (D.past disk.old)) number at found) }
    ensures fits { IfOk result (λ found. IfSome found (λ bytes. FitsIn format layout generation at (length bytes.items))) }
    ensures past { IsTrue (D.honest disk.old) → D.past disk.new ≡ D.past disk.old }
    ensures calls { IfOk result (λ found. IfSome found (λ bytes. D.calls disk.new ≤ D.calls disk.old + part_count (length bytes.items))) }
    ensures most_calls { D.calls disk.new ≤ D.calls disk.old + (area_end format layout generation - at) }
    ensures failures { CountsDevice result (D.failures disk.old) (D.failures disk.new) }
    ensures lost { IfErr result IsLost }
    ensures size { D.size disk.new ≡ D.size disk.old }
    ensures honest { D.honest disk.new ≡ D.honest disk.old }
{
    let mut sector: Sector = [0; SECTOR_BYTES];
    disk.read(at, &mut sector)?;
    let size = u32_at(&sector, SIZE_AT);
    if !fits(format, layout, generation, at, size as usize) {
        return Ok(None);
    }
    let mut bytes = Vec::new(alloc);
    for part in 0..size.div_ceil(PART_BYTES) {
        read_part(disk, at, part, &mut sector)?;
        let payload = payload(&sector, size - PART_BYTES * part);
        if sector != log_sector(generation, number, part, size, payload) {
            return Ok(None);
        }
        bytes.extend_from_slice(payload)?;
    }
    Ok(Some(bytes))
}

impl Reader {
    /// Before the first record of a generation.
    pub fn new(format: Format, layout: Layout, generation: u64) -> Reader
        ensures of { (result.format ≡ format) × (result.layout ≡ layout) × (result.generation ≡ generation) }
        ensures empty { (result.number ≡ 0) × (result.next ≡ area_start format layout generation) }
    {
        Reader {
            format,
            layout,
            generation,
            number: 0,
            next: layout.area_start(format, generation),
        }
    }

    /// A reader before the first record of the next generation, whose records count too. None where these count alone:
    /// in format 1, and where there is no next generation.
    pub fn following(&self) -> Option<Reader>
        ensures some { IfSome result (λ next. (self.now.format ≡ Format.Two) × (next.format ≡ Format.Two) × (next.layout ≡ self.now.layout) × (next.generation ≡ self.now.generation + 1)) }
        ensures empty { IfSome result (λ next. (next.number ≡ 0) × (next.next ≡ area_start Format.Two self.now.layout (self.now.generation + 1))) }
        ensures none { result ≡ None → (self.now.format ≡ Format.One) ⊎ (self.now.generation ≡ 2 ^ 64 - 1) }
    {
        match self.format {
            Format::One => None,
            Format::Two => {
                if self.generation == u64::MAX {
                    return None;
                }
                Some(Reader::new(Format::Two, self.layout, self.generation + 1))
            }
        }
    }

    /// Reads the record that stands where the reading goes on, and moves past it; None where none is whole there.
    ///
    /// E15; E16 where a read fails. After each of them, and where there is none, the reader is as before. Each sector
    /// of the record is read once, and none past it.
    pub fn read_next<D: Disk>(
        &mut self,
        alloc: Global,
        disk: &mut D,
    ) -> Result<Option<Record>, Refusal>
        ensures found { IfOk result (λ found. IsTrue (D.honest disk.old) → ReadsNext self.old.format self.old.layout self.old.generation (seen (D.past disk.old)) self.old.number self.old.next found) }
        ensures first { IfOk result (λ found. IfSome found (λ r. r.first ≡ self.old.next)) }
        ensures goes { IfOk result (λ found. IfSome found (λ r. (self.new.number ≡ self.old.number + 1) × (self.new.next ≡ self.old.next + part_count (length r.bytes.items))
            × (0 < length r.bytes.items))) }
        ensures stays { result ≡ Ok None → self.new ≡ self.old }
        ensures same { OnErr result (self.new ≡ self.old) }
        ensures of { (self.new.format ≡ self.old.format) × (self.new.layout ≡ self.old.layout) × (self.new.generation ≡ self.old.generation) }
        ensures past { IsTrue (D.honest disk.old) → D.past disk.new ≡ D.past disk.old }
        ensures calls { IfOk result (λ found. IfSome found (λ r. D.calls disk.new ≤ D.calls disk.old + part_count (length r.bytes.items))) }
        ensures most_calls { D.calls disk.new ≤ D.calls disk.old + (area_end self.old.format self.old.layout self.old.generation - self.old.next) }
        ensures failures { CountsDevice result (D.failures disk.old) (D.failures disk.new) }
        ensures lost { IfErr result IsLost }
        ensures size { D.size disk.new ≡ D.size disk.old }
        ensures honest { D.honest disk.new ≡ D.honest disk.old }
    {
        let Reader {
            format,
            layout,
            generation,
            number,
            next,
            ..
        } = *self;
        if next == layout.area_end(format, generation) {
            return Ok(None);
        }
        let Some(bytes) = record_at(alloc, disk, format, layout, generation, number, next)? else {
            return Ok(None);
        };
        *self = Reader {
            format,
            layout,
            generation,
            number: number + 1,
            next: next + bytes.len().div_ceil(PART_BYTES as usize),
        };
        Ok(Some(Record { first: next, bytes }))
    }
}

/// The records of a generation, up to the first that isn't whole, each with its first sector.
///
/// E15; E16 where a read fails. It makes at most as many disk calls as the log has sectors.
pub fn scan<D: Disk>(
    alloc: Global,
    disk: &mut D,
    format: Format,
    layout: Layout,
    generation: u64,
) -> Result<Vec<Record>, Refusal>
    ensures records { IfOk result (λ records. IsTrue (D.honest disk.old) → HasRecords format layout generation (seen (D.past disk.old)) (bytes_of records.items)) }
    ensures places { IfOk result (λ records. places_of records.items ≡ placed (area_start format layout generation) (bytes_of records.items)) }
    ensures past { IsTrue (D.honest disk.old) → D.past disk.new ≡ D.past disk.old }
    ensures calls { D.calls disk.new ≤ D.calls disk.old + layout.log_sectors }
    ensures failures { CountsDevice result (D.failures disk.old) (D.failures disk.new) }
    ensures lost { IfErr result IsLost }
    ensures size { D.size disk.new ≡ D.size disk.old }
    ensures honest { D.honest disk.new ≡ D.honest disk.old }
{
    let mut records = Vec::new(alloc);
    let mut reader = Reader::new(format, layout, generation);
    while let Some(found) = reader.read_next(alloc, disk)? {
        records.push(found)?;
    }
    Ok(records)
}
