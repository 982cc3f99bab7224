//! The sectors of a record: their layout, and their writing.
ghost use Rattle.std.specs.Prelude.{◌≡◌, ◌+◌, ◌-◌, ◌^◌, ◌≤◌, ◌<◌, min, length, take, drop, IsTrue, OnOk};
ghost use Rattle.um_model.specs.Disk.{seen, During, IsSettled};
ghost use Rattle.um_model.specs.Store as store;
ghost use Rattle.um_model.specs.Store.{part_count};
ghost use Rattle.um_sector.specs.Runs.{CountsFailure, IsLaid, AfterRun};
ghost use Rattle.um_sector.specs.Unsynced.{sync_count};
ghost use Rattle.um_log.specs.Appending.{record_run};

use um_sector::{Disk, Fault, Fields, Sector, next_chunk};

/// The first bytes of a sector of the log.
pub const FORMAT: &[u8] = b"UMLG";

/// The byte of a sector of the log at which its generation begins, in eight bytes.
pub const GENERATION_AT: usize = 4;

/// The byte of a sector of the log at which the length of its record begins, in four bytes.
pub const SIZE_AT: usize = 28;

/// The byte of a sector of the log at which the bytes of its part begin.
const PART_AT: usize = 32;

/// The most bytes that a part of a record has: the rest of its sector.
pub const PART_BYTES: u32 = 480;

/// The sector of one part of a record of `size` bytes.
pub fn log_sector(generation: u64, number: u64, part: u32, size: u32, payload: &[u8]) -> Sector
    requires { length payload.now ≤ 480 }
    ensures { result ≡ store.log_sector generation number part size payload.now }
{
    let mut fields = Fields::new();
    fields.put(FORMAT);
    fields.put_u64(generation);
    fields.put_u64(number);
    fields.put_u32(part);
    fields.put_u32(size.div_ceil(PART_BYTES));
    fields.put_u32(size);
    fields.put(payload);
    fields.sector()
}

/// The bytes of a part, if `left` bytes of its record remain from this part on.
pub fn payload(sector: &Sector, left: u32) -> &[u8]
    ensures payload { result.now ≡ take (min 480 left) (drop 32 sector.now) }
    ensures long { length result.now ≡ min 480 left }
{
    let (_, behind) = sector.split_at(PART_AT);
    if left < PART_BYTES {
        let (payload, _) = behind.split_at(left as usize);
        payload
    } else {
        behind
    }
}

/// Writes the sectors of a record in order, from sector `at` on. A fault where a disk call fails.
///
/// Each image that a crash leaves during it is one of before, with any of these sectors in their places.
pub fn write_record<D: Disk>(
    disk: &mut D,
    at: usize,
    generation: u64,
    number: u64,
    bytes: &[u8],
) -> Result<(), Fault>
    requires short { length bytes.now < 2 ^ 32 }
    requires end { at + part_count (length bytes.now) ≤ usize.MAX }
    ensures during { IsTrue (D.honest disk.old) → During (D.past disk.old) (D.past disk.new) (AfterRun (D.past disk.old) at (record_run generation number bytes.now)) }
    ensures ok { OnOk result (IsTrue (D.honest disk.old) → IsLaid (seen (D.past disk.old)) at (record_run generation number bytes.now) (seen (D.past disk.new))) }
    ensures calls { D.calls disk.new ≤ D.calls disk.old + part_count (length bytes.now) }
    ensures syncs { IsTrue (D.honest disk.old) → sync_count (D.past disk.new) ≡ sync_count (D.past disk.old) }
    ensures failures { CountsFailure result (D.failures disk.old) (D.failures disk.new) }
    ensures size { D.size disk.new ≡ D.size disk.old }
    ensures honest { D.honest disk.new ≡ D.honest disk.old }
{
    let size = bytes.len() as u32;
    let mut rest = bytes;
    for part in 0..size.div_ceil(PART_BYTES) {
        let (chunk, behind) = next_chunk(rest, PART_BYTES as usize);
        let sector = log_sector(generation, number, part, size, chunk);
        disk.write(at + part as usize, &sector)?;
        rest = behind;
    }
    Ok(())
}

/// Writes the sectors of a record in order, from sector `at` on, and syncs after them. It takes no memory. A fault
/// where a disk call fails.
///
/// Each image that a crash leaves during it is one of before, with any of these sectors in their places; after Ok they
/// all stand there.
pub fn write_record_synced<D: Disk>(
    disk: &mut D,
    at: usize,
    generation: u64,
    number: u64,
    bytes: &[u8],
) -> Result<(), Fault>
    requires short { length bytes.now < 2 ^ 32 }
    requires end { at + part_count (length bytes.now) ≤ usize.MAX }
    ensures during { IsTrue (D.honest disk.old) → During (D.past disk.old) (D.past disk.new) (AfterRun (D.past disk.old) at (record_run generation number bytes.now)) }
    ensures ok { OnOk result (IsTrue (D.honest disk.old) → IsLaid (seen (D.past disk.old)) at (record_run generation number bytes.now) (seen (D.past disk.new))) }
    ensures settled { OnOk result (IsTrue (D.honest disk.old) → IsSettled (D.past disk.new)) }
    ensures calls { D.calls disk.new ≤ D.calls disk.old + part_count (length bytes.now) + 1 }
    ensures failures { CountsFailure result (D.failures disk.old) (D.failures disk.new) }
    ensures size { D.size disk.new ≡ D.size disk.old }
    ensures honest { D.honest disk.new ≡ D.honest disk.old }
{
    write_record(disk, at, generation, number, bytes)?;
    disk.sync()
}
