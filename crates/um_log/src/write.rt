//! Appends records to the log, each with its sync.
ghost use Rattle.std.specs.Prelude.{◌≡◌, ◌⊎◌, ◌↔◌, ◌+◌, ◌<◌, ◌≤◌, ℕ, true, false, List, [], ◌∷◌, ◌++◌, length, Ok, IfErr, IsTrue};
ghost use Rattle.um_model.specs.Disk.{seen, During, IsSettled};
ghost use Rattle.um_log.specs.Appending.{IsElsewhere};
ghost use Rattle.um_model.specs.Store.{log_start, log_end, part_count, GoesOn};
ghost use Rattle.um_log.specs.Appending.{EitherRecord};
ghost use Rattle.um_model.specs.declared.layout.Slot.{Slot};
ghost use Rattle.um_sector.specs.Refused.{CountsDevice};
ghost use Rattle.um_log.specs.Reading.{Fits};

use crate::read::fits;
use crate::sectors::{PART_BYTES, write_record_synced};
use um_model::{CURRENT, Layout};
use um_sector::Disk;
use um_wire::Refusal;

/// Where the log of a generation goes on.
#[derive(Clone, Copy, Debug)]
pub struct Log {
    pub layout: Layout,
    pub generation: u64,
    /// The number of the next record.
    pub number: u64,
    /// The first sector of the next record.
    pub next: usize,
    ghost low: { log_start layout generation + number ≤ next },
    ghost high: { next ≤ log_end layout generation },
}

impl Log {
    /// The log of a generation that has no records yet.
    pub fn new(layout: Layout, generation: u64) -> Log
        ensures of { (result.layout ≡ layout) × (result.generation ≡ generation) }
        ensures empty { (result.number ≡ 0) × (result.next ≡ log_start layout generation) }
    {
        Log {
            layout,
            generation,
            number: 0,
            next: layout.log_start(generation),
        }
    }

    /// Whether a record of `size` bytes fits: it has 1 byte at least, is no longer than the longest record, and has all
    /// its sectors in the place of the generation.
    pub fn fits(&self, size: usize) -> bool
        ensures { IsTrue result ↔ Fits self.now.layout self.now.generation self.now.next size }
    {
        fits(CURRENT, self.layout, self.generation, self.next, size)
    }

    /// Writes a record directly after those of the generation, and syncs. Returns whether it fits: if it doesn't,
    /// nothing is written.
    ///
    /// If each image is that of a store whose log goes on here, each image that a crash leaves meanwhile is that of the
    /// store with the records as they were, or with this one after them. Once it is written, each image is the latter,
    /// and the log goes on after it. No sector but those of the record is written, and the next record goes after them:
    /// so a sector of the log is written at most once a generation.
    ///
    /// E16 where a disk call fails: it takes no memory. After it, and where the record doesn't fit, the log is as
    /// before, but after E16 its sectors may have been written. It makes at most one disk call more than the record has
    /// parts.
    pub fn append<D: Disk>(&mut self, disk: &mut D, bytes: &[u8]) -> Result<bool, Refusal>
        ensures during { IsTrue (D.honest disk.old) → (slot : Slot) (newest : ℕ) (body : List ℕ) (records : List (List ℕ))
            → GoesOn self.old.layout (D.past disk.old) slot newest body records self.old.generation self.old.number self.old.next
            → During (D.past disk.old) (D.past disk.new) (EitherRecord self.old.layout slot newest body records bytes.now) }
        ensures ok { result ≡ Ok true → IsTrue (D.honest disk.old) → (slot : Slot) (newest : ℕ) (body : List ℕ) (records : List (List ℕ))
            → GoesOn self.old.layout (D.past disk.old) slot newest body records self.old.generation self.old.number self.old.next
            → GoesOn self.new.layout (D.past disk.new) slot newest body (records ++ bytes.now ∷ []) self.new.generation self.new.number self.new.next }
        ensures settled { result ≡ Ok true → IsTrue (D.honest disk.old) → IsSettled (D.past disk.new) }
        ensures elsewhere { IsTrue (D.honest disk.old) → During (D.past disk.old) (D.past disk.new)
            (IsElsewhere (D.past disk.old) self.old.next (part_count (length bytes.now))) }
        ensures read { result ≡ Ok true → IsTrue (D.honest disk.old) → (j : ℕ) → (j < self.old.next) ⊎ (self.old.next + part_count (length bytes.now) ≤ j)
            → seen (D.past disk.new) j ≡ seen (D.past disk.old) j }
        ensures next { result ≡ Ok true → (self.new.next ≡ self.old.next + part_count (length bytes.now)) × (self.new.number ≡ self.old.number + 1) }
        ensures of { (self.new.layout ≡ self.old.layout) × (self.new.generation ≡ self.old.generation) }
        ensures same { (result ≡ Ok true) ⊎ (self.new ≡ self.old) }
        ensures room { (result ≡ Ok false) ↔ ¬ (Fits self.old.layout self.old.generation self.old.next (length bytes.now)) }
        ensures unwritten { result ≡ Ok false → disk.new ≡ disk.old }
        ensures calls { D.calls disk.new ≤ D.calls disk.old + part_count (length bytes.now) + 1 }
        ensures failures { CountsDevice result (D.failures disk.old) (D.failures disk.new) }
        ensures err { IfErr result (λ e. e ≡ Refusal.Device) }
        ensures size { D.size disk.new ≡ D.size disk.old }
        ensures honest { D.honest disk.new ≡ D.honest disk.old }
    {
        if !self.fits(bytes.len()) {
            return Ok(false);
        }
        write_record_synced(disk, self.next, self.generation, self.number, bytes)?;
        *self = Log {
            layout: self.layout,
            generation: self.generation,
            number: self.number + 1,
            next: self.next + bytes.len().div_ceil(PART_BYTES as usize),
        };
        Ok(true)
    }
}
