//! Writes records ahead of the sync that makes them durable.
ghost use Rattle.std.specs.Prelude.{◌≡◌, ◌⊎◌, ◌↔◌, ◌+◌, ◌<◌, ◌≤◌, ℕ, true, false, List, [], ◌∷◌, ◌++◌, length, Ok, IfErr, OnOk, IsTrue};
ghost use Rattle.um_log.specs.Ahead.{HasSome, GoesOnAhead};
ghost use Rattle.um_log.specs.Appending.{IsElsewhere};
ghost use Rattle.um_log.specs.Reading.{Fits};
ghost use Rattle.um_model.specs.Disk.{seen, During, IsSettled, one_more};
ghost use Rattle.um_model.specs.Store.{part_count, GoesOn};
ghost use Rattle.um_model.specs.declared.layout.Slot.{Slot};
ghost use Rattle.um_sector.specs.Refused.{CountsDevice};
ghost use Rattle.um_sector.specs.Unsynced.{sync_count};

use crate::sectors::{PART_BYTES, write_record};
use crate::write::Log;
use um_sector::Disk;
use um_wire::Refusal;

impl Log {
    /// Writes a record directly after those of the generation, without a sync. Returns whether it fits: if it doesn't,
    /// nothing is written.
    ///
    /// If the log goes on here, after records of which not all were synced, each image that a crash leaves meanwhile
    /// holds the synced ones and a beginning of the others with this one after them: a torn record ends the reading.
    /// Once it is written, the log goes on after it. No sector but those of the record is written.
    ///
    /// E16 where a disk call fails: it takes no memory. After it, and where the record doesn't fit, the log is as
    /// before, but after E16 its sectors may have been written. It makes at most as many disk calls as the record has
    /// parts, and none of them is a sync.
    pub fn write<D: Disk>(&mut self, disk: &mut D, bytes: &[u8]) -> Result<bool, Refusal>
        ensures during { IsTrue (D.honest disk.old) → (slot : Slot) (newest : ℕ) (body : List ℕ) (records more : List (List ℕ))
            → GoesOnAhead self.old.layout (D.past disk.old) slot newest body records more self.old.generation self.old.number self.old.next
            → During (D.past disk.old) (D.past disk.new) (HasSome self.old.layout slot newest body records (more ++ bytes.now ∷ [])) }
        ensures ok { result ≡ Ok true → IsTrue (D.honest disk.old) → (slot : Slot) (newest : ℕ) (body : List ℕ) (records more : List (List ℕ))
            → GoesOnAhead self.old.layout (D.past disk.old) slot newest body records more self.old.generation self.old.number self.old.next
            → GoesOnAhead self.new.layout (D.past disk.new) slot newest body records (more ++ bytes.now ∷ []) self.new.generation self.new.number self.new.next }
        ensures elsewhere { IsTrue (D.honest disk.old) → During (D.past disk.old) (D.past disk.new)
            (IsElsewhere (D.past disk.old) self.old.next (part_count (length bytes.now))) }
        ensures read { result ≡ Ok true → IsTrue (D.honest disk.old) → (j : ℕ) → (j < self.old.next) ⊎ (self.old.next + part_count (length bytes.now) ≤ j)
            → seen (D.past disk.new) j ≡ seen (D.past disk.old) j }
        ensures next { result ≡ Ok true → (self.new.next ≡ self.old.next + part_count (length bytes.now)) × (self.new.number ≡ self.old.number + 1) }
        ensures of { (self.new.layout ≡ self.old.layout) × (self.new.generation ≡ self.old.generation) }
        ensures same { (result ≡ Ok true) ⊎ (self.new ≡ self.old) }
        ensures room { (result ≡ Ok false) ↔ ¬ (Fits self.old.layout self.old.generation self.old.next (length bytes.now)) }
        ensures unwritten { result ≡ Ok false → disk.new ≡ disk.old }
        ensures syncs { IsTrue (D.honest disk.old) → sync_count (D.past disk.new) ≡ sync_count (D.past disk.old) }
        ensures calls { D.calls disk.new ≤ D.calls disk.old + part_count (length bytes.now) }
        ensures failures { CountsDevice result (D.failures disk.old) (D.failures disk.new) }
        ensures err { IfErr result (λ e. e ≡ Refusal.Device) }
        ensures size { D.size disk.new ≡ D.size disk.old }
        ensures honest { D.honest disk.new ≡ D.honest disk.old }
    {
        if !self.fits(bytes.len()) {
            return Ok(false);
        }
        write_record(disk, self.next, self.generation, self.number, bytes)?;
        *self = Log {
            layout: self.layout,
            generation: self.generation,
            number: self.number + 1,
            next: self.next + bytes.len().div_ceil(PART_BYTES as usize),
        };
        Ok(true)
    }

    /// Syncs, so that each record that was written is there: it is one disk call.
    ///
    /// E16 where it fails.
    pub fn flush<D: Disk>(&self, disk: &mut D) -> Result<(), Refusal>
        ensures during { IsTrue (D.honest disk.old) → (slot : Slot) (newest : ℕ) (body : List ℕ) (records more : List (List ℕ))
            → GoesOnAhead self.now.layout (D.past disk.old) slot newest body records more self.now.generation self.now.number self.now.next
            → During (D.past disk.old) (D.past disk.new) (HasSome self.now.layout slot newest body records more) }
        ensures ok { OnOk result (IsTrue (D.honest disk.old) → (slot : Slot) (newest : ℕ) (body : List ℕ) (records more : List (List ℕ))
            → GoesOnAhead self.now.layout (D.past disk.old) slot newest body records more self.now.generation self.now.number self.now.next
            → GoesOn self.now.layout (D.past disk.new) slot newest body (records ++ more) self.now.generation self.now.number self.now.next) }
        ensures settled { OnOk result (IsTrue (D.honest disk.old) → IsSettled (D.past disk.new)) }
        ensures read { OnOk result (IsTrue (D.honest disk.old) → seen (D.past disk.new) ≡ seen (D.past disk.old)) }
        ensures syncs { OnOk result (IsTrue (D.honest disk.old) → sync_count (D.past disk.new) ≡ sync_count (D.past disk.old) + 1) }
        ensures calls { D.calls disk.new ≡ one_more (D.calls disk.old) }
        ensures failures { CountsDevice result (D.failures disk.old) (D.failures disk.new) }
        ensures err { IfErr result (λ e. e ≡ Refusal.Device) }
        ensures size { D.size disk.new ≡ D.size disk.old }
        ensures honest { D.honest disk.new ≡ D.honest disk.old }
    {
        disk.sync()?;
        Ok(())
    }
}
