//! The trait of a disk of sectors.
ghost use Rattle.std.specs.Prelude.{◌≡◌, ◌<◌, ℕ, Bool, IsTrue, OnOk};
ghost use Rattle.um_model.specs.Disk.{Past, IsImage, seen, Wrote, Synced};
ghost use Rattle.um_sector.specs.Runs.{CountsFailure};
ghost use Rattle.um_model.specs.Disk.{one_more};

use crate::fault::Fault;
use um_model::SECTOR_BYTES;

/// The bytes of a sector.
pub type Sector = [u8; SECTOR_BYTES];

/// A disk of sectors. Its behaviour is described by its history: each call is one moment, and a crash at a moment
/// leaves any of the images of that moment. A call that answers Err, and a read, may share the moment before.
///
/// The clauses on values and images stand under `honest`; those on counts always do. Both counts stay at the last value
/// of a `u64`.
pub trait Disk {
    /// The content it was made with, and the calls since.
    ghost past: { Self → Past };

    /// How many sectors it has.
    ghost size: { Self → ℕ };

    /// How many calls were made, a read and a failing one included.
    ghost calls: { Self → ℕ };

    /// How many calls failed.
    ghost failures: { Self → ℕ };

    /// It does what it answers.
    ghost honest: { Self → Bool };

    /// The number of sectors. This makes no call of the device.
    fn sectors(&self) -> usize
        ensures { result ≡ size self.now };

    /// Reads sector `k`. A sector that isn't there is a fault.
    fn read(&mut self, k: usize, sector: &mut Sector) -> Result<(), Fault>
        ensures value { OnOk result (IsTrue (honest self.old) → sector.new ≡ seen (past self.old) k) }
        ensures there { OnOk result (k < size self.old) }
        ensures past { IsTrue (honest self.old) → past self.new ≡ past self.old }
        ensures calls { calls self.new ≡ one_more (calls self.old) }
        ensures failures { CountsFailure result (failures self.old) (failures self.new) }
        ensures size { size self.new ≡ size self.old }
        ensures honest { honest self.new ≡ honest self.old };

    /// Writes sector `k`. A crash before the next sync may leave the new value or an older one, also where this fails. A
    /// sector that isn't there is a fault.
    fn write(&mut self, k: usize, sector: &Sector) -> Result<(), Fault>
        ensures past { IsTrue (honest self.old) → Wrote result (past self.old) k sector.now (past self.new) }
        ensures there { OnOk result (k < size self.old) }
        ensures calls { calls self.new ≡ one_more (calls self.old) }
        ensures failures { CountsFailure result (failures self.old) (failures self.new) }
        ensures size { size self.new ≡ size self.old }
        ensures honest { honest self.new ≡ honest self.old };

    /// Waits until the disk holds all that was written. After a fault a crash may
    /// still lose any of the writes since the last sync.
    fn sync(&mut self) -> Result<(), Fault>
        ensures past { IsTrue (honest self.old) → Synced result (past self.old) (past self.new) }
        ensures calls { calls self.new ≡ one_more (calls self.old) }
        ensures failures { CountsFailure result (failures self.old) (failures self.new) }
        ensures size { size self.new ≡ size self.old }
        ensures honest { honest self.new ≡ honest self.old };

    /// The image that a read gives is among those that a crash may leave.
    ghost seen_is_image: { (disk : Self) → IsTrue (honest disk) → IsImage (past disk) (seen (past disk)) };
}
