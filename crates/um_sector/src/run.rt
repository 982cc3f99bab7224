//! Writes runs of consecutive sectors.
ghost use Rattle.std.specs.Prelude.{◌≡◌, ◌+◌, ◌<◌, ◌≤◌, length, replicate, IsTrue, OnOk};
ghost use Rattle.um_sector.specs.Noted.{blank};
ghost use Rattle.um_model.specs.Disk.{seen, During, IsSettled};
ghost use Rattle.um_sector.specs.Runs.{more, CountsFailure, IsLaid, MaybeLaid, AfterRun};
ghost use Rattle.um_sector.specs.Unsynced.{sync_count};

use crate::disk::{Disk, Sector};
use crate::fault::Fault;
use um_model::SECTOR_BYTES;

/// Writes the sectors of a run in order, from sector `at` on. A fault where a disk call fails.
///
/// Each image that a crash leaves during it is one of before, with any of the run's sectors in their places.
pub fn write_run<D: Disk>(disk: &mut D, at: usize, run: &[Sector]) -> Result<(), Fault>
    requires { at + length run.now ≤ usize.MAX }
    ensures during { IsTrue (D.honest disk.old) → During (D.past disk.old) (D.past disk.new) (AfterRun (D.past disk.old) at run.now) }
    ensures ok { OnOk result (IsTrue (D.honest disk.old) → IsLaid (seen (D.past disk.old)) at run.now (seen (D.past disk.new))) }
    ensures calls { D.calls disk.new ≤ D.calls disk.old + length run.now }
    ensures all_calls { OnOk result (D.calls disk.new ≡ more (D.calls disk.old) (length run.now)) }
    ensures syncs { IsTrue (D.honest disk.old) → sync_count (D.past disk.new) ≡ sync_count (D.past disk.old) }
    ensures failures { CountsFailure result (D.failures disk.old) (D.failures disk.new) }
    ensures size { D.size disk.new ≡ D.size disk.old }
    ensures honest { D.honest disk.new ≡ D.honest disk.old }
{
    for (i, sector) in run.iter().enumerate() {
        disk.write(at + i, sector)?;
    }
    Ok(())
}

/// Writes the sectors of a run in order, from sector `at` on, and syncs after them. A fault where a disk call fails.
///
/// On a settled disk each image that a crash leaves during it has each sector of the run's place old or new and all
/// others as before, and after Ok only the new ones: the disk is settled again.
pub fn write_run_synced<D: Disk>(disk: &mut D, at: usize, run: &[Sector]) -> Result<(), Fault>
    requires { at + length run.now ≤ usize.MAX }
    ensures during { IsTrue (D.honest disk.old) → During (D.past disk.old) (D.past disk.new) (AfterRun (D.past disk.old) at run.now) }
    ensures settled_during { IsTrue (D.honest disk.old) → IsSettled (D.past disk.old) → During (D.past disk.old) (D.past disk.new) (MaybeLaid (seen (D.past disk.old)) at run.now) }
    ensures ok { OnOk result (IsTrue (D.honest disk.old) → IsLaid (seen (D.past disk.old)) at run.now (seen (D.past disk.new))) }
    ensures settled { OnOk result (IsTrue (D.honest disk.old) → IsSettled (D.past disk.new)) }
    ensures calls { D.calls disk.new ≤ D.calls disk.old + length run.now + 1 }
    ensures all_calls { OnOk result (D.calls disk.new ≡ more (D.calls disk.old) (length run.now + 1)) }
    ensures failures { CountsFailure result (D.failures disk.old) (D.failures disk.new) }
    ensures size { D.size disk.new ≡ D.size disk.old }
    ensures honest { D.honest disk.new ≡ D.honest disk.old }
{
    write_run(disk, at, run)?;
    disk.sync()
}

/// Writes `count` sectors of zeros, from sector `at` on. A fault where a disk call fails.
///
/// Each image that a crash leaves during it is one of before, with any of these sectors zero.
pub fn write_blank<D: Disk>(disk: &mut D, at: usize, count: usize) -> Result<(), Fault>
    requires { at + count ≤ usize.MAX }
    ensures during { IsTrue (D.honest disk.old) → During (D.past disk.old) (D.past disk.new) (AfterRun (D.past disk.old) at (replicate count blank)) }
    ensures ok { OnOk result (IsTrue (D.honest disk.old) → IsLaid (seen (D.past disk.old)) at (replicate count blank) (seen (D.past disk.new))) }
    ensures all_calls { OnOk result (D.calls disk.new ≡ more (D.calls disk.old) count) }
    ensures failures { CountsFailure result (D.failures disk.old) (D.failures disk.new) }
    ensures size { D.size disk.new ≡ D.size disk.old }
    ensures honest { D.honest disk.new ≡ D.honest disk.old }
{
    let blank: Sector = [0; SECTOR_BYTES];
    for i in 0..count {
        disk.write(at + i, &blank)?;
    }
    Ok(())
}
