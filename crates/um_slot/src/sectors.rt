//! The body sectors of a snapshot.
ghost use Rattle.std.specs.Prelude.{◌≡◌, ◌+◌, ◌^◌, ◌≤◌, length, IsTrue, OnOk};
ghost use Rattle.um_model.specs.Disk.{seen, During};
ghost use Rattle.um_model.specs.Store.{filled, sector_count};
ghost use Rattle.um_sector.specs.Unsynced.{sync_count};
ghost use Rattle.um_sector.specs.Runs.{CountsFailure, IsLaid, AfterRun, more};
ghost use Rattle.um_slot.specs.Snapshots.{part_run};

use um_sector::{Disk, Fault, Fields, SECTOR_BYTES, Sector, next_chunk};

/// A sector of these bytes.
fn sector_of(bytes: &[u8]) -> Sector
    requires { length bytes.now ≤ 512 }
    ensures { result ≡ filled bytes.now }
{
    let mut fields = Fields::new();
    fields.put(bytes);
    fields.sector()
}

/// Writes `count` sectors of a body, from sector `from` of it on, in order from sector `at` of the disk on. It takes no
/// memory. A fault where a disk call fails.
///
/// Each image that a crash leaves during it is one of before, with any of these sectors in their places; after Ok a
/// read gives them.
pub fn write_sectors<D: Disk>(
    disk: &mut D,
    at: usize,
    body: &[u8],
    from: usize,
    count: usize,
) -> Result<(), Fault>
    requires short { length body.now ≤ 2 ^ 32 }
    requires low { from + count ≤ sector_count (length body.now) }
    requires end { at + count ≤ usize.MAX }
    ensures during { IsTrue (D.honest disk.old) → During (D.past disk.old) (D.past disk.new) (AfterRun (D.past disk.old) at (part_run body.now from count)) }
    ensures ok { OnOk result (IsTrue (D.honest disk.old) → IsLaid (seen (D.past disk.old)) at (part_run body.now from count) (seen (D.past disk.new))) }
    ensures syncs { IsTrue (D.honest disk.old) → sync_count (D.past disk.new) ≡ sync_count (D.past disk.old) }
    ensures calls { D.calls disk.new ≤ D.calls disk.old + count }
    ensures all_calls { OnOk result (D.calls disk.new ≡ more (D.calls disk.old) count) }
    ensures failures { CountsFailure result (D.failures disk.old) (D.failures disk.new) }
    ensures size { D.size disk.new ≡ D.size disk.old }
    ensures honest { D.honest disk.new ≡ D.honest disk.old }
{
    let (_, mut rest) = next_chunk(body, SECTOR_BYTES * from);
    for i in 0..count {
        let (chunk, behind) = next_chunk(rest, SECTOR_BYTES);
        disk.write(at + i, &sector_of(chunk))?;
        rest = behind;
    }
    Ok(())
}
