//! The greatest generation that stands in the log of a store.
ghost use Rattle.std.specs.Prelude.{◌≡◌, ◌⊎◌, ◌+◌, ◌*◌, ◌<◌, ◌≤◌, ℕ, Ok, None, IfOk, IfErr, IfSome, IsTrue};
ghost use Rattle.um_log.specs.Greatest.{IsTold, IsGreatestIn, IsGreatest};
ghost use Rattle.um_model.specs.Disk.{seen};
ghost use Rattle.um_model.specs.Store.{area_sectors, first_log_sector, store_sectors, top, IsOf};
ghost use Rattle.um_sector.specs.Refused.{CountsDevice};

use crate::sectors::{FORMAT, GENERATION_AT};
use um_model::{Format, Layout};
use um_sector::{Disk, SECTOR_BYTES, Sector, u64_at};
use um_wire::Refusal;

/// The generation that a sector of the log says of itself, whole or not; 0 where it says that it is none.
pub fn told_generation(sector: &Sector) -> u64
    ensures most { (theirs : ℕ) → IsOf theirs sector.now → theirs ≤ result }
    ensures told { 0 < result → IsOf result sector.now }
{
    let (name, _) = sector.split_at(FORMAT.len());
    if name == FORMAT {
        u64_at(sector, GENERATION_AT)
    } else {
        0
    }
}

/// The greater of two generations.
pub fn greater(a: u64, b: u64) -> u64
    ensures least { (a ≤ result) × (b ≤ result) }
    ensures either { (result ≡ a) ⊎ ((result ≡ b) × (a < b)) }
{
    if a < b { b } else { a }
}

/// The greater of a generation and the greatest that a sector of the log past both areas of format 2 names. There is
/// such a sector if the log has an odd number of sectors.
fn greatest_behind<D: Disk>(disk: &mut D, layout: Layout, least: u64) -> Result<u64, Refusal>
    ensures least { IfOk result (λ greatest. least ≤ greatest) }
    ensures most { IfOk result (λ greatest. IsTrue (D.honest disk.old) → (theirs j : ℕ) → first_log_sector layout + 2 * area_sectors Format.Two layout ≤ j → j < store_sectors layout
        → IsOf theirs (seen (D.past disk.old) j) → theirs ≤ greatest) }
    ensures stands { IfOk result (λ greatest. IsTrue (D.honest disk.old) → (greatest ≡ least) ⊎ IsTold layout (seen (D.past disk.old)) greatest) }
    ensures past { IsTrue (D.honest disk.old) → D.past disk.new ≡ D.past disk.old }
    ensures calls { D.calls disk.new ≤ D.calls disk.old + 1 }
    ensures failures { CountsDevice result (D.failures disk.old) (D.failures disk.new) }
    ensures err { IfErr result (λ e. e ≡ Refusal.Device) }
    ensures size { D.size disk.new ≡ D.size disk.old }
    ensures honest { D.honest disk.new ≡ D.honest disk.old }
{
    if layout.log_sectors % 2 == 0 {
        return Ok(least);
    }
    let mut sector: Sector = [0; SECTOR_BYTES];
    disk.read(layout.sectors() - 1, &mut sector)?;
    Ok(greater(least, told_generation(&sector)))
}

/// The greatest generation that stands on the disk of a store: the last that counts beside the newest snapshot, or the
/// greatest that a sector of the log says of itself, whole or not. `here` is the greatest in the place of the
/// snapshot's own generation, `behind` that in the place of the next one, where there is one. It reads the sector of
/// the log that is in neither place, where there is one.
///
/// None where the last that counts is above 2^64 - 1. E16 where the read fails.
pub fn greatest<D: Disk>(
    disk: &mut D,
    format: Format,
    layout: Layout,
    here: u64,
    behind: Option<u64>,
) -> Result<Option<u64>, Refusal>
    ensures greatest { IfOk result (λ told. IfSome told (λ greatest. IsTrue (D.honest disk.old) → (newest : ℕ) → IsGreatestIn format layout newest (seen (D.past disk.old)) here
        → IfSome behind (λ later. IsGreatestIn format layout (newest + 1) (seen (D.past disk.old)) later) → IsGreatest layout (seen (D.past disk.old)) (top format newest) greatest)) }
    ensures none { result ≡ Ok None → (format ≡ Format.Two) × (behind ≡ None) }
    ensures past { IsTrue (D.honest disk.old) → D.past disk.new ≡ D.past disk.old }
    ensures calls { D.calls disk.new ≤ D.calls disk.old + 1 }
    ensures failures { CountsDevice result (D.failures disk.old) (D.failures disk.new) }
    ensures err { IfErr result (λ e. e ≡ Refusal.Device) }
    ensures size { D.size disk.new ≡ D.size disk.old }
    ensures honest { D.honest disk.new ≡ D.honest disk.old }
{
    match (format, behind) {
        (Format::One, _) => Ok(Some(here)),
        (Format::Two, None) => Ok(None),
        (Format::Two, Some(behind)) => {
            let both = greater(here, behind);
            let all = greatest_behind(disk, layout, both)?;
            Ok(Some(all))
        }
    }
}
