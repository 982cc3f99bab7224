//! Writes snapshots into the slots of a store: a part of a body, then the header that makes it count.
ghost use Rattle.std.specs.Prelude.{◌≡◌, ◌⊎◌, ◌↔◌, ◌+◌, ◌-◌, ◌<◌, ◌≤◌, ◌^◌, min, ℕ, List, [], length, true, false, Ok, Err, Some, None, IfOk, IfErr, IfSome, OnOk, IsTrue};
ghost use Rattle.um_model.specs.Disk.{Sector, seen, Images, During, IsSettled};
ghost use Rattle.um_model.specs.Store.{current, other, slot_start, body_limit, first_log_sector, log_start, sector_count, records_of, all_records, HasNoHeader, IsNewest, IsNoneAbove, IsLogEnd, GoesOn};
ghost use Rattle.um_model.specs.declared.layout.Format.{Format};
ghost use Rattle.um_slot.specs.Snapshots.{HasStore, HasNewest, EitherNewest};
ghost use Rattle.um_slot.specs.Snapshots.{IsWritten, IsBeside, IsSnapshot, MaybeSnapshot, AfterSnapshot, AfterSeal, EitherSnapshot};
ghost use Rattle.um_model.specs.declared.layout.Slot.TheVariants.{A};
ghost use Rattle.um_sector.specs.Refused.{CountsDevice};
ghost use Rattle.um_sector.specs.Runs.{more};
ghost use Rattle.um_sector.specs.Unsynced.{sync_count};

use crate::header::{Home, header_sector};
use crate::sectors::write_sectors;
use um_model::{Layout, Slot};
use um_sector::{Disk, SECTOR_BYTES, Sector, write_run_synced};
use um_wire::Refusal;

/// The lesser of two counts.
fn lesser(a: usize, b: usize) -> usize
    ensures { result ≡ min a b }
{
    if a < b { a } else { b }
}

/// Writes the next `count` sectors of a body that fits, from sector `from` of it on, or all that are left.
fn write_next<D: Disk>(
    disk: &mut D,
    layout: Layout,
    home: Home,
    body: &[u8],
    from: usize,
    count: usize,
) -> Result<(), Refusal>
    requires fits { length body.now ≤ body_limit layout }
    requires low { from ≤ sector_count (length body.now) }
    ensures during { IsTrue (D.honest disk.old) → During (D.past disk.old) (D.past disk.new) (IsBeside layout (D.past disk.old) home.slot) }
    ensures beside { OnOk result (IsTrue (D.honest disk.old) → (j : ℕ)
        → (j ≤ slot_start layout (other home.slot)) ⊎ (slot_start layout (other home.slot) + layout.slot_sectors ≤ j) → seen (D.past disk.new) j ≡ seen (D.past disk.old) j) }
    ensures written { OnOk result (IsTrue (D.honest disk.old) → IsWritten layout (seen (D.past disk.old)) (other home.slot) body.now from
        → IsWritten layout (seen (D.past disk.new)) (other home.slot) body.now (min (from + count) (sector_count (length body.now)))) }
    ensures syncs { IsTrue (D.honest disk.old) → sync_count (D.past disk.new) ≡ sync_count (D.past disk.old) }
    ensures calls { D.calls disk.new ≤ D.calls disk.old + min count (sector_count (length body.now) - from) }
    ensures all_calls { OnOk result (D.calls disk.new ≡ more (D.calls disk.old) (min count (sector_count (length body.now) - from))) }
    ensures failures { CountsDevice result (D.failures disk.old) (D.failures disk.new) }
    ensures err { IfErr result (λ e. e ≡ Refusal.Device) }
    ensures size { D.size disk.new ≡ D.size disk.old }
    ensures honest { D.honest disk.new ≡ D.honest disk.old }
{
    let left = body.len().div_ceil(SECTOR_BYTES) - from;
    let count = lesser(count, left);
    let at = layout.slot_start(home.slot.other()) + 1 + from;
    write_sectors(disk, at, body, from, count)?;
    Ok(())
}

/// Writes the next `count` sectors of a body, from sector `from` of it on, into the slot beside the one of the newest
/// snapshot. It writes all that are left if they are fewer, and none if the body has no more. It syncs nothing and
/// takes no memory. False where the body is longer than a slot holds, with nothing written.
///
/// Each image that a crash leaves during it is one of before, except for the body in that slot, which isn't read. If it
/// returns true a read gives these sectors too, and elsewhere what it gave. E16 where a disk call fails: it makes one a
/// sector at most.
pub fn write_part<D: Disk>(
    disk: &mut D,
    layout: Layout,
    home: Home,
    body: &[u8],
    from: usize,
    count: usize,
) -> Result<bool, Refusal>
    ensures during { IsTrue (D.honest disk.old) → During (D.past disk.old) (D.past disk.new) (IsBeside layout (D.past disk.old) home.slot) }
    ensures beside { OnOk result (IsTrue (D.honest disk.old) → (j : ℕ)
        → (j ≤ slot_start layout (other home.slot)) ⊎ (slot_start layout (other home.slot) + layout.slot_sectors ≤ j) → seen (D.past disk.new) j ≡ seen (D.past disk.old) j) }
    ensures written { result ≡ Ok true → IsTrue (D.honest disk.old) → IsWritten layout (seen (D.past disk.old)) (other home.slot) body.now from
        → IsWritten layout (seen (D.past disk.new)) (other home.slot) body.now (min (from + count) (sector_count (length body.now))) }
    ensures long { (result ≡ Ok false) ↔ (body_limit layout < length body.now) }
    ensures unwritten { result ≡ Ok false → disk.new ≡ disk.old }
    ensures syncs { IsTrue (D.honest disk.old) → sync_count (D.past disk.new) ≡ sync_count (D.past disk.old) }
    ensures calls { D.calls disk.new ≤ D.calls disk.old + min count (sector_count (length body.now) - from) }
    ensures all_calls { result ≡ Ok true → D.calls disk.new ≡ more (D.calls disk.old) (min count (sector_count (length body.now) - from)) }
    ensures failures { CountsDevice result (D.failures disk.old) (D.failures disk.new) }
    ensures err { IfErr result (λ e. e ≡ Refusal.Device) }
    ensures size { D.size disk.new ≡ D.size disk.old }
    ensures honest { D.honest disk.new ≡ D.honest disk.old }
{
    if body.len() > layout.body_limit() {
        return Ok(false);
    }
    let from = lesser(from, body.len().div_ceil(SECTOR_BYTES));
    write_next(disk, layout, home, body, from, count)?;
    Ok(true)
}

/// Syncs, and writes the header of a body into a slot, in which a read gives the whole body, and syncs.
fn seal<D: Disk>(disk: &mut D, layout: Layout, to: Home, size: usize) -> Result<(), Refusal>
    requires fits { size ≤ body_limit layout }
    ensures during { IsTrue (D.honest disk.old) → (body : List ℕ) → length body ≡ size → IsWritten layout (seen (D.past disk.old)) to.slot body (sector_count size)
        → During (D.past disk.old) (D.past disk.new) (AfterSeal layout (D.past disk.old) to.slot to.generation body) }
    ensures written { OnOk result (IsTrue (D.honest disk.old) → (body : List ℕ) → length body ≡ size → IsWritten layout (seen (D.past disk.old)) to.slot body (sector_count size)
        → IsSnapshot layout (seen (D.past disk.new)) to.slot to.generation body) }
    ensures same { OnOk result (IsTrue (D.honest disk.old) → (j : ℕ) → (j < slot_start layout to.slot) ⊎ (slot_start layout to.slot + 1 ≤ j)
        → seen (D.past disk.new) j ≡ seen (D.past disk.old) j) }
    ensures beside { OnOk result (IsTrue (D.honest disk.old) → (body : List ℕ) → length body ≡ size → IsWritten layout (seen (D.past disk.old)) to.slot body (sector_count size)
        → MaybeSnapshot layout (seen (D.past disk.old)) to.slot to.generation body (seen (D.past disk.new))) }
    ensures settled { OnOk result (IsTrue (D.honest disk.old) → IsSettled (D.past disk.new)) }
    ensures calls { D.calls disk.new ≤ D.calls disk.old + 3 }
    ensures all_calls { OnOk result (D.calls disk.new ≡ more (D.calls disk.old) 3) }
    ensures failures { CountsDevice result (D.failures disk.old) (D.failures disk.new) }
    ensures lost { IfErr result (λ e. e ≡ Refusal.Device) }
    ensures size { D.size disk.new ≡ D.size disk.old }
    ensures honest { D.honest disk.new ≡ D.honest disk.old }
{
    // The body is on the disk before a header names it.
    disk.sync()?;
    let header: [Sector; 1] = [header_sector(to.generation, size as u64)];
    write_run_synced(disk, layout.slot_start(to.slot), &header)?;
    Ok(())
}

/// Makes a body count that stands in the slot beside the one of the newest snapshot, with all of its sectors: a sync,
/// its header as the next generation, a sync. Returns where it stands; None where the body is longer than a slot holds,
/// with nothing written.
///
/// Suppose a read gives the whole body, and each image is that of a store whose newest snapshot is at `home`. Then each
/// image that a crash leaves meanwhile is that of the store of an image of before, or of the store with this body and
/// the records that a read gave beside it. After Ok it is the latter, and its log goes on where that of the generation
/// after `home` did.
///
/// The generation at `home` may be above that of the newest snapshot, which stands in its slot: then no sector of the
/// log is of a generation above it. Meanwhile the newest snapshot and the log are those of an image of before, or this
/// body stands there and no record counts; after Ok it is the latter. That is so in each format in which the store may
/// be.
///
/// E20 where the generation is 2^64 - 1, whatever the body, with nothing written; E16 where a disk call fails: it takes
/// no memory. It makes at most three disk calls, and exactly three if it returns a home.
pub fn finish<D: Disk>(
    disk: &mut D,
    layout: Layout,
    home: Home,
    size: usize,
) -> Result<Option<Home>, Refusal>
    ensures during { IsTrue (D.honest disk.old) → (before body : List ℕ) → length body ≡ size → IsWritten layout (seen (D.past disk.old)) (other home.slot) body (sector_count size)
        → Images (D.past disk.old) (HasStore layout home.slot home.generation before)
        → During (D.past disk.old) (D.past disk.new) (EitherSnapshot layout (D.past disk.old) home.slot home.generation before body) }
    ensures ok { IfOk result (λ to. IfSome to (λ to. IsTrue (D.honest disk.old) → (before body : List ℕ) → length body ≡ size
        → IsWritten layout (seen (D.past disk.old)) (other home.slot) body (sector_count size)
        → Images (D.past disk.old) (HasStore layout home.slot home.generation before)
        → (number next : ℕ) → IsLogEnd layout to.generation (seen (D.past disk.old)) (records_of current layout to.generation (seen (D.past disk.old))) number next
        → GoesOn layout (D.past disk.new) to.slot to.generation body (all_records current layout to.generation (seen (D.past disk.old))) to.generation number next)) }
    ensures during_newest { IsTrue (D.honest disk.old) → (format : Format) (newest : ℕ) (before body : List ℕ) → newest ≤ home.generation → length body ≡ size
        → IsWritten layout (seen (D.past disk.old)) (other home.slot) body (sector_count size)
        → Images (D.past disk.old) (HasNewest format layout home.slot newest before home.generation)
        → During (D.past disk.old) (D.past disk.new) (EitherNewest format layout (D.past disk.old) home.slot newest before home.generation body) }
    ensures ok_newest { IfOk result (λ to. IfSome to (λ to. IsTrue (D.honest disk.old) → (newest : ℕ) (before body : List ℕ) → newest ≤ home.generation → length body ≡ size
        → IsWritten layout (seen (D.past disk.old)) (other home.slot) body (sector_count size)
        → Images (D.past disk.old) (HasNewest current layout home.slot newest before home.generation)
        → GoesOn layout (D.past disk.new) to.slot to.generation body [] to.generation 0 (log_start layout to.generation))) }
    ensures renewed { IfOk result (λ to. IfSome to (λ to. IsTrue (D.honest disk.old) → (format : Format) (newest : ℕ) (before body : List ℕ) → newest ≤ home.generation
        → length body ≡ size → IsWritten layout (seen (D.past disk.old)) (other home.slot) body (sector_count size)
        → Images (D.past disk.old) (HasNewest format layout home.slot newest before home.generation)
        → Images (D.past disk.new) (HasNewest format layout to.slot to.generation body home.generation))) }
    ensures log { IfOk result (λ to. IfSome to (λ _. IsTrue (D.honest disk.old) → (j : ℕ) → first_log_sector layout ≤ j → seen (D.past disk.new) j ≡ seen (D.past disk.old) j)) }
    ensures settled { IfOk result (λ to. IfSome to (λ _. IsTrue (D.honest disk.old) → IsSettled (D.past disk.new))) }
    ensures home { IfOk result (λ to. IfSome to (λ to. (to.slot ≡ other home.slot) × (to.generation ≡ home.generation + 1))) }
    ensures spent { (result ≡ Err Refusal.GenerationsSpent) ↔ (home.generation ≡ 2 ^ 64 - 1) }
    ensures long { (result ≡ Ok None) ↔ ((home.generation < 2 ^ 64 - 1) × (body_limit layout < size)) }
    ensures unwritten { result ≡ Ok None → disk.new ≡ disk.old }
    ensures kept { IfErr result (λ e. (e ≡ Refusal.Device) ⊎ (disk.new ≡ disk.old)) }
    ensures calls { D.calls disk.new ≤ D.calls disk.old + 3 }
    ensures all_calls { IfOk result (λ to. IfSome to (λ _. D.calls disk.new ≡ more (D.calls disk.old) 3)) }
    ensures failures { CountsDevice result (D.failures disk.old) (D.failures disk.new) }
    ensures err { IfErr result (λ e. (e ≡ Refusal.Device) ⊎ (e ≡ Refusal.GenerationsSpent)) }
    ensures size { D.size disk.new ≡ D.size disk.old }
    ensures honest { D.honest disk.new ≡ D.honest disk.old }
{
    if home.generation == u64::MAX {
        return Err(Refusal::GenerationsSpent);
    }
    if size > layout.body_limit() {
        return Ok(None);
    }
    let to = home.next();
    seal(disk, layout, to, size)?;
    Ok(Some(to))
}

/// Writes a whole body into the other slot and syncs, then its header as the next generation, and syncs.
fn write_slot<D: Disk>(
    disk: &mut D,
    layout: Layout,
    last: Home,
    body: &[u8],
) -> Result<Home, Refusal>
    requires early { last.generation < 2 ^ 64 - 1 }
    requires fits { length body.now ≤ body_limit layout }
    ensures during { IsTrue (D.honest disk.old) → During (D.past disk.old) (D.past disk.new) (AfterSnapshot layout (D.past disk.old) (other last.slot) (last.generation + 1) body.now) }
    ensures written { OnOk result (IsTrue (D.honest disk.old) → IsSnapshot layout (seen (D.past disk.new)) (other last.slot) (last.generation + 1) body.now) }
    ensures beside { OnOk result (IsTrue (D.honest disk.old) → MaybeSnapshot layout (seen (D.past disk.old)) (other last.slot) (last.generation + 1) body.now (seen (D.past disk.new))) }
    ensures settled { OnOk result (IsTrue (D.honest disk.old) → IsSettled (D.past disk.new)) }
    ensures home { IfOk result (λ to. (to.slot ≡ other last.slot) × (to.generation ≡ last.generation + 1)) }
    ensures calls { D.calls disk.new ≤ D.calls disk.old + sector_count (length body.now) + 3 }
    ensures all_calls { OnOk result (D.calls disk.new ≡ more (D.calls disk.old) (sector_count (length body.now) + 3)) }
    ensures failures { CountsDevice result (D.failures disk.old) (D.failures disk.new) }
    ensures lost { IfErr result (λ e. e ≡ Refusal.Device) }
    ensures size { D.size disk.new ≡ D.size disk.old }
    ensures honest { D.honest disk.new ≡ D.honest disk.old }
{
    write_next(disk, layout, last, body, 0, usize::MAX)?;
    let to = last.next();
    seal(disk, layout, to, body.len())?;
    Ok(to)
}

/// Writes a body as generation 1 into slot A, where no store stands yet: the body, a sync, then its header, a sync.
/// Returns where it stands; None where the body is longer than a slot holds, with nothing written.
///
/// If all images have the same sector 0, no image that a crash leaves meanwhile has another. After Ok, if a read gave
/// no header and no sector of the log before, the body is the newest and the log is free.
///
/// E16 where a disk call fails: it takes no memory. It makes at most three disk calls more than the body has sectors,
/// and exactly that number if it writes it.
pub fn write_first<D: Disk>(
    disk: &mut D,
    layout: Layout,
    body: &[u8],
) -> Result<Option<Home>, Refusal>
    ensures during { IsTrue (D.honest disk.old) → (first : Sector) → Images (D.past disk.old) (λ image. image 0 ≡ first)
        → During (D.past disk.old) (D.past disk.new) (λ image. image 0 ≡ first) }
    ensures ok { IfOk result (λ to. IfSome to (λ _. IsTrue (D.honest disk.old) → HasNoHeader layout (seen (D.past disk.old)) → IsNoneAbove layout (seen (D.past disk.old)) 0
        → IsNewest layout (seen (D.past disk.new)) A 1 body.now × IsNoneAbove layout (seen (D.past disk.new)) 0)) }
    ensures settled { IfOk result (λ to. IfSome to (λ _. IsTrue (D.honest disk.old) → IsSettled (D.past disk.new))) }
    ensures home { IfOk result (λ to. IfSome to (λ home. (home.slot ≡ A) × (home.generation ≡ 1))) }
    ensures long { (result ≡ Ok None) ↔ (body_limit layout < length body.now) }
    ensures unwritten { result ≡ Ok None → disk.new ≡ disk.old }
    ensures calls { D.calls disk.new ≤ D.calls disk.old + sector_count (length body.now) + 3 }
    ensures all_calls { IfOk result (λ to. IfSome to (λ _. D.calls disk.new ≡ more (D.calls disk.old) (sector_count (length body.now) + 3))) }
    ensures failures { CountsDevice result (D.failures disk.old) (D.failures disk.new) }
    ensures err { IfErr result (λ e. e ≡ Refusal.Device) }
    ensures size { D.size disk.new ≡ D.size disk.old }
    ensures honest { D.honest disk.new ≡ D.honest disk.old }
{
    if body.len() > layout.body_limit() {
        return Ok(None);
    }
    let last = Home {
        slot: Slot::B,
        generation: 0,
    };
    let home = write_slot(disk, layout, last, body)?;
    Ok(Some(home))
}
