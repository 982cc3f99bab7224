//! Reads the slots of a store: which snapshot is the newest, and its body.
ghost use Rattle.std.specs.Prelude.{◌≡◌, ◌⊎◌, ◌↔◌, ◌+◌, ◌^◌, ◌≤◌, ℕ, length, take, IfOk, IfErr, IfSome, IsTrue};
ghost use Rattle.um_model.specs.Disk.{seen};
ghost use Rattle.um_model.specs.Store.{body_limit, sector_count, slot_start, other, joined, HasNoHeader, IsNewest};
ghost use Rattle.um_sector.specs.Refused.{CountsDevice, IsLost};
ghost use Rattle.um_slot.specs.Reading.{newer_of, Finds, IsDamaged, HasDamaged};

use crate::header::{Header, Home, read_header};
use std::alloc::Global;
use um_model::{Layout, Slot};
use um_sector::{Disk, SECTOR_BYTES, Sector};
use um_wire::Refusal;

/// The newest snapshot.
#[derive(Debug, Drop)]
pub struct Snapshot {
    pub home: Home,
    pub body: Vec<u8>,
    /// The first sector of the other slot is damaged: it is neither a header nor all zeros.
    pub is_other_damaged: bool,
}

/// Of two headers the one of the greater generation, of equal ones slot A's.
fn newer(a: Option<Header>, b: Option<Header>) -> Option<(Slot, Header)>
    ensures { result ≡ newer_of a b }
{
    match (a, b) {
        (Some(a), Some(b)) => {
            if b.generation <= a.generation {
                Some((Slot::A, a))
            } else {
                Some((Slot::B, b))
            }
        }
        (Some(a), None) => Some((Slot::A, a)),
        (None, Some(b)) => Some((Slot::B, b)),
        (None, None) => None,
    }
}

/// Whether a sector is neither a well-formed header nor all zeros.
fn is_damaged(layout: Layout, sector: &Sector) -> bool
    ensures { IsTrue result ↔ IsDamaged layout sector.now }
{
    if *sector == [0; SECTOR_BYTES] {
        return false;
    }
    read_header(layout, sector).is_none()
}

/// The newest well-formed header, and whose it is; and whether the first sector of a slot is damaged.
fn newest_header<D: Disk>(
    disk: &mut D,
    layout: Layout,
) -> Result<(Option<(Slot, Header)>, bool), Refusal>
    ensures found { IfOk result (λ found. IsTrue (D.honest disk.old) → Finds layout (seen (D.past disk.old)) found.0) }
    ensures damaged { IfOk result (λ found. IsTrue (D.honest disk.old) → (IsTrue found.1 ↔ HasDamaged layout (seen (D.past disk.old)))) }
    ensures fits { IfOk result (λ found. IfSome found.0 (λ found. found.1.size ≤ body_limit layout)) }
    ensures past { IsTrue (D.honest disk.old) → D.past disk.new ≡ D.past disk.old }
    ensures calls { D.calls disk.new ≤ D.calls disk.old + 2 }
    ensures failures { CountsDevice result (D.failures disk.old) (D.failures disk.new) }
    ensures lost { IfErr result IsLost }
    ensures size { D.size disk.new ≡ D.size disk.old }
    ensures honest { D.honest disk.new ≡ D.honest disk.old }
{
    let mut a: Sector = [0; SECTOR_BYTES];
    let mut b: Sector = [0; SECTOR_BYTES];
    disk.read(layout.slot_start(Slot::A), &mut a)?;
    disk.read(layout.slot_start(Slot::B), &mut b)?;
    let is_damaged = is_damaged(layout, &a) || is_damaged(layout, &b);
    let found = newer(read_header(layout, &a), read_header(layout, &b));
    Ok((found, is_damaged))
}

/// At most `count` bytes of a sector's front.
fn front(sector: &Sector, count: usize) -> &[u8]
    ensures { result.now ≡ take count sector.now }
{
    if count < SECTOR_BYTES {
        let (front, _) = sector.split_at(count);
        front
    } else {
        sector
    }
}

/// `size` bytes of the sectors from `at` on.
fn read_body<D: Disk>(
    alloc: Global,
    disk: &mut D,
    at: usize,
    size: usize,
) -> Result<Vec<u8>, Refusal>
    requires { at ≤ 2 ^ 32 }
    ensures long { IfOk result (λ body. length body.items ≡ size) }
    ensures calls { D.calls disk.new ≤ D.calls disk.old + sector_count size }
    ensures body { IfOk result (λ body. IsTrue (D.honest disk.old) → body.items ≡ take size (joined (sector_count size) (seen (D.past disk.old)) at)) }
    ensures past { IsTrue (D.honest disk.old) → D.past disk.new ≡ D.past disk.old }
    ensures failures { CountsDevice result (D.failures disk.old) (D.failures disk.new) }
    ensures lost { IfErr result IsLost }
    ensures size { D.size disk.new ≡ D.size disk.old }
    ensures honest { D.honest disk.new ≡ D.honest disk.old }
{
    let mut body = Vec::new(alloc);
    let mut sector: Sector = [0; SECTOR_BYTES];
    for i in 0..size.div_ceil(SECTOR_BYTES) {
        disk.read(at + i, &mut sector)?;
        body.extend_from_slice(front(&sector, size - SECTOR_BYTES * i))?;
    }
    Ok(body)
}

/// Reads both headers and takes the well-formed one of the greater generation, of equal ones slot A's, with its body.
/// Also returns whether the other slot's first sector is damaged.
///
/// E18 with sector 1 where no header is well-formed; E15; E16 where a read fails. It makes at most two disk calls more
/// than the body has sectors, and when it is refused at most two more than the longest body has.
pub fn newest<D: Disk>(alloc: Global, disk: &mut D, layout: Layout) -> Result<Snapshot, Refusal>
    ensures ok { IfOk result (λ newest. IsTrue (D.honest disk.old) → IsNewest layout (seen (D.past disk.old)) newest.home.slot newest.home.generation newest.body.items) }
    ensures damaged { IfOk result (λ newest. IsTrue (D.honest disk.old)
        → (IsTrue newest.is_other_damaged ↔ IsDamaged layout (seen (D.past disk.old) (slot_start layout (other newest.home.slot))))) }
    ensures err { IfErr result (λ e. IsLost e ⊎ ((e ≡ Refusal.Damaged 1) × (IsTrue (D.honest disk.old) → HasNoHeader layout (seen (D.past disk.old))))) }
    ensures past { IsTrue (D.honest disk.old) → D.past disk.new ≡ D.past disk.old }
    ensures calls { IfOk result (λ newest. D.calls disk.new ≤ D.calls disk.old + sector_count (length newest.body.items) + 2) }
    ensures most_calls { D.calls disk.new ≤ D.calls disk.old + layout.slot_sectors + 1 }
    ensures failures { CountsDevice result (D.failures disk.old) (D.failures disk.new) }
    ensures size { D.size disk.new ≡ D.size disk.old }
    ensures honest { D.honest disk.new ≡ D.honest disk.old }
{
    let (found, is_other_damaged) = newest_header(disk, layout)?;
    let Some((slot, header)) = found else {
        return Err(Refusal::Damaged { sector: 1 });
    };
    let at = layout.slot_start(slot) + 1;
    let body = read_body(alloc, disk, at, header.size as usize)?;
    let home = Home {
        slot,
        generation: header.generation,
    };
    Ok(Snapshot {
        home,
        body,
        is_other_damaged,
    })
}
