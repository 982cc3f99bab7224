//! The header of a slot.
ghost use Rattle.std.specs.Prelude.{◌≡◌};
ghost use Rattle.um_model.specs.Store as store;
ghost use Rattle.um_slot.specs.Reading.{ReadsHeader};

use um_model::{Layout, Slot};
use um_sector::{Fields, Sector, u64_at};

/// Where a snapshot stands.
#[derive(Clone, Copy, Debug, PartialEq, Eq)]
pub struct Home {
    pub slot: Slot,
    pub generation: u64,
}

impl Home {
    ghost use Rattle.um_model.specs.Store.{other};
    ghost use Rattle.std.specs.Prelude.{◌+◌, ◌-◌, ◌^◌, ◌<◌};

    /// Where the next snapshot goes: into the other slot, as the next generation.
    pub(crate) fn next(self) -> Home
        requires { self.generation < 2 ^ 64 - 1 }
        ensures { (result.slot ≡ other self.slot) × (result.generation ≡ self.generation + 1) }
    {
        Home {
            slot: self.slot.other(),
            generation: self.generation + 1,
        }
    }
}

/// The fields of a well-formed header.
#[derive(Clone, Copy)]
pub struct Header {
    pub generation: u64,
    /// The length of the body, in bytes.
    pub size: u64,
}

/// The first bytes of a header.
const FORMAT: &[u8] = b"UMSLOT01";

/// The byte of a header at which its generation begins, in eight bytes.
const GENERATION_AT: usize = 8;

/// The byte of a header at which the length of its body begins, in eight bytes.
const SIZE_AT: usize = 16;

/// The sector of a header.
pub fn header_sector(generation: u64, size: u64) -> Sector
    ensures { result ≡ store.header_sector generation size }
{
    let mut fields = Fields::new();
    fields.put(FORMAT);
    fields.put_u64(generation);
    fields.put_u64(size);
    fields.sector()
}

/// Reads a header: a sector is one if it is exactly as one is written, of a generation from 1 on, with a length that
/// fits.
pub fn read_header(layout: Layout, sector: &Sector) -> Option<Header>
    ensures { ReadsHeader layout sector.now result }
{
    let generation = u64_at(sector, GENERATION_AT);
    let size = u64_at(sector, SIZE_AT);
    if generation == 0 || size > layout.body_limit() as u64 {
        return None;
    }
    if *sector == header_sector(generation, size) {
        Some(Header { generation, size })
    } else {
        None
    }
}
