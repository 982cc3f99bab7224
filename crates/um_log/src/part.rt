//! One part of a record, as it stands in a sector.
ghost use Rattle.std.specs.Prelude.{◌≡◌, ◌↔◌, ◌<◌, suc, IsTrue};
ghost use Rattle.um_model.specs.Store.{part_count};

use crate::sectors::PART_BYTES;

/// The fields of a part of a record.
#[derive(Clone, Copy, Debug)]
pub struct Part {
    pub generation: u64,
    pub number: u64,
    pub part: u32,
    /// The length of the whole record, in bytes.
    pub size: u32,
    ghost below: { part < part_count size },
}

impl Part {
    /// Whether it is the last part of its record.
    pub fn is_last(&self) -> bool
        ensures { IsTrue result ↔ (suc self.now.part ≡ part_count self.now.size) }
    {
        self.part + 1 == self.size.div_ceil(PART_BYTES)
    }
}
