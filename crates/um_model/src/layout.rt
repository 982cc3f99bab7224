//! The layout of a store on its disk: its format, its slots and its log.

ghost use Rattle.std.specs.Prelude.{◌≡◌, ◌≤◌, ◌<◌, ◌+◌, ◌*◌, ◌-◌, ◌⊎◌, None, IfSome};

/// The size of a sector, in bytes.
pub const SECTOR_BYTES: usize = 512;

/// The least size of a slot, in sectors.
const SLOT_LEAST: u32 = 64;

/// The least size of the log, in sectors.
const LOG_LEAST: u32 = 512;

/// The greatest size of a slot and of the log, in sectors.
const SECTORS_MOST: u32 = 1 << 20;

/// The format of a store on its disk, which its sector 0 records beside the layout.
#[derive(Clone, Copy, Debug, PartialEq, Eq)]
pub enum Format {
    /// One log, for all generations. The records of the newest snapshot's generation count.
    One,
    /// Two areas of the log, which the generations take in turn. The records of the newest snapshot's generation count, and after them
    /// those of the next one.
    Two,
}

/// The format in which stores are written.
pub const CURRENT: Format = Format::Two;

/// One of the two places of a snapshot.
#[derive(Clone, Copy, Debug, PartialEq, Eq)]
pub enum Slot {
    A,
    B,
}

/// How large the parts of a store are, in sectors of 512 bytes. Sector 0 records it, then come slot A, slot B and the log.
/// A layout is always within the limits: a slot of 64 to 2^20 sectors, a log of 512 to 2^20 sectors.
#[derive(Clone, Copy, Debug)]
pub struct Layout {
    /// A slot: its header and its body.
    pub slot_sectors: u32,
    pub log_sectors: u32,
    ghost slot_least: { 64 ≤ slot_sectors },
    ghost slot_most: { slot_sectors ≤ 1048576 },
    ghost log_least: { 512 ≤ log_sectors },
    ghost log_most: { log_sectors ≤ 1048576 },
}

impl Slot {
    ghost use Rattle.um_model.specs.Store.{other};

    /// The other slot: B for A, and A for B.
    pub fn other(self) -> Slot
        ensures { result ≡ other self }
    {
        match self {
            Slot::A => Slot::B,
            Slot::B => Slot::A,
        }
    }
}

impl Format {
    ghost use Rattle.um_model.specs.Store.{longest};

    /// The longest record, in bytes.
    pub fn longest(self) -> usize
        ensures { result ≡ longest self }
    {
        match self {
            Format::One => 131_072,
            Format::Two => 122_880,
        }
    }
}

impl Layout {
    ghost use Rattle.um_model.specs.Store.{slot_start, body_limit, first_log_sector, area_sectors, area_start, area_end, log_start, log_end, record_limit, store_sectors};

    /// The layout of a store whose slots and log have these numbers of sectors; None outside the limits.
    pub fn new(slot_sectors: u32, log_sectors: u32) -> Option<Layout>
        ensures sizes { IfSome result (λ layout. (layout.slot_sectors ≡ slot_sectors) × (layout.log_sectors ≡ log_sectors)) }
        ensures none { result ≡ None → (slot_sectors < 64) ⊎ (1048576 < slot_sectors) ⊎ (log_sectors < 512) ⊎ (1048576 < log_sectors) }
    {
        let has_slot = slot_sectors >= SLOT_LEAST && slot_sectors <= SECTORS_MOST;
        let has_log = log_sectors >= LOG_LEAST && log_sectors <= SECTORS_MOST;
        if has_slot && has_log {
            Some(Layout {
                slot_sectors,
                log_sectors,
            })
        } else {
            None
        }
    }

    /// The first sector of a slot, which holds its header.
    pub fn slot_start(self, slot: Slot) -> usize
        ensures { result ≡ slot_start self slot }
    {
        match slot {
            Slot::A => 1,
            Slot::B => self.slot_sectors as usize + 1,
        }
    }

    /// The longest body of a slot, in bytes.
    pub fn body_limit(self) -> usize
        ensures { result ≡ body_limit self }
    {
        (self.slot_sectors as usize - 1) * SECTOR_BYTES
    }

    /// The first sector of the log.
    pub fn first_log_sector(self) -> usize
        ensures { result ≡ first_log_sector self }
    {
        2 * self.slot_sectors as usize + 1
    }

    /// How many sectors of the log are for the records of a generation: in format 1 all, in format 2 half of them, rounded down.
    pub fn area_sectors(self, format: Format) -> usize
        ensures { result ≡ area_sectors format self }
    {
        match format {
            Format::One => self.log_sectors as usize,
            Format::Two => (self.log_sectors / 2) as usize,
        }
    }

    /// The first sector of a generation's records: in format 1 that of the log; in format 2 an even generation has the first area, an odd
    /// one the area after it.
    pub fn area_start(self, format: Format, generation: u64) -> usize
        ensures { result ≡ area_start format self generation }
    {
        match format {
            Format::One => self.first_log_sector(),
            Format::Two => {
                self.first_log_sector() + (generation % 2) as usize * self.area_sectors(format)
            }
        }
    }

    /// The first sector past the place of a generation's records.
    pub fn area_end(self, format: Format, generation: u64) -> usize
        ensures { result ≡ area_end format self generation }
    {
        self.area_start(format, generation) + self.area_sectors(format)
    }

    /// The first sector of a generation's records in the format in which stores are written.
    pub fn log_start(self, generation: u64) -> usize
        ensures { result ≡ log_start self generation }
    {
        self.area_start(CURRENT, generation)
    }

    /// The first sector past the place of a generation's records in the format in which stores are written.
    pub fn log_end(self, generation: u64) -> usize
        ensures { result ≡ log_end self generation }
    {
        self.area_end(CURRENT, generation)
    }

    /// The longest record of a generation in the format in which stores are written, in bytes.
    pub fn record_limit(self, _generation: u64) -> usize
        ensures { result ≡ record_limit self _generation }
    {
        CURRENT.longest()
    }

    /// How many sectors the whole store has.
    pub fn sectors(self) -> usize
        ensures { result ≡ store_sectors self }
    {
        2 * self.slot_sectors as usize + 1 + self.log_sectors as usize
    }
}
