//! A disk in memory, which can leave any image that a crash may leave.
ghost use Rattle.std.specs.Prelude.{◌≡◌, ◌≢◌, ◌-◌, ◌<◌, ◌≤◌, ℕ, [], ◌∷◌, length, true, map, take, drop, replicate, slice_index_or, IfOk};
ghost use Rattle.um_model.specs.Disk as model;
ghost use Rattle.um_sector.specs.Unsynced as syncs;
ghost use Rattle.um_model.specs.Disk.{seen, Wrote, Synced};
ghost use Rattle.um_sector.specs.Runs.{CountsFailure};
ghost use Rattle.um_model.specs.Disk.{one_more};
ghost use Rattle.um_sector.specs.Left.{IsLeftBy};
ghost use Rattle.um_sector.specs.Noted.{past_of, blank, seen_is_image, is_write_within};
ghost use Rattle.std.specs.List.{range_with_len, AllPass};

use crate::disk::{Disk, Sector};
use crate::fault::Fault;
use crate::noted::Noted;
use std::alloc::{AllocError, Global};
use um_model::SECTOR_BYTES;

/// A disk in memory that keeps each of its calls, so that each image that a crash may leave can be taken from it. It is
/// honest. A call that finds no memory for its note fails and is not made, so that nothing is ever missing from the notes.
pub struct MemDisk {
    /// The content it was made with.
    start: Vec<Sector>,
    /// The sectors that a read gives.
    held: Vec<Sector>,
    /// The sectors that a read gave at the last sync, or at the start.
    synced: Vec<Sector>,
    /// Its writes and syncs that answered Ok, the oldest first.
    noted: Vec<Noted>,
    /// The number of notes up to the last sync, that one included; those after it are writes.
    since: usize,
    calls: u64,
    failures: u64,
    ghost same_size: { (length held.items ≡ length start.items) × (length synced.items ≡ length start.items) },
    ghost shown: { (k : ℕ) → slice_index_or held.items k [] ≡ seen (past_of start.items noted.items) k },
    ghost noted_since: { since ≤ length noted.items },
    ghost at_sync: { (k : ℕ) → model.candidates (past_of start.items (take since noted.items)) k ≡ slice_index_or synced.items k [] ∷ [] },
    ghost behind: { AllPass (is_write_within (length start.items)) (drop since noted.items) },
}

// One call, where a derived one is taken apart at each exit.
impl Drop for MemDisk {
    fn drop(self) {
        let MemDisk {
            start: _start,
            held: _held,
            synced: _synced,
            noted: _noted,
            since: _,
            calls: _,
            failures: _,
        } = self;
    }
}

/// `count` sectors of zeros.
fn blank_sectors(alloc: Global, count: usize) -> Result<Vec<Sector>, AllocError>
    ensures { IfOk result (λ v. v.items ≡ replicate count blank) }
{
    let blank: Sector = [0; SECTOR_BYTES];
    let mut sectors = Vec::new(alloc);
    for _ in 0..count {
        sectors.push(blank)?;
    }
    Ok(sectors)
}

/// The pick at that turn; 0 where it is missing.
fn pick_at(picks: &[usize], turn: usize) -> usize
    ensures { result ≡ slice_index_or picks.now turn 0 }
{
    if turn < picks.len() { picks[turn] } else { 0 }
}

/// Makes these writes.
fn replay(sectors: &mut [Sector], calls: &[Noted])
    requires { AllPass (is_write_within (length sectors.now)) calls.now }
    ensures shown { (k : ℕ) → slice_index_or sectors.new k [] ≡ seen (past_of sectors.old calls.now) k }
    ensures long { length sectors.new ≡ length sectors.old }
{
    for call in calls {
        if let Noted::Write { k, value } = call {
            sectors[*k] = *value;
        }
    }
}

/// Counts one off, and takes the value if that was the last one.
fn take_turn(left: &mut usize, sector: &mut Sector, value: &Sector)
    ensures left { left.new ≡ left.old - 1 }
    ensures last { left.old ≡ 1 → sector.new ≡ value.now }
    ensures other { left.old ≢ 1 → sector.new ≡ sector.old }
{
    if *left == 1 {
        *sector = *value;
    }
    *left = left.saturating_sub(1);
}

impl MemDisk {
    ghost use Rattle.um_sector.specs.Memory.{history};

    /// A disk of zeros.
    pub fn new(alloc: Global, sectors: usize) -> Result<MemDisk, AllocError>
        ensures blank { IfOk result (λ disk. disk.start.items ≡ replicate sectors blank) }
        ensures fresh { IfOk result (λ disk. disk.noted.items ≡ []) }
        ensures counts { IfOk result (λ disk. (disk.calls ≡ 0) × (disk.failures ≡ 0)) }
    {
        MemDisk::holding(alloc, blank_sectors(alloc, sectors)?)
    }

    /// A disk that was just made with these sectors.
    fn holding(alloc: Global, start: Vec<Sector>) -> Result<MemDisk, AllocError>
        ensures start { IfOk result (λ disk. disk.start.items ≡ start.items) }
        ensures fresh { IfOk result (λ disk. disk.noted.items ≡ []) }
        ensures counts { IfOk result (λ disk. (disk.calls ≡ 0) × (disk.failures ≡ 0)) }
    {
        let held = Vec::from_slice(alloc, &start)?;
        let synced = Vec::from_slice(alloc, &start)?;
        Ok(MemDisk {
            start,
            held,
            synced,
            noted: Vec::new(alloc),
            since: 0,
            calls: 0,
            failures: 0,
        })
    }

    /// The sectors with more than one candidate, ascending, with the number of candidates.
    pub fn unsynced(&self, alloc: Global) -> Result<Vec<(usize, usize)>, AllocError>
        ensures { IfOk result (λ list. list.items ≡ syncs.unsynced (history self.now) (length self.now.held.items)) }
    {
        let counts = self.counts(alloc)?;
        let mut list = Vec::new(alloc);
        for k in 0..counts.len() {
            let count = counts[k];
            if count > 1 {
                list.push((k, count))?;
            }
        }
        Ok(list)
    }

    /// The disk that a crash leaves: of each sector that `unsynced` lists, in that order, the candidate at that index of
    /// `picks`. Index 0 is the value at the last sync; so is an index that is missing or past the last candidate.
    pub fn crash(&self, alloc: Global, picks: &[usize]) -> Result<MemDisk, AllocError>
        ensures picked { IfOk result (λ disk. disk.start.items ≡ map (syncs.picked (history self.now) picks.now) (range_with_len 0 (length self.now.held.items))) }
        ensures found { IfOk result (λ disk. IsLeftBy (history self.now) (history disk)) }
        ensures fresh { IfOk result (λ disk. disk.noted.items ≡ []) }
        ensures counts { IfOk result (λ disk. (disk.calls ≡ 0) × (disk.failures ≡ 0)) }
    {
        MemDisk::holding(alloc, self.picked(alloc, picks)?)
    }

    /// The same disk as it stands, with nothing kept of the calls before: so much as a crash may leave where all is synced. It takes no
    /// memory.
    pub fn settled(self) -> MemDisk
        ensures start { result.start.items ≡ self.held.items }
        ensures fresh { result.noted.items ≡ [] }
        ensures counts { (result.calls ≡ 0) × (result.failures ≡ 0) }
    {
        let MemDisk {
            mut start,
            held,
            mut synced,
            mut noted,
            since: _,
            calls: _,
            failures: _,
        } = self;
        start.copy_from_slice(held.as_slice());
        synced.copy_from_slice(held.as_slice());
        noted.clear();
        MemDisk {
            start,
            held,
            synced,
            noted,
            since: 0,
            calls: 0,
            failures: 0,
        }
    }

    /// How many syncs answered Ok.
    pub fn syncs(&self) -> usize
        ensures { result ≡ syncs.sync_count (history self.now) }
    {
        self.noted.iter().filter(|noted| noted.is_sync()).count()
    }

    /// The sectors of the image that these picks choose.
    fn picked(&self, alloc: Global, picks: &[usize]) -> Result<Vec<Sector>, AllocError>
        ensures { IfOk result (λ list. list.items ≡ map (syncs.picked (history self.now) picks.now) (range_with_len 0 (length self.now.held.items))) }
    {
        let mut left = self.turns(alloc, picks)?;
        let mut list = Vec::from_slice(alloc, &self.synced)?;
        for call in &self.noted[self.since..] {
            if let Noted::Write { k, value } = call {
                take_turn(&mut left[*k], &mut list[*k], value);
            }
        }
        Ok(list)
    }

    /// The pick for each sector; a sector with one candidate has the next one's.
    fn turns(&self, alloc: Global, picks: &[usize]) -> Result<Vec<usize>, AllocError>
        ensures { IfOk result (λ list. list.items ≡ map (λ k. slice_index_or picks.now (length (syncs.unsynced (history self.now) k)) 0) (range_with_len 0 (length self.now.held.items))) }
    {
        let counts = self.counts(alloc)?;
        let mut list = Vec::new(alloc);
        let mut turn = 0;
        for k in 0..counts.len() {
            list.push(pick_at(picks, turn))?;
            if counts[k] > 1 {
                turn += 1;
            }
        }
        Ok(list)
    }

    /// How many candidates each sector has.
    fn counts(&self, alloc: Global) -> Result<Vec<usize>, AllocError>
        ensures long { IfOk result (λ list. length list.items ≡ length self.now.held.items) }
        ensures counts { IfOk result (λ list. (k : ℕ) → k < length list.items → slice_index_or list.items k 0 ≡ length (model.candidates (history self.now) k)) }
    {
        let mut list = vec![in alloc; 1; self.held.len()]?;
        for call in &self.noted[self.since..] {
            if let Noted::Write { k, .. } = call {
                list[*k] += 1;
            }
        }
        Ok(list)
    }

    /// Counts a call that failed.
    fn fail(&mut self) -> Fault
        ensures past { (self.new.start ≡ self.old.start) × (self.new.held ≡ self.old.held) × (self.new.synced ≡ self.old.synced) }
        ensures notes { (self.new.noted ≡ self.old.noted) × (self.new.since ≡ self.old.since) }
        ensures calls { self.new.calls ≡ self.old.calls }
        ensures failures { self.new.failures ≡ one_more self.old.failures }
    {
        self.failures = self.failures.saturating_add(1);
        Fault
    }
}

impl Disk for MemDisk {
    ghost past = { λ m. past_of m.start.items m.noted.items };

    ghost size = { λ m. length m.held.items };

    ghost calls = { λ m. m.calls };

    ghost failures = { λ m. m.failures };

    ghost honest = { λ _. true };

    ghost seen_is_image = { λ m _. seen_is_image m.start.items m.noted.items };

    fn sectors(&self) -> usize {
        self.held.len()
    }

    fn read(&mut self, k: usize, sector: &mut Sector) -> Result<(), Fault> {
        self.calls = self.calls.saturating_add(1);
        if k >= self.held.len() {
            return Err(self.fail());
        }
        *sector = self.held[k];
        Ok(())
    }

    fn write(&mut self, k: usize, sector: &Sector) -> Result<(), Fault> {
        self.calls = self.calls.saturating_add(1);
        let value = *sector;
        if k >= self.held.len() {
            return Err(self.fail());
        }
        if self.noted.push(Noted::Write { k, value }).is_err() {
            return Err(self.fail());
        }
        self.held[k] = value;
        Ok(())
    }

    fn sync(&mut self) -> Result<(), Fault> {
        self.calls = self.calls.saturating_add(1);
        let end = self.noted.len();
        if self.noted.push(Noted::Sync).is_err() {
            return Err(self.fail());
        }
        replay(&mut self.synced, &self.noted[self.since..end]);
        self.since = self.noted.len();
        Ok(())
    }
}
