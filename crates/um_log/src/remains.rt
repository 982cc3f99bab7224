//! Counts the records in the log that don't count, after those that do.
ghost use Rattle.std.specs.Prelude.{◌≡◌, ◌⊎◌, ◌↔◌, ◌+◌, ◌-◌, ◌<◌, ◌≤◌, ℕ, suc, List, length, IfOk, IfErr, IsTrue};
ghost use Rattle.um_log.specs.Following.{IsSomeWith, IsLastUncounted, IsLastLater, IsInPlace};
ghost use Rattle.um_log.specs.Greatest.{IsGreatestIn};
ghost use Rattle.um_log.specs.Uncounted.{Counts, EndsUncounted, EndsLater, StopsAt};
ghost use Rattle.um_model.specs.Disk.{seen};
ghost use Rattle.um_model.specs.Store.{area_sectors, area_start, area_end, sectors_of, HasRecords};
ghost use Rattle.um_sector.specs.Refused.{CountsDevice};

use crate::chain::follow;
use crate::generations::{greater, told_generation};
use crate::part::Part;
use crate::read::{Reader, fits};
use um_sector::{Disk, SECTOR_BYTES, Sector};
use um_wire::Refusal;

/// The remains in a generation's place in the log, after its records.
#[derive(Clone, Copy, Debug)]
pub struct Remains {
    /// The greatest generation that stands there: that of the records, or the greatest that a sector after them says of
    /// itself, whole or not.
    pub greatest: u64,
    /// The sector with which the reading of the records ends: the first that isn't the next part in its place.
    pub stop: usize,
    /// The number of whole records of their generation with the number of the next record or a greater one: they don't
    /// count.
    pub uncounted: usize,
    /// The number of whole records of later generations that have the same place.
    pub later: usize,
}

/// A count with one more, where it is so.
fn grown(count: usize, is: bool) -> usize
    requires { count < usize.MAX }
    ensures one { IsTrue is → result ≡ suc count }
    ensures same { ¬ IsTrue is → result ≡ count }
    ensures most { result ≤ count + 1 }
{
    if is { count + 1 } else { count }
}

impl Reader {
    /// Whether a whole record of the generation, with the number of the next one or a greater one, ends with the part.
    fn is_uncounted(&self, run: Option<Part>) -> bool
        ensures { IsTrue result ↔ IsSomeWith (IsLastUncounted self.now.generation self.now.number) run }
    {
        match run {
            Some(part) => {
                part.generation == self.generation && part.number >= self.number && part.is_last()
            }
            None => false,
        }
    }

    /// Whether a whole record of a later generation that has the same place ends with the part.
    fn is_later(&self, run: Option<Part>) -> bool
        ensures { IsTrue result ↔ IsSomeWith (IsLastLater self.now.format self.now.layout self.now.generation) run }
    {
        match run {
            Some(part) => {
                part.generation > self.generation
                    && self.layout.area_start(self.format, part.generation)
                        == self.layout.area_start(self.format, self.generation)
                    && part.is_last()
            }
            None => false,
        }
    }

    /// Whether the part is, in its place, that of the next record in this sector.
    fn is_in_place(&self, run: Option<Part>, j: usize) -> bool
        requires { self.now.next ≤ j }
        ensures { IsTrue result ↔ IsSomeWith (IsInPlace self.now.format self.now.layout self.now.generation self.now.number self.now.next j) run }
    {
        match run {
            Some(part) => {
                part.generation == self.generation
                    && part.number == self.number
                    && part.part as usize == j - self.next
                    && fits(
                        self.format,
                        self.layout,
                        self.generation,
                        self.next,
                        part.size as usize,
                    )
            }
            None => false,
        }
    }

    /// The end of the first parts of the next record, one sector further on: past sector `j` if it continues them, or
    /// else as it was.
    fn stop_behind(&self, stop: usize, j: usize, run: Option<Part>) -> usize
        requires low { self.now.next ≤ j }
        requires high { j < area_end self.now.format self.now.layout self.now.generation }
        ensures { ((stop ≡ j) × IsSomeWith (IsInPlace self.now.format self.now.layout self.now.generation self.now.number self.now.next j) run × (result ≡ j + 1))
            ⊎ ((stop ≡ j → ¬ IsSomeWith (IsInPlace self.now.format self.now.layout self.now.generation self.now.number self.now.next j) run) × (result ≡ stop)) }
    {
        if stop != j {
            return stop;
        }
        if self.is_in_place(run, j) {
            j + 1
        } else {
            stop
        }
    }

    /// The remains after the records of the generation, in its place, if the reader stands after them. It reads each
    /// sector from there on once.
    ///
    /// E16 where a read fails.
    pub fn remains<D: Disk>(&self, disk: &mut D) -> Result<Remains, Refusal>
        ensures greatest { IfOk result (λ remains. IsTrue (D.honest disk.old) → (records : List (List ℕ)) → HasRecords self.now.format self.now.layout self.now.generation (seen (D.past disk.old)) records
            → self.now.next ≡ area_start self.now.format self.now.layout self.now.generation + sectors_of records
            → IsGreatestIn self.now.format self.now.layout self.now.generation (seen (D.past disk.old)) remains.greatest) }
        ensures stop { IfOk result (λ remains. IsTrue (D.honest disk.old) → (records : List (List ℕ)) → HasRecords self.now.format self.now.layout self.now.generation (seen (D.past disk.old)) records
            → self.now.number ≡ length records → self.now.next ≡ area_start self.now.format self.now.layout self.now.generation + sectors_of records
            → self.now.next < area_end self.now.format self.now.layout self.now.generation
            → StopsAt self.now.format self.now.layout self.now.generation (seen (D.past disk.old)) self.now.number self.now.next remains.stop) }
        ensures uncounted { IfOk result (λ remains. IsTrue (D.honest disk.old)
            → Counts (EndsUncounted self.now.format self.now.layout (seen (D.past disk.old)) self.now.next self.now.generation self.now.number)
            self.now.next (area_end self.now.format self.now.layout self.now.generation) remains.uncounted) }
        ensures later { IfOk result (λ remains. IsTrue (D.honest disk.old)
            → Counts (EndsLater self.now.format self.now.layout (seen (D.past disk.old)) self.now.next self.now.generation)
            self.now.next (area_end self.now.format self.now.layout self.now.generation) remains.later) }
        ensures most { IfOk result (λ remains. (remains.uncounted ≤ area_sectors self.now.format self.now.layout) × (remains.later ≤ area_sectors self.now.format self.now.layout)) }
        ensures past { IsTrue (D.honest disk.old) → D.past disk.new ≡ D.past disk.old }
        ensures calls { D.calls disk.new ≤ D.calls disk.old + (area_end self.now.format self.now.layout self.now.generation - self.now.next) }
        ensures failures { CountsDevice result (D.failures disk.old) (D.failures disk.new) }
        ensures lost { IfErr result (λ e. e ≡ Refusal.Device) }
        ensures size { D.size disk.new ≡ D.size disk.old }
        ensures honest { D.honest disk.new ≡ D.honest disk.old }
    {
        let mut greatest = self.generation;
        let mut stop = self.next;
        let mut uncounted = 0;
        let mut later = 0;
        let mut run = None;
        let mut sector: Sector = [0; SECTOR_BYTES];
        for j in self.next..self.layout.area_end(self.format, self.generation) {
            disk.read(j, &mut sector)?;
            greatest = greater(greatest, told_generation(&sector));
            run = follow(self.format, self.generation, run, &sector);
            stop = self.stop_behind(stop, j, run);
            uncounted = grown(uncounted, self.is_uncounted(run));
            later = grown(later, self.is_later(run));
        }
        Ok(Remains {
            greatest,
            stop,
            uncounted,
            later,
        })
    }
}
