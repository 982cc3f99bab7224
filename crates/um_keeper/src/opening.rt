//! Opens the store that a disk holds: reads it, replays its records, and writes its state as the next generation.
ghost use Rattle.std.specs.Prelude.{◌≡◌, ◌⊎◌, ◌↔◌, ◌+◌, ◌-◌, ◌^◌, ◌<◌, ◌≤◌, ℕ, [], Ok, Some, None, false, List, length, IfOk, IfErr, IfSome, OnOk, IsTrue};
ghost use Rattle.um_engine.specs.Engine.{state_in, size_in};
ghost use Rattle.um_keeper.specs.Keeping.{Keeps, MayHold};
ghost use Rattle.um_keeper.specs.Opening.{IsStart, Leads, Replays, IsNoInput, IsUnread, IsUntaken, IsFound, IsNextOf, IsRead, Remain, IsKept, IsSomeStore, IsAsBefore};
ghost use Rattle.um_keeper.specs.Opening.{all_placed, IsBehind, IsLast, RemainBehind, AreRead, HaveLater, TellsCutOff, IsStill, StaysFor, StaysForOne, WasOrStores, HasNewestIn, IsUnwritten};
ghost use Rattle.um_model.specs.Disk.{Image, seen, Images, IsSettled, During};
ghost use Rattle.um_model.specs.Disk.{one_more};
ghost use Rattle.um_model.specs.Lives.{Offer, MayLeave};
ghost use Rattle.um_model.specs.Machine as model;
ghost use Rattle.um_model.specs.Servable.{IsServable};
ghost use Rattle.um_model.specs.Store.{current, body_limit, store_sectors, slot_start, other, superblock, area_sectors, area_start, log_start, placed, records_of, all_records, top};
ghost use Rattle.um_model.specs.Stands.{StandsFor, IsStoreOf};
ghost use Rattle.um_model.specs.StateSpellings.{FitState, state_spelling};
ghost use Rattle.um_model.specs.declared.layout.Layout as declared;
ghost use Rattle.um_model.specs.declared.layout.Slot as declared_slot;
ghost use Rattle.um_slot.specs.Snapshots.{HasNewest};
ghost use Rattle.um_sector.specs.Refused.{CountsDevice, IsLost};
ghost use Rattle.um_state.specs.View.{input_of};

use crate::ahead::Ahead;
use crate::keeper::{Keeper, OpenedStore, Uncounted};
use crate::receipt::Receipt;
use crate::snapshot::NextSnapshot;
use std::alloc::{AllocError, Global};
use um_engine::Engine;
use um_log::{Log, Reader, Remains, greatest};
use um_model::{CURRENT, Format, Layout, Slot};
use um_sector::{Disk, SECTOR_BYTES, Sector, write_run_synced};
use um_slot::{Home, newest, read_superblock, superblock};
use um_state::Input;
use um_wire::{Refusal, read_whole};

/// A store that was taken up of a disk: its format and layout, where its newest snapshot stands, the engine in the
/// state that the store stands for, and the findings of the reading.
#[derive(Drop)]
pub(crate) struct Found {
    format: Format,
    layout: Layout,
    pub(crate) home: Home,
    pub(crate) engine: Engine,
    /// The greatest generation that stands on the disk, or whose records count; None where that is above 2^64 - 1.
    greatest: Option<u64>,
    pub(crate) opened: OpenedStore,
}

/// The number of records that count, all of which were read, and the remains after them: in the place of the newest
/// snapshot's generation, and in that of the next one.
#[derive(Clone, Copy, Debug)]
struct Replayed {
    records: usize,
    here: Remains,
    behind: Option<Remains>,
}

/// The parts of a keeper beside its disk.
#[derive(Drop)]
pub(crate) struct Held {
    pub(crate) engine: Engine,
    pub(crate) home: Home,
    pub(crate) log: Log,
    pub(crate) opened: OpenedStore,
}

/// The format and the layout that sector 0 names, of a store for which the disk has room.
fn read_layout<D: Disk>(disk: &mut D) -> Result<(Format, Layout), Refusal>
    ensures ok { IfOk result (λ told. IsTrue (D.honest disk.old) → seen (D.past disk.old) 0 ≡ superblock told.0 told.1) }
    ensures room { IfOk result (λ told. store_sectors told.1 ≤ D.size disk.old) }
    ensures err { IfErr result (λ e. (e ≡ Refusal.Device) ⊎ (IsTrue (D.honest disk.old) → IsUnread (D.size disk.old) (seen (D.past disk.old)) e)) }
    ensures past { IsTrue (D.honest disk.old) → D.past disk.new ≡ D.past disk.old }
    ensures failures { CountsDevice result (D.failures disk.old) (D.failures disk.new) }
    ensures size { D.size disk.new ≡ D.size disk.old }
    ensures honest { D.honest disk.new ≡ D.honest disk.old }
{
    if disk.sectors() == 0 {
        return Err(Refusal::NotFormatted);
    }
    let mut sector: Sector = [0; SECTOR_BYTES];
    disk.read(0, &mut sector)?;
    let (format, layout) = read_superblock(&sector)?;
    if layout.sectors() > disk.sectors() {
        return Err(Refusal::Damaged { sector: 0 });
    }
    Ok((format, layout))
}

/// The engine in the state that a body spells; None where it spells none that a store of this layout may hold.
fn start_of(alloc: Global, layout: Layout, body: &[u8]) -> Result<Option<Engine>, AllocError>
    ensures start { IfOk result (λ made. IfSome made (λ e. IsStart layout body.now (state_in e))) }
    ensures sized { IfOk result (λ made. IfSome made (λ e. size_in e ≡ body_limit layout)) }
    ensures none { result ≡ Ok None → (s : model.State) → ¬ IsStart layout body.now s }
{
    let Some(state) = read_whole(alloc, body)? else {
        return Ok(None);
    };
    Engine::of(alloc, state, layout.body_limit() as u64)
}

/// Whether it is want of memory.
fn is_no_memory(refusal: Refusal) -> bool
    ensures { IsTrue result ↔ (refusal ≡ Refusal.NoMemory) }
{
    let is_no_memory = matches!(refusal, Refusal::NoMemory);
    drop(refusal);
    is_no_memory
}

/// Takes the step of an input that was recorded. One that is refused changes nothing. The step's actions on processes
/// are dropped.
fn retake(engine: &mut Engine, input: Input) -> Result<(), AllocError>
    ensures ok { OnOk result (Leads (size_in engine.old) (state_in engine.old) (input_of input) (state_in engine.new)) }
    ensures size { size_in engine.new ≡ size_in engine.old }
{
    let planned = engine.plan(&input);
    drop(input);
    match planned {
        Ok(next) => {
            let (reply, actions, back) = engine.commit(next);
            Receipt::new(reply, actions).let_go();
            drop(back);
            Ok(())
        }
        Err(refusal) => {
            if is_no_memory(refusal) {
                return Err(AllocError);
            }
            Ok(())
        }
    }
}

/// Takes the steps of the inputs that the records of a generation spell, in order, each as it is read.
///
/// E18 with the first sector of the first record that spells none; E15; E16 where a read fails.
fn replay<D: Disk>(
    alloc: Global,
    disk: &mut D,
    engine: &mut Engine,
    reader: &mut Reader,
) -> Result<(), Refusal>
    requires kept { IsServable (size_in engine.old) (state_in engine.old) }
    requires anew { (reader.old.number ≡ 0) × (reader.old.next ≡ area_start reader.old.format reader.old.layout reader.old.generation) }
    ensures ok { OnOk result (IsTrue (D.honest disk.old) → Replays (size_in engine.old) (records_of reader.old.format reader.old.layout reader.old.generation (seen (D.past disk.old)))
        (state_in engine.old) (state_in engine.new)) }
    ensures all { OnOk result (IsTrue (D.honest disk.old) → IsBehind reader.old.format reader.old.layout reader.old.generation (seen (D.past disk.old)) reader.new.number reader.new.next) }
    ensures kept { OnOk result (IsServable (size_in engine.new) (state_in engine.new)) }
    ensures err { IfErr result (λ e. IsLost e ⊎ (IsTrue (D.honest disk.old)
        → IsNoInput (placed (area_start reader.old.format reader.old.layout reader.old.generation) (records_of reader.old.format reader.old.layout reader.old.generation (seen (D.past disk.old)))) e)) }
    ensures size { size_in engine.new ≡ size_in engine.old }
    ensures of { (reader.new.format ≡ reader.old.format) × (reader.new.layout ≡ reader.old.layout) × (reader.new.generation ≡ reader.old.generation) }
    ensures past { IsTrue (D.honest disk.old) → D.past disk.new ≡ D.past disk.old }
    ensures failures { CountsDevice result (D.failures disk.old) (D.failures disk.new) }
    ensures disk_size { D.size disk.new ≡ D.size disk.old }
    ensures honest { D.honest disk.new ≡ D.honest disk.old }
{
    while let Some(found) = reader.read_next(alloc, disk)? {
        let Some(input) = read_whole(alloc, &found.bytes)? else {
            return Err(Refusal::Damaged {
                sector: found.first as u64,
            });
        };
        retake(engine, input)?;
    }
    Ok(())
}

/// Takes the steps of the inputs that the records of a generation spell, and returns the remains in the log after them.
///
/// E18 with the first sector of the first record that spells none; E15; E16 where a read fails.
fn replay_all<D: Disk>(
    alloc: Global,
    disk: &mut D,
    engine: &mut Engine,
    reader: &mut Reader,
) -> Result<Remains, Refusal>
    requires kept { IsServable (size_in engine.old) (state_in engine.old) }
    requires anew { (reader.old.number ≡ 0) × (reader.old.next ≡ area_start reader.old.format reader.old.layout reader.old.generation) }
    ensures ok { OnOk result (IsTrue (D.honest disk.old) → Replays (size_in engine.old) (records_of reader.old.format reader.old.layout reader.old.generation (seen (D.past disk.old)))
        (state_in engine.old) (state_in engine.new)) }
    ensures all { OnOk result (IsTrue (D.honest disk.old) → IsBehind reader.old.format reader.old.layout reader.old.generation (seen (D.past disk.old)) reader.new.number reader.new.next) }
    ensures kept { OnOk result (IsServable (size_in engine.new) (state_in engine.new)) }
    ensures most { IfOk result (λ remains. (remains.uncounted ≤ area_sectors reader.old.format reader.old.layout) × (remains.later ≤ area_sectors reader.old.format reader.old.layout)) }
    ensures remains { IfOk result (λ remains. IsTrue (D.honest disk.old) → Remain reader.old.format reader.old.layout reader.old.generation (seen (D.past disk.old)) remains) }
    ensures err { IfErr result (λ e. IsLost e ⊎ (IsTrue (D.honest disk.old)
        → IsNoInput (placed (area_start reader.old.format reader.old.layout reader.old.generation) (records_of reader.old.format reader.old.layout reader.old.generation (seen (D.past disk.old)))) e)) }
    ensures size { size_in engine.new ≡ size_in engine.old }
    ensures of { (reader.new.format ≡ reader.old.format) × (reader.new.layout ≡ reader.old.layout) × (reader.new.generation ≡ reader.old.generation) }
    ensures past { IsTrue (D.honest disk.old) → D.past disk.new ≡ D.past disk.old }
    ensures failures { CountsDevice result (D.failures disk.old) (D.failures disk.new) }
    ensures disk_size { D.size disk.new ≡ D.size disk.old }
    ensures honest { D.honest disk.new ≡ D.honest disk.old }
{
    replay(alloc, disk, engine, reader)?;
    reader.remains(disk)
}

/// Takes the steps of the inputs that all records which count spell: those of the newest snapshot's generation, then
/// those of the next one, if they count too.
///
/// E18 with the first sector of the first record that spells none; E15; E16 where a read fails.
fn replay_both<D: Disk>(
    alloc: Global,
    disk: &mut D,
    engine: &mut Engine,
    format: Format,
    layout: Layout,
    generation: u64,
) -> Result<Replayed, Refusal>
    requires kept { IsServable (size_in engine.old) (state_in engine.old) }
    ensures ok { OnOk result (IsTrue (D.honest disk.old) → Replays (size_in engine.old) (all_records format layout generation (seen (D.past disk.old))) (state_in engine.old) (state_in engine.new)) }
    ensures read { IfOk result (λ read. IsTrue (D.honest disk.old) → AreRead format layout generation (seen (D.past disk.old)) read.records read.here read.behind) }
    ensures most { IfOk result (λ read. (read.here.uncounted ≤ layout.log_sectors) × (read.here.later ≤ layout.log_sectors)
        × IfSome read.behind (λ remains. (remains.uncounted ≤ layout.log_sectors) × (remains.later ≤ layout.log_sectors))) }
    ensures kept { OnOk result (IsServable (size_in engine.new) (state_in engine.new)) }
    ensures err { IfErr result (λ e. IsLost e ⊎ (IsTrue (D.honest disk.old) → IsNoInput (all_placed format layout generation (seen (D.past disk.old))) e)) }
    ensures size { size_in engine.new ≡ size_in engine.old }
    ensures past { IsTrue (D.honest disk.old) → D.past disk.new ≡ D.past disk.old }
    ensures failures { CountsDevice result (D.failures disk.old) (D.failures disk.new) }
    ensures disk_size { D.size disk.new ≡ D.size disk.old }
    ensures honest { D.honest disk.new ≡ D.honest disk.old }
{
    let mut reader = Reader::new(format, layout, generation);
    let here = replay_all(alloc, disk, engine, &mut reader)?;
    let Some(mut next) = reader.following() else {
        return Ok(Replayed {
            records: reader.number as usize,
            here,
            behind: None,
        });
    };
    let behind = replay_all(alloc, disk, engine, &mut next)?;
    Ok(Replayed {
        records: (reader.number + next.number) as usize,
        here,
        behind: Some(behind),
    })
}

/// The greatest generation that stands in the place of the next one, where there is one.
fn greatest_in(behind: Option<Remains>) -> Option<u64>
    ensures some { IfSome result (λ greatest. IfSome behind (λ remains. greatest ≡ remains.greatest)) }
    ensures none { (result ≡ None) ↔ (behind ≡ None) }
{
    match behind {
        Some(remains) => Some(remains.greatest),
        None => None,
    }
}

/// The number of whole records of the generation that don't count, after those that do, and the sector with which its
/// reading ends.
fn cut_off_in(remains: Remains) -> Option<Uncounted>
    ensures some { IfSome result (λ cut. (0 < remains.uncounted) × (cut.sector ≡ remains.stop) × (cut.records ≡ remains.uncounted)) }
    ensures none { result ≡ None → remains.uncounted ≡ 0 }
{
    if remains.uncounted == 0 {
        return None;
    }
    Some(Uncounted {
        sector: remains.stop as u64,
        records: remains.uncounted,
    })
}

/// The same of both generations that are read, with the sector of the first of them that has some.
fn cut_off_of(read: Replayed, layout: Layout) -> Option<Uncounted>
    requires most { (read.here.uncounted ≤ layout.log_sectors) × IfSome read.behind (λ remains. remains.uncounted ≤ layout.log_sectors) }
    ensures { (format : Format) (newest : ℕ) (image : Image) → AreRead format layout newest image read.records read.here read.behind → TellsCutOff format layout newest image result }
{
    let here = cut_off_in(read.here);
    let Some(remains) = read.behind else {
        return here;
    };
    let behind = cut_off_in(remains);
    match (here, behind) {
        (Some(first), Some(second)) => Some(Uncounted {
            sector: first.sector,
            records: first.records + second.records,
        }),
        (Some(first), None) => Some(first),
        (None, second) => second,
    }
}

/// How many whole records of later generations stand in the log.
fn later_of(read: Replayed, layout: Layout) -> usize
    requires most { (read.here.later ≤ layout.log_sectors) × IfSome read.behind (λ remains. remains.later ≤ layout.log_sectors) }
    ensures { (format : Format) (newest : ℕ) (image : Image) → AreRead format layout newest image read.records read.here read.behind → HaveLater format layout newest image result }
{
    match read.behind {
        Some(remains) => read.here.later + remains.later,
        None => read.here.later,
    }
}

/// The first sector of the slot beside this one, where it is damaged.
fn damaged_of(layout: Layout, slot: Slot, is_damaged: bool, later: usize) -> Option<Uncounted>
    ensures some { IfSome result (λ damaged. IsTrue is_damaged × (damaged.sector ≡ slot_start layout (other slot)) × (damaged.records ≡ later)) }
    ensures none { result ≡ None → ¬ IsTrue is_damaged }
{
    if !is_damaged {
        return None;
    }
    Some(Uncounted {
        sector: layout.slot_start(slot.other()) as u64,
        records: later,
    })
}

/// Takes the steps of all records that count, as `replay_both` does, and returns the greatest generation that stands on
/// the disk.
fn read_records<D: Disk>(
    alloc: Global,
    disk: &mut D,
    engine: &mut Engine,
    format: Format,
    layout: Layout,
    generation: u64,
) -> Result<(Replayed, Option<u64>), Refusal>
    requires kept { IsServable (size_in engine.old) (state_in engine.old) }
    ensures ok { OnOk result (IsTrue (D.honest disk.old) → Replays (size_in engine.old) (all_records format layout generation (seen (D.past disk.old))) (state_in engine.old) (state_in engine.new)) }
    ensures read { IfOk result (λ read. IsTrue (D.honest disk.old) → AreRead format layout generation (seen (D.past disk.old)) read.0.records read.0.here read.0.behind) }
    ensures most { IfOk result (λ read. (read.0.here.uncounted ≤ layout.log_sectors) × (read.0.here.later ≤ layout.log_sectors)
        × IfSome read.0.behind (λ remains. (remains.uncounted ≤ layout.log_sectors) × (remains.later ≤ layout.log_sectors))) }
    ensures greatest { IfOk result (λ read. IsTrue (D.honest disk.old) → IsLast layout (seen (D.past disk.old)) (top format generation) read.1) }
    ensures kept { OnOk result (IsServable (size_in engine.new) (state_in engine.new)) }
    ensures err { IfErr result (λ e. IsLost e ⊎ (IsTrue (D.honest disk.old) → IsNoInput (all_placed format layout generation (seen (D.past disk.old))) e)) }
    ensures size { size_in engine.new ≡ size_in engine.old }
    ensures past { IsTrue (D.honest disk.old) → D.past disk.new ≡ D.past disk.old }
    ensures failures { CountsDevice result (D.failures disk.old) (D.failures disk.new) }
    ensures disk_size { D.size disk.new ≡ D.size disk.old }
    ensures honest { D.honest disk.new ≡ D.honest disk.old }
{
    let read = replay_both(alloc, disk, engine, format, layout, generation)?;
    let behind = greatest_in(read.behind);
    let last = greatest(disk, format, layout, read.here.greatest, behind)?;
    Ok((read, last))
}

/// Takes up the store that a disk holds, and writes nothing.
pub(crate) fn take_up<D: Disk>(alloc: Global, disk: &mut D) -> Result<Found, Refusal>
    ensures found { IfOk result (λ f. IsTrue (D.honest disk.old)
        → IsFound (D.size disk.old) (seen (D.past disk.old)) f.format f.layout f.home.slot f.home.generation f.greatest (state_in f.engine)) }
    ensures read { IfOk result (λ f. IsTrue (D.honest disk.old)
        → IsRead f.layout (seen (D.past disk.old)) f.opened) }
    ensures kept { IfOk result (λ f. IsKept f.layout (size_in f.engine) (state_in f.engine)) }
    ensures room { IfOk result (λ f. store_sectors f.layout ≤ D.size disk.old) }
    ensures err { IfErr result (λ e. IsLost e ⊎ (IsTrue (D.honest disk.old) → IsUnread (D.size disk.old) (seen (D.past disk.old)) e)) }
    ensures past { IsTrue (D.honest disk.old) → D.past disk.new ≡ D.past disk.old }
    ensures failures { CountsDevice result (D.failures disk.old) (D.failures disk.new) }
    ensures size { D.size disk.new ≡ D.size disk.old }
    ensures honest { D.honest disk.new ≡ D.honest disk.old }
{
    let (format, layout) = read_layout(disk)?;
    let snapshot = newest(alloc, disk, layout)?;
    let home = snapshot.home;
    let Some(mut engine) = start_of(alloc, layout, &snapshot.body)? else {
        let sector = layout.slot_start(home.slot) as u64 + 1;
        return Err(Refusal::Damaged { sector });
    };
    match read_records(alloc, disk, &mut engine, format, layout, home.generation) {
        Ok((read, greatest)) => Ok(Found {
            format,
            layout,
            home,
            engine,
            greatest,
            opened: OpenedStore {
                generation: home.generation,
                records: read.records,
                cut_off: cut_off_of(read, layout),
                damaged: damaged_of(
                    layout,
                    home.slot,
                    snapshot.is_other_damaged,
                    later_of(read, layout),
                ),
            },
        }),
        Err(refusal) => {
            drop(engine);
            Err(refusal)
        }
    }
}

/// Makes sector 0 that of the current format, and syncs, where the store is in another one. E16.
fn rewrite<D: Disk>(disk: &mut D, format: Format, layout: Layout) -> Result<(), Refusal>
    ensures during { IsTrue (D.honest disk.old) → (slot : declared_slot.Slot) (newest last : ℕ) (body : List ℕ) → Images (D.past disk.old) (HasNewest format layout slot newest body last)
        → During (D.past disk.old) (D.past disk.new) (HasNewestIn layout slot newest body last) }
    ensures ok { OnOk result (IsTrue (D.honest disk.old) → (slot : declared_slot.Slot) (newest last : ℕ) (body : List ℕ) → Images (D.past disk.old) (HasNewest format layout slot newest body last)
        → Images (D.past disk.new) (HasNewest current layout slot newest body last)) }
    ensures failures { CountsDevice result (D.failures disk.old) (D.failures disk.new) }
    ensures err { IfErr result (λ e. e ≡ Refusal.Device) }
    ensures size { D.size disk.new ≡ D.size disk.old }
    ensures honest { D.honest disk.new ≡ D.honest disk.old }
{
    match format {
        Format::Two => Ok(()),
        Format::One => {
            let first: [Sector; 1] = [superblock(CURRENT, layout)];
            write_run_synced(disk, 0, &first)?;
            Ok(())
        }
    }
}

/// Writes a snapshot into the other slot, as the generation after the last one, and makes the store one of the current
/// format. Returns where it stands. E16.
fn store_anew<D: Disk>(
    disk: &mut D,
    format: Format,
    layout: Layout,
    last: Home,
    snapshot: NextSnapshot,
) -> Result<Home, Refusal>
    requires early { last.generation < 2 ^ 64 - 1 }
    requires fits { length snapshot.body.items ≤ body_limit layout }
    requires anew { snapshot.written ≡ 0 }
    ensures during { IsTrue (D.honest disk.old) → (newest : ℕ) (before : List ℕ) (s : model.State) → newest ≤ last.generation
        → Images (D.past disk.old) (HasNewest format layout last.slot newest before last.generation) → snapshot.body.items ≡ state_spelling s → FitState s → IsServable (body_limit layout) s
        → During (D.past disk.old) (D.past disk.new) (WasOrStores format layout (D.past disk.old) last.slot newest before s) }
    ensures ok { IfOk result (λ to. IsTrue (D.honest disk.old) → (newest : ℕ) (before : List ℕ) (s : model.State) → newest ≤ last.generation
        → Images (D.past disk.old) (HasNewest format layout last.slot newest before last.generation) → snapshot.body.items ≡ state_spelling s → FitState s → IsServable (body_limit layout) s
        → store_sectors layout ≤ D.size disk.old → Keeps (D.past disk.new) (D.size disk.new) layout to.slot to.generation [] 0 to.generation 0 (log_start layout to.generation) s) }
    ensures home { IfOk result (λ to. (to.slot ≡ other last.slot) × (to.generation ≡ last.generation + 1)) }
    ensures failures { CountsDevice result (D.failures disk.old) (D.failures disk.new) }
    ensures err { IfErr result (λ e. e ≡ Refusal.Device) }
    ensures size { D.size disk.new ≡ D.size disk.old }
    ensures honest { D.honest disk.new ≡ D.honest disk.old }
{
    let home = snapshot.store(disk, layout, last)?;
    rewrite(disk, format, layout)?;
    Ok(home)
}

/// Writes the state into the other slot, as the generation after the greatest that stands on the disk, in the current
/// format.
fn renew<D: Disk>(alloc: Global, disk: &mut D, found: Found, greatest: u64) -> Result<Held, Refusal>
    requires kept { IsKept found.layout (size_in found.engine) (state_in found.engine) }
    requires early { greatest < 2 ^ 64 - 1 }
    requires room { store_sectors found.layout ≤ D.size disk.old }
    ensures during { IsTrue (D.honest disk.old) → IsSettled (D.past disk.old)
        → IsFound (D.size disk.old) (seen (D.past disk.old)) found.format found.layout found.home.slot found.home.generation (Some greatest) (state_in found.engine)
        → During (D.past disk.old) (D.past disk.new) (IsStill found.layout (seen (D.past disk.old)) (state_in found.engine)) }
    ensures ok { IfOk result (λ held. IsTrue (D.honest disk.old) → IsSettled (D.past disk.old)
        → IsFound (D.size disk.old) (seen (D.past disk.old)) found.format found.layout found.home.slot found.home.generation (Some greatest) (state_in found.engine)
        → Keeps (D.past disk.new) (D.size disk.new) held.log.layout held.home.slot held.home.generation [] 0 held.log.generation held.log.number held.log.next (state_in held.engine)) }
    ensures held { IfOk result (λ held. (state_in held.engine ≡ state_in found.engine) × (size_in held.engine ≡ size_in found.engine)
        × (held.log.layout ≡ found.layout) × (held.home.slot ≡ other found.home.slot) × (held.home.generation ≡ greatest + 1) × (held.log.generation ≡ held.home.generation) × (held.log.number ≡ 0)
        × (held.opened ≡ found.opened)) }
    ensures kept { IfOk result (λ held. MayHold held.log.layout (size_in held.engine) (state_in held.engine)) }
    ensures failures { CountsDevice result (D.failures disk.old) (D.failures disk.new) }
    ensures err { IfErr result IsLost }
    ensures size { D.size disk.new ≡ D.size disk.old }
    ensures honest { D.honest disk.new ≡ D.honest disk.old }
{
    let snapshot = match NextSnapshot::begin(alloc, found.engine.state()) {
        Ok(snapshot) => snapshot,
        Err(AllocError) => {
            drop(found.engine);
            return Err(Refusal::NoMemory);
        }
    };
    let last = Home {
        slot: found.home.slot,
        generation: greatest,
    };
    match store_anew(disk, found.format, found.layout, last, snapshot) {
        Ok(home) => Ok(Held {
            engine: found.engine,
            home,
            log: Log::new(found.layout, home.generation),
            opened: found.opened,
        }),
        Err(refusal) => {
            drop(found.engine);
            Err(refusal)
        }
    }
}

/// The greatest generation, if there is one after it.
fn before_last(greatest: Option<u64>) -> Option<u64>
    ensures some { IfSome result (λ last. (greatest ≡ Some last) × (last < 2 ^ 64 - 1)) }
    ensures none { result ≡ None → (greatest ≡ None) ⊎ (greatest ≡ Some (2 ^ 64 - 1)) }
{
    let last = greatest?;
    if last == u64::MAX {
        return None;
    }
    Some(last)
}

/// Syncs, takes up the store that the disk holds, and writes its state as the next generation.
pub(crate) fn recover<D: Disk>(alloc: Global, disk: &mut D) -> Result<Held, Refusal>
    ensures stays { IfOk result (λ held. IsTrue (D.honest disk.old) → StaysFor held.log.layout (state_in held.engine) (D.past disk.old) (D.past disk.new)) }
    ensures unwritten { IfErr result (λ e. IsTrue (D.honest disk.old)
        → IsUnwritten (D.past disk.old) (D.past disk.new) ⊎ (IsLost e × StaysForOne (D.past disk.old) (D.past disk.new))) }
    ensures ok { IfOk result (λ held. IsTrue (D.honest disk.old)
        → Keeps (D.past disk.new) (D.size disk.new) held.log.layout held.home.slot held.home.generation [] 0 held.log.generation held.log.number held.log.next (state_in held.engine)) }
    ensures taken { IfOk result (λ held. IsTrue (D.honest disk.old)
        → IsNextOf (D.size disk.old) (seen (D.past disk.old)) held.log.layout held.home.slot held.home.generation (state_in held.engine)) }
    ensures opened { IfOk result (λ held. IsTrue (D.honest disk.old) → IsRead held.log.layout (seen (D.past disk.old)) held.opened) }
    ensures kept { IfOk result (λ held. MayHold held.log.layout (size_in held.engine) (state_in held.engine)) }
    ensures anew { IfOk result (λ held. (held.log.generation ≡ held.home.generation) × (held.log.number ≡ 0)) }
    ensures err { IfErr result (λ e. IsLost e ⊎ (IsTrue (D.honest disk.old) → IsUntaken (D.size disk.old) (seen (D.past disk.old)) e)) }
    ensures failures { CountsDevice result (D.failures disk.old) (D.failures disk.new) }
    ensures size { D.size disk.new ≡ D.size disk.old }
    ensures honest { D.honest disk.new ≡ D.honest disk.old }
{
    disk.sync()?;
    let found = take_up(alloc, disk)?;
    let Some(greatest) = before_last(found.greatest) else {
        drop(found.engine);
        return Err(Refusal::GenerationsSpent);
    };
    renew(alloc, disk, found, greatest)
}

impl<D: Disk> Keeper<D> {
    /// Opens the store that a disk holds. It syncs and takes up the state that the image it reads stands for. Before
    /// anything is accepted it writes that state into the other slot, as the next generation: the one after the
    /// greatest whose records count, or that a sector of the log names. A store of format 1 becomes one of format 2:
    /// sector 0 is written last, and synced. A refusal hands the disk back.
    ///
    /// E19 where there is no sector 0, or it doesn't begin as that of a store; E22 where it is of another format. E18
    /// with sector 0 where it names no layout for which the disk has room; with sector 1 where no slot has a header;
    /// with the newest body's first sector where it spells no state that the store may hold; with a record's first
    /// sector where it spells no input. E20 where that greatest generation is the last one. With each of these nothing
    /// is written, and none but E20 is given if the disk has room for the store, and stands for a state. E15; E16 where
    /// a disk call fails: then too each image stands for what it stood for.
    pub fn open(alloc: Global, mut disk: D) -> Result<Keeper<D>, (Refusal, D)>
        ensures during { IfOk result (λ k. IsTrue (D.honest disk) → (layout : declared.Layout) → Images (D.past disk) (IsSomeStore layout)
            → During (D.past disk) (D.past k.disk) (IsAsBefore layout (D.past disk))) }
        ensures during_err { IfErr result (λ e. IsTrue (D.honest disk) → (layout : declared.Layout) → Images (D.past disk) (IsSomeStore layout)
            → During (D.past disk) (D.past e.1) (IsAsBefore layout (D.past disk))) }
        ensures life { IfOk result (λ k. IsTrue (D.honest disk) → (layout : declared.Layout) (s : model.State) (before : List Offer)
            → Images (D.past disk) (MayLeave layout s before) → During (D.past disk) (D.past k.disk) (MayLeave layout s before)) }
        ensures life_err { IfErr result (λ e. IsTrue (D.honest disk) → (layout : declared.Layout) (s : model.State) (before : List Offer)
            → Images (D.past disk) (MayLeave layout s before) → During (D.past disk) (D.past e.1) (MayLeave layout s before)) }
        ensures stands { IfOk result (λ k. IsTrue (D.honest disk) → StandsFor k.ahead.log.layout (seen (D.past disk)) (state_in k.engine)) }
        ensures stays { IfOk result (λ k. IsTrue (D.honest disk) → StaysFor k.ahead.log.layout (state_in k.engine) (D.past disk) (D.past k.disk)) }
        ensures stored { IfOk result (λ k. IsTrue (D.honest disk) → Images (D.past k.disk) (λ image. IsStoreOf k.ahead.log.layout image (state_in k.engine))) }
        ensures sized { IfOk result (λ k. size_in k.engine ≡ body_limit k.ahead.log.layout) }
        ensures unwritten { IfErr result (λ e. IsTrue (D.honest disk)
            → IsUnwritten (D.past disk) (D.past e.1) ⊎ (IsLost e.0 × StaysForOne (D.past disk) (D.past e.1))) }
        ensures ok { IfOk result (λ k. (k.failed ≡ false) × (k.ahead.log.number ≡ 0) × (D.honest k.disk ≡ D.honest disk) × (D.size k.disk ≡ D.size disk)) }
        ensures taken { IfOk result (λ k. IsTrue (D.honest disk)
            → IsNextOf (D.size disk) (seen (D.past disk)) k.ahead.log.layout k.ahead.home.slot k.ahead.home.generation (state_in k.engine)) }
        ensures opened { IfOk result (λ k. IsTrue (D.honest disk) → IsRead k.ahead.log.layout (seen (D.past disk)) k.opened) }
        ensures err { IfErr result (λ e. IsLost e.0 ⊎ (IsTrue (D.honest disk) → IsUntaken (D.size disk) (seen (D.past disk)) e.0)) }
        ensures device { IfErr result (λ e. ((e.0 ≡ Refusal.Device) × (D.failures e.1 ≡ one_more (D.failures disk))) ⊎ ((¬ (e.0 ≡ Refusal.Device)) × (D.failures e.1 ≡ D.failures disk))) }
        ensures quiet { IfOk result (λ k. D.failures k.disk ≡ D.failures disk) }
        ensures back { IfErr result (λ e. (D.size e.1 ≡ D.size disk) × (D.honest e.1 ≡ D.honest disk)) }
    {
        match recover(alloc, &mut disk) {
            Ok(held) => Ok(Keeper {
                alloc,
                disk,
                engine: held.engine,
                ahead: Ahead {
                    home: held.home,
                    log: held.log,
                    unsynced: false,
                    aside: NextSnapshot::none(alloc),
                },
                failed: false,
                opened: held.opened,
            }),
            Err(refusal) => Err((refusal, disk)),
        }
    }
}
