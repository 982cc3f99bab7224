//! Lists of inputs that a keeper takes in order, with one sync after them.
use crate::answers::sector_at;
use crate::inputs::{A, B, input, put, put_long, starts, take};
use crate::keepers::{calls_since, crash, disk_of, files_in, files_on, opened, over};
use std::process::Abort;
use um_asserts::{is_refused, same, same_at, text, unit};
use um_keeper::{Keeper, Receipt};
use um_model::{JobMode, UnitVerb};
use um_sector::{Disk, Fuse, MemDisk};
use um_state::{Command, Event, Happening, Input};
use um_tree::Tree;
use um_wire::Refusal;

/// An input: an empty file at the path, a start of the unit, or a tick at the moment.
enum Coming {
    Put(&'static str),
    Start(&'static str),
    Tick(u64),
}

/// The input that starts a unit.
fn start(rt: &(impl AllocGlobal + Abort), unit: &str) -> Input {
    let unit = unit!(rt, unit);
    let command = Command::ForUnit {
        verb: UnitVerb::Start,
        unit,
        mode: JobMode::Replace,
    };
    input(rt, 0, Event::Commanded(command))
}

/// The input by its texts.
fn input_of(rt: &(impl AllocGlobal + Abort), coming: &Coming) -> Input {
    match coming {
        Coming::Put(path) => put(rt, path, ""),
        Coming::Start(unit) => start(rt, unit),
        Coming::Tick(micros) => input(rt, *micros, Event::Happened(Happening::Tick)),
    }
}

/// These inputs.
fn inputs(rt: &(impl AllocGlobal + Abort), list: &[Coming]) -> Vec<Input> {
    let mut inputs = Vec::new(rt.alloc());
    for coming in list {
        inputs.push(input_of(rt, coming)).expect(rt, "no memory");
    }
    inputs
}

/// Spends an answer, and gives it as it prints.
fn text_of(rt: &(impl AllocGlobal + Abort), answer: Result<Receipt, Refusal>) -> String {
    match answer {
        Ok(receipt) => {
            starts(receipt);
            text!(rt, "done")
        }
        Err(refusal) => {
            let text = refusal.to_string(rt.alloc()).expect(rt, "no memory");
            drop(refusal);
            text
        }
    }
}

/// Spends the answers of a list, and returns them as they print, each with a semicolon after it.
fn told(
    rt: &(impl AllocGlobal + Abort),
    answers: Result<Vec<Result<Receipt, Refusal>>, Refusal>,
) -> Result<String, Refusal> {
    let mut rest = answers?.into_iter();
    let mut told = String::new(rt.alloc());
    while let Some(answer) = rest.next() {
        let text = text_of(rt, answer);
        told.push_str(text.as_str()).expect(rt, "no memory");
        told.push_str("; ").expect(rt, "no memory");
    }
    rest.destroy_empty();
    Ok(told)
}

/// Submits the inputs of a list, and gives the answers as they print.
fn answered<D: Disk>(
    rt: &(impl AllocGlobal + Abort),
    keeper: &mut Keeper<D>,
    list: &[Coming],
) -> Result<String, Refusal> {
    told(rt, keeper.submit_all(inputs(rt, list)))
}

/// Lists, the answers to their inputs, the number of files then, of disk calls, and of syncs: a record of one sector
/// for each accepted input with an effect, and a sync after them all.
const LISTS: &[(&[Coming], &str, usize, u64, usize)] = &[
    (&[Coming::Put(A)], "done; ", 1, 2, 1),
    (&[Coming::Put(A), Coming::Put(B)], "done; done; ", 2, 3, 1),
    // a refused input touches no other
    (
        &[Coming::Put(A), Coming::Put("a.service"), Coming::Put(B)],
        "done; E12 BadPath a.service; done; ",
        2,
        3,
        1,
    ),
    // a list without effect makes no disk call
    (&[], "", 0, 0, 0),
    (&[Coming::Tick(1), Coming::Tick(2)], "done; done; ", 0, 0, 0),
    (
        &[Coming::Put("a.service"), Coming::Start("b.service")],
        "E12 BadPath a.service; E4 NotFound b.service; ",
        0,
        0,
        0,
    ),
];

/// Asserts that the list is submitted and its inputs are answered so.
fn is_answered<D: Disk>(
    rt: &(impl AllocGlobal + Abort),
    keeper: &mut Keeper<D>,
    list: &[Coming],
    wanted: &str,
) {
    let answers = answered(rt, keeper, list).expect(rt, "refused");
    same!(rt, answers.as_str(), wanted);
}

/// The number of syncs of a new store's disk that was opened.
fn syncs_of_open(rt: &(impl AllocGlobal + Abort)) -> usize {
    disk_of(opened(rt, 0)).into_inner().syncs()
}

/// Asserts how often the disk was synced since it was opened, and how many files its store has.
fn is_written(rt: &(impl AllocGlobal + Abort), disk: MemDisk, files: usize, syncs: usize) {
    let wanted = syncs_of_open(rt).checked_add(syncs);
    same!(rt, Some(disk.syncs()), wanted);
    same!(rt, files_on(rt, disk), files);
}

#[test]
fn a_list_is_answered_in_its_order(rt: HostRuntime) {
    for (list, wanted, files, calls, syncs) in LISTS {
        let mut keeper = opened(&rt, 0);
        is_answered(&rt, &mut keeper, list, wanted);
        same!(&rt, files_in(&keeper), *files);
        let disk = disk_of(keeper);
        same!(&rt, calls_since(&rt, &disk), *calls);
        is_written(&rt, disk.into_inner(), *files, *syncs);
    }
}

/// Lists of which two inputs are to be recorded, and the answers to their inputs if the sync after both records fails:
/// E16, except for those that are refused for another cause.
const FAULTY: &[(&[Coming], &str)] = &[
    (
        &[Coming::Put(A), Coming::Put(B)],
        "E16 Device; E16 Device; ",
    ),
    (
        &[Coming::Put(A), Coming::Start("b.service"), Coming::Put(B)],
        "E16 Device; E4 NotFound b.service; E16 Device; ",
    ),
    (
        &[
            Coming::Start("b.service"),
            Coming::Put(A),
            Coming::Put(B),
            Coming::Start("b.service"),
        ],
        "E4 NotFound b.service; E16 Device; E16 Device; E4 NotFound b.service; ",
    ),
];

/// Asserts that the list was taken back, that later commands want the store opened again, and that a crash that loses what wasn't
/// synced leaves nothing of it.
fn is_taken_back(rt: &(impl AllocGlobal + Abort), mut keeper: Box<Keeper<Fuse<MemDisk>>>) {
    same!(rt, files_in(&keeper), 0);
    let refused = answered(rt, &mut keeper, &[Coming::Put(A), Coming::Tick(1)]);
    is_refused!(rt, refused, "E17 Reopen");
    let left = crash(rt, disk_of(keeper), &[]);
    same!(rt, files_on(rt, left), 0);
}

#[test]
fn a_fault_in_a_list_beside_a_refusal_of_its_own(rt: HostRuntime) {
    for (list, wanted) in FAULTY {
        let mut keeper = opened(&rt, 3);
        is_answered(&rt, &mut keeper, list, wanted);
        is_taken_back(&rt, keeper);
    }
}

/// The file of `c.service`.
const C: &str = "lib/c.service";

/// Three files to put, and a path in their middle that is none.
const FOUR: &[Coming] = &[
    Coming::Put(A),
    Coming::Put("a.service"),
    Coming::Put(B),
    Coming::Put(C),
];

/// The disk call of that list that fails, of three records and a sync, and the answers to its inputs: none that follows
/// the failure is judged.
const CALLS: &[(u64, &str)] = &[
    (1, "E16 Device; E16 Device; E16 Device; E16 Device; "),
    (
        2,
        "E16 Device; E12 BadPath a.service; E16 Device; E16 Device; ",
    ),
    (
        3,
        "E16 Device; E12 BadPath a.service; E16 Device; E16 Device; ",
    ),
    (
        4,
        "E16 Device; E12 BadPath a.service; E16 Device; E16 Device; ",
    ),
];

#[test]
fn a_fault_at_each_disk_call_of_a_list(rt: HostRuntime) {
    for (call, wanted) in CALLS {
        let mut keeper = opened(&rt, *call);
        is_answered(&rt, &mut keeper, FOUR, wanted);
        is_taken_back(&rt, keeper);
    }
    let mut keeper = opened(&rt, 5);
    let wanted = "done; E12 BadPath a.service; done; done; ";
    is_answered(&rt, &mut keeper, FOUR, wanted);
    same!(&rt, files_in(&keeper), 3);
}

/// Asserts the lowest bytes of the generation and of the number in a sector of the log, the number's last two.
fn is_written_as(rt: &impl Abort, disk: &mut MemDisk, k: usize, wanted: (u8, u8, u8)) {
    let sector = sector_at(rt, disk, k);
    same!(rt, (sector[11], sector[18], sector[19]), wanted);
}

/// A keeper whose log has room for one record more: an area of it has 256 sectors.
fn nearly_full(rt: &(impl AllocGlobal + Abort)) -> Box<Keeper<Fuse<MemDisk>>> {
    let mut keeper = opened(rt, 0);
    for _ in 0..255 {
        take(rt, &mut keeper, put(rt, A, ""));
    }
    keeper
}

/// Three files to put.
const THREE: &[Coming] = &[Coming::Put(A), Coming::Put(B), Coming::Put(C)];

#[test]
fn a_list_goes_on_in_the_other_area(rt: HostRuntime) {
    let calls = disk_of(nearly_full(&rt)).calls();
    let mut keeper = nearly_full(&rt);
    is_answered(&rt, &mut keeper, THREE, "done; done; done; ");
    // the snapshot has begun, and none of it is written
    same!(&rt, keeper.left(), 1);
    let disk = disk_of(keeper);
    // a record, a sync before the other area is gone on in, two records, a sync
    same!(&rt, Some(disk.calls()), calls.checked_add(5));
    let mut disk = disk.into_inner();
    // record 255 of generation 3, then records 0 and 1 of generation 4
    is_written_as(&rt, &mut disk, 640, (3, 0, 255));
    is_written_as(&rt, &mut disk, 129, (4, 0, 0));
    is_written_as(&rt, &mut disk, 130, (4, 0, 1));
    same!(&rt, sector_at(&rt, &mut disk, 131), [0; 512]);
    same!(&rt, files_on(&rt, disk), 3);
}

/// Ten ticks without effect, with a file to put among them.
const IDLE: &[Coming] = &[
    Coming::Tick(1),
    Coming::Tick(2),
    Coming::Tick(3),
    Coming::Tick(4),
    Coming::Tick(5),
    Coming::Put(B),
    Coming::Tick(6),
    Coming::Tick(7),
    Coming::Tick(8),
    Coming::Tick(9),
    Coming::Tick(10),
];

/// The answers to them.
const IDLE_DONE: &str = "done; done; done; done; done; done; done; done; done; done; done; ";

#[test]
fn inputs_without_effect_take_no_room_in_the_log(rt: HostRuntime) {
    let before = disk_of(nearly_full(&rt));
    let mut keeper = nearly_full(&rt);
    is_answered(&rt, &mut keeper, IDLE, IDLE_DONE);
    same!(&rt, keeper.left(), 0);
    let disk = disk_of(keeper);
    // the record and a sync, and no snapshot is begun
    same!(&rt, Some(disk.calls()), before.calls().checked_add(2));
    let mut disk = disk.into_inner();
    let syncs = before.into_inner().syncs().checked_add(1);
    same!(&rt, Some(disk.syncs()), syncs);
    is_written_as(&rt, &mut disk, 640, (3, 0, 255));
    same!(&rt, sector_at(&rt, &mut disk, 129), [0; 512]);
    same!(&rt, files_on(&rt, disk), 2);
}

/// Whether both sectors of a record from that one on were written.
fn are_set(picks: &[usize], from: usize) -> bool {
    picks.get(from) == Some(&1) && picks.get(from + 1) == Some(&1)
}

/// The six lowest bits of a number.
fn bits_of(number: usize) -> [usize; 6] {
    let mut bits = [0; 6];
    for (i, bit) in bits.iter_mut().enumerate() {
        *bit = (number >> i) & 1;
    }
    bits
}

/// How many of three records of two sectors are whole, up to the first that isn't.
fn whole(picks: &[usize]) -> usize {
    match (are_set(picks, 0), are_set(picks, 2), are_set(picks, 4)) {
        (false, _, _) => 0,
        (true, false, _) => 1,
        (true, true, false) => 2,
        (true, true, true) => 3,
    }
}

/// A keeper whose disk failed at the sync after three records of two sectors.
fn unsynced(rt: &(impl AllocGlobal + Abort)) -> Fuse<MemDisk> {
    let mut keeper = opened(rt, 7);
    let mut inputs = Vec::new(rt.alloc());
    for path in [A, B, C] {
        inputs.push(put_long(rt, path, 450)).expect(rt, "no memory");
    }
    let answers = told(rt, keeper.submit_all(inputs)).expect(rt, "refused");
    same!(rt, answers.as_str(), "E16 Device; E16 Device; E16 Device; ");
    disk_of(keeper)
}

/// Asserts that the tree has the first `files` of the three files, in this row.
fn has_first(rt: &impl Abort, tree: &Tree, files: usize, row: usize) {
    let has = (
        tree.get(A).is_some(),
        tree.get(B).is_some(),
        tree.get(C).is_some(),
    );
    same_at!(rt, has, (files > 0, files > 1, files > 2), row);
}

#[test]
fn a_crash_before_the_sync_leaves_a_beginning_of_the_list(rt: HostRuntime) {
    let mut met = [0_usize; 4];
    for number in 0..64 {
        let picks = bits_of(number);
        let files = whole(&picks);
        let again = over(&rt, crash(&rt, unsynced(&rt), &picks));
        same_at!(&rt, files_in(&again), files, number);
        has_first(&rt, again.state().tree(), files, number);
        let place = files.min(3);
        met[place] = met[place].saturating_add(1);
    }
    // without the first 48 of 64, with it and without the second 12, with both and without the third 3, with all 1
    same!(&rt, met, [48, 12, 3, 1]);
}
