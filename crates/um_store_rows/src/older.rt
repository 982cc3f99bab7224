//! A store of layout 1 that a program of profile 1 made, as its file was. It opens to the state that it stands for,
//! also after a crash at any call of the open. Then it is of layout 2, and is read by profile 1 until its tree is
//! loaded again.
use crate::answers::sector_at;
use crate::inputs::{input, submit, take};
use crate::keepers::{calls_of_open, crash, disk_of, over};
use crate::spelled::hex;
use std::process::Abort;
use um_asserts::{is_refused, same, unit};
use um_keeper::{Keeper, inspect};
use um_model::{JobMode, UnitVerb};
use um_sector::{Disk, Fuse, MemDisk, Sector};
use um_state::{Command, Event, Input};
use um_wire::spell;

/// The sectors of its 641 that hold anything, without the zeros at their ends: sector 0, the header and the body of
/// slot A, those of slot B, and three records, which are a boot, a file `lib/p.service` with ExecStartPre=, and a
/// reload.
const SECTORS: &[(usize, &str)] = &[
    (0, "554d4449534b303100000040000002"),
    (1, "554d534c4f54303100000000000000010000000000000025"),
    (
        2,
        "0100000000000000000000000000000000000000000000000000000001",
    ),
    (65, "554d534c4f54303100000000000000020000000000000025"),
    (
        66,
        "0100000000000000000000000000000000000000000000000000000001",
    ),
    (
        129,
        "554d4c4700000000000000020000000000000000000000000000000100000010011200066188d0e827ea000000026231",
    ),
    (
        130,
        "554d4c4700000000000000020000000000000001000000000000000100000069010100066188d1505c8c0000000d6c69622f
         702e736572766963650000004a5b536572766963655d0a4578656353746172743d2f62696e2f736c65657020390a45786563
         53746172745072653d2f62696e2f610a4578656353746172745072653d2d2f62696e2f620a",
    ),
    (
        131,
        "554d4c470000000000000002000000000000000200000000000000010000000a010400066188d15068b7",
    ),
];

/// The bytes of the state that it stands for: of profile 1, both trees with the file, the boot b1.
const STATE: &str = "
    01000000010000000d6c69622f702e73657276696365000000004a5b536572766963655d0a4578656353746172743d2f6269
    6e2f736c65657020390a4578656353746172745072653d2f62696e2f610a4578656353746172745072653d2d2f62696e2f62
    0a000000010000000d6c69622f702e73657276696365000000004a5b536572766963655d0a4578656353746172743d2f6269
    6e2f736c65657020390a4578656353746172745072653d2f62696e2f610a4578656353746172745072653d2d2f62696e2f62
    0a00000002623100066188d15068b700000000000000010000000000000000";

/// The sector that begins with these bytes.
fn sector_of(rt: &(impl AllocGlobal + Abort), text: &str) -> Sector {
    let mut sector: Sector = [0; 512];
    for (place, byte) in sector.iter_mut().zip(hex(rt, text).as_slice()) {
        *place = *byte;
    }
    sector
}

/// The disk of the store.
fn older(rt: &(impl AllocGlobal + Abort)) -> MemDisk {
    let mut disk = MemDisk::new(rt.alloc(), 641).expect(rt, "no memory");
    for (k, text) in SECTORS {
        let sector = sector_of(rt, text);
        disk.write(*k, &sector).expect(rt, "not written");
    }
    disk.settled()
}

/// Asserts that the store on the disk opens to the state.
fn stands(rt: &(impl AllocGlobal + Abort), disk: MemDisk) {
    let keeper = over(rt, disk);
    let bytes = spell(rt.alloc(), keeper.state()).expect(rt, "no memory");
    same!(rt, bytes.as_slice(), hex(rt, STATE).as_slice());
}

/// The disk that a crash leaves of an open that a failing call ends.
pub fn crashed(rt: &(impl AllocGlobal + Abort), disk: Fuse<MemDisk>, pick: usize) -> MemDisk {
    match Keeper::open(rt.alloc(), disk) {
        Ok(_) => rt.abort(),
        Err((refusal, disk)) => {
            let answer: Result<(), _> = Err(refusal);
            is_refused!(rt, answer, "E16 Device");
            crash(rt, disk, &[pick])
        }
    }
}

#[test]
fn an_older_store_is_of_layout_2_behind_an_opening(rt: HostRuntime) {
    let mut disk = disk_of(over(&rt, older(&rt)));
    // UMDISK02, slots of 64 sectors, a log of 512
    same!(
        &rt,
        sector_at(&rt, &mut disk, 0),
        sector_of(&rt, "554d4449534b30320000004000000200")
    );
    // generation 3 in slot A, a body of the state's 231 bytes
    let header = "554d534c4f543031000000000000000300000000000000e7";
    same!(&rt, sector_at(&rt, &mut disk, 1), sector_of(&rt, header));
    let told = inspect(rt.alloc(), &mut disk).expect(&rt, "not read");
    same!(&rt, (told.generation, told.records), (3, 0));
}

/// Asserts that a crash at this call of an open leaves the state, whether the call was made or not.
fn leaves_the_state(rt: &(impl AllocGlobal + Abort), fails: u64) {
    for pick in 0..2 {
        stands(rt, crashed(rt, Fuse::new(older(rt), fails), pick));
        stands(rt, crashed(rt, Fuse::making(older(rt), fails), pick));
    }
}

#[test]
fn an_older_store_opens_to_its_state_behind_any_crash(rt: HostRuntime) {
    stands(&rt, older(&rt));
    let calls = calls_of_open(&rt, older(&rt));
    // its first sync and its first read
    leaves_the_state(&rt, 1);
    leaves_the_state(&rt, 2);
    // the body, its sync, the header, its sync, sector 0, its sync: each write is there, or isn't
    for back in 0..6 {
        let fails = calls.checked_sub(back).expect(&rt, "no call");
        leaves_the_state(&rt, fails);
    }
}

/// A start of `p.service`.
fn start(rt: &(impl AllocGlobal + Abort)) -> Input {
    let command = Command::ForUnit {
        verb: UnitVerb::Start,
        unit: unit!(rt, "p.service"),
        mode: JobMode::Replace,
    };
    input(rt, 0, Event::Commanded(command))
}

#[test]
fn an_older_store_serves_exec_start_pre_once_its_tree_is_loaded_anew(rt: HostRuntime) {
    let mut keeper = over(&rt, older(&rt));
    let refused = submit(&mut keeper, start(&rt));
    is_refused!(&rt, refused, "E6 BadSetting p.service setting ExecStartPre");
    let reload = input(&rt, 0, Event::Commanded(Command::DaemonReload));
    same!(&rt, take(&rt, &mut keeper, reload), 0);
    same!(&rt, take(&rt, &mut keeper, start(&rt)), 1);
}
