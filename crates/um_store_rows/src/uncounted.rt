//! The reports of a look and an opening on whole records that don't count.
use crate::answers::{change, filled};
use crate::inputs::{A, put, put_long, take};
use crate::keepers::{disk_of, opened, over};
use std::process::Abort;
use um_asserts::same;
use um_keeper::{OpenedStore, Uncounted, inspect};
use um_sector::{Disk, MemDisk};

/// Asserts that a look and an opening report how the store on a disk stands, and which of its records don't count.
fn tells(rt: &(impl AllocGlobal + Abort), disk: MemDisk, wanted: OpenedStore) {
    let mut disk = disk;
    let told = inspect(rt.alloc(), &mut disk).expect(rt, "not read");
    let read = OpenedStore {
        generation: told.generation,
        records: told.records,
        cut_off: told.cut_off,
        damaged: told.damaged,
    };
    same!(rt, read, wanted);
    same!(rt, over(rt, disk).opened(), wanted);
}

/// A store of generation 3 with four records from sector 385 on: files, of which the third takes the two sectors 387 and 388.
fn four(rt: &(impl AllocGlobal + Abort)) -> MemDisk {
    let mut keeper = opened(rt, 0);
    take(rt, &mut keeper, put(rt, A, "1"));
    take(rt, &mut keeper, put(rt, A, "2"));
    take(rt, &mut keeper, put_long(rt, A, 600));
    take(rt, &mut keeper, put(rt, A, "4"));
    disk_of(keeper).into_inner()
}

#[test]
fn behind_a_damaged_sector_whole_records_are_counted(rt: HostRuntime) {
    // the name, and then the number of the second record: with number 9 it is a whole one itself
    for (at, byte, count) in [(0, 0, 2), (19, 9, 3)] {
        let mut disk = four(&rt);
        change(&rt, &mut disk, 386, at, byte);
        let cut_off = Some(Uncounted {
            sector: 386,
            records: count,
        });
        let wanted = OpenedStore {
            generation: 3,
            records: 1,
            cut_off,
            damaged: None,
        };
        tells(&rt, disk, wanted);
    }
}

#[test]
fn the_sector_of_a_later_part_is_told(rt: HostRuntime) {
    let mut disk = four(&rt);
    disk.write(388, &filled(&[])).expect(&rt, "not written");
    let cut_off = Some(Uncounted {
        sector: 388,
        records: 1,
    });
    let wanted = OpenedStore {
        generation: 3,
        records: 2,
        cut_off,
        damaged: None,
    };
    tells(&rt, disk, wanted);
}

#[test]
fn beside_a_damaged_header_later_records_are_counted(rt: HostRuntime) {
    // slot B's header, of generation 3
    let mut disk = four(&rt);
    change(&rt, &mut disk, 65, 500, 1);
    let damaged = Some(Uncounted {
        sector: 65,
        records: 4,
    });
    let wanted = OpenedStore {
        generation: 1,
        records: 0,
        cut_off: None,
        damaged,
    };
    tells(&rt, disk, wanted);
}
