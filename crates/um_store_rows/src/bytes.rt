//! Canonical bytes: how values are spelled, and bytes that spell none.
use crate::spelled::{are_not_read, are_read, are_spelled, is_spelled};
use std::collections::BTreeMap;
use std::process::Abort;
use um_asserts::{same, text};
use um_model::{
    Counted, Deadline, End, JobKind, JobMode, JobState, Moment, NextNumber, ProcessNumber,
    SubState, UnitResult, UnitState,
};
use um_wire::{Canon, get_tag, put_tag, read_whole};

const BYTES: &[(u8, &[u8])] = &[(7, &[7])];

const SHORT_NUMBERS: &[(u32, &[u8])] = &[(0x0102_0304, &[1, 2, 3, 4]), (256, &[0, 0, 1, 0])];

const LONG_NUMBERS: &[(u64, &[u8])] = &[
    (0x0102_0304_0506_0708, &[1, 2, 3, 4, 5, 6, 7, 8]),
    (u64::MAX, &[255; 8]),
];

#[test]
fn numbers_stand_with_the_highest_byte_first(rt: HostRuntime) {
    are_spelled(&rt, BYTES, &[&[]]);
    are_spelled(&rt, SHORT_NUMBERS, &[&[0, 0, 1]]);
    are_spelled(&rt, LONG_NUMBERS, &[&[0, 0, 0, 0, 0, 0, 1]]);
    let read = u32::get(rt.alloc(), &[0, 0, 1, 0, 9, 9]).expect(&rt, "no memory");
    same!(&rt, read, Some((256, 4)));
    let whole = read_whole::<u8>(rt.alloc(), &[7]).expect(&rt, "no memory");
    let part = read_whole::<u8>(rt.alloc(), &[7, 7]).expect(&rt, "no memory");
    same!(&rt, [whole, part], [Some(7), None]);
}

const TRUTHS: &[(bool, &[u8])] = &[(false, &[0]), (true, &[1])];

const OPTIONS: &[(Option<u8>, &[u8])] = &[(None, &[0]), (Some(5), &[1, 5])];

const PAIRS: &[((Option<u8>, bool), &[u8])] = &[((Some(5), true), &[1, 5, 1])];

#[test]
fn truths_and_options_begin_with_0_or_1(rt: HostRuntime) {
    are_spelled(&rt, TRUTHS, &[&[2], &[]]);
    same!(&rt, get_tag::<bool>(&[1, 5]), Some((true, 1)));
    let mut out = Vec::new(rt.alloc());
    put_tag(&true, &mut out).expect(&rt, "no memory");
    same!(&rt, out.as_slice(), [1].as_slice());
    are_spelled(&rt, OPTIONS, &[&[2, 5], &[1], &[]]);
    are_spelled(&rt, PAIRS, &[]);
    are_not_read::<(u8, bool)>(&rt, &[&[7, 2]]);
}

/// Bytes that spell no text.
const NO_TEXTS: &[&[u8]] = &[
    &[],
    &[0, 0, 0, 3, 104, 104],
    &[255, 255, 255, 255, 104],
    &[0, 0, 0, 1, 195],
    &[0, 0, 0, 2, 195, 40],
];

#[test]
fn texts_and_lists_begin_with_their_length(rt: HostRuntime) {
    is_spelled(&rt, &text!(&rt, ""), &[0, 0, 0, 0]);
    let accented = text!(&rt, "h\u{e9}");
    is_spelled(&rt, &accented, &[0, 0, 0, 3, 104, 195, 169]);
    are_not_read::<String>(&rt, NO_TEXTS);
    let mut items = Vec::new(rt.alloc());
    is_spelled(&rt, &items, &[0, 0, 0, 0]);
    items.push((3u8, true)).expect(&rt, "no memory");
    items.push((2u8, false)).expect(&rt, "no memory");
    is_spelled(&rt, &items, &[0, 0, 0, 2, 3, 1, 2, 0]);
    are_not_read::<Vec<u8>>(&rt, &[&[0, 0, 0, 3, 1, 2]]);
    are_not_read::<Vec<bool>>(&rt, &[&[0, 0, 0, 2, 1, 2]]);
}

/// The bytes of the keys "", "Z" and "b" with the values 9, 1 and 2.
const ASCENDING: &[u8] = &[
    0, 0, 0, 3, 0, 0, 0, 0, 9, 0, 0, 0, 1, 90, 1, 0, 0, 0, 1, 98, 2,
];

/// Bytes that spell no map.
const NO_MAPS: &[&[u8]] = &[
    // the key "b" before the key "Z"
    &[0, 0, 0, 2, 0, 0, 0, 1, 98, 2, 0, 0, 0, 1, 90, 1],
    // the key "b" twice
    &[0, 0, 0, 2, 0, 0, 0, 1, 98, 2, 0, 0, 0, 1, 98, 2],
    // one key where the count says two
    &[0, 0, 0, 2, 0, 0, 0, 1, 98, 2],
    &[],
];

#[test]
fn the_keys_of_a_map_strictly_ascend(rt: HostRuntime) {
    let mut map = BTreeMap::new(rt.alloc());
    is_spelled(&rt, &map, &[0, 0, 0, 0]);
    for (key, number) in [("b", 2u8), ("Z", 1), ("", 9)] {
        let inserted: Result<_, _> = map.insert(text!(&rt, key), number);
        inserted.expect(&rt, "no memory");
    }
    is_spelled(&rt, &map, ASCENDING);
    are_not_read::<BTreeMap<String, u8>>(&rt, NO_MAPS);
}

const SUB_STATES: &[(SubState, &[u8])] = &[
    (SubState::Dead, &[0]),
    (SubState::Start, &[1]),
    (SubState::Running, &[2]),
    (SubState::Exited, &[3]),
    (SubState::Stop, &[4]),
    (SubState::StopSigterm, &[5]),
    (SubState::StopSigkill, &[6]),
    (SubState::Failed, &[7]),
    (SubState::AutoRestart, &[8]),
    (SubState::Active, &[9]),
    (SubState::StartPre, &[10]),
];

const RESULTS: &[(UnitResult, &[u8])] = &[
    (UnitResult::Success, &[0]),
    (UnitResult::ExitCode, &[1]),
    (UnitResult::Signal, &[2]),
    (UnitResult::Timeout, &[3]),
    (UnitResult::Lost, &[4]),
    (UnitResult::StartLimitHit, &[5]),
    (UnitResult::Dependency, &[6]),
    (UnitResult::NotLoaded, &[7]),
    (UnitResult::Resources, &[8]),
];

const JOB_KINDS: &[(JobKind, &[u8])] = &[(JobKind::Stop, &[0]), (JobKind::Start, &[1])];

const JOB_STATES: &[(JobState, &[u8])] = &[(JobState::Waiting, &[0]), (JobState::Running, &[1])];

const JOB_MODES: &[(JobMode, &[u8])] = &[(JobMode::Replace, &[0]), (JobMode::Fail, &[1])];

const ENDS: &[(End, &[u8])] = &[
    (End::Code(203), &[0, 203]),
    (End::Signal(9), &[1, 9]),
    (End::Lost, &[2]),
];

#[test]
fn what_has_no_parts_is_its_tag_and_an_end_has_its_byte_behind_it(rt: HostRuntime) {
    are_spelled(&rt, SUB_STATES, &[&[11], &[]]);
    are_spelled(&rt, RESULTS, &[&[9]]);
    are_spelled(&rt, JOB_KINDS, &[&[2]]);
    are_spelled(&rt, JOB_STATES, &[&[2]]);
    are_spelled(&rt, JOB_MODES, &[&[2]]);
    are_spelled(&rt, ENDS, &[&[3, 0], &[0], &[1], &[]]);
}

/// Moments at 1,100,000 and at the bound.
const MOMENTS: &[&[u8]] = &[&[0, 0, 0, 0, 0, 16, 200, 224], &[64, 0, 0, 0, 0, 0, 0, 0]];

/// The first process number, and the last.
const PROCESSES: &[&[u8]] = &[
    &[0, 0, 0, 0, 0, 0, 0, 1],
    &[127, 255, 255, 255, 255, 255, 255, 255],
];

/// Bytes that spell no process number.
const NO_PROCESS: &[&[u8]] = &[&[0, 0, 0, 0, 0, 0, 0, 0], &[128, 0, 0, 0, 0, 0, 0, 0]];

/// Bytes that spell no next number.
const NO_NEXT: &[&[u8]] = &[
    &[0, 0, 0, 0, 0, 0, 0, 0],
    &[128, 0, 0, 0, 0, 0, 0, 1],
    &[0, 0, 0, 0, 0, 0, 1],
];

#[test]
fn moments_and_numbers_stay_within_their_bounds(rt: HostRuntime) {
    are_read::<Moment>(&rt, MOMENTS, &[&[64, 0, 0, 0, 0, 0, 0, 1]]);
    let last: &[u8] = &[128, 0, 0, 0, 0, 0, 0, 0];
    are_read::<Deadline>(&rt, &[last], &[&[128, 0, 0, 0, 0, 0, 0, 1]]);
    are_read::<ProcessNumber>(&rt, PROCESSES, NO_PROCESS);
    is_spelled(&rt, &NextNumber::FIRST, &[0, 0, 0, 0, 0, 0, 0, 1]);
    are_read::<NextNumber>(&rt, &[last], NO_NEXT);
}

/// Bytes that spell no window: one that began past the bound, and one that ends early.
const NO_WINDOWS: &[&[u8]] = &[
    &[64, 0, 0, 0, 0, 0, 0, 1, 0, 0, 1, 2],
    &[0, 0, 0, 0, 0, 16, 200, 224, 0, 0, 1],
];

/// The bytes of a unit of which everything is known: auto-restart, timeout, processes 5 and 6, command 2, a deadline at
/// 7, a window of 3 starts since 1, a requested stop, ended by signal 15.
const UNIT: &[u8] = &[
    8, 3, 1, 0, 0, 0, 0, 0, 0, 0, 5, 1, 0, 0, 0, 0, 0, 0, 0, 6, 0, 0, 0, 2, 1, 0, 0, 0, 0, 0, 0, 0,
    7, 1, 0, 0, 0, 0, 0, 0, 0, 1, 0, 0, 0, 3, 1, 1, 1, 15,
];

/// Bytes that spell no unit.
const NO_UNITS: &[&[u8]] = &[
    &[11, 0, 0, 0, 0, 0, 0, 0, 0, 0, 0, 0],
    &[0, 9, 0, 0, 0, 0, 0, 0, 0, 0, 0, 0],
    &[0, 0, 2, 0, 0, 0, 0, 0, 0, 0, 0, 0],
    &[0, 0, 0, 0, 0, 0, 0, 0, 0, 0, 2, 0],
];

#[test]
fn a_window_and_a_unit_are_their_fields_in_order(rt: HostRuntime) {
    let began = Moment::new(1_100_000).expect(&rt, "no moment");
    let window = Counted { began, count: 258 };
    is_spelled(&rt, &window, &[0, 0, 0, 0, 0, 16, 200, 224, 0, 0, 1, 2]);
    are_not_read::<Counted>(&rt, NO_WINDOWS);
    is_spelled(&rt, &UnitState::DEAD, &[0, 0, 0, 0, 0, 0, 0, 0, 0, 0, 0, 0]);
    let began = Moment::new(1).expect(&rt, "no moment");
    let unit = UnitState {
        sub: SubState::AutoRestart,
        result: UnitResult::Timeout,
        main: ProcessNumber::new(5),
        control: ProcessNumber::new(6),
        index: 2,
        deadline: Deadline::new(7),
        window: Some(Counted { began, count: 3 }),
        stop_asked: true,
        last: Some(End::Signal(15)),
    };
    is_spelled(&rt, &unit, UNIT);
    are_not_read::<UnitState>(&rt, &[&UNIT[..UNIT.len() - 1]]);
    are_not_read::<UnitState>(&rt, NO_UNITS);
}
