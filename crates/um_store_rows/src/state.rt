//! The canonical bytes of the state: typed from the format, and each condition broken by one byte.
use crate::spelled::{are_not_read, are_read, hex, is_not_read, is_read, is_spelled};
use std::process::Abort;
use um_asserts::{same_at, text, unit};
use um_model::{
    Counted, Deadline, End, JobState, Moment, NextNumber, ProcessNumber, Profile, SubState,
    UnitJobs, UnitResult, UnitState,
};
use um_name::UnitName;
use um_state::{BootId, State};
use um_tree::Tree;
use um_wire::{Canon, spell};

/// The bytes of the empty state: the loaded profile, two empty trees, no boot, the clock, the next number, no unit, no job.
const EMPTY: &str = "
    02
    00000000 00000000
    00000000
    0000000000000000
    0000000000000001
    00000000
    00000000";

/// The loaded profile, the tree with a file and a link, the loaded tree without either, the boot, the clock and the next number; then ten
/// units, each its name and its fields; then the jobs.
const STATE: &str = "
    02
    00000002
    0000000d6574632f612e73657276696365 00 000000075b556e69745d0a
    0000000d6574632f622e73657276696365 01 00000009632e73657276696365
    00000000
    000000026231
    000000000010c8e0
    0000000000000008
    0000000a
    00000009302e73657276696365
    00 01 00 00 00000000 00 00 00 010003
    00000009312e73657276696365
    01 00 010000000000000005 010000000000000006 00000002 010000000000124f80 0100000000000f424000000003 00 00
    00000009322e73657276696365
    02 00 010000000000000007 00 00000000 00 00 00 00
    00000009332e73657276696365
    03 00 00 00 00000000 00 00 00 010000
    00000009342e73657276696365
    04 00 00 010000000000000004 00000000 010000000000124f80 00 01 00
    00000009352e73657276696365
    05 03 010000000000000003 00 00000000 00 00 01 00
    00000009362e73657276696365
    06 03 010000000000000002 00 00000000 00 00 00 00
    00000009372e73657276696365
    07 04 00 00 00000000 00 00 00 0102
    00000009382e73657276696365
    08 02 00 00 00000000 01000000000010c944 00 00 010109
    00000008392e746172676574
    09 00 00 00 00000000 00 00 00 00
    00000002
    00000009312e73657276696365 00 00
    00000009312e73657276696365 01 00";

/// A state with one unit, whose dead unit had the result in its 48th byte.
const DEAD: &str = "
    01
    00000000 00000000
    00000000
    0000000000000000
    0000000000000001
    00000001
    00000009612e73657276696365 00 01 00 00 00000000 00 00 00 00
    00000000";

/// A state with one unit, which is in start-pre.
const PREPARED: &str = "
    02
    00000000 00000000
    00000000
    0000000000000000
    0000000000000002
    00000001
    00000009612e73657276696365 0a 00 00 010000000000000001 00000000 00 00 00 00
    00000000";

/// What no state has: a byte of the state above, and what stands in its place.
const BROKEN: &[(&str, usize, u8)] = &[
    ("profile 0", 0, 0),
    ("profile 3", 0, 3),
    ("profile 255", 0, 255),
    ("an entry with another tag", 22, 2),
    ("a path that no tree has", 9, 102),
    ("a path behind the next one", 13, 99),
    ("a path twice", 42, 97),
    ("a target that no tree has", 56, 98),
    ("a clock past 2^62", 75, 64),
    ("no next number", 90, 0),
    ("a next number past 2^63", 83, 128),
    ("a live number that is the next", 90, 7),
    ("a unit without a name", 99, 47),
    ("a name twice", 126, 48),
    ("a name before the last one", 187, 48),
    ("an unknown sub state", 196, 11),
    ("an unknown result", 197, 9),
    ("an option of neither kind", 207, 2),
    ("a live number of 0", 340, 0),
    ("a live number past 2^63", 333, 128),
    ("a live number twice", 340, 3),
    ("both processes of a unit with one number", 154, 5),
    ("a deadline past 2^63", 160, 128),
    ("a window that began after the clock", 173, 17),
    ("a stop that is neither asked for nor not", 433, 2),
    ("an unknown end", 375, 3),
    ("a job of neither kind", 467, 2),
    ("a start job before the stop job", 452, 1),
    ("a stop job twice", 467, 0),
    ("a job behind the next one", 443, 50),
    ("a job of no unit", 443, 47),
    ("a job that neither waits nor runs", 468, 2),
    ("one job more than there are", 438, 3),
];

/// How a unit stands: its processes by number, where 0 is none, and its moments in microseconds.
struct Standing {
    sub: SubState,
    outcome: UnitResult,
    main: u64,
    control: u64,
    index: u32,
    deadline: Option<u64>,
    window: Option<(u64, u32)>,
    stop_asked: bool,
    last: Option<End>,
}

/// A unit of which nothing is known.
const DEAD_UNIT: Standing = Standing {
    sub: SubState::Dead,
    outcome: UnitResult::Success,
    main: 0,
    control: 0,
    index: 0,
    deadline: None,
    window: None,
    stop_asked: false,
    last: None,
};

/// The units of the state above.
const UNITS: &[(&str, Standing)] = &[
    (
        "0.service",
        Standing {
            outcome: UnitResult::ExitCode,
            last: Some(End::Code(3)),
            ..DEAD_UNIT
        },
    ),
    // it starts, with both processes, a deadline and a window
    (
        "1.service",
        Standing {
            sub: SubState::Start,
            main: 5,
            control: 6,
            index: 2,
            deadline: Some(1_200_000),
            window: Some((1_000_000, 3)),
            ..DEAD_UNIT
        },
    ),
    (
        "2.service",
        Standing {
            sub: SubState::Running,
            main: 7,
            ..DEAD_UNIT
        },
    ),
    (
        "3.service",
        Standing {
            sub: SubState::Exited,
            last: Some(End::Code(0)),
            ..DEAD_UNIT
        },
    ),
    // it is stopped by its own command
    (
        "4.service",
        Standing {
            sub: SubState::Stop,
            control: 4,
            deadline: Some(1_200_000),
            stop_asked: true,
            ..DEAD_UNIT
        },
    ),
    // its end was ordered
    (
        "5.service",
        Standing {
            sub: SubState::StopSigterm,
            outcome: UnitResult::Timeout,
            main: 3,
            stop_asked: true,
            ..DEAD_UNIT
        },
    ),
    (
        "6.service",
        Standing {
            sub: SubState::StopSigkill,
            outcome: UnitResult::Timeout,
            main: 2,
            ..DEAD_UNIT
        },
    ),
    (
        "7.service",
        Standing {
            sub: SubState::Failed,
            outcome: UnitResult::Lost,
            last: Some(End::Lost),
            ..DEAD_UNIT
        },
    ),
    // it waits to restart
    (
        "8.service",
        Standing {
            sub: SubState::AutoRestart,
            outcome: UnitResult::Signal,
            deadline: Some(1_100_100),
            last: Some(End::Signal(9)),
            ..DEAD_UNIT
        },
    ),
    (
        "9.target",
        Standing {
            sub: SubState::Active,
            ..DEAD_UNIT
        },
    ),
];

/// The unit that stands so.
fn unit_state(rt: &impl Abort, of: &Standing) -> UnitState {
    let deadline = match of.deadline {
        Some(micros) => Deadline::new(micros),
        None => None,
    };
    let window = match of.window {
        Some((micros, count)) => {
            let began = Moment::new(micros).expect(rt, "no moment");
            Some(Counted { began, count })
        }
        None => None,
    };
    UnitState {
        sub: of.sub,
        result: of.outcome,
        main: ProcessNumber::new(of.main),
        control: ProcessNumber::new(of.control),
        index: of.index,
        deadline,
        window,
        stop_asked: of.stop_asked,
        last: of.last,
    }
}

/// Has the unit stand so.
fn set(rt: &(impl AllocGlobal + Abort), state: &mut State, name: &str, of: UnitState) {
    state.set_unit(&unit!(rt, name), of).expect(rt, "no memory");
}

/// Boots.
fn boot(rt: &(impl AllocGlobal + Abort), state: &mut State) {
    let boot = BootId::new(text!(rt, "b1")).expect(rt, "no boot");
    state.begin_boot(rt.alloc(), boot);
}

/// Sets the clock and the next number.
fn advance(rt: &impl Abort, state: &mut State) {
    state.set_clock(Moment::new(1_100_000).expect(rt, "no moment"));
    state.set_next(NextNumber::new(8).expect(rt, "no number"));
}

/// Puts a file and a link.
fn put_entries(rt: &impl Abort, state: &mut State) {
    let file: Result<_, _> = state.put_file("etc/a.service", "[Unit]\n");
    file.expect(rt, "no file");
    let link: Result<_, _> = state.put_link("etc/b.service", "c.service");
    link.expect(rt, "no link");
}

/// Puts both jobs of a unit.
fn put_jobs(rt: &(impl AllocGlobal + Abort), state: &mut State) {
    let both = UnitJobs {
        stop: Some(JobState::Waiting),
        start: Some(JobState::Waiting),
    };
    let jobs: Result<_, _> = state.set_jobs(&unit!(rt, "1.service"), both);
    jobs.expect(rt, "no memory");
}

/// The empty state, in a box, which is dropped in one call.
fn empty(rt: &(impl AllocGlobal + Abort)) -> Box<State> {
    Box::new(rt.alloc(), State::empty(rt.alloc())).expect(rt, "no memory")
}

/// The state of which the bytes are above.
fn full(rt: &(impl AllocGlobal + Abort)) -> Box<State> {
    let mut state = empty(rt);
    boot(rt, &mut state);
    advance(rt, &mut state);
    put_entries(rt, &mut state);
    for (name, of) in UNITS {
        set(rt, &mut state, name, unit_state(rt, of));
    }
    put_jobs(rt, &mut state);
    state
}

/// Puts an empty file into the tree in hand.
fn put(rt: &impl Abort, state: &mut State, path: &str) {
    let put: Result<_, _> = state.put_file(path, "");
    put.expect(rt, "no file");
}

/// Puts an empty file, and loads the tree.
fn load(rt: &impl Abort, state: &mut State, path: &str) {
    put(rt, state, path);
    state.reload(Profile::current()).expect(rt, "no memory");
}

/// The same state again, in a box.
fn copied(rt: &(impl AllocGlobal + Abort), state: &State) -> Box<State> {
    let copy = state.copy().expect(rt, "no memory");
    Box::new(rt.alloc(), copy).expect(rt, "no memory")
}

/// Asserts in which of the two trees something stands at the path: in the one in hand, in the loaded one.
fn stands(rt: &impl Abort, state: &State, path: &str, wanted: (bool, bool)) {
    let in_hand = state.tree().get(path).is_some();
    let is_loaded = state.loaded().tree.get(path).is_some();
    same_at!(rt, (in_hand, is_loaded), wanted, path);
}

/// Asserts that a file put into a copy stands in the copy's tree in hand alone.
fn is_put_apart(rt: &(impl AllocGlobal + Abort), state: &State, path: &str) {
    let mut copy = copied(rt, state);
    put(rt, &mut copy, path);
    stands(rt, &copy, path, (true, false));
    stands(rt, &copy, "etc/a.service", (true, true));
    stands(rt, state, path, (false, false));
}

/// Asserts that a boot takes the file under `run/` out of a copy alone, and leaves the other one.
fn is_cleared_apart(rt: &(impl AllocGlobal + Abort), state: &State) {
    let mut copy = copied(rt, state);
    boot(rt, &mut copy);
    stands(rt, &copy, "run/b.service", (false, false));
    stands(rt, &copy, "etc/a.service", (true, true));
    stands(rt, state, "run/b.service", (true, true));
}

/// Asserts that no front of the bytes spells a state, in this row.
fn state_is_not_read(rt: &(impl AllocGlobal + Abort), bytes: &[u8], row: &str) {
    is_not_read::<State, _>(rt, bytes, row);
}

/// Asserts that these are the bytes of the empty state.
fn is_of_the_empty_state(rt: &(impl AllocGlobal + Abort), bytes: &[u8]) {
    assert!(rt; bytes.len() == 37, "the empty state has other bytes");
    is_spelled(rt, empty(rt).as_ref(), bytes);
    state_is_not_read(rt, &bytes[1..], "no profile");
}

/// Asserts that these are the bytes of the state above.
fn is_of_the_full_state(rt: &(impl AllocGlobal + Abort), bytes: &[u8]) {
    is_spelled(rt, full(rt).as_ref(), bytes);
}

#[test]
fn a_state_is_its_fields_in_order(rt: HostRuntime) {
    is_of_the_empty_state(&rt, hex(&rt, EMPTY).as_slice());
    is_of_the_full_state(&rt, hex(&rt, STATE).as_slice());
    is_read::<State>(&rt, hex(&rt, DEAD).as_slice());
}

/// The bytes with the tag of another profile in front.
fn of_profile(rt: &(impl AllocGlobal + Abort), text: &str, tag: u8) -> Vec<u8> {
    let mut bytes = hex(rt, text);
    assert!(rt; bytes.len() > 0, "there is no byte");
    bytes[0] = tag;
    bytes
}

#[test]
fn a_state_of_each_profile_is_read(rt: HostRuntime) {
    for text in &[EMPTY, STATE, DEAD] {
        is_read::<State>(&rt, of_profile(&rt, text, 1).as_slice());
        is_read::<State>(&rt, of_profile(&rt, text, 2).as_slice());
    }
}

#[test]
fn a_unit_is_in_start_pre_under_profile_2_alone(rt: HostRuntime) {
    is_read::<State>(&rt, hex(&rt, PREPARED).as_slice());
    state_is_not_read(&rt, of_profile(&rt, PREPARED, 1).as_slice(), "profile 1");
}

/// Asserts that the state is the empty one but for the profile, of this tag.
fn is_empty_of(rt: &(impl AllocGlobal + Abort), state: &State, tag: u8) {
    is_spelled(rt, state, of_profile(rt, EMPTY, tag).as_slice());
}

/// The empty state that begins with this tag.
fn empty_of(rt: &(impl AllocGlobal + Abort), tag: u8) -> Box<State> {
    let found = State::get(rt.alloc(), of_profile(rt, EMPTY, tag).as_slice());
    let (state, _) = found.expect(rt, "no memory").expect(rt, "it isn't read");
    Box::new(rt.alloc(), state).expect(rt, "no memory")
}

#[test]
fn a_tree_is_loaded_by_the_later_profile(rt: HostRuntime) {
    is_empty_of(&rt, &empty(&rt), 2);
    let mut state = empty_of(&rt, 1);
    state.reload(Profile::One).expect(&rt, "no memory");
    is_empty_of(&rt, &state, 1);
    state.reload(Profile::Two).expect(&rt, "no memory");
    is_empty_of(&rt, &state, 2);
    state.reload(Profile::One).expect(&rt, "no memory");
    is_empty_of(&rt, &state, 2);
}

#[test]
fn copies_of_a_state_share_its_trees_and_no_change_of_them(rt: HostRuntime) {
    let mut state = empty(&rt);
    load(&rt, &mut state, "etc/a.service");
    is_put_apart(&rt, &state, "etc/c.service");
    is_put_apart(&rt, &state, "run/b.service");
    // from here on the trees aren't shared
    load(&rt, &mut state, "run/b.service");
    is_put_apart(&rt, &state, "etc/c.service");
    is_cleared_apart(&rt, &state);
}

/// Asserts that no front of these bytes spells a state, with another one at this place, in this row.
fn is_broken(rt: &(impl AllocGlobal + Abort), text: &str, at: usize, byte: u8, row: &str) {
    let mut bytes = hex(rt, text);
    assert!(rt; at < bytes.len(), "there is no such byte");
    bytes[at] = byte;
    state_is_not_read(rt, bytes.as_slice(), row);
}

#[test]
fn no_byte_may_break_a_condition(rt: HostRuntime) {
    for (row, at, byte) in BROKEN {
        is_broken(&rt, STATE, *at, *byte, row);
    }
    is_broken(&rt, DEAD, 47, 0, "a dead unit of which nothing is known");
}

/// How `9.target` stands in the bytes above.
const TARGET: &str = "09 00 00 00 00000000 00 00 00 00";

/// What `9.target` would be: the number of its process, its bytes then, and why no run reaches the state.
const UNREACHED: &[(u64, &str, &str)] = &[
    (
        7,
        "02 00 010000000000000007 00 00000000 00 00 00 00",
        "a number twice",
    ),
    (
        8,
        "02 00 010000000000000008 00 00000000 00 00 00 00",
        "the next number",
    ),
];

/// Asserts that a state has no spelling, and that no front of the bytes above spells one with this part in the place of that.
fn is_no_state(rt: &(impl AllocGlobal + Abort), state: &State, part: &str, other: &str, row: &str) {
    same_at!(rt, spell(rt.alloc(), state).is_err(), true, row);
    let text = STATE.replace(rt.alloc(), part, other);
    let text = text.expect(rt, "no memory");
    state_is_not_read(rt, hex(rt, text.as_str()).as_slice(), row);
}

/// The state above, in which `9.target` runs as the process of this number.
fn with_process(rt: &(impl AllocGlobal + Abort), number: u64) -> Box<State> {
    let mut state = full(rt);
    let again = UnitState {
        sub: SubState::Running,
        main: ProcessNumber::new(number),
        ..UnitState::DEAD
    };
    set(rt, &mut state, "9.target", again);
    state
}

/// The state above at the first moment.
fn sooner(rt: &(impl AllocGlobal + Abort)) -> Box<State> {
    let mut state = full(rt);
    state.set_clock(Moment::FIRST);
    state
}

#[test]
fn a_state_that_no_run_reaches_is_not_read_again(rt: HostRuntime) {
    for (number, bytes, why) in UNREACHED {
        let state = with_process(&rt, *number);
        is_no_state(&rt, &state, TARGET, bytes, why);
    }
    let (clock, first) = ("000000000010c8e0", "0000000000000000");
    is_no_state(&rt, &sooner(&rt), clock, first, "a window after the clock");
}

/// The bytes with `count` others after them, each of which is this one.
fn padded(rt: &(impl AllocGlobal + Abort), front: &str, count: usize, byte: u8) -> Vec<u8> {
    let mut bytes = hex(rt, front);
    for _ in 0..count {
        bytes.push(byte).expect(rt, "no memory");
    }
    bytes
}

/// A tree with one file of 65,536 bytes, and with one of 65,537, in front of the file's bytes.
const LONG_TEXT: &str = "00000001 0000000d6574632f612e73657276696365 00 00010000";

const TOO_LONG_TEXT: &str = "00000001 0000000d6574632f612e73657276696365 00 00010001";

/// Puts the bytes of the file of this number, which holds nothing.
fn put_file_of(rt: &(impl AllocGlobal + Abort), bytes: &mut Vec<u8>, number: u32) {
    let path = format!(in rt.alloc(); "etc/{number:04}.service").expect(rt, "no memory");
    path.put(bytes).expect(rt, "no memory");
    bytes
        .extend_from_slice(&[0, 0, 0, 0, 0])
        .expect(rt, "no memory");
}

/// The bytes of a tree with `count` files, none of which holds anything.
fn tree_of_files(rt: &(impl AllocGlobal + Abort), count: u32) -> Vec<u8> {
    let mut bytes = Vec::new(rt.alloc());
    count.put(&mut bytes).expect(rt, "no memory");
    for number in 0..count {
        put_file_of(rt, &mut bytes, number);
    }
    bytes
}

/// Asserts that a tree is read from the bytes, and is spelled by them.
fn is_tree(rt: &(impl AllocGlobal + Abort), bytes: &[u8]) {
    are_read::<Tree>(rt, &[bytes], &[]);
}

/// Asserts that no front of the bytes spells a tree.
fn is_no_tree(rt: &(impl AllocGlobal + Abort), bytes: &[u8]) {
    are_not_read::<Tree>(rt, &[bytes]);
}

#[test]
fn a_tree_has_texts_of_65536_bytes_and_4096_entries_at_most(rt: HostRuntime) {
    is_tree(&rt, padded(&rt, LONG_TEXT, 65_536, 35).as_slice());
    is_no_tree(&rt, padded(&rt, TOO_LONG_TEXT, 65_537, 35).as_slice());
    is_tree(&rt, tree_of_files(&rt, 4096).as_slice());
    is_no_tree(&rt, tree_of_files(&rt, 4097).as_slice());
}

#[test]
fn the_id_of_a_boot_has_64_bytes_at_most_and_a_name_names_a_unit(rt: HostRuntime) {
    let id = padded(&rt, "00000040", 64, 97);
    let long = padded(&rt, "00000041", 65, 97);
    are_read::<BootId>(&rt, &[id.as_slice()], &[long.as_slice()]);
    let name = hex(&rt, "00000006612e70617468");
    is_spelled(&rt, &unit!(&rt, "a.path"), name.as_slice());
    let dash = hex(&rt, "00000006612d70617468");
    let short = hex(&rt, "00000007612e70617468");
    are_not_read::<UnitName>(&rt, &[dash.as_slice(), short.as_slice(), &[]]);
}
