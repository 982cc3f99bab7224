//! The canonical bytes of inputs: each of the 18, typed from the format, and bytes that spell none.
use crate::spelled::{hex, is_not_read, is_read, is_spelled, read_from};
use std::process::Abort;
use um_asserts::{same, text, unit};
use um_model::{End, InstallVerb, JobMode, Moment, Profile, UnitVerb};
use um_state::{BootId, Command, Event, Happening, Input};
use um_tree::Tree;
use um_wire::spell;

/// The unit of each command for one.
const UNIT: &str = "a.service";

/// A command, or a happening, by its texts.
enum Coming {
    PutFile(&'static str, &'static str),
    PutLink(&'static str, &'static str),
    Remove(&'static str),
    DaemonReload,
    ForUnit(UnitVerb, JobMode),
    Cancel,
    ResetFailed,
    ResetAllFailed,
    Install(InstallVerb),
    Ended(u64, End),
    Executed(u64),
    Tick,
    Booted(&'static str),
}

/// The command; None for a happening.
fn command(rt: &(impl AllocGlobal + Abort), coming: &Coming) -> Option<Command> {
    let command = match coming {
        Coming::PutFile(path, content) => Command::PutFile {
            path: text!(rt, path),
            text: text!(rt, content),
        },
        Coming::PutLink(path, target) => Command::PutLink {
            path: text!(rt, path),
            target: text!(rt, target),
        },
        Coming::Remove(path) => Command::Remove {
            path: text!(rt, path),
        },
        Coming::DaemonReload => Command::DaemonReload,
        Coming::ForUnit(verb, mode) => Command::ForUnit {
            verb: *verb,
            unit: unit!(rt, UNIT),
            mode: *mode,
        },
        Coming::Cancel => Command::Cancel {
            unit: unit!(rt, UNIT),
        },
        Coming::ResetFailed => Command::ResetFailed {
            unit: Some(unit!(rt, UNIT)),
        },
        Coming::ResetAllFailed => Command::ResetFailed { unit: None },
        Coming::Install(verb) => Command::Install {
            verb: *verb,
            unit: unit!(rt, UNIT),
        },
        _ => return None,
    };
    Some(command)
}

/// The happening; for a command a tick.
fn happening(rt: &(impl AllocGlobal + Abort), coming: &Coming) -> Happening {
    match coming {
        Coming::Ended(number, end) => Happening::ProcessEnded {
            number: *number,
            end: *end,
        },
        Coming::Executed(number) => Happening::ProcessExecuted { number: *number },
        Coming::Booted(id) => Happening::Booted {
            boot: BootId::new(text!(rt, id)).expect(rt, "no boot"),
        },
        _ => Happening::Tick,
    }
}

/// The inputs at 1,100,000, in the order of the tags, and their bytes.
const INPUTS: &[(Coming, &str)] = &[
    // changes of the tree
    (
        Coming::PutFile("etc/x", "#\n"),
        "02 01 000000000010c8e0 00000005 6574632f78 00000002 230a",
    ),
    (
        Coming::PutLink("run/x", ""),
        "02 02 000000000010c8e0 00000005 72756e2f78 00000000",
    ),
    (Coming::Remove(""), "02 03 000000000010c8e0 00000000"),
    (Coming::DaemonReload, "02 04 000000000010c8e0"),
    // commands for a unit
    (
        Coming::ForUnit(UnitVerb::Start, JobMode::Replace),
        "02 05 000000000010c8e0 00000009 612e73657276696365 00",
    ),
    (
        Coming::ForUnit(UnitVerb::Stop, JobMode::Fail),
        "02 06 000000000010c8e0 00000009 612e73657276696365 01",
    ),
    (
        Coming::ForUnit(UnitVerb::Restart, JobMode::Replace),
        "02 07 000000000010c8e0 00000009 612e73657276696365 00",
    ),
    (
        Coming::ForUnit(UnitVerb::TryRestart, JobMode::Fail),
        "02 08 000000000010c8e0 00000009 612e73657276696365 01",
    ),
    (
        Coming::Cancel,
        "02 09 000000000010c8e0 00000009 612e73657276696365",
    ),
    (
        Coming::ResetFailed,
        "02 0a 000000000010c8e0 01 00000009 612e73657276696365",
    ),
    (Coming::ResetAllFailed, "02 0a 000000000010c8e0 00"),
    // enabling and its kin
    (
        Coming::Install(InstallVerb::Enable),
        "02 0b 000000000010c8e0 00000009 612e73657276696365",
    ),
    (
        Coming::Install(InstallVerb::Disable),
        "02 0c 000000000010c8e0 00000009 612e73657276696365",
    ),
    (
        Coming::Install(InstallVerb::Mask),
        "02 0d 000000000010c8e0 00000009 612e73657276696365",
    ),
    (
        Coming::Install(InstallVerb::Unmask),
        "02 0e 000000000010c8e0 00000009 612e73657276696365",
    ),
    // happenings
    (
        Coming::Ended(258, End::Signal(15)),
        "02 0f 000000000010c8e0 0000000000000102 010f",
    ),
    (
        Coming::Executed(u64::MAX),
        "02 10 000000000010c8e0 ffffffffffffffff",
    ),
    (Coming::Tick, "0211000000000010c8e0"),
    (Coming::Booted("b1"), "02 12 000000000010c8e0 00000002 6231"),
];

/// The event.
fn event(rt: &(impl AllocGlobal + Abort), coming: &Coming) -> Event {
    match command(rt, coming) {
        Some(command) => Event::Commanded(command),
        None => Event::Happened(happening(rt, coming)),
    }
}

/// Asserts that the event at 1,100,000 is spelled by these bytes.
fn is_input(rt: &(impl AllocGlobal + Abort), coming: &Coming, bytes: &str) {
    let moment = Moment::new(1_100_000).expect(rt, "no moment");
    let input = Input::new(moment, event(rt, coming));
    is_spelled(rt, &input, hex(rt, bytes).as_slice());
    drop(input);
}

/// Inputs that are the same but for the profile, which is the first byte.
const PROFILES: &[(Profile, &str)] = &[
    (Profile::One, "01 11 000000000010c8e0"),
    (Profile::Two, "02 11 000000000010c8e0"),
    (Profile::One, "01 04 000000000010c8e0"),
    (Profile::Two, "02 04 000000000010c8e0"),
];

/// Asserts that an input of this profile is read from the bytes, and is spelled by them.
fn is_of_profile(rt: &(impl AllocGlobal + Abort), profile: Profile, bytes: &[u8]) {
    is_read::<Input>(rt, bytes);
    let input: Input = read_from(rt, bytes);
    same!(rt, input.profile(), profile);
}

#[test]
fn inputs_of_each_profile_are_read(rt: HostRuntime) {
    for (profile, bytes) in PROFILES {
        is_of_profile(&rt, *profile, hex(&rt, bytes).as_slice());
    }
}

#[test]
fn inputs_are_spelled_by_their_tags(rt: HostRuntime) {
    for (coming, bytes) in INPUTS {
        is_input(&rt, coming, bytes);
    }
}

/// Asserts that a tree takes the file.
fn is_accepted(rt: &(impl AllocGlobal + Abort), path: &str, text: &str) {
    let mut tree = Tree::new(rt.alloc());
    let accepted: Result<_, _> = tree.put(path, text);
    accepted.expect(rt, "no file");
    drop(tree);
}

/// How many bytes spell the event at 1,100,000.
fn length_of(rt: &(impl AllocGlobal + Abort), event: Event) -> usize {
    let moment = Moment::new(1_100_000).expect(rt, "no moment");
    let input = Input::new(moment, event);
    let bytes = spell(rt.alloc(), &input).expect(rt, "no memory");
    drop(input);
    bytes.len()
}

#[test]
fn the_longest_input_that_is_accepted_has_66078_bytes(rt: HostRuntime) {
    let unit = "a".repeat(rt.alloc(), 247).expect(&rt, "no memory");
    let path = format!(in rt.alloc(); "etc/{unit}.service.requires/{unit}.service");
    let path = path.expect(&rt, "no memory");
    let text = "a".repeat(rt.alloc(), 65_536).expect(&rt, "no memory");
    is_accepted(&rt, path.as_str(), text.as_str());
    let put = Event::Commanded(Command::PutFile { path, text });
    same!(&rt, length_of(&rt, put), 66_078);
}

/// Bytes that spell no input, and why.
const NONE: &[(&str, &str)] = &[
    ("profile 0", "00 11 000000000010c8e0"),
    ("profile 3", "03 11 000000000010c8e0"),
    ("profile 255", "ff 11 000000000010c8e0"),
    ("no profile", ""),
    ("no tag", "01"),
    ("tag 0", "01 00 000000000010c8e0"),
    ("tag 19", "01 13 000000000010c8e0"),
    ("tag 255", "01 ff 000000000010c8e0 00000000"),
    ("a moment past 2^62", "01 11 4000000000000001"),
    ("a moment of seven bytes", "01 11 00000000 10c8e0"),
    (
        "no unit name",
        "01 09 000000000010c8e0 00000009 612d73657276696365",
    ),
    (
        "mode 2",
        "01 05 000000000010c8e0 00000009 612e73657276696365 02",
    ),
    (
        "no mode",
        "01 05 000000000010c8e0 00000009 612e73657276696365",
    ),
    ("an option of neither kind", "01 0a 000000000010c8e0 02"),
    (
        "an unknown end",
        "01 0f 000000000010c8e0 0000000000000102 03",
    ),
    ("no end", "01 0f 000000000010c8e0 0000000000000102"),
    ("no text", "01 01 000000000010c8e0 00000005 6574632f78"),
];

#[test]
fn other_bytes_are_no_input(rt: HostRuntime) {
    for (row, line) in NONE {
        is_not_read::<Input, _>(&rt, hex(&rt, line).as_slice(), row);
    }
}
