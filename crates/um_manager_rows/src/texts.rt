//! The texts of the files: which are read, and as what.
use std::process::Abort;
use um_asserts::{same_at, text};
use um_runner::{Claimant, End, entries_text, read_claim, read_entries, read_pid, read_status};

/// Texts of a status file, and the ends that they name.
const STATUSES: &[(&[u8], Option<End>)] = &[
    (b"code 0\n", Some(End::Code(0))),
    (b"code 3\n", Some(End::Code(3))),
    (b"code 255\n", Some(End::Code(255))),
    (b"signal 9\n", Some(End::Signal(9))),
    (b"signal 15\n", Some(End::Signal(15))),
    (b"", None),
    (b"\n", None),
    (b"code 256\n", None),
    (b"signal 256\n", None),
    (b"signal 9", None),
    (b"code 03\n", None),
    (b"code 00\n", None),
    (b"code +3\n", None),
    (b"code -1\n", None),
    (b"code  3\n", None),
    (b"code 3 \n", None),
    (b"code 3\r\n", None),
    (b"code 3\n\n", None),
    (b" code 3\n", None),
    (b"Code 3\n", None),
    (b"code \n", None),
    (b"code 3\nx", None),
    (b"code 18446744073709551619\n", None),
    (b"\xff\xfe\n", None),
    (b"code \xb3\n", None),
];

#[test]
fn a_status_is_read_in_its_one_form(rt: HostRuntime) {
    for (text, end) in STATUSES {
        same_at!(&rt, read_status(text), *end, text);
    }
}

/// Texts of a pid file, and the pids that they name.
const PIDS: &[(&[u8], Option<u32>)] = &[
    (b"1\n", None),
    (b"2\n", Some(2)),
    (b"4711\n", Some(4711)),
    (b"2147483647\n", Some(2147483647)),
    (b"0\n", None),
    (b"2147483648\n", None),
    (b"4294967295\n", None),
    (b"12a\n", None),
    (b"12a", None),
    (b"12", None),
    (b"012\n", None),
    (b"-12\n", None),
    (b"+12\n", None),
    (b"", None),
];

#[test]
fn a_pid_is_read_in_its_one_form(rt: HostRuntime) {
    for (text, pid) in PIDS {
        same_at!(&rt, read_pid(text), *pid, text);
    }
}

/// Texts of a claim, and whose they are.
const CLAIMS: &[(&[u8], Claimant)] = &[
    (b"manager\n", Claimant::Manager),
    (b"runner\n", Claimant::Runner),
    (b"manager", Claimant::Runner),
    (b"manager\n\n", Claimant::Runner),
    (b"x", Claimant::Runner),
    (b"", Claimant::Runner),
];

#[test]
fn every_other_claim_is_a_runners(rt: HostRuntime) {
    for (text, claimant) in CLAIMS {
        same_at!(&rt, read_claim(text), *claimant, text);
    }
}

/// Texts of a file of entries, and the entries that they hold, joined with a `;`.
const ENTRIES: &[(&str, Option<&str>)] = &[
    ("\0", Some("")),
    ("\0\0\0", Some("")),
    ("A=b\0\0", Some("A=b;")),
    ("A=b\0\0C=d\0\0", Some("A=b;")),
    ("A=b\0C=d\ne\0\0\0\0", Some("A=b;C=d\ne;")),
    ("\n\0\0", Some("\n;")),
    ("", None),
    ("A=b", None),
    ("A=b\0", None),
    ("A=b\0C=d\0", None),
    ("A=b\0C=d", None),
];

/// The entries, joined.
fn joined(rt: &(impl AllocGlobal + Abort), entries: &[String]) -> String {
    let mut told = String::new(rt.alloc());
    for entry in entries {
        told.push_str(entry.as_str()).expect(rt, "no memory");
        told.push(';').expect(rt, "no memory");
    }
    told
}

#[test]
fn entries_are_read_up_to_an_empty_one(rt: HostRuntime) {
    for (text, wanted) in ENTRIES {
        let entries = read_entries(rt.alloc(), text).expect(&rt, "no memory");
        let told = entries.map(|entries| joined(&rt, entries.as_slice()));
        same_at!(&rt, told.as_ref().map(|told| told.as_str()), *wanted, text);
    }
}

/// Asserts how long the text of one entry is: NAME=value with a value of `size` bytes.
fn measures(rt: &(impl AllocGlobal + Abort), size: usize, wanted: usize) {
    let value = "x".repeat(rt.alloc(), size).expect(rt, "no memory");
    let entry = format!(in rt.alloc(); "NAME={value}").expect(rt, "no memory");
    let entries = [entry];
    let text = entries_text(rt.alloc(), entries.as_slice()).expect(rt, "no memory");
    let length = text.map_or(0, |text| text.len());
    same_at!(rt, length, wanted, size);
}

#[test]
fn a_text_of_entries_is_four_blocks_long_or_longer(rt: HostRuntime) {
    measures(&rt, 0, 16_384);
    // NAME=, 16,377 bytes and two zero bytes
    measures(&rt, 16_377, 16_384);
    measures(&rt, 16_378, 16_385);
    measures(&rt, 20_000, 20_007);
}

#[test]
fn what_a_text_cannot_tell_is_refused(rt: HostRuntime) {
    for entry in ["", "A=b\0C=d", "A=\0"] {
        let entries = [text!(&rt, entry)];
        let text = entries_text(rt.alloc(), entries.as_slice()).expect(&rt, "no memory");
        same_at!(&rt, text.is_none(), true, entry);
    }
}
