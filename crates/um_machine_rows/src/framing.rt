//! The bounds of the frames in a stream.
use crate::devices::Slow;
use crate::script::{front, has_replies, rest, served};
use crate::texts::{BAD_REQUEST, DONE, RELOAD};
use std::process::Abort;
use um_asserts::{frames, same, same_at};
use um_memory::{Ending, memory};

/// The longest frame, in bytes.
const FRAME_LIMIT: usize = 524_288;

const SHOW: &str = r#"{"verb":"show","unit":"nix.service"}"#;

const NOT_FOUND: &str =
    r#"{"ok":true,"value":{"ActiveState":"inactive","Description":"","Id":"nix.service","LoadState":"not-found","MainNumber":0,"Result":"success","SubState":"dead","Warnings":[]}}"#;

/// A request followed by spaces, of this number of bytes in all.
fn padded(rt: &(impl AllocGlobal + Abort), size: usize) -> String {
    let spaces = " ".repeat(rt.alloc(), size.saturating_sub(SHOW.len()));
    let spaces = spaces.expect(rt, "no memory");
    format!(in rt.alloc(); "{SHOW}{spaces}").expect(rt, "no memory")
}

/// An empty frame, a short one, one of this number of bytes, one longer than the longest by a byte, and one that isn't read.
fn at_the_limits(rt: &(impl AllocGlobal + Abort), size: usize) -> Vec<u8> {
    let long = padded(rt, size);
    let longer = padded(rt, FRAME_LIMIT + 1);
    let texts = ["", RELOAD, long.as_str(), longer.as_str(), RELOAD];
    frames(rt.alloc(), &texts).expect(rt, "no memory")
}

/// The replies to those frames.
const REPLIES: &[(&str, &str)] = &[
    ("an empty frame", BAD_REQUEST),
    ("a short one", DONE),
    ("a long one", NOT_FOUND),
    (
        "one longer than the longest",
        r#"{"detail":["frame"],"error":13,"ok":false}"#,
    ),
];

#[test]
fn the_longest_frame_is_served_and_a_longer_one_ends_the_session(rt: HostRuntime) {
    let input = at_the_limits(&rt, FRAME_LIMIT);
    let longest = front(rest(input.as_slice(), 32), 5);
    same!(&rt, longest, b"\x00\x08\x00\x00{".as_slice());
    let (output, ending) = served(rt.alloc(), input.as_slice()).expect(&rt, "not served");
    same!(&rt, ending, Ending::TooLong);
    has_replies(&rt, output.as_slice(), "at once", REPLIES);
}

#[test]
fn bytes_that_come_one_at_a_time_have_the_same_replies(rt: HostRuntime) {
    let mut input = Slow {
        bytes: at_the_limits(&rt, 9000),
        given: 0,
    };
    let mut output = Vec::new(rt.alloc());
    let ending = memory(rt.alloc(), &mut input, &mut output).expect(&rt, "not served");
    same!(&rt, ending, Ending::TooLong);
    has_replies(&rt, output.as_slice(), "one at a time", REPLIES);
}

/// Where two frames are cut, how many bytes of replies they have then, and how they end.
const CUTS: &[(usize, usize, Ending)] = &[
    (0, 0, Ending::Between),
    (1, 0, Ending::Inside),
    (4, 0, Ending::Inside),
    (27, 0, Ending::Inside),
    (28, 15, Ending::Between),
    (29, 15, Ending::Inside),
    (55, 15, Ending::Inside),
];

/// Asserts that the bytes have these replies, and end so.
fn is_served(
    rt: &(impl AllocGlobal + Abort),
    bytes: &[u8],
    replies: &[u8],
    wanted: Ending,
    cut: usize,
) {
    let (output, ending) = served(rt.alloc(), bytes).expect(rt, "not served");
    same_at!(rt, ending, wanted, cut);
    same_at!(rt, output.as_slice(), replies, cut);
}

#[test]
fn a_frame_that_is_cut_has_no_reply(rt: HostRuntime) {
    let input = frames(rt.alloc(), &[RELOAD, RELOAD]).expect(&rt, "no memory");
    let one = frames(rt.alloc(), &[DONE]).expect(&rt, "no memory");
    for (cut, count, wanted) in CUTS {
        let bytes = front(input.as_slice(), *cut);
        let replies = front(one.as_slice(), *count);
        is_served(&rt, bytes, replies, *wanted, *cut);
    }
}
