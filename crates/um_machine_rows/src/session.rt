//! A client's session by its public functions.
use crate::script::{front, rest};
use std::process::Abort;
use um_asserts::{same, same_at, text};
use um_proto::{Asked, Request};
use um_session::Session;
use um_state::{Command, Event};
use um_wire::Refusal;

/// `{"verb":"daemon-reload"}` in its frame: 28 bytes.
const RELOAD: &[u8] = b"\0\0\0\x18{\"verb\":\"daemon-reload\"}";

/// A word for the request.
fn word(request: &Request) -> &'static str {
    match request {
        Request {
            at: None,
            asked: Asked::Event(Event::Commanded(Command::DaemonReload)),
        } => "reload",
        _ => "another",
    }
}

/// The result of reading, in text: `reload`, the refusal, or nothing.
fn told(rt: &(impl AllocGlobal + Abort), read: &Option<Result<Request, Refusal>>) -> String {
    match read {
        None => text!(rt, ""),
        Some(Ok(request)) => text!(rt, word(request)),
        Some(Err(refusal)) => refusal.to_string(rt.alloc()).expect(rt, "no memory"),
    }
}

/// The next result of reading, in text.
fn next(rt: &(impl AllocGlobal + Abort), session: &mut Session) -> String {
    let read = session.next_request();
    let told = told(rt, &read);
    drop(read);
    told
}

/// A new session.
fn session(rt: &(impl AllocGlobal + Abort)) -> Box<Session> {
    Box::new(rt.alloc(), Session::new(rt.alloc())).expect(rt, "no memory")
}

/// Feeds the bytes, and asserts that this is read then, in this row.
fn reads(
    rt: &(impl AllocGlobal + Abort),
    session: &mut Session,
    bytes: &[u8],
    wanted: &[&str],
    row: (usize, usize),
) {
    session.room(bytes.len()).expect(rt, "no memory");
    session.feed(bytes).expect(rt, "no memory");
    for text in wanted {
        let read = next(rt, session);
        same_at!(rt, read.as_str(), *text, row);
    }
}

/// Asserts that the frame of a request, cut in these two places, is read as that request alone.
fn is_one_request(rt: &(impl AllocGlobal + Abort), first: usize, second: usize) {
    let row = (first, second);
    let mut session = session(rt);
    reads(rt, session.as_mut(), front(RELOAD, first), &[], row);
    let middle = rest(front(RELOAD, second), first);
    reads(rt, session.as_mut(), middle, &[], row);
    let last = rest(RELOAD, second);
    reads(rt, session.as_mut(), last, &["reload", ""], row);
}

#[test]
fn a_frame_cut_anywhere_in_two_and_in_three_is_the_same_request(rt: HostRuntime) {
    for first in 0..=RELOAD.len() {
        for second in first..=RELOAD.len() {
            is_one_request(&rt, first, second);
        }
    }
}

/// A frame that is refused, what is read then, whether the session has failed, and what is read after a reload.
struct Refused {
    frame: &'static [u8],
    reads: &'static [&'static str],
    failed: bool,
    behind: &'static [&'static str],
}

const REFUSED: &[Refused] = &[
    // an empty frame, after which the stream goes on
    Refused {
        frame: &[0, 0, 0, 0],
        reads: &[],
        failed: false,
        behind: &["E1 BadRequest", "reload", ""],
    },
    // a length past the limit is refused at once, and nothing more is read
    Refused {
        frame: &[0, 8, 0, 1],
        reads: &["E13 TooLarge frame"],
        failed: true,
        behind: &[""],
    },
];

/// Asserts that the frame of this row is refused, and that this is read after it.
fn is_refused(
    rt: &(impl AllocGlobal + Abort),
    session: &mut Session,
    refused: &Refused,
    row: usize,
) {
    reads(rt, session, refused.frame, refused.reads, (row, 0));
    same_at!(rt, session.failed(), refused.failed, row);
    reads(rt, session, RELOAD, refused.behind, (row, 1));
    same_at!(rt, session.failed(), refused.failed, row);
}

#[test]
fn a_frame_is_refused_and_the_stream_goes_on_or_ends(rt: HostRuntime) {
    for (row, refused) in REFUSED.iter().enumerate() {
        is_refused(&rt, session(&rt).as_mut(), refused, row);
    }
}

/// The output after two replies, and then.
const OUTPUTS: &[&[u8]] = &[b"\0\0\0\x02{}\0\0\0\x03[1]", b""];

/// Asserts that the replies are put out as frames, once.
fn puts_out(rt: &(impl AllocGlobal + Abort), session: &mut Session) {
    session.push_reply(b"{}").expect(rt, "no memory");
    session.push_reply(b"[1]").expect(rt, "no memory");
    for wanted in OUTPUTS {
        let output = session.take_output();
        same!(rt, output.as_slice(), *wanted);
    }
}

#[test]
fn replies_are_put_out_as_frames_in_their_order(rt: HostRuntime) {
    puts_out(&rt, session(&rt).as_mut());
}
