//! Words, and the text of the request that they become.
use std::process::Abort;
use um_asserts::{same, same_at};
use um_ctl::{CtlFault, Words, prepare};

/// The words of a line after `ctl`.
fn words_of<'a>(rt: &(impl AllocGlobal + Abort), line: &'a str) -> Vec<&'a str> {
    let mut words = Vec::new(rt.alloc());
    for word in line.split(' ') {
        words.push(word).expect(rt, "no memory");
    }
    words
}

/// The result of a line with this standard input: the text of a request, or the status of its fault.
fn prepared(
    rt: &(impl AllocGlobal + Abort),
    line: &str,
    mode: Option<&str>,
    mut input: &[u8],
) -> Result<Vec<u8>, u8> {
    let words = words_of(rt, line);
    let Some((verb, arguments)) = words.split_first() else {
        return Err(0);
    };
    let words = Words {
        verb,
        arguments,
        mode,
    };
    match prepare(rt.alloc(), &words, &mut input) {
        Ok((_, bytes)) => Ok(bytes),
        Err(fault) => Err(fault.status()),
    }
}

/// Words, the mode, and the text of their request.
const REQUESTS: &[(&str, Option<&str>, &str)] = &[
    ("daemon-reload", None, "{\"verb\":\"daemon-reload\"}"),
    ("list-jobs", None, "{\"verb\":\"list-jobs\"}"),
    ("start a", None, "{\"unit\":\"a\",\"verb\":\"start\"}"),
    (
        "restart a.target",
        Some("fail"),
        "{\"mode\":\"fail\",\"unit\":\"a.target\",\"verb\":\"restart\"}",
    ),
    (
        "stop a",
        Some("replace"),
        "{\"mode\":\"replace\",\"unit\":\"a\",\"verb\":\"stop\"}",
    ),
    ("reset-failed", None, "{\"verb\":\"reset-failed\"}"),
    (
        "reset-failed a",
        None,
        "{\"unit\":\"a\",\"verb\":\"reset-failed\"}",
    ),
    (
        "put-link etc/z.service a.service",
        None,
        "{\"path\":\"etc/z.service\",\"target\":\"a.service\",\"verb\":\"put-link\"}",
    ),
    (
        "remove lib/a.service",
        None,
        "{\"path\":\"lib/a.service\",\"verb\":\"remove\"}",
    ),
    (
        "is-enabled \"x\"",
        None,
        "{\"unit\":\"\\\"x\\\"\",\"verb\":\"is-enabled\"}",
    ),
];

/// Asserts that the line becomes this text of a request.
fn becomes(
    rt: &(impl AllocGlobal + Abort),
    line: &str,
    mode: Option<&str>,
    input: &[u8],
    text: &str,
) {
    let found = prepared(rt, line, mode, input);
    let bytes = match &found {
        Ok(bytes) => Ok(bytes.as_slice()),
        Err(status) => Err(*status),
    };
    same_at!(rt, bytes, Ok(text.as_bytes()), line);
}

/// Asserts that the line has no request, and this status.
fn is_wrong(
    rt: &(impl AllocGlobal + Abort),
    line: &str,
    mode: Option<&str>,
    input: &[u8],
    status: u8,
) {
    let found = prepared(rt, line, mode, input);
    same_at!(rt, found.err(), Some(status), (line, mode));
}

#[test]
fn words_become_requests(rt: HostRuntime) {
    for (line, mode, text) in REQUESTS {
        becomes(&rt, line, *mode, b"", text);
    }
}

/// A line whose text is read from the input.
const PUT: &str = "put-file lib/a.service";

#[test]
fn the_text_of_a_file_comes_on_the_input(rt: HostRuntime) {
    let text =
        "{\"path\":\"lib/a.service\",\"text\":\"[Unit]\\nA=\\u0001\\n\",\"verb\":\"put-file\"}";
    becomes(&rt, PUT, None, b"[Unit]\nA=\x01\n", text);
}

/// Words that are wrong, and the mode.
const WRONG: &[(&str, Option<&str>)] = &[
    ("begin a", None),
    ("tick", None),
    ("actions", None),
    ("start", None),
    ("start a b", None),
    ("daemon-reload a", None),
    ("put-file", None),
    ("put-file lib/a.service x", None),
    ("put-link etc/z.service", None),
    ("reset-failed a b", None),
    ("show a", Some("fail")),
    ("start a", Some("never")),
    ("start a", Some("")),
];

#[test]
fn wrong_words_are_wrong_before_the_text_is_read(rt: HostRuntime) {
    for (line, mode) in WRONG {
        is_wrong(&rt, line, *mode, b"\xff", 2);
    }
}

/// `count` times the byte.
fn bytes_of(rt: &(impl AllocGlobal + Abort), count: usize, byte: u8) -> Vec<u8> {
    vec![in rt.alloc(); byte; count].expect(rt, "no memory")
}

/// Asserts that the text is taken.
fn is_taken(rt: &(impl AllocGlobal + Abort), text: &[u8]) {
    same!(rt, prepared(rt, PUT, None, text).is_ok(), true);
}

#[test]
fn the_longest_text_is_taken_and_a_longer_one_refused(rt: HostRuntime) {
    let text = bytes_of(&rt, 65_536, b'x');
    is_taken(&rt, text.as_slice());
    let longer = bytes_of(&rt, 65_537, 0xff);
    is_wrong(&rt, PUT, None, longer.as_slice(), 1);
    is_wrong(&rt, PUT, None, b"a\xffb", 2);
    same!(&rt, CtlFault::NoReply.status() == 5, true);
    same!(&rt, CtlFault::Unread.status() == 4, true);
    same!(&rt, CtlFault::Late(9).status() == 6, true);
}
