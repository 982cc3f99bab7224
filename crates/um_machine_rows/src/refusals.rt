//! Requests that are refused, each with its reply.
use crate::script::{Script, play, play_script};
use crate::texts::{BAD_REQUEST, DONE, RELOAD};
use std::process::Abort;

// The requests in turn, and their replies.

const WHAT_IS_NO_REQUEST_IS_REFUSED: Script = Script {
    shows: "what is no request is refused",
    steps: &[
        ("{}", BAD_REQUEST),
        ("[]", BAD_REQUEST),
        (r#"{"verb":"show"}"#, BAD_REQUEST),
        (r#"{"verb":"show","unit":7}"#, BAD_REQUEST),
        (r#"{"verb":"show","unit":"a","mode":"fail"}"#, BAD_REQUEST),
        (
            r#"{"verb":"put-file","path":"lib/a.service","text":"a\u0000b"}"#,
            BAD_REQUEST,
        ),
        (r#"{"verb":"daemon-reload""#, BAD_REQUEST),
    ],
};

const AN_EMPTY_FRAME_IS_NO_REQUEST_AND_THE_NEXT_IS_READ: Script = Script {
    shows: "an empty frame is no request and the next is read",
    steps: &[("", BAD_REQUEST), (RELOAD, DONE)],
};

const WHAT_IS_ASKED_WRONGLY_IS_TOLD: Script = Script {
    shows: "what is asked wrongly is told",
    steps: &[
        (
            r#"{"verb":"frob"}"#,
            r#"{"detail":["frob"],"error":2,"ok":false}"#,
        ),
        (
            r#"{"verb":"show","unit":"a b"}"#,
            r#"{"detail":["a b"],"error":3,"ok":false}"#,
        ),
        (
            r#"{"verb":"put-file","path":"lib/../x","text":""}"#,
            r#"{"detail":["lib/../x"],"error":12,"ok":false}"#,
        ),
    ],
};

#[test]
fn scripts_have_their_replies(rt: HostRuntime) {
    play_script(&rt, &WHAT_IS_NO_REQUEST_IS_REFUSED);
    play_script(&rt, &AN_EMPTY_FRAME_IS_NO_REQUEST_AND_THE_NEXT_IS_READ);
    play_script(&rt, &WHAT_IS_ASKED_WRONGLY_IS_TOLD);
}

/// The longest text of a file, in bytes.
const TEXT_LIMIT: usize = 65_536;

/// A request to put a file with a text of this number of bytes.
fn put_of(rt: &(impl AllocGlobal + Abort), size: usize) -> String {
    let text = "#".repeat(rt.alloc(), size).expect(rt, "no memory");
    let request: Result<_, _> = format!(in rt.alloc();
        r#"{{"verb":"put-file","path":"lib/a.service","text":"{text}"}}"#
    );
    request.expect(rt, "no memory")
}

/// This number of nested arrays.
fn deep(rt: &(impl AllocGlobal + Abort), count: usize) -> String {
    let open = "[".repeat(rt.alloc(), count).expect(rt, "no memory");
    let close = "]".repeat(rt.alloc(), count).expect(rt, "no memory");
    format!(in rt.alloc(); "{open}{close}").expect(rt, "no memory")
}

/// The reply to a text that is too long.
const TOO_LONG: &str = r#"{"detail":["text"],"error":13,"ok":false}"#;

#[test]
fn what_is_too_deep_or_too_long_is_refused(rt: HostRuntime) {
    let deep = deep(&rt, 200);
    let longest = put_of(&rt, TEXT_LIMIT);
    let longer = put_of(&rt, TEXT_LIMIT + 1);
    let steps = [
        (deep.as_str(), BAD_REQUEST),
        (longest.as_str(), DONE),
        (longer.as_str(), TOO_LONG),
    ];
    play(&rt, "limits", &steps);
}

/// Asserts that a removal at this path is refused, and that the refusal names the path.
fn is_no_path(rt: &(impl AllocGlobal + Abort), path: &str) {
    let request = format!(in rt.alloc(); r#"{{"verb":"remove","path":"{path}"}}"#);
    let request = request.expect(rt, "no memory");
    let refusal = format!(in rt.alloc(); r#"{{"detail":["{path}"],"error":12,"ok":false}}"#);
    let refusal = refusal.expect(rt, "no memory");
    play(rt, "a removal", &[(request.as_str(), refusal.as_str())]);
}

#[test]
fn a_removal_at_a_path_longer_than_a_name_is_refused_with_the_path(rt: HostRuntime) {
    // names of 252 bytes, which a unit may have, of 256 and of far more
    for size in [244, 248, 60_000] {
        let name = "x".repeat(rt.alloc(), size).expect(&rt, "no memory");
        let path = format!(in rt.alloc(); "lib/{name}.service").expect(&rt, "no memory");
        is_no_path(&rt, path.as_str());
    }
}
