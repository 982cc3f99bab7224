//! Requests and replies as JSON.
use std::process::Abort;
use um_asserts::{is_refused_at, same, text};
use um_proto::{Asked, Mode, Request, read_request, write_reply};
use um_resolve::UnitFile;
use um_state::{Command, Event, Reply};

/// Asserts that this is the whole text of the reply.
fn is_told(rt: &(impl AllocGlobal + Abort), reply: Reply, wanted: &str) {
    let told = write_reply(rt.alloc(), &reply).expect(rt, "no memory");
    drop(reply);
    let text = String::from_utf8_lossy(rt.alloc(), told.bytes.as_slice()).expect(rt, "no memory");
    same!(rt, (text.as_str(), told.is_whole), (wanted, true));
}

/// Requests to the store in memory, and the refusal of each.
const REQUESTS: &[(&str, Option<&str>)] = &[
    ("{\"verb\":\"daemon-reload\"}", None),
    ("{\"verb\":\"show\",\"unit\":\"a\",\"at\":7}", None),
    (
        "{\"verb\":\"show\",\"unit\":\"a b\"}",
        Some("E3 BadName a b"),
    ),
    (
        "{\"verb\":\"show\",\"unit\":\"a b\",\"x\":7}",
        Some("E1 BadRequest"),
    ),
    (
        "{\"verb\":\"show\",\"unit\":\"a\",\"at\":4611686018427387905}",
        Some("E1 BadRequest"),
    ),
    ("{\"verb\":\"frob\",\"x\":7}", Some("E2 UnknownVerb frob")),
    (
        "{\"verb\":\"put-file\",\"path\":\"lib/a.service\",\"text\":\"\"}",
        None,
    ),
    (
        "{\"verb\":\"put-file\",\"path\":\"lib/a.service\",\"text\":\"\\u0000\"}",
        Some("E1 BadRequest"),
    ),
    (
        "{\"verb\":\"put-link\",\"path\":\"etc/b.service\",\"target\":\"a.service\"}",
        None,
    ),
    (
        "{\"verb\":\"put-link\",\"path\":\"etc/b.service\"}",
        Some("E1 BadRequest"),
    ),
    (
        "{\"verb\":\"put-link\",\"path\":\"etc/b.service\",\"text\":\"\"}",
        Some("E1 BadRequest"),
    ),
    ("{\"verb\":\"remove\",\"path\":\"etc/b.service\"}", None),
    (
        "{\"verb\":\"remove\",\"path\":\"etc/b.service\",\"text\":\"\"}",
        Some("E1 BadRequest"),
    ),
    ("{\"verb\":\"cat\",\"unit\":\"b\"}", None),
    (
        "{\"verb\":\"cat\",\"unit\":\"a b\"}",
        Some("E3 BadName a b"),
    ),
    ("[]", Some("E1 BadRequest")),
];

#[test]
fn requests_are_read_or_refused_for_the_first_cause(rt: HostRuntime) {
    for (text, wanted) in REQUESTS {
        let request = read_request(rt.alloc(), text.as_bytes(), Mode::Memory);
        is_refused_at!(&rt, request, *wanted, text);
    }
    // over a socket a moment is no field
    let text = "{\"verb\":\"daemon-reload\",\"at\":7}";
    let request = read_request(rt.alloc(), text.as_bytes(), Mode::Service);
    is_refused_at!(&rt, request, Some("E1 BadRequest"), text);
}

/// The path and the target of the link that the request is to put, at no moment of its own; None where it is another request.
fn link_in(request: &Request) -> Option<(&str, &str)> {
    match request {
        Request {
            at: None,
            asked: Asked::Event(Event::Commanded(Command::PutLink { path, target })),
        } => Some((path.as_str(), target.as_str())),
        _ => None,
    }
}

#[test]
fn a_link_is_put_from_its_path_to_its_target(rt: HostRuntime) {
    let text = "{\"target\":\"a.service\",\"verb\":\"put-link\",\"path\":\"etc/b.service\"}";
    let read = read_request(rt.alloc(), text.as_bytes(), Mode::Service);
    let request = read.as_ref().expect(&rt, "not read");
    same!(&rt, link_in(request), Some(("etc/b.service", "a.service")));
    drop(read);
}

/// A file of this text.
fn file(rt: &(impl AllocGlobal + Abort), path: &str, content: &str) -> UnitFile {
    UnitFile {
        path: text!(rt, path),
        text: text!(rt, content),
    }
}

/// The files of a unit, its own and an empty drop-in, as the reply shows them.
const FILES: &str =
    "{\"ok\":true,\"value\":[[\"lib/a.service\",\"[Unit]\\nDescription=\\\"a\\\"\\n\"],[\"etc/a.service.d/b.conf\",\"\"]]}";

#[test]
fn a_taken_command_is_told_shortly_and_files_as_paths_and_texts(rt: HostRuntime) {
    is_told(&rt, Reply::Done, "{\"ok\":true}");
    let own = file(&rt, "lib/a.service", "[Unit]\nDescription=\"a\"\n");
    let drop_in = file(&rt, "etc/a.service.d/b.conf", "");
    let files = vec![in rt.alloc(); own, drop_in].expect(&rt, "no memory");
    is_told(&rt, Reply::Files(files), FILES);
}
