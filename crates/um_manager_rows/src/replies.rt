//! Replies, and the output for them.
use serde_json::Value;
use std::process::Abort;
use um_asserts::{same, same_at};
use um_ctl::{Told, told_of};
use um_proto::Verb;

/// A verb, a reply to it, the text on standard output and standard error, and the exit status.
const TOLD: &[(Verb, &str, &str, &str, u8)] = &[
    (Verb::Start, "{\"ok\":true}", "", "", 0),
    (Verb::ListJobs, "{\"ok\":true,\"value\":[]}", "[]\n", "", 0),
    (
        Verb::Enable,
        "{ \"value\": {\"removed\":[],\"made\":[\"etc/a\"]}, \"ok\": true }",
        "{\"made\":[\"etc/a\"],\"removed\":[]}\n",
        "",
        0,
    ),
    (
        Verb::IsActive,
        "{\"ok\":true,\"value\":\"active\"}",
        "\"active\"\n",
        "",
        0,
    ),
    (
        Verb::IsActive,
        "{\"ok\":true,\"value\":\"activating\"}",
        "\"activating\"\n",
        "",
        3,
    ),
    (
        Verb::IsFailed,
        "{\"ok\":true,\"value\":\"failed\"}",
        "\"failed\"\n",
        "",
        0,
    ),
    (
        Verb::IsFailed,
        "{\"ok\":true,\"value\":\"active\"}",
        "\"active\"\n",
        "",
        3,
    ),
    (
        Verb::IsEnabled,
        "{\"ok\":true,\"value\":\"enabled\"}",
        "\"enabled\"\n",
        "",
        0,
    ),
    (
        Verb::IsEnabled,
        "{\"ok\":true,\"value\":\"static\"}",
        "\"static\"\n",
        "",
        0,
    ),
    (
        Verb::IsEnabled,
        "{\"ok\":true,\"value\":\"not-found\"}",
        "\"not-found\"\n",
        "",
        3,
    ),
    (
        Verb::IsEnabled,
        "{\"ok\":true,\"value\":\"masked\"}",
        "\"masked\"\n",
        "",
        3,
    ),
    (
        Verb::IsEnabled,
        "{\"ok\":true,\"value\":\"disabled\"}",
        "\"disabled\"\n",
        "",
        3,
    ),
    (
        Verb::Start,
        "{\"detail\":[\"b.service\"],\"error\":4,\"ok\":false}",
        "",
        "E4 NotFound b.service\n",
        1,
    ),
    (
        Verb::IsActive,
        "{\"detail\":[\"a b\"],\"error\":3,\"ok\":false}",
        "",
        "E3 BadName a b\n",
        1,
    ),
    (
        Verb::Start,
        "{\"detail\":[\"a\\nE4\",\"\\u001b\\u007f\\u0085\\u00e4\\\\\"],\"error\":3,\"ok\":false}",
        "",
        "E3 BadName a\\x0aE4 \\x1b\\x7f\\xc2\\x85\u{e4}\\\n",
        1,
    ),
    (
        Verb::Start,
        "{\"detail\":[],\"error\":15,\"ok\":false}",
        "",
        "E15 NoMemory\n",
        1,
    ),
    (
        Verb::Start,
        "{\"detail\":[\"a.service\",\"b.service\"],\"error\":9,\"ok\":false}",
        "",
        "E9 OrderingCycle a.service b.service\n",
        1,
    ),
    (
        Verb::Start,
        "{\"detail\":[],\"error\":22,\"ok\":false}",
        "",
        "E22 OtherLayout\n",
        1,
    ),
];

/// The value of a text.
fn value(rt: &(impl AllocGlobal + Abort), text: &str) -> Value {
    Value::from_str(rt.alloc(), text).expect(rt, "no JSON")
}

/// The result of the reply to the verb.
fn told(rt: &(impl AllocGlobal + Abort), verb: Verb, reply: &str) -> Option<Told> {
    told_of(rt.alloc(), verb, &value(rt, reply)).expect(rt, "no memory")
}

/// Asserts the output, the error and the status of a result.
fn is_told(rt: &impl Abort, told: &Told, output: &str, error: &str, status: u8) {
    let got = (told.output.as_str(), told.error.as_str(), told.status);
    same!(rt, got, (output, error, status));
}

#[test]
fn replies_are_told(rt: HostRuntime) {
    for (verb, reply, output, error, status) in TOLD {
        let told = told(&rt, *verb, reply).expect(&rt, "no reply");
        is_told(&rt, &told, output, error, *status);
    }
}

/// Texts that are no reply.
const NONE: &[&str] = &[
    "[]",
    "{}",
    "{\"ok\":1}",
    "{\"ok\":false}",
    "{\"detail\":[],\"error\":0,\"ok\":false}",
    "{\"detail\":[],\"error\":23,\"ok\":false}",
    "{\"detail\":[7],\"error\":3,\"ok\":false}",
    "{\"detail\":\"a\",\"error\":3,\"ok\":false}",
];

#[test]
fn other_values_are_no_replies(rt: HostRuntime) {
    for text in NONE {
        let told = told(&rt, Verb::Start, text);
        same_at!(&rt, told.is_none(), true, (text, &told));
    }
}
