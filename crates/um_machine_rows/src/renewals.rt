//! More inputs than lie between two renewals of the store in memory: state, numbers and replies go on.
use crate::script::served;
use crate::texts::{ACTIONS, DONE, RELOAD, SHOW_A, START_A};
use std::process::Abort;
use um_asserts::{push_frame, same};
use um_memory::Ending;

/// A service that may be started any number of times.
const PUT: &str =
    r#"{"verb":"put-file","path":"lib/a.service","text":"[Unit]\nStartLimitIntervalSec=0\n[Service]\nExecStart=/bin/sleep 9\n"}"#;

/// How the unit is shown that runs as that process.
const RUNS: &str =
    r#"{"ok":true,"value":{"ActiveState":"active","Description":"","Id":"a.service","LoadState":"loaded","MainNumber":601,"Result":"success","SubState":"running","Warnings":[]}}"#;

/// Requests, and the replies that are wanted for them.
#[derive(Drop)]
struct Script {
    input: Vec<u8>,
    wanted: Vec<u8>,
}

/// Adds a request with its reply.
fn push(rt: &impl Abort, script: &mut Script, request: &str, reply: &str) {
    push_frame(&mut script.input, request).expect(rt, "no memory");
    push_frame(&mut script.wanted, reply).expect(rt, "no memory");
}

/// Adds a start, the actions since, and the end of the process with this number.
fn push_life(rt: &(impl AllocGlobal + Abort), script: &mut Script, number: usize) {
    push(rt, script, START_A, DONE);
    let spawned: Result<_, _> = format!(in rt.alloc();
        r#"{{"ok":true,"value":[["spawn",{number},["/bin/sleep","9"]]]}}"#
    );
    let spawned = spawned.expect(rt, "no memory");
    push(rt, script, ACTIONS, spawned.as_str());
    let end = format!(in rt.alloc(); r#"{{"verb":"end","number":{number},"code":0}}"#);
    let end = end.expect(rt, "no memory");
    push(rt, script, end.as_str(), DONE);
}

/// Adds that a service is started and ends this number of times, and is then started once more.
fn push_lives(rt: &(impl AllocGlobal + Abort), script: &mut Script, count: usize) {
    push(rt, script, PUT, DONE);
    push(rt, script, RELOAD, DONE);
    for number in 1..=count {
        push_life(rt, script, number);
    }
    push(rt, script, START_A, DONE);
    push(rt, script, SHOW_A, RUNS);
}

/// Asserts that the requests have the wanted replies, and that serving ends after the last.
fn is_served(rt: &(impl AllocGlobal + Abort), script: &Script) {
    let (output, ending) = served(rt.alloc(), script.input.as_slice()).expect(rt, "not served");
    same!(rt, output.as_slice(), script.wanted.as_slice());
    same!(rt, ending, Ending::Between);
}

#[test]
fn replies_go_on_behind_a_renewal_of_the_store(rt: HostRuntime) {
    let mut script = Script {
        input: Vec::new(rt.alloc()),
        wanted: Vec::new(rt.alloc()),
    };
    // two inputs each, and a renewal after each 512th
    push_lives(&rt, &mut script, 600);
    is_served(&rt, &script);
}
