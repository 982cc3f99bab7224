//! After each step just those units are known that a fresh engine knows, and the step reports its number of rows, among 300 units.
use crate::changed_rows::{COMES_LAST, RUNS_ONCE, SLEEPS, asked, cancel, put, reload, step};
use crate::steps::{SIZE, empty, engine_of, happened, obeyed};
use std::process::Abort;
use um_asserts::{same, text};
use um_engine::Engine;
use um_model::{End, UnitVerb};
use um_state::{Command, Happening, Input, Query, Reply, State};

const COUNT: usize = 300;

/// A service that stops with the target.
const IS_PART: &str = "[Unit]\nPartOf=all.target\n[Service]\nExecStart=/bin/sleep 9\n";

fn add(rt: &impl Abort, state: &mut State, path: &str, content: &str) {
    let put: Result<_, _> = state.put_file(path, content);
    put.expect(rt, "not put");
}

/// The services of which the target wants each.
fn add_parts(rt: &(impl AllocGlobal + Abort), state: &mut State) {
    for number in 0..COUNT {
        let path = format!(in rt.alloc(); "lib/u{number}.service").expect(rt, "no memory");
        add(rt, state, path.as_str(), IS_PART);
    }
}

/// The text of the target.
fn wants_all(rt: &(impl AllocGlobal + Abort)) -> String {
    let mut target = text!(rt, "[Unit]\nWants=");
    for number in 0..COUNT {
        let name = format!(in rt.alloc(); "u{number}.service ").expect(rt, "no memory");
        target.push_str(name.as_str()).expect(rt, "no memory");
    }
    target.push_str("\n").expect(rt, "no memory");
    target
}

/// The target, templates, and a service that waits until another one is done.
fn add_others(rt: &(impl AllocGlobal + Abort), state: &mut State) {
    let target = wants_all(rt);
    add(rt, state, "lib/all.target", target.as_str());
    add(rt, state, "lib/foo@.service", SLEEPS);
    add(rt, state, "lib/f.service", RUNS_ONCE);
    add(rt, state, "lib/g.service", COMES_LAST);
    add(rt, state, "lib/g@.service", COMES_LAST);
    add(rt, state, "lib/bar@.target", "[Unit]\n");
}

/// An engine in which all these are loaded.
fn loaded(rt: &(impl AllocGlobal + Abort)) -> Box<Engine> {
    let mut state = empty(rt);
    add_parts(rt, state.as_mut());
    add_others(rt, state.as_mut());
    let mut engine = engine_of(rt, state, SIZE);
    step(rt, engine.as_mut(), reload(rt), None, "units get known");
    engine
}

/// The names in a listing.
fn names(rt: &(impl AllocGlobal + Abort), reply: &Reply) -> String {
    let mut names = String::new(rt.alloc());
    let Reply::Listed(units) = reply else {
        panic!(rt; "no units are listed");
    };
    for listed in units {
        names.push_str(listed.unit.as_str()).expect(rt, "no memory");
        names.push_str(" ").expect(rt, "no memory");
    }
    names
}

/// The units that the engine knows.
fn known(rt: &(impl AllocGlobal + Abort), engine: &Engine) -> String {
    let reply = engine.query(&Query::ListUnits).expect(rt, "no memory");
    names(rt, &reply)
}

/// An engine that begins in the state.
fn fresh(rt: &(impl AllocGlobal + Abort), engine: &Engine) -> Box<Engine> {
    let state = engine.state().copy().expect(rt, "no memory");
    engine_of(
        rt,
        Box::new(rt.alloc(), state).expect(rt, "no memory"),
        SIZE,
    )
}

/// A stop of a unit that is down changes no row, and just those units are known that a fresh engine knows.
fn rests(rt: &(impl AllocGlobal + Abort), engine: &mut Engine, down: &str) {
    let stop = asked(rt, UnitVerb::Stop, down);
    step(rt, engine, stop, Some(0), "a stop of what is down");
    let other = fresh(rt, engine);
    same!(
        rt,
        known(rt, engine).as_str(),
        known(rt, other.as_ref()).as_str()
    );
}

/// The process of this number ends with code 1.
fn failed(rt: &(impl AllocGlobal + Abort), number: u64) -> Box<Input> {
    let end = End::Code(1);
    happened(rt, 9, Happening::ProcessEnded { number, end })
}

#[test]
fn a_stop_of_what_never_ran_keeps_nothing(rt: HostRuntime) {
    let mut engine = loaded(&rt);
    let stop = asked(&rt, UnitVerb::Stop, "foo@7.service");
    step(&rt, engine.as_mut(), stop, Some(0), "it never ran");
    rests(&rt, engine.as_mut(), "u0.service");
}

/// An instance of a target starts, and is known then. After its stop only its count of starts is held, and once that is forgotten it is no
/// longer known.
fn begin_and_forget(rt: &(impl AllocGlobal + Abort), engine: &mut Engine) {
    let start = asked(rt, UnitVerb::Start, "bar@7.target");
    step(rt, engine, start, None, "it gets known");
    let stop = asked(rt, UnitVerb::Stop, "bar@7.target");
    step(rt, engine, stop, Some(1), "it stops");
    rests(rt, engine, "u0.service");
    let forgotten = obeyed(rt, 9, Command::ResetFailed { unit: None });
    step(rt, engine, forgotten, None, "it is known no more");
    rests(rt, engine, "u0.service");
}

#[test]
fn an_instance_that_is_let_go_is_known_no_more(rt: HostRuntime) {
    let mut engine = loaded(&rt);
    begin_and_forget(&rt, engine.as_mut());
}

/// An instance waits for another service, and is known then; and its job is dropped before its first start.
fn wait_and_drop(rt: &(impl AllocGlobal + Abort), engine: &mut Engine) {
    let start = asked(rt, UnitVerb::Start, "g@7.service");
    step(rt, engine, start, None, "it gets known");
    step(
        rt,
        engine,
        cancel(rt, "g@7.service"),
        None,
        "its job is dropped",
    );
    rests(rt, engine, "u0.service");
}

#[test]
fn an_instance_whose_job_is_dropped_is_known_no_more(rt: HostRuntime) {
    let mut engine = loaded(&rt);
    wait_and_drop(&rt, engine.as_mut());
}

/// Another tree is loaded.
fn load_another(rt: &(impl AllocGlobal + Abort), engine: &mut Engine) {
    let more = put(rt, "lib/Z.service", SLEEPS);
    step(rt, engine, more, None, "a file is put");
    step(rt, engine, reload(rt), None, "a unit gets known");
}

/// A job that waited when another tree was loaded is dropped.
fn drop_behind_a_reload(rt: &(impl AllocGlobal + Abort), engine: &mut Engine) {
    let start = asked(rt, UnitVerb::Start, "g.service");
    step(rt, engine, start, Some(2), "one runs and one waits");
    load_another(rt, engine);
    step(
        rt,
        engine,
        cancel(rt, "g.service"),
        Some(1),
        "its job is dropped",
    );
    rests(rt, engine, "u0.service");
}

#[test]
fn a_job_that_is_dropped_behind_a_reload_leaves_what_is_known(rt: HostRuntime) {
    let mut engine = loaded(&rt);
    drop_behind_a_reload(&rt, engine.as_mut());
}

/// All services fail one after another as they stop.
fn fail_all(rt: &(impl AllocGlobal + Abort), engine: &mut Engine) {
    for number in 0..COUNT {
        step(rt, engine, failed(rt, number as u64 + 1), Some(1), "an end");
    }
}

/// The target with all its services starts, another tree is loaded, and it stops.
fn stop_behind_a_reload(rt: &(impl AllocGlobal + Abort), engine: &mut Engine) {
    let start = asked(rt, UnitVerb::Start, "all.target");
    step(rt, engine, start, Some(COUNT + 1), "all start");
    load_another(rt, engine);
    let stop = asked(rt, UnitVerb::Stop, "all.target");
    step(rt, engine, stop, Some(COUNT + 1), "all stop");
    fail_all(rt, engine);
    let forgotten = obeyed(rt, 9, Command::ResetFailed { unit: None });
    step(
        rt,
        engine,
        forgotten,
        Some(COUNT + 1),
        "all failures are forgotten, and the target's start",
    );
    rests(rt, engine, "f.service");
}

#[test]
fn a_target_that_stops_behind_a_reload_leaves_what_is_known(rt: HostRuntime) {
    let mut engine = loaded(&rt);
    stop_behind_a_reload(&rt, engine.as_mut());
}
