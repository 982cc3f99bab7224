//! The limits of a store's room and of known units.
use crate::answers::WAITS_TO_START;
use crate::script::play;
use crate::steps::{SIZE as LARGE_SIZE, empty, engine_of, obeyed};
use crate::texts::{DONE, RELOAD, START_B, TOO_MANY_UNITS};
use std::process::Abort;
use um_asserts::{is_refused_at, same, same_at, text, unit};
use um_engine::Engine;
use um_model::Profile;
use um_state::{Command, Input, State};

/// The size of a store, in bytes; `LARGE_SIZE` has room for as many units as may be known.
const SIZE: u64 = 32_256;

/// A state, by the contents of the tree in hand.
#[derive(Debug, Drop)]
enum Held {
    Nothing,
    /// `lib/a.service`, with a text of this number of bytes.
    Text(usize),
    /// `lib/a.service`, which is loaded and wants this number of missing units.
    Wanting(usize),
    /// The same with an entry under `run/` that masks `a.service`, so that only without that entry all these are known.
    Hidden(usize),
    /// `lib/a.service` of this text and `lib/b.service`, which starts after it; both are loaded and wait to start.
    Waiting(&'static str),
}

/// A text of this number of bytes.
fn long(rt: &(impl AllocGlobal + Abort), count: usize) -> String {
    "#".repeat(rt.alloc(), count).expect(rt, "no memory")
}

/// The names of this number of missing units, with a space before each.
fn names(rt: &(impl AllocGlobal + Abort), count: usize) -> String {
    let mut names = String::new(rt.alloc());
    for number in 0..count {
        let name = format!(in rt.alloc(); " n{number}.service").expect(rt, "no memory");
        names.push_str(name.as_str()).expect(rt, "no memory");
    }
    names
}

/// A state whose tree in hand has `lib/a.service` with this text.
fn with_file(rt: &(impl AllocGlobal + Abort), text: &str) -> Box<State> {
    let mut state = empty(rt);
    let put: Result<_, _> = state.as_mut().put_file("lib/a.service", text);
    put.expect(rt, "a file is refused");
    state
}

/// A state with `lib/a.service` loaded, which wants this number of missing units.
fn with_wanted(rt: &(impl AllocGlobal + Abort), count: usize) -> Box<State> {
    let names = names(rt, count);
    let unit = format!(in rt.alloc(); "[Service]\nExecStart=/bin/sleep 9\n[Unit]\nWants={names}");
    let mut state = with_file(rt, unit.expect(rt, "no memory").as_str());
    state
        .as_mut()
        .reload(Profile::current())
        .expect(rt, "no memory");
    state
}

/// The same with an entry under `run/` that masks `a.service`.
fn with_hidden(rt: &(impl AllocGlobal + Abort), count: usize) -> Box<State> {
    let mut state = with_wanted(rt, count);
    let link: Result<_, _> = state.as_mut().put_link("run/a.service", "/dev/null");
    link.expect(rt, "a link is refused");
    state
        .as_mut()
        .reload(Profile::current())
        .expect(rt, "no memory");
    state
}

/// A service that starts after `a.service`.
const AFTER_A: &str = "[Service]\nExecStart=/bin/sleep 9\n[Unit]\nAfter=a.service\n";

/// The unit waits to start.
fn wait_to_start(rt: &(impl AllocGlobal + Abort), state: &mut State, name: &str) {
    let set: Result<_, _> = state.set_jobs(&unit!(rt, name), WAITS_TO_START);
    set.expect(rt, "no memory");
}

/// A state in which `a.service`, of this text, and `b.service` wait to start.
fn with_starts(rt: &(impl AllocGlobal + Abort), text: &str) -> Box<State> {
    let mut state = with_file(rt, text);
    let put: Result<_, _> = state.as_mut().put_file("lib/b.service", AFTER_A);
    put.expect(rt, "a file is refused");
    state
        .as_mut()
        .reload(Profile::current())
        .expect(rt, "no memory");
    wait_to_start(rt, state.as_mut(), "a.service");
    wait_to_start(rt, state.as_mut(), "b.service");
    state
}

/// The state that holds this.
fn state_of(rt: &(impl AllocGlobal + Abort), held: &Held) -> Box<State> {
    match held {
        Held::Nothing => empty(rt),
        Held::Text(length) => with_file(rt, long(rt, *length).as_str()),
        Held::Wanting(count) => with_wanted(rt, *count),
        Held::Hidden(count) => with_hidden(rt, *count),
        Held::Waiting(text) => with_starts(rt, text),
    }
}

/// States, the sizes of their stores in bytes, and whether such a store may hold the state.
const STATES: &[(Held, u64, bool)] = &[
    (Held::Nothing, 256, true),
    (Held::Nothing, 255, false),
    (Held::Text(31_955), SIZE, true),
    (Held::Text(31_956), SIZE, false),
    // with a.service and shutdown.target 1,024 units are known, and 1,025
    (Held::Wanting(1_022), LARGE_SIZE, true),
    (Held::Wanting(1_023), LARGE_SIZE, false),
    (Held::Hidden(1_022), LARGE_SIZE, true),
    (Held::Hidden(1_023), LARGE_SIZE, false),
    // the jobs wait in a line, and in a circle
    (
        Held::Waiting("[Service]\nExecStart=/bin/sleep 9\n"),
        LARGE_SIZE,
        true,
    ),
    (
        Held::Waiting("[Service]\nExecStart=/bin/sleep 9\n[Unit]\nAfter=b.service\n"),
        LARGE_SIZE,
        false,
    ),
];

/// Whether a store of that size may hold the state.
fn is_held(rt: &(impl AllocGlobal + Abort), held: &Held, size: u64) -> bool {
    let state = Box::into_inner(state_of(rt, held));
    let engine = Engine::of(rt.alloc(), state, size).expect(rt, "no memory");
    let is_held = engine.is_some();
    drop(engine);
    is_held
}

#[test]
fn a_store_holds_a_state_up_to_its_limits(rt: HostRuntime) {
    for (held, size, wanted) in STATES {
        same_at!(&rt, is_held(&rt, held, *size), *wanted, (held, size));
    }
}

/// An engine over a store of that size.
fn engine_in(rt: &(impl AllocGlobal + Abort), held: &Held) -> Box<Engine> {
    engine_of(rt, state_of(rt, held), SIZE)
}

#[test]
fn an_engine_shows_the_state_that_it_was_made_from(rt: HostRuntime) {
    let engine = engine_in(&rt, &Held::Text(9));
    let state = engine.as_ref().state();
    same!(&rt, state.tree().weight(), 54);
    same!(&rt, state.loaded().tree.weight(), 0);
}

/// At the moment 0 `lib/a.service` is put with a text of this number of bytes.
fn put_long(rt: &(impl AllocGlobal + Abort), length: usize) -> Box<Input> {
    let path = text!(rt, "lib/a.service");
    let text = long(rt, length);
    obeyed(rt, 0, Command::PutFile { path, text })
}

#[test]
fn a_state_has_room_up_to_the_size_of_its_store(rt: HostRuntime) {
    let engine = engine_in(&rt, &Held::Nothing);
    for (length, wanted) in [(31_955, None), (31_956, Some("E14 NoRoom"))] {
        let input = put_long(&rt, length);
        let planned = engine.as_ref().plan(input.as_ref());
        is_refused_at!(&rt, planned, wanted, length);
    }
}

/// A request to put `lib/a.service`, which wants this number of missing units, followed by this text.
fn put_wanting_and(rt: &(impl AllocGlobal + Abort), count: usize, behind: &str) -> String {
    let names = names(rt, count);
    let request: Result<_, _> = format!(in rt.alloc();
        r#"{{"verb":"put-file","path":"lib/a.service","text":"[Service]\nExecStart=/bin/sleep 9\n[Unit]\nWants={names}{behind}"}}"#
    );
    request.expect(rt, "no memory")
}

/// A request to put `lib/a.service`, which wants this number of missing units.
fn put_wanting(rt: &(impl AllocGlobal + Abort), count: usize) -> String {
    put_wanting_and(rt, count, "")
}

#[test]
fn as_many_units_are_loaded_as_may_be_known(rt: HostRuntime) {
    // with a.service and shutdown.target 1,024, and 1,025
    for (count, wanted) in [(1_022, DONE), (1_023, TOO_MANY_UNITS)] {
        let put = put_wanting(&rt, count);
        let steps = [(put.as_str(), DONE), (RELOAD, wanted)];
        play(&rt, "a reload", &steps);
    }
}

#[test]
fn units_that_would_be_known_after_a_boot_count(rt: HostRuntime) {
    let put = put_wanting(&rt, 1_100);
    let mask = r#"{"verb":"put-file","path":"run/a.service","text":""}"#;
    let steps = [(put.as_str(), DONE), (mask, DONE), (RELOAD, TOO_MANY_UNITS)];
    play(&rt, "a boot", &steps);
}

const PUT_B: &str =
    r#"{"verb":"put-file","path":"lib/b.service","text":"[Service]\nExecStart=/bin/sleep 9\n"}"#;

const MASK_A: &str = r#"{"verb":"put-link","path":"run/a.service","target":"/dev/null"}"#;

const B_WANTS_C: &str =
    r#"{"verb":"put-file","path":"run/b.service.d/c.conf","text":"[Unit]\nWants=c.service\n"}"#;

const PUT_C: &str =
    r#"{"verb":"put-file","path":"run/c.service","text":"[Service]\nExecStart=/bin/sleep 9\n"}"#;

#[test]
fn a_plan_makes_as_many_units_known_as_may_be(rt: HostRuntime) {
    // under `run/` a.service is masked, and c.service, which is there alone, is wanted by b.service;
    // without `run/` these are a.service, b.service, shutdown.target and 1,020 more, and from the start on c.service
    for (count, wanted) in [(1_020, DONE), (1_021, TOO_MANY_UNITS)] {
        let put = put_wanting(&rt, count);
        let steps = [
            (put.as_str(), DONE),
            (PUT_B, DONE),
            (MASK_A, DONE),
            (B_WANTS_C, DONE),
            (PUT_C, DONE),
            (RELOAD, DONE),
            (START_B, wanted),
        ];
        play(&rt, "a start", &steps);
    }
}

const B_NEEDS_C_AND_CONFLICTS: &str =
    r#"{"verb":"put-file","path":"run/b.service.d/c.conf","text":"[Unit]\nRequires=c.service\nConflicts=c.service\n"}"#;

const B_CLASHES: &str = r#"{"detail":["b.service"],"error":8,"ok":false}"#;

#[test]
fn too_many_units_of_a_plan_are_told_before_its_clash(rt: HostRuntime) {
    // as above; but b.service is started and stopped
    for (count, wanted) in [(1_020, B_CLASHES), (1_021, TOO_MANY_UNITS)] {
        let put = put_wanting(&rt, count);
        let steps = [
            (put.as_str(), DONE),
            (PUT_B, DONE),
            (MASK_A, DONE),
            (B_NEEDS_C_AND_CONFLICTS, DONE),
            (PUT_C, DONE),
            (RELOAD, DONE),
            (START_B, wanted),
        ];
        play(&rt, "a start", &steps);
    }
}

/// The section of a service that is to be enabled along with a missing one.
const INSTALL: &str = r"\n[Install]\nWantedBy=w.target\nAlso=gone.service\n";

const ENABLE_A: &str = r#"{"verb":"enable","unit":"a"}"#;

const NOT_FOUND: &str = r#"{"detail":["gone.service"],"error":4,"ok":false}"#;

#[test]
fn too_many_units_of_a_tree_are_told_before_one_that_cannot_be_enabled(rt: HostRuntime) {
    // with a.service, shutdown.target and w.target 1,024, and 1,025
    for (count, wanted) in [(1_021, NOT_FOUND), (1_022, TOO_MANY_UNITS)] {
        let put = put_wanting_and(&rt, count, INSTALL);
        let steps = [(put.as_str(), DONE), (ENABLE_A, wanted)];
        play(&rt, "an enabling", &steps);
    }
}
