//! The number of units whose held state a step changes, and the way back to the state before.
use crate::answers::told;
use crate::steps::{SIZE, committed, empty, engine_of, happened, obeyed, planned, standing};
use std::process::Abort;
use um_asserts::{same, same_at, text, unit};
use um_engine::{Back, Engine};
use um_model::{End, JobMode, SubState, UnitVerb};
use um_state::{Command, Happening, Input};

pub const SLEEPS: &str = "[Service]\nExecStart=/bin/sleep 9\n";

/// A service that pulls in two others.
const PULLS_IN_TWO: &str =
    "[Unit]\nRequires=b.service\nWants=c.service\n[Service]\nExecStart=/bin/sleep 9\n";

/// A service that waits until another one is done.
pub const COMES_LAST: &str =
    "[Unit]\nRequires=f.service\nAfter=f.service\n[Service]\nExecStart=/bin/sleep 9\n";

pub const RUNS_ONCE: &str = "[Service]\nType=oneshot\nExecStart=/bin/sleep 9\n";

/// Three starts of a service that sleeps.
const SPAWNS: &str =
    r#"spawn 1 ["/bin/sleep", "9"] [];spawn 2 ["/bin/sleep", "9"] [];spawn 3 ["/bin/sleep", "9"] [];"#;

const ALL_DEAD: [SubState; 3] = [SubState::Dead; 3];

const SECOND_ENDED: [SubState; 3] = [SubState::Running, SubState::Dead, SubState::Running];

/// A file is put.
pub fn put(rt: &(impl AllocGlobal + Abort), path: &str, content: &str) -> Box<Input> {
    let path = text!(rt, path);
    let text = text!(rt, content);
    obeyed(rt, 5, Command::PutFile { path, text })
}

/// The tree is loaded.
pub fn reload(rt: &(impl AllocGlobal + Abort)) -> Box<Input> {
    obeyed(rt, 5, Command::DaemonReload)
}

/// A command for a unit.
pub fn asked(rt: &(impl AllocGlobal + Abort), verb: UnitVerb, name: &str) -> Box<Input> {
    let unit = unit!(rt, name);
    let mode = JobMode::Replace;
    obeyed(rt, 9, Command::ForUnit { verb, unit, mode })
}

/// The process of this number ends with code 0.
pub fn ended(rt: &(impl AllocGlobal + Abort), number: u64) -> Box<Input> {
    let end = End::Code(0);
    happened(rt, 9, Happening::ProcessEnded { number, end })
}

/// Takes the step of the input, which reports this number of rows. Returns the actions in text, and the way back.
fn take(
    rt: &(impl AllocGlobal + Abort),
    engine: &mut Engine,
    input: &Input,
    rows: Option<usize>,
    shows: &str,
) -> (String, Box<Back>) {
    let next = planned(rt, engine, input);
    same_at!(rt, next.as_ref().rows(), rows, shows);
    let (actions, back) = committed(rt, engine, next);
    (told(rt, actions.as_slice()), back)
}

/// Takes the step, which reports this number of rows, and returns the way back.
fn leave(
    rt: &(impl AllocGlobal + Abort),
    engine: &mut Engine,
    input: Box<Input>,
    rows: Option<usize>,
    shows: &str,
) -> Box<Back> {
    let (_, back) = take(rt, engine, input.as_ref(), rows, shows);
    back
}

/// Takes the step, which reports this number of rows.
pub fn step(
    rt: &(impl AllocGlobal + Abort),
    engine: &mut Engine,
    input: Box<Input>,
    rows: Option<usize>,
    shows: &str,
) {
    let _taken = take(rt, engine, input.as_ref(), rows, shows);
}

/// Takes a step that changes this number of rows and has these actions, and returns the way back.
fn ask(
    rt: &(impl AllocGlobal + Abort),
    engine: &mut Engine,
    input: Box<Input>,
    rows: usize,
    wanted: &str,
) -> Box<Back> {
    let shows = "rows of what is asked";
    let (asked, back) = take(rt, engine, input.as_ref(), Some(rows), shows);
    same!(rt, asked.as_str(), wanted);
    back
}

/// The file of a service is put.
fn add(rt: &(impl AllocGlobal + Abort), engine: &mut Engine, path: &str, content: &str) {
    step(rt, engine, put(rt, path, content), None, path);
}

/// The units become known.
fn load(rt: &(impl AllocGlobal + Abort), engine: &mut Engine) {
    step(rt, engine, reload(rt), None, "units get known");
}

/// An engine in the state of a new store.
pub fn new_engine(rt: &(impl AllocGlobal + Abort)) -> Box<Engine> {
    engine_of(rt, empty(rt), SIZE)
}

/// The three services become known, of which the first pulls in the others, at the moment 5.
fn add_three(rt: &(impl AllocGlobal + Abort), engine: &mut Engine) {
    add(rt, engine, "lib/a.service", PULLS_IN_TWO);
    add(rt, engine, "lib/b.service", SLEEPS);
    add(rt, engine, "lib/c.service", SLEEPS);
    load(rt, engine);
}

/// An engine with the three services, as a reload has loaded them at the moment 5.
fn three(rt: &(impl AllocGlobal + Abort)) -> Box<Engine> {
    let mut engine = new_engine(rt);
    add_three(rt, engine.as_mut());
    engine
}

/// The three start at the moment 9: the way back.
fn start_three(rt: &(impl AllocGlobal + Abort), engine: &mut Engine) -> Box<Back> {
    let start = asked(rt, UnitVerb::Start, "a.service");
    ask(rt, engine, start, 3, SPAWNS)
}

/// How far the three have come.
fn subs(rt: &(impl AllocGlobal + Abort), engine: &Engine) -> [SubState; 3] {
    [
        standing(rt, engine, "a.service").sub,
        standing(rt, engine, "b.service").sub,
        standing(rt, engine, "c.service").sub,
    ]
}

/// Steps that change no row, three and one.
fn change_rows(rt: &(impl AllocGlobal + Abort), engine: &mut Engine) {
    let idle = asked(rt, UnitVerb::TryRestart, "b.service");
    step(rt, engine, idle, Some(0), "no effect on units");
    let _back = start_three(rt, engine);
    step(rt, engine, ended(rt, 2), Some(1), "an end");
    step(rt, engine, ended(rt, 2), Some(0), "an end of nothing");
}

#[test]
fn a_step_tells_how_many_rows_it_changes(rt: HostRuntime) {
    let mut engine = three(&rt);
    change_rows(&rt, engine.as_mut());
}

/// Steps to entries that stand there already, and a removal.
fn change_nothing(rt: &(impl AllocGlobal + Abort), engine: &mut Engine) {
    let again = put(rt, "lib/b.service", SLEEPS);
    step(rt, engine, again, Some(0), "the text stands there");
    step(rt, engine, reload(rt), Some(0), "it is loaded");
    let path = text!(rt, "lib/c.service");
    let removal = obeyed(rt, 5, Command::Remove { path });
    step(rt, engine, removal, None, "a file is removed");
}

#[test]
fn what_stands_already_changes_no_row(rt: HostRuntime) {
    let mut engine = three(&rt);
    change_nothing(&rt, engine.as_mut());
}

/// One service runs once and another waits until it is done.
fn wait_for_one(rt: &(impl AllocGlobal + Abort), engine: &mut Engine) {
    add(rt, engine, "lib/f.service", RUNS_ONCE);
    add(rt, engine, "lib/g.service", COMES_LAST);
    load(rt, engine);
    let start = asked(rt, UnitVerb::Start, "g.service");
    step(rt, engine, start, Some(2), "one runs and one waits");
}

/// An engine in which one service runs once and another waits until it is done.
fn one_waits(rt: &(impl AllocGlobal + Abort)) -> Box<Engine> {
    let mut engine = new_engine(rt);
    wait_for_one(rt, engine.as_mut());
    engine
}

/// The jobs of the unit that wait are dropped.
pub fn cancel(rt: &(impl AllocGlobal + Abort), name: &str) -> Box<Input> {
    let unit = unit!(rt, name);
    obeyed(rt, 9, Command::Cancel { unit })
}

/// The job of the unit that waits is dropped, and waits again by the way back.
fn cancel_and_go_back(rt: &(impl AllocGlobal + Abort), engine: &mut Engine, name: &str) {
    let dropped = cancel(rt, name);
    let back = leave(rt, engine, dropped, Some(1), "its job is dropped");
    engine.back(Box::into_inner(back));
}

#[test]
fn a_job_that_waits_is_a_row_that_changes(rt: HostRuntime) {
    let mut engine = one_waits(&rt);
    cancel_and_go_back(&rt, engine.as_mut(), "g.service");
    let end = ended(&rt, 1);
    step(&rt, engine.as_mut(), end, Some(2), "the next begins");
}

/// A unit becomes known, a job is dropped, and the unit starts.
fn get_known(rt: &(impl AllocGlobal + Abort), engine: &mut Engine) {
    add(rt, engine, "lib/Z.service", SLEEPS);
    load(rt, engine);
    let dropped = cancel(rt, "g.service");
    // the `Known` was made while something was held of it
    step(rt, engine, dropped, Some(1), "its job is dropped");
    let start = asked(rt, UnitVerb::Start, "Z.service");
    step(rt, engine, start, Some(1), "the same units are known");
}

#[test]
fn units_that_are_known_anew_are_told_by_rows(rt: HostRuntime) {
    let mut engine = one_waits(&rt);
    get_known(&rt, engine.as_mut());
}

/// Asserts how far the three have come, and the moment.
fn stands(rt: &(impl AllocGlobal + Abort), engine: &Engine, wanted: [SubState; 3], micros: u64) {
    same!(rt, subs(rt, engine), wanted);
    same!(rt, engine.clock().micros(), micros);
}

/// The three start, and the way back is taken.
fn start_and_go_back(rt: &(impl AllocGlobal + Abort), engine: &mut Engine) {
    let back = start_three(rt, engine);
    stands(rt, engine, [SubState::Running; 3], 9);
    engine.back(Box::into_inner(back));
    stands(rt, engine, ALL_DEAD, 5);
}

#[test]
fn the_way_back_leads_to_the_rows_that_were(rt: HostRuntime) {
    let mut engine = three(&rt);
    for _ in 0..2 {
        start_and_go_back(&rt, engine.as_mut());
    }
}

/// The second process ends after a reload by which a unit becomes known, and both ways back are taken.
fn end_and_go_back(rt: &(impl AllocGlobal + Abort), engine: &mut Engine) {
    let loaded = leave(rt, engine, reload(rt), None, "a unit gets known");
    let back = leave(rt, engine, ended(rt, 2), Some(1), "an end");
    same!(rt, subs(rt, engine), SECOND_ENDED);
    engine.back(Box::into_inner(back));
    engine.back(Box::into_inner(loaded));
    same!(rt, subs(rt, engine), [SubState::Running; 3]);
}

/// Twice there and back, and there once more.
fn end_behind_a_reload(rt: &(impl AllocGlobal + Abort), engine: &mut Engine) {
    for _ in 0..2 {
        end_and_go_back(rt, engine);
    }
    step(rt, engine, ended(rt, 2), Some(1), "an end");
    same!(rt, subs(rt, engine), SECOND_ENDED);
}

#[test]
fn rows_have_other_numbers_behind_a_reload(rt: HostRuntime) {
    let mut engine = three(&rt);
    let _back = start_three(&rt, engine.as_mut());
    // its name is before the others
    add(&rt, engine.as_mut(), "lib/Z.service", SLEEPS);
    end_behind_a_reload(&rt, engine.as_mut());
}

/// The file of a service of a chain: each but the first comes after the one before it and requires it.
fn link(rt: &(impl AllocGlobal + Abort), number: usize) -> String {
    if number < 2 {
        return text!(rt, "[Service]\nExecStart=/bin/c1\n");
    }
    let next = number - 1;
    let link: Result<_, _> = format!(in rt.alloc();
        "[Unit]\nAfter=c{next}.service\nRequires=c{next}.service\n[Service]\nExecStart=/bin/c{number}\n"
    );
    link.expect(rt, "no memory")
}

/// An engine in which a chain of 1,000 services is loaded.
fn chain(rt: &(impl AllocGlobal + Abort)) -> Box<Engine> {
    let mut state = empty(rt);
    for number in 1..1001 {
        let path = format!(in rt.alloc(); "lib/c{number}.service").expect(rt, "no memory");
        let content = link(rt, number);
        let put: Result<_, _> = state.as_mut().put_file(path.as_str(), content.as_str());
        put.expect(rt, "not put");
    }
    let mut engine = engine_of(rt, state, SIZE);
    load(rt, engine.as_mut());
    engine
}

/// The action of the start of the service with this number in the chain.
fn start_of(rt: &(impl AllocGlobal + Abort), number: usize) -> String {
    let start = format!(in rt.alloc(); "spawn {number} [\"/bin/c{number}\"] [];");
    start.expect(rt, "no memory")
}

/// The starts of the chain, from the far end.
fn starts(rt: &(impl AllocGlobal + Abort)) -> String {
    let mut starts = String::new(rt.alloc());
    for number in 1..1001 {
        starts
            .push_str(start_of(rt, number).as_str())
            .expect(rt, "no memory");
    }
    starts
}

/// All services of the chain start.
fn start_chain(rt: &(impl AllocGlobal + Abort), engine: &mut Engine) {
    let start = asked(rt, UnitVerb::Start, "c1000.service");
    let wanted = starts(rt);
    let _started = ask(rt, engine, start, 1000, wanted.as_str());
}

#[test]
fn an_end_in_a_chain_of_1000_changes_one_row(rt: HostRuntime) {
    let mut engine = chain(&rt);
    start_chain(&rt, engine.as_mut());
    let _ended = ask(&rt, engine.as_mut(), ended(&rt, 1), 1, "");
}
