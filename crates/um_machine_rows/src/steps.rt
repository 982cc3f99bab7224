//! An engine, the steps that it takes, and how a unit stands then. Large values are boxed, or dropped by `drop`: otherwise the prover takes
//! them apart, field by field, wherever they are dropped.
use crate::answers::at;
use std::process::Abort;
use um_asserts::unit;
use um_engine::{Back, Engine, Next};
use um_model::UnitState;
use um_state::{Action, Command, Event, Happening, Input, Query, Reply, State};

/// The size of a store, in bytes.
pub const SIZE: u64 = 8_388_096;

/// The state of a new store.
pub fn empty(rt: &(impl AllocGlobal + Abort)) -> Box<State> {
    Box::new(rt.alloc(), State::empty(rt.alloc())).expect(rt, "no memory")
}

/// An engine in this state, over a store of that size.
pub fn engine_of(rt: &(impl AllocGlobal + Abort), state: Box<State>, size: u64) -> Box<Engine> {
    let engine = Engine::of(rt.alloc(), Box::into_inner(state), size).expect(rt, "no memory");
    Box::new(rt.alloc(), engine.expect(rt, "not served")).expect(rt, "no memory")
}

/// The command at this number of microseconds.
pub fn obeyed(rt: &(impl AllocGlobal + Abort), micros: u64, command: Command) -> Box<Input> {
    let input = Input::new(at(rt, micros), Event::Commanded(command));
    Box::new(rt.alloc(), input).expect(rt, "no memory")
}

/// The happening at this number of microseconds.
pub fn happened(rt: &(impl AllocGlobal + Abort), micros: u64, happening: Happening) -> Box<Input> {
    let input = Input::new(at(rt, micros), Event::Happened(happening));
    Box::new(rt.alloc(), input).expect(rt, "no memory")
}

/// The step of the input.
pub fn planned(rt: &(impl AllocGlobal + Abort), engine: &Engine, input: &Input) -> Box<Next> {
    let next = engine.plan(input).expect(rt, "a step is refused");
    Box::new(rt.alloc(), next).expect(rt, "no memory")
}

/// Takes the step, and returns its actions and the way back.
pub fn committed(
    rt: &(impl AllocGlobal + Abort),
    engine: &mut Engine,
    next: Box<Next>,
) -> (Vec<Action>, Box<Back>) {
    let (reply, actions, back) = engine.commit(Box::into_inner(next));
    drop(reply);
    let back = Box::new(rt.alloc(), back).expect(rt, "no memory");
    (actions, back)
}

/// How the unit stands that the reply shows.
fn state_shown(rt: &impl Abort, reply: &Reply) -> UnitState {
    match reply {
        Reply::Shown(shown) => shown.state,
        _ => panic!(rt; "the unit is not shown"),
    }
}

/// How the unit stands.
pub fn standing(rt: &(impl AllocGlobal + Abort), engine: &Engine, name: &str) -> UnitState {
    let query = Query::Show {
        unit: unit!(rt, name),
    };
    let reply = engine.query(&query);
    drop(query);
    let state = state_shown(rt, reply.as_ref().expect(rt, "no memory"));
    drop(reply);
    state
}
