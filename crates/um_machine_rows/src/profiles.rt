//! The profile by which a tree is loaded: that of the input, or the one that the state has, if that is later. New inputs have the second
//! one only, so a store of the first and its inputs are read from their bytes.
use crate::steps::{SIZE, committed, engine_of, planned};
use std::process::Abort;
use um_asserts::same_at;
use um_engine::Engine;
use um_model::Profile;
use um_state::{Input, State};
use um_wire::Canon;

/// An input in its bytes, and the profile by which the tree is loaded after it.
struct Row {
    what: &'static str,
    bytes: &'static [u8],
    profile: Profile,
}

/// Inputs at moment 5, one after the other.
const ROWS: &[Row] = &[
    Row {
        what: "a reload of profile 1",
        bytes: &[1, 4, 0, 0, 0, 0, 0, 0, 0, 5],
        profile: Profile::One,
    },
    Row {
        what: "a file of profile 2 is put",
        bytes: b"\x02\x01\0\0\0\0\0\0\0\x05\0\0\0\x0detc/a.service\0\0\0\0",
        profile: Profile::One,
    },
    Row {
        what: "a reload of profile 2",
        bytes: &[2, 4, 0, 0, 0, 0, 0, 0, 0, 5],
        profile: Profile::Two,
    },
    Row {
        what: "another reload of profile 1",
        bytes: &[1, 4, 0, 0, 0, 0, 0, 0, 0, 5],
        profile: Profile::Two,
    },
    Row {
        what: "a boot of profile 1",
        bytes: b"\x01\x12\0\0\0\0\0\0\0\x05\0\0\0\x02b1",
        profile: Profile::Two,
    },
];

/// The empty state of profile 1: its clock is 0, and its next number 1.
const EMPTY: &[u8] =
    b"\x01\0\0\0\0\0\0\0\0\0\0\0\0\0\0\0\0\0\0\0\0\0\0\0\0\0\0\0\x01\0\0\0\0\0\0\0\0";

/// The state of a new store, as programs of profile 1 made it.
fn empty_of_one(rt: &(impl AllocGlobal + Abort)) -> Box<State> {
    let found = State::get(rt.alloc(), EMPTY).expect(rt, "no memory");
    let (state, _) = found.expect(rt, "it isn't read");
    Box::new(rt.alloc(), state).expect(rt, "no memory")
}

/// The input of the row.
fn input_of(rt: &(impl AllocGlobal + Abort), row: &Row) -> Box<Input> {
    let found = Input::get(rt.alloc(), row.bytes).expect(rt, "no memory");
    let (input, _) = found.expect(rt, "it isn't read");
    Box::new(rt.alloc(), input).expect(rt, "no memory")
}

/// Takes the step of the row.
fn take(rt: &(impl AllocGlobal + Abort), engine: &mut Engine, row: &Row) {
    let next = planned(rt, engine, &input_of(rt, row));
    let (actions, back) = committed(rt, engine, next);
    drop(actions);
    drop(back);
}

#[test]
fn a_tree_is_loaded_by_the_later_profile(rt: HostRuntime) {
    let mut engine = engine_of(&rt, empty_of_one(&rt), SIZE);
    for row in ROWS {
        take(&rt, engine.as_mut(), row);
        let profile = engine.as_ref().state().loaded().profile;
        same_at!(&rt, profile, row.profile, row.what);
    }
}
