//! A state of a chosen size.
use std::alloc::Global;
use um_model::{End, JobState, NextNumber, ProcessNumber, Profile, SubState, UnitJobs, UnitState};
use um_name::UnitName;
use um_state::State;
use um_wire::Refusal;

/// The text of each file.
const SERVICE: &str = "[Service]\nExecStart=/bin/sleep 9\n";

/// Puts `count` files, and loads them.
fn put_files(alloc: Global, state: &mut State, count: u32) -> Result<(), Refusal> {
    for number in 0..count {
        let path = format!(in alloc; "lib/u{number:04}.service")?;
        state.put_file(path.as_str(), SERVICE)?;
    }
    state.reload(Profile::current())?;
    Ok(())
}

/// Sets `count` units that are being stopped, each with a live main process, an earlier end by a signal, and both jobs pending.
fn set_units(alloc: Global, state: &mut State, count: u32) -> Result<(), Refusal> {
    let jobs = UnitJobs {
        stop: Some(JobState::Running),
        start: Some(JobState::Waiting),
    };
    for number in 0..count {
        let text = format!(in alloc; "u{number:04}.service")?;
        let unit = UnitName::parse(alloc, text.as_str())?;
        let runs = UnitState {
            sub: SubState::StopSigterm,
            main: ProcessNumber::new(u64::from(number) + 1),
            last: Some(End::Signal(9)),
            ..UnitState::DEAD
        };
        state.set_unit(&unit, runs)?;
        state.set_jobs(&unit, jobs)?;
    }
    Ok(())
}

/// A state with `files` files in each tree and `units` units.
pub fn state_with(alloc: Global, files: u32, units: u32) -> Result<State, Refusal> {
    let mut state = State::empty(alloc);
    put_files(alloc, &mut state, files)?;
    set_units(alloc, &mut state, units)?;
    if let Some(next) = NextNumber::new(u64::from(units) + 1) {
        state.set_next(next);
    }
    Ok(state)
}
