//! A trial in which memory may be wanting at any place: a manager over a disk and children in memory puts, loads, starts and shows a service,
//! whose process ends before the manager is opened again. A call that finds no memory is repeated, so that one want of memory, wherever it
//! is, changes nothing in the last reply: `rt try --fail-alloc 1..` plays all of them.
#![tactic(auto)]

mod life;
mod managers;

use std::process::ExitCode;
use um_wire::Refusal;

fn trial(rt: &HostRuntime) -> Result<String, Refusal> {
    life::life(rt.alloc())
}

fn main(rt: HostRuntime) -> ExitCode {
    match trial(&rt) {
        Ok(shown) => match println!(rt; "{}", shown.as_str()) {
            Ok(()) => ExitCode::SUCCESS,
            Err(_) => ExitCode::FAILURE,
        },
        Err(refusal) => {
            let _unheard = eprintln!(rt; "{refusal}");
            ExitCode::FAILURE
        }
    }
}
