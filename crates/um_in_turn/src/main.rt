//! Every call that can be refused is refused, one after another, and the rules that must hold are asserted each time.
//!
//! Its words are a kind, `memory`, `scarce`, `disk`, `crash`, `children` or `gate`, and a number, of a script or a life; or `some 0` for a
//! selection of these. Those of `memory` are lives whose allocations `tools/in-turn` lets fail; those of `scarce` are played where the
//! program's memory has a limit. It prints how many cases it tried, 0 for a selection; if one is wrong it reports that on standard error,
//! and the exit status is 1.
#![tactic(auto)]

mod children;
mod clients;
mod faulty_children;
mod faulty_gate;
mod gate;
mod hoard;
mod limited;
mod lost_reads;
mod managers;
mod scarce;
mod sessions;
mod watched;

use gate::Clients;
use std::alloc::Global;
use std::env;
use std::process::ExitCode;
use um_store_in_turn::wrong::{Wrong, found};
use um_store_in_turn::{crash, disk, lives, scripts};

/// Each call of the disk fails in turn, for the script of this number.
fn disk_cases(alloc: Global, number: &str) -> Result<u64, Wrong> {
    match number {
        "1" => disk::each_call(alloc, &disk::restart(alloc)?, 1),
        "2" => disk::each_call(alloc, &disk::filled(alloc)?, 1),
        "3" => disk::each_call(alloc, &disk::lists(alloc)?, 1),
        "4" => disk::each_call(alloc, &disk::steps(alloc)?, 1),
        "5" => disk::each_call(alloc, &disk::old(alloc, 2)?, 1),
        "6" => disk::each_call(alloc, &disk::old(alloc, 3)?, 1),
        _ => Err(found("no such script")),
    }
}

/// The machine stops before each write of a creation, or of the script of this number.
fn crash_cases(alloc: Global, number: &str) -> Result<u64, Wrong> {
    match number {
        "1" => crash::each_creation(alloc),
        "2" => crash::each_stop(alloc, &crash::script(alloc)?),
        "3" => crash::each_stop(alloc, &crash::with_lists(alloc)?),
        "4" => crash::each_stop_behind(
            alloc,
            &crash::areas(alloc)?,
            crash::filling(alloc)?.calls(alloc)?,
        ),
        "5" => crash::each_stop_behind(
            alloc,
            &crash::midway(alloc)?,
            crash::filling(alloc)?.calls(alloc)?,
        ),
        "6" => crash::each_stop_behind(alloc, &disk::old(alloc, 2)?, 0),
        "7" => crash::each_stop_behind(alloc, &disk::old(alloc, 3)?, 0),
        _ => Err(found("no such script")),
    }
}

/// Each call of the children fails in turn, for the life of this number.
fn children_cases(alloc: Global, number: &str) -> Result<u64, Wrong> {
    match number {
        "1" => children::each_call(alloc, &children::TORN),
        "2" => children::each_call(alloc, &children::ONESHOT),
        _ => Err(found("no such life")),
    }
}

/// Each call of the gate fails in turn, with either client first.
fn gate_cases(alloc: Global, number: &str) -> Result<u64, Wrong> {
    let (commands, limit, at_once) = match number {
        "1" => (0, 9, false),
        "2" => (1, 9, false),
        "3" => (0, 4096, true),
        "4" => (1, 4096, true),
        _ => return Err(found("no such clients")),
    };
    let clients = Clients {
        commands,
        limit,
        at_once,
    };
    gate::each_call(alloc, clients)
}

/// The life of this number, whose allocations fail from outside.
fn life(alloc: Global, number: &str) -> Result<u64, Wrong> {
    match number {
        "1" => lives::rows_taken(alloc, lives::SIMPLE),
        "2" => lives::rows_taken(alloc, lives::CONFLICT),
        "3" => lives::rows_taken(alloc, lives::RESTARTS),
        "4" => lives::rows_taken(alloc, lives::ENABLED),
        "5" => clients::two_clients(alloc),
        "6" => lives::rows_taken(alloc, lives::areas(alloc)?.as_slice()),
        _ => Err(found("no such life")),
    }
}

/// The life of this number, each of whose calls finds little memory.
fn scarce_life(alloc: Global, number: &str) -> Result<u64, Wrong> {
    match number {
        "1" => scarce::rows_taken(alloc, lives::SIMPLE),
        "2" => scarce::rows_taken(alloc, lives::CONFLICT),
        "3" => scarce::rows_taken(alloc, lives::RESTARTS),
        "4" => scarce::rows_taken(alloc, lives::ENABLED),
        "5" => scarce::two_clients(alloc),
        "6" => scarce::lost_reads(alloc),
        "7" => scarce::rows_taken(alloc, lives::areas(alloc)?.as_slice()),
        _ => Err(found("no such life")),
    }
}

/// A script or a life of a kind, by its number.
fn part(alloc: Global, kind: &str, number: &str) -> Result<u64, Wrong> {
    match kind {
        "memory" => life(alloc, number),
        "scarce" => scarce_life(alloc, number),
        "disk" => disk_cases(alloc, number),
        "crash" => crash_cases(alloc, number),
        "children" => children_cases(alloc, number),
        "gate" => gate_cases(alloc, number),
        _ => Err(found("no such kind")),
    }
}

/// These scripts or lives of a kind.
fn parts(alloc: Global, kind: &str, numbers: &[&str]) -> Result<(), Wrong> {
    for number in numbers {
        part(alloc, kind, *number)?;
    }
    Ok(())
}

/// The lives of these numbers, each of whose calls finds little memory.
fn scarce_parts(rt: &HostRuntime, program: &str, numbers: &[&str]) -> Result<(), Wrong> {
    for number in numbers {
        limited::play(rt, rt.alloc(), program, *number)?;
    }
    Ok(())
}

/// The short parts: the scripts of children and gate, the lives with all their memory, a short script each of a disk and of crashes, and
/// crashes of an opening that rewrites a store of layout 1.
fn short(alloc: Global) -> Result<(), Wrong> {
    let first = disk::calls_before(alloc)?.saturating_add(1);
    disk::each_call(alloc, &disk::short(alloc)?, first)?;
    crash::each_stop(alloc, &crash::short(alloc)?)?;
    crash::each_stop_behind(alloc, &disk::old(alloc, 3)?, 0)?;
    parts(alloc, "children", &["1", "2"])?;
    parts(alloc, "gate", &["1", "2", "3", "4"])?;
    parts(alloc, "memory", &["1", "2", "3", "4", "5", "6"])?;
    lives::wanting_is_noticed(alloc)
}

/// The same, and three lives whose calls find little memory.
fn some(rt: &HostRuntime, program: &str) -> Result<u64, Wrong> {
    short(rt.alloc())?;
    scarce_parts(rt, program, &["1", "5", "6"])?;
    Ok(0)
}

/// Plays the parts that the words name; returns how many cases were tried.
fn tried(rt: &HostRuntime, program: &str, kind: &str, number: &str) -> Result<u64, Wrong> {
    match kind {
        "some" => some(rt, program),
        _ => part(rt.alloc(), kind, number),
    }
}

fn words_of(rt: &HostRuntime) -> Result<Vec<String>, Wrong> {
    match env::args(rt) {
        Ok(words) => Ok(words.collect(rt.alloc())?),
        Err(_) => Err(Wrong::NoMemory),
    }
}

fn run_once(rt: &HostRuntime) -> Result<u64, Wrong> {
    let words = words_of(rt)?;
    match words.as_slice() {
        [program, kind, number] => tried(rt, program.as_str(), kind.as_str(), number.as_str()),
        _ => Err(found("two words are wanted")),
    }
}

/// A run that found no memory itself is made once more.
fn run(rt: &HostRuntime) -> Result<u64, Wrong> {
    match run_once(rt) {
        Err(Wrong::NoMemory) => run_once(rt),
        told => told,
    }
}

fn main(rt: HostRuntime) -> ExitCode {
    match run(&rt) {
        Ok(cases) => match println!(&rt; "{cases}") {
            Ok(()) => ExitCode::SUCCESS,
            Err(_) => ExitCode::FAILURE,
        },
        Err(wrong) => {
            let _unheard = eprintln!(&rt; "{wrong}");
            ExitCode::FAILURE
        }
    }
}
