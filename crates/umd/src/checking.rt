//! `umd check`: reports the state of a store that no manager serves, or why the store can't be opened.

use serde_json::Value;
use std::alloc::Global;
use std::fs::{File, Files};
use std::time::Clock;
use um_commands::put_text;
use um_ctl::told_of;
use um_daemon::{open_read_only, tell_uncounted};
use um_engine::Engine;
use um_filedisk::FileFault;
use um_keeper::{Summary, inspect, look};
use um_line::{CheckLine, DEVICE, REFUSED, put_line};
use um_memory::Fault;
use um_proto::{Verb, write_reply};
use um_sector::Disk;
use um_state::{Query, State};
use um_wire::Refusal;

/// The text of the reply to a query.
fn reply_text(alloc: Global, engine: &Engine, query: &Query) -> Result<Vec<u8>, Refusal> {
    let reply = engine.query(query)?;
    let written = write_reply(alloc, &reply);
    drop(reply);
    Ok(written?.bytes)
}

/// The text that `umd ctl` prints for the reply to a query.
fn told_text(alloc: Global, engine: &Engine, verb: Verb, query: &Query) -> Result<String, Refusal> {
    let text = reply_text(alloc, engine, query)?;
    let Ok(value) = Value::from_slice(alloc, &text) else {
        return Err(Refusal::NoMemory);
    };
    match told_of(alloc, verb, &value)? {
        Some(told) => Ok(told.output),
        None => Ok(String::new(alloc)),
    }
}

/// The text that `umd ctl` prints for the units and the jobs of a state.
fn units_and_jobs(alloc: Global, engine: &Engine) -> Result<String, Refusal> {
    let mut text = told_text(alloc, engine, Verb::ListUnits, &Query::ListUnits)?;
    let jobs = told_text(alloc, engine, Verb::ListJobs, &Query::ListJobs)?;
    text.push_str(jobs.as_str())?;
    Ok(text)
}

/// A report on a store: the text on standard output, and the summary that says which records don't count.
#[derive(Drop)]
struct Told {
    text: String,
    summary: Summary,
}

/// The text that `umd ctl` prints for the units and the jobs of a state.
fn units_text(alloc: Global, state: State) -> Result<String, Refusal> {
    // a state that its store holds has room in the greatest one
    let Some(engine) = Engine::of(alloc, state, u64::MAX)? else {
        return Ok(String::new(alloc));
    };
    let told = units_and_jobs(alloc, &engine);
    drop(engine);
    told
}

/// The units and the jobs of the state that the store stands for.
fn look_at_units<D: Disk>(alloc: Global, disk: &mut D) -> Result<Told, Refusal> {
    let (summary, state) = look(alloc, disk)?;
    Ok(Told {
        text: units_text(alloc, state)?,
        summary,
    })
}

/// The text of a summary.
fn summary_text(alloc: Global, summary: &Summary) -> Result<String, Refusal> {
    let (generation, records) = (summary.generation, summary.records);
    let (clock, next) = (summary.clock.micros(), summary.next.get());
    let text = format!(in alloc;
        "generation {generation} records {records} clock {clock} next {next}\n"
    )?;
    Ok(text)
}

/// A short report on the state that the store stands for.
fn look_in_short<D: Disk>(alloc: Global, disk: &mut D) -> Result<Told, Refusal> {
    let summary = inspect(alloc, disk)?;
    Ok(Told {
        text: summary_text(alloc, &summary)?,
        summary,
    })
}

/// Says why the store can't be opened, and returns the exit status.
fn refuses<R: Eprint>(rt: &R, alloc: Global, refusal: &Refusal) -> u8 {
    put_line(rt, alloc, format_args!("{refusal}"));
    match refusal {
        Refusal::Device => DEVICE,
        _ => REFUSED,
    }
}

/// Says why the file can't be read, and returns the exit status.
fn unread<R: Eprint>(rt: &R, alloc: Global, path: &str, fault: &FileFault) -> u8 {
    match fault {
        FileFault::InUse => put_line(
            rt,
            alloc,
            format_args!("umd: {path}: a manager has this store, so it isn't read"),
        ),
        fault => put_line(rt, alloc, format_args!("umd: {path}: {fault}")),
    }
    DEVICE
}

/// The report that the words want, on the store on a disk.
fn told_of_disk<D: Disk + Drop>(
    alloc: Global,
    disk: D,
    line: &CheckLine<'_>,
) -> Result<Told, Refusal> {
    let mut disk = disk;
    if line.units {
        look_at_units(alloc, &mut disk)
    } else {
        look_in_short(alloc, &mut disk)
    }
}

/// Prints the report, and on standard error the records that don't count; or says why the store can't be opened.
fn tell<R: Print + Eprint>(
    rt: &R,
    alloc: Global,
    told: &Result<Told, Refusal>,
) -> Result<u8, Fault> {
    match told {
        Ok(told) => {
            tell_uncounted(rt, told.summary.cut_off, told.summary.damaged);
            put_text(rt, told.text.as_str())
        }
        Err(refusal) => Ok(refuses(rt, alloc, refusal)),
    }
}

/// Reports on a store, and returns the exit status; nothing is written to the store. A fault if standard output can't be
/// written.
pub fn check<R>(rt: &R, alloc: Global, line: &CheckLine<'_>) -> Result<u8, Fault>
where
    R: Files<File = File> + Print + Eprint + Clock,
{
    match open_read_only(rt, line.file) {
        Ok(disk) => tell(rt, alloc, &told_of_disk(alloc, disk, line)),
        Err(fault) => Ok(unread(rt, alloc, line.file, &fault)),
    }
}
