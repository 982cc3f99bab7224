//! Inputs as rows of a script.

use crate::wrong::{Wrong, found};
use std::alloc::Global;
use um_model::{End, InstallVerb, JobMode, Moment, UnitVerb};
use um_name::UnitName;
use um_state::{BootId, Command, Event, Happening, Input};

/// An event of a script.
#[derive(Clone, Copy)]
pub enum Coming {
    /// A file of this text at the path.
    Put(&'static str, &'static str),
    /// A file of this many bytes at the path.
    Long(&'static str, usize),
    Reload,
    /// A verb for a unit, in mode `replace`.
    Verb(UnitVerb, &'static str),
    /// Enabling a unit, or its kin.
    Install(InstallVerb, &'static str),
    /// The process of this number ended with this code.
    Ended(u64, u8),
    Tick,
    Booted(&'static str),
}

/// A microsecond, and the event at it.
pub type Row = (u64, Coming);

fn text(alloc: Global, text: &str) -> Result<String, Wrong> {
    Ok(String::from_str(alloc, text)?)
}

fn unit(alloc: Global, name: &str) -> Result<UnitName, Wrong> {
    Ok(UnitName::parse(alloc, name)?)
}

fn put(alloc: Global, path: &str, content: String) -> Result<Event, Wrong> {
    Ok(Event::Commanded(Command::PutFile {
        path: text(alloc, path)?,
        text: content,
    }))
}

fn for_unit(alloc: Global, verb: UnitVerb, name: &str) -> Result<Event, Wrong> {
    Ok(Event::Commanded(Command::ForUnit {
        verb,
        unit: unit(alloc, name)?,
        mode: JobMode::Replace,
    }))
}

fn booted(alloc: Global, boot: &str) -> Result<Event, Wrong> {
    Ok(Event::Happened(Happening::Booted {
        boot: boot_of(alloc, boot)?,
    }))
}

/// The boot of this id.
pub fn boot_of(alloc: Global, boot: &str) -> Result<BootId, Wrong> {
    match BootId::new(text(alloc, boot)?) {
        Some(boot) => Ok(boot),
        None => Err(found("no boot")),
    }
}

/// The moment at this microsecond.
fn moment(micros: u64) -> Result<Moment, Wrong> {
    match Moment::new(micros) {
        Some(moment) => Ok(moment),
        None => Err(found("no moment")),
    }
}

fn event_of(alloc: Global, coming: Coming) -> Result<Event, Wrong> {
    match coming {
        Coming::Put(path, content) => put(alloc, path, text(alloc, content)?),
        Coming::Long(path, length) => put(alloc, path, "#".repeat(alloc, length)?),
        Coming::Reload => Ok(Event::Commanded(Command::DaemonReload)),
        Coming::Verb(verb, name) => for_unit(alloc, verb, name),
        Coming::Install(verb, name) => Ok(Event::Commanded(Command::Install {
            verb,
            unit: unit(alloc, name)?,
        })),
        Coming::Ended(number, code) => Ok(Event::Happened(Happening::ProcessEnded {
            number,
            end: End::Code(code),
        })),
        Coming::Tick => Ok(Event::Happened(Happening::Tick)),
        Coming::Booted(boot) => booted(alloc, boot),
    }
}

/// The input of a row.
pub fn input_of(alloc: Global, row: Row) -> Result<Input, Wrong> {
    let (micros, coming) = row;
    Ok(Input::new(moment(micros)?, event_of(alloc, coming)?))
}

/// The inputs of rows.
pub fn inputs_of(alloc: Global, rows: &[Row]) -> Result<Vec<Input>, Wrong> {
    let mut inputs = Vec::new(alloc);
    for row in rows {
        inputs.push(input_of(alloc, *row)?)?;
    }
    Ok(inputs)
}
