//! `umd serve --start UNIT`: the first request after a new boot.

use crate::telling::News;
use serde_json::Value;
use std::alloc::{AllocError, Global};
use um_children::Children;
use um_ctl::{Words, request, told_of};
use um_gate::Moments;
use um_line::{REFUSED, USAGE};
use um_manager::{Connection, Manager, Piece, Pieces};
use um_proto::{Mode, Verb, read_request};
use um_sector::Disk;
use um_serve::has_run_nothing;
use um_wire::Refusal;

/// The number of bytes in front of a frame that give its length.
const HEADER: usize = 4;

/// The text of the request to start these units, with mode `replace`, as a client sends it.
fn text_of<'a>(alloc: Global, units: &'a [&'a str]) -> Result<Vec<u8>, AllocError> {
    let words = Words {
        verb: "start",
        arguments: units,
        mode: Some("replace"),
    };
    request(alloc, Verb::Start, &words, None)
}

/// The frame of the request to start the unit.
fn frame_of(alloc: Global, unit: &str) -> Result<Vec<u8>, Refusal> {
    let text = text_of(alloc, &[unit])?;
    read_request(alloc, text.as_slice(), Mode::Service)?;
    let Ok(length) = u32::try_from(text.len()) else {
        return Err(Refusal::NoMemory);
    };
    let mut frame = Vec::new(alloc);
    frame.extend_from_slice(&length.to_be_bytes())?;
    frame.extend_from_slice(text.as_slice())?;
    Ok(frame)
}

/// Says why the unit isn't started.
fn tell_refusal<R: Eprint>(rt: &R, refusal: &Refusal) {
    let _unheard = eprintln!(rt; "umd: --start: {refusal}");
}

/// The frame that starts the unit, if one is given. The error is the exit status: 2 if the text is no unit's name.
pub fn request_in<R: Eprint>(
    alloc: Global,
    rt: &R,
    unit: Option<&str>,
) -> Result<Option<Vec<u8>>, u8> {
    let Some(unit) = unit else {
        return Ok(None);
    };
    match frame_of(alloc, unit) {
        Ok(frame) => Ok(Some(frame)),
        Err(refusal) => {
            tell_refusal(rt, &refusal);
            match refusal {
                Refusal::NoMemory => Err(REFUSED),
                _ => Err(USAGE),
            }
        }
    }
}

/// Reports the refusal in the reply to the start, if it is one.
fn tell_reply<R: Eprint>(alloc: Global, rt: &R, reply: &[u8]) -> Result<(), Refusal> {
    let text = reply.get(HEADER..).unwrap_or(&[]);
    let Ok(value) = Value::from_slice(alloc, text) else {
        return Ok(());
    };
    if let Some(told) = told_of(alloc, Verb::Start, &value)? {
        let line = told.error.as_str().trim_end();
        if !line.is_empty() {
            let _unheard = eprintln!(rt; "umd: --start: {line}");
        }
    }
    Ok(())
}

/// One turn with these pieces; the children get its moment and the state that it leaves.
fn take_turn<D: Disk, C: Children + News, M: Moments>(
    manager: &mut Manager<D, C>,
    clock: &mut M,
    pieces: &Pieces,
) -> Result<(), Refusal> {
    let moment = clock.moment();
    manager.children().begin(moment);
    manager.turn(moment, pieces)?;
    manager.children().settle(manager.state());
    Ok(())
}

/// If nothing ran yet since the boot: one turn with the frame on the first connection, and one with its close.
/// Refused as `Manager::turn` is.
pub fn start_first<R: Eprint, D: Disk, C: Children + News, M: Moments>(
    alloc: Global,
    rt: &R,
    manager: &mut Manager<D, C>,
    clock: &mut M,
    frame: Vec<u8>,
) -> Result<(), Refusal> {
    if !has_run_nothing(alloc, manager.state()) {
        return Ok(());
    }
    let Some(first) = Connection::new(0) else {
        return Ok(());
    };
    let mut pieces = Pieces::none(alloc)?;
    pieces.set(first, Piece::Bytes(frame));
    take_turn(manager, clock, &pieces)?;
    let output = manager.output(first);
    tell_reply(alloc, rt, output.bytes.as_slice())?;
    pieces.set(first, Piece::Closed);
    take_turn(manager, clock, &pieces)
}
