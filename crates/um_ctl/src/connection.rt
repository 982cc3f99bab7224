//! A request and its reply, over a connection.

ghost use Rattle.std.specs.Prelude.{◌≡◌, ◌≢◌, ◌↔◌, ◌<◌, ◌^◌, None, IfOk, OnOk, IfErr, IsErrOf, length, option_map, string_bytes};
ghost use Rattle.std.specs.Io.KnownBytes.{Appends};
ghost use Rattle.um_ctl.specs.Prepares.{Prepares, IsAsked, IsLateBy, IsNoReply, IsUnprepared, IsUntold, TellsReply, verb_told};
ghost use Rattle.um_ctl.specs.Streams.{BeginsFrame, IsTextRead, TakesReply};
ghost use Rattle.um_ctl.specs.Words.{takes_text as takes_text_of};
ghost use Rattle.um_model.specs.Frames.{frame_of};
ghost use Rattle.um_model.specs.Requests.{row_of};

use crate::asking::reply_of;
use crate::fault::CtlFault;
use crate::reply::{Told, told_of};
use crate::text::{FileText, read_text};
use crate::waiting::{Patience, Waiting};
use crate::words::{Words, takes_text};
use crate::writing::request;
use byteorder::{BigEndian, ByteOrder};
use serde_json::Value;
use std::alloc::Global;
use std::io;
use std::io::{ErrorKind, Read, Write};
use std::net::Net;
use std::time::Clock;
use um_proto::Verb;
use um_stream::{Fault, HEADER, put_frame, read_up_to};

/// The longest text of a reply, in bytes.
const REPLY_LIMIT: usize = 1 << 24;

/// The text of the file that the verb takes, if it takes one.
fn file_text<I: Read>(alloc: Global, verb: Verb, input: &mut I) -> Result<Option<String>, CtlFault>
    ensures ok { IfOk result (λ text. IsTextRead (takes_text_of (row_of verb)) (I.remaining input.old) (I.remaining input.new) (option_map string_bytes text)) }
    ensures err { IfErr result (λ e. (e ≢ CtlFault.Usage) × IsUnprepared (I.remaining input.old) (I.remaining input.new) e) }
{
    if !takes_text(verb) {
        return Ok(None);
    }
    match read_text(alloc, input) {
        Ok(FileText::Text(text)) => Ok(Some(text)),
        Ok(FileText::TooLarge) => Err(CtlFault::TooLarge),
        Ok(FileText::NoText) => Err(CtlFault::NoText),
        Err(Fault::Read(e) | Fault::Write(e)) => Err(CtlFault::Input(e)),
        Err(Fault::NoMemory) => Err(CtlFault::NoMemory),
    }
}

/// The verb of the words, and the text of its request. Nothing is connected yet.
///
/// `Usage` for wrong words, before the input is read; then `TooLarge` and `NoText` for the text of a file; `Input` if
/// the input can't be read.
pub fn prepare<I: Read>(
    alloc: Global,
    words: &Words,
    input: &mut I,
) -> Result<(Verb, Vec<u8>), CtlFault>
    ensures ok { IfOk result (Prepares words.now (I.remaining input.old) (I.remaining input.new)) }
    ensures usage { IsErrOf result CtlFault.Usage ↔ verb_told words.now ≡ None }
    ensures err { IfErr result (IsUnprepared (I.remaining input.old) (I.remaining input.new)) }
{
    let Some(verb) = words.verb() else {
        return Err(CtlFault::Usage);
    };
    let text = file_text(alloc, verb, input)?;
    let bytes = request(alloc, verb, words, text.as_ref().map(String::as_str))?;
    Ok((verb, bytes))
}

/// The input ended too early.
fn cut_short() -> Fault {
    Fault::Read(io::Error::from(ErrorKind::UnexpectedEof))
}

/// Writes the frame of a request, and returns the text of the reply.
///
/// `Write` where the output fails; `Read` where the input can't be read, ends within the reply, or gives a length past the
/// limit of a reply; `NoMemory` where memory is refused.
pub fn exchange<R: Read, W: Write>(
    alloc: Global,
    output: &mut W,
    input: &mut R,
    request: &[u8],
) -> Result<Vec<u8>, Fault>
    requires { length request.now < 2 ^ 32 }
    ensures asked { OnOk result (Appends (W.contents output.old) (W.contents output.new) (frame_of request.now)) }
    ensures front { BeginsFrame request.now (W.contents output.old) (W.contents output.new) }
    ensures answered { IfOk result (λ reply. TakesReply (R.remaining input.old) (R.remaining input.new) reply.items) }
{
    put_frame(output, request)?;
    let header = read_up_to(alloc, input, HEADER)?;
    if header.len() < HEADER {
        return Err(cut_short());
    }
    let size = BigEndian::read_u32(header.as_slice()) as usize;
    if size > REPLY_LIMIT {
        return Err(Fault::Read(io::Error::from(ErrorKind::InvalidData)));
    }
    let reply = read_up_to(alloc, input, size)?;
    if reply.len() < size {
        return Err(cut_short());
    }
    Ok(reply)
}

/// The report of the text of a reply to the verb.
fn tell_reply(alloc: Global, verb: Verb, bytes: &[u8]) -> Result<Told, CtlFault>
    ensures told { IfOk result (TellsReply verb bytes.now) }
    ensures err { IfErr result (IsNoReply verb bytes.now) }
{
    let reply = match Value::from_slice(alloc, bytes) {
        Ok(reply) => reply,
        Err(e) if e.is_memory() => return Err(CtlFault::NoMemory),
        Err(_) => return Err(CtlFault::NoReply),
    };
    match told_of(alloc, verb, &reply)? {
        Some(told) => Ok(told),
        None => Err(CtlFault::NoReply),
    }
}

/// Sends the request of the words to the manager at a socket, with the text of a file from the input.
///
/// The faults of `prepare` come first, before it connects; then `NoConnection` if nobody serves the socket; `Unread`
/// if the connection was closed before a byte of a reply came; `Read` and `Write` for the connection; `Late` if the
/// time for the reply is up, if one is given: the request may have been taken all the same; `NoReply`.
/// `NoConnection`, for lack of a socket or of a server, and `Unread` are returned only once the time for retries is
/// up.
#[tactic(auto, using(crate::proofs::Untold::late_before))]
pub fn ask<N: Net + Clock, I: Read>(
    rt: &N,
    alloc: Global,
    socket: &str,
    words: &Words,
    patience: Patience,
    input: &mut I,
) -> Result<Told, CtlFault>
    ensures ok { IfOk result (IsAsked words.now (I.remaining input.old) (I.remaining input.new)) }
    ensures usage { IsErrOf result CtlFault.Usage ↔ verb_told words.now ≡ None }
    ensures err { IfErr result (IsUntold words.now (I.remaining input.old) (I.remaining input.new)) }
    ensures late { IfErr result (IsLateBy patience.timeout) }
{
    let (verb, request) = prepare(alloc, words, input)?;
    if request.len() > u32::MAX as usize {
        return Err(CtlFault::NoMemory);
    }
    let waiting = Waiting::starting(rt, patience);
    match reply_of(rt, alloc, waiting, socket, request.as_slice()) {
        Ok(reply) => tell_reply(alloc, verb, reply.as_slice()),
        Err(fault) => Err(fault),
    }
}
