//! Connects to a manager until one reads the request or the patience is over.

ghost use Rattle.std.specs.Prelude.{◌≢◌, ◌<◌, ◌^◌, length, IfErr};
ghost use Rattle.um_ctl.specs.Prepares.{IsOfConnection};

use crate::connection::exchange;
use crate::fault::CtlFault;
use crate::waiting::{Timed, Waiting};
use std::alloc::Global;
use std::io;
use std::io::ErrorKind;
use std::net::Net;
use std::os::unix::net::UnixStream;
use std::time::Clock;
use um_stream::Fault;

/// Whether the other side closed the connection.
fn is_closed(error: &io::Error) -> bool {
    matches!(
        error.kind(),
        ErrorKind::ConnectionReset | ErrorKind::BrokenPipe
    )
}

/// The client's fault for a fault of a connection, given whether a byte of a reply came, and the time for the reply.
fn fault_by(fault: Fault, has_heard: bool, timeout: Option<u32>) -> CtlFault
    ensures kind { IsOfConnection timeout result }
    ensures other { result ≢ CtlFault.Usage }
{
    let (Fault::Read(error) | Fault::Write(error)) = &fault else {
        return CtlFault::NoMemory;
    };
    if !has_heard && is_closed(error) {
        return CtlFault::Unread;
    }
    match timeout {
        Some(seconds) if error.kind() == ErrorKind::TimedOut => CtlFault::Late(seconds),
        _ => CtlFault::from(fault),
    }
}

/// Whether nobody was there to read the request.
fn is_nobody(fault: &CtlFault) -> bool {
    match fault {
        CtlFault::NoConnection(error) => matches!(
            error.kind(),
            ErrorKind::NotFound | ErrorKind::ConnectionRefused
        ),
        CtlFault::Unread => true,
        _ => false,
    }
}

/// The text of the reply to a request, over one connection.
fn ask_once<R: Net + Clock>(
    rt: &R,
    alloc: Global,
    waiting: Waiting,
    socket: &str,
    request: &[u8],
) -> Result<Vec<u8>, CtlFault>
    requires { length request.now < 2 ^ 32 }
    ensures kind { IfErr result (IsOfConnection waiting.patience.timeout) }
    ensures other { IfErr result (λ e. e ≢ CtlFault.Usage) }
{
    let stream = match UnixStream::connect(rt, socket) {
        Ok(stream) => stream,
        Err(error) => return Err(CtlFault::NoConnection(error)),
    };
    let mut output = Timed::over(&stream, rt, waiting);
    let mut input = Timed::over(&stream, rt, waiting);
    match exchange(alloc, &mut output, &mut input, request) {
        Ok(reply) => Ok(reply),
        Err(fault) => Err(fault_by(fault, input.has_heard, waiting.patience.timeout)),
    }
}

/// The text of the reply to a request. While nobody is there to read it, it connects again until the time for that is
/// up.
pub(crate) fn reply_of<R: Net + Clock>(
    rt: &R,
    alloc: Global,
    waiting: Waiting,
    socket: &str,
    request: &[u8],
) -> Result<Vec<u8>, CtlFault>
    requires { length request.now < 2 ^ 32 }
    ensures kind { IfErr result (IsOfConnection waiting.patience.timeout) }
    ensures other { IfErr result (λ e. e ≢ CtlFault.Usage) }
{
    'tries: for _ in 0..u64::MAX {
        let answer = ask_once(rt, alloc, waiting, socket, request);
        match &answer {
            Err(fault) if is_nobody(fault) && waiting.may_retry(rt) => {}
            _ => return answer,
        }
        if let Err(error) = waiting.pause(rt) {
            let timeout = waiting.patience.timeout;
            return Err(fault_by(Fault::Read(error), false, timeout));
        }
    }
    ask_once(rt, alloc, waiting, socket, request)
}
