//! `umd ctl`: sends a request to the manager at a socket, and prints its reply.

use crate::answers::{ctl_fault, put_text};
use crate::surroundings::{Surroundings, told};
use crate::waiting::wait;
use std::alloc::Global;
use std::net::Net;
use std::time::Clock;
use um_ctl::{Patience, Told, Words, ask, on_terminal};
use um_line::{CtlLine, USAGE};
use um_memory::Fault;
use um_status::Goal;

/// The error if no socket is given.
const NO_SOCKET: &str = "error: the socket is told neither by --socket nor by UMD_SOCKET

For more information, try '--help'.
";

/// The error if `--wait` has nothing to wait for.
const NO_WAIT: &str = "error: --wait is for start, stop and restart of a unit

For more information, try '--help'.
";

/// Says that no socket is given, and returns the exit status.
pub fn lacks_socket<R: Eprint>(rt: &R) -> u8 {
    let _unheard = eprint!(rt; "{NO_SOCKET}");
    USAGE
}

/// Prints JSON text. On a terminal, everything that could mislead a reader is escaped.
fn put_json<R: Print>(rt: &R, alloc: Global, text: &str, is_terminal: bool) -> Result<u8, Fault> {
    if is_terminal {
        put_text(rt, on_terminal(alloc, text)?.as_str())
    } else {
        put_text(rt, text)
    }
}

/// Prints a reply: its output, or its error.
pub fn tell<R: Print + Eprint>(
    rt: &R,
    alloc: Global,
    told: &Told,
    is_terminal: bool,
) -> Result<u8, Fault> {
    let Told {
        output,
        error,
        status,
    } = told;
    put_json(rt, alloc, output.as_str(), is_terminal)?;
    match eprint!(rt; "{error}") {
        Ok(()) => Ok(*status),
        Err(e) => Err(Fault::Write(e)),
    }
}

/// Sends one request to the manager at the socket.
fn ask_once<R: Net + Clock + Input + Print + Eprint>(
    rt: &R,
    alloc: Global,
    line: &CtlLine<'_>,
    socket: &str,
    is_terminal: bool,
) -> Result<u8, Fault> {
    let words = Words {
        verb: line.verb,
        arguments: line.arguments.as_slice(),
        mode: line.mode,
    };
    let patience = Patience {
        retry: line.retry,
        timeout: line.timeout,
    };
    match ask(rt, alloc, socket, &words, patience, &mut rt.reader()) {
        Ok(told) => tell(rt, alloc, &told, is_terminal),
        Err(fault) => {
            ctl_fault(rt, alloc, &fault, line.verb, socket);
            Ok(fault.status())
        }
    }
}

/// The state that the verb brings a unit to; `None` if the verb can't be waited for.
fn goal_of(verb: &str) -> Option<Goal> {
    match verb {
        "start" => Some(Goal::Up),
        "restart" => Some(Goal::Up),
        "stop" => Some(Goal::Down),
        _ => None,
    }
}

/// Says that there is nothing to wait for, and returns the exit status.
fn lacks_goal<R: Eprint>(rt: &R) -> u8 {
    let _unheard = eprint!(rt; "{NO_WAIT}");
    USAGE
}

/// Sends the request to the manager at the socket, and waits until the unit has started or stopped.
fn ask_and_wait<R: Net + Clock + Input + Eprint>(
    rt: &R,
    alloc: Global,
    line: &CtlLine<'_>,
    socket: &str,
) -> Result<u8, Fault> {
    let Some(goal) = goal_of(line.verb) else {
        return Ok(lacks_goal(rt));
    };
    match line.arguments.as_slice() {
        [unit] => wait(rt, alloc, line, socket, goal, unit),
        _ => Ok(lacks_goal(rt)),
    }
}

/// Runs `umd ctl`: sends the request to the manager at a socket, waits if the line says so, and returns the exit status.
/// A fault if standard output can't be written or memory is refused.
pub fn ctl<R: Net + Clock + Input + Print + Eprint>(
    rt: &R,
    alloc: Global,
    line: &CtlLine<'_>,
    surroundings: Surroundings<'_>,
) -> Result<u8, Fault> {
    let Some(socket) = told(line.socket, surroundings.socket) else {
        return Ok(lacks_socket(rt));
    };
    if !line.waits {
        return ask_once(rt, alloc, line, socket, surroundings.is_terminal);
    }
    ask_and_wait(rt, alloc, line, socket)
}
