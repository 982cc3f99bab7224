//! The output of a command, and its report if there is no reply.

use std::alloc::Global;
use um_ctl::CtlFault;
use um_line::put_line;
use um_memory::Fault;

/// Puts a text on standard output, and returns the exit status. `Write` if that fails.
pub fn put_text<R: Print>(rt: &R, text: &str) -> Result<u8, Fault> {
    match print!(rt; "{text}") {
        Ok(()) => Ok(0),
        Err(e) => Err(Fault::Write(e)),
    }
}

/// Says why there is no reply to the verb at a socket.
pub fn ctl_fault<R: Eprint>(rt: &R, alloc: Global, fault: &CtlFault, verb: &str, socket: &str) {
    match fault {
        CtlFault::Usage => put_line(
            rt,
            alloc,
            format_args!(
                "error: {verb} isn't a verb with these arguments; 'umd ctl --help' lists the verbs"
            ),
        ),
        CtlFault::TooLarge => put_line(rt, alloc, "E13 TooLarge text"),
        CtlFault::NoText => put_line(rt, alloc, "error: the text of the file isn't UTF-8"),
        CtlFault::NoConnection(e) => put_line(rt, alloc, format_args!("umd: {socket}: {e}")),
        CtlFault::Unread => put_line(
            rt,
            alloc,
            format_args!(
                "umd: {socket}: the connection was closed unread: the manager has 64 clients, or it ended"
            ),
        ),
        CtlFault::Late(seconds) => put_line(
            rt,
            alloc,
            format_args!("umd: {socket}: no reply within {seconds} s"),
        ),
        CtlFault::Input(e) => {
            put_line(rt, alloc, format_args!("umd: reading standard input: {e}"))
        }
        CtlFault::Read(e) => put_line(rt, alloc, format_args!("umd: reading {socket}: {e}")),
        CtlFault::Write(e) => put_line(rt, alloc, format_args!("umd: writing {socket}: {e}")),
        CtlFault::NoReply => put_line(
            rt,
            alloc,
            format_args!("umd: {socket}: what came is no reply"),
        ),
        CtlFault::NoMemory => put_line(rt, alloc, "E15 NoMemory"),
    }
}
