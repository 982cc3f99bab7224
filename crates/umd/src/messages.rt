//! Reports faults on standard error, and gives their exit statuses. If standard error fails too, only the exit status
//! shows the error.

use std::alloc::Global;
use um_create::CreateFault;
use um_line::{DEVICE, REFUSED, put_line};
use um_memory::Fault;

/// Reports the fault on standard error.
pub fn report<R: Eprint>(rt: &R, fault: &Fault) {
    let _unheard = match fault {
        Fault::NoMemory => eprintln!(rt; "E15 NoMemory"),
        Fault::Read(e) => eprintln!(rt; "umd: reading: {e}"),
        Fault::Write(e) => eprintln!(rt; "umd: writing: {e}"),
    };
}

/// The exit status of a fault.
pub fn status_of(fault: &Fault) -> u8 {
    match fault {
        Fault::NoMemory => REFUSED,
        Fault::Read(_) | Fault::Write(_) => DEVICE,
    }
}

/// Says why no store was made.
pub fn tell_create<R: Eprint>(rt: &R, alloc: Global, fault: &CreateFault, path: &str) {
    match fault {
        CreateFault::Exists => put_line(rt, alloc, format_args!("E11 Exists {path}")),
        CreateFault::File(fault) => put_line(rt, alloc, format_args!("umd: {path}: {fault}")),
        CreateFault::Store(refusal) => put_line(rt, alloc, format_args!("{refusal}")),
    }
}
