//! The calls of children, as their history keeps them.
ghost use Rattle.std.specs.Prelude.{◌≡◌, ◌&&◌, false, IfOk};
ghost use Rattle.um_children.specs.History.{tells_absent, is_start, is_absence};
ghost use Rattle.um_children.specs.Calls.{call_of};

use std::alloc::{AllocError, Global};
use um_model::{Fate, NextNumber, ProcessNumber, Signal};
use um_state::Start;

/// A call to the children.
#[derive(Debug, Drop)]
pub enum Call {
    /// A start.
    Spawned {
        number: ProcessNumber,
        start: Start,
        /// It was answered Ok.
        is_taken: bool,
        /// The process starts.
        starts: bool,
    },
    Signalled {
        number: ProcessNumber,
        signal: Signal,
    },
    /// A fate that was queried.
    Asked {
        number: ProcessNumber,
        claim: bool,
        /// Nothing where the call failed.
        told: Option<Fate>,
    },
    /// A number was forgotten.
    Forgot {
        number: ProcessNumber,
    },
    /// Each other number that has ended was forgotten; from the next number on none was ever started.
    ForgotOthers {
        live: Vec<ProcessNumber>,
        next: NextNumber,
    },
}

/// Whether absence was reported.
fn tells_absent(told: Option<Fate>) -> bool
    ensures { result ≡ tells_absent told }
{
    match told {
        Some(Fate::Absent) => true,
        Some(Fate::Starting) | Some(Fate::Executed) | Some(Fate::Ended(_)) | None => false,
    }
}

impl Call {
    /// Whether it starts the process.
    pub fn is_start(&self, process: ProcessNumber) -> bool
        ensures { result ≡ is_start process (call_of self.now) }
    {
        match self {
            Call::Spawned { number, starts, .. } => *starts && number.get() == process.get(),
            Call::Signalled { .. }
            | Call::Asked { .. }
            | Call::Forgot { .. }
            | Call::ForgotOthers { .. } => false,
        }
    }

    /// Whether it reports that the process is absent.
    pub fn is_absence(&self, process: ProcessNumber) -> bool
        ensures { result ≡ is_absence process (call_of self.now) }
    {
        match self {
            Call::Asked { number, told, .. } => tells_absent(*told)
                && number.get() == process.get(),
            Call::Spawned { .. }
            | Call::Signalled { .. }
            | Call::Forgot { .. }
            | Call::ForgotOthers { .. } => false,
        }
    }

    /// A copy of the call. Refused only for want of memory.
    pub fn copy(&self, alloc: Global) -> Result<Call, AllocError>
        ensures { IfOk result (λ call. call_of call ≡ call_of self.now) }
    {
        match self {
            Call::Spawned {
                number,
                start,
                is_taken,
                starts,
            } => Ok(Call::Spawned {
                number: *number,
                start: start.share()?,
                is_taken: *is_taken,
                starts: *starts,
            }),
            Call::Signalled { number, signal } => Ok(Call::Signalled {
                number: *number,
                signal: *signal,
            }),
            Call::Asked {
                number,
                claim,
                told,
            } => Ok(Call::Asked {
                number: *number,
                claim: *claim,
                told: *told,
            }),
            Call::Forgot { number } => Ok(Call::Forgot { number: *number }),
            Call::ForgotOthers { live, next } => Ok(Call::ForgotOthers {
                live: Vec::from_slice(alloc, live.as_slice())?,
                next: *next,
            }),
        }
    }
}
