//! The faults that a run finds.

use std::alloc::{AllocError, AllocFailed};
use thiserror::Error;
use um_children::ChildFault;
use um_sector::Fault;
use um_wire::Refusal;

/// Why a run ends early.
#[derive(Debug, Drop, Error)]
pub enum Wrong {
    /// The run itself found no memory.
    #[error("there is no memory")]
    NoMemory,
    /// A refusal where none may come.
    #[error("refused with {refusal}")]
    Refused {
        refusal: Refusal,
    },
    /// Something else than what must be, in this case.
    #[error("{what}, at {number}{way}")]
    Found {
        what: &'static str,
        number: u64,
        way: &'static str,
    },
}

/// A fault with this text.
pub fn found(what: &'static str) -> Wrong {
    Wrong::Found {
        what,
        number: 0,
        way: "",
    }
}

impl Wrong {
    /// The same, in this case.
    pub fn at(self, case: u64, how: &'static str) -> Wrong {
        match self {
            Wrong::Found {
                what,
                number: 0,
                ..
            } => Wrong::Found {
                what,
                number: case,
                way: how,
            },
            other => other,
        }
    }
}

impl From<AllocError> for Wrong {
    fn from(_refused: AllocError) -> Wrong {
        Wrong::NoMemory
    }
}

impl<T: Drop> From<AllocFailed<T>> for Wrong {
    fn from(_refused: AllocFailed<T>) -> Wrong {
        Wrong::NoMemory
    }
}

impl From<Refusal> for Wrong {
    fn from(refusal: Refusal) -> Wrong {
        match refusal {
            Refusal::NoMemory => Wrong::NoMemory,
            refusal => Wrong::Refused { refusal },
        }
    }
}

impl From<ChildFault> for Wrong {
    fn from(fault: ChildFault) -> Wrong {
        Wrong::from(Refusal::from(fault))
    }
}

impl From<Fault> for Wrong {
    fn from(fault: Fault) -> Wrong {
        Wrong::from(Refusal::from(fault))
    }
}
