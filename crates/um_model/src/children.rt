//! The fates of processes.

use crate::service::End;

/// The known state of the process under a number.
#[derive(Clone, Copy, Debug, PartialEq, Eq)]
pub enum Fate {
    /// It isn't known yet whether it starts.
    Starting,
    /// Its program was executed, and hasn't ended.
    Executed,
    Ended(End),
    /// It hasn't started and never will.
    Absent,
}
