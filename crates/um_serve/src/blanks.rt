//! Room for the reads of a round.

ghost use Rattle.std.specs.Prelude.{◌≡◌, ◌≤◌, ◌+◌, [], OnOk, vec_len, vec_capacity};

use std::alloc::{AllocError, Global};
use um_gate::{CONNECTIONS, MOST_BYTES};

/// Room for the bytes of one read.
#[derive(Drop)]
pub struct Blank {
    pub bytes: Vec<u8>,
    ghost empty: { bytes.items ≡ [] },
    ghost room: { 4096 ≤ vec_capacity bytes },
}

impl Blank {
    fn new(alloc: Global) -> Result<Blank, AllocError> {
        Ok(Blank {
            bytes: Vec::with_capacity(alloc, MOST_BYTES)?,
        })
    }
}

/// Makes as much room as a round of reads may take.
pub fn fill_up(alloc: Global, blanks: &mut Vec<Blank>) -> Result<(), AllocError>
    ensures { OnOk result (64 ≤ vec_len blanks.new) }
{
    for _ in 0..CONNECTIONS {
        if blanks.len() < CONNECTIONS {
            blanks.push(Blank::new(alloc)?)?;
        }
    }
    Ok(())
}

/// Takes one of them.
pub fn take_one(blanks: &mut Vec<Blank>) -> Blank
    requires { 1 ≤ vec_len blanks.old }
    ensures { vec_len blanks.new + 1 ≡ vec_len blanks.old }
{
    match blanks.pop() {
        Some(blank) => blank,
        None => unreachable!(),
    }
}
