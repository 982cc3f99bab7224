//! Memory that is held, so that a call finds little.

use std::alloc::Global;
use um_store_in_turn::wrong::{Wrong, found};

/// The bytes of a grain.
const GRAIN: usize = 64;

/// The largest blocks that are held have two to the power of this many bytes.
const LARGE: usize = 20;

/// The smallest of those that halve; below them there is one of each size that the C library hands out.
const SMALL: usize = 11;

/// The most blocks that are held, so that the program ends if its memory has no limit.
const MOST: usize = 16_384;

/// All memory of the program but some grains.
#[derive(Drop)]
pub struct Hoard {
    /// Where the grains stood.
    grains: Vec<Vec<u8>>,
    blocks: Vec<Vec<u8>>,
}

/// Holds blocks of `bytes` bytes, until none is left.
fn hold(alloc: Global, blocks: &mut Vec<Vec<u8>>, bytes: usize) -> Result<(), Wrong> {
    for _ in blocks.len()..MOST {
        match Vec::with_capacity(alloc, bytes) {
            Ok(block) => blocks.push(block)?,
            Err(_) => return Ok(()),
        }
    }
    Err(found("there is no limit of memory"))
}

/// Holds all that is left, the largest blocks first.
fn hold_all(alloc: Global, blocks: &mut Vec<Vec<u8>>) -> Result<(), Wrong> {
    for half in 0..=LARGE - SMALL {
        hold(alloc, blocks, 1 << (LARGE - half))?;
    }
    for size in 0..64 {
        hold(alloc, blocks, 1032 - 16 * size)?;
    }
    Ok(())
}

/// `count` grains.
fn grains_of(alloc: Global, count: usize) -> Result<Vec<Vec<u8>>, Wrong> {
    let mut grains = Vec::new(alloc);
    for _ in 0..count {
        grains.push(Vec::with_capacity(alloc, GRAIN)?)?;
    }
    Ok(grains)
}

impl Hoard {
    /// From now on, until it is dropped, a call finds about this many grains, if the program's memory has a limit. With None nothing is held.
    pub fn all_but(alloc: Global, grains: Option<usize>) -> Result<Hoard, Wrong> {
        let Some(count) = grains else {
            return Ok(Hoard {
                grains: Vec::new(alloc),
                blocks: Vec::new(alloc),
            });
        };
        let mut hoard = Hoard {
            grains: grains_of(alloc, count)?,
            blocks: Vec::with_capacity(alloc, MOST)?,
        };
        hold_all(alloc, &mut hoard.blocks)?;
        hoard.grains.clear();
        Ok(hoard)
    }
}
