//! Numbers that were started and that nobody has claimed, and for how long.

use crate::standing::Standing;
use std::collections::BTreeMap;
use std::time::{Clock, Instant};
use um_model::ProcessNumber;

/// The number of seconds that a runner's claim is waited for, which takes far less if all is well, until its absence is
/// reported.
const PATIENCE: u64 = 10;

/// The silence of a number that nobody has claimed.
#[derive(Clone, Copy)]
pub enum Silence {
    /// It was found so first at this moment.
    Since(Instant),
    /// It was reported.
    Told,
}

impl Silence {
    /// Whether it is to be reported now.
    pub fn is_long(self, now: Instant) -> bool {
        match self {
            Silence::Since(begun) => now.duration_since(begun).as_secs() >= PATIENCE,
            Silence::Told => false,
        }
    }
}

/// Notes whether nobody has claimed the number, and since when. Returns whether it is to be reported now.
pub(crate) fn has_long_been<R: Clock>(
    rt: &R,
    silences: &mut BTreeMap<u64, Silence>,
    number: ProcessNumber,
    standing: Standing,
) -> bool {
    let n = number.get();
    if standing != Standing::Silent {
        silences.remove(&n);
        return false;
    }
    let Ok(now) = Instant::now(rt) else {
        return false;
    };
    let silence = match silences.get(&n) {
        Some(silence) => *silence,
        None => Silence::Since(now),
    };
    let is_long = silence.is_long(now);
    let next = if is_long { Silence::Told } else { silence };
    // if there is no memory for it, it is reported later
    silences.insert(n, next).is_ok() && is_long
}
