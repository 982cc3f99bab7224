//! Moments, deadlines and the numbers of processes: eight bytes, within their bounds.
ghost use Rattle.std.specs.Prelude.{ℕ};
ghost use Rattle.byteorder.specs.Endian.{big_bytes};
ghost use Rattle.um_model.specs.Spellings.{FitDeadline, FitMoment, FitNext, FitProcess, deadline_at, moment_at, next_at, process_at};
ghost use Rattle.um_model.proofs.SpellingsLaws.{canonical_deadline, canonical_moment, canonical_next, canonical_process};

use crate::canon::Canon;
use std::alloc::{AllocError, Global};
use um_model::{Deadline, Moment, NextNumber, ProcessNumber};

impl Canon for Moment {
    ghost Value = { ℕ };

    ghost value = { λ m. m };

    ghost fits = { FitMoment };

    ghost spelling = { big_bytes 8 };

    ghost reading = { moment_at };

    fn put(&self, out: &mut Vec<u8>) -> Result<(), AllocError> {
        self.micros().put(out)
    }

    fn get(alloc: Global, bytes: &[u8]) -> Result<Option<(Moment, usize)>, AllocError> {
        let Some((micros, n)) = u64::get(alloc, bytes)? else {
            return Ok(None);
        };
        match Moment::new(micros) {
            Some(moment) => Ok(Some((moment, n))),
            None => Ok(None),
        }
    }

    ghost canonical = { canonical_moment };
}

impl Canon for Deadline {
    ghost Value = { ℕ };

    ghost value = { λ m. m };

    ghost fits = { FitDeadline };

    ghost spelling = { big_bytes 8 };

    ghost reading = { deadline_at };

    fn put(&self, out: &mut Vec<u8>) -> Result<(), AllocError> {
        self.micros().put(out)
    }

    fn get(alloc: Global, bytes: &[u8]) -> Result<Option<(Deadline, usize)>, AllocError> {
        let Some((micros, n)) = u64::get(alloc, bytes)? else {
            return Ok(None);
        };
        match Deadline::new(micros) {
            Some(deadline) => Ok(Some((deadline, n))),
            None => Ok(None),
        }
    }

    ghost canonical = { canonical_deadline };
}

impl Canon for ProcessNumber {
    ghost Value = { ℕ };

    ghost value = { λ m. m };

    ghost fits = { FitProcess };

    ghost spelling = { big_bytes 8 };

    ghost reading = { process_at };

    fn put(&self, out: &mut Vec<u8>) -> Result<(), AllocError> {
        self.get().put(out)
    }

    fn get(alloc: Global, bytes: &[u8]) -> Result<Option<(ProcessNumber, usize)>, AllocError> {
        let Some((number, n)) = u64::get(alloc, bytes)? else {
            return Ok(None);
        };
        match ProcessNumber::new(number) {
            Some(process) => Ok(Some((process, n))),
            None => Ok(None),
        }
    }

    ghost canonical = { canonical_process };
}

impl Canon for NextNumber {
    ghost Value = { ℕ };

    ghost value = { λ m. m };

    ghost fits = { FitNext };

    ghost spelling = { big_bytes 8 };

    ghost reading = { next_at };

    fn put(&self, out: &mut Vec<u8>) -> Result<(), AllocError> {
        self.get().put(out)
    }

    fn get(alloc: Global, bytes: &[u8]) -> Result<Option<(NextNumber, usize)>, AllocError> {
        let Some((number, n)) = u64::get(alloc, bytes)? else {
            return Ok(None);
        };
        match NextNumber::new(number) {
            Some(next) => Ok(Some((next, n))),
            None => Ok(None),
        }
    }

    ghost canonical = { canonical_next };
}
