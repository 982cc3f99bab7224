//! The numbers of processes, each given once.

ghost use Rattle.std.specs.Prelude.{◌≡◌, ◌≤◌, ◌<◌, ◌+◌, ◌^◌, ℕ, MatchOption, ◌⊎◌};
ghost use Rattle.um_model.specs.Moments.{process_limit};

use std::marker::Model;

/// From this number on no process is started: 2^63.
const LIMIT: u64 = 1 << 63;

/// The number of a process: 1 to 2^63 - 1.
#[derive(Clone, Copy, Debug, PartialEq, Eq)]
pub struct ProcessNumber {
    number: u64,
}

impl Model for ProcessNumber {
    ghost Value = { ℕ };

    ghost view = { λ p. p.number };

    ghost invariant = { λ p. (1 ≤ p.number) × (p.number < process_limit) };

    ghost inverse = { λ n. record { number = n } };
}

impl ProcessNumber {
    /// The process with this number; none for 0, and from 2^63 on.
    pub fn new(number: u64) -> Option<ProcessNumber>
        ensures some { MatchOption result ((number ≡ 0) ⊎ (process_limit ≤ number)) (λ p. p ≡ number) }
    {
        if number == 0 || number >= LIMIT {
            return None;
        }
        Some(ProcessNumber { number })
    }

    /// The number as a `u64`.
    pub fn get(self) -> u64
        ensures value { result ≡ self }
        ensures least { 1 ≤ self }
        ensures small { self < process_limit }
    {
        self.number
    }
}

/// The number under which the next process is started: 1 to 2^63; at 2^63 no number is left.
#[derive(Clone, Copy, Debug, PartialEq, Eq)]
pub struct NextNumber {
    number: u64,
}

impl Model for NextNumber {
    ghost Value = { ℕ };

    ghost view = { λ n. n.number };

    ghost invariant = { λ n. (1 ≤ n.number) × (n.number ≤ process_limit) };

    ghost inverse = { λ n. record { number = n } };
}

impl NextNumber {
    /// That of the first process.
    pub const FIRST: NextNumber = NextNumber { number: 1 };

    /// The next number; none for 0, and past 2^63.
    pub fn new(number: u64) -> Option<NextNumber>
        ensures { MatchOption result ((number ≡ 0) ⊎ (process_limit < number)) (λ n. n ≡ number) }
    {
        if number == 0 || number > LIMIT {
            return None;
        }
        Some(NextNumber { number })
    }

    /// The number as a `u64`.
    pub fn get(self) -> u64
        ensures value { result ≡ self }
        ensures least { 1 ≤ self }
        ensures small { self ≤ process_limit }
    {
        self.number
    }

    /// The process that it is for; none if no number is left.
    pub fn process(self) -> Option<ProcessNumber>
        ensures { MatchOption result (process_limit ≤ self) (λ p. (p ≡ self) × (self < process_limit)) }
    {
        if self.number == LIMIT {
            return None;
        }
        Some(ProcessNumber {
            number: self.number,
        })
    }

    /// The number that follows that of a process.
    pub fn behind(process: ProcessNumber) -> NextNumber
        ensures { result ≡ process + 1 }
    {
        NextNumber {
            number: process.number + 1,
        }
    }
}
