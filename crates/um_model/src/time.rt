//! Moments and lengths of time, each within its bounds by its type.

ghost use Rattle.std.specs.Prelude.{◌≡◌, ◌≤◌, ◌<◌, ◌+◌, ℕ, max, MatchOption};
ghost use Rattle.um_model.specs.Moments.{moment_limit, span_limit, deadline_limit};

use std::marker::Model;

/// The latest moment, and the longest span: 2^62 microseconds.
const LIMIT: u64 = 1 << 62;

/// A moment: microseconds since 1970, at most 2^62.
#[derive(Clone, Copy, Debug, PartialEq, Eq)]
pub struct Moment {
    micros: u64,
}

impl Model for Moment {
    ghost Value = { ℕ };

    ghost view = { λ m. m.micros };

    ghost invariant = { λ m. m.micros ≤ moment_limit };

    ghost inverse = { λ n. record { micros = n } };
}

impl Moment {
    /// The first moment.
    pub const FIRST: Moment = Moment { micros: 0 };

    /// The moment of `micros` microseconds; none past 2^62.
    pub fn new(micros: u64) -> Option<Moment>
        ensures { MatchOption result (moment_limit < micros) (λ m. (m ≡ micros) × (micros ≤ moment_limit)) }
    {
        if micros > LIMIT {
            return None;
        }
        Some(Moment { micros })
    }

    /// The number of its microseconds.
    pub fn micros(self) -> u64
        ensures value { result ≡ self }
        ensures small { self ≤ moment_limit }
    {
        self.micros
    }

    /// The later of two moments.
    pub fn or_later(self, other: Moment) -> Moment
        ensures { result ≡ max self other }
    {
        if self.micros < other.micros {
            other
        } else {
            self
        }
    }

    /// The moment at which a span from here is over.
    pub fn after(self, span: Span) -> Deadline
        ensures { result ≡ self + span }
    {
        Deadline {
            micros: self.micros + span.micros,
        }
    }
}

/// A length of time: microseconds, at most 2^62.
#[derive(Clone, Copy, Debug, PartialEq, Eq)]
pub struct Span {
    micros: u64,
}

impl Model for Span {
    ghost Value = { ℕ };

    ghost view = { λ s. s.micros };

    ghost invariant = { λ s. s.micros ≤ span_limit };

    ghost inverse = { λ n. record { micros = n } };
}

impl Span {
    /// The span of `micros` microseconds.
    pub fn from_micros(micros: u32) -> Span
        ensures { result ≡ micros }
    {
        Span {
            micros: u64::from(micros),
        }
    }

    /// The span of `micros` microseconds; none past 2^62.
    pub fn new(micros: u64) -> Option<Span>
        ensures { MatchOption result (span_limit < micros) (λ s. (s ≡ micros) × (micros ≤ span_limit)) }
    {
        if micros > LIMIT {
            return None;
        }
        Some(Span { micros })
    }

    /// The number of its microseconds.
    pub fn micros(self) -> u64
        ensures value { result ≡ self }
        ensures small { self ≤ span_limit }
    {
        self.micros
    }
}

/// The moment at which a unit's time-out or restart is due: microseconds since 1970, at most 2^63, a span after a moment.
#[derive(Clone, Copy, Debug, PartialEq, Eq)]
pub struct Deadline {
    micros: u64,
}

impl Model for Deadline {
    ghost Value = { ℕ };

    ghost view = { λ d. d.micros };

    ghost invariant = { λ d. d.micros ≤ deadline_limit };

    ghost inverse = { λ n. record { micros = n } };
}

impl Deadline {
    /// The deadline of `micros` microseconds; none past 2^63.
    pub fn new(micros: u64) -> Option<Deadline>
        ensures { MatchOption result (deadline_limit < micros) (λ d. (d ≡ micros) × (micros ≤ deadline_limit)) }
    {
        if micros > 2 * LIMIT {
            return None;
        }
        Some(Deadline { micros })
    }

    /// The number of its microseconds.
    pub fn micros(self) -> u64
        ensures value { result ≡ self }
        ensures small { self ≤ deadline_limit }
    {
        self.micros
    }
}
