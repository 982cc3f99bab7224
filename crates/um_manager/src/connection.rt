//! The number of a connection.
ghost use Rattle.std.specs.Prelude.{◌≡◌, ◌≤◌, ◌<◌, ℕ, MatchOption};

use std::marker::Model;

/// The number of connections of a manager.
pub const CONNECTIONS: usize = 64;

/// The number of a connection: 0 to 63.
#[derive(Clone, Copy, Debug, PartialEq, Eq)]
pub struct Connection {
    number: usize,
}

impl Model for Connection {
    ghost Value = { ℕ };

    ghost view = { λ c. c.number };

    ghost invariant = { λ c. c.number < 64 };

    ghost inverse = { λ n. record { number = n } };
}

impl Connection {
    /// The connection of this number; none from 64 on.
    pub fn new(number: usize) -> Option<Connection>
        ensures { MatchOption result (64 ≤ number) (λ c. (c ≡ number) × (number < 64)) }
    {
        if number >= CONNECTIONS {
            return None;
        }
        Some(Connection { number })
    }

    /// The number, below 64.
    pub fn get(self) -> usize
        ensures value { result ≡ self }
        ensures small { self < 64 }
    {
        self.number
    }
}
