//! Gates for clients: each accept, read and write of up to 64 connections is one event of a list, in memory and over a socket.
#![tactic(auto)]

mod clock;
mod fake;
mod gate;
mod listener;
mod news;
mod note;
mod socket;

pub use clock::{FakeMoments, Moments, SystemMoments, system_moment};
pub use fake::FakeGate;
pub use gate::{CONNECTIONS, Gate, MOST_BYTES, Open};
pub use listener::look_at_socket;
pub use note::Note;
pub use socket::SocketGate;
