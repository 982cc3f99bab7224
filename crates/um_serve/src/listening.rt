//! The accept and the reads of a round.

ghost use Rattle.std.specs.Prelude.{◌≡◌, ◌≢◌, ◌↔◌, ◌+◌, ◌<◌, ◌≤◌, ◌∷◌, [], ℕ, true, false, vec_len, slice_get, Some};
ghost use Rattle.um_gate.specs.Frames.{KeepsGate};
ghost use Rattle.um_gate.specs.Events.{Logs, read};
ghost use Rattle.um_manager.specs.declared.pieces.Piece.TheVariants.{Nothing};
ghost use Rattle.um_serve.specs.Rounds.{came_of, reads_one, reads_below, IsHeldBack, AreHeldBack, OnlyOpen, IsSilent, NoneOfHeld, has_come, after_piece, Forgets};

use crate::blanks::{Blank, take_one};
use um_backlog::Backlog;
use um_children::Children;
use um_gate::{CONNECTIONS, Gate, MOST_BYTES, Open};
use um_manager::{Connection, Manager, Piece, Pieces};
use um_sector::Disk;

/// The connection of this number.
pub fn connection(number: usize) -> Connection
    requires { number < 64 }
    ensures { result ≡ number }
{
    match Connection::new(number) {
        Some(connection) => connection,
        None => unreachable!(),
    }
}

/// Reads a connection, `most` bytes at most.
fn read_one<G: Gate>(gate: &mut G, number: usize, most: usize, blank: Blank) -> Piece
    requires { most ≤ 4096 }
    ensures past { Logs (G.honest gate.old) (G.whole gate.new) (G.past gate.old) (G.past gate.new) (read number most (came_of result) ∷ []) }
    ensures silent { most ≡ 0 → IsSilent (Some result) }
    ensures gate { KeepsGate G.Gate gate.old gate.new }
{
    let Blank { mut bytes } = blank;
    if !gate.read(number, most, &mut bytes) {
        Piece::Closed
    } else if bytes.is_empty() {
        Piece::Nothing
    } else {
        Piece::Bytes(bytes)
    }
}

/// Reads a connection, where it is open; of a client that is held back nothing.
fn hear<G: Gate>(
    gate: &mut G,
    number: usize,
    is_open: bool,
    is_held: bool,
    blanks: &mut Vec<Blank>,
) -> Piece
    requires { 1 ≤ vec_len blanks.old }
    ensures past { Logs (G.honest gate.old) (G.whole gate.new) (G.past gate.old) (G.past gate.new)
        (reads_one number (Some is_open) (Some is_held) (Some result)) }
    ensures closed { is_open ≡ false → result ≡ Nothing }
    ensures silent { is_held ≡ true → IsSilent (Some result) }
    ensures left { vec_len blanks.old ≤ vec_len blanks.new + 1 }
    ensures gate { KeepsGate G.Gate gate.old gate.new }
{
    if !is_open {
        return Piece::Nothing;
    }
    let most = if is_held { 0 } else { MOST_BYTES };
    read_one(gate, number, most, take_one(blanks))
}

/// Which clients are held back, by the numbers of their connections.
#[derive(Clone, Copy, Debug)]
pub struct Held {
    pub is_held: [bool; CONNECTIONS],
}

/// Whether a whole frame of a client waits for its turn, or more than 4 MiB wait for it.
fn is_held_back<D: Disk, C: Children>(
    manager: &Manager<D, C>,
    backlog: &Backlog,
    number: usize,
) -> bool
    requires { number < 64 }
    ensures { (result ≡ true) ↔ IsHeldBack (slice_get manager.now.sessions.items number) (slice_get backlog.now number) }
{
    let holds_frame = manager.holds_frame(connection(number));
    let is_behind = backlog.is_behind(number);
    holds_frame | is_behind
}

/// The clients that are held back.
pub fn held_back<D: Disk, C: Children>(manager: &Manager<D, C>, backlog: &Backlog) -> Held
    ensures { AreHeldBack manager.now.sessions.items backlog.now result.is_held }
{
    let mut is_held = [false; CONNECTIONS];
    for number in 0..CONNECTIONS {
        is_held[number] = is_held_back(manager, backlog, number);
    }
    Held { is_held }
}

/// Reads each open connection, ascending; of those that are held back nothing.
pub fn listen<G: Gate>(
    gate: &mut G,
    accepted: Open,
    held: Held,
    blanks: &mut Vec<Blank>,
    pieces: &mut Pieces,
)
    requires { 64 ≤ vec_len blanks.old }
    ensures past { Logs (G.honest gate.old) (G.whole gate.new) (G.past gate.old) (G.past gate.new)
        (reads_below 64 accepted.is_open held.is_held pieces.new) }
    ensures only_open { OnlyOpen accepted.is_open pieces.new }
    ensures none_of_held { NoneOfHeld held.is_held pieces.new }
    ensures gate { KeepsGate G.Gate gate.old gate.new }
{
    for number in 0..CONNECTIONS {
        let is_open = accepted.is_open[number];
        let piece = hear(gate, number, is_open, held.is_held[number], blanks);
        pieces.set(connection(number), piece);
    }
}

/// Whether anything arrived.
pub fn has_come(pieces: &Pieces) -> bool
    ensures { result ≡ has_come pieces.now }
{
    pieces
        .as_slice()
        .iter()
        .any(|piece| !matches!(piece, Piece::Nothing))
}

/// Drops the bytes that wait for a client if its piece says that it closed.
fn forget_one(backlog: &mut Backlog, number: usize, piece: &Piece)
    ensures here { slice_get backlog.new number ≡ after_piece (Some piece.now) (slice_get backlog.old number) }
    ensures others { (other : ℕ) → other ≢ number → slice_get backlog.new other ≡ slice_get backlog.old other }
{
    match piece {
        Piece::Closed => backlog.forget(number),
        Piece::Nothing | Piece::Bytes(_) => {}
    }
}

/// Drops the bytes that wait for clients whose pieces say that they closed.
pub fn forget_closed(pieces: &Pieces, backlog: &mut Backlog)
    ensures { Forgets pieces.now backlog.old backlog.new }
{
    let pieces = pieces.as_slice();
    for number in 0..CONNECTIONS {
        forget_one(backlog, number, &pieces[number]);
    }
}
