//! The pieces of the connections that a turn takes.
ghost use Rattle.std.specs.Prelude.{◌≡◌, List, length, replicate, IfOk, slice_get, Some, ◌≢◌, ℕ};
ghost use Rattle.um_manager.specs.declared.pieces.Piece.{Piece};
ghost use Rattle.um_manager.specs.declared.pieces.Piece.TheVariants.{Nothing};

use crate::connection::{CONNECTIONS, Connection};
use std::alloc::{AllocError, Global};
use std::marker::Model;

/// The piece of a connection: its bytes since the last turn, or its end.
#[derive(Debug, Drop)]
pub enum Piece {
    Nothing,
    /// These bytes. The first ones, also after `Closed`, open a session.
    Bytes(Vec<u8>),
    /// The client is gone: its session ends with the bytes it holds.
    Closed,
}

/// The pieces of the 64 connections.
#[derive(Debug, Drop)]
pub struct Pieces {
    pieces: Vec<Piece>,
}

impl Model for Pieces {
    ghost Value = { List Piece };

    ghost view = { λ p. p.pieces.items };

    ghost invariant = { λ p. length p.pieces.items ≡ 64 };
}

impl Pieces {
    /// Nothing of any connection.
    pub fn none(alloc: Global) -> Result<Pieces, AllocError>
        ensures { IfOk result (λ pieces. pieces ≡ replicate 64 Nothing) }
    {
        let mut pieces = Vec::with_capacity(alloc, CONNECTIONS)?;
        for _ in 0..CONNECTIONS {
            pieces.push(Piece::Nothing)?;
        }
        Ok(Pieces { pieces })
    }

    /// Sets the piece of a connection, in the place of the one set before.
    pub fn set(&mut self, connection: Connection, piece: Piece)
        ensures set { slice_get self.new connection ≡ Some piece }
        ensures others { (other : ℕ) → other ≢ connection → slice_get self.new other ≡ slice_get self.old other }
    {
        self.pieces[connection.get()] = piece;
    }

    /// The pieces in the order of their connections.
    pub fn as_slice(&self) -> &[Piece]
        ensures pieces { result.now ≡ self.now }
        ensures each { length result.now ≡ 64 }
    {
        self.pieces.as_slice()
    }
}
