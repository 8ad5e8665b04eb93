//! What travels on a wire.
ghost use Rattle.std.specs.Prelude.{◌≡◌, length};
ghost use Rattle.wire_core.specs.Pieces.{IsLength, piece_of};

use std::marker::Model;

/// The most bytes of a piece.
pub const LONGEST: usize = 512;

/// A piece on a wire: 1 to 512 bytes that a node sends to its peer, all of one event, whose stamp it
/// has. An item may be cut anywhere. Contracts see the stamp and the bytes.
#[derive(Drop)]
pub struct Piece {
    stamp: u64,
    bytes: Vec<u8>,
}

impl Model for Piece {
    ghost use Rattle.std.specs.Prelude.{length};
    ghost use Rattle.wire_core.specs.Pieces.{IsLength, PieceSeen, piece_of};

    ghost Value = { PieceSeen };

    ghost view = { λ piece. piece_of piece.stamp piece.bytes.items };

    ghost invariant = { λ piece. IsLength (length piece.bytes.items) };
}

impl Piece {
    /// These bytes, under the stamp of the event that sent them.
    pub fn new(stamp: u64, bytes: Vec<u8>) -> Self
        requires { IsLength (length bytes.items) }
        ensures { result ≡ piece_of stamp bytes.items }
    {
        Piece { stamp, bytes }
    }

    /// The stamp.
    pub fn stamp(&self) -> u64
        ensures { result ≡ self.now.stamp }
    {
        self.stamp
    }

    /// The bytes.
    pub fn as_slice(&self) -> &[u8]
        ensures bytes { result.now ≡ self.now.bytes }
        ensures length { IsLength (length self.now.bytes) }
    {
        self.bytes.as_slice()
    }
}
