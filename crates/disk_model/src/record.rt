// What happened to a disk, and what a crash makes of it.
ghost use Rattle.std.specs.Prelude.{◌≡◌};

use std::marker::Model;

/// The bytes of one write. Contracts see it as their list.
#[derive(Drop)]
pub struct Piece {
    bytes: Vec<u8>,
}

impl Model for Piece {
    ghost use Rattle.std.specs.Prelude.{ℕ, List};

    ghost Value = { List ℕ };

    ghost view = { λ p. p.bytes.items };
}

impl Piece {
    pub fn new(bytes: Vec<u8>) -> Piece
        ensures { result ≡ bytes.items }
    {
        Piece { bytes }
    }

    pub fn as_slice(&self) -> &[u8]
        ensures { result.now ≡ self.now }
    {
        &self.bytes
    }
}

/// What happened to a disk.
#[derive(Drop)]
pub enum Entry {
    /// These bytes were written at an offset.
    Write { at: u64, bytes: Piece },
    /// A write of these bytes failed.
    Missed { at: u64, bytes: Piece },
    /// A sync succeeded.
    Sync,
}

/// What a crash makes of the ranges that were written since the last good sync.
#[derive(Clone, Copy, Debug, PartialEq, Eq)]
pub enum Outcome {
    /// They hold what they held before, and the size is the old one.
    Old,
    /// They hold what was written.
    New,
    /// They hold this byte everywhere.
    Fill(u8),
}
