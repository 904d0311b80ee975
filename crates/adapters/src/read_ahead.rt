//! Bytes that were read and are not given yet.

ghost use Rattle.std.specs.Prelude.{◌≡◌, ℕ, List, [], ◌∷◌, length, IfNone, IfSome, IfOk};
ghost use Rattle.std.specs.Io.KnownBytes.{ReadConsumes};

use std::alloc::{AllocError, Global};
use std::io::{self, Read};
use std::marker::Model;

/// How many bytes one read takes in at most.
const ROOM: usize = 2048;

/// Bytes that were read and are not given yet. Contracts see the list of them. They have memory of
/// their own, so a link is small where it is moved.
#[derive(Drop)]
pub struct ReadAhead {
    bytes: Vec<u8>,
    at: usize,
    end: usize,
}

impl Model for ReadAhead {
    ghost use Rattle.std.specs.Prelude.{ℕ, ◌≤◌, List, length, take, drop};

    ghost Value = { List ℕ };

    ghost view = { λ s. drop s.at (take s.end s.bytes.items) };

    ghost invariant = { λ s. (s.at ≤ s.end) × (s.end ≤ length s.bytes.items) };
}

impl ReadAhead {
    /// No bytes. An error is want of memory.
    pub fn new(alloc: Global) -> Result<ReadAhead, AllocError>
        ensures { IfOk result (λ ahead. ahead ≡ []) }
    {
        Ok(ReadAhead {
            bytes: vec![in alloc; 0; ROOM]?,
            at: 0,
            end: 0,
        })
    }

    /// The next byte, where one is left.
    #[inline(always)]
    pub fn next(&mut self) -> Option<u8>
        ensures none { IfNone result ((self.old ≡ []) × (self.new ≡ [])) }
        ensures some { IfSome result (λ byte. self.old ≡ byte ∷ self.new) }
    {
        if self.at == self.end {
            return None;
        }
        let byte = self.bytes[self.at];
        self.at += 1;
        Some(byte)
    }

    /// Takes in the bytes of one read, none where the reader is at its end.
    pub fn fill<R: Read>(&mut self, reader: &mut R) -> io::Result<usize>
        requires { self.old ≡ [] }
        ensures count { IfOk result (λ count. length self.new ≡ count) }
        ensures bytes { ReadConsumes (R.remaining reader.old) (R.remaining reader.new) result self.new }
    {
        let count = reader.read(self.bytes.as_mut_slice())?;
        self.at = 0;
        self.end = count;
        Ok(count)
    }
}
