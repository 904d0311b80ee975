//! Bytes that are to be written, held back until there is a large piece of them.

ghost use Rattle.std.specs.Prelude.{◌≡◌, ℕ, ◌+◌, ◌≤◌, List, [], ◌++◌, length, Option, OnOk, OnErr};
ghost use Rattle.std.specs.Io.KnownBytes.{Appends};
ghost use Rattle.pump_link.specs.Causes.{HasCause, AppendsPrefix};
ghost use Rattle.pump_wrapper.specs.HeldBack.{Held, held_in};

use pump_link::{Sink, WriteFault, write_all};
use std::marker::Model;

/// The most bytes that are held.
const MOST: usize = 65536;

/// At most 64 KB of bytes. Contracts see their list. It is no `ArrayVec`, whose `clear` writes over all
/// that was held.
#[derive(Drop)]
struct Bytes {
    cells: [u8; MOST],
    len: usize,
}

impl Model for Bytes {
    ghost use Rattle.std.specs.Prelude.{◌≡◌, ℕ, ◌≤◌, List, length, take};

    ghost Value = { List ℕ };

    ghost view = { λ s. take s.len s.cells };

    ghost invariant = { λ s. (s.len ≤ 65536) × (length s.cells ≡ 65536) };
}

impl Bytes {
    fn new() -> Bytes
        ensures { result ≡ [] }
    {
        Bytes {
            cells: [0; MOST],
            len: 0,
        }
    }

    fn as_slice(&self) -> &[u8]
        ensures { result.now ≡ self.now }
    {
        &self.cells[..self.len]
    }

    // How many more bytes it can hold.
    fn room(&self) -> usize
        ensures { length self.now + result ≡ 65536 }
    {
        MOST - self.len
    }

    fn push(&mut self, piece: &[u8])
        requires { length self.old + length piece.now ≤ 65536 }
        ensures { self.new ≡ self.old ++ piece.now }
    {
        let end = self.len + piece.len();
        self.cells[self.len..end].copy_from_slice(piece);
        self.len = end;
    }

    // The bytes are written over by those that come next.
    fn clear(&mut self)
        ensures { self.new ≡ [] }
    {
        self.len = 0;
    }
}

/// Bytes that are to be written.
#[derive(Drop)]
pub struct Room {
    held: Bytes,
}

impl Room {
    /// No bytes.
    pub fn new() -> Room
        ensures { held_in result ≡ [] }
    {
        Room { held: Bytes::new() }
    }

    /// Writes all that is held.
    pub fn flush<O: Sink>(&mut self, out: &mut O) -> Result<(), WriteFault>
        ensures ok { OnOk result (Appends (O.written out.old) (O.written out.new) (held_in self.old)) }
        ensures empty { OnOk result (held_in self.new ≡ []) }
        ensures err { OnErr result (AppendsPrefix (O.written out.old) (O.written out.new) (held_in self.old)) }
        ensures cause { HasCause (O.faults out.old) (O.faults out.new) result }
    {
        write_all(out, self.held.as_slice())?;
        self.held.clear();
        Ok(())
    }

    /// Holds a piece, of 1,024 bytes at most. Where it does not fit, the room is filled and written, and
    /// the rest is held: whole pages are written faster.
    pub fn put<O: Sink>(&mut self, piece: &[u8], out: &mut O) -> Result<(), WriteFault>
        requires short { length piece.now ≤ 1024 }
        ensures ok { OnOk result ((before : Option (List ℕ)) (bytes : List ℕ)
            → Held before (O.written out.old) (held_in self.old) bytes
            → Held before (O.written out.new) (held_in self.new) (bytes ++ piece.now)) }
        ensures err { OnErr result (AppendsPrefix (O.written out.old) (O.written out.new)
            (held_in self.old ++ piece.now)) }
        ensures cause { HasCause (O.faults out.old) (O.faults out.new) result }
    {
        let fitting = self.held.room().min(piece.len());
        let (prefix, rest) = piece.split_at(fitting);
        self.held.push(prefix);
        if !rest.is_empty() {
            self.flush(out)?;
            self.held.push(rest);
        }
        Ok(())
    }
}
