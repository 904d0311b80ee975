// A source and a sink in memory.
ghost use Rattle.std.specs.Prelude.{◌≡◌, ◌-◌, ◌<◌, ◌≤◌, ◌↔◌, ◌⊎◌, [], ◌++◌, length, take, drop, min, Contains, Some};
ghost use Rattle.std.specs.Prelude.{IfOk, OnErr, IsErr};
ghost use Rattle.std.specs.Io.{ReadsAtMost};
ghost use Rattle.std.specs.Io.KnownBytes.{ReadConsumes, WriteAppends};
ghost use Rattle.pump_frame.specs.Counts.{raised};
ghost use Rattle.pump_link.specs.Causes.{HasCause};
ghost use Rattle.pump_link.specs.Tells.{Draws};
ghost use Rattle.pump_link.specs.Pieces.{piece_in, PiecesFrom};
ghost use Rattle.pump_link.specs.Memory.{MemorySource, MemorySink};

use crate::stream::{ReadFault, Sink, Source, WriteFault};
use pump_frame::raised;
use std::marker::Model;

/// Bytes in memory as a source, given in pieces; some of its reads fail.
#[derive(Drop)]
pub struct MemSource {
    bytes: Vec<u8>,
    at: usize,
    piece: usize,
    fails: Vec<u64>,
    calls: u64,
    faults: u64,
}

impl Model for MemSource {
    ghost Value = { MemorySource };

    ghost view = { λ s. record {
      left = drop s.at s.bytes.items;
      piece = s.piece;
      calls = s.calls;
      fails = s.fails.items;
      faults = s.faults;
    } };

    ghost invariant = { λ s. (s.at ≤ length s.bytes.items) × (0 < s.piece) };
}

impl MemSource {
    /// Gives at most `piece` bytes a read; the reads with the numbers `fails`, from 0, fail.
    pub fn new(bytes: Vec<u8>, piece: usize, fails: Vec<u64>) -> Self
        requires { 0 < piece }
        ensures { result ≡ record { left = bytes.items; piece = piece; calls = 0; fails = fails.items; faults = 0 } }
    {
        MemSource {
            bytes,
            at: 0,
            piece,
            fails,
            calls: 0,
            faults: 0,
        }
    }
}

impl Source for MemSource {
    ghost left = { λ s. Some s.left };

    ghost gives = { λ s. PiecesFrom s.left };

    ghost faults = { λ s. s.faults };

    fn read(&mut self, into: &mut [u8]) -> Result<usize, ReadFault>
        requires { 0 < length into.old }
        ensures bound { ReadsAtMost result into.new }
        ensures bytes { ReadConsumes (Some self.old.left) (Some self.new.left) result into.new }
        ensures gives { Draws (PiecesFrom self.old.left) (PiecesFrom self.new.left) (piece_in result into.new) }
        ensures cause { HasCause self.old.faults self.new.faults result }
        ensures fails { IsErr result ↔ Contains self.old.fails self.old.calls }
        ensures pieces { IfOk result (λ n. n ≡ min self.old.piece (min (length into.old) (length self.old.left))) }
        ensures ok { IfOk result (λ n. self.new
            ≡ record self.old { left = drop n self.old.left; calls = raised self.old.calls }) }
        ensures err { OnErr result (self.new
            ≡ record self.old { calls = raised self.old.calls; faults = raised self.old.faults }) }
    {
        let number = self.calls;
        self.calls = raised(number);
        if self.fails.contains(&number) {
            self.faults = raised(self.faults);
            return Err(ReadFault);
        }
        let rest = &self.bytes[self.at..];
        let count = self.piece.min(into.len()).min(rest.len());
        into[..count].copy_from_slice(&rest[..count]);
        self.at += count;
        Ok(count)
    }

    fn faults(&self) -> u64 {
        self.faults
    }
}

/// A sink in memory, with a room that is handed in; some of its writes fail.
#[derive(Drop)]
pub struct MemSink {
    bytes: Vec<u8>,
    at: usize,
    piece: usize,
    fails: Vec<u64>,
    calls: u64,
    faults: u64,
}

impl Model for MemSink {
    ghost Value = { MemorySink };

    ghost view = { λ s. record {
      written = take s.at s.bytes.items;
      room = length s.bytes.items - s.at;
      piece = s.piece;
      calls = s.calls;
      fails = s.fails.items;
      faults = s.faults;
    } };

    ghost invariant = { λ s. (s.at ≤ length s.bytes.items) × (0 < s.piece) };
}

impl MemSink {
    /// Takes at most `piece` bytes a write into the room handed in; the writes with the numbers
    /// `fails`, from 0, fail, and so does one without room.
    pub fn new(room: Vec<u8>, piece: usize, fails: Vec<u64>) -> Self
        requires { 0 < piece }
        ensures { result ≡ record {
          written = [];
          room = length room.items;
          piece = piece;
          calls = 0;
          fails = fails.items;
          faults = 0;
        } }
    {
        MemSink {
            bytes: room,
            at: 0,
            piece,
            fails,
            calls: 0,
            faults: 0,
        }
    }

    /// The bytes that were written.
    pub fn written(&self) -> &[u8]
        ensures { result.now ≡ self.now.written }
    {
        &self.bytes[..self.at]
    }
}

impl Sink for MemSink {
    ghost written = { λ s. Some s.written };

    ghost faults = { λ s. s.faults };

    fn write(&mut self, bytes: &[u8]) -> Result<usize, WriteFault>
        requires { 0 < length bytes.now }
        ensures some { IfOk result (λ n. (0 < n) × (n ≤ length bytes.now)) }
        ensures bytes { WriteAppends (Some self.old.written) (Some self.new.written) result bytes.now }
        ensures cause { HasCause self.old.faults self.new.faults result }
        ensures fails { IsErr result ↔ ((self.old.room ≡ 0) ⊎ Contains self.old.fails self.old.calls) }
        ensures pieces { IfOk result (λ n. n ≡ min self.old.piece (min (length bytes.now) self.old.room)) }
        ensures ok { IfOk result (λ n. self.new
            ≡ record self.old {
              written = self.old.written ++ take n bytes.now;
              room = self.old.room - n;
              calls = raised
                  self.old.calls;
            }) }
        ensures err { OnErr result (self.new
            ≡ record self.old { calls = raised self.old.calls; faults = raised self.old.faults }) }
    {
        let number = self.calls;
        self.calls = raised(number);
        if self.at == self.bytes.len() || self.fails.contains(&number) {
            self.faults = raised(self.faults);
            return Err(WriteFault);
        }
        let count = self.piece.min(bytes.len()).min(self.bytes.len() - self.at);
        let end = self.at + count;
        self.bytes[self.at..end].copy_from_slice(&bytes[..count]);
        self.at = end;
        Ok(count)
    }

    fn faults(&self) -> u64 {
        self.faults
    }
}
