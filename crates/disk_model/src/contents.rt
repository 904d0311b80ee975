// The bytes of a disk in memory, which may reach up to a room.
ghost use Rattle.std.specs.Prelude.{◌≡◌, ◌+◌, ◌≤◌, ◌++◌, [], length, take, drop, replicate, IfOk, vec_len};
ghost use Rattle.std.specs.Prelude.{vec_capacity};
ghost use Rattle.disk_model.specs.Contents.{Held, put_at};
ghost use Rattle.disk_model.specs.Written.{written};

use crate::range::ends_within;
use std::alloc::{AllocError, Global};
use std::marker::Model;

#[derive(Drop)]
pub struct Contents {
    buffer: Vec<u8>,
    size: usize,
}

impl Model for Contents {
    ghost Value = { Held };

    ghost view = { λ c. record { room = vec_len c.buffer; bytes = take c.size c.buffer.items } };

    ghost invariant = { λ c. c.size ≤ vec_len c.buffer };
}

impl Contents {
    pub fn new(alloc: Global, room: usize) -> Result<Contents, AllocError>
        ensures { IfOk result (λ c. c ≡ record { room = room; bytes = [] }) }
    {
        Ok(Contents {
            buffer: vec![in alloc; 0u8; room]?,
            size: 0,
        })
    }

    pub fn room(&self) -> usize
        ensures room { result ≡ self.now.room }
        ensures within { length self.now.bytes ≤ self.now.room }
    {
        let _ = &self.size;
        self.buffer.len()
    }

    pub fn bytes(&self) -> &[u8]
        ensures { result.now ≡ self.now.bytes }
    {
        &self.buffer[..self.size]
    }

    pub fn put(&mut self, at: usize, new: &[u8])
        requires starts { at ≤ length self.old.bytes }
        requires ends { at + length new.now ≤ self.old.room }
        ensures { self.new ≡ record {
          room = self.old.room;
          bytes = put_at self.old.bytes at new.now;
        } }
    {
        let _room = self.buffer.len();
        write_over(&mut self.buffer, at, new);
        self.size = self.size.max(at + new.len());
    }

    pub fn fill(&mut self, at: usize, count: usize, byte: u8)
        requires starts { at ≤ length self.old.bytes }
        requires ends { at + count ≤ self.old.room }
        ensures { self.new ≡ record {
          room = self.old.room;
          bytes = put_at self.old.bytes at
              (replicate count byte);
        } }
    {
        let _room = self.buffer.len();
        fill_over(&mut self.buffer, at, count, byte);
        self.size = self.size.max(at + count);
    }

    // Puts bytes where they begin within the bytes and end within the room; else changes nothing.
    pub fn put_within(&mut self, at: u64, new: &[u8])
        ensures { self.new ≡ record {
          room = self.old.room;
          bytes = written self.old.room
              self.old.bytes at new.now;
        } }
    {
        if at <= self.bytes().len() as u64
            && ends_within(at, new.len() as u64, self.room() as u64)
        {
            self.put(at as usize, new);
        }
    }

    pub fn fill_within(&mut self, at: u64, count: usize, byte: u8)
        ensures { self.new ≡ record {
          room = self.old.room;
          bytes = written self.old.room
              self.old.bytes at (replicate count byte);
        } }
    {
        if at <= self.bytes().len() as u64 && ends_within(at, count as u64, self.room() as u64) {
            self.fill(at as usize, count, byte);
        }
    }

    pub fn set(&mut self, other: &Contents)
        requires { self.old.room ≡ other.now.room }
        ensures { self.new ≡ other.now }
    {
        let _ = other.size;
        self.buffer.copy_from_slice(&other.buffer);
        self.size = other.size;
    }
}

// Writes over what is there.
pub fn write_over(bytes: &mut Vec<u8>, at: usize, new: &[u8])
    requires { at + length new.now ≤ vec_len bytes.old }
    ensures written { bytes.new.items
        ≡ take at bytes.old.items ++ new.now ++ drop (at + length new.now) bytes.old.items }
    ensures length { vec_len bytes.new ≡ vec_len bytes.old }
    ensures capacity { vec_capacity bytes.new ≡ vec_capacity bytes.old }
{
    bytes[at..at + new.len()].copy_from_slice(new);
}

fn fill_over(bytes: &mut Vec<u8>, at: usize, count: usize, byte: u8)
    requires { at + count ≤ vec_len bytes.old }
    ensures written { bytes.new.items
        ≡ take at bytes.old.items ++ replicate count byte ++ drop
        (at + length (replicate count byte)) bytes.old.items }
    ensures length { vec_len bytes.new ≡ vec_len bytes.old }
{
    bytes[at..at + count].fill(byte);
}
