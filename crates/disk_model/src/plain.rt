// A disk in memory whose next call can be made to fail.
ghost use Rattle.std.specs.Prelude.{◌≡◌, ◌+◌, ◌≤◌, true, false, [], length, max, take, drop, vec_len, vec_capacity};
ghost use Rattle.std.specs.Prelude.{IfOk, IsErr, IsTrue, OnOk, OnErr, ⊤};
ghost use Rattle.pump_frame.specs.Counts.{CountsFailure};
ghost use Rattle.disk_model.specs.Disk.{Moves, Same, Torn, IsWritten, Settled, KeepsImages, Answers, FailsPast};
ghost use Rattle.disk_model.specs.Plain.{Plain, plain_meaning};

use crate::contents::write_over;
use crate::range::ends_within;
use crate::{Disk, DiskFault};
use pump_frame::{OutOfMemory, raised};
use std::alloc::Global;
use std::marker::Model;

/// A disk in memory that tells its readings and its plan, and no images. Its count of failed calls
/// goes up by one exactly where a call fails. Contracts see it as its bytes, its room, whether the
/// next call fails, and that count.
pub struct PlainDisk {
    room: u64,
    bytes: Vec<u8>,
    armed: bool,
    faults: u64,
}

impl Model for PlainDisk {
    ghost use Rattle.std.specs.Prelude.{◌≡◌, ◌≤◌, vec_len, vec_capacity};
    ghost use Rattle.disk_model.specs.Plain.{Plain};

    ghost Value = { Plain };

    ghost view = { λ d. record {
      bytes = d.bytes.items;
      room = d.room;
      armed = d.armed;
      faults = d.faults;
    } };

    ghost invariant = { λ d. (vec_len d.bytes ≤ d.room) × (d.room ≤ vec_capacity d.bytes) };
}

// By hand, so that the end of a disk is one call and not one for each field.
impl Drop for PlainDisk {
    fn drop(self) {
        let PlainDisk {
            room: _,
            bytes: _,
            armed: _,
            faults: _,
        } = self;
    }
}

// Writes over what is there, and on past the end, within the capacity.
fn put(bytes: &mut Vec<u8>, at: usize, new: &[u8])
    requires starts { at ≤ vec_len bytes.old }
    requires ends { at + length new.now ≤ vec_capacity bytes.old }
    ensures holds { IsWritten bytes.old.items at new.now bytes.new.items }
    ensures length { vec_len bytes.new ≤ max (vec_len bytes.old) (at + length new.now) }
    ensures capacity { vec_capacity bytes.old ≤ vec_capacity bytes.new }
{
    if new.len() <= bytes.len() - at {
        write_over(bytes, at, new);
        return;
    }
    bytes.truncate(at);
    if bytes.extend_from_slice(new).is_err() {
        unreachable!();
    }
}

impl PlainDisk {
    /// An empty disk that may grow to `room` bytes. The room is reserved now, and touched only where
    /// it is written.
    pub fn new(alloc: Global, room: u64) -> Result<PlainDisk, OutOfMemory>
        ensures { IfOk result (λ d. d ≡ record
            { bytes = []; room = room; armed = false; faults = 0 }) }
    {
        Ok(PlainDisk {
            room,
            bytes: Vec::with_capacity(alloc, room as usize)?,
            armed: false,
            faults: 0,
        })
    }

    /// The next call of `size`, `read`, `write_at` or `sync` fails, and changes nothing.
    pub fn fail_next(&mut self)
        ensures { self.new ≡ record self.old { armed = true } }
    {
        self.armed = true;
    }

    // Fails where the disk is armed or the call doesn't fit.
    fn answer(&mut self, fits: bool) -> Result<(), DiskFault>
        ensures answers { Answers plain_meaning (fits ≡ true) self.old self.new result }
        ensures fits { OnOk result (IsTrue fits) }
        ensures misfit { fits ≡ false → IsErr result }
        ensures bytes { self.new.bytes ≡ self.old.bytes }
        ensures room { self.new.room ≡ self.old.room }
        ensures counted { CountsFailure self.old.faults self.new.faults result }
    {
        let armed = self.armed;
        self.armed = false;
        if armed || !fits {
            self.faults = raised(self.faults);
            return Err(DiskFault);
        }
        Ok(())
    }
}

impl Disk for PlainDisk {
    ghost told = { plain_meaning };

    fn size(&mut self) -> Result<u64, DiskFault>
        ensures size { IfOk result (λ n. n ≡ length self.new.bytes) }
        ensures moves { Moves plain_meaning Same self.old self.new }
        ensures images { KeepsImages plain_meaning self.old self.new }
        ensures answers { Answers plain_meaning ⊤ self.old self.new result }
        ensures counted { CountsFailure self.old.faults self.new.faults result }
    {
        self.answer(true)?;
        Ok(self.bytes.len() as u64)
    }

    fn read(&mut self, at: u64, into: &mut [u8]) -> Result<(), DiskFault>
        ensures within { OnOk result (at + length into.old ≤ length self.old.bytes) }
        ensures bytes { OnOk result (into.new ≡ take (length into.old) (drop at self.old.bytes)) }
        ensures stays { OnErr result (into.new ≡ into.old) }
        ensures moves { Moves plain_meaning Same self.old self.new }
        ensures images { KeepsImages plain_meaning self.old self.new }
        ensures answers { Answers plain_meaning (at + length into.old ≤ length self.old.bytes)
            self.old self.new result }
        ensures past { FailsPast plain_meaning (length self.old.bytes) (at + length into.old) result }
        ensures counted { CountsFailure self.old.faults self.new.faults result }
    {
        let size = self.bytes.len() as u64;
        self.answer(ends_within(at, into.len() as u64, size))?;
        let from = at as usize;
        into.copy_from_slice(&self.bytes[from..from + into.len()]);
        Ok(())
    }

    fn write_at(&mut self, at: u64, bytes: &[u8]) -> Result<(), DiskFault>
        requires { at ≤ length self.old.bytes }
        ensures written { OnOk result (IsWritten self.old.bytes at bytes.now self.new.bytes) }
        ensures moves { Moves plain_meaning (Torn at (length bytes.now)) self.old self.new }
        ensures answers { Answers plain_meaning (at + length bytes.now ≤ self.old.room)
            self.old self.new result }
        ensures past { FailsPast plain_meaning self.old.room (at + length bytes.now) result }
        ensures kept { OnErr result (self.new.bytes ≡ self.old.bytes) }
        ensures counted { CountsFailure self.old.faults self.new.faults result }
    {
        let count = bytes.len() as u64;
        let room = self.room;
        self.answer(ends_within(at, count, room))?;
        put(&mut self.bytes, at as usize, bytes);
        Ok(())
    }

    fn sync(&mut self) -> Result<(), DiskFault>
        ensures durable { OnOk result (Settled plain_meaning self.new) }
        ensures moves { Moves plain_meaning Same self.old self.new }
        ensures images_err { OnErr result (KeepsImages plain_meaning self.old self.new) }
        ensures answers { Answers plain_meaning ⊤ self.old self.new result }
        ensures counted { CountsFailure self.old.faults self.new.faults result }
    {
        self.answer(true)
    }

    fn faults(&self) -> u64 {
        self.faults
    }
}
