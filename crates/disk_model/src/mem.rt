// A disk in memory that keeps a record of what happened to it.
ghost use Rattle.std.specs.Prelude.{◌≡◌, ◌+◌, ◌-◌, ◌<◌, ◌≤◌, ◌↔◌, true, false, [], ◌∷◌, length, ⊤, take, drop};
ghost use Rattle.std.specs.Prelude.{Contains, IsTrue, IfOk, IsOk, IsErr, OnOk, OnErr, is_ok};
ghost use Rattle.pump_frame.specs.Counts.{raised};
ghost use Rattle.disk_model.specs.Disk.{Moves, Same, Torn, IsWritten, Settled, KeepsImages, Answers, FailsPast};
ghost use Rattle.disk_model.specs.Mem.{Memory, mem_meaning, mem_reading, takes, Called, Logs, LogsNothing};
ghost use Rattle.disk_model.specs.Record.{crashed};
ghost use Rattle.disk_model.specs.declared.record.Entry.TheVariants.{Write, Missed, Sync};

use crate::contents::Contents;
use crate::crash::crash_into;
use crate::range::ends_within;
use crate::record::{Entry, Outcome};
use crate::spare::{next_piece, put_first, spare_buffers};
use crate::{Disk, DiskFault};
use pump_frame::{OutOfMemory, raised};
use std::alloc::Global;
use std::collections::VecDeque;
use std::marker::Model;

/// A disk in memory that tells its readings and its images since every moment, and no plan. It keeps
/// a record of what happened to it. Contracts see it as the `Memory` of `specs/Mem.antt`.
pub struct MemDisk {
    start: Contents,
    current: Contents,
    made: Contents,
    log: VecDeque<Entry>,
    spare: Vec<Vec<u8>>,
    left: u32,
    number: u64,
    fails: Vec<u64>,
    faults: u64,
}

impl Model for MemDisk {
    ghost use Rattle.disk_model.specs.Mem.{Memory};
    ghost use Rattle.disk_model.specs.Spare.{IsKept};

    ghost Value = { Memory };

    ghost view = { λ d. record {
      start = d.start;
      log = d.log.items;
      left = d.left;
      number = d.number;
      fails = d.fails.items;
      faults = d.faults;
    } };

    ghost invariant = { λ d. IsKept d.start d.current d.made d.log d.spare d.left };
}

// By hand, so that the end of a disk is one call and not one for each field.
impl Drop for MemDisk {
    fn drop(self) {
        let MemDisk {
            start: _,
            current: _,
            made: _,
            log: _,
            spare: _,
            left: _,
            number: _,
            fails: _,
            faults: _,
        } = self;
    }
}

impl MemDisk {
    /// An empty disk that may grow to `room` bytes, whose record takes `calls` writes and syncs; one
    /// more fails. The calls of `size`, `read`, `write_at` and `sync` with the numbers `fails`, from
    /// 0, fail too.
    pub fn new(
        alloc: Global,
        room: u64,
        calls: u32,
        fails: Vec<u64>,
    ) -> Result<MemDisk, OutOfMemory>
        ensures { IfOk result (λ d. d ≡ record {
          start = record { room = room; bytes = [] };
          log = [];
          left = calls;
          number = 0;
          fails = fails.items;
          faults = 0;
        }) }
    {
        let room = room as usize;
        Ok(MemDisk {
            start: Contents::new(alloc, room)?,
            current: Contents::new(alloc, room)?,
            made: Contents::new(alloc, room)?,
            log: VecDeque::with_capacity(alloc, calls as usize)?,
            spare: spare_buffers(alloc, room, calls)?,
            left: calls,
            number: 0,
            fails,
            faults: 0,
        })
    }

    /// Crashes, and comes up again with one of the images told before, and with an empty record.
    pub fn crash(&mut self, outcome: Outcome)
        ensures value { self.new ≡ record self.old {
          start = record {
            room = self.old.start.room;
            bytes = crashed outcome self.old.start
                self.old.log;
          };
          log = [];
        } }
        ensures image { mem_meaning.images self.old (mem_reading self.new) }
        ensures settled { Settled mem_meaning self.new }
    {
        self.made.set(&self.start);
        self.current.set(&self.start);
        crash_into(&mut self.made, &mut self.current, &self.log, outcome);
        self.start.set(&self.made);
        self.current.set(&self.made);
        self.log.clear();
    }

    // Counts the call, and says whether it is one of those that fail.
    fn is_next_failing(&mut self) -> bool
        ensures value { self.new ≡ record self.old { number = raised self.old.number } }
        ensures fails { IsTrue result ↔ Contains self.old.fails self.old.number }
    {
        let number = self.number;
        self.number = raised(number);
        self.fails.contains(&number)
    }

    fn takes(&self, at: u64, bytes: &[u8]) -> bool
        ensures { result ≡ takes self.now (at + length bytes.now) }
    {
        self.left > 0 && ends_within(at, bytes.len() as u64, self.start.room() as u64)
    }

    // Writes, and keeps what was written.
    fn keep(&mut self, at: u64, bytes: &[u8])
        requires { takes self.old (at + length bytes.now) ≡ true }
        ensures { self.new ≡ record self.old
            { log = Write at bytes.now ∷ self.old.log; left = self.old.left - 1 } }
    {
        let room = self.start.room();
        let piece = next_piece(&mut self.spare, room, bytes);
        self.current.put_within(at, bytes);
        put_first(&mut self.log, Entry::Write { at, bytes: piece });
        self.left -= 1;
    }

    // Keeps a write that failed.
    fn miss(&mut self, at: u64, bytes: &[u8])
        requires { takes self.old (at + length bytes.now) ≡ true }
        ensures { self.new ≡ record self.old
            { log = Missed at bytes.now ∷ self.old.log; left = self.old.left - 1 } }
    {
        let room = self.start.room();
        let piece = next_piece(&mut self.spare, room, bytes);
        put_first(&mut self.log, Entry::Missed { at, bytes: piece });
        self.left -= 1;
    }

    // Keeps a sync.
    fn mark(&mut self)
        requires { 0 < self.old.left }
        ensures { self.new ≡ record self.old { log = Sync ∷ self.old.log; left = self.old.left - 1 } }
    {
        put_first(&mut self.log, Entry::Sync);
        self.left -= 1;
    }

    fn fault(&mut self) -> DiskFault
        ensures value { self.new ≡ record self.old { faults = raised self.old.faults } }
        ensures later { self.old.faults ≤ self.new.faults }
    {
        self.faults = raised(self.faults);
        DiskFault
    }
}

impl Disk for MemDisk {
    ghost told = { mem_meaning };

    fn size(&mut self) -> Result<u64, DiskFault>
        ensures size { IfOk result (λ n. n ≡ length (mem_reading self.new)) }
        ensures moves { Moves mem_meaning Same self.old self.new }
        ensures images { KeepsImages mem_meaning self.old self.new }
        ensures answers { Answers mem_meaning ⊤ self.old self.new result }
        ensures called { Called self.old self.new result }
        ensures kept { LogsNothing self.old self.new }
        ensures fails { Contains self.old.fails self.old.number → IsErr result }
        ensures works { ¬ Contains self.old.fails self.old.number → IsOk result }
    {
        if self.is_next_failing() {
            return Err(self.fault());
        }
        Ok(self.current.bytes().len() as u64)
    }

    fn read(&mut self, at: u64, into: &mut [u8]) -> Result<(), DiskFault>
        ensures within { OnOk result (at + length into.old ≤ length (mem_reading self.old)) }
        ensures bytes { OnOk result
            (into.new ≡ take (length into.old) (drop at (mem_reading self.old))) }
        ensures stays { OnErr result (into.new ≡ into.old) }
        ensures moves { Moves mem_meaning Same self.old self.new }
        ensures images { KeepsImages mem_meaning self.old self.new }
        ensures answers { Answers mem_meaning (at + length into.old ≤ length (mem_reading self.old))
            self.old self.new result }
        ensures past { FailsPast mem_meaning (length (mem_reading self.old)) (at + length into.old)
            result }
        ensures called { Called self.old self.new result }
        ensures kept { LogsNothing self.old self.new }
        ensures fails { Contains self.old.fails self.old.number → IsErr result }
        ensures works { at + length into.old ≤ length (mem_reading self.old)
            → ¬ Contains self.old.fails self.old.number → IsOk result }
    {
        let fails = self.is_next_failing();
        let bytes = self.current.bytes();
        if fails || !ends_within(at, into.len() as u64, bytes.len() as u64) {
            return Err(self.fault());
        }
        let from = at as usize;
        into.copy_from_slice(&bytes[from..from + into.len()]);
        Ok(())
    }

    fn write_at(&mut self, at: u64, bytes: &[u8]) -> Result<(), DiskFault>
        requires { at ≤ length (mem_reading self.old) }
        ensures written { OnOk result (IsWritten (mem_reading self.old) at bytes.now
            (mem_reading self.new)) }
        ensures moves { Moves mem_meaning (Torn at (length bytes.now)) self.old self.new }
        ensures answers { Answers mem_meaning (at + length bytes.now ≤ self.old.start.room)
            self.old self.new result }
        ensures past { FailsPast mem_meaning self.old.start.room (at + length bytes.now) result }
        ensures called { Called self.old self.new result }
        ensures kept { OnOk result (Logs true (Write at bytes.now) self.old self.new) }
        // The range of a write that fails is kept where the record takes it.
        ensures missed { OnErr result (Logs (takes self.old (at + length bytes.now))
            (Missed at bytes.now) self.old self.new) }
        ensures fails { Contains self.old.fails self.old.number → IsErr result }
        ensures refuses { takes self.old (at + length bytes.now) ≡ false → IsErr result }
        ensures works { takes self.old (at + length bytes.now) ≡ true
            → ¬ Contains self.old.fails self.old.number → IsOk result }
    {
        let fails = self.is_next_failing();
        if !self.takes(at, bytes) {
            return Err(self.fault());
        }
        if fails {
            self.miss(at, bytes);
            return Err(self.fault());
        }
        self.keep(at, bytes);
        Ok(())
    }

    fn sync(&mut self) -> Result<(), DiskFault>
        ensures durable { OnOk result (Settled mem_meaning self.new) }
        ensures moves { Moves mem_meaning Same self.old self.new }
        ensures images_err { OnErr result (KeepsImages mem_meaning self.old self.new) }
        ensures answers { Answers mem_meaning ⊤ self.old self.new result }
        ensures called { Called self.old self.new result }
        ensures logs { Logs (is_ok result) Sync self.old self.new }
        ensures fails { Contains self.old.fails self.old.number → IsErr result }
        ensures works { 0 < self.old.left → ¬ Contains self.old.fails self.old.number
            → IsOk result }
    {
        if self.is_next_failing() || self.left == 0 {
            return Err(self.fault());
        }
        self.mark();
        Ok(())
    }

    fn faults(&self) -> u64 {
        self.faults
    }
}
