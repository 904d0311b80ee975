// A link in memory.
ghost use Rattle.std.specs.Prelude.{◌≡◌, ◌-◌, ◌≤◌, ◌<◌, ◌↔◌, ◌⊎◌, [], ◌∷◌, length, take, drop, Contains, IsErr, IsTrue};
ghost use Rattle.std.specs.Prelude.{OnOk, OnErr};
ghost use Rattle.pump_frame.specs.Counts.{Rose};
ghost use Rattle.pump_link.specs.Causes.{HasCause};
ghost use Rattle.pump_link.specs.Running.{MemoryLink, LooksFrom, first_look, after_look, with_sent, after_send};
ghost use Rattle.pump_link.specs.Running.{FailsToSend};
ghost use Rattle.pump_link.specs.Tells.{Draws, Grows, Sends};

use crate::link::{Link, Looked, SendFault};
use pump_frame::raised;
use std::marker::Model;

/// A link in memory. Its looks give a list in order, then `Ended` for good. What is sent is kept
/// in a room that is handed in.
#[derive(Drop)]
pub struct MemLink {
    arrivals: Vec<Looked>,
    at: usize,
    room: Vec<u8>,
    sent: usize,
    fails: Vec<u64>,
    calls: u64,
    faults: u64,
}

impl Model for MemLink {
    ghost Value = { MemoryLink };

    ghost view = { λ s. record {
      left = drop s.at s.arrivals.items;
      sent = take s.sent s.room.items;
      room = length
          s.room.items - s.sent;
      calls = s.calls;
      fails = s.fails.items;
      faults = s.faults;
    } };

    ghost invariant = { λ s. (s.at ≤ length s.arrivals.items) × (s.sent ≤ length s.room.items) };
}

impl MemLink {
    /// Its looks give these arrivals; a `Failed` in them raises the count of faults when it is
    /// given. The sends with the numbers `fails`, from 0, fail and send nothing; a send without
    /// room sends what fits and fails.
    pub fn new(arrivals: Vec<Looked>, room: Vec<u8>, fails: Vec<u64>) -> MemLink
        ensures { result ≡ record {
          left = arrivals.items;
          sent = [];
          room = length room.items;
          calls = 0;
          fails = fails.items;
          faults = 0;
        } }
    {
        MemLink {
            arrivals,
            at: 0,
            room,
            sent: 0,
            fails,
            calls: 0,
            faults: 0,
        }
    }

    /// The bytes that were sent.
    pub fn sent(&self) -> &[u8]
        ensures { result.now ≡ self.now.sent }
    {
        &self.room[..self.sent]
    }

    // Puts what fits into the room, and says whether that was all.
    fn put(&mut self, bytes: &[u8]) -> bool
        ensures all { IsTrue result ↔ (length bytes.now ≤ self.old.room) }
        ensures sent { self.new ≡ with_sent self.old bytes.now }
    {
        let count = bytes.len().min(self.room.len() - self.sent);
        let end = self.sent + count;
        self.room[self.sent..end].copy_from_slice(&bytes[..count]);
        self.sent = end;
        count == bytes.len()
    }
}

impl Link for MemLink {
    ghost gives = { λ s. LooksFrom s.left };

    ghost sent = { λ s log. s.sent ≡ log };

    ghost faults = { λ s. s.faults };

    fn look(&mut self) -> Looked
        ensures gives { Draws (LooksFrom self.old.left) (LooksFrom self.new.left) (result ∷ []) }
        ensures sent { Grows (λ log. self.old.sent ≡ log) (λ log. self.new.sent ≡ log) [] }
        ensures later { self.old.faults ≤ self.new.faults }
        ensures failed { result ≡ Looked.Failed → Rose self.old.faults self.new.faults }
        ensures look { result ≡ first_look self.old.left }
        ensures after { self.new ≡ after_look self.old }
    {
        let look = self.arrivals.get(self.at).copied().unwrap_or(Looked::Ended);
        self.at = self.arrivals.len().min(self.at + 1);
        if matches!(look, Looked::Failed) {
            self.faults = raised(self.faults);
        }
        look
    }

    fn send(&mut self, bytes: &[u8]) -> Result<(), SendFault>
        ensures gives { Draws (LooksFrom self.old.left) (LooksFrom self.new.left) [] }
        ensures sent { Sends (λ log. self.old.sent ≡ log) (λ log. self.new.sent ≡ log) result bytes.now }
        ensures cause { HasCause self.old.faults self.new.faults result }
        ensures fails { IsErr result ↔ (Contains self.old.fails self.old.calls ⊎ (self.old.room < length bytes.now)) }
        ensures ok { OnOk result (self.new ≡ after_send (with_sent self.old bytes.now)) }
        ensures err { OnErr result (FailsToSend self.old self.new bytes.now) }
    {
        let number = self.calls;
        self.calls = raised(number);
        if self.fails.contains(&number) {
            self.faults = raised(self.faults);
            return Err(SendFault);
        }
        if !self.put(bytes) {
            self.faults = raised(self.faults);
            return Err(SendFault);
        }
        Ok(())
    }

    fn faults(&self) -> u64 {
        self.faults
    }
}
