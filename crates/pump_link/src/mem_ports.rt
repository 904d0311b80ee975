// Ports in memory.
ghost use Rattle.std.specs.Prelude.{◌≡◌, ◌-◌, ◌≤◌, ◌↔◌, ◌⊎◌, [], ◌∷◌, take, drop, length, Contains, None, Some, IsErr};
ghost use Rattle.std.specs.Prelude.{IfOk, OnOk, OnErr, IsTrue, if◌then◌else◌, vec_capacity, vec_len};
ghost use Rattle.pump_link.specs.Causes.{HasCause};
ghost use Rattle.pump_link.specs.Doors.{DidSteps};
ghost use Rattle.pump_link.specs.Ports.{MemoryPorts, BackToPorts, ShutDoor, listened, connected, first_of};
ghost use Rattle.pump_link.specs.Ports.{with_next_out, with_back, with_call, with_fault, GivesPorts, DidPorts};
ghost use Rattle.pump_link.specs.Running.{MemoryLink};
ghost use Rattle.pump_link.specs.Tells.{Draws, Grows};

use crate::mem_door::MemDoor;
use crate::mem_link::MemLink;
use crate::ports::{Ports, PortsFault};
use pump_frame::raised;
use std::marker::Model;

/// Ports in memory: each door and each connect takes the next link of a list.
#[derive(Drop)]
pub struct MemPorts {
    // The links that came back stand in front of those to come.
    links: Vec<MemLink>,
    backs: usize,
    connected: Option<u16>,
    fails: Vec<u64>,
    calls: u64,
    faults: u64,
}

impl Model for MemPorts {
    ghost Value = { MemoryPorts MemoryLink };

    ghost view = { λ s. record {
      coming = drop s.backs s.links.items;
      kept = record { links = take s.backs s.links.items; places = vec_capacity s.links - vec_len s.links };
      connected = s.connected;
      calls = s.calls;
      fails = s.fails.items;
      faults = s.faults;
    } };

    ghost invariant = { λ s. s.backs ≤ length s.links.items };
}

impl MemPorts {
    /// Doors and connects take these links in order: a door with none left answers `NotYet` for
    /// good, a connect with none left fails. The calls of `listen` and `connect` with the numbers
    /// `fails`, from 0, fail.
    pub fn new(links: Vec<MemLink>, fails: Vec<u64>) -> MemPorts
        ensures { result ≡ record {
          coming = links.items;
          kept = record { links = []; places = vec_capacity links - vec_len links };
          connected = None;
          calls = 0;
          fails = fails.items;
          faults = 0;
        } }
    {
        MemPorts {
            links,
            backs: 0,
            connected: None,
            fails,
            calls: 0,
            faults: 0,
        }
    }

    /// The links that came back, those of a door once it is shut. They are kept in the room of the
    /// list handed in, where a link that is handed out leaves its place; one that finds no place is
    /// dropped.
    pub fn given_back(&self) -> &[MemLink]
        ensures { result.now ≡ self.now.kept.links }
    {
        &self.links[..self.backs]
    }

    // The next link to come, which leaves its place.
    fn next(&mut self) -> Option<MemLink>
        ensures link { result ≡ first_of self.old.coming }
        ensures after { self.new ≡ with_next_out self.old }
    {
        if self.backs < self.links.len() {
            Some(self.links.remove(self.backs))
        } else {
            None
        }
    }

    // Keeps a link that came back, where there is a place for it.
    fn keep(&mut self, link: MemLink)
        ensures { self.new ≡ with_back self.old (Some link) }
    {
        if self.links.len() == self.links.capacity() {
            return;
        }
        self.links.insert(self.backs, link).unwrap();
        self.backs += 1;
    }

    // Counts a call, and says whether it is one that fails.
    fn is_failing(&mut self) -> bool
        ensures later { self.old.faults ≤ self.new.faults }
        ensures failing { IsTrue result ↔ Contains self.old.fails self.old.calls }
        ensures after { self.new ≡ (if result then with_fault self.old else with_call self.old) }
    {
        let number = self.calls;
        self.calls = raised(number);
        let failing = self.fails.contains(&number);
        if failing {
            self.faults = raised(self.faults);
        }
        failing
    }
}

impl Ports for MemPorts {
    type Link = MemLink;

    type Door = MemDoor;

    ghost gives = { GivesPorts };

    ghost did = { DidPorts };

    ghost faults = { λ s. s.faults };

    fn listen(&mut self, port: u16) -> Result<MemDoor, PortsFault>
        ensures gives { Draws (GivesPorts self.old) (GivesPorts self.new) (listened port result ∷ []) }
        ensures did { Grows (DidPorts self.old) (DidPorts self.new) (listened port result ∷ []) }
        ensures port { IfOk result (λ door. door.port ≡ port) }
        ensures fresh { IfOk result (λ door. DidSteps door.waiting door.back []) }
        ensures cause { HasCause self.old.faults self.new.faults result }
        ensures fails { IsErr result ↔ Contains self.old.fails self.old.calls }
        ensures door { IfOk result (λ door. door
            ≡ record { port = port; waiting = first_of self.old.coming; back = None }) }
        ensures ok { OnOk result (self.new ≡ with_call (with_next_out self.old)) }
        ensures err { OnErr result (self.new ≡ with_fault self.old) }
    {
        if self.is_failing() {
            return Err(PortsFault);
        }
        Ok(MemDoor::new(port, self.next()))
    }

    fn connect(&mut self, port: u16) -> Result<MemLink, PortsFault>
        ensures gives { Draws (GivesPorts self.old) (GivesPorts self.new) (connected port result ∷ []) }
        ensures did { Grows (DidPorts self.old) (DidPorts self.new) (connected port result ∷ []) }
        ensures cause { HasCause self.old.faults self.new.faults result }
        ensures fails { IsErr result ↔ (Contains self.old.fails self.old.calls ⊎ (self.old.coming ≡ [])) }
        ensures link { IfOk result (λ link. first_of self.old.coming ≡ Some link) }
        ensures ok { OnOk result (self.new ≡ record (with_call (with_next_out self.old)) { connected = Some port }) }
        ensures err { OnErr result (self.new ≡ with_fault self.old) }
    {
        if self.is_failing() {
            return Err(PortsFault);
        }
        let Some(link) = self.next() else {
            self.faults = raised(self.faults);
            return Err(PortsFault);
        };
        self.connected = Some(port);
        Ok(link)
    }

    fn back(&mut self, link: MemLink)
        ensures gives { Draws (GivesPorts self.old) (GivesPorts self.new) [] }
        ensures did { Grows (DidPorts self.old) (DidPorts self.new) (BackToPorts link ∷ []) }
        ensures same { self.new.faults ≡ self.old.faults }
        ensures after { self.new ≡ with_back self.old (Some link) }
    {
        self.keep(link);
    }

    fn shut(&mut self, door: MemDoor)
        ensures gives { Draws (GivesPorts self.old) (GivesPorts self.new) [] }
        ensures did { Grows (DidPorts self.old) (DidPorts self.new) (ShutDoor door ∷ []) }
        ensures same { self.new.faults ≡ self.old.faults }
        ensures after { self.new ≡ with_back self.old door.back }
    {
        if let Some(link) = door.into_back() {
            self.keep(link);
        }
    }

    fn faults(&self) -> u64 {
        self.faults
    }
}
