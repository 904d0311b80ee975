// A door in memory.
ghost use Rattle.std.specs.Prelude.{◌≡◌, ◌≢◌, ℕ, [], ◌∷◌, None, Some};
ghost use Rattle.pump_link.specs.Doors.{MemoryDoor, BackLink, ComesFrom, DidSteps, accepted, answered};
ghost use Rattle.pump_link.specs.Running.{MemoryLink};
ghost use Rattle.pump_link.specs.Tells.{Draws, Grows};

use crate::door::{Accepted, Door};
use crate::mem_link::MemLink;
use std::marker::Model;

/// A door in memory, to which one link comes at most. It keeps the last link that was given back.
#[derive(Drop)]
pub struct MemDoor {
    port: u16,
    waiting: Option<MemLink>,
    back: Option<MemLink>,
}

impl Model for MemDoor {
    ghost Value = { MemoryDoor MemoryLink };

    ghost view = { λ s. record { port = s.port; waiting = s.waiting; back = s.back } };
}

impl MemDoor {
    pub(crate) fn new(port: u16, waiting: Option<MemLink>) -> MemDoor
        ensures { result ≡ record { port = port; waiting = waiting; back = None } }
    {
        MemDoor {
            port,
            waiting,
            back: None,
        }
    }

    pub(crate) fn into_back(self) -> Option<MemLink>
        ensures { result ≡ self.back }
    {
        self.back
    }
}

fn answer(waiting: Option<MemLink>) -> Accepted<MemLink>
    ensures { result ≡ accepted waiting }
{
    match waiting {
        Some(link) => Accepted::Came(link),
        None => Accepted::NotYet,
    }
}

impl Door for MemDoor {
    type Link = MemLink;

    ghost port = { λ s n. s.port ≡ n };

    ghost gives = { λ s. ComesFrom s.waiting };

    ghost did = { λ s. DidSteps s.waiting s.back };

    ghost faults = { λ s. 0 };

    fn accept(&mut self) -> Accepted<MemLink>
        ensures gives { Draws (ComesFrom self.old.waiting) (ComesFrom self.new.waiting) (answered result ∷ []) }
        ensures did { Grows (DidSteps self.old.waiting self.old.back) (DidSteps self.new.waiting self.new.back)
            (answered result ∷ []) }
        ensures port { (n : ℕ) → self.old.port ≡ n → self.new.port ≡ n }
        ensures fine { result ≢ Accepted.Failed }
        ensures answer { result ≡ accepted self.old.waiting }
        ensures after { self.new ≡ record self.old { waiting = None } }
    {
        answer(self.waiting.take())
    }

    fn back(&mut self, link: MemLink)
        ensures gives { Draws (ComesFrom self.old.waiting) (ComesFrom self.new.waiting) [] }
        ensures did { Grows (DidSteps self.old.waiting self.old.back) (DidSteps self.new.waiting self.new.back)
            (BackLink link ∷ []) }
        ensures port { (n : ℕ) → self.old.port ≡ n → self.new.port ≡ n }
        ensures after { self.new ≡ record self.old { back = Some link } }
    {
        self.back = Some(link);
    }

    fn faults(&self) -> u64 {
        0
    }
}
