// A door at which links come in: its calls, and what they promise.
ghost use Rattle.std.specs.Prelude.{◌≡◌, ℕ, ◌≤◌, List, [], ◌∷◌};
ghost use Rattle.pump_frame.specs.Counts.{Rose};
ghost use Rattle.pump_link.specs.Doors.{DoorStep, BackLink, answered};
ghost use Rattle.pump_link.specs.Tells.{Draws, Grows};

use crate::link::Link;

/// What a door answers.
#[derive(Drop)]
pub enum Accepted<C> {
    /// This link came.
    Came(C),
    /// No link was there at this call.
    NotYet,
    /// The call failed.
    Failed,
}

/// Takes in the links that come to one port, and takes them back.
pub trait Door {
    type Link: Link;

    /// It was made for this port, where it tells that.
    ghost port: { Self → ℕ → Type 0 };

    /// Its next answers are these, where it tells them.
    ghost gives: { Self → List (DoorStep Self.Link) → Type 0 };

    /// It gave these answers and took back these links, in this order, where it tells them.
    ghost did: { Self → List (DoorStep Self.Link) → Type 0 };

    ghost faults: { Self → ℕ };

    /// The next link, and waits for none. It answers `Failed` only where its count of faults rose.
    fn accept(&mut self) -> Accepted<Self::Link>
        ensures gives { Draws (gives self.old) (gives self.new) (answered result ∷ []) }
        ensures did { Grows (did self.old) (did self.new) (answered result ∷ []) }
        ensures port { (n : ℕ) → port self.old n → port self.new n }
        ensures later { faults self.old ≤ faults self.new }
        ensures failed { result ≡ Accepted.Failed → Rose (faults self.old) (faults self.new) };

    /// Takes back a link that is done with.
    fn back(&mut self, link: Self::Link)
        ensures gives { Draws (gives self.old) (gives self.new) [] }
        ensures did { Grows (did self.old) (did self.new) (BackLink link ∷ []) }
        ensures port { (n : ℕ) → port self.old n → port self.new n }
        ensures same { faults self.new ≡ faults self.old };

    /// How many calls of `accept` have failed. The count never falls, and stays at its greatest
    /// value.
    fn faults(&self) -> u64
        ensures { result ≡ faults self.now };
}
