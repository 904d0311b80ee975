// A gate, which lets a worker go on or stops it.
ghost use Rattle.std.specs.Prelude.{◌≡◌, ◌≤◌, List, [], ◌∷◌, true, false};
ghost use Rattle.pump_frame.specs.Counts.{Rose};
ghost use Rattle.pump_link.specs.Tells.{Grows};

use std::sync::Wait;

/// Lets a worker go on, look by look, or stops it.
pub trait Gate {
    ghost use Rattle.std.specs.Prelude.{ℕ};

    /// What it was asked so far, call by call, where it tells: the looks made and the messages done.
    ghost asked: { Self → List (ℕ × ℕ) → Type 0 };

    /// How many calls answered false.
    ghost stops: { Self → ℕ };

    /// Whether the worker goes on. It calls before each look, with the looks that it made so far and
    /// the number of its messages that are done. The call may wait. False stops the worker, and is
    /// counted.
    fn pass<R: Wait>(&mut self, rt: &R, looks: u64, done: u64) -> bool
        ensures asked { Grows (Self.asked self.old) (Self.asked self.new) ((looks, done) ∷ []) }
        ensures later { Self.stops self.old ≤ Self.stops self.new }
        ensures passed { result ≡ true → Self.stops self.new ≡ Self.stops self.old }
        ensures stopped { result ≡ false → Rose (Self.stops self.old) (Self.stops self.new) };

    /// How many calls answered false. The count never falls, and stays at its greatest value.
    fn stops(&self) -> u64
        ensures { result ≡ Self.stops self.now };
}

/// A gate that always lets pass. It tells nothing of what it was asked.
#[derive(Drop)]
pub struct Open;

impl Gate for Open {
    ghost asked = { λ gate asks. ⊥ };

    ghost stops = { λ _. 0 };

    fn pass<R: Wait>(&mut self, _rt: &R, _looks: u64, _done: u64) -> bool
        ensures { result ≡ true }
    {
        true
    }

    fn stops(&self) -> u64 {
        0
    }
}
