// A link, whose bytes are looked at one by one: its calls, and what they promise.
ghost use Rattle.std.specs.Prelude.{◌≡◌, ℕ, ◌≤◌, List, [], ◌∷◌};
ghost use Rattle.pump_frame.specs.Counts.{Rose};
ghost use Rattle.pump_link.specs.Causes.{HasCause};
ghost use Rattle.pump_link.specs.Tells.{Draws, Grows, Sends};

/// A send that failed.
#[derive(Clone, Copy, PartialEq, Eq, Debug)]
pub struct SendFault;

/// What one look at a link gives.
#[derive(Clone, Copy, PartialEq, Eq, Debug)]
pub enum Looked {
    /// The next byte.
    Byte(u8),
    /// No byte was there at this look.
    NotYet,
    /// The other side is gone.
    Ended,
    /// The look failed.
    Failed,
}

/// A connection that is looked at byte by byte and is sent bytes.
pub trait Link {
    ghost use Rattle.pump_link.specs.declared.link.Looked.{Looked};

    /// Its next looks give these, where it tells them.
    ghost gives: { Self → List Looked → Type 0 };

    /// These bytes were sent so far, where it tells them.
    ghost sent: { Self → List ℕ → Type 0 };

    ghost faults: { Self → ℕ };

    /// Looks for a byte, and waits for none. It answers `Failed` only where its count of faults
    /// rose.
    fn look(&mut self) -> Looked
        ensures gives { Draws (gives self.old) (gives self.new) (result ∷ []) }
        ensures sent { Grows (sent self.old) (sent self.new) [] }
        ensures later { faults self.old ≤ faults self.new }
        ensures failed { result ≡ Looked.Failed → Rose (faults self.old) (faults self.new) };

    /// Sends all of the bytes. After an `Err`, which comes only where its count of faults rose, a
    /// prefix of them was sent.
    fn send(&mut self, bytes: &[u8]) -> Result<(), SendFault>
        ensures gives { Draws (gives self.old) (gives self.new) [] }
        ensures sent { Sends (sent self.old) (sent self.new) result bytes.now }
        ensures cause { HasCause (faults self.old) (faults self.new) result };

    /// How many looks and sends have failed. The count never falls, and stays at its greatest
    /// value.
    fn faults(&self) -> u64
        ensures { result ≡ faults self.now };
}
