// What a clock promises.
ghost use Rattle.std.specs.Prelude.{◌≡◌, ℕ, ◌≤◌, ◌^◌, List, [], ◌∷◌};
ghost use Rattle.pump_frame.specs.Counts.{raised};
ghost use Rattle.pump_link.specs.Tells.{Draws};

/// Gives moments in microseconds, which never fall.
pub trait Clock {
    /// Its next readings are these, where it tells them.
    ghost reads: { Self → List ℕ → Type 0 };

    /// No reading to come is below this.
    ghost floor: { Self → ℕ };

    ghost readings: { Self → ℕ };

    /// The moment now: at most 2^62, and never below the one before.
    fn moment(&mut self) -> u64
        ensures bound { result ≤ 2 ^ 62 }
        ensures from { floor self.old ≤ result }
        ensures to { result ≤ floor self.new }
        ensures reads { Draws (reads self.old) (reads self.new) (result ∷ []) }
        ensures counted { readings self.new ≡ raised (readings self.old) };

    /// How many readings were given. The count stays at its greatest value.
    fn readings(&self) -> u64
        ensures { result ≡ readings self.now };
}
