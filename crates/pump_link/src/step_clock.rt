// A clock in memory, which goes on by equal steps.
ghost use Rattle.std.specs.Prelude.{◌≡◌, ◌+◌, ◌≤◌, ◌^◌, min, [], ◌∷◌};
ghost use Rattle.pump_frame.specs.Counts.{raised};
ghost use Rattle.pump_link.specs.Running.{MemoryClock, StepsFrom};
ghost use Rattle.pump_link.specs.Tells.{Draws};

use crate::clock::Clock;
use pump_frame::raised;
use std::marker::Model;

/// The latest moment of a clock.
const LATEST: u64 = 1 << 62;

/// A clock in memory: it gives first, first + step and so on, and stays at 2^62.
#[derive(Drop)]
pub struct StepClock {
    next: u64,
    step: u64,
    readings: u64,
}

impl Model for StepClock {
    ghost Value = { MemoryClock };

    ghost view = { λ s. record { next = s.next; step = s.step; readings = s.readings } };

    ghost invariant = { λ s. s.next ≤ 2 ^ 62 };
}

impl StepClock {
    /// A clock whose first reading is `first`, or 2^62 where that is less.
    pub fn new(first: u64, step: u64) -> StepClock
        ensures { result ≡ record { next = min first (2 ^ 62); step = step; readings = 0 } }
    {
        StepClock {
            next: first.min(LATEST),
            step,
            readings: 0,
        }
    }
}

impl Clock for StepClock {
    ghost reads = { λ s. StepsFrom s.next s.step };

    ghost floor = { λ s. s.next };

    ghost readings = { λ s. s.readings };

    fn moment(&mut self) -> u64
        ensures bound { result ≤ 2 ^ 62 }
        ensures from { self.old.next ≤ result }
        ensures to { result ≤ self.new.next }
        ensures reads { Draws (StepsFrom self.old.next self.old.step) (StepsFrom self.new.next self.new.step)
            (result ∷ []) }
        ensures counted { self.new.readings ≡ raised self.old.readings }
        ensures now { result ≡ self.old.next }
        ensures next { self.new ≡ record {
          next = min (self.old.next + self.old.step) (2 ^ 62);
          step = self.old.step;
          readings = raised self.old.readings;
        } }
    {
        let now = self.next;
        self.next = now.saturating_add(self.step).min(LATEST);
        self.readings = raised(self.readings);
        now
    }

    fn readings(&self) -> u64 {
        self.readings
    }
}
