//! The clock of a side of a relay: the machine's, or one that steps.

ghost use Rattle.std.specs.Prelude.{◌≤◌};

use crate::real_clock::RealClock;
use pump_link::{Clock, StepClock};
use std::time;

/// The clock of a side, so that all sides are of one type.
#[derive(Drop)]
pub enum SideClock<'a, R> {
    Machine(RealClock<'a, R>),
    Steps(StepClock),
}

impl<R: time::Clock> Clock for SideClock<'_, R> {
    ghost use Rattle.adapters.specs.SideClocks.{reads, floor, readings};

    ghost reads = { reads };

    ghost floor = { floor };

    ghost readings = { readings };

    fn moment(&mut self) -> u64 {
        match self {
            SideClock::Machine(clock) => clock.moment(),
            SideClock::Steps(clock) => clock.moment(),
        }
    }

    fn readings(&self) -> u64 {
        match self {
            SideClock::Machine(clock) => clock.readings(),
            SideClock::Steps(clock) => clock.readings(),
        }
    }
}
