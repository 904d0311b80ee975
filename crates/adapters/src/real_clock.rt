//! The machine's clock, which paces the worker that reads it.

ghost use Rattle.std.specs.Prelude.{◌≡◌, ◌≤◌, ◌/◌, min, ◌^◌};

use crate::traffic::Traffic;
use pump_frame::raised;
use pump_link::Clock;
use std::hint;
use std::time::{self, Duration};

/// The latest moment of a clock.
const LATEST: u64 = 1 << 62;

/// So many readings follow at once what came or went on a side.
const AT_ONCE: u32 = 4;

/// The next ones, up to so many in all, lie `CLOSE` apart.
const SOON: u32 = 16;

/// How many microseconds readings lie apart at least that come soon. It is too short for a sleep.
const CLOSE: u64 = 4;

/// More readings of the machine's clock than there are in that time.
const SPINS: u32 = 1000;

/// The least and the greatest number of microseconds that a later reading sleeps. The machine adds some 60.
const SHORTEST: u64 = 20;

const LONGEST: u64 = 900;

/// The machine's clock: microseconds since its start, which never fall and stay at 2^62. It tells how
/// many readings it gave, and not what they were. While the machine's clock can't be read it stands still.
///
/// It paces the worker that reads it. The first readings after something came or went on the worker's side
/// are free. Later ones come further and further apart, by a quarter of the time that is waited already, up
/// to a millisecond: rounds that wait for a moment leave the processor to others, and none is late by more
/// than that. A worker that waited elsewhere, as for a peer, does not wait here too.
#[derive(Drop)]
pub struct RealClock<'a, R> {
    machine: &'a R,
    start: Duration,
    traffic: &'a Traffic,
    last: u64,
    readings: u64,
    // How much had come and gone at the last reading.
    seen: u64,
    // How many readings there were since then, and the moment of the last one that came soon.
    idle: u32,
    since: u64,
}

/// What the machine's clock says now, for the start of clocks.
pub fn now<R: time::Clock>(machine: &R) -> Duration {
    machine.monotonic().unwrap_or_default()
}

/// How many microseconds a reading lies after the one before, where so many have been waited.
fn gap(waited: u64) -> u64
    ensures short { waited ≤ 80 → result ≡ 20 }
    ensures quarter { 80 ≤ waited → waited ≤ 3600 → result ≡ waited / 4 }
    ensures long { 3600 ≤ waited → result ≡ 900 }
{
    (waited / 4).clamp(SHORTEST, LONGEST)
}

impl<'a, R: time::Clock> RealClock<'a, R> {
    /// A clock that has its 0 where the machine's clock said `start`, for the worker whose side has this
    /// traffic.
    pub(crate) fn new(machine: &'a R, start: Duration, traffic: &'a Traffic) -> RealClock<'a, R> {
        RealClock {
            machine,
            start,
            traffic,
            last: 0,
            readings: 0,
            seen: 0,
            idle: 0,
            since: 0,
        }
    }

    fn passed(&self) -> u64 {
        match self.machine.monotonic() {
            Ok(now) => now
                .saturating_sub(self.start)
                .as_micros()
                .min(u128::from(LATEST)) as u64,
            Err(_) => 0,
        }
    }

    // Counts the readings since something came or went.
    fn notice(&mut self)
        ensures last { self.new.last ≡ self.old.last }
        ensures readings { self.new.readings ≡ self.old.readings }
    {
        let count = self.traffic.count();
        self.idle = if count == self.seen {
            self.idle.saturating_add(1)
        } else {
            0
        };
        self.seen = count;
    }

    // Waits for the moment, which is too near for a sleep, and says what time it is then.
    fn spin(&self, until: u64) -> u64 {
        for _ in 0..SPINS {
            let now = self.passed();
            if now >= until {
                return now;
            }
            hint::spin_loop();
        }
        self.passed()
    }

    // Waits where nothing came or went for a while, and says what time it is then.
    fn rest(&mut self) -> u64
        ensures last { self.new.last ≡ self.old.last }
        ensures readings { self.new.readings ≡ self.old.readings }
    {
        self.notice();
        let now = self.passed();
        if self.idle < SOON {
            self.traffic.set_quiet(false);
            self.since = now;
            return if self.idle < AT_ONCE {
                now
            } else {
                self.spin(self.last.saturating_add(CLOSE))
            };
        }
        let gap = gap(now.saturating_sub(self.since));
        self.traffic.set_quiet(gap == LONGEST);
        let left = gap.saturating_sub(now.saturating_sub(self.last));
        if left == 0 {
            return now;
        }
        self.machine.sleep(Duration::from_micros(left));
        self.passed()
    }
}

impl<R: time::Clock> Clock for RealClock<'_, R> {
    // It tells no readings.
    ghost reads = { λ s readings. ⊥ };

    ghost floor = { λ s. min s.last (2 ^ 62) };

    ghost readings = { λ s. s.readings };

    fn moment(&mut self) -> u64 {
        self.last = self.rest().max(self.last).min(LATEST);
        self.readings = raised(self.readings);
        self.last
    }

    fn readings(&self) -> u64 {
        self.readings
    }
}
