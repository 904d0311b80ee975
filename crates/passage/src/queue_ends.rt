// The ends of the passage between two threads.
ghost use Rattle.std.specs.Prelude.{◌≡◌, ℕ, ◌+◌, ◌^◌, ◌≤◌, List, length};
ghost use Rattle.pump_frame.specs.Averages.{average_of};
ghost use Rattle.moving_avg.specs.Windows.{HoldsTimes, averaging_in};

use crate::ends::{Forwarded, HighSide, LowSide};
use crate::high_cell::{HighCell, HighPass, HighWord};
use crate::high_steps::{find_pair, find_taken, tell_taken, tell_time};
use crate::low_cell::{LowCell, LowPass, LowWord};
use crate::low_steps::{find_forwarded, tell_forwarded};
use crate::queue::{Queue, QueuePass, pop, push};
use crate::waiting::{WaitHighEnd, WaitLowEnd};
use moving_avg::Window;
use pump_core::Seen;
use pump_frame::{Averaging, Item};
use std::sync::Wait;

/// The low end of a passage between two threads. It says that all places are full where a load of
/// high's cell found so many fewer taken up than it has forwarded.
#[derive(Drop)]
pub struct QueueLow<'a> {
    pub(crate) queue: &'a Queue,
    pub(crate) low_cell: &'a LowCell,
    pub(crate) high_cell: &'a HighCell,
    pub(crate) sent: QueuePass,
    pub(crate) told: LowPass,
    pub(crate) read: HighPass,
    pub(crate) forwarded: u64,
    pub(crate) places: u64,
    pub(crate) averaging: Averaging,
}

/// The high end of a passage between two threads. It says that nothing is held where a load of
/// low's cell found as many forwarded as it has taken up.
#[derive(Drop)]
pub struct QueueHigh<'a> {
    pub(crate) queue: &'a Queue,
    pub(crate) low_cell: &'a LowCell,
    pub(crate) high_cell: &'a HighCell,
    pub(crate) popped: QueuePass,
    pub(crate) sought: LowPass,
    pub(crate) told: HighPass,
    pub(crate) taken: u64,
    pub(crate) window: Window,
}

impl LowSide for QueueLow<'_> {
    ghost use Rattle.std.specs.Prelude.{false};
    ghost use Rattle.passage.specs.QueueEnds.{LowEndStands, low_shape, low_place};

    ghost shape = { low_shape };

    ghost place = { low_place };

    ghost on_one_thread = { false };

    ghost stands = { LowEndStands };
}

impl HighSide for QueueHigh<'_> {
    ghost use Rattle.std.specs.Prelude.{false};
    ghost use Rattle.passage.specs.QueueEnds.{HighEndStands, high_shape, high_place};

    ghost shape = { high_shape };

    ghost place = { high_place };

    ghost on_one_thread = { false };

    ghost stands = { HighEndStands };
}

impl WaitLowEnd for QueueLow<'_> {
    fn forward<R: Wait>(&mut self, rt: &R, item: Item) -> Forwarded {
        let found = find_taken(rt, self.high_cell, &mut self.read, self.forwarded);
        if self.forwarded == found.taken + self.places {
            return Forwarded::Full(item);
        }
        push(rt, self.queue, &mut self.sent, item);
        self.forwarded += 1;
        let word = LowWord {
            forwarded: self.forwarded,
        };
        tell_forwarded(rt, self.low_cell, &mut self.told, word, &self.sent);
        Forwarded::Passed
    }

    fn average<R: Wait>(&mut self, rt: &R) -> Seen {
        let found = find_pair(rt, self.high_cell, &mut self.read);
        Seen {
            count: found.count,
            average: found.average,
        }
    }
}

// What high's cell is to hold.
fn high_word(taken: u64, window: &Window) -> HighWord
    requires { taken ≤ 2 ^ 48 }
    ensures taken { result.taken ≡ taken }
    ensures times { (times : List ℕ) → HoldsTimes window.now times → (result.count ≡ length times)
        × (result.average ≡ average_of (averaging_in window.now) times) }
{
    HighWord {
        count: window.count(),
        average: window.average(),
        taken,
    }
}

impl WaitHighEnd for QueueHigh<'_> {
    fn next_into<R: Wait>(&mut self, rt: &R, removed: u64, into: &mut Item) -> bool {
        let found = find_forwarded(rt, self.low_cell, &mut self.sought, self.taken);
        if found.forwarded == self.taken {
            return false;
        }
        *into = pop(rt, self.queue, &mut self.popped);
        self.taken += 1;
        let word = high_word(self.taken, &self.window);
        tell_taken(
            rt,
            self.high_cell,
            &mut self.told,
            word,
            removed,
            &self.popped,
        );
        true
    }

    fn publish<R: Wait>(&mut self, rt: &R, micros: u32) {
        self.window.push(micros);
        let word = high_word(self.taken, &self.window);
        tell_time(rt, self.high_cell, &mut self.told, word, micros);
    }
}
