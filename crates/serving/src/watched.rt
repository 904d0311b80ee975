// The low worker's end of the passage, under a watch that is told when the buffer is full.
ghost use Rattle.std.specs.Prelude.{◌≡◌};

use passage::{Forwarded, LowSide, WaitLowEnd};
use pump_core::Seen;
use pump_frame::Item;
use relay_threads::Watch;
use std::sync::Wait;

/// An end, and all that it does. The watch is told what becomes of each message that is offered.
#[derive(Drop)]
pub struct WatchedLow<'w, L, V> {
    pub ends: L,
    pub watch: &'w V,
}

impl<L: LowSide, V> LowSide for WatchedLow<'_, L, V> {
    ghost shape = { λ w. L.shape w.ends };

    ghost place = { λ w. L.place w.ends };

    ghost on_one_thread = { L.on_one_thread };

    ghost stands = { λ w. L.stands w.ends };
}

impl<L: WaitLowEnd, V: Watch> WaitLowEnd for WatchedLow<'_, L, V> {
    fn forward<R: Wait>(&mut self, rt: &R, item: Item) -> Forwarded {
        let forwarded = self.ends.forward(rt, item);
        match forwarded {
            Forwarded::Passed => self.watch.low_passed(),
            Forwarded::Full(_) => self.watch.low_full(),
        }
        forwarded
    }

    fn offer<R: Wait>(&mut self, rt: &R, item: &Item) -> bool {
        let is_passed = self.ends.offer(rt, item);
        if is_passed {
            self.watch.low_passed();
        } else {
            self.watch.low_full();
        }
        is_passed
    }

    fn average<R: Wait>(&mut self, rt: &R) -> Seen {
        self.ends.average(rt)
    }
}
