// How a look makes the calls of a low end: at once, or with the leave to wait.
ghost use Rattle.std.specs.Prelude.{◌≡◌, ◌^◌, ◌<◌, ◌≤◌, MatchBool};
ghost use Rattle.pump_core.specs.Passage.{Low, High, ComesNext, Passes, Refuses, Reads};

use passage::{LowEnd, LowSide, WaitLowEnd};
use pump_core::Seen;
use pump_frame::Item;
use std::sync::Wait;

/// The two calls of a low end of this type.
pub trait Asks<L: LowSide> {
    /// As `offer` of the end.
    fn offer(&self, item: &Item, ends: &mut L) -> bool
        requires stands { (l : Low) × (h : High)
            × L.stands ends.old l h × ComesNext l.forwarded item.now.number }
        requires number { item.now.number < 2 ^ 48 }
        ensures shape { L.shape ends.new ≡ L.shape ends.old }
        ensures place { L.place ends.new ≡ L.place ends.old }
        ensures step { (l : Low) (h : High) → L.stands ends.old l h → ComesNext l.forwarded item.now.number
            → MatchBool result
            (Passes (L.shape ends.old) L.on_one_thread (L.stands ends.new) l h item.now)
            (Refuses (L.shape ends.old) L.on_one_thread (L.stands ends.new) l h) };

    /// As `average` of the end.
    fn average(&self, ends: &mut L) -> Seen
        requires { (l : Low) × (h : High) × L.stands ends.old l h }
        ensures shape { L.shape ends.new ≡ L.shape ends.old }
        ensures place { L.place ends.new ≡ L.place ends.old }
        ensures bound { result.average ≤ 10 ^ 9 }
        ensures step { (l : Low) (h : High) → L.stands ends.old l h
            → Reads (L.shape ends.old) L.on_one_thread (L.stands ends.new) l h
            result.count result.average };
}

/// Of an end whose calls wait for nobody.
#[derive(Drop)]
pub struct AtOnce;

/// Of an end whose calls may wait.
#[derive(Drop)]
pub struct Waits<'r, R> {
    pub rt: &'r R,
}

impl<L: LowEnd> Asks<L> for AtOnce {
    fn offer(&self, item: &Item, ends: &mut L) -> bool {
        ends.offer(item)
    }

    fn average(&self, ends: &mut L) -> Seen {
        ends.average()
    }
}

impl<L: WaitLowEnd, R: Wait> Asks<L> for Waits<'_, R> {
    fn offer(&self, item: &Item, ends: &mut L) -> bool {
        ends.offer(self.rt, item)
    }

    fn average(&self, ends: &mut L) -> Seen {
        ends.average(self.rt)
    }
}
