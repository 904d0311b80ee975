// Ends of a passage whose calls may wait for the other thread.
ghost use Rattle.std.specs.Prelude.{◌≡◌, ◌-◌, ◌^◌, ◌<◌, ◌≤◌, false, length, MatchBool};
ghost use Rattle.pump_core.specs.Passage.{Low, High, ComesNext, publishes, Passes, Refuses, Reads, Gives, GivesNone};
ghost use Rattle.passage.specs.Answers.{IfFull, MatchForwarded, MatchNext, MatchTaken};

use crate::ends::{Forwarded, HighEnd, HighSide, LowEnd, LowSide, Next};
use pump_core::Seen;
use pump_frame::Item;
use std::sync::Wait;

/// The end of the low process, whose calls may wait for the other thread. They promise what those of
/// `LowEnd` do.
pub trait WaitLowEnd: LowSide {
    /// As `LowEnd::forward`.
    fn forward<R: Wait>(&mut self, rt: &R, item: Item) -> Forwarded
        requires stands { (l : Low) × (h : High)
            × Self.stands self.old l h × ComesNext l.forwarded item.number }
        requires number { item.number < 2 ^ 48 }
        ensures shape { Self.shape self.new ≡ Self.shape self.old }
        ensures place { Self.place self.new ≡ Self.place self.old }
        ensures back { IfFull result (λ back. back ≡ item) }
        ensures step { (l : Low) (h : High) → Self.stands self.old l h → ComesNext l.forwarded item.number
            → MatchForwarded result
            (Passes (Self.shape self.old) Self.on_one_thread (Self.stands self.new) l h item)
            (Refuses (Self.shape self.old) Self.on_one_thread (Self.stands self.new) l h) };

    /// As `LowEnd::offer`.
    fn offer<R: Wait>(&mut self, rt: &R, item: &Item) -> bool
        requires stands { (l : Low) × (h : High)
            × Self.stands self.old l h × ComesNext l.forwarded item.now.number }
        requires number { item.now.number < 2 ^ 48 }
        ensures shape { Self.shape self.new ≡ Self.shape self.old }
        ensures place { Self.place self.new ≡ Self.place self.old }
        ensures step { (l : Low) (h : High) → Self.stands self.old l h → ComesNext l.forwarded item.now.number
            → MatchBool result
            (Passes (Self.shape self.old) Self.on_one_thread (Self.stands self.new) l h item.now)
            (Refuses (Self.shape self.old) Self.on_one_thread (Self.stands self.new) l h) }
    {
        match self.forward(rt, *item) {
            Forwarded::Passed => true,
            Forwarded::Full(_) => false,
        }
    }

    /// As `LowEnd::average`.
    fn average<R: Wait>(&mut self, rt: &R) -> Seen
        requires { (l : Low) × (h : High) × Self.stands self.old l h }
        ensures shape { Self.shape self.new ≡ Self.shape self.old }
        ensures place { Self.place self.new ≡ Self.place self.old }
        ensures bound { result.average ≤ 10 ^ 9 }
        ensures step { (l : Low) (h : High) → Self.stands self.old l h
            → Reads (Self.shape self.old) Self.on_one_thread (Self.stands self.new) l h
            result.count result.average };
}

/// The end of the high process, whose calls may wait for the other thread. They promise what those of
/// `HighEnd` do.
pub trait WaitHighEnd: HighSide {
    /// As `HighEnd::next_into`.
    fn next_into<R: Wait>(&mut self, rt: &R, removed: u64, into: &mut Item) -> bool
        requires { (l : Low) × (h : High) × Self.stands self.old l h × (h.floor ≤ removed) }
        ensures shape { Self.shape self.new ≡ Self.shape self.old }
        ensures place { Self.place self.new ≡ Self.place self.old }
        ensures kept { result ≡ false → into.new ≡ into.old }
        ensures step { (l : Low) (h : High) → Self.stands self.old l h
            → MatchTaken result
            (Gives (Self.shape self.old) Self.on_one_thread (Self.stands self.new) l h into.new removed)
            (GivesNone (Self.shape self.old) Self.on_one_thread (Self.stands self.new) l h) };

    /// As `HighEnd::next`.
    fn next<R: Wait>(&mut self, rt: &R, removed: u64) -> Next
        requires { (l : Low) × (h : High) × Self.stands self.old l h × (h.floor ≤ removed) }
        ensures shape { Self.shape self.new ≡ Self.shape self.old }
        ensures place { Self.place self.new ≡ Self.place self.old }
        ensures step { (l : Low) (h : High) → Self.stands self.old l h
            → MatchNext result
            (λ item. Gives (Self.shape self.old) Self.on_one_thread (Self.stands self.new) l h item removed)
            (GivesNone (Self.shape self.old) Self.on_one_thread (Self.stands self.new) l h) }
    {
        let mut item = Item::default();
        if self.next_into(rt, removed, &mut item) {
            Next::Got(item)
        } else {
            Next::Empty
        }
    }

    /// As `HighEnd::publish`.
    fn publish<R: Wait>(&mut self, rt: &R, micros: u32)
        requires stands { (l : Low) × (h : High)
            × Self.stands self.old l h × (length h.times < 2 ^ 32 - 1) }
        requires micros { micros ≤ 10 ^ 9 }
        ensures shape { Self.shape self.new ≡ Self.shape self.old }
        ensures place { Self.place self.new ≡ Self.place self.old }
        ensures step { (l : Low) (h : High) → Self.stands self.old l h
            → Self.stands self.new l (publishes h micros) };
}

/// An end that waits for nobody, where one that may wait is asked for.
#[derive(Drop)]
pub struct Calm<E>(pub E);

impl<E: LowSide> LowSide for Calm<E> {
    ghost shape = { λ c. E.shape c.0 };

    ghost place = { λ c. E.place c.0 };

    ghost on_one_thread = { E.on_one_thread };

    ghost stands = { λ c. E.stands c.0 };
}

impl<E: HighSide> HighSide for Calm<E> {
    ghost shape = { λ c. E.shape c.0 };

    ghost place = { λ c. E.place c.0 };

    ghost on_one_thread = { E.on_one_thread };

    ghost stands = { λ c. E.stands c.0 };
}

impl<E: LowEnd> WaitLowEnd for Calm<E> {
    fn forward<R: Wait>(&mut self, _rt: &R, item: Item) -> Forwarded {
        self.0.forward(item)
    }

    fn offer<R: Wait>(&mut self, _rt: &R, item: &Item) -> bool {
        self.0.offer(item)
    }

    fn average<R: Wait>(&mut self, _rt: &R) -> Seen {
        self.0.average()
    }
}

impl<E: HighEnd> WaitHighEnd for Calm<E> {
    fn next_into<R: Wait>(&mut self, _rt: &R, removed: u64, into: &mut Item) -> bool {
        self.0.next_into(removed, into)
    }

    fn publish<R: Wait>(&mut self, _rt: &R, micros: u32) {
        self.0.publish(micros);
    }
}
