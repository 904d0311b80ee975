// The ends of the ring.
ghost use Rattle.std.specs.Prelude.{◌≡◌, ◌≢◌, ℕ, ◌+◌, ◌^◌, ◌<◌, ◌++◌, ◌∷◌, [], length, MatchBool};
ghost use Rattle.pump_core.specs.Passage.{ComesNext, forwards, tried};
ghost use Rattle.relay_ring.specs.RingRule.{with_seek};
ghost use Rattle.relay_ring.specs.RingEnds.{IsLow, IsHigh, low_shape, low_place, low_side, high_place};

use crate::pairs::{PairSeat, PairTable, read_pair, tell_time};
use crate::ring::{
    FORWARDED, LooksForItems, LooksForRoom, RemovedTold, Ring, RingSeat, StoresForwarded,
    StoresTaken, TAKEN,
};
use crate::slots::{copy_out, fill};
use moving_avg::Window;
use passage::{Forwarded, HighEnd, HighSide, LowEnd, LowSide};
use pump_core::Seen;
use pump_frame::{Averaging, Item};
use std::marker::Brand;

/// The low end of a ring. It says that all places are full where a load of the number taken up found
/// so many fewer than it has forwarded. It looks only once what it found before gives no room.
#[derive(Drop)]
pub struct RingLow<'a> {
    pub(crate) ring: &'a Ring,
    pub(crate) pairs: &'a PairTable,
    pub(crate) seat: RingSeat,
    pub(crate) reader: PairSeat,
    pub(crate) forwarded: u64,
    // How many items may be forwarded in all, as far as it knows.
    pub(crate) limit: u64,
    pub(crate) places: u64,
    pub(crate) averaging: Averaging,
}

/// The high end of a ring. It says that nothing is held where a load of the number forwarded found
/// as many as it has taken up. It looks only once it has taken up all that it found before.
#[derive(Drop)]
pub struct RingHigh<'a> {
    pub(crate) ring: &'a Ring,
    pub(crate) pairs: &'a PairTable,
    pub(crate) seat: RingSeat,
    pub(crate) writer: PairSeat,
    pub(crate) taken: u64,
    // How many items were forwarded, as far as it knows.
    pub(crate) limit: u64,
    pub(crate) places: u64,
    pub(crate) window: Window,
}

impl LowSide for RingLow<'_> {
    ghost use Rattle.std.specs.Prelude.{false};
    ghost use Rattle.relay_ring.specs.RingEnds.{LowEndStands, low_shape, low_place};

    ghost shape = { low_shape };

    ghost place = { low_place };

    ghost on_one_thread = { false };

    ghost stands = { LowEndStands };
}

impl HighSide for RingHigh<'_> {
    ghost use Rattle.std.specs.Prelude.{false};
    ghost use Rattle.relay_ring.specs.RingEnds.{HighEndStands, high_shape, high_place};

    ghost shape = { high_shape };

    ghost place = { high_place };

    ghost on_one_thread = { false };

    ghost stands = { HighEndStands };
}

impl RingLow<'_> {
    // Whether one more item may be forwarded. If not, a load found all places full.
    fn has_room(&mut self) -> bool
        requires end { IsLow self.old }
        ensures end { IsLow self.new }
        ensures shape { low_shape self.new ≡ low_shape self.old }
        ensures place { low_place self.new ≡ low_place self.old }
        ensures found { MatchBool result
            ((self.new.forwarded ≢ self.new.limit) × (low_side self.new ≡ low_side self.old))
            ((taken : ℕ) × (length (low_side self.old).forwarded ≡ taken + self.old.places)
            × (low_side self.new ≡ tried (low_side self.old) taken)) }
    {
        if self.forwarded != self.limit {
            return true;
        }
        let taken = self.ring.shared.load::<LooksForRoom>(&mut self.seat, TAKEN);
        self.limit = taken + self.places;
        self.forwarded != self.limit
    }

    // Forwards the item.
    fn put(&mut self, item: &Item)
        requires end { IsLow self.old }
        requires room { self.old.forwarded ≢ self.old.limit }
        requires follows { ComesNext (low_side self.old).forwarded item.now.number }
        requires number { item.now.number < 2 ^ 48 }
        ensures end { IsLow self.new }
        ensures shape { low_shape self.new ≡ low_shape self.old }
        ensures place { low_place self.new ≡ low_place self.old }
        ensures done { low_side self.new ≡ forwards (low_side self.old) item.now }
    {
        let place = (self.forwarded % self.places) as usize;
        let slot = self.seat.slot_mut(&self.ring.shared, place);
        fill(slot, item);
        self.forwarded += 1;
        self.ring
            .shared
            .store::<StoresForwarded>(&mut self.seat, FORWARDED, self.forwarded);
    }
}

impl LowEnd for RingLow<'_> {
    fn forward(&mut self, item: Item) -> Forwarded {
        if self.offer(&item) {
            Forwarded::Passed
        } else {
            Forwarded::Full(item)
        }
    }

    fn offer(&mut self, item: &Item) -> bool {
        if !self.has_room() {
            return false;
        }
        self.put(item);
        true
    }

    fn average(&mut self) -> Seen {
        read_pair(self.pairs, &mut self.reader)
    }
}

impl RingHigh<'_> {
    // Whether there is an item. If not, a load found as many forwarded as were taken up.
    fn has_item(&mut self) -> bool
        requires end { IsHigh self.old }
        ensures end { IsHigh self.new }
        ensures place { high_place self.new ≡ high_place self.old }
        ensures told { self.new.writer ≡ self.old.writer }
        ensures taken { self.new.seat.me.0.taken ≡ self.old.seat.me.0.taken }
        ensures floor { self.new.seat.me.0.floor ≡ self.old.seat.me.0.floor }
        ensures found { MatchBool result
            ((self.new.taken ≢ self.new.limit) × (self.new.seat.me.0.high_tries ≡ self.old.seat.me.0.high_tries))
            (self.new.seat.me.0 ≡ with_seek self.old.seat.me.0 self.old.taken) }
    {
        if self.taken != self.limit {
            return true;
        }
        self.limit = self
            .ring
            .shared
            .load::<LooksForItems>(&mut self.seat, FORWARDED);
        self.taken != self.limit
    }

    // Takes up the next item, where so many messages were removed.
    fn take_up<K: RemovedTold>(&mut self, removed: u64, into: &mut Item)
        requires end { IsHigh self.old }
        requires item { self.old.taken ≢ self.old.limit }
        requires removed { removed ≡ K.removed }
        ensures end { IsHigh self.new }
        ensures place { high_place self.new ≡ high_place self.old }
        ensures told { self.new.writer ≡ self.old.writer }
        ensures taken { self.new.seat.me.0.taken ≡ self.old.seat.me.0.taken ++ into.new ∷ [] }
        ensures floor { self.new.seat.me.0.floor ≡ removed + 1 }
        ensures tries { self.new.seat.me.0.high_tries ≡ self.old.seat.me.0.high_tries }
    {
        let place = (self.taken % self.places) as usize;
        let slot = self.seat.slot_mut(&self.ring.shared, place);
        copy_out(slot, into);
        self.taken += 1;
        self.ring
            .shared
            .store::<StoresTaken<K>>(&mut self.seat, TAKEN, self.taken);
    }
}

impl HighEnd for RingHigh<'_> {
    fn next_into(&mut self, removed: u64, into: &mut Item) -> bool {
        if !self.has_item() {
            return false;
        }
        self.take_up::<Brand>(removed, into);
        true
    }

    fn publish(&mut self, micros: u32) {
        self.window.push(micros);
        let pair = Seen {
            count: self.window.count(),
            average: self.window.average(),
        };
        tell_time(self.pairs, &mut self.writer, pair, micros, self.taken);
    }
}
