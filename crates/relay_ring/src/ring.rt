// The ring: two words and a slot for each place. The low end alone stores the number forwarded, and
// the high end alone the number taken up.
ghost use Rattle.std.specs.Prelude.{ℕ};

use atomic_table::{Join, Play, Seat, Split, Table, TableRule};
use pump_frame::Item;
use std::alloc::Global;
use std::collections::LinkedList;
use std::marker::{Brand, PhantomData};

/// The word with the number forwarded. It and the other one each have 128 bytes of the table on
/// either side, so that a cache line with one of them has nothing else that a thread writes.
pub const FORWARDED: usize = 16;

/// The word with the number taken up.
pub const TAKEN: usize = 32;

/// All words, of which the others stay 0.
pub const WORDS: usize = 48;

/// What an end knows of the ring. No value of it is made.
pub struct RingView {
    // The low end's part: what it forwarded, and how many items it may forward in all.
    pub is_low: bool,
    pub forwarded: LinkedList<Item>,
    pub limit: u64,
    pub low_tries: LinkedList<(u64, u64)>,
    // The high end's part: what it took up, one above the number removed at the last of these or 0,
    // and the items behind them that it found.
    pub is_high: bool,
    pub taken: LinkedList<Item>,
    pub floor: u64,
    pub ahead: LinkedList<Item>,
    pub high_tries: LinkedList<(u64, u64)>,
}

pub struct RingRule;

impl TableRule<Option<Item>, RingView, ()> for RingRule {
    ghost use Rattle.relay_ring.specs.RingRule.{RingKept, ring_first};

    ghost holds = { λ _. RingKept };

    ghost first = { λ _. ring_first };
}

pub type Ring = Table<Option<Item>, RingView, (), RingRule, Global>;

pub type RingSeat = Seat<Option<Item>, RingView>;

/// The low end's load of the number taken up. Where there is room it gets the next slot.
pub struct LooksForRoom;

impl Play<Option<Item>, RingView> for LooksForRoom {
    ghost use Rattle.relay_ring.specs.RingRule.{SeesRoom};

    ghost then = { λ st m r m'. SeesRoom st.slots m r m' };
}

/// The low end's store of the number forwarded. It gives its slot back, and gets the next one where
/// it knows of room.
pub struct StoresForwarded;

impl Play<Option<Item>, RingView> for StoresForwarded {
    ghost use Rattle.relay_ring.specs.RingRule.{Stored};

    ghost then = { λ st m r m'. Stored st.slots m m' };
}

/// The high end's load of the number forwarded. Where there is an item it gets its slot.
pub struct LooksForItems;

impl Play<Option<Item>, RingView> for LooksForItems {
    ghost use Rattle.relay_ring.specs.RingRule.{SeesItems};

    ghost then = { λ st m r m'. SeesItems st.slots m r m' };
}

/// What the high end's store is made with, which the word does not tell: the number of messages
/// removed so far.
pub trait RemovedTold {
    ghost removed: { ℕ };
}

impl RemovedTold for Brand {
    ghost removed = { 0 };
}

/// The high end's store of the number taken up. It gives its slot back, and gets that of the next
/// item that it knows of.
pub struct StoresTaken<K> {
    of: PhantomData<K>,
}

impl<K: RemovedTold> Play<Option<Item>, RingView> for StoresTaken<K> {
    ghost use Rattle.relay_ring.specs.RingRule.{TookUp};

    ghost then = { λ st m r m'. TookUp st.slots m K.removed m.0.ahead m' };
}

/// The two roles are parted.
pub struct RingParts;

impl Split<RingView> for RingParts {
    ghost use Rattle.relay_ring.specs.RingRule.{ring_low, ring_high};

    ghost left = { ring_low };

    ghost right = { ring_high };
}

/// The low end takes in what the high end knows.
pub struct RingMeets;

impl Join<RingView> for RingMeets {
    ghost use Rattle.relay_ring.specs.RingRule.{ring_both, ring_spent};

    ghost both = { ring_both };

    ghost spent = { ring_spent };
}

/// What both parts together say.
pub struct RingLearns;

impl Play<Option<Item>, RingView> for RingLearns {
    ghost use Rattle.relay_ring.specs.RingRule.{RingTies};

    ghost then = { λ st m r m'. RingTies st.slots m.0 };
}
