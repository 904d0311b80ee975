// The second table. Its one word has the number of times published in its high half, and their
// average in its low half; the high end alone stores it.
ghost use Rattle.std.specs.Prelude.{◌≡◌, ℕ, ◌^◌, ◌≤◌, ◌++◌, ◌∷◌, true, false, [], length};
ghost use Rattle.pump_frame.specs.Averages.{average_of};
ghost use Rattle.relay_ring.specs.PairRule.{pair_words, pair_shape, with_pair, with_time, IsAveraged, PairsUpTo};

use atomic_table::{Join, Play, Seat, Split, Table, TableRule};
use pump_core::Seen;
use pump_frame::Averaging;
use std::alloc::Global;
use std::collections::LinkedList;
use std::marker::{Brand, PhantomData};

/// The word. It has 128 bytes of the table on either side, so that its cache line has nothing else
/// that a thread writes.
pub const PAIR: usize = 16;

/// All words, of which the others stay 0.
pub const PAIR_WORDS: usize = 32;

/// What the table is told of a session's row: the passage's places, and how times are averaged.
#[derive(Clone, Copy)]
pub struct RowTold {
    pub places: u64,
    pub averaging: Averaging,
}

/// What an end knows of the word. No value of it is made.
pub struct PairView {
    // The high end's part: the row, what it published, and beside each time the number taken up.
    pub writes: bool,
    pub places: u64,
    pub averaging: Averaging,
    pub times: LinkedList<u32>,
    pub taken_before: LinkedList<u64>,
    // The low end's part: how what it reads is averaged, and what it read.
    pub reads: bool,
    pub read_as: Averaging,
    pub pairs: LinkedList<(u64, u64)>,
}

pub struct PairRule;

impl TableRule<(), PairView, RowTold> for PairRule {
    ghost use Rattle.relay_ring.specs.PairRule.{PairKept, pair_first};

    ghost holds = { PairKept };

    ghost first = { pair_first };
}

pub type PairTable = Table<(), PairView, RowTold, PairRule, Global>;

pub type PairSeat = Seat<(), PairView>;

/// The low end's load.
pub struct ReadsPair;

impl Play<(), PairView> for ReadsPair {
    ghost use Rattle.relay_ring.specs.PairRule.{SeesPair};

    ghost then = { λ st m r m'. SeesPair m r m' };
}

/// What the high end's store is made with, which the word does not tell: the time that is published,
/// and the number taken up.
pub trait TimeTold {
    ghost micros: { ℕ };

    ghost taken: { ℕ };
}

impl TimeTold for Brand {
    ghost micros = { 0 };

    ghost taken = { 0 };
}

/// The high end's store.
pub struct StoresPair<K> {
    of: PhantomData<K>,
}

impl<K: TimeTold> Play<(), PairView> for StoresPair<K> {
    ghost use Rattle.relay_ring.specs.PairRule.{with_time};

    ghost then = { λ st m r m'. m' ≡ (with_time m.0 K.micros K.taken, m.1) };
}

/// The two roles are parted.
pub struct PairParts;

impl Split<PairView> for PairParts {
    ghost use Rattle.relay_ring.specs.PairRule.{pair_writer, pair_reader};

    ghost left = { pair_writer };

    ghost right = { pair_reader };
}

/// The writer takes in what the reader knows.
pub struct PairMeets;

impl Join<PairView> for PairMeets {
    ghost use Rattle.relay_ring.specs.PairRule.{pair_both, pair_spent};

    ghost both = { pair_both };

    ghost spent = { pair_spent };
}

/// What both parts together say.
pub struct PairLearns;

impl Play<(), PairView> for PairLearns {
    ghost use Rattle.relay_ring.specs.PairRule.{PairTies};

    ghost then = { λ st m r m'. PairTies m.0 };
}

/// Reads the pair.
pub fn read_pair(table: &PairTable, seat: &mut PairSeat) -> Seen
    requires table { seat.old.table_id ≡ table.now.shared.table_id }
    requires width { seat.old.table_id.words ≡ pair_words }
    requires role { (seat.old.me.0.writes ≡ false) × (seat.old.me.0.reads ≡ true) × (seat.old.me.1 ≡ []) }
    ensures table { seat.new.table_id ≡ seat.old.table_id }
    ensures bare { seat.new.me.1 ≡ [] }
    ensures pair { seat.new.me.0 ≡ with_pair seat.old.me.0 result.count result.average }
    ensures up_to { PairsUpTo seat.old.me.0 result.count }
    ensures bound { result.average ≤ 10 ^ 9 }
    ensures averaged { IsAveraged seat.old.me.0.read_as result.average }
{
    let word = table.shared.load::<ReadsPair>(seat, PAIR);
    Seen {
        count: (word / (1 << 32)) as u32,
        average: (word % (1 << 32)) as u32,
    }
}

fn store_pair<K: TimeTold>(
    table: &PairTable,
    seat: &mut PairSeat,
    pair: Seen,
    micros: u32,
    taken: u64,
)
    requires table { seat.old.table_id ≡ table.now.shared.table_id }
    requires width { seat.old.table_id.words ≡ pair_words }
    requires role { (seat.old.me.0.writes ≡ true) × (seat.old.me.0.reads ≡ false) × (seat.old.me.1 ≡ []) }
    requires count { pair.count ≡ length (seat.old.me.0.times ++ micros ∷ []) }
    requires average { pair.average ≡ average_of (pair_shape seat.old.me.0).averaging
        (seat.old.me.0.times ++ micros ∷ []) }
    requires bound { pair.average ≤ 10 ^ 9 }
    requires told { (micros ≡ K.micros) × (taken ≡ K.taken) }
    ensures table { seat.new.table_id ≡ seat.old.table_id }
    ensures bare { seat.new.me.1 ≡ [] }
    ensures time { seat.new.me.0 ≡ with_time seat.old.me.0 micros taken }
{
    let word = pair.count as u64 * (1 << 32) + pair.average as u64;
    table.shared.store::<StoresPair<K>>(seat, PAIR, word);
}

/// Publishes a time when so many items were taken up, by the pair that it makes.
pub fn tell_time(table: &PairTable, seat: &mut PairSeat, pair: Seen, micros: u32, taken: u64)
    requires table { seat.old.table_id ≡ table.now.shared.table_id }
    requires width { seat.old.table_id.words ≡ pair_words }
    requires role { (seat.old.me.0.writes ≡ true) × (seat.old.me.0.reads ≡ false) × (seat.old.me.1 ≡ []) }
    requires count { pair.count ≡ length (seat.old.me.0.times ++ micros ∷ []) }
    requires average { pair.average ≡ average_of (pair_shape seat.old.me.0).averaging
        (seat.old.me.0.times ++ micros ∷ []) }
    requires bound { pair.average ≤ 10 ^ 9 }
    ensures table { seat.new.table_id ≡ seat.old.table_id }
    ensures bare { seat.new.me.1 ≡ [] }
    ensures time { seat.new.me.0 ≡ with_time seat.old.me.0 micros taken }
{
    store_pair::<Brand>(table, seat, pair, micros, taken);
}
