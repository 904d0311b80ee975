// High's cell: how many times were published, their average, and how many items were taken up. The
// high end alone swaps it.
ghost use Rattle.std.specs.Prelude.{◌≡◌, ℕ, ◌^◌, ◌<◌, ◌≤◌, [], ◌∷◌};

use atomic_table::{Join, Split};
use crossbeam_utils::atomic::Words;
use crossbeam_utils::atomic::seq_cell::{Pass, RuledSeqCell};
use crossbeam_utils::rule::{Outcome, Protocol};
use pump_frame::Averaging;
use std::collections::LinkedList;
use std::marker::PhantomData;

/// What the cell holds.
#[derive(Clone, Copy)]
pub struct HighWord {
    pub count: u32,
    pub average: u32,
    pub taken: u64,
    pub ghost small: { (count < 2 ^ 32) × (average ≤ 10 ^ 9) × (taken ≤ 2 ^ 48) },
}

impl Words<3> for HighWord {
    ghost words = { λ x. x.count ∷ x.average ∷ x.taken ∷ [] };

    fn to_words(self) -> [u64; 3] {
        [self.count as u64, self.average as u64, self.taken]
    }

    fn from_words(bits: &[u64; 3]) -> HighWord {
        HighWord {
            count: bits[0] as u32,
            average: bits[1] as u32,
            taken: bits[2],
        }
    }
}

/// What an end knows of the cell. No value of it is made.
pub struct HighView {
    // The high end's part: the row, and what it took up and published.
    pub writes: bool,
    pub places: u64,
    pub averaging: Averaging,
    pub taken: u64,
    // One above the number removed at the last item taken up, or 0.
    pub floor: u64,
    pub times: LinkedList<u32>,
    pub taken_before: LinkedList<u64>,
    // The low end's part: the places, and the number taken up that it found last.
    pub reads: bool,
    pub room: u64,
    pub found: u64,
    pub tries: LinkedList<(u64, u64)>,
    pub pairs: LinkedList<(u64, u64)>,
}

pub struct HighRule;

impl Protocol<HighWord, HighView> for HighRule {
    ghost use Rattle.passage.specs.HighRule.{HighKept, high_first};

    ghost holds = { HighKept };

    ghost first = { high_first };
}

pub type HighCell = RuledSeqCell<HighWord, HighView, HighRule, 3>;

pub type HighPass = Pass<HighWord, HighView>;

/// What the low end's load for a try is made with, which the cell does not tell: how many it has
/// forwarded.
pub trait LowTry {
    ghost forwarded: { ℕ };
}

/// The low end's load for a try.
pub struct FindsTaken<K> {
    of: PhantomData<K>,
}

impl<K: LowTry> Outcome<HighWord, HighView> for FindsTaken<K> {
    ghost use Rattle.passage.specs.HighRule.{with_try};

    ghost then = { λ v x y w. (y ≡ x) × (w ≡ with_try K.forwarded v x.taken) × (v.found ≤ x.taken) };
}

/// The low end's load for a pair.
pub struct FindsPair;

impl Outcome<HighWord, HighView> for FindsPair {
    ghost use Rattle.passage.specs.HighRule.{with_pair, PairsUpTo};

    ghost then = { λ v x y w. (y ≡ x) × (w ≡ with_pair v x.count x.average) × PairsUpTo v x.count };
}

/// What the high end's swap after a pop is made with, which the cell does not tell: the number of
/// messages removed so far.
pub trait RemovedTold {
    ghost removed: { ℕ };
}

/// The high end's swap, after a pop.
pub struct TellsTaken<K> {
    of: PhantomData<K>,
}

impl<K: RemovedTold> Outcome<HighWord, HighView> for TellsTaken<K> {
    ghost use Rattle.passage.specs.HighRule.{with_taken};

    ghost then = { λ v x y w. w ≡ with_taken v K.removed };
}

/// The time that is published, in microseconds.
pub trait TimeTold {
    ghost micros: { ℕ };
}

/// The high end's swap where it publishes.
pub struct TellsTime<K> {
    of: PhantomData<K>,
}

impl<K: TimeTold> Outcome<HighWord, HighView> for TellsTime<K> {
    ghost use Rattle.passage.specs.HighRule.{with_time};

    ghost then = { λ v x y w. w ≡ with_time v K.micros };
}

/// What of a session's row the ends know.
pub trait RowTold {
    ghost use Rattle.pump_frame.specs.declared.averaging.Averaging.{Averaging};

    ghost places: { ℕ };

    ghost averaging: { Averaging };
}

/// The first swap.
pub struct TellsRow<K> {
    of: PhantomData<K>,
}

impl<K: RowTold> Outcome<HighWord, HighView> for TellsRow<K> {
    ghost use Rattle.passage.specs.HighRule.{with_row};

    ghost then = { λ v x y w. w ≡ with_row v K.places K.averaging };
}

/// The two roles are parted, or a reader's whole view is cut off.
pub struct HighParts;

impl Split<HighView> for HighParts {
    ghost use Rattle.passage.specs.HighRule.{high_writer, high_reader};

    ghost left = { high_writer };

    ghost right = { high_reader };
}

/// The writer takes in what the reader knows.
pub struct HighMeets;

impl Join<HighView> for HighMeets {
    ghost use Rattle.passage.specs.HighRule.{high_both, high_spent};

    ghost both = { high_both };

    ghost spent = { high_spent };
}

/// What both parts together say.
pub struct HighLearns;

impl Outcome<HighWord, HighView> for HighLearns {
    ghost use Rattle.passage.specs.HighRule.{HighTies};

    ghost then = { λ v x y w. (w ≡ v) × HighTies v };
}
