// Low's cell: how many items were forwarded. The low end alone swaps it.
ghost use Rattle.std.specs.Prelude.{◌≡◌, ℕ, [], ◌∷◌};

use atomic_table::{Join, Split};
use crossbeam_utils::atomic::Words;
use crossbeam_utils::atomic::seq_cell::{Pass, RuledSeqCell};
use crossbeam_utils::rule::{Outcome, Protocol};
use std::collections::LinkedList;
use std::marker::PhantomData;

/// What the cell holds.
#[derive(Clone, Copy)]
pub struct LowWord {
    pub forwarded: u64,
}

impl Words<1> for LowWord {
    ghost words = { λ x. x.forwarded ∷ [] };

    fn to_words(self) -> [u64; 1] {
        [self.forwarded]
    }

    fn from_words(bits: &[u64; 1]) -> LowWord {
        LowWord { forwarded: bits[0] }
    }
}

/// What an end knows of the cell. No value of it is made.
pub struct LowView {
    // The low end's part.
    pub writes: bool,
    pub forwarded: u64,
    // The high end's part.
    pub reads: bool,
    pub tries: LinkedList<(u64, u64)>,
}

pub struct LowRule;

impl Protocol<LowWord, LowView> for LowRule {
    ghost use Rattle.passage.specs.LowRule.{LowKept, low_first};

    ghost holds = { LowKept };

    ghost first = { low_first };
}

pub type LowCell = RuledSeqCell<LowWord, LowView, LowRule, 1>;

pub type LowPass = Pass<LowWord, LowView>;

/// The low end's swap, after a push.
pub struct TellsForwarded;

impl Outcome<LowWord, LowView> for TellsForwarded {
    ghost use Rattle.passage.specs.LowRule.{with_forwarded};

    ghost then = { λ v x y w. w ≡ with_forwarded v };
}

/// What the high end's load is made with, which the cell does not tell: how many it has taken up.
pub trait HighTry {
    ghost taken: { ℕ };
}

/// The high end's load.
pub struct FindsForwarded<K> {
    of: PhantomData<K>,
}

impl<K: HighTry> Outcome<LowWord, LowView> for FindsForwarded<K> {
    ghost use Rattle.passage.specs.LowRule.{with_seek};

    ghost then = { λ v x y w. (y ≡ x) × (w ≡ with_seek K.taken v x.forwarded) };
}

/// The two roles are parted, or a reader's whole view is cut off.
pub struct LowParts;

impl Split<LowView> for LowParts {
    ghost use Rattle.passage.specs.LowRule.{low_writer, low_reader};

    ghost left = { low_writer };

    ghost right = { low_reader };
}

/// The writer takes in what the reader knows.
pub struct LowMeets;

impl Join<LowView> for LowMeets {
    ghost use Rattle.passage.specs.LowRule.{low_both, low_spent};

    ghost both = { low_both };

    ghost spent = { low_spent };
}

/// What both parts together say.
pub struct LowLearns;

impl Outcome<LowWord, LowView> for LowLearns {
    ghost use Rattle.passage.specs.LowRule.{LowTies};

    ghost then = { λ v x y w. (w ≡ v) × LowTies v };
}
