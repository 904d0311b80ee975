// The passage between two threads that wait for nobody.
ghost use Rattle.std.specs.Prelude.{◌≡◌, IfOk, length, slice_index};
ghost use Rattle.pump_frame.specs.Rows.{IsLawfulRow};
ghost use Rattle.pump_core.specs.Passage.{Low, High, Fits, new_low, new_high, shape_of_row};
ghost use Rattle.relay_ring.specs.PairRule.{pair_word, pair_words};
ghost use Rattle.relay_ring.specs.RingEnds.{LowEndStands, HighEndStands, low_shape, high_shape, low_place, high_place};
ghost use Rattle.relay_ring.specs.Parting.{IsUnparted, ring_shape};

use crate::ends::{RingHigh, RingLow};
use crate::pairs::{
    PAIR, PAIR_WORDS, PairLearns, PairMeets, PairParts, PairSeat, PairTable, RowTold,
};
use crate::ring::{FORWARDED, Ring, RingLearns, RingMeets, RingParts, RingSeat, WORDS};
use moving_avg::Window;
use passage::Joined;
use pump_frame::{Averaging, OutOfMemory, SessionRow};
use std::alloc::Global;

/// What the two ends take with them.
#[derive(Drop)]
pub struct Unparted {
    seat: RingSeat,
    pair_seat: PairSeat,
    window: Window,
}

/// A passage between two threads whose ends wait for nobody: a ring of slots, and two words of which
/// each end stores one alone. What the passage holds is the difference of these two numbers. A word
/// of a second table has the count of the times published and their average.
#[derive(Drop)]
pub struct RingPassage {
    ring: Ring,
    pairs: PairTable,
    places: u64,
    averaging: Averaging,
    // Nothing once the ends are parted.
    unparted: Option<Unparted>,
}

// The words of the second table before any time is published.
fn first_words(average: u32) -> [u64; PAIR_WORDS]
    ensures pair { slice_index result pair_word ≡ average }
    ensures width { length result ≡ pair_words }
{
    let mut words = [0; PAIR_WORDS];
    words[PAIR] = average as u64;
    words
}

impl RingPassage {
    /// The passage of a lawful row. It has two places fewer than the row's capacity, since two
    /// messages are in the hands of the processes.
    pub fn new(alloc: Global, row: &SessionRow) -> Result<RingPassage, OutOfMemory>
        requires { IsLawfulRow row.now }
        ensures unparted { IfOk result IsUnparted }
        ensures shape { IfOk result (λ passage. ring_shape passage ≡ shape_of_row row.now) }
    {
        let places = row.capacity - 2;
        let window = Window::of_row(alloc, row)?;
        let (ring, seat) = Ring::vacant(alloc, &[0; WORDS], places as usize, &())?;
        let told = RowTold {
            places: places as u64,
            averaging: row.averaging(),
        };
        let (pairs, pair_seat) = PairTable::of_words(alloc, &first_words(window.average()), &told)?;
        Ok(RingPassage {
            ring,
            pairs,
            places: places as u64,
            averaging: row.averaging(),
            unparted: Some(Unparted {
                seat,
                pair_seat,
                window,
            }),
        })
    }

    /// Parts the two ends, one for each thread. It was not called on this passage before.
    pub fn ends<'a>(&'a mut self) -> (RingLow<'a>, RingHigh<'a>)
        requires { IsUnparted self.old }
        ensures low { (h : High) → LowEndStands result.0 new_low h }
        ensures high { (l : Low) → HighEndStands result.1 l new_high }
        ensures place { low_place result.0 ≡ high_place result.1 }
        ensures low_shape { low_shape result.0 ≡ ring_shape self.old }
        ensures high_shape { high_shape result.1 ≡ ring_shape self.old }
    {
        let Some(unparted) = self.unparted.take() else {
            unreachable!()
        };
        let Unparted {
            seat: mut low_seat,
            pair_seat: mut writer,
            window,
        } = unparted;
        let passage: &'a RingPassage = self;
        let high_seat = passage.ring.shared.split_seat::<RingParts>(&mut low_seat);
        let reader = passage.pairs.shared.split_seat::<PairParts>(&mut writer);
        let low = RingLow {
            ring: &passage.ring,
            pairs: &passage.pairs,
            seat: low_seat,
            reader,
            forwarded: 0,
            limit: 0,
            places: passage.places,
            averaging: passage.averaging,
        };
        let high = RingHigh {
            ring: &passage.ring,
            pairs: &passage.pairs,
            seat: high_seat,
            writer,
            taken: 0,
            limit: 0,
            places: passage.places,
            window,
        };
        (low, high)
    }

    /// Joins the two ends that one call of `ends` gave, and tells how many items each had. What they
    /// did keeps the law of a passage.
    pub fn rejoin(low: RingLow<'_>, high: RingHigh<'_>) -> Joined
        requires low { (l : Low) × (h : High) × LowEndStands low l h }
        requires high { (l : Low) × (h : High) × HighEndStands high l h }
        requires place { low_place low ≡ high_place high }
        ensures lawful { (l : Low) (h : High) → LowEndStands low.entry l h → HighEndStands high.entry l h
            → Fits (high_shape high.entry) l h }
        ensures lengths { (l : Low) (h : High) → LowEndStands low.entry l h → HighEndStands high.entry l h
            → (result.forwarded ≡ length l.forwarded) × (result.taken ≡ length h.taken) }
    {
        let RingLow {
            ring,
            pairs,
            mut seat,
            reader,
            forwarded,
            limit: _,
            places: _,
            averaging: _,
        } = low;
        let RingHigh {
            ring: _,
            pairs: _,
            seat: mut high_seat,
            mut writer,
            taken,
            limit: _,
            places: _,
            window: _,
        } = high;
        // It may have a slot, which a seat that is joined may not.
        let high_view = ring.shared.split_seat::<RingParts>(&mut high_seat);
        ring.shared.join_seat::<RingMeets>(&mut seat, high_view);
        ring.shared.load::<RingLearns>(&mut seat, FORWARDED);
        pairs.shared.join_seat::<PairMeets>(&mut writer, reader);
        pairs.shared.load::<PairLearns>(&mut writer, PAIR);
        Joined { forwarded, taken }
    }
}
