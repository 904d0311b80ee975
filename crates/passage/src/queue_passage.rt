// The passage between two threads.
ghost use Rattle.std.specs.Prelude.{◌≡◌, IfOk, length};
ghost use Rattle.pump_frame.specs.Rows.{IsLawfulRow};
ghost use Rattle.pump_core.specs.Passage.{Low, High, Fits, new_low, new_high, shape_of_row};
ghost use Rattle.passage.specs.QueueEnds.{LowEndStands, HighEndStands, low_shape, high_shape, low_place, high_place};
ghost use Rattle.passage.specs.Parting.{IsUnparted, queue_shape};

use crate::high_cell::{HighCell, HighParts, HighPass, HighWord};
use crate::high_steps::tell_row;
use crate::low_cell::{LowCell, LowParts, LowPass, LowWord};
use crate::meetings::{
    meet_in_high, meet_in_low, meet_in_queue, parting_high, parting_low, parting_queue,
};
use crate::queue::{Queue, QueueParts, QueuePass};
use crate::queue_ends::{QueueHigh, QueueLow};
use moving_avg::Window;
use pump_frame::{Averaging, OutOfMemory, SessionRow};
use std::alloc::Global;
use std::sync::Wait;

/// What the two ends take with them.
#[derive(Drop)]
pub struct Unparted {
    queue: QueuePass,
    low: LowPass,
    high: HighPass,
    window: Window,
}

/// A passage between two threads: a queue, and a cell for each end that it alone swaps. What the
/// passage holds is the difference of the numbers in the two cells.
#[derive(Drop)]
pub struct QueuePassage {
    queue: Queue,
    low_cell: LowCell,
    high_cell: HighCell,
    places: u64,
    averaging: Averaging,
    // Nothing once the ends are parted.
    unparted: Option<Unparted>,
}

/// How many items the two ends of a passage had.
#[derive(Clone, Copy, PartialEq, Eq, Debug)]
pub struct Joined {
    pub forwarded: u64,
    pub taken: u64,
}

impl QueuePassage {
    /// The passage of a lawful row. It has two places fewer than the row's capacity, since two
    /// messages are in the hands of the processes.
    pub fn new(alloc: Global, row: &SessionRow) -> Result<QueuePassage, OutOfMemory>
        requires { IsLawfulRow row.now }
        ensures unparted { IfOk result IsUnparted }
        ensures shape { IfOk result (λ passage. queue_shape passage ≡ shape_of_row row.now) }
    {
        let places = row.capacity - 2;
        let window = Window::of_row(alloc, row)?;
        let (queue, queue_pass) = Queue::ruled(alloc, places as usize)?;
        let (low_cell, low_pass) = LowCell::ruled(alloc, LowWord { forwarded: 0 })?;
        let nothing = HighWord {
            count: 0,
            average: 0,
            taken: 0,
        };
        let (high_cell, high_pass) = HighCell::ruled(alloc, nothing)?;
        Ok(QueuePassage {
            queue,
            low_cell,
            high_cell,
            places: places as u64,
            averaging: row.averaging(),
            unparted: Some(Unparted {
                queue: queue_pass,
                low: low_pass,
                high: high_pass,
                window,
            }),
        })
    }

    /// Parts the two ends, one for each thread. It was not called on this passage before.
    pub fn ends<'a, R: Wait>(&'a mut self, rt: &R) -> (QueueLow<'a>, QueueHigh<'a>)
        requires { IsUnparted self.old }
        ensures low { (h : High) → LowEndStands result.0 new_low h }
        ensures high { (l : Low) → HighEndStands result.1 l new_high }
        ensures place { low_place result.0 ≡ high_place result.1 }
        ensures low_shape { low_shape result.0 ≡ queue_shape self.old }
        ensures high_shape { high_shape result.1 ≡ queue_shape self.old }
    {
        let Some(unparted) = self.unparted.take() else {
            unreachable!()
        };
        let Unparted {
            queue: mut sent,
            low: mut told,
            high: mut high_told,
            window,
        } = unparted;
        let passage: &'a QueuePassage = self;
        let first = HighWord {
            count: 0,
            average: window.average(),
            taken: 0,
        };
        let (places, averaging) = (passage.places, passage.averaging);
        tell_row(
            rt,
            &passage.high_cell,
            &mut high_told,
            places,
            averaging,
            first,
        );
        parting_queue(&sent);
        let popped = passage.queue.another::<QueueParts>(&mut sent);
        parting_low(&told);
        let sought = passage.low_cell.split_pass::<LowParts>(&mut told);
        parting_high(&high_told);
        let read = passage.high_cell.split_pass::<HighParts>(&mut high_told);
        let low = QueueLow {
            queue: &passage.queue,
            low_cell: &passage.low_cell,
            high_cell: &passage.high_cell,
            sent,
            told,
            read,
            forwarded: 0,
            places,
            averaging,
        };
        let high = QueueHigh {
            queue: &passage.queue,
            low_cell: &passage.low_cell,
            high_cell: &passage.high_cell,
            popped,
            sought,
            told: high_told,
            taken: 0,
            window,
        };
        (low, high)
    }

    /// Joins the two ends that one call of `ends` gave, and tells how many items each had. What they
    /// did keeps the law of a passage.
    pub fn rejoin<R: Wait>(rt: &R, low: QueueLow<'_>, high: QueueHigh<'_>) -> Joined
        requires low { (l : Low) × (h : High) × LowEndStands low l h }
        requires high { (l : Low) × (h : High) × HighEndStands high l h }
        requires place { low_place low ≡ high_place high }
        ensures lawful { (l : Low) (h : High) → LowEndStands low.entry l h → HighEndStands high.entry l h
            → Fits (high_shape high.entry) l h }
        ensures lengths { (l : Low) (h : High) → LowEndStands low.entry l h → HighEndStands high.entry l h
            → (result.forwarded ≡ length l.forwarded) × (result.taken ≡ length h.taken) }
    {
        let QueueLow {
            queue,
            low_cell,
            high_cell,
            mut sent,
            mut told,
            mut read,
            forwarded,
            places: _,
            averaging: _,
        } = low;
        let QueueHigh {
            queue: _,
            low_cell: _,
            high_cell: _,
            popped,
            mut sought,
            told: mut high_told,
            taken,
            window: _,
        } = high;
        meet_in_queue(queue, &mut sent, popped);
        meet_in_high(rt, high_cell, &mut high_told, &mut read);
        meet_in_low(rt, low_cell, &mut told, &mut sought);
        Joined { forwarded, taken }
    }
}
