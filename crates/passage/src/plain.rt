// Both ends of a passage on one thread.
ghost use Rattle.std.specs.Prelude.{◌≡◌, ◌+◌, ◌-◌, ◌<◌, ◌≤◌, length, IfOk};
ghost use Rattle.pump_frame.specs.Rows.{greatest_capacity};

use crate::ends::{Forwarded, HighEnd, HighSide, LowEnd, LowSide};
use circular_buffer::HeapCircularBuffer;
use moving_avg::Window;
use pump_core::Seen;
use pump_frame::{Item, OutOfMemory, SessionRow};
use std::alloc::Global;

/// Both ends of a passage on one thread, which sees them as they are: an item is refused exactly
/// where all places are full, nothing comes exactly where nothing is held, the first item held
/// comes first, and the average is that of all times published.
#[derive(Drop)]
pub struct PlainEnds {
    items: HeapCircularBuffer<Item>,
    window: Window,
    // The number removed at the last item taken up.
    last_removed: Option<u64>,
    ghost fits: { length items.items ≤ items.capacity },
    ghost room: { (0 < items.capacity) × (items.capacity ≤ greatest_capacity - 2) },
}

impl LowSide for PlainEnds {
    ghost use Rattle.std.specs.Prelude.{true, []};
    ghost use Rattle.passage.specs.Plain.{shape_of, StandsFor};

    ghost shape = { shape_of };

    ghost place = { λ e. [] };

    ghost on_one_thread = { true };

    ghost stands = { StandsFor };
}

impl HighSide for PlainEnds {
    ghost use Rattle.std.specs.Prelude.{true, []};
    ghost use Rattle.passage.specs.Plain.{shape_of, StandsFor};

    ghost shape = { shape_of };

    ghost place = { λ e. [] };

    ghost on_one_thread = { true };

    ghost stands = { StandsFor };
}

impl PlainEnds {
    ghost use Rattle.pump_frame.specs.Rows.{IsLawfulRow};
    ghost use Rattle.std.specs.Prelude.{[]};
    ghost use Rattle.pump_core.specs.Passage.{Low, High, new_low, new_high, shape_of_row, coarse_shape};
    ghost use Rattle.passage.specs.Plain.{shape_of, StandsFor};

    /// The passage of a lawful row. It has two places fewer than the row's capacity, since two
    /// messages are in the hands of the processes.
    pub fn new(alloc: Global, row: &SessionRow) -> Result<PlainEnds, OutOfMemory>
        requires { IsLawfulRow row.now }
        ensures empty { IfOk result (λ ends. StandsFor ends new_low new_high) }
        ensures shape { IfOk result (λ ends. shape_of ends ≡ shape_of_row row.now) }
    {
        let items = HeapCircularBuffer::with_capacity(alloc, row.capacity as usize - 2)?;
        let window = Window::of_row(alloc, row)?;
        Ok(PlainEnds {
            items,
            window,
            last_removed: None,
        })
    }

    /// From now on an average is its level. What the ends stood for they stand for still where no
    /// average was read.
    pub fn make_coarse(&mut self)
        ensures stands { (l : Low) (h : High) → StandsFor self.old l h → l.pairs ≡ [] → StandsFor self.new l h }
        ensures shape { shape_of self.new ≡ coarse_shape (shape_of self.old) }
    {
        self.window.make_coarse();
    }

    /// Forgets all items and times. It is then as it was made, and coarse where it was coarse before.
    pub fn clear(&mut self)
        ensures empty { StandsFor self.new new_low new_high }
        ensures shape { shape_of self.new ≡ shape_of self.old }
    {
        self.items.clear();
        self.window.clear();
        self.last_removed = None;
    }

    /// How many items are held.
    pub fn held(&self) -> u32
        ensures { (l : Low) (h : High) → StandsFor self.now l h
            → length l.forwarded ≡ length h.taken + result }
    {
        self.items.len() as u32
    }
}

impl LowEnd for PlainEnds {
    fn forward(&mut self, item: Item) -> Forwarded {
        match self.items.try_push_back(item) {
            Ok(()) => Forwarded::Passed,
            Err(item) => Forwarded::Full(item),
        }
    }

    fn average(&mut self) -> Seen {
        Seen {
            count: self.window.count(),
            average: self.window.average(),
        }
    }
}

impl HighEnd for PlainEnds {
    fn next_into(&mut self, removed: u64, into: &mut Item) -> bool {
        match self.items.front() {
            Some(item) => {
                into.number = item.number;
                into.payload.set(item.payload.as_slice());
            }
            None => return false,
        }
        self.items.truncate_front(self.items.len() - 1);
        self.last_removed = Some(removed);
        true
    }

    fn publish(&mut self, micros: u32) {
        self.window.push(micros);
    }
}
