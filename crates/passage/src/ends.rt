// The two ends of a passage: their calls, and what they promise.
ghost use Rattle.std.specs.Prelude.{◌≡◌, ◌-◌, ◌^◌, ◌<◌, ◌≤◌, false, length, MatchBool};
ghost use Rattle.pump_core.specs.Passage.{Low, High, ComesNext, publishes, Passes, Refuses, Reads, Gives, GivesNone};
ghost use Rattle.passage.specs.Answers.{IfFull, MatchForwarded, MatchNext, MatchTaken};

use pump_core::Seen;
use pump_frame::Item;

/// What became of an item that was offered.
#[derive(Clone, Copy)]
pub enum Forwarded {
    /// It is in the passage.
    Passed,
    /// All places were full at a step of this call. The item comes back.
    Full(Item),
}

/// What a high end found.
#[derive(Clone, Copy)]
pub enum Next {
    /// The item is taken up.
    Got(Item),
    /// Nothing was held at a step of this call.
    Empty,
}

/// What a low end means. It stands for what it did, beside what the high end of its passage did; an
/// end that knows nothing of the other one stands beside any.
pub trait LowSide {
    ghost use Rattle.std.specs.Prelude.{Bool, List};
    ghost use Rattle.atomic_table.specs.Seated.{TableId};
    ghost use Rattle.pump_core.specs.Passage.{Shape, Low, High};

    /// The passage's places, and how times are averaged in it.
    ghost shape: { Self → Shape };

    /// Which passage it is an end of: the tables that both ends share.
    ghost place: { Self → List TableId };

    /// Both ends are on one thread, so that a call sees the other end as it is.
    ghost on_one_thread: { Bool };

    /// What was done at this end, and at the other one.
    ghost stands: { Self → Low → High → Type 0 };
}

/// What a high end means, in the same way.
pub trait HighSide {
    ghost use Rattle.std.specs.Prelude.{Bool, List};
    ghost use Rattle.atomic_table.specs.Seated.{TableId};
    ghost use Rattle.pump_core.specs.Passage.{Shape, Low, High};

    /// The passage's places, and how times are averaged in it.
    ghost shape: { Self → Shape };

    /// Which passage it is an end of: the tables that both ends share.
    ghost place: { Self → List TableId };

    /// Both ends are on one thread, so that a call sees the other end as it is.
    ghost on_one_thread: { Bool };

    /// What was done at the other end, and at this one.
    ghost stands: { Self → Low → High → Type 0 };
}

/// The end of the low process, whose calls wait for nobody.
pub trait LowEnd: LowSide {
    /// Offers an item. Its number is below 2^48 and, where an item was forwarded before, one above
    /// that of the last. It is full only where all places were taken at a step of this call, which
    /// is told as a try.
    fn forward(&mut self, item: Item) -> Forwarded
        requires stands { (l : Low) × (h : High)
            × Self.stands self.old l h × ComesNext l.forwarded item.number }
        requires number { item.number < 2 ^ 48 }
        ensures shape { Self.shape self.new ≡ Self.shape self.old }
        ensures place { Self.place self.new ≡ Self.place self.old }
        ensures back { IfFull result (λ back. back ≡ item) }
        ensures step { (l : Low) (h : High) → Self.stands self.old l h → ComesNext l.forwarded item.number
            → MatchForwarded result
            (Passes (Self.shape self.old) Self.on_one_thread (Self.stands self.new) l h item)
            (Refuses (Self.shape self.old) Self.on_one_thread (Self.stands self.new) l h) };

    /// As `forward`, with the item where it lies. False says that all places were full.
    fn offer(&mut self, item: &Item) -> bool
        requires stands { (l : Low) × (h : High)
            × Self.stands self.old l h × ComesNext l.forwarded item.now.number }
        requires number { item.now.number < 2 ^ 48 }
        ensures shape { Self.shape self.new ≡ Self.shape self.old }
        ensures place { Self.place self.new ≡ Self.place self.old }
        ensures step { (l : Low) (h : High) → Self.stands self.old l h → ComesNext l.forwarded item.now.number
            → MatchBool result
            (Passes (Self.shape self.old) Self.on_one_thread (Self.stands self.new) l h item.now)
            (Refuses (Self.shape self.old) Self.on_one_thread (Self.stands self.new) l h) }
    {
        match self.forward(*item) {
            Forwarded::Passed => true,
            Forwarded::Full(_) => false,
        }
    }

    /// What was published at a step of this call: how many times, not fewer than were read before,
    /// and their average in microseconds, at most 10^9.
    fn average(&mut self) -> Seen
        requires { (l : Low) × (h : High) × Self.stands self.old l h }
        ensures shape { Self.shape self.new ≡ Self.shape self.old }
        ensures place { Self.place self.new ≡ Self.place self.old }
        ensures bound { result.average ≤ 10 ^ 9 }
        ensures step { (l : Low) (h : High) → Self.stands self.old l h
            → Reads (Self.shape self.old) Self.on_one_thread (Self.stands self.new) l h
            result.count result.average };
}

/// The end of the high process, whose calls wait for nobody.
pub trait HighEnd: HighSide {
    /// Takes up the next item, over what stands in `into`. `removed`, the number of messages removed
    /// so far, is above that of every earlier call that got an item. False says that nothing came:
    /// only where nothing was held at a step of this call, which is told as a try. `into` is then
    /// as before.
    fn next_into(&mut self, removed: u64, into: &mut Item) -> bool
        requires { (l : Low) × (h : High) × Self.stands self.old l h × (h.floor ≤ removed) }
        ensures shape { Self.shape self.new ≡ Self.shape self.old }
        ensures place { Self.place self.new ≡ Self.place self.old }
        ensures kept { result ≡ false → into.new ≡ into.old }
        ensures step { (l : Low) (h : High) → Self.stands self.old l h
            → MatchTaken result
            (Gives (Self.shape self.old) Self.on_one_thread (Self.stands self.new) l h into.new removed)
            (GivesNone (Self.shape self.old) Self.on_one_thread (Self.stands self.new) l h) };

    /// As `next_into`, with the item by value.
    fn next(&mut self, removed: u64) -> Next
        requires { (l : Low) × (h : High) × Self.stands self.old l h × (h.floor ≤ removed) }
        ensures shape { Self.shape self.new ≡ Self.shape self.old }
        ensures place { Self.place self.new ≡ Self.place self.old }
        ensures step { (l : Low) (h : High) → Self.stands self.old l h
            → MatchNext result
            (λ item. Gives (Self.shape self.old) Self.on_one_thread (Self.stands self.new) l h item removed)
            (GivesNone (Self.shape self.old) Self.on_one_thread (Self.stands self.new) l h) }
    {
        let mut item = Item::default();
        if self.next_into(removed, &mut item) {
            Next::Got(item)
        } else {
            Next::Empty
        }
    }

    /// Publishes a time in microseconds, at most 10^9, where fewer than 2^32 - 1 were published.
    fn publish(&mut self, micros: u32)
        requires stands { (l : Low) × (h : High)
            × Self.stands self.old l h × (length h.times < 2 ^ 32 - 1) }
        requires micros { micros ≤ 10 ^ 9 }
        ensures shape { Self.shape self.new ≡ Self.shape self.old }
        ensures place { Self.place self.new ≡ Self.place self.old }
        ensures step { (l : Low) (h : High) → Self.stands self.old l h
            → Self.stands self.new l (publishes h micros) };
}
