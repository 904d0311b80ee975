// The one call of a passage that an opening makes.
ghost use Rattle.std.specs.Prelude.{◌≡◌, ◌^◌, ◌<◌};
ghost use Rattle.pump_core.specs.Passage.{Low, High, ComesNext, Passes, Refuses};
ghost use Rattle.passage.specs.Answers.{MatchForwarded};

use passage::{Forwarded, LowEnd, LowSide, WaitLowEnd};
use pump_frame::Item;
use std::sync::Wait;

/// How an item is offered to a low end of this type.
pub trait Offers<L: LowSide> {
    /// As `forward` of the end.
    fn offer(&self, item: Item, ends: &mut L) -> Forwarded
        requires stands { (l : Low) × (h : High)
            × L.stands ends.old l h × ComesNext l.forwarded item.number }
        requires number { item.number < 2 ^ 48 }
        ensures shape { L.shape ends.new ≡ L.shape ends.old }
        ensures place { L.place ends.new ≡ L.place ends.old }
        ensures step { (l : Low) (h : High) → L.stands ends.old l h → ComesNext l.forwarded item.number
            → MatchForwarded result
            (Passes (L.shape ends.old) L.on_one_thread (L.stands ends.new) l h item)
            (Refuses (L.shape ends.old) L.on_one_thread (L.stands ends.new) l h) };
}

/// To an end whose calls wait for nobody.
#[derive(Drop)]
pub struct AtOnce;

/// To an end whose calls may wait.
#[derive(Drop)]
pub struct Waits<'r, R> {
    pub rt: &'r R,
}

impl<L: LowEnd> Offers<L> for AtOnce {
    fn offer(&self, item: Item, ends: &mut L) -> Forwarded {
        ends.forward(item)
    }
}

impl<L: WaitLowEnd, R: Wait> Offers<L> for Waits<'_, R> {
    fn offer(&self, item: Item, ends: &mut L) -> Forwarded {
        ends.forward(self.rt, item)
    }
}
