// How a look makes the calls of a high end: at once, or with the leave to wait.
ghost use Rattle.std.specs.Prelude.{◌≡◌, ◌-◌, ◌^◌, ◌<◌, ◌≤◌, false, length};
ghost use Rattle.pump_core.specs.Passage.{Low, High, publishes, Gives, GivesNone};
ghost use Rattle.passage.specs.Answers.{MatchTaken};

use passage::{HighEnd, HighSide, WaitHighEnd};
use pump_frame::Item;
use std::sync::Wait;

/// The two calls of a high end of this type.
pub trait Asks<H: HighSide> {
    /// As `next_into` of the end.
    fn next_into(&self, removed: u64, ends: &mut H, into: &mut Item) -> bool
        requires { (l : Low) × (h : High) × H.stands ends.old l h × (h.floor ≤ removed) }
        ensures shape { H.shape ends.new ≡ H.shape ends.old }
        ensures place { H.place ends.new ≡ H.place ends.old }
        ensures kept { result ≡ false → into.new ≡ into.old }
        ensures step { (l : Low) (h : High) → H.stands ends.old l h
            → MatchTaken result
            (Gives (H.shape ends.old) H.on_one_thread (H.stands ends.new) l h into.new removed)
            (GivesNone (H.shape ends.old) H.on_one_thread (H.stands ends.new) l h) };

    /// As `publish` of the end.
    fn publish(&self, micros: u32, ends: &mut H)
        requires stands { (l : Low) × (h : High)
            × H.stands ends.old l h × (length h.times < 2 ^ 32 - 1) }
        requires micros { micros ≤ 10 ^ 9 }
        ensures shape { H.shape ends.new ≡ H.shape ends.old }
        ensures place { H.place ends.new ≡ H.place ends.old }
        ensures step { (l : Low) (h : High) → H.stands ends.old l h
            → H.stands ends.new l (publishes h micros) };
}

/// Of an end whose calls wait for nobody.
#[derive(Drop)]
pub struct AtOnce;

/// Of an end whose calls may wait.
#[derive(Drop)]
pub struct Waits<'r, R> {
    pub rt: &'r R,
}

impl<H: HighEnd> Asks<H> for AtOnce {
    fn next_into(&self, removed: u64, ends: &mut H, into: &mut Item) -> bool {
        ends.next_into(removed, into)
    }

    fn publish(&self, micros: u32, ends: &mut H) {
        ends.publish(micros);
    }
}

impl<H: WaitHighEnd, R: Wait> Asks<H> for Waits<'_, R> {
    fn next_into(&self, removed: u64, ends: &mut H, into: &mut Item) -> bool {
        ends.next_into(self.rt, removed, into)
    }

    fn publish(&self, micros: u32, ends: &mut H) {
        ends.publish(self.rt, micros);
    }
}
