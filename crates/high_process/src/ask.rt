// What a high look asks of the passage.
ghost use Rattle.std.specs.Prelude.{◌≡◌, ◌≤◌, true, false, length, IfSome};
ghost use Rattle.pump_core.specs.Passage.{Low, High};
ghost use Rattle.high_process.specs.States.{hand_in};
ghost use Rattle.high_process.specs.Ends.{IsTime, told_time, TakesUp};

use crate::how::Asks;
use crate::values::HighAsk;
use passage::HighSide;
use pump_frame::Item;

// Publishes the time, if there is one.
fn tell<H: HighSide, A: Asks<H>>(how: &A, time: Option<u32>, ends: &mut H)
    requires { (l : Low) × (h : High) × H.stands ends.old l h × IfSome time (IsTime (length h.times)) }
    ensures shape { H.shape ends.new ≡ H.shape ends.old }
    ensures place { H.place ends.new ≡ H.place ends.old }
    ensures tells { (l : Low) (h : High) → H.stands ends.old l h → H.stands ends.new l (told_time time h) }
{
    if let Some(micros) = time {
        how.publish(micros, ends);
    }
}

// Takes up the next message over what stands in `into`, if it is wanted and there is one.
fn take_up<H: HighSide, A: Asks<H>>(
    how: &A,
    wants: bool,
    removed: u64,
    ends: &mut H,
    into: &mut Item,
) -> bool
    requires { (l : Low) × (h : High) × H.stands ends.old l h × (wants ≡ true → h.floor ≤ removed) }
    ensures shape { H.shape ends.new ≡ H.shape ends.old }
    ensures place { H.place ends.new ≡ H.place ends.old }
    ensures none { wants ≡ false → result ≡ false }
    ensures kept { result ≡ false → into.new ≡ into.old }
    ensures takes { (l : Low) (h : High) → H.stands ends.old l h
        → TakesUp (H.shape ends.old) H.on_one_thread (H.stands ends.new) l h wants removed (hand_in result into.new) }
{
    if !wants {
        return false;
    }
    how.next_into(removed, ends, into)
}

// What a look wants of the passage: its time is published before the next message is taken up. True
// where one came.
pub fn fetch<H: HighSide, A: Asks<H>>(how: &A, ask: &HighAsk, ends: &mut H, into: &mut Item) -> bool
    requires { (l : Low) × (h : High) × H.stands ends.old l h
        × IfSome ask.now.publish (IsTime (length h.times))
        × (ask.now.wants ≡ true → h.floor ≤ ask.now.removed) }
    ensures shape { H.shape ends.new ≡ H.shape ends.old }
    ensures place { H.place ends.new ≡ H.place ends.old }
    ensures none { ask.now.wants ≡ false → result ≡ false }
    ensures kept { result ≡ false → into.new ≡ into.old }
    ensures takes { (l : Low) (h : High) → H.stands ends.old l h
        → TakesUp (H.shape ends.old) H.on_one_thread (H.stands ends.new)
        l (told_time ask.now.publish h) ask.now.wants ask.now.removed (hand_in result into.new) }
{
    tell(how, ask.publish, ends);
    take_up(how, ask.wants, ask.removed, ends, into)
}
