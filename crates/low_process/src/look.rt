// A look of the low process: its first half, and the whole over an end that waits for nobody.
ghost use Rattle.std.specs.Prelude.{◌≡◌, ℕ, ◌+◌, ◌^◌, ◌<◌, ◌≤◌, Bool, Some, IfSome};
ghost use Rattle.pump_frame.specs.Frames.{IsLawful as IsLawfulFrame};
ghost use Rattle.pump_core.specs.ReplyFrames.{IsLawfulReply};
ghost use Rattle.pump_core.specs.History.{Arrival as Offered};
ghost use Rattle.pump_core.specs.Passage.{Low, High, ComesNext};
ghost use Rattle.low_process.specs.declared.values.Asking.TheVariants.{Forward as AsksForward};
ghost use Rattle.low_process.specs.Looks.{IsAnswerTo, IsBetweenLooks, AsksToForward, AsksFor, IsLawful, Looks};
ghost use Rattle.low_process.specs.Looks.{arrival_of, look_of, row_of, next_of, last_of, hand_of, item_in_hand};
ghost use Rattle.low_process.specs.Heads.{look_with, ask_with, EndsLook};
ghost use Rattle.low_process.specs.Ends.{OfferStep, EndStep, StandsFitting};
ghost use Rattle.low_process.specs.Whole.{HasStore, FirstHalf, WholeLook, reply_in};

use crate::LowProcess;
use crate::how::{Asks, AtOnce};
use crate::store::store_message;
use crate::values::{Answer, Arrival, Ask, AskHead, LookHead, LowLook};
use disk_model::Disk;
use passage::{LowEnd, LowSide};
use pump_core::Seen;
use pump_frame::Item;
use stable_buffer::LowStore;

// What stands in an answer whose average nobody needs.
const UNREAD: Seen = Seen {
    count: 0,
    average: 0,
};

// Offers a message, and reads the average where it passed and an acknowledgement is owed.
fn offer<L: LowSide, A: Asks<L>>(how: &A, item: &Item, is_owed: bool, ends: &mut L) -> Answer
    requires ends { (l : Low) × (h : High)
        × L.stands ends.old l h × ComesNext l.forwarded item.now.number }
    requires number { item.now.number < 2 ^ 48 }
    ensures shape { L.shape ends.new ≡ L.shape ends.old }
    ensures place { L.place ends.new ≡ L.place ends.old }
    ensures fits { IsAnswerTo AsksForward result }
    ensures step { (l : Low) (h : High) → L.stands ends.old l h → ComesNext l.forwarded item.now.number
        → OfferStep (L.shape ends.old) L.on_one_thread (L.stands ends.new) l h item.now is_owed result }
{
    if !how.offer(item, ends) {
        return Answer::Full;
    }
    if is_owed {
        Answer::Passed(how.average(ends))
    } else {
        Answer::Passed(UNREAD)
    }
}

impl LowProcess {
    /// As `begin`, into the look's head. The message that is offered is in the hand.
    pub fn begin_into<D: Disk>(
        &mut self,
        moment: u64,
        word: u32,
        arrival: Arrival,
        store: &mut LowStore<D>,
        head: &mut LookHead,
    ) -> AskHead
        requires between { IsBetweenLooks self.old }
        requires order { last_of self.old ≤ moment }
        requires moment { moment ≤ 2 ^ 62 }
        requires lawful { IsLawful (arrival_of arrival) }
        requires store { HasStore D.told self.old store.old }

        ensures { FirstHalf D.told self.old self.new store.old store.new moment word (arrival_of arrival.entry)
            (ask_with (row_of self.old) self.new head.new result) (IfSome head.new.reply IsLawfulReply) }
    {
        let message = self.wanted(&arrival);
        let is_fault = store_message(message, store);
        self.step(moment, word, arrival, is_fault, head)
    }

    /// The first half of a look: of this moment in microseconds, which is not below the last one
    /// and at most 2^62, with this random word and this arrival. It stores what the arrival asks to
    /// store. A crash at any moment leaves what was stored before it, or this message too; after a
    /// device fault the process is down, and it replies nothing from then on.
    pub fn begin<D: Disk>(
        &mut self,
        moment: u64,
        word: u32,
        arrival: Arrival,
        store: &mut LowStore<D>,
    ) -> Ask
        requires between { IsBetweenLooks self.old }
        requires order { last_of self.old ≤ moment }
        requires moment { moment ≤ 2 ^ 62 }
        requires lawful { IsLawful (arrival_of arrival) }
        requires store { HasStore D.told self.old store.old }

        ensures { FirstHalf D.told self.old self.new store.old store.new moment word (arrival_of arrival.entry) result
            (IfSome (reply_in result) IsLawfulFrame) }
    {
        let mut head = LookHead::new();
        let asked = self.begin_into(moment, word, arrival, store, &mut head);
        self.ask(asked, &head)
    }

    // Offers the message in the hand, and ends the look.
    fn offer_hand<L: LowSide, A: Asks<L>>(&mut self, how: &A, ends: &mut L, head: &mut LookHead)
        requires asking { AsksToForward self.old }
        requires hand { hand_of self.old ≡ Some (item_in_hand self.old) }
        requires number { (item_in_hand self.old).number + 1 ≡ next_of self.old }
        requires ends { (l : Low) × (h : High)
            × L.stands ends.old l h × ComesNext l.forwarded (item_in_hand self.old).number }

        ensures looks { (moment word : ℕ) (arrival : Offered) (is_fault : Bool) →
            Looks (λ h. AsksFor self.old h moment word arrival is_fault) self.new (row_of self.old)
            (look_of moment word arrival is_fault head.new.feedback) (look_with (row_of self.old) head.new) }
        ensures rest { EndsLook self.old self.new head.new }
        ensures shape { L.shape ends.new ≡ L.shape ends.old }
        ensures place { L.place ends.new ≡ L.place ends.old }
        ensures ends { (l : Low) (h : High)
            → L.stands ends.old l h → ComesNext l.forwarded (item_in_hand self.old).number
            → EndStep (L.shape ends.old) L.on_one_thread (StandsFitting (L.stands ends.new) self.new) l h
            (Some (item_in_hand self.old)) head.new.feedback }
    {
        let is_owed = self.owes();
        let answer = offer(how, self.item(), is_owed, ends);
        self.finish_into(answer, head)
    }

    // A look that makes the calls of the end in this way.
    pub(crate) fn look_by<D: Disk, L: LowSide, A: Asks<L>>(
        &mut self,
        how: &A,
        moment: u64,
        word: u32,
        arrival: Arrival,
        store: &mut LowStore<D>,
        ends: &mut L,
        head: &mut LookHead,
    )
        requires between { IsBetweenLooks self.old }
        requires order { last_of self.old ≤ moment }
        requires moment { moment ≤ 2 ^ 62 }
        requires lawful { IsLawful (arrival_of arrival) }
        requires store { HasStore D.told self.old store.old }
        requires ends { (l : Low) × (h : High) × StandsFitting (L.stands ends.old) self.old l h }

        ensures { WholeLook D.told L.shape L.place L.on_one_thread L.stands
            self.old self.new store.old store.new ends.old ends.new
            moment word (arrival_of arrival.entry) (look_with (row_of self.old) head.new)
            (IfSome head.new.reply IsLawfulReply) }
    {
        match self.begin_into(moment, word, arrival, store, head) {
            AskHead::Done => {}
            AskHead::Forward => self.offer_hand(how, ends, head),
            AskHead::Average => self.finish_into(Answer::Average(how.average(ends)), head),
        }
    }

    /// As `look`, into the look's head.
    pub fn look_into<D: Disk, L: LowEnd>(
        &mut self,
        moment: u64,
        word: u32,
        arrival: Arrival,
        store: &mut LowStore<D>,
        ends: &mut L,
        head: &mut LookHead,
    )
        requires between { IsBetweenLooks self.old }
        requires order { last_of self.old ≤ moment }
        requires moment { moment ≤ 2 ^ 62 }
        requires lawful { IsLawful (arrival_of arrival) }
        requires store { HasStore D.told self.old store.old }
        requires ends { (l : Low) × (h : High) × StandsFitting (L.stands ends.old) self.old l h }

        ensures { WholeLook D.told L.shape L.place L.on_one_thread L.stands
            self.old self.new store.old store.new ends.old ends.new
            moment word (arrival_of arrival.entry) (look_with (row_of self.old) head.new)
            (IfSome head.new.reply IsLawfulReply) }
    {
        self.look_by(&AtOnce, moment, word, arrival, store, ends, head);
    }

    /// A whole look over the store and the low end of the passage: `begin`, what it asks of the
    /// end, and `finish`. Unless the process is down, where an item was forwarded to the end before,
    /// the last one has the number before that of the message in the hand, or before `next()` where
    /// the hand is empty; afterwards this holds again.
    pub fn look<D: Disk, L: LowEnd>(
        &mut self,
        moment: u64,
        word: u32,
        arrival: Arrival,
        store: &mut LowStore<D>,
        ends: &mut L,
    ) -> LowLook
        requires between { IsBetweenLooks self.old }
        requires order { last_of self.old ≤ moment }
        requires moment { moment ≤ 2 ^ 62 }
        requires lawful { IsLawful (arrival_of arrival) }
        requires store { HasStore D.told self.old store.old }
        requires ends { (l : Low) × (h : High) × StandsFitting (L.stands ends.old) self.old l h }

        ensures { WholeLook D.told L.shape L.place L.on_one_thread L.stands
            self.old self.new store.old store.new ends.old ends.new
            moment word (arrival_of arrival.entry) result (IfSome result.reply IsLawfulFrame) }
    {
        let mut head = LookHead::new();
        self.look_into(moment, word, arrival, store, ends, &mut head);
        self.whole(&head)
    }
}
