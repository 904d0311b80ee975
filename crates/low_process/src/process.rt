// The low process of a session: its opening, what it holds, and the second half of a look.
ghost use Rattle.std.specs.Prelude.{◌≡◌, ℕ, ◌+◌, ◌^◌, ◌≤◌, ◌<◌, Option, Some, None, Bool, true, false, List, IsTrue};
ghost use Rattle.std.specs.Prelude.{IfSome, option_map};
ghost use Rattle.std.specs.Option.{option_copied};
ghost use Rattle.pump_core.specs.Exchanges.{is_fit, is_gone as gone};
ghost use Rattle.low_process.specs.Hands.{HasNumber, is_hand_of, is_asked_of};

use crate::frames::{is_permitted, is_storable};
use crate::values::{Answer, Arrival, Ask, AskHead, Asking, LookHead, LowLook, Phase};
use delay_table::delay;
use pump_core::{Feedback, Refusal, Reply, Seen};
use pump_frame::{Frame, Item, Kind, Payload, SessionRow};

/// The low process of a session.
#[derive(Drop)]
pub struct LowProcess {
    row: SessionRow,
    // The number of the next message.
    next: u64,
    greeted: bool,
    phase: Phase,
    // The message in the hand, in the phase Passing.
    hand: Item,
    // The moment of the last look, and 0 before one.
    last: u64,
    // The random word of the last look.
    word: u32,
    asking: Asking,
    ghost in_range: { next ≤ 2 ^ 48 },
    ghost in_time: { last ≤ 2 ^ 62 },
    ghost in_row: { row.longest ≤ 10 ^ 9 },
    ghost in_hand: { IsTrue (is_hand_of next phase hand.number) },
    ghost in_question: { IsTrue (is_asked_of next phase asking) },
}

// What stands in the hand where it is empty.
fn no_item() -> Item {
    Item {
        number: 0,
        payload: Payload::default(),
    }
}

impl Arrival<'_> {
    ghost use Rattle.low_process.specs.Looks.{arrival_of};

    fn is_gone(&self) -> bool
        ensures { result ≡ gone (arrival_of self.now) }
    {
        matches!(self, Arrival::Gone)
    }
}

impl LowProcess {
    ghost use Rattle.low_process.specs.Heads.{nothing_done, look_with, ask_with, EndsLook};
    ghost use Rattle.pump_frame.specs.Frames.{IsLawful as IsLawfulFrame};
    ghost use Rattle.pump_frame.specs.Delays.{delay_of};
    ghost use Rattle.pump_frame.specs.Rows.{IsLawfulRow};
    ghost use Rattle.pump_core.specs.History.{Arrival as Offered, Came, History, first_life, reopened, looked};
    ghost use Rattle.pump_core.specs.Standing.{KeepsExchanges};
    ghost use Rattle.low_process.specs.declared.values.Asking.TheVariants.{Forward as AsksForward};
    ghost use Rattle.pump_core.specs.Replies.{Sent, LowReplies};
    ghost use Rattle.pump_core.specs.ReplyFrames.{frame_of, IsLawfulReply};
    ghost use Rattle.low_process.specs.Looks.{state_of, look_of, arrival_of, opening_of, IsLawful, IsHand, StandsFor};
    ghost use Rattle.low_process.specs.Looks.{Asks, AsksFor, IsAnswerTo, AnswersTo, IsInBounds, Tells, Looks};
    ghost use Rattle.low_process.specs.Looks.{HandBegins, IsBetweenLooks, row_of, made_coarse, next_of, last_of};
    ghost use Rattle.low_process.specs.Looks.{is_down, is_idle, owes, hand_of, item_in_hand, hand_passed};
    ghost use Rattle.low_process.specs.Steps.{Stepped, StepBegins};
    ghost use Rattle.low_process.specs.Storing.{message_in, wants};
    ghost use Rattle.low_process.specs.Ends.{number_offered};
    ghost use Rattle.low_process.specs.Whole.{reply_in};

    /// The process of an opening: with the count that was found, at most 2^48, and the message that
    /// was found in the hand, if any.
    pub fn open(row: &SessionRow, next: u64, hand: Option<Item>) -> LowProcess
        requires lawful { IsLawfulRow row.now }
        requires next { next ≤ 2 ^ 48 }
        requires hand { IsHand next hand }
        ensures first { StandsFor result (first_life (opening_of next hand)) }
        ensures again { (h : History) → KeepsExchanges row.now h →
            StandsFor result (reopened h (opening_of next hand)) }
        ensures replies { (h : History) (before : List Sent) → LowReplies row.now h before →
            LowReplies row.now (reopened h (opening_of next hand)) before }
        ensures between { IsBetweenLooks result }
        ensures row { row_of result ≡ row.now }
        ensures next { next_of result ≡ next }
        ensures last { last_of result ≡ 0 }
        ensures hand { hand_of result ≡ hand }
        ensures owes { owes result ≡ false }
        ensures up { is_down result ≡ false }
    {
        let (phase, hand) = match hand {
            Some(item) => (Phase::Passing { is_owed: false }, item),
            None => (Phase::Idle, no_item()),
        };
        LowProcess {
            row: *row,
            next,
            greeted: false,
            phase,
            hand,
            last: 0,
            word: 0,
            asking: Asking::Nothing,
        }
    }

    /// Makes its row coarse. All else is as before: it stands for what it stood for.
    pub fn make_coarse(&mut self)
        ensures same { self.new ≡ made_coarse self.old }
        ensures stands { (h : History) → StandsFor self.old h → StandsFor self.new h }
    {
        self.row.coarse = true;
    }

    /// The row of the session.
    pub fn row(&self) -> &SessionRow
        ensures { result.now ≡ row_of self.now }
    {
        &self.row
    }

    /// The number of the next message.
    pub fn next(&self) -> u64
        ensures { result ≡ next_of self.now }
    {
        self.next
    }

    /// A store has failed. It replies nothing from then on.
    pub fn is_down(&self) -> bool
        ensures { result ≡ is_down self.now }
    {
        matches!(self.phase, Phase::Down)
    }

    /// The next look takes its arrival, whatever it is.
    pub fn wants(&self) -> bool
        ensures { result ≡ is_idle self.now }
    {
        matches!(self.phase, Phase::Idle)
    }

    /// The moment of the last look, and 0 before one.
    pub fn last(&self) -> u64
        ensures { result ≡ last_of self.now }
    {
        self.last
    }

    // An acknowledgement is owed for the message in the hand.
    pub(crate) fn owes(&self) -> bool
        ensures { result ≡ owes self.now }
    {
        match &self.phase {
            Phase::Passing { is_owed } => *is_owed,
            _ => false,
        }
    }

    // A look with this arrival stores a message.
    fn will_store(&self, arrival: &Arrival) -> bool
        requires { IsLawful (arrival_of arrival.now) }
        ensures { result ≡ wants self.now (arrival_of arrival.now) }
    {
        match self.phase {
            Phase::Idle => match arrival {
                Arrival::Frame(frame) => {
                    is_storable(&self.row, self.greeted, frame)
                        && frame.number == self.next
                        && self.next < 1 << 48
                }
                _ => false,
            },
            _ => false,
        }
    }

    // The message that a look with this arrival stores.
    pub(crate) fn wanted<'a>(&self, arrival: &Arrival<'a>) -> Option<&'a Payload>
        requires { IsLawful (arrival_of arrival.now) }
        ensures { option_copied result ≡ message_in self.now (arrival_of arrival.now) }
    {
        match arrival {
            Arrival::Frame(frame) => {
                if self.will_store(arrival) {
                    Some(&frame.payload)
                } else {
                    None
                }
            }
            _ => None,
        }
    }

    // A look in Idle that takes a DATA frame which may be stored or repeated.
    fn take_message(&mut self, frame: &Frame, is_fault: bool, head: &mut LookHead) -> AskHead
        requires idle { self.old.phase ≡ Phase.Idle }
        requires asking { self.old.asking ≡ Asking.Nothing }
        requires nothing { head.old ≡ nothing_done }
        requires fit { is_fit self.old.row self.old.greeted frame.now ≡ true }
        requires number { frame.now.number < 2 ^ 48 }
        ensures step { StepBegins self.old self.new self.old.last self.old.word
            (Came frame.now) is_fault (ask_with self.old.row self.new head.new result) }
        ensures hand { HandBegins self.old self.new (Came frame.now) (ask_with self.old.row self.new head.new result) }
        ensures offers { is_down self.new ≡ false → number_offered self.new.next (hand_of self.new)
            ≡ number_offered self.old.next (hand_of self.old) }
        ensures row { self.new.row ≡ self.old.row }
        ensures last { self.new.last ≡ self.old.last }
        ensures word { self.new.word ≡ self.old.word }
        ensures lawful { IfSome head.new.reply IsLawfulReply }
    {
        let number = frame.number;
        if number > self.next {
            head.refuse(Refusal::Step, self.next);
            return AskHead::Done;
        }
        if number < self.next {
            self.asking = Asking::Average(number);
            return AskHead::Average;
        }
        if is_fault {
            self.phase = Phase::Down;
            head.refuse(Refusal::Device, 0);
            return AskHead::Done;
        }
        self.hand.number = number;
        self.hand.payload.set(frame.payload.as_slice());
        self.next += 1;
        self.phase = Phase::Passing { is_owed: true };
        head.taken = true;
        head.stored = Some(number);
        AskHead::Done
    }

    // A look in Idle that takes a frame.
    fn take(&mut self, frame: &Frame, is_fault: bool, head: &mut LookHead) -> AskHead
        requires idle { self.old.phase ≡ Phase.Idle }
        requires asking { self.old.asking ≡ Asking.Nothing }
        requires nothing { head.old ≡ nothing_done }
        requires lawful { HasNumber frame.now }
        ensures step { StepBegins self.old self.new self.old.last self.old.word
            (Came frame.now) is_fault (ask_with self.old.row self.new head.new result) }
        ensures hand { HandBegins self.old self.new (Came frame.now) (ask_with self.old.row self.new head.new result) }
        ensures offers { is_down self.new ≡ false → number_offered self.new.next (hand_of self.new)
            ≡ number_offered self.old.next (hand_of self.old) }
        ensures row { self.new.row ≡ self.old.row }
        ensures last { self.new.last ≡ self.old.last }
        ensures word { self.new.word ≡ self.old.word }
        ensures lawful { IfSome head.new.reply IsLawfulReply }
    {
        if is_storable(&self.row, self.greeted, frame) {
            return self.take_message(frame, is_fault, head);
        }
        match frame.kind {
            Kind::Hello => {
                if is_permitted(&self.row, frame) {
                    self.greeted = true;
                    head.answer(Reply::Welcome { number: self.next });
                } else {
                    self.greeted = false;
                    head.refuse(Refusal::Pair, 0);
                }
            }
            Kind::Data => {
                if !self.greeted || frame.session != self.row.id {
                    head.refuse(Refusal::Frame, 0);
                } else {
                    head.refuse(Refusal::Size, 0);
                }
            }
            _ => head.refuse(Refusal::Frame, 0),
        }
        AskHead::Done
    }

    // A look while a number waits to be acknowledged.
    fn wait(&mut self, number: u64, due: u64, is_gone: bool, head: &mut LookHead)
        requires waiting { self.old.phase ≡ Phase.Waiting number due }
        requires asking { self.old.asking ≡ Asking.Nothing }
        requires nothing { head.old ≡ nothing_done }
        ensures step { (arrival : Offered) (is_fault : Bool) → is_gone ≡ (gone arrival) →
            Stepped self.old.row (state_of self.old) self.new
            (look_of self.old.last self.old.word arrival is_fault head.new.feedback) (look_with self.old.row head.new) }
        ensures quiet { head.new.feedback ≡ Feedback.Quiet }
        ensures hand { hand_of self.new ≡ None }
        ensures next { self.new.next ≡ self.old.next }
        ensures stored { head.new.stored ≡ None }
        ensures row { self.new.row ≡ self.old.row }
        ensures last { self.new.last ≡ self.old.last }
        ensures word { self.new.word ≡ self.old.word }
        ensures lawful { IfSome head.new.reply IsLawfulReply }
    {
        if is_gone {
            self.greeted = false;
            self.phase = Phase::Idle;
            head.taken = true;
            return;
        }
        if self.last < due {
            return;
        }
        self.phase = Phase::Idle;
        head.reply = Some(Reply::Ack { number });
    }

    // The part of a look before the passage is asked.
    pub(crate) fn step(
        &mut self,
        moment: u64,
        word: u32,
        arrival: Arrival,
        is_fault: bool,
        head: &mut LookHead,
    ) -> AskHead
        requires asking { self.old.asking ≡ Asking.Nothing }
        requires moment { moment ≤ 2 ^ 62 }
        requires lawful { IsLawful (arrival_of arrival) }
        ensures step { StepBegins self.old self.new moment word
            (arrival_of arrival.entry) is_fault (ask_with self.old.row self.new head.new result) }
        ensures hand { HandBegins self.old self.new (arrival_of arrival.entry) (ask_with self.old.row self.new head.new
            result) }
        ensures offers { is_down self.new ≡ false → number_offered self.new.next (hand_of self.new)
            ≡ number_offered self.old.next (hand_of self.old) }
        ensures row { self.new.row ≡ self.old.row }
        ensures last { self.new.last ≡ moment }
        ensures word { self.new.word ≡ word }
        ensures lawful { IfSome head.new.reply IsLawfulReply }
    {
        head.clear();
        self.last = moment;
        self.word = word;
        match &self.phase {
            Phase::Down => AskHead::Done,
            Phase::Waiting { number, due } => {
                let (number, due) = (*number, *due);
                self.wait(number, due, arrival.is_gone(), head);
                AskHead::Done
            }
            Phase::Passing { .. } => {
                if arrival.is_gone() {
                    self.greeted = false;
                    self.phase = Phase::Passing { is_owed: false };
                    head.taken = true;
                    return AskHead::Done;
                }
                self.asking = Asking::Forward;
                AskHead::Forward
            }
            Phase::Idle => match arrival {
                Arrival::Nothing => AskHead::Done,
                Arrival::Bad => {
                    self.greeted = false;
                    head.refuse(Refusal::Frame, 0);
                    AskHead::Done
                }
                Arrival::Gone => {
                    self.greeted = false;
                    head.taken = true;
                    AskHead::Done
                }
                Arrival::Frame(frame) => self.take(frame, is_fault, head),
            },
        }
    }

    // The moment at which an acknowledgement is due that is decided in this look.
    fn due(&self, seen: Seen) -> u64
        requires { seen.average ≤ 10 ^ 9 }
        ensures { result
            ≡ self.now.last + delay_of seen.average self.now.word self.now.row.longest }
    {
        self.last + u64::from(delay(seen.average, self.word, self.row.longest))
    }

    // The rest of a look whose message the passage took.
    fn pass(&mut self, seen: Seen, head: &mut LookHead)
        requires asking { self.old.asking ≡ Asking.Nothing }
        requires nothing { head.old ≡ nothing_done }
        requires average { seen.average ≤ 10 ^ 9 }
        ensures step { (arrival : Offered) (is_fault : Bool) →
            Asks self.old.row (state_of self.old) arrival AsksForward →
            Stepped self.old.row (state_of self.old) self.new
            (look_of self.old.last self.old.word arrival is_fault head.new.feedback) (look_with self.old.row head.new) }
        ensures rest { EndsLook self.old self.new head.new }
        ensures asking { self.new.asking ≡ Asking.Nothing }
        ensures tells { Tells (owes self.old) (Answer.Passed seen) head.new.feedback }
    {
        if let Phase::Passing { is_owed: true } = &self.phase {
            let number = self.hand.number;
            let due = self.due(seen);
            self.phase = Phase::Waiting { number, due };
            head.feedback = Feedback::Passed(seen);
            return;
        }
        self.phase = Phase::Idle;
        head.feedback = Feedback::Released;
    }

    // The part of a look after the passage has answered.
    fn step_on(&mut self, answer: Answer, head: &mut LookHead)
        requires { IsAnswerTo self.old.asking answer }
        ensures step { (arrival : Offered) (is_fault : Bool) →
            Asks self.old.row (state_of self.old) arrival self.old.asking →
            Stepped self.old.row (state_of self.old) self.new
            (look_of self.old.last self.old.word arrival is_fault head.new.feedback) (look_with self.old.row head.new) }
        ensures rest { EndsLook self.old self.new head.new }
        ensures asking { self.new.asking ≡ Asking.Nothing }
        ensures tells { Tells (owes self.old) answer head.new.feedback }
    {
        head.clear();
        let asking = self.asking;
        self.asking = Asking::Nothing;
        match asking {
            Asking::Nothing => {}
            Asking::Average(number) => match answer {
                Answer::Average(seen) => {
                    let due = self.due(seen);
                    self.phase = Phase::Waiting { number, due };
                    head.taken = true;
                    head.feedback = Feedback::Repeat(seen);
                }
                _ => {}
            },
            Asking::Forward => match answer {
                Answer::Passed(seen) => self.pass(seen, head),
                _ => head.feedback = Feedback::Full,
            },
        }
    }

    /// As `finish`, into the look's head.
    pub fn finish_into(&mut self, answer: Answer, head: &mut LookHead)
        requires { AnswersTo self.old answer }
        ensures looks { (moment word : ℕ) (arrival : Offered) (is_fault : Bool) →
            Looks (λ h. AsksFor self.old h moment word arrival is_fault) self.new (row_of self.old)
            (look_of moment word arrival is_fault head.new.feedback) (look_with (row_of self.old) head.new) }
        ensures tells { Tells (owes self.old) answer head.new.feedback }
        ensures bounds { IsInBounds head.new.feedback }
        ensures reply { head.new.reply ≡ None }
        ensures stored { head.new.stored ≡ None }
        ensures hand { hand_of self.new ≡ hand_passed (hand_of self.old) head.new.feedback }
        ensures between { IsBetweenLooks self.new }
        ensures row { row_of self.new ≡ row_of self.old }
        ensures next { next_of self.new ≡ next_of self.old }
        ensures last { last_of self.new ≡ last_of self.old }
        ensures up { is_down self.new ≡ false }
    {
        self.step_on(answer, head)
    }

    // The frame of a reply, if there is one.
    fn frame_in(&self, reply: &Option<Reply>) -> Option<Frame>
        ensures value { result ≡ option_map (frame_of self.now.row.id) reply.now }
        ensures lawful { IfSome reply.now IsLawfulReply → IfSome result IsLawfulFrame }
    {
        match reply {
            Some(reply) => Some(reply.frame(self.row.id)),
            None => None,
        }
    }

    // The whole of the look's head.
    pub(crate) fn whole(&self, head: &LookHead) -> LowLook
        ensures value { result ≡ look_with self.now.row head.now }
        ensures lawful { IfSome head.now.reply IsLawfulReply → IfSome result.reply IsLawfulFrame }
    {
        LowLook {
            taken: head.taken,
            stored: head.stored,
            reply: self.frame_in(&head.reply),
            feedback: head.feedback,
        }
    }

    // The message in the hand.
    pub(crate) fn item(&self) -> &Item
        ensures { result.now ≡ item_in_hand self.now }
    {
        &self.hand
    }

    // The whole of what is asked.
    pub(crate) fn ask(&self, asked: AskHead, head: &LookHead) -> Ask
        ensures value { result ≡ ask_with self.now.row self.now head.now asked }
        ensures lawful { IfSome head.now.reply IsLawfulReply → IfSome (reply_in result) IsLawfulFrame }
    {
        match asked {
            AskHead::Done => Ask::Done(self.whole(head)),
            AskHead::Forward => Ask::Forward(*self.item()),
            AskHead::Average => Ask::Average,
        }
    }

    /// The rest of a look that asked. It replies nothing and stores nothing.
    pub fn finish(&mut self, answer: Answer) -> LowLook
        requires { AnswersTo self.old answer }
        ensures looks { (moment word : ℕ) (arrival : Offered) (is_fault : Bool) →
            Looks (λ h. AsksFor self.old h moment word arrival is_fault) self.new (row_of self.old)
            (look_of moment word arrival is_fault result.feedback) result }
        ensures tells { Tells (owes self.old) answer result.feedback }
        ensures bounds { IsInBounds result.feedback }
        ensures reply { result.reply ≡ None }
        ensures stored { result.stored ≡ None }
        ensures hand { hand_of self.new ≡ hand_passed (hand_of self.old) result.feedback }
        ensures between { IsBetweenLooks self.new }
        ensures row { row_of self.new ≡ row_of self.old }
        ensures next { next_of self.new ≡ next_of self.old }
        ensures last { last_of self.new ≡ last_of self.old }
        ensures up { is_down self.new ≡ false }
    {
        let mut head = LookHead::new();
        self.finish_into(answer, &mut head);
        self.whole(&head)
    }
}
