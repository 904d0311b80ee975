// The low process of a record's life.
ghost use Rattle.std.specs.Prelude.{◌≡◌, ◌+◌, ◌^◌, ◌<◌, ◌≤◌, false, ◌&&◌, ◌==◌, IsTrue, IfSome, Option, Some, None};
ghost use Rattle.std.specs.Prelude.{option_map, if◌then◌else◌};
ghost use Rattle.pump_frame.specs.Frames.{IsLawful};
ghost use Rattle.pump_frame.specs.Rows.{IsLawfulRow};
ghost use Rattle.pump_core.specs.Exchanges.{permits_frame, is_fit, is_repeat, is_next, average_told, due};
ghost use Rattle.pump_core.specs.Replies.{refusal, answer_to};
ghost use Rattle.pump_core.specs.ReplyFrames.{frame_of};
ghost use Rattle.pump_core.specs.Step.{opened, after, taken, reply_at, reply_taken};
ghost use Rattle.script_reader.specs.Lawful.{IsLawfulFeedback};
ghost use Rattle.pump_audit.specs.Entries.{arrival_of, IsPlain};
ghost use Rattle.pump_audit.specs.Machine.{Lets, state_of, pair_in, of_nothing, of_release, of_offer, of_arrival};
ghost use Rattle.pump_audit.specs.Machine.{of_look, takes_all, begins_store, IsInBounds, stored, answered};
ghost use Rattle.pump_audit.specs.Records.{look_of};

use crate::entry::{LookLine, Offer, Offered};
use delay_table::delay;
use moving_avg::{down, is_level};
use pump_core::{Feedback, Refusal, Reply, Seen};
use pump_frame::{Frame, Kind, SessionRow};
use script_reader::ToldFeedback;

/// Where the process stands between two looks.
#[derive(Clone, Copy)]
pub(crate) enum Phase {
    Idle,
    /// A stored message is in the hand; its number, where an acknowledgement is owed.
    Passing { owed: Option<u64> },
    /// A message is acknowledged from the moment `due` on.
    Waiting { number: u64, due: u64 },
    /// A store failed.
    Down,
}

/// The process that makes a record's looks.
#[derive(Clone, Copy)]
pub(crate) struct Life {
    pub row: SessionRow,
    /// The number of the next message.
    pub next: u64,
    pub greeted: bool,
    pub phase: Phase,
    /// The moment of the last look, and 0 before one.
    pub last: u64,
}

// The pair that was read, if it is one that may come down.
fn pair_in(row: &SessionRow, told: &ToldFeedback) -> Option<Seen>
    ensures { result ≡ pair_in row.now told.now }
{
    match told {
        ToldFeedback::Pair { count, average } => {
            if row.coarse && !is_level(*average) {
                return None;
            }
            Some(Seen {
                count: *count,
                average: *average,
            })
        }
        ToldFeedback::Quiet | ToldFeedback::Full => None,
    }
}

// The feedback of a look that asks nothing of the passage.
fn of_nothing(told: &ToldFeedback) -> Option<Feedback>
    ensures { result ≡ of_nothing told.now }
{
    match told {
        ToldFeedback::Quiet => Some(Feedback::Quiet),
        ToldFeedback::Full | ToldFeedback::Pair { .. } => None,
    }
}

// The feedback of a look that offers a message which nobody waits for: a pair that tells of no time.
fn of_release(row: &SessionRow, count: u32, average: u32) -> Option<Feedback>
    ensures { result ≡ of_release row.now count average }
{
    if count == 0 && average == down(&row.averaging(), row.start) {
        Some(Feedback::Released)
    } else {
        None
    }
}

// The feedback of a look that offers a message.
fn of_offer(row: &SessionRow, owed: &Option<u64>, told: &ToldFeedback) -> Option<Feedback>
    ensures { result ≡ of_offer row.now owed.now told.now }
{
    match told {
        ToldFeedback::Full => Some(Feedback::Full),
        ToldFeedback::Quiet => None,
        ToldFeedback::Pair { count, average } => match owed {
            Some(_) => Some(Feedback::Passed(pair_in(row, told)?)),
            None => of_release(row, *count, *average),
        },
    }
}

// A refusal.
fn refuse(why: Refusal, number: u64) -> Reply
    ensures { result ≡ Reply.Refuse why number }
{
    Reply::Refuse { why, number }
}

// Whether the row permits this HELLO.
fn is_permitted(row: &SessionRow, frame: &Frame) -> bool
    requires kind { frame.now.kind ≡ Kind.Hello }
    requires lawful { IsLawful frame.now }
    ensures { result ≡ permits_frame row.now frame.now }
{
    let Some(names) = frame.names() else {
        return false;
    };
    let (own_low, own_high) = (row.low.as_slice(), row.high.as_slice());
    let is_low = names.0.as_slice() == own_low;
    let is_high = names.1.as_slice() == own_high;
    frame.session == row.id && is_low && is_high
}

// Whether a look took, or would take, a message that may be stored or repeated.
fn is_fit(row: &SessionRow, greeted: bool, frame: &Frame) -> bool
    ensures { result ≡ is_fit row.now greeted frame.now }
{
    matches!(frame.kind, Kind::Data)
        && greeted
        && frame.session == row.id
        && frame.payload.len() <= row.message
}

// The average that was told.
fn average_in(feedback: &Feedback) -> u32
    ensures { result ≡ average_told feedback.now }
{
    match feedback {
        Feedback::Passed(seen) | Feedback::Repeat(seen) => seen.average,
        _ => 0,
    }
}

impl Life {
    /// The process of a life that begins with this opening.
    pub fn open(row: &SessionRow, next: u64, is_held: bool) -> Life
        ensures state { state_of result ≡ opened (record { count = next; is_held = is_held }) }
        ensures row { result.row ≡ row.now }
        ensures last { result.last ≡ 0 }
    {
        let phase = if is_held {
            Phase::Passing { owed: None }
        } else {
            Phase::Idle
        };
        Life {
            row: *row,
            next,
            greeted: false,
            phase,
            last: 0,
        }
    }

    /// The feedback of the look that the line tells, if the look goes on with the life.
    pub fn feedback(&self, line: &LookLine) -> Option<Feedback>
        ensures some { IfSome result (λ f. Lets self.now.row (state_of self.now) self.now.last line.now f) }
        ensures only { (f : Feedback) → Lets self.now.row (state_of self.now) self.now.last line.now f
            → result ≡ Some f }
        ensures bounds { IsLawfulFeedback line.now.told → IfSome result IsInBounds }
    {
        if line.moment < self.last || !self.takes(&line.coming) {
            return None;
        }
        if line.is_fault && !self.begins_store(&line.coming) {
            return None;
        }
        self.of_look(line)
    }

    fn is_repeat(&self, frame: &Frame) -> bool
        ensures { result ≡ is_repeat self.now.row self.now.next self.now.greeted frame.now }
    {
        is_fit(&self.row, self.greeted, frame) && frame.number < self.next
    }

    fn is_next(&self, frame: &Frame) -> bool
        ensures value { result ≡ is_next self.now.row self.now.next self.now.greeted frame.now }
        ensures room { IsTrue result → self.now.next < 2 ^ 48 }
    {
        is_fit(&self.row, self.greeted, frame) && frame.number == self.next && self.next < 1 << 48
    }

    // The feedback of a look that may take what it is offered.
    fn of_arrival(&self, line: &LookLine) -> Option<Feedback>
        ensures { result ≡ of_arrival self.now.row (state_of self.now) (arrival_of line.now.coming) line.now.told }
    {
        match line.coming.offer() {
            Offer::Frame(frame) => {
                if self.is_repeat(frame) {
                    Some(Feedback::Repeat(pair_in(&self.row, &line.told)?))
                } else {
                    of_nothing(&line.told)
                }
            }
            Offer::Nothing | Offer::Bad | Offer::Gone => of_nothing(&line.told),
        }
    }

    // The feedback that the line tells, if a look may have it.
    fn of_look(&self, line: &LookLine) -> Option<Feedback>
        ensures { result ≡ of_look self.now.row (state_of self.now) (arrival_of line.now.coming) line.now.told
            (state_of self.now).phase }
    {
        match &self.phase {
            Phase::Down => None,
            Phase::Waiting { .. } => of_nothing(&line.told),
            Phase::Passing { owed } => {
                if line.coming.is_gone() {
                    of_nothing(&line.told)
                } else {
                    of_offer(&self.row, owed, &line.told)
                }
            }
            Phase::Idle => self.of_arrival(line),
        }
    }

    // Whether a look takes what the line offers it.
    fn takes(&self, coming: &Offered) -> bool
        ensures { result ≡ takes_all (arrival_of coming.now) (state_of self.now).phase }
    {
        matches!(self.phase, Phase::Idle) || coming.is_nothing() || coming.is_gone()
    }

    // Whether a look begins to store the message of its arrival.
    fn begins_store(&self, coming: &Offered) -> bool
        ensures { result ≡ begins_store self.now.row (state_of self.now) (arrival_of coming.now)
            (state_of self.now).phase }
    {
        match &self.phase {
            Phase::Idle => match coming.offer() {
                Offer::Frame(frame) => !self.is_repeat(frame) && self.is_next(frame),
                _ => false,
            },
            _ => false,
        }
    }

    // The moment at which an acknowledgement is due that is decided in this look.
    fn due(&self, line: &LookLine, feedback: &Feedback) -> u64
        requires moment { line.now.moment ≤ 2 ^ 62 }
        requires row { IsLawfulRow self.now.row }
        requires average { IsInBounds feedback.now }
        ensures { result ≡ due self.now.row (look_of line.now feedback.now) }
    {
        line.moment + u64::from(delay(average_in(feedback), line.word, self.row.longest))
    }

    // A look that stores the message of the frame, or fails to.
    fn store(&mut self, frame: &Frame, is_fault: bool) -> Option<Reply>
        requires idle { self.old.phase ≡ Phase.Idle }
        requires room { self.old.next < 2 ^ 48 }
        ensures state { state_of self.new ≡ stored (state_of self.old) frame.now.number is_fault }
        ensures reply { option_map (frame_of self.old.row.id) result
            ≡ (if is_fault then Some (refusal self.old.row 5 0) else None) }
        ensures row { self.new.row ≡ self.old.row }
        ensures last { self.new.last ≡ self.old.last }
    {
        if is_fault {
            self.phase = Phase::Down;
            return Some(refuse(Refusal::Device, 0));
        }
        self.next += 1;
        self.phase = Phase::Passing {
            owed: Some(frame.number),
        };
        None
    }

    // The answer to a DATA frame whose message is neither stored nor the next.
    fn answer_data(&self, frame: &Frame) -> Option<Reply>
        requires { frame.now.kind ≡ Kind.Data }
        ensures { option_map (frame_of self.now.row.id) result ≡ answer_to self.now.row self.now.next self.now.greeted
            frame.now }
    {
        if !self.greeted || frame.session != self.row.id {
            return Some(refuse(Refusal::Frame, 0));
        }
        if frame.payload.len() > self.row.message {
            return Some(refuse(Refusal::Size, 0));
        }
        if frame.number > self.next {
            return Some(refuse(Refusal::Step, self.next));
        }
        None
    }

    // A look that takes a frame which is neither stored nor repeated.
    fn answer(&mut self, frame: &Frame) -> Option<Reply>
        requires { IsLawful frame.now }
        ensures state { state_of self.new ≡ answered self.old.row (state_of self.old) frame.now }
        ensures reply { option_map (frame_of self.old.row.id) result
            ≡ answer_to self.old.row self.old.next self.old.greeted frame.now }
        ensures row { self.new.row ≡ self.old.row }
        ensures last { self.new.last ≡ self.old.last }
    {
        match frame.kind {
            Kind::Hello => {
                self.greeted = is_permitted(&self.row, frame);
                if self.greeted {
                    Some(Reply::Welcome { number: self.next })
                } else {
                    Some(refuse(Refusal::Pair, 0))
                }
            }
            Kind::Data => self.answer_data(frame),
            _ => Some(refuse(Refusal::Frame, 0)),
        }
    }

    // A look that takes a frame.
    fn take(&mut self, frame: &Frame, line: &LookLine, feedback: &Feedback) -> Option<Reply>
        requires idle { self.old.phase ≡ Phase.Idle }
        requires moment { line.now.moment ≤ 2 ^ 62 }
        requires row { IsLawfulRow self.old.row }
        requires average { IsInBounds feedback.now }
        requires frame { IsLawful frame.now }
        ensures state { state_of self.new ≡ taken self.old.row (state_of self.old) (look_of line.now feedback.now)
            frame.now }
        ensures reply { option_map (frame_of self.old.row.id) result ≡ reply_taken self.old.row (state_of self.old)
            (look_of line.now feedback.now) frame.now }
        ensures row { self.new.row ≡ self.old.row }
        ensures last { self.new.last ≡ self.old.last }
    {
        if self.is_repeat(frame) {
            let due = self.due(line, feedback);
            self.phase = Phase::Waiting {
                number: frame.number,
                due,
            };
            return None;
        }
        if self.is_next(frame) {
            return self.store(frame, line.is_fault);
        }
        self.answer(frame)
    }

    // A look while a number waits to be acknowledged.
    fn wait(&mut self, number: u64, due: u64, line: &LookLine) -> Option<Reply>
        requires { self.old.phase ≡ Phase.Waiting number due }
        ensures state { (f : Feedback)
            → state_of self.new ≡ after self.old.row (state_of self.old) (look_of line.now f) }
        ensures reply { (f : Feedback) → option_map (frame_of self.old.row.id) result
            ≡ reply_at self.old.row (state_of self.old) (look_of line.now f) }
        ensures row { self.new.row ≡ self.old.row }
        ensures last { self.new.last ≡ self.old.last }
    {
        if line.coming.is_gone() {
            self.greeted = false;
            self.phase = Phase::Idle;
            return None;
        }
        if line.moment < due {
            return None;
        }
        self.phase = Phase::Idle;
        Some(Reply::Ack { number })
    }

    // A look that begins with a message in the hand.
    fn pass(&mut self, owed: Option<u64>, line: &LookLine, feedback: &Feedback)
        requires phase { self.old.phase ≡ Phase.Passing owed }
        requires moment { line.now.moment ≤ 2 ^ 62 }
        requires row { IsLawfulRow self.old.row }
        requires average { IsInBounds feedback.now }
        ensures state { state_of self.new ≡ after self.old.row (state_of self.old) (look_of line.now feedback.now) }
        ensures row { self.new.row ≡ self.old.row }
        ensures last { self.new.last ≡ self.old.last }
    {
        if line.coming.is_gone() {
            self.greeted = false;
            self.phase = Phase::Passing { owed: None };
            return;
        }
        if matches!(feedback, Feedback::Full) {
            return;
        }
        self.phase = match owed {
            Some(number) => {
                let due = self.due(line, feedback);
                Phase::Waiting { number, due }
            }
            None => Phase::Idle,
        };
    }

    // A look that may take what it is offered.
    fn hear(&mut self, line: &LookLine, feedback: &Feedback) -> Option<Reply>
        requires idle { self.old.phase ≡ Phase.Idle }
        requires moment { line.now.moment ≤ 2 ^ 62 }
        requires row { IsLawfulRow self.old.row }
        requires average { IsInBounds feedback.now }
        requires plain { IsPlain line.now }
        ensures state { state_of self.new ≡ after self.old.row (state_of self.old) (look_of line.now feedback.now) }
        ensures reply { option_map (frame_of self.old.row.id) result
            ≡ reply_at self.old.row (state_of self.old) (look_of line.now feedback.now) }
        ensures row { self.new.row ≡ self.old.row }
        ensures last { self.new.last ≡ self.old.last }
    {
        match line.coming.offer() {
            Offer::Nothing => None,
            Offer::Bad => {
                self.greeted = false;
                Some(refuse(Refusal::Frame, 0))
            }
            Offer::Gone => {
                self.greeted = false;
                None
            }
            Offer::Frame(frame) => self.take(frame, line, feedback),
        }
    }

    /// Makes the look of this line, with this feedback, and answers its reply.
    pub fn step(&mut self, line: &LookLine, feedback: &Feedback) -> Option<Reply>
        requires moment { line.now.moment ≤ 2 ^ 62 }
        requires row { IsLawfulRow self.old.row }
        requires average { IsInBounds feedback.now }
        requires plain { IsPlain line.now }
        ensures state { state_of self.new ≡ after self.old.row (state_of self.old) (look_of line.now feedback.now) }
        ensures reply { option_map (frame_of self.old.row.id) result
            ≡ reply_at self.old.row (state_of self.old) (look_of line.now feedback.now) }
        ensures row { self.new.row ≡ self.old.row }
        ensures last { self.new.last ≡ line.now.moment }
    {
        self.last = line.moment;
        match self.phase {
            Phase::Down => None,
            Phase::Waiting { number, due } => self.wait(number, due, line),
            Phase::Passing { owed } => {
                self.pass(owed, line, feedback);
                None
            }
            Phase::Idle => self.hear(line, feedback),
        }
    }
}
