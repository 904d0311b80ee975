// What a look of the low process is offered, asks and does.
ghost use Rattle.std.specs.Prelude.{◌≡◌, true, Some};
ghost use Rattle.low_process.specs.Heads.{nothing_done};

use pump_core::{Feedback, Refusal, Reply, Seen};
use pump_frame::{Frame, Item};

/// What a look is offered.
#[derive(Clone, Copy)]
pub enum Arrival<'a> {
    Nothing,
    Frame(&'a Frame),
    /// Bytes that are no frame.
    Bad,
    /// The connection is gone.
    Gone,
}

/// What a look did.
#[derive(Clone, Copy)]
pub struct LowLook {
    /// The arrival was taken, and is not offered again.
    pub taken: bool,
    /// The number of the message that was stored.
    pub stored: Option<u64>,
    pub reply: Option<Frame>,
    pub feedback: Feedback,
}

/// The first half of a look: it is done, or the passage is to be asked.
#[derive(Clone, Copy)]
pub enum Ask {
    Done(LowLook),
    /// Whether the passage takes this message, which is in the hand.
    Forward(Item),
    /// What the average of High's times is.
    Average,
}

/// What the passage answered. An average is at most 10^9. `Passed` brings one in any case; it is
/// not used where no acknowledgement is owed, and then none needs to be read.
#[derive(Clone, Copy)]
pub enum Answer {
    Full,
    Passed(Seen),
    Average(Seen),
}

/// Where the low process stands between two looks.
#[derive(Clone, Copy)]
pub enum Phase {
    Idle,
    /// A stored message is in the hand, and its acknowledgement is owed or not. The message stands
    /// beside the phase, so that a change of phase moves no message.
    Passing { is_owed: bool },
    /// A message is acknowledged from the moment `due` on.
    Waiting { number: u64, due: u64 },
    /// The store failed.
    Down,
}

/// The question that is open.
#[derive(Clone, Copy)]
pub enum Asking {
    Nothing,
    Forward,
    /// The number of the message that came once more.
    Average(u64),
}

/// What a look did, as `LowLook`, with its reply in place of the frame.
#[derive(Clone, Copy)]
pub struct LookHead {
    /// The arrival was taken, and is not offered again.
    pub taken: bool,
    /// The number of the message that was stored.
    pub stored: Option<u64>,
    pub reply: Option<Reply>,
    pub feedback: Feedback,
}

impl LookHead {
    /// A look that did nothing yet.
    pub fn new() -> LookHead
        ensures { result ≡ nothing_done }
    {
        LookHead {
            taken: false,
            stored: None,
            reply: None,
            feedback: Feedback::Quiet,
        }
    }

    // Forgets the look before.
    pub(crate) fn clear(&mut self)
        ensures { self.new ≡ nothing_done }
    {
        self.taken = false;
        self.stored = None;
        self.reply = None;
        self.feedback = Feedback::Quiet;
    }

    // The arrival is taken, with this reply.
    pub(crate) fn answer(&mut self, reply: Reply)
        ensures { self.new ≡ record self.old { taken = true; reply = Some reply } }
    {
        self.taken = true;
        self.reply = Some(reply);
    }

    // The arrival is taken, and refused.
    pub(crate) fn refuse(&mut self, why: Refusal, number: u64)
        ensures { self.new ≡ record self.old { taken = true; reply = Some (Reply.Refuse why number) } }
    {
        self.answer(Reply::Refuse { why, number });
    }
}

/// The first half of a look, as `Ask`: what was done is in the look's head, and the message that is
/// offered in the hand.
#[derive(Clone, Copy)]
pub enum AskHead {
    Done,
    Forward,
    Average,
}
