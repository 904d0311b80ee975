// The lines of a transcript.
ghost use Rattle.std.specs.Prelude.{◌≡◌, true};
ghost use Rattle.script_reader.specs.EventHeads.{event_of, has_head};

use pump_core::{Reply, Seen};
use pump_frame::{Frame, Payload};

/// A line of a transcript; `docs/formats.md`, "Transcripts", says when each comes. Moments and
/// times are in microseconds.
#[derive(Clone, Copy)]
pub enum Event {
    /// The low process stored a message.
    Stored {
        session: u32,
        moment: u64,
        number: u64,
    },
    /// The passage had no room for the message in the low hand.
    Full {
        session: u32,
        moment: u64,
    },
    /// The message in the low hand was passed, and its acknowledgement is owed.
    Passed {
        session: u32,
        moment: u64,
        seen: Seen,
    },
    /// The message in the low hand was passed, and nobody waits for its acknowledgement.
    Released {
        session: u32,
        moment: u64,
    },
    /// A message came that is stored already.
    Repeat {
        session: u32,
        moment: u64,
        seen: Seen,
    },
    /// The low process replied: a lawful WELCOME, ACK or REFUSE.
    Low {
        session: u32,
        moment: u64,
        reply: Frame,
    },
    /// The high process removed a message, and published the time that High took.
    Removed {
        session: u32,
        moment: u64,
        number: u64,
        time: Option<u32>,
    },
    /// The high process sent a message.
    Sent {
        session: u32,
        moment: u64,
        number: u64,
    },
    /// The receiver took a message.
    Took {
        session: u32,
        number: u64,
    },
    /// The receiver had the message already.
    Again {
        session: u32,
        number: u64,
    },
    /// The receiver was opened again, and attached with this count.
    Attach {
        session: u32,
        moment: u64,
        count: u64,
    },
    /// Both processes were opened again: how many messages were accepted and removed, and whether
    /// one is in the low hand.
    Restart {
        session: u32,
        moment: u64,
        accepted: u64,
        removed: u64,
        held: bool,
    },
    /// The end of the script: how many messages were accepted; `high` holds how many were removed
    /// and how many were taken by the receiver, and is `None` for a low side alone.
    End {
        session: u32,
        accepted: u64,
        high: Option<(u64, u64)>,
    },
    /// What the disks of a session are shown to stand for: how many messages were accepted, removed,
    /// and taken by the receiver.
    Show {
        session: u32,
        accepted: u64,
        removed: u64,
        received: u64,
    },
    /// A message on the disks of a session that are shown: it was accepted and is not removed.
    Live {
        session: u32,
        number: u64,
        payload: Payload,
    },
}

/// What a list of events holds where it has none yet.
impl Default for Event {
    fn default() -> Event {
        Event::Full {
            session: 0,
            moment: 0,
        }
    }
}

/// A line of a transcript that a script prints, as `Event`, with its reply in place of the frame.
#[derive(Clone, Copy)]
pub enum EventHead {
    Stored {
        session: u32,
        moment: u64,
        number: u64,
    },
    Full {
        session: u32,
        moment: u64,
    },
    Passed {
        session: u32,
        moment: u64,
        seen: Seen,
    },
    Released {
        session: u32,
        moment: u64,
    },
    Repeat {
        session: u32,
        moment: u64,
        seen: Seen,
    },
    Low {
        session: u32,
        moment: u64,
        reply: Reply,
    },
    Removed {
        session: u32,
        moment: u64,
        number: u64,
        time: Option<u32>,
    },
    Sent {
        session: u32,
        moment: u64,
        number: u64,
    },
    Took {
        session: u32,
        number: u64,
    },
    Again {
        session: u32,
        number: u64,
    },
    Attach {
        session: u32,
        moment: u64,
        count: u64,
    },
    Restart {
        session: u32,
        moment: u64,
        accepted: u64,
        removed: u64,
        held: bool,
    },
    End {
        session: u32,
        accepted: u64,
        high: Option<(u64, u64)>,
    },
}

/// What a list of events holds where it has none yet.
impl Default for EventHead {
    fn default() -> EventHead {
        EventHead::Full {
            session: 0,
            moment: 0,
        }
    }
}

impl EventHead {
    /// The event, whose reply is a frame of its session.
    pub fn event(&self) -> Event
        ensures { result ≡ event_of self.now }
    {
        match *self {
            EventHead::Stored {
                session,
                moment,
                number,
            } => Event::Stored {
                session,
                moment,
                number,
            },
            EventHead::Full { session, moment } => Event::Full { session, moment },
            EventHead::Passed {
                session,
                moment,
                seen,
            } => Event::Passed {
                session,
                moment,
                seen,
            },
            EventHead::Released { session, moment } => Event::Released { session, moment },
            EventHead::Repeat {
                session,
                moment,
                seen,
            } => Event::Repeat {
                session,
                moment,
                seen,
            },
            EventHead::Low {
                session,
                moment,
                reply,
            } => Event::Low {
                session,
                moment,
                reply: reply.frame(session),
            },
            EventHead::Removed {
                session,
                moment,
                number,
                time,
            } => Event::Removed {
                session,
                moment,
                number,
                time,
            },
            EventHead::Sent {
                session,
                moment,
                number,
            } => Event::Sent {
                session,
                moment,
                number,
            },
            EventHead::Took { session, number } => Event::Took { session, number },
            EventHead::Again { session, number } => Event::Again { session, number },
            EventHead::Attach {
                session,
                moment,
                count,
            } => Event::Attach {
                session,
                moment,
                count,
            },
            EventHead::Restart {
                session,
                moment,
                accepted,
                removed,
                held,
            } => Event::Restart {
                session,
                moment,
                accepted,
                removed,
                held,
            },
            EventHead::End {
                session,
                accepted,
                high,
            } => Event::End {
                session,
                accepted,
                high,
            },
        }
    }
}

impl Event {
    // The event where it has neither a frame nor a payload, and a script prints it.
    pub(crate) fn head(&self) -> EventHead
        requires { has_head self.now ≡ true }
        ensures { event_of result ≡ self.now }
    {
        match *self {
            Event::Stored {
                session,
                moment,
                number,
            } => EventHead::Stored {
                session,
                moment,
                number,
            },
            Event::Full { session, moment } => EventHead::Full { session, moment },
            Event::Passed {
                session,
                moment,
                seen,
            } => EventHead::Passed {
                session,
                moment,
                seen,
            },
            Event::Released { session, moment } => EventHead::Released { session, moment },
            Event::Repeat {
                session,
                moment,
                seen,
            } => EventHead::Repeat {
                session,
                moment,
                seen,
            },
            Event::Low { .. } | Event::Show { .. } | Event::Live { .. } => EventHead::default(),
            Event::Removed {
                session,
                moment,
                number,
                time,
            } => EventHead::Removed {
                session,
                moment,
                number,
                time,
            },
            Event::Sent {
                session,
                moment,
                number,
            } => EventHead::Sent {
                session,
                moment,
                number,
            },
            Event::Took { session, number } => EventHead::Took { session, number },
            Event::Again { session, number } => EventHead::Again { session, number },
            Event::Attach {
                session,
                moment,
                count,
            } => EventHead::Attach {
                session,
                moment,
                count,
            },
            Event::Restart {
                session,
                moment,
                accepted,
                removed,
                held,
            } => EventHead::Restart {
                session,
                moment,
                accepted,
                removed,
                held,
            },
            Event::End {
                session,
                accepted,
                high,
            } => EventHead::End {
                session,
                accepted,
                high,
            },
        }
    }
}
