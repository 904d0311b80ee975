// Lines without the bytes that come with them, which stand in a room of the caller's: a line with its
// bytes has more than 1 KB, and to move it costs more than to read it.
ghost use Rattle.std.specs.Prelude.{◌≡◌};
ghost use Rattle.script_reader.specs.Heads.{arriving_with, act_with, line_with, bytes_in, bytes_of, CanHold};
ghost use Rattle.script_reader.specs.Heads.{CanHoldAct, CanHoldLine};

use crate::line::{Arriving, Line, ToldFeedback};
use arrayvec::ArrayVec;
use pump_frame::{Name, Payload, SessionRow};

/// What comes before a look, as `Arriving`, without the bytes.
#[derive(Clone, Copy)]
pub enum ArrivingHead {
    Nothing,
    Hello { low: Name, high: Name },
    /// The bytes are the payload.
    Data { number: u64 },
    /// The bytes are those for the reader of frames.
    Raw,
}

/// What a line does at its moment, without the bytes. Each is the line of `Line` that has its name.
#[derive(Clone, Copy)]
pub enum Act {
    Look {
        word: u32,
        arrival: ArrivingHead,
    },
    Told {
        word: u32,
        fault: bool,
        feedback: ToldFeedback,
        arrival: ArrivingHead,
    },
    Step {
        word: u32,
    },
    Gone,
    High,
    Return {
        back: u64,
    },
    Done {
        time: u32,
    },
    Restart,
    ReceiverRestart,
}

/// A line of a script, as `Line`, without the bytes.
#[derive(Clone, Copy)]
pub enum LineHead {
    Skip,
    Session(SessionRow),
    LowSession {
        row: SessionRow,
        next: u64,
        held: bool,
    },
    Coarse {
        session: u32,
    },
    Carry {
        session: u32,
        back: u64,
    },
    /// Any line that has a moment.
    At {
        session: u32,
        moment: u64,
        act: Act,
    },
}

/// What comes next in a script, as `Lined`, without the bytes.
#[derive(Clone, Copy)]
pub enum LinedHead {
    Line(LineHead),
    Bad,
    End,
    Failed,
}

impl ArrivingHead {
    /// What comes, with these bytes.
    fn with(&self, bytes: &[u8]) -> Arriving
        requires { CanHold self.now bytes.now }
        ensures { result ≡ arriving_with bytes.now self.now }
    {
        match self {
            ArrivingHead::Nothing => Arriving::Nothing,
            ArrivingHead::Hello { low, high } => Arriving::Hello {
                low: *low,
                high: *high,
            },
            ArrivingHead::Data { number } => Arriving::Data {
                number: *number,
                payload: Payload::from_slice(bytes).unwrap(),
            },
            ArrivingHead::Raw => {
                let mut raw = ArrayVec::new();
                raw.try_extend_from_slice(bytes).unwrap();
                Arriving::Raw(raw)
            }
        }
    }
}

impl Act {
    /// The line of this session and moment with these bytes.
    fn with(&self, session: u32, moment: u64, bytes: &[u8]) -> Line
        requires { CanHoldAct self.now bytes.now }
        ensures { result ≡ act_with bytes.now session moment self.now }
    {
        match *self {
            Act::Look { word, ref arrival } => Line::Look {
                session,
                moment,
                word,
                arrival: arrival.with(bytes),
            },
            Act::Told {
                word,
                fault,
                feedback,
                ref arrival,
            } => Line::Told {
                session,
                moment,
                word,
                fault,
                feedback,
                arrival: arrival.with(bytes),
            },
            Act::Step { word } => Line::Step {
                session,
                moment,
                word,
            },
            Act::Gone => Line::Gone { session, moment },
            Act::High => Line::High { session, moment },
            Act::Return { back } => Line::Return {
                session,
                moment,
                back,
            },
            Act::Done { time } => Line::Done {
                session,
                moment,
                time,
            },
            Act::Restart => Line::Restart { session, moment },
            Act::ReceiverRestart => Line::ReceiverRestart { session, moment },
        }
    }
}

impl LineHead {
    /// The line with these bytes.
    pub fn with(&self, bytes: &[u8]) -> Line
        requires { CanHoldLine self.now bytes.now }
        ensures { result ≡ line_with bytes.now self.now }
    {
        match *self {
            LineHead::Skip => Line::Skip,
            LineHead::Session(row) => Line::Session(row),
            LineHead::LowSession { row, next, held } => Line::LowSession { row, next, held },
            LineHead::Coarse { session } => Line::Coarse { session },
            LineHead::Carry { session, back } => Line::Carry { session, back },
            LineHead::At {
                session,
                moment,
                ref act,
            } => act.with(session, moment, bytes),
        }
    }
}

impl Arriving {
    /// What comes, without the bytes.
    fn head(&self) -> ArrivingHead
        ensures value { arriving_with (bytes_in self.now) result ≡ self.now }
        ensures room { CanHold result (bytes_in self.now) }
    {
        match self {
            Arriving::Nothing => ArrivingHead::Nothing,
            Arriving::Hello { low, high } => ArrivingHead::Hello {
                low: *low,
                high: *high,
            },
            Arriving::Data { number, payload } => {
                // A payload has at most 1024 bytes.
                let _length = payload.len();
                ArrivingHead::Data { number: *number }
            }
            Arriving::Raw(bytes) => {
                let _length = bytes.len();
                ArrivingHead::Raw
            }
        }
    }

    /// The bytes that come.
    fn bytes(&self) -> &[u8]
        ensures { result.now ≡ bytes_in self.now }
    {
        match self {
            Arriving::Data { payload, .. } => payload.as_slice(),
            Arriving::Raw(bytes) => bytes.as_slice(),
            Arriving::Nothing | Arriving::Hello { .. } => &[],
        }
    }
}

/// The head of a line that has a moment.
fn at(session: u32, moment: u64, act: Act) -> LineHead
    ensures { result ≡ LineHead.At session moment act }
{
    LineHead::At {
        session,
        moment,
        act,
    }
}

impl Line {
    /// The line without the bytes that come with it.
    pub fn head(&self) -> LineHead
        ensures value { line_with (bytes_of self.now) result ≡ self.now }
        ensures room { CanHoldLine result (bytes_of self.now) }
    {
        match *self {
            Line::Skip => LineHead::Skip,
            Line::Session(row) => LineHead::Session(row),
            Line::LowSession { row, next, held } => LineHead::LowSession { row, next, held },
            Line::Coarse { session } => LineHead::Coarse { session },
            Line::Carry { session, back } => LineHead::Carry { session, back },
            Line::Look {
                session,
                moment,
                word,
                ref arrival,
            } => {
                let arrival = arrival.head();
                at(session, moment, Act::Look { word, arrival })
            }
            Line::Told {
                session,
                moment,
                word,
                fault,
                feedback,
                ref arrival,
            } => {
                let told = Act::Told {
                    word,
                    fault,
                    feedback,
                    arrival: arrival.head(),
                };
                at(session, moment, told)
            }
            Line::Step {
                session,
                moment,
                word,
            } => at(session, moment, Act::Step { word }),
            Line::Gone { session, moment } => at(session, moment, Act::Gone),
            Line::High { session, moment } => at(session, moment, Act::High),
            Line::Return {
                session,
                moment,
                back,
            } => at(session, moment, Act::Return { back }),
            Line::Done {
                session,
                moment,
                time,
            } => at(session, moment, Act::Done { time }),
            Line::Restart { session, moment } => at(session, moment, Act::Restart),
            Line::ReceiverRestart { session, moment } => at(session, moment, Act::ReceiverRestart),
        }
    }

    /// The bytes that come with the line.
    pub fn bytes(&self) -> &[u8]
        ensures { result.now ≡ bytes_of self.now }
    {
        match self {
            Line::Look { arrival, .. } => arrival.bytes(),
            Line::Told { arrival, .. } => arrival.bytes(),
            _ => &[],
        }
    }
}
