//! The replies of the low process, and why it refuses a frame.

ghost use Rattle.std.specs.Prelude.{◌≡◌, ◌≤◌, [], ◌∷◌};
ghost use Rattle.pump_frame.specs.Frames.{IsLawful};
ghost use Rattle.pump_core.specs.ReplyFrames.{code_of, frame_of, IsLawfulReply};

use pump_frame::{Frame, Kind, Payload};

/// Why the low process refuses a frame.
#[derive(Clone, Copy, PartialEq, Eq, Debug)]
pub enum Refusal {
    /// The greeting names another session or other parties than the row.
    Pair,
    /// The bytes are no frame, or this frame may not come now.
    Frame,
    /// The message is longer than the session's message size.
    Size,
    /// The number is too high.
    Step,
    /// The message couldn't be stored.
    Device,
}

impl Refusal {
    /// The code in the frame, from 1 to 5.
    pub fn code(self) -> u8
        ensures value { result ≡ code_of self }
        ensures from { 1 ≤ result }
        ensures to { result ≤ 5 }
    {
        match self {
            Refusal::Pair => 1,
            Refusal::Frame => 2,
            Refusal::Size => 3,
            Refusal::Step => 4,
            Refusal::Device => 5,
        }
    }
}

/// A reply of the low process: its frame without the session, which is always the row's. A frame
/// has room for 1,024 bytes, and a reply has at most one, so this is what is moved about.
#[derive(Clone, Copy, PartialEq, Eq, Debug)]
pub enum Reply {
    /// How many messages are stored.
    Welcome { number: u64 },
    Ack { number: u64 },
    Refuse { why: Refusal, number: u64 },
}

// A frame without a payload.
fn without_payload(session: u32, kind: Kind, number: u64) -> Frame
    ensures { result ≡ record { kind = kind; session = session; number = number; payload = [] } }
{
    Frame {
        kind,
        session,
        number,
        payload: Payload::from_slice(&[]).unwrap(),
    }
}

// A refusal with this code.
fn with_code(session: u32, code: u8, number: u64) -> Frame
    ensures { result ≡ record { kind = Kind.Refuse; session = session; number = number; payload = code ∷ [] } }
{
    Frame {
        kind: Kind::Refuse,
        session,
        number,
        payload: Payload::from_slice(&[code]).unwrap(),
    }
}

impl Reply {
    /// The frame of the reply in this session.
    pub fn frame(&self, session: u32) -> Frame
        ensures value { result ≡ frame_of session self.now }
        ensures lawful { IsLawfulReply self.now → IsLawful result }
    {
        match self {
            Reply::Welcome { number } => without_payload(session, Kind::Welcome, *number),
            Reply::Ack { number } => without_payload(session, Kind::Ack, *number),
            Reply::Refuse { why, number } => with_code(session, why.code(), *number),
        }
    }
}
