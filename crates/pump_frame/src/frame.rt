// Frames and messages, and which frames are lawful.
ghost use Rattle.std.specs.Prelude.{◌≡◌, ◌↔◌, ◌<◌, ◌≢◌, ℕ, length, slice_index, IsTrue, IsSome, IsNone, IfSome};
ghost use Rattle.pump_frame.specs.Names.{IsName};
ghost use Rattle.pump_frame.specs.Frames.{IsLawful, IsForm, AreNames, IsCode, greeting};

use crate::name::Name;
use crate::payload::Payload;
use arrayvec::ArrayVec;

/// What a frame says.
#[derive(Clone, Copy, PartialEq, Eq, Debug)]
pub enum Kind {
    /// Low names itself and its high party.
    Hello,
    /// The answer to a HELLO: how many messages were accepted so far.
    Welcome,
    /// A message, from Low to the relay and from the relay to High.
    Data,
    /// Low's message is stored.
    Ack,
    /// A frame of Low was not taken; its one payload byte says why.
    Refuse,
    /// High's receiver says how many messages it has.
    Attach,
    /// High's receiver has the message.
    Taken,
}

/// One frame. Which frames are lawful is told by `docs/formats.md`, "Frames".
#[derive(Clone, Copy)]
pub struct Frame {
    pub kind: Kind,
    pub session: u32,
    pub number: u64,
    pub payload: Payload,
}

/// A message with its number, counted from 0 in its session.
#[derive(Clone, Copy, Default)]
pub struct Item {
    pub number: u64,
    pub payload: Payload,
}

/// Every message has a number below this one.
const LIMIT: u64 = 1 << 48;

/// The place of the first colon.
fn colon_in(bytes: &[u8]) -> Option<usize>
    ensures found { IfSome result (λ i. (i < length bytes.now) × (slice_index bytes.now i ≡ 58)) }
    ensures first { IfSome result (λ i. (k : ℕ) → k < i → slice_index bytes.now k ≢ 58) }
    ensures none { IsNone result → (k : ℕ) → k < length bytes.now → slice_index bytes.now k ≢ 58 }
{
    bytes.iter().position(|b| *b == b':')
}

/// The two names of a HELLO's payload.
fn names_in(bytes: &[u8]) -> Option<(Name, Name)>
    ensures some { IsSome result ↔ AreNames bytes.now }
    ensures value { IfSome result (λ names. bytes.now ≡ greeting names.0 names.1) }
    ensures are { IfSome result (λ names. IsName names.0 × IsName names.1) }
{
    let colon = colon_in(bytes)?;
    let low = Name::from_slice(&bytes[..colon])?;
    let high = Name::from_slice(&bytes[colon + 1..])?;
    Some((low, high))
}

fn is_code(bytes: &[u8]) -> bool
    ensures { IsTrue result ↔ IsCode bytes.now }
{
    matches!(bytes, [1..=5])
}

/// Whether a frame of this kind may have this number and this payload.
fn has_form(kind: Kind, number: u64, payload: &[u8]) -> bool
    ensures { IsTrue result ↔ IsForm kind number payload.now }
{
    match kind {
        Kind::Hello => number == 0 && names_in(payload).is_some(),
        Kind::Welcome | Kind::Attach => number <= LIMIT && payload.is_empty(),
        Kind::Data => number < LIMIT && payload.len() <= 1024,
        Kind::Ack | Kind::Taken => number < LIMIT && payload.is_empty(),
        Kind::Refuse => number <= LIMIT && is_code(payload),
    }
}

impl Frame {
    ghost use Rattle.pump_frame.specs.declared.frame.Kind.TheVariants.{Hello};

    /// Whether the frame has the form of its kind (`docs/formats.md`, "Frames").
    pub fn is_lawful(&self) -> bool
        ensures { IsTrue result ↔ IsLawful self.now }
    {
        // Every session is lawful.
        let _session = self.session;
        has_form(self.kind, self.number, self.payload.as_slice())
    }

    /// The low and the high name of a lawful HELLO; `None` exactly where it is no such frame.
    pub fn names(&self) -> Option<(Name, Name)>
        ensures some { IsSome result ↔ (self.now.kind ≡ Hello) × IsLawful self.now }
        ensures value { IfSome result (λ names. self.now.payload ≡ greeting names.0 names.1) }
        ensures are { IfSome result (λ names. IsName names.0 × IsName names.1) }
    {
        if self.kind != Kind::Hello || !self.is_lawful() {
            return None;
        }
        names_in(self.payload.as_slice())
    }

    /// A lawful frame without a payload, as a room that frames are read into.
    pub fn room() -> Frame
        ensures { IsLawful result }
    {
        Frame {
            kind: Kind::Ack,
            session: 0,
            number: 0,
            payload: Payload::default(),
        }
    }

    /// The HELLO of a session with these names.
    pub fn hello(session: u32, low: &Name, high: &Name) -> Frame
        ensures kind { result.kind ≡ Hello }
        ensures session { result.session ≡ session }
        ensures number { result.number ≡ 0 }
        ensures payload { result.payload ≡ greeting low.now high.now }
        ensures lawful { IsLawful result }
    {
        let mut bytes: ArrayVec<u8, 65> = ArrayVec::new();
        bytes.try_extend_from_slice(low.as_slice()).unwrap();
        bytes.push(b':');
        bytes.try_extend_from_slice(high.as_slice()).unwrap();
        Frame {
            kind: Kind::Hello,
            session,
            number: 0,
            payload: Payload::from_slice(bytes.as_slice()).unwrap(),
        }
    }
}
