// The places within a frame, by what the next byte must be.
ghost use Rattle.std.specs.Prelude.{◌≡◌, ◌≤◌, ◌-◌, ◌==◌, ◌↔◌, IsTrue, if◌then◌else◌};
ghost use Rattle.pump_frame.specs.Places.{step, kind_of, at_rest, at_payload, at_name, IsLive};

use crate::frame::Kind;
use crate::name::is_plain;

/// What the next byte of a frame must be.
#[derive(Clone, Copy)]
pub(crate) enum Place {
    FirstMark,
    SecondMark,
    Version,
    KindByte,
    /// So many bytes of the session are left.
    Session { kind: Kind, left: u32 },
    NumberTop { kind: Kind },
    NumberSecond { kind: Kind },
    /// So many bytes of the number are left; with `zero` each of them must be zero.
    NumberRest { kind: Kind, left: u32, zero: bool },
    LengthHigh { kind: Kind },
    LengthLow { kind: Kind, high: u8 },
    /// So many bytes of a message are left, at least one.
    PayloadBytes { left: u32 },
    RefuseCode,
    /// So many bytes of the two names and the colon are left; so many of the low name were read.
    LowName { left: u32, read: u32 },
    /// So many bytes of the high name are left, at least one.
    HighName { left: u32 },
    /// The frame is whole.
    End,
}

pub(crate) fn kind_of(byte: u8) -> Option<Kind>
    ensures { result ≡ kind_of byte }
{
    match byte {
        1 => Some(Kind::Hello),
        2 => Some(Kind::Welcome),
        3 => Some(Kind::Data),
        4 => Some(Kind::Ack),
        5 => Some(Kind::Refuse),
        6 => Some(Kind::Attach),
        7 => Some(Kind::Taken),
        _ => None,
    }
}

/// After the number's second byte: 1 is the top of 2^48, behind which all is zero.
fn after_second(kind: Kind, byte: u8) -> Option<Place>
    ensures { result ≡ at_rest kind byte }
{
    let zero = match (kind, byte) {
        (Kind::Hello, 0) => true,
        (_, 0) => false,
        (Kind::Welcome | Kind::Refuse | Kind::Attach, 1) => true,
        _ => return None,
    };
    Some(Place::NumberRest {
        kind,
        left: 6,
        zero,
    })
}

fn after_rest(kind: Kind, left: u32, zero: bool, byte: u8) -> Option<Place>
    requires { 1 ≤ left }
    ensures { result ≡ step (Place.NumberRest kind left zero) byte }
{
    if zero && byte != 0 {
        return None;
    }
    if left == 1 {
        return Some(Place::LengthHigh { kind });
    }
    Some(Place::NumberRest {
        kind,
        left: left - 1,
        zero,
    })
}

fn after_length_high(kind: Kind, byte: u8) -> Option<Place>
    ensures { result ≡ step (Place.LengthHigh kind) byte }
{
    match (kind, byte) {
        (_, 0) | (Kind::Data, 1..=4) => Some(Place::LengthLow { kind, high: byte }),
        _ => None,
    }
}

/// The first place of a payload of this length.
fn payload(kind: Kind, length: u32) -> Option<Place>
    ensures { result ≡ at_payload kind length }
{
    match (kind, length) {
        (Kind::Hello, 3..=65) => Some(Place::LowName {
            left: length,
            read: 0,
        }),
        (Kind::Data, 1..=1024) => Some(Place::PayloadBytes { left: length }),
        (Kind::Refuse, 1) => Some(Place::RefuseCode),
        (Kind::Hello | Kind::Refuse, _) => None,
        (_, 0) => Some(Place::End),
        _ => None,
    }
}

/// A low name goes on while it has less than 32 bytes and a colon and a high name can follow; the
/// colon comes after 1 byte or more, where what is left is a name's length.
fn after_low_name(left: u32, read: u32, byte: u8) -> Option<Place>
    requires { IsLive (Place.LowName left read) }
    ensures { result ≡ at_name left read byte }
{
    if byte == b':' && read >= 1 && left <= 33 {
        return Some(Place::HighName { left: left - 1 });
    }
    if is_plain(byte) && read <= 31 && left >= 3 {
        return Some(Place::LowName {
            left: left - 1,
            read: read + 1,
        });
    }
    None
}

fn after_high_name(left: u32, byte: u8) -> Option<Place>
    requires { 1 ≤ left }
    ensures { result ≡ step (Place.HighName left) byte }
{
    if !is_plain(byte) {
        return None;
    }
    if left == 1 {
        return Some(Place::End);
    }
    Some(Place::HighName { left: left - 1 })
}

fn after_session(kind: Kind, left: u32) -> Place
    requires { 1 ≤ left }
    ensures { result ≡ (if left == 1 then Place.NumberTop kind else Place.Session kind (left - 1)) }
{
    if left == 1 {
        return Place::NumberTop { kind };
    }
    Place::Session {
        kind,
        left: left - 1,
    }
}

fn after_payload(left: u32) -> Place
    requires { 1 ≤ left }
    ensures { result ≡ (if left == 1 then Place.End else Place.PayloadBytes (left - 1)) }
{
    if left == 1 {
        return Place::End;
    }
    Place::PayloadBytes { left: left - 1 }
}

impl Place {
    pub(crate) fn is_end(self) -> bool
        ensures { IsTrue result ↔ (self ≡ Place.End) }
    {
        matches!(self, Place::End)
    }

    /// The place after one more byte; `None` where no frame goes on so.
    pub(crate) fn after(self, byte: u8) -> Option<Place>
        requires { IsLive self }
        ensures { result ≡ step self byte }
    {
        match self {
            Place::FirstMark => (byte == b'N').then_some(Place::SecondMark),
            Place::SecondMark => (byte == b'P').then_some(Place::Version),
            Place::Version => (byte == 1).then_some(Place::KindByte),
            Place::KindByte => {
                let kind = kind_of(byte)?;
                Some(Place::Session { kind, left: 4 })
            }
            Place::Session { kind, left } => Some(after_session(kind, left)),
            Place::NumberTop { kind } => (byte == 0).then_some(Place::NumberSecond { kind }),
            Place::NumberSecond { kind } => after_second(kind, byte),
            Place::NumberRest { kind, left, zero } => after_rest(kind, left, zero, byte),
            Place::LengthHigh { kind } => after_length_high(kind, byte),
            Place::LengthLow { kind, high } => payload(kind, high as u32 * 256 + byte as u32),
            Place::PayloadBytes { left } => Some(after_payload(left)),
            Place::RefuseCode => (byte >= 1 && byte <= 5).then_some(Place::End),
            Place::LowName { left, read } => after_low_name(left, read, byte),
            Place::HighName { left } => after_high_name(left, byte),
            Place::End => None,
        }
    }
}
