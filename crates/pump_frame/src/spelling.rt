// The bytes of a frame.
ghost use Rattle.std.specs.Prelude.{◌≡◌};
ghost use Rattle.pump_frame.specs.Frames.{IsLawful};
ghost use Rattle.pump_frame.specs.Spellings.{kind_byte, header_of, frame_of, spelling};

use crate::frame::{Frame, Kind};
use crate::payload::Payload;
use arrayvec::ArrayVec;
use byteorder::{BigEndian, ByteOrder};

fn kind_byte(kind: Kind) -> u8
    ensures { result ≡ kind_byte kind }
{
    match kind {
        Kind::Hello => 1,
        Kind::Welcome => 2,
        Kind::Data => 3,
        Kind::Ack => 4,
        Kind::Refuse => 5,
        Kind::Attach => 6,
        Kind::Taken => 7,
    }
}

/// What stands before the payload.
fn header(kind: Kind, session: u32, number: u64, length: u16) -> [u8; 18]
    ensures { result ≡ header_of kind session number length }
{
    let mut bytes = [0; 18];
    bytes[0] = b'N';
    bytes[1] = b'P';
    bytes[2] = 1;
    bytes[3] = kind_byte(kind);
    BigEndian::write_u32(&mut bytes[4..], session);
    BigEndian::write_u64(&mut bytes[8..], number);
    BigEndian::write_u16(&mut bytes[16..], length);
    bytes
}

/// The bytes of the frame of these parts (`docs/formats.md`, "Frames"), which are read where they
/// lie. `into` then holds these bytes alone.
pub fn encode_parts(
    kind: Kind,
    session: u32,
    number: u64,
    payload: &Payload,
    into: &mut ArrayVec<u8, 1042>,
)
    ensures { into.new.items ≡ spelling (frame_of kind session number payload.now) }
{
    let payload = payload.as_slice();
    let header = header(kind, session, number, payload.len() as u16);
    into.clear();
    into.try_extend_from_slice(&header).unwrap();
    into.try_extend_from_slice(payload).unwrap();
}

/// The frame's bytes, as `encode_parts` gives them.
pub fn encode(frame: &Frame, into: &mut ArrayVec<u8, 1042>)
    requires { IsLawful frame.now }
    ensures { into.new.items ≡ spelling frame.now }
{
    encode_parts(
        frame.kind,
        frame.session,
        frame.number,
        &frame.payload,
        into,
    );
}
