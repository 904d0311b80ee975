//! Tests of frames: their bytes, the place where bytes are no frame, and what a payload holds.

use arrayvec::ArrayVec;
use pump_frame::{Fed, Frame, Kind, Name, Payload, Reader, encode};
use std::process::Abort;

// Whether this frame of session 1 has these bytes.
fn writes(kind: Kind, number: u64, payload: &[u8], bytes: &[u8]) -> bool {
    let Some(payload) = Payload::from_slice(payload) else {
        return false;
    };
    let frame = Frame {
        kind,
        session: 1,
        number,
        payload,
    };
    if !frame.is_lawful() {
        return false;
    }
    let mut into = ArrayVec::new();
    encode(&frame, &mut into);
    into.as_slice() == bytes
}

fn last_answer(bytes: &[u8]) -> Fed {
    let mut reader = Reader::new();
    let mut last = Fed::More;
    for byte in bytes {
        last = reader.feed(*byte);
    }
    last
}

// Whether these bytes are read as this frame of session 1.
fn reads(kind: Kind, number: u64, payload: &[u8], bytes: &[u8]) -> bool {
    match last_answer(bytes) {
        Fed::Whole(frame) => {
            frame.kind == kind
                && frame.session == 1
                && frame.number == number
                && frame.payload.as_slice() == payload
        }
        _ => false,
    }
}

// Frames of session 1 by kind, number and payload, and the bytes of each.
const FRAMES: [(Kind, u64, &[u8], &[u8]); 6] = [
    (
        Kind::Hello,
        0,
        b"weather:watch",
        b"NP\x01\x01\0\0\0\x01\0\0\0\0\0\0\0\0\0\x0dweather:watch",
    ),
    (
        Kind::Welcome,
        1 << 48,
        b"",
        b"NP\x01\x02\0\0\0\x01\0\x01\0\0\0\0\0\0\0\0",
    ),
    (
        Kind::Data,
        0,
        b"a",
        b"NP\x01\x03\0\0\0\x01\0\0\0\0\0\0\0\0\0\x01a",
    ),
    (
        Kind::Ack,
        0,
        b"",
        b"NP\x01\x04\0\0\0\x01\0\0\0\0\0\0\0\0\0\0",
    ),
    (
        Kind::Refuse,
        1,
        b"\x04",
        b"NP\x01\x05\0\0\0\x01\0\0\0\0\0\0\0\x01\0\x01\x04",
    ),
    (
        Kind::Taken,
        0,
        b"",
        b"NP\x01\x07\0\0\0\x01\0\0\0\0\0\0\0\0\0\0",
    ),
];

#[test]
fn frames_have_their_bytes(rt: HostRuntime) {
    for (kind, number, payload, bytes) in FRAMES {
        let is_written = writes(kind, number, payload, bytes);
        assert!(rt;
            is_written && reads(kind, number, payload, bytes),
            "{kind:?}"
        );
    }
}

// The bad place that the last of these bytes is answered with.
fn bad_place(bytes: &[u8]) -> Option<u32> {
    match last_answer(bytes) {
        Fed::Bad { at } => Some(at),
        _ => None,
    }
}

// What is no frame, and the place at which it is none: the mark, an ACK of 2^48, a WELCOME above it, a
// DATA of 1,025 bytes, and a HELLO and a REFUSE whose payload is too short or is none.
const BAD: [(&[u8], u32); 10] = [
    (b"NQ", 1),
    (b"NQ\x01\x04", 1),
    (b"NP\x01\x04\0\0\0\x01\0\x01\0\0\0\0\0\0\0\0", 9),
    (b"NP\x01\x02\0\0\0\x01\0\x01\0\0\0\0\0\x01\0\0", 15),
    (b"NP\x01\x03\0\0\0\x01\0\0\0\0\0\0\0\0\x04\x01", 17),
    (b"NP\x01\x01\0\0\0\x01\0\0\0\0\0\0\0\0\0\x02", 17),
    (b"NP\x01\x05\0\0\0\x01\0\0\0\0\0\0\0\0\0\0", 17),
    (b"NP\x01\x01\0\0\0\x01\0\0\0\0\0\0\0\0\0\x03:", 18),
    (b"NP\x01\x05\0\0\0\x01\0\0\0\0\0\0\0\0\0\x01\x06", 18),
    (b"NP\x01\x01\0\0\0\x01\0\0\0\0\0\0\0\0\0\x03ab", 19),
];

#[test]
fn bad_places_are_where_no_frame_goes_on(rt: HostRuntime) {
    for (bytes, place) in BAD {
        assert_eq!(rt; bad_place(bytes), Some(place));
    }
}

// Whether more is wanted after each of these bytes.
fn want_more(reader: &mut Reader, bytes: &[u8]) -> bool {
    for byte in bytes {
        if !matches!(reader.feed(*byte), Fed::More) {
            return false;
        }
    }
    true
}

#[test]
fn the_longest_message_is_whole_at_its_last_byte(rt: HostRuntime) {
    let mut reader = Reader::new();
    let header = b"NP\x01\x03\0\0\0\x01\0\0\0\0\0\0\0\0\x04\0";
    assert!(rt; want_more(&mut reader, header));
    assert!(rt; want_more(&mut reader, &[7; 1023]));
    assert!(rt; !reader.is_between());
    assert!(rt; matches!(reader.feed(7), Fed::Whole(frame) if frame.payload.len() == 1024));
    assert!(rt; reader.is_between());
}

fn has_names(frame: &Frame, low: &[u8], high: &[u8]) -> bool {
    match frame.names() {
        Some((l, h)) => l.as_slice() == low && h.as_slice() == high,
        None => false,
    }
}

#[test]
fn a_hello_has_its_names(rt: HostRuntime) {
    let low = Name::from_slice(b"weather").expect(&rt, "a name");
    let high = Name::from_slice(b"watch").expect(&rt, "a name");
    assert!(rt; has_names(&Frame::hello(1, &low, &high), b"weather", b"watch"));
}

#[test]
fn a_payload_is_set_anew(rt: HostRuntime) {
    let mut payload = Payload::default();
    assert!(rt; payload.as_slice().is_empty());
    payload.set(b"longer");
    payload.set(b"ab");
    assert!(rt; payload.as_slice() == b"ab".as_slice());
    payload.set(b"abc");
    assert!(rt; payload.as_slice() == b"abc".as_slice() && payload.len() == 3);
}
