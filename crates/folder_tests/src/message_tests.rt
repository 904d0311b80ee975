//! Tests of the messages of files: their bytes, and what a receiver answers to them.

ghost use Rattle.std.specs.Prelude.{◌≤◌};

use file_messages::{Assembly, Cause, FileName, Step, put_abandon, put_end, put_start};
use pump_frame::Payload;

// The file `a.txt` with `hello, world`.
pub const START: &[u8] = b"\x02\x01\0\0\0\0\0\0\0\x0ca.txt";

pub const PIECE: &[u8] = b"\0hello, world";

pub const END: &[u8] =
    b"\x03\x09\xca\x7e\x4e\xaa\x6e\x8a\xe9\xc7\xd2\x61\x16\x71\x29\x18\x48\x83\x64\x4d\x07\xdf\xba\x7c\xbf\xbc\x4c\
    \x8a\x2e\x08\x36\x0d\x5b";

// The empty file `e`.
pub const EMPTY_START: &[u8] = b"\x02\x01\0\0\0\0\0\0\0\0e";

pub const EMPTY_END: &[u8] =
    b"\x03\xe3\xb0\xc4\x42\x98\xfc\x1c\x14\x9a\xfb\xf4\xc8\x99\x6f\xb9\x24\x27\xae\x41\xe4\x64\x9b\x93\x4c\xa4\x95\
    \x99\x1b\x78\x52\xb8\x55";

const ABANDON: &[u8] = b"\x04";

// Messages one behind the other, and the answer to each.
const MESSAGES: [(&[u8], Step); 39] = [
    (START, Step::Started),
    (PIECE, Step::Grown),
    (END, Step::Whole),
    (EMPTY_START, Step::Started),
    (EMPTY_END, Step::Whole),
    (EMPTY_END, Step::Odd),
    (PIECE, Step::Odd),
    (ABANDON, Step::Odd),
    (b"", Step::Odd),
    (b"\x05", Step::Odd),
    (b"\x01\0\0\0\0\0\0\0\x0c", Step::Odd),
    // In pieces of one byte and more.
    (START, Step::Started),
    (b"\0h", Step::Grown),
    (b"\0ello, world", Step::Grown),
    (END, Step::Whole),
    // Given up, and what stands in its place.
    (START, Step::Started),
    (ABANDON, Step::Dropped(Cause::Abandoned)),
    (START, Step::Started),
    (b"\x04\x04", Step::Dropped(Cause::Unknown)),
    (START, Step::Started),
    (b"\0", Step::Dropped(Cause::Unknown)),
    // Another file begins.
    (START, Step::Started),
    (START, Step::Dropped(Cause::Begun)),
    // Too many bytes, too few, and others.
    (START, Step::Started),
    (b"\0hello, world!", Step::Dropped(Cause::TooLong)),
    (START, Step::Started),
    (b"\0hello, worl", Step::Grown),
    (END, Step::Dropped(Cause::TooShort)),
    (START, Step::Started),
    (b"\0hello, World", Step::Grown),
    (END, Step::Dropped(Cause::Digest)),
    // Other versions, sizes and names.
    (b"\x02\x02\0\0\0\0\0\0\0\x0ca.txt", Step::Odd),
    (b"\x02\x01\0\x01\0\0\0\0\0\0a.txt", Step::Odd),
    (b"\x02\x01\0\0\0\0\0\0\0\x0c", Step::Odd),
    (b"\x02\x01\0\0\0\0\0\0\0\x0c..", Step::Odd),
    (b"\x02\x01\0\0\0\0\0\0\0\x0c/x", Step::Odd),
    (b"\x02\x01\0\0\0\0\0\0\0\x0c-rf", Step::Odd),
    (b"\x02\x01\0\0\0\0\0\0\0\x0ca~1", Step::Odd),
    (
        b"\x02\x01\0\0\xff\xff\xff\xff\xff\xffA b._-+,=@%()",
        Step::Started,
    ),
];

// The first message that is answered otherwise.
fn first_other(messages: &[(&[u8], Step)]) -> Option<usize> {
    let mut assembly = Assembly::new();
    for (index, (message, answer)) in messages.iter().enumerate() {
        if assembly.step(message) != *answer {
            return Some(index);
        }
    }
    None
}

// Whether a file begins whose name has so many bytes.
fn begins(length: usize) -> bool
    requires { length ≤ 129 }
{
    let mut message = [b'a'; 139];
    message[..10].copy_from_slice(b"\x02\x01\0\0\0\0\0\0\0\x01");
    Assembly::new().step(&message[..10 + length]) == Step::Started
}

// Whether the messages of `a.txt` are spelled as above.
fn are_spelled() -> bool {
    let Some(name) = FileName::parse(b"a.txt") else {
        return false;
    };
    let mut digest = [0; 32];
    digest.copy_from_slice(&END[1..]);
    let mut start = Payload::default();
    put_start(&name, 12, &mut start);
    let mut end = Payload::default();
    put_end(&digest, &mut end);
    let mut abandon = Payload::default();
    put_abandon(&mut abandon);
    start.as_slice() == START && end.as_slice() == END && abandon.as_slice() == ABANDON
}

#[test]
fn messages_are_written_and_answered(rt: HostRuntime) {
    assert!(rt; are_spelled());
    assert_eq!(rt; first_other(&MESSAGES), None);
    assert!(rt; begins(1) && begins(128) && !begins(129));
}
