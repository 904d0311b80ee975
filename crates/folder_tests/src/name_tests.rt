//! Tests of the names of files: those of marked ones are spelled and read, and others are no marks.

ghost use Rattle.std.specs.Prelude.{◌^◌, ◌<◌};
ghost use Rattle.folders.specs.Marks.{HasNumbers};

use file_messages::FileName;
use folders::{Mark, Stage, numbered_name};

// The SHA-256 of `hello, world`.
const DIGEST: &[u8; 32] =
    b"\x09\xca\x7e\x4e\xaa\x6e\x8a\xe9\xc7\xd2\x61\x16\x71\x29\x18\x48\x83\x64\x4d\x07\xdf\xba\x7c\xbf\xbc\x4c\x8a\
    \x2e\x08\x36\x0d\x5b";

// The names of `a.txt` with that text, in session 1.
const FRESH: &[u8] = b".np-1-f-a.txt";

const SENDING: &[u8] =
    b".np-1-s-0-1024-12-09ca7e4eaa6e8ae9c7d261167129184883644d07dfba7cbfbc4c8a2e08360d5b-a.txt";

const STOPPED: &[u8] = b".np-1-a-0-a.txt";

// What is no name of a marked file in session 1.
const OTHERS: [&[u8]; 20] = [
    b"",
    b"a.txt",
    b".np-1",
    b".np-1-f",
    b".np-1-f-",
    b".np-1-f-..",
    b".np-1-f-a~1",
    b".np-1-x-a.txt",
    b".np-2-f-a.txt",
    b".np-01-f-a.txt",
    b".np-4294967297-f-a.txt",
    b".NP-1-f-a.txt",
    b".np-1-a-a.txt",
    b".np-1-a-00-a.txt",
    b".np-1-a-+0-a.txt",
    b".np-1-a-281474976710656-a.txt",
    b".np-1-a-18446744073709551616-a.txt",
    b".np-1-s-0-1024-12-09ca-a.txt",
    b".np-1-s-0-1025-12-09ca7e4eaa6e8ae9c7d261167129184883644d07dfba7cbfbc4c8a2e08360d5b-a.txt",
    b".np-1-s-0-1024-12-09CA7E4EAA6E8AE9C7D261167129184883644D07DFBA7CBFBC4C8A2E08360D5B-a.txt",
];

// Whether the mark of `a.txt` that is so far has this name, and is read from it.
fn is_spelled(stage: Stage, text: &[u8]) -> bool
    requires { HasNumbers stage }
{
    let Some(name) = FileName::parse(b"a.txt") else {
        return false;
    };
    let Some(read) = Mark::read(1, text) else {
        return false;
    };
    let mark = Mark { stage, name };
    mark.spell(1).as_str().as_bytes() == text && read.spell(1).as_str().as_bytes() == text
}

// The first of the others from which a mark is read.
fn first_read() -> Option<usize> {
    OTHERS.iter().position(|text| Mark::read(1, text).is_some())
}

// Whether the name of `a.txt` is spelled with this number so.
fn is_numbered(number: u64, text: &[u8]) -> bool
    requires { number < 2 ^ 48 }
{
    match FileName::parse(b"a.txt") {
        Some(name) => numbered_name(&name, number).as_str().as_bytes() == text,
        None => false,
    }
}

#[test]
fn names_are_spelled_and_read(rt: HostRuntime) {
    let sending = Stage::Sending {
        start: 0,
        message: 1024,
        size: 12,
        digest: *DIGEST,
    };
    assert!(rt; is_spelled(Stage::Fresh, FRESH));
    assert!(rt; is_spelled(sending, SENDING));
    assert!(rt; is_spelled(Stage::Stopped { start: 0 }, STOPPED));
    assert_eq!(rt; first_read(), None);
    assert!(rt; is_numbered(7, b"a.txt~7"));
}
