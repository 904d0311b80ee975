//! The lines that a generator makes from a number.

use arrayvec::ArrayVec;
use script_reader::{Generator, print_line};

// Whether the generator gives just these lines.
fn gives(generator: &mut Generator, lines: &[&[u8]]) -> bool {
    let mut room = ArrayVec::new();
    for expected in lines {
        let Some(line) = generator.next_line() else {
            return false;
        };
        print_line(&line, &mut room);
        let Some((_, spelled)) = room.as_slice().split_last() else {
            return false;
        };
        if spelled != *expected {
            return false;
        }
    }
    generator.next_line().is_none()
}

// The words are the first and the third draw from the seed.
#[test]
fn two_messages_are_made(rt: HostRuntime) {
    let lines = [
        b"session 1 8 64 4 20000 100000 500000 weather watch".as_slice(),
        b"look 1 0 00000000 hello weather watch",
        b"look 1 1000 3c6ef35f data 0 000102030405",
        b"look 1 1000 3c6ef35f",
        b"look 1 101000 3c6ef35f",
        b"look 1 102000 d1ccf6e9 data 1 \
        0102030405060708090a0b0c0d0e0f101112131415161718191a1b1c1d1e1f202122232425262728",
        b"look 1 102000 d1ccf6e9",
        b"look 1 202000 d1ccf6e9",
    ];
    assert!(rt; gives(&mut Generator::new(0, 2), lines.as_slice()));
}

// With the seventh message the receiver takes one before the acknowledgement, and six after it.
#[test]
fn eight_messages_are_made(rt: HostRuntime) {
    let lines = [
        b"session 1 8 64 4 20000 100000 500000 weather watch".as_slice(),
        b"look 1 0 00000000 hello weather watch",
        b"look 1 1000 3d20bdba data 0 000102030405060708090a0b0c0d0e0f101112131415161718191a1b1c1d1e1f202122232425",
        b"look 1 1000 3d20bdba",
        b"look 1 101000 3d20bdba",
        b"look 1 102000 9ccc40fc data 1 \
        0102030405060708090a0b0c0d0e0f101112131415161718191a1b1c1d1e1f202122232425262728292a",
        b"look 1 102000 9ccc40fc",
        b"look 1 202000 9ccc40fc",
        b"look 1 203000 0ca19f8e data 2 02030405060708090a0b0c0d0e0f10111213141516171819",
        b"look 1 203000 0ca19f8e",
        b"look 1 303000 0ca19f8e",
        b"look 1 304000 5c6985f0 data 3 030405060708090a0b0c0d0e0f",
        b"look 1 304000 5c6985f0",
        b"look 1 404000 5c6985f0",
        b"look 1 405000 119bd4a2 data 4 \
        0405060708090a0b0c0d0e0f101112131415161718191a1b1c1d1e1f202122232425262728292a2b2c2d2e2f30313233343536373839\
        3a3b",
        b"look 1 405000 119bd4a2",
        b"look 1 505000 119bd4a2",
        b"look 1 506000 f909c024 data 5 05060708090a",
        b"look 1 506000 f909c024",
        b"look 1 606000 f909c024",
        b"look 1 607000 73acf0f6 data 6 060708090a0b0c0d0e0f",
        b"look 1 607000 73acf0f6",
        b"done 1 607000 2478",
        b"look 1 609478 73acf0f6",
        b"look 1 709478 73acf0f6",
        b"done 1 709478 3184",
        b"done 1 712662 3194",
        b"done 1 715856 1712",
        b"done 1 717568 1941",
        b"done 1 719509 3490",
        b"done 1 722999 1484",
        b"look 1 725483 7b440f25 data 7 0708090a0b0c0d0e0f101112131415161718191a1b1c1d",
        b"look 1 725483 7b440f25",
        b"look 1 825483 7b440f25",
    ];
    assert!(rt; gives(&mut Generator::new(7, 8), lines.as_slice()));
}
