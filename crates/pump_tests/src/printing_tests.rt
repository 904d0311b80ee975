//! Lines that are printed as they are read.

use arrayvec::ArrayVec;
use script_reader::{print_line, read_line};

// Whether the first text is a line that is printed as the second one and a line end.
fn prints(text: &[u8], spelling: &[u8]) -> bool {
    let Some(line) = read_line(text) else {
        return false;
    };
    let mut room = ArrayVec::new();
    print_line(&line, &mut room);
    let Some((end, spelled)) = room.as_slice().split_last() else {
        return false;
    };
    *end == b'\n' && spelled == spelling
}

#[test]
fn lines_are_printed_as_they_are_spelled(rt: HostRuntime) {
    for text in [
        b"session 1 8 64 4 20000 100000 500000 weather watch".as_slice(),
        b"low-session 4294967295 3 8 2 20000 100000 500000 weather watch 281474976710656 1",
        b"coarse 1",
        b"look 1 0 00000000 hello weather watch",
        b"look 1 1000 3c6ef35f data 0 -",
        b"look 1 1000 3c6ef35f data 281474976710655 00ff",
        b"look 1 4611686018427387904 ffffffff raw 4e51",
        b"look 1 101000 3c6ef35f",
        b"told 1 5 0000000a fine -",
        b"told 1 5 0000000a fault full hello weather watch",
        b"told 1 5 0000000a fine 4294967295/1000000000 data 7 6162",
        b"gone 1 20",
        b"high 1 30",
        b"carry 4294967295 18446744073709551615",
        b"return 1 40 3",
        b"done 1 50 1000000000",
        b"restart 1 60",
        b"receiver-restart 1 70",
        b"step 4294967295 4611686018427387904 0000000a",
    ] {
        assert!(rt; prints(text, text));
    }
}

#[test]
fn a_line_has_one_spelling(rt: HostRuntime) {
    assert!(rt; prints(b"", b""));
    assert!(rt; prints(b"# a comment", b""));
    assert!(rt;
        prints(
            b"look 1 1000 3C6EF35F data 0 0AfF",
            b"look 1 1000 3c6ef35f data 0 0aff"
        )
    );
    assert!(rt;
        prints(
            b"told 1 5 ABCDEFAB fine - raw 4E",
            b"told 1 5 abcdefab fine - raw 4e"
        )
    );
}
