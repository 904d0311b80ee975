//! Tests of the delays of acknowledgements: the table, the delay of a word, and the words of a stream.

use delay_table::{StreamWords, TABLE, delay};
use pump_link::Words;

#[test]
fn the_table_begins_with_sums_of_parts(rt: HostRuntime) {
    assert_eq!(rt; [TABLE[0], TABLE[1], TABLE[2]], [65536, 131329, 197381]);
}

#[test]
fn delays_are_those_of_their_classes(rt: HostRuntime) {
    for (word, micros) in [
        (0, 78),
        (0x0100_0000, 156),
        (0xFFFF_FFFF, 100_000),
        (0x3C6E_F35F, 5431),
    ] {
        assert_eq!(rt; delay(20000, word, 100_000), micros);
    }
}

const KEY: [u8; 32] = [
    0, 1, 2, 3, 4, 5, 6, 7, 8, 9, 10, 11, 12, 13, 14, 15, 16, 17, 18, 19, 20, 21, 22, 23, 24, 25,
    26, 27, 28, 29, 30, 31,
];

fn first<W: Words>(words: &mut W) -> [u32; 4] {
    [words.word(), words.word(), words.word(), words.word()]
}

// From OpenSSL's ChaCha20, with the stream in the nonce.
#[test]
fn streams_have_their_first_words(rt: HostRuntime) {
    for (session, words) in [
        (0, [0x7d2b_fd39, 0x6a19_c5d9, 0x7703_bd8d, 0x494a_dcb8]),
        (1, [0x02f1_a42f, 0x898e_8050, 0xe531_52a2, 0xe06e_df0f]),
    ] {
        assert_eq!(rt; first(&mut StreamWords::new(KEY, session)), words);
    }
}
