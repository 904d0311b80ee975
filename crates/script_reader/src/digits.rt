// Hexadecimal digits, by a table: a branch on whether a digit is a letter is often foretold wrongly, and
// costs more than all else that is done with it.
ghost use Rattle.std.specs.Prelude.{◌≡◌, ℕ, length, Some, None, if◌then◌else◌};
ghost use Rattle.hex.specs.Hex.{decode_sized};
ghost use Rattle.script_reader.specs.Parsing.{bytes_from};
ghost use Rattle.script_reader.specs.DigitValues.{digit_value, Pairs};

/// The value of each hexadecimal digit, and 255 for any other byte.
pub(crate) const VALUES: [u8; 256] = [
    255, 255, 255, 255, 255, 255, 255, 255, 255, 255, 255, 255, 255, 255, 255, 255, 255, 255, 255,
    255, 255, 255, 255, 255, 255, 255, 255, 255, 255, 255, 255, 255, 255, 255, 255, 255, 255, 255,
    255, 255, 255, 255, 255, 255, 255, 255, 255, 255, 0, 1, 2, 3, 4, 5, 6, 7, 8, 9, 255, 255, 255,
    255, 255, 255, 255, 10, 11, 12, 13, 14, 15, 255, 255, 255, 255, 255, 255, 255, 255, 255, 255,
    255, 255, 255, 255, 255, 255, 255, 255, 255, 255, 255, 255, 255, 255, 255, 255, 10, 11, 12, 13,
    14, 15, 255, 255, 255, 255, 255, 255, 255, 255, 255, 255, 255, 255, 255, 255, 255, 255, 255,
    255, 255, 255, 255, 255, 255, 255, 255, 255, 255, 255, 255, 255, 255, 255, 255, 255, 255, 255,
    255, 255, 255, 255, 255, 255, 255, 255, 255, 255, 255, 255, 255, 255, 255, 255, 255, 255, 255,
    255, 255, 255, 255, 255, 255, 255, 255, 255, 255, 255, 255, 255, 255, 255, 255, 255, 255, 255,
    255, 255, 255, 255, 255, 255, 255, 255, 255, 255, 255, 255, 255, 255, 255, 255, 255, 255, 255,
    255, 255, 255, 255, 255, 255, 255, 255, 255, 255, 255, 255, 255, 255, 255, 255, 255, 255, 255,
    255, 255, 255, 255, 255, 255, 255, 255, 255, 255, 255, 255, 255, 255, 255, 255, 255, 255, 255,
    255, 255, 255, 255, 255, 255, 255, 255, 255, 255, 255, 255, 255, 255, 255, 255, 255, 255, 255,
    255, 255, 255,
];

fn digit(c: u8) -> u8
    ensures { result ≡ digit_value c }
{
    VALUES[c as usize]
}

/// The byte of two digits.
fn pair(high: u8, low: u8) -> Option<u8>
    ensures { (i : ℕ) → Pairs high low i result }
{
    let first = digit(high);
    let second = digit(low);
    if first > 15 {
        return None;
    }
    if second > 15 {
        return None;
    }
    Some(first * 16 + second)
}

/// Whether these are digits, two for each byte of the room, which then holds the bytes.
pub(crate) fn decode(digits: &[u8], room: &mut [u8]) -> bool
    ensures read { (if result then Some room.new else None) ≡ bytes_from (decode_sized digits.now (length room.old)) }
{
    if digits.len() % 2 != 0 || digits.len() / 2 != room.len() {
        return false;
    }
    'bytes: for i in 0..room.len() {
        let Some(byte) = pair(digits[2 * i], digits[2 * i + 1]) else {
            return false;
        };
        room[i] = byte;
    }
    true
}
