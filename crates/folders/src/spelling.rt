// The fields of the name of a marked file, each with a dash behind it.
ghost use Rattle.std.specs.Prelude.{◌≡◌, ℕ, ◌+◌, ◌^◌, ◌<◌, ◌≤◌, ◌∷◌, ◌++◌, List, length, decimal};
ghost use Rattle.arrayvec.specs.ArrayString.{array_string_len};
ghost use Rattle.hex.specs.Hex.{encode_lower};
ghost use Rattle.folders.specs.Marks.{HasNumbers, dashed, stage_fields};

use crate::mark::Stage;
use arrayvec::ArrayString;
use std::str;

pub(crate) fn put_field(into: &mut ArrayString<247>, field: &str)
    requires { array_string_len into.old + length field.now + 1 ≤ 247 }
    ensures items { (rest : List ℕ) → into.new.bytes ++ rest ≡ into.old.bytes ++ field.now ++ 45 ∷ rest }
    ensures len { array_string_len into.new ≡ array_string_len into.old + length field.now + 1 }
{
    into.push_str(field);
    into.push_str("-");
}

/// A number of at most so many digits.
pub(crate) fn put_number<const DIGITS: usize>(into: &mut ArrayString<247>, number: u64)
    requires some { 1 ≤ DIGITS }
    requires below { number < 10 ^ DIGITS }
    requires room { array_string_len into.old + DIGITS + 1 ≤ 247 }
    ensures items { (rest : List ℕ) → into.new.bytes ++ rest ≡ into.old.bytes ++ decimal number ++ 45 ∷ rest }
    ensures len { array_string_len into.new ≤ array_string_len into.old + DIGITS + 1 }
{
    let mut digits = itoa::Buffer::new();
    put_field(into, digits.format(number));
}

fn put_digest(into: &mut ArrayString<247>, digest: &[u8; 32])
    requires { array_string_len into.old + 65 ≤ 247 }
    ensures items { (rest : List ℕ) → into.new.bytes ++ rest
        ≡ into.old.bytes ++ encode_lower digest.now ++ 45 ∷ rest }
    ensures len { array_string_len into.new ≡ array_string_len into.old + 65 }
{
    let mut digits = [0; 64];
    hex::encode_to_slice(digest.as_slice(), &mut digits).unwrap();
    match str::from_utf8(&digits) {
        Ok(text) => put_field(into, text),
        Err(_) => unreachable!("digits are ASCII"),
    }
}

/// How far a file is.
pub(crate) fn put_stage(into: &mut ArrayString<247>, stage: &Stage)
    requires numbers { HasNumbers stage.now }
    requires room { array_string_len into.old ≤ 15 }
    ensures items { (rest : List ℕ) → into.new.bytes ++ rest
        ≡ into.old.bytes ++ dashed (stage_fields stage.now) rest }
    ensures len { array_string_len into.new ≤ array_string_len into.old + 104 }
{
    match stage {
        Stage::Fresh => put_field(into, "f"),
        Stage::Sending {
            start,
            message,
            size,
            digest,
        } => {
            put_field(into, "s");
            put_number::<15>(into, *start);
            put_number::<4>(into, u64::from(*message));
            put_number::<15>(into, *size);
            put_digest(into, digest);
        }
        Stage::Stopped { start } => {
            put_field(into, "a");
            put_number::<15>(into, *start);
        }
    }
}
