// Reading the name of a marked file. Each function here finds what a lawful name has; what it finds in
// another one is not told, since the reader of a mark spells what was found and compares.
ghost use Rattle.std.specs.Prelude.{◌≡◌, ℕ, ◌^◌, ◌<◌, ◌++◌, ◌∷◌, [], List, Some, length, decimal};
ghost use Rattle.std.specs.List.{position};
ghost use Rattle.hex.specs.Hex.{IsBytes, encode_lower};
ghost use Rattle.folders.specs.Marks.{IsMark, HasNumbers, HasDigest, dashed, stage_fields, hidden_name};
ghost use Rattle.folders.specs.declared.mark.Mark.{Mark};
ghost use Rattle.folders.specs.declared.mark.Stage.{Stage};
ghost use Rattle.folders.specs.declared.mark.Stage.TheVariants.{Sending};
ghost use Rattle.folders.specs.Finding.{is_dash, IsFree, IsFound};

use crate::mark::{Mark, Stage};
use file_messages::FileName;
use std::str;

fn first_dash(text: &[u8]) -> Option<usize>
    ensures { result ≡ position is_dash text.now }
{
    text.iter().position(|byte| *byte == b'-')
}

// What stands before the first dash, and what stands behind it.
fn split(text: &[u8]) -> Option<(&[u8], &[u8])>
    ensures { (prefix back : List ℕ) → IsFree prefix → text.now ≡ prefix ++ 45 ∷ back
        → IsFound result (λ parts. (parts.0.now ≡ prefix) × (parts.1.now ≡ back)) }
{
    let at = first_dash(text)?;
    Some((&text[..at], &text[at + 1..]))
}

fn number_of(digits: &[u8]) -> Option<u64>
    ensures { (n : ℕ) → n < 2 ^ 64 → digits.now ≡ decimal n → result ≡ Some n }
{
    match str::from_utf8(digits) {
        Ok(text) => text.parse::<u64>().ok(),
        Err(_) => None,
    }
}

fn digest_of(digits: &[u8]) -> Option<[u8; 32]>
    ensures { (digest : List ℕ) → length digest ≡ 32 → IsBytes digest → digits.now ≡ encode_lower digest
        → result ≡ Some digest }
{
    let mut digest = [0; 32];
    hex::decode_to_slice(digits, &mut digest).ok()?;
    Some(digest)
}

// The number before the first dash, and what stands behind that.
fn number(text: &[u8]) -> Option<(u64, &[u8])>
    ensures { (n : ℕ) (back : List ℕ) → n < 2 ^ 64 → text.now ≡ decimal n ++ 45 ∷ back
        → IsFound result (λ read. (read.0 ≡ n) × (read.1.now ≡ back)) }
{
    let (digits, back) = split(text)?;
    Some((number_of(digits)?, back))
}

// How far a file is that is being sent, and what stands behind that.
fn sending(text: &[u8]) -> Option<(Stage, &[u8])>
    ensures { (start message size : ℕ) (digest back : List ℕ) → HasNumbers (Sending start message size digest)
        → HasDigest (Sending start message size digest)
        → text.now ≡ dashed (decimal start ∷ decimal message ∷ decimal size ∷ encode_lower digest ∷ []) back
        → IsFound result (λ read. (read.0 ≡ Sending start message size digest) × (read.1.now ≡ back)) }
{
    let (start, text) = number(text)?;
    let (message, text) = number(text)?;
    let (size, text) = number(text)?;
    let (digits, back) = split(text)?;
    if message > 1024 {
        return None;
    }
    let stage = Stage::Sending {
        start,
        message: message as u32,
        size,
        digest: digest_of(digits)?,
    };
    Some((stage, back))
}

// How far a file is, and what stands behind that.
fn stage(text: &[u8]) -> Option<(Stage, &[u8])>
    ensures { (stage : Stage) (back : List ℕ) → HasNumbers stage → HasDigest stage
        → text.now ≡ dashed (stage_fields stage) back
        → IsFound result (λ read. (read.0 ≡ stage) × (read.1.now ≡ back)) }
{
    match text {
        [b'f', b'-', back @ ..] => Some((Stage::Fresh, back)),
        [b's', b'-', rest @ ..] => sending(rest),
        [b'a', b'-', rest @ ..] => {
            let (start, back) = number(rest)?;
            Some((Stage::Stopped { start }, back))
        }
        _ => None,
    }
}

/// The mark that has this name in some session, if one has.
pub(crate) fn guess(text: &[u8]) -> Option<Mark>
    ensures { (session : ℕ) (mark : Mark) → session < 2 ^ 64 → IsMark mark → text.now ≡ hidden_name session mark
        → result ≡ Some mark }
{
    let (_, text) = split(text)?;
    let (_, text) = split(text)?;
    let (stage, name) = stage(text)?;
    Some(Mark {
        stage,
        name: FileName::parse(name)?,
    })
}
