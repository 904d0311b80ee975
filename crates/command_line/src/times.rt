// A list of times as a word.
ghost use Rattle.std.specs.Prelude.{◌≡◌, ℕ, ◌≤◌, ◌^◌, List, decimal, IfSome, Some, IsSomeAnd, IsTrue, ◌↔◌};
ghost use Rattle.command_line.specs.TimeLists.{AreTimes, times_word};

use crate::values::number;
use arrayvec::ArrayVec;

/// The greatest time, in microseconds.
const GREATEST_TIME: u32 = 1_000_000_000;

/// A time in its one spelling.
fn time_in(text: &str) -> Option<u32>
    ensures some { IfSome result (λ time. (time ≤ 10 ^ 9) × (text.now ≡ decimal time)) }
    ensures read { (time : ℕ) → time ≤ 10 ^ 9 → text.now ≡ decimal time → result ≡ Some time }
{
    let time = number(text, 0, GREATEST_TIME)?;
    let mut digits = itoa::Buffer::new();
    if digits.format(time) != text {
        return None;
    }
    Some(time)
}

/// The list of times that the word is, if it is one.
pub(crate) fn times_in(word: &str) -> Option<ArrayVec<u32, 16>>
    ensures some { IfSome result (λ times. AreTimes times.items × (word.now ≡ times_word times.items)) }
    ensures read { (times : List ℕ) → AreTimes times → word.now ≡ times_word times
        → IsSomeAnd result (λ read. read.items ≡ times) }
{
    let mut times = ArrayVec::new();
    let mut rest = word;
    'commas: while let Some((first, more)) = rest.split_once(',') {
        times.try_push(time_in(first)?).ok()?;
        rest = more;
    }
    times.try_push(time_in(rest)?).ok()?;
    Some(times)
}

/// Is the word this list of times?
pub(crate) fn are_times(word: &str, times: &[u32]) -> bool
    requires { AreTimes times.now }
    ensures { IsTrue result ↔ (word.now ≡ times_word times.now) }
{
    match times_in(word) {
        Some(read) => read.as_slice() == times,
        None => false,
    }
}
