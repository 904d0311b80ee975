// The delay of an acknowledgement, and the mean of all delays.
ghost use Rattle.std.specs.Prelude.{◌≡◌, ℕ, ◌+◌, ◌*◌, ◌^◌, ◌≤◌, List, map, sum};
ghost use Rattle.pump_frame.specs.Delays.{delay_of, quantile, class_of};
ghost use Rattle.delay_table.specs.Delays.{IsOfEachClass, AreUncut};

use crate::table::TABLE;

/// A class has 2^24 words, and the table's entries are for a mean of 2^24.
const UNIT: u32 = 1 << 24;

// The quantile of a word's class.
fn quantile_at(word: u32) -> u32
    ensures { result ≡ quantile (class_of word) }
{
    TABLE[(word / UNIT) as usize]
}

/// The delay of an acknowledgement in microseconds: the average, at most 10^9, times the quantile
/// of the word's class, cut at `longest`, at most 10^9.
pub fn delay(average: u32, word: u32, longest: u32) -> u32
    requires average { average ≤ 10 ^ 9 }
    requires longest { longest ≤ 10 ^ 9 }
    ensures delay { result ≡ delay_of average word longest }
    ensures cut { result ≤ longest }
{
    let uncut = average as u64 * quantile_at(word) as u64 / UNIT as u64;
    (longest as u64).min(uncut) as u32
}

/// The mean of the uncut delays over the classes of words is the average, but for what was
/// rounded down: at most 1/512 of it in the table, and less than one in each delay.
pub fn delays_sum(average: u32)
    requires { average ≤ 10 ^ 9 }
    ensures most { (words : List ℕ) (longest : ℕ) → IsOfEachClass words → AreUncut average longest words
        → sum (map (λ word. delay_of average word longest) words) ≤ 256 * average }
    ensures least { (words : List ℕ) (longest : ℕ) → IsOfEachClass words → AreUncut average longest words
        → 512 * 256 * average ≤ 512 * sum (map (λ word. delay_of average word longest) words) + average + 512 * 256 }
{}
