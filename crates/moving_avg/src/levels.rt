// The levels of an average.
ghost use Rattle.std.specs.Prelude.{◌≡◌, ◌*◌, ◌^◌, ◌≤◌, ◌==◌, max};
ghost use Rattle.pump_frame.specs.Averages.{level, down};

use pump_frame::Averaging;

/// The greatest level, which is the greatest average.
const GREATEST_LEVEL: u32 = 1_000_000_000;

/// The least of 1, 2, 4 and so on to 2^29, and 10^9, that is not below this average: one of 31
/// levels; 10^9 for what is above. It is at most twice the average, or 1.
pub fn level(average: u32) -> u32
    ensures value { result ≡ level average }
    ensures above { average ≤ 10 ^ 9 → average ≤ result }
    ensures near { result ≤ max 1 (2 * average) }
    ensures bound { result ≤ 10 ^ 9 }
{
    if average > 1 << 29 {
        return GREATEST_LEVEL;
    }
    (average as u64).next_power_of_two() as u32
}

/// Whether this average is a level.
pub fn is_level(average: u32) -> bool
    ensures { result ≡ (level average == average) }
{
    level(average) == average
}

/// What comes down to Low of a mean: in a coarse session its level, else the mean itself.
pub fn down(averaging: &Averaging, mean: u32) -> u32
    ensures value { result ≡ down averaging.now mean }
    ensures bound { mean ≤ 10 ^ 9 → result ≤ 10 ^ 9 }
{
    if averaging.coarse { level(mean) } else { mean }
}
