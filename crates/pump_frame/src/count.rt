// A count after one more, which stays at its greatest value.
ghost use Rattle.std.specs.Prelude.{◌≡◌};
ghost use Rattle.pump_frame.specs.Counts.{raised};

/// A count after one more. It stays at its greatest value.
pub fn raised(count: u64) -> u64
    ensures { result ≡ raised count }
{
    count.saturating_add(1)
}
