//! Where a message of the first receiver stands in its log.

ghost use Rattle.std.specs.Prelude.{◌≡◌};

/// A message of the first receiver, and the offset in its log at which its record begins.
#[derive(Clone, Copy)]
pub struct LogPlace {
    pub number: u64,
    pub at: u64,
}

impl LogPlace {
    /// The first message: its record begins at 80.
    pub fn first() -> LogPlace
        ensures { (result.number ≡ 0) × (result.at ≡ 80) }
    {
        LogPlace { number: 0, at: 80 }
    }
}
