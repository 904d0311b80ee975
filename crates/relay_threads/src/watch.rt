// Who is told of what happens at the doors of a relay.

use crate::high_served::HighWhy;
use crate::low_served::LowWhy;
use crate::rounds_end::RoundsEnd;

/// Is told what happens at the doors of a relay, at once and by the worker of that door, in its own thread.
/// Nothing that the relay does depends on it: it takes nothing back.
pub trait Watch {
    /// The low worker begins its rounds, and its door is open.
    fn low_began(&self);

    /// A message waits in Low's hand, since the buffer is full. Told at each look that finds it so.
    fn low_full(&self);

    /// A message passed into the buffer.
    fn low_passed(&self);

    /// A link came at the low door.
    fn low_came(&self);

    /// The low worker left the link, for this reason.
    fn low_left(&self, why: LowWhy);

    /// The low worker has ended, and its door is shut.
    fn low_ended(&self, end: RoundsEnd);

    /// The high worker begins its rounds, and its door is open.
    fn high_began(&self);

    /// A link came at the high door.
    fn high_came(&self);

    /// The high worker left the link, for this reason.
    fn high_left(&self, why: HighWhy);

    /// The high worker has ended, and its door is shut.
    fn high_ended(&self, end: RoundsEnd);
}

/// Tells nobody.
pub struct Unwatched;

impl Watch for Unwatched {
    fn low_began(&self) {}

    fn low_full(&self) {}

    fn low_passed(&self) {}

    fn low_came(&self) {}

    fn low_left(&self, _why: LowWhy) {}

    fn low_ended(&self, _end: RoundsEnd) {}

    fn high_began(&self) {}

    fn high_came(&self) {}

    fn high_left(&self, _why: HighWhy) {}

    fn high_ended(&self, _end: RoundsEnd) {}
}
