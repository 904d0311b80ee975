//! What a line printed, and why it stopped a session.

use arrayvec::ArrayVec;
use disk_model::Role;
use recovery::Why;
use script_reader::Event;

/// Why a line stopped a session.
#[derive(Clone, Copy, PartialEq, Eq, Debug)]
pub enum Stop {
    /// The line can't be applied, and nothing was done.
    Line,
    /// A call of this disk failed: its count of failed calls after that.
    Device { role: Role, faults: u64 },
    /// A message of `length` bytes does not fit on the receiver's disk of `size` bytes, whose records
    /// end at `end`. The receiver is as before.
    Full { end: u64, length: u32, size: u64 },
    /// What this disk holds is refused where it is opened again. The pump is shut.
    Disk { role: Role, why: Why },
}

/// What a line printed, at most four lines, and whether it stopped the session.
#[derive(Drop)]
pub struct Applied {
    pub events: ArrayVec<Event, 4>,
    pub stop: Option<Stop>,
}
