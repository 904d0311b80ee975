// The wait for a frame, look by look.
ghost use Rattle.std.specs.Prelude.{◌≡◌, ◌+◌, ◌<◌, ◌≤◌, List, [], length};
ghost use Rattle.pump_link.specs.Tells.{Draws, Grows};
ghost use Rattle.pump_link.specs.declared.link.Looked.{Looked};
ghost use Rattle.peers.specs.Replies.{WaitsTo, IsFewer};

use pump_frame::{Frame, Reader, Step};
use pump_link::{Link, Looked as LinkLooked};

/// What a wait for one frame came to.
#[derive(Clone, Copy)]
pub enum Waited {
    /// The last look ended a frame.
    Frame(Frame),
    /// The link showed bad bytes, has ended, or failed.
    Over,
    /// No look is left.
    Used,
}

/// Looks until a frame is whole, as long as looks are left; each look made is taken off `left`, and nothing
/// is sent. Before the first look the link stands between two frames. `Used` comes only where no look is
/// left.
pub fn await_frame<C: Link>(link: &mut C, left: &mut u32) -> Waited
    ensures wait { (looks : List Looked) × Draws (C.gives link.old) (C.gives link.new) looks
        × (left.old ≡ left.new + length looks)
        × WaitsTo looks left.new (C.faults link.old) (C.faults link.new) result }
    ensures sent { Grows (C.sent link.old) (C.sent link.new) [] }
    ensures later { C.faults link.old ≤ C.faults link.new }
    ensures fewer { IsFewer result left.new left.old }
{
    let mut reader = Reader::new();
    let mut room = Frame::room();
    while *left > 0 {
        *left -= 1;
        match link.look() {
            LinkLooked::Byte(byte) => match reader.feed_into(byte, &mut room) {
                Step::More => continue,
                Step::Whole => return Waited::Frame(room),
                Step::Bad { .. } => return Waited::Over,
            },
            LinkLooked::NotYet => continue,
            LinkLooked::Ended => return Waited::Over,
            LinkLooked::Failed => return Waited::Over,
        }
    }
    Waited::Used
}
