// A rest of Low's party, while no file waits.
ghost use Rattle.std.specs.Prelude.{◌≡◌, ◌+◌, ◌≤◌, List, [], length};
ghost use Rattle.pump_frame.specs.declared.frame.Frame.{Frame};
ghost use Rattle.pump_link.specs.Tells.{Draws, Grows};
ghost use Rattle.pump_link.specs.declared.link.Looked.{Looked};
ghost use Rattle.file_peers.specs.Delivering.{RestsTo};

use pump_frame::{Frame, Reader, Step};
use pump_link::{Link, Looked as LinkLooked};

// How many looks at the link a rest is.
const LOOKS: u32 = 500;

/// What a rest came to.
#[derive(Clone, Copy)]
pub enum Rest {
    /// Its looks were made.
    Done,
    /// The link showed bad bytes, has ended, or failed.
    Over,
    /// No look is left.
    Used,
}

/// Looks at the link for a while, and passes over each frame that comes; each look made is taken off `left`.
/// Where a frame has begun by then it goes on until that is whole, so that the link stands between two
/// frames again.
pub fn take_rest<C: Link>(link: &mut C, left: &mut u32) -> Rest
    ensures rests { (looks : List Looked) × (passed : List Frame)
        × RestsTo looks passed left.new (C.faults link.old) (C.faults link.new) result
        × (left.old ≡ left.new + length looks)
        × Draws (C.gives link.old) (C.gives link.new) looks }
    ensures sent { Grows (C.sent link.old) (C.sent link.new) [] }
    ensures later { C.faults link.old ≤ C.faults link.new }
{
    let mut reader = Reader::new();
    let mut room = Frame::room();
    let mut some = LOOKS;
    let mut begun = false;
    'looks: loop {
        if *left == 0 {
            return Rest::Used;
        }
        if some == 0 && !begun {
            return Rest::Done;
        }
        *left -= 1;
        some = some.saturating_sub(1);
        match link.look() {
            LinkLooked::Byte(byte) => match reader.feed_into(byte, &mut room) {
                Step::More => begun = true,
                Step::Whole => begun = false,
                Step::Bad { .. } => return Rest::Over,
            },
            LinkLooked::NotYet => {}
            LinkLooked::Ended => return Rest::Over,
            LinkLooked::Failed => return Rest::Over,
        }
    }
}
