// One reading of a link.
ghost use Rattle.std.specs.Prelude.{◌≡◌, ◌≤◌, []};
ghost use Rattle.pump_frame.specs.Counts.{Rose};
ghost use Rattle.pump_frame.specs.Readings.{Within, HasBegun};
ghost use Rattle.pump_link.specs.Tells.{Grows};
ghost use Rattle.relay_threads.specs.Heards.{heard_with};
ghost use Rattle.relay_threads.specs.Hearings.{Hears, IsLawfulHeard, held_in};

use pump_frame::{Frame, Reader, Step};
use pump_link::{Link, Looked};

/// The most bytes that one reading takes: those of the longest frame.
const MOST_BYTES: u32 = 1042;

/// What one reading of a link brought. A frame is in the room into which it was read.
#[derive(Clone, Copy)]
pub enum HeardHead {
    /// No whole frame yet. The reader keeps the bytes.
    Nothing,
    /// The next frame.
    Frame,
    /// No lawful frame begins with the bytes.
    Bad,
    /// The other side is gone.
    Ended,
    /// The look at the link failed.
    Failed,
}

/// Reads bytes off a link until one frame, bad bytes, a look that gives no byte, or the most bytes
/// that one reading takes (`docs/design.md`, "Serving"). `Failed` comes only where the link's
/// count of faults rose. Nothing is sent. The frame is read into the room.
pub fn hear<C: Link>(link: &mut C, reader: &mut Reader, room: &mut Frame) -> HeardHead
    requires within { reader.old ≡ Within (held_in reader.old) }
    requires begun { HasBegun reader.old }
    ensures heard { Hears (held_in reader.old) reader.new (C.gives link.old) (C.gives link.new)
        (heard_with room.new result) }
    ensures lawful { IsLawfulHeard (heard_with room.new result) }
    ensures begun { HasBegun reader.new }
    ensures sent { Grows (C.sent link.old) (C.sent link.new) [] }
    ensures later { C.faults link.old ≤ C.faults link.new }
    ensures failed { result ≡ HeardHead.Failed → Rose (C.faults link.old) (C.faults link.new) }
{
    for _count in 0..MOST_BYTES {
        match link.look() {
            Looked::Byte(byte) => match reader.feed_into(byte, room) {
                Step::More => {}
                Step::Whole => return HeardHead::Frame,
                Step::Bad { .. } => return HeardHead::Bad,
            },
            Looked::NotYet => return HeardHead::Nothing,
            Looked::Ended => return HeardHead::Ended,
            Looked::Failed => return HeardHead::Failed,
        }
    }
    HeardHead::Nothing
}
