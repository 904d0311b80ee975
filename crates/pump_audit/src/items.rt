// What a comparison sees of a look.
ghost use Rattle.std.specs.Prelude.{◌≡◌, IfOk};
ghost use Rattle.pump_frame.specs.Frames.{IsLawful};
ghost use Rattle.pump_frame.specs.Spellings.{spelling};
ghost use Rattle.pump_audit.specs.Comparing.{offered_bytes, uncounted, item_of};
ghost use Rattle.pump_audit.specs.Entries.{IsPlain};
ghost use Rattle.pump_audit.specs.Siding.{tells};

use crate::entry::{LookLine, Offer};
use crate::side::Item;
use arrayvec::ArrayVec;
use pump_frame::{Frame, OutOfMemory, encode};
use script_reader::ToldFeedback;
use std::alloc::Global;

/// What a look is told, without the count.
pub(crate) fn uncounted(told: &ToldFeedback) -> ToldFeedback
    ensures { result ≡ uncounted told.now }
{
    match told {
        ToldFeedback::Pair { average, .. } => ToldFeedback::Pair {
            count: 0,
            average: *average,
        },
        ToldFeedback::Quiet => ToldFeedback::Quiet,
        ToldFeedback::Full => ToldFeedback::Full,
    }
}

// The frame's bytes.
fn spelled(alloc: Global, frame: &Frame) -> Result<Vec<u8>, OutOfMemory>
    requires { IsLawful frame.now }
    ensures { IfOk result (λ bytes. bytes.items ≡ spelling frame.now) }
{
    let mut room = ArrayVec::new();
    encode(frame, &mut room);
    Ok(Vec::from_slice(alloc, room.as_slice())?)
}

// What the look was offered, as bytes.
fn offered(alloc: Global, line: &LookLine) -> Result<Vec<u8>, OutOfMemory>
    requires { IsPlain line.now }
    ensures { IfOk result (λ bytes. bytes.items ≡ offered_bytes line.now.coming) }
{
    match line.coming.offer() {
        Offer::Nothing => Ok(Vec::new(alloc)),
        Offer::Frame(frame) => spelled(alloc, frame),
        Offer::Bad => Ok(Vec::from_slice(alloc, [0].as_slice())?),
        Offer::Gone => Ok(Vec::from_slice(alloc, [1].as_slice())?),
    }
}

/// The look as it is kept of a first record.
pub(crate) fn item(alloc: Global, line: &LookLine) -> Result<Item, OutOfMemory>
    requires { IsPlain line.now }
    ensures { IfOk result (λ x. tells x ≡ item_of line.now) }
{
    Ok(Item {
        moment: line.moment,
        word: line.word,
        offered: offered(alloc, line)?,
        is_fault: line.is_fault,
        told: uncounted(&line.told),
    })
}
