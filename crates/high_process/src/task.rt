// What a frame asks of a look.
ghost use Rattle.std.specs.Prelude.{◌≡◌};
ghost use Rattle.high_process.specs.Tasks.{task_taken, task_in};

use crate::values::{HighFault, Task};
use pump_frame::{Frame, Kind};

// A receiver has the message of this number.
fn taken(number: u64, removed: u64, expected: u64) -> Task
    ensures { result ≡ task_taken number removed expected }
{
    if number < removed {
        Task::Keep
    } else if number >= expected {
        Task::Refuse(HighFault::Ahead { number, expected })
    } else {
        Task::Remove
    }
}

// What a frame of the session asks, where so many are removed and the next one to be sent after
// what is in the hand has the number `expected`.
pub fn task_for(frame: &Frame, removed: u64, expected: u64) -> Task
    ensures { result ≡ task_in frame.now.kind frame.now.number removed expected }
{
    match frame.kind {
        Kind::Taken => taken(frame.number, removed, expected),
        Kind::Attach => {
            if frame.number < removed {
                Task::Refuse(HighFault::Behind {
                    count: frame.number,
                    removed,
                })
            } else if frame.number == 0 {
                Task::Keep
            } else {
                taken(frame.number - 1, removed, expected)
            }
        }
        _ => Task::Keep,
    }
}
