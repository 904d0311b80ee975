//! A race: the two workers of a session side by side in two threads, over disks in memory and a ring between
//! them, with the messages of a generated script in place of a link. `race_with` runs one and prints the
//! record of its low side; `RaceEnd` says how it ended. The laws say that such a record replays, and that
//! what the two works did and the joined ends decide it. It knows no socket and no file: its disks and its
//! clocks are made for it.
#![tactic(auto)]

mod high;
mod high_work;
mod laws;
mod low;
mod low_work;
mod messages;
mod new_disks;
mod racing;
mod running;
mod tape;

pub use laws::{race_records_replay, works_and_ends_decide};
pub use racing::{RaceEnd, race_with};
