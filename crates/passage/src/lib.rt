//! The passage between the two processes, the bounded buffer of the relay: what its two ends promise
//! (`LowEnd`, `HighEnd`, and for ends that may wait `WaitLowEnd`, `WaitHighEnd`), both ends on one thread
//! (`PlainEnds`), and an end for each of two threads over a queue (`QueuePassage`, `QueueLow`, `QueueHigh`).
//! `Calm` turns an end that waits for nobody into one that may. The low end forwards messages and reads the
//! average; the high end takes messages up and publishes times. It knows no process and no disk; `relay_ring`
//! has a second form between threads.
#![tactic(auto)]

mod ends;
mod high_cell;
mod high_steps;
mod low_cell;
mod low_steps;
mod meetings;
mod plain;
mod queue;
mod queue_ends;
mod queue_passage;
mod waiting;

pub use ends::{Forwarded, HighEnd, HighSide, LowEnd, LowSide, Next};
pub use plain::PlainEnds;
pub use queue_ends::{QueueHigh, QueueLow};
pub use queue_passage::{Joined, QueuePassage};
pub use waiting::{Calm, WaitHighEnd, WaitLowEnd};
