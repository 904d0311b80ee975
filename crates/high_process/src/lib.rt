//! The high process: it keeps one message in its hand, sends it to the receiver until it is taken, removes it
//! then, publishes the time that took, and takes up the next one from the passage. A `HighProcess` is moved
//! look by look, in one call or in two with what the passage answers in between (`HighAsk`); a `HighLook`
//! says what a look did, and a `HighFault` why none was made. It works over a store of removed messages and
//! the high end of a passage; a `HighHalf` is all three. It knows no link, no clock and no thread.
//! `docs/model.md` tells what its looks are.
#![tactic(auto)]

mod ask;
mod half;
mod how;
mod look;
mod look_waiting;
mod process;
mod task;
mod values;

pub use half::HighHalf;
pub use process::HighProcess;
pub use values::{HighAsk, HighFault, HighLook};
