//! The low process: it takes the low party's messages, stores them, passes them on, and acknowledges each
//! after a random delay. A `LowProcess` is moved look by look. Each look is offered an `Arrival`, asks the
//! passage at most one thing (`Ask`, `Answer`), and comes to a `LowLook`, or to a `LookHead`, which has no
//! room for a frame. It works over a store of messages and the low end of a passage; a `LowHalf` is all
//! three. It knows no link, no clock and no thread. `docs/model.md`, "Low's history", tells what its replies
//! are.
#![tactic(auto)]

mod frames;
mod half;
mod how;
mod look;
mod look_waiting;
mod process;
mod store;
mod values;

pub use half::LowHalf;
pub use process::LowProcess;
pub use values::{Answer, Arrival, Ask, AskHead, LookHead, LowLook};
