//! Files over the pump: a file as a list of messages (`Cutter`), and the file again from the messages that a
//! receiver has (`gather`, `Gathered`). `wrap` sends a file over a session's pump until its receiver has all
//! of it; `skip_received` finds that the file begins with the messages that a receiver has, and goes on
//! behind them. `WrapEnd`, `GatherFault` and `CompareFault` say what went wrong. The messages are those of
//! `docs/formats.md`, "Files as messages". It knows no table, no shelf and no terminal.
#![tactic(auto)]

mod compare;
mod cutter;
mod drain;
mod file_sender;
mod gathered;
mod gathering;
pub mod laws;
mod length;
mod lines;
mod room;
mod sending;

pub use compare::{CompareFault, skip_received};
pub use cutter::Cutter;
pub use file_cutter::Cut;
pub use file_sender::{WrapEnd, Wrapped, wrap};
pub use gathered::{GatherFault, Gathered, gather};
