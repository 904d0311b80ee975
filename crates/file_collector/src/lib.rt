//! Files that come over a relay as messages, collected in a folder. A [`Collector`] keeps the bytes of
//! the file that has begun in a part, shows the file once it is whole, and counts the messages in a
//! register of its own. Each message is placed, and then counted, so that a crash at any moment leaves
//! the folder as the counted messages make it, or as one more does; what opens such a folder goes on
//! there. The crate knows of the folder what the trait `Inbox` tells, and nothing of links, sessions
//! or the numbers of a relay. The bytes of the register's disk are those of `docs/formats.md`.
#![tactic(auto)]

mod collector;
mod gathering;
mod growing;
mod making;
mod naming;
mod opening;
mod turning;
mod values;

pub use collector::Collector;
pub use values::{CollectFault, Lost, PlaceFault, Placed, Shown};
