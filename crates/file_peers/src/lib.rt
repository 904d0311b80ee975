//! The parties at a relay's ports that carry files from folder to folder, each on one connection. `drop_with`
//! is Low's: it sends the files of its folder, one after another, and removes each once its end is
//! acknowledged. `collect_with` is High's: it takes the messages and shows the files that come in its folder.
//! `DropEnd` and `CollectEnd` say how they ended. They print a line for each file. They take no memory and
//! wait for nobody, and know no folder of the machine, no thread and no command.
#![tactic(auto)]

mod collect;
mod drop;
mod lines;
mod resting;

pub use collect::{CollectEnd, collect_with};
pub use drop::{DropEnd, drop_with};
