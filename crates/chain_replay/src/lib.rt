//! The replay of a script over two pumps in a row: it reads the script line by line, joins the two sessions
//! that it begins in one `Chain` of `pump_chain`, writes the transcript, and answers how it ended
//! (`replay_chain`). The six disks come off a shelf and are back on it at the end, however that comes.
//! `docs/formats.md`, "Two pumps in a row", has the script and its faults. It knows no file of the machine
//! and no word of a command line.
#![tactic(auto)]

mod applying;
mod disks;
mod printing;
mod replaying;
mod rows;
mod running;
mod unbegun;

pub use replaying::replay_chain;
