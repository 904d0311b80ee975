//! A session that is served: both workers side by side in two threads, each at the door of its own port, over
//! the two disks of the relay. `serve_session` opens the disks and the doors, lets the workers make so many
//! rounds, shuts the doors and hands the disks back; `SessionEnd` says how that went, and how each worker
//! ended. `read_key` takes the key of the random words off a source. The law
//! `served_records_replay` says that the record of a served session replays. It knows no file, no word of the
//! command line and no status.
#![tactic(auto)]

mod doors;
mod high_half;
mod keys;
mod laws;
mod low_half;
mod session;
mod starting;
mod watched;
mod works;

pub use keys::{KeyFault, read_key};
pub use laws::served_records_replay;
pub use session::{Served, SessionEnd, serve_session};
