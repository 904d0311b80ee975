//! From words to a command: `batch` runs the command that the words are over a shelf, a script and an output,
//! `live` one with threads or over links and doors, and each hands on what that command promises. `serve`,
//! `receive`, `send` and `append` over a session of a table stand here too: they look up its row, take its
//! disks off the shelf, let the workers or the party work, and write how that ended. The answer is the
//! program's status. They know no file, no socket and no clock of their own: the caller brings all of that.
#![tactic(auto)]

mod append;
mod batch_commands;
mod live_commands;
mod receive;
mod send;
mod serve;

pub use batch_commands::batch;
pub use live_commands::live;
