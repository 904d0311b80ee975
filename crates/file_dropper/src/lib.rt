//! Files out of a folder, as messages for a relay, over one connection. A `Dropper` settles what was left
//! of the connection before, gives the next message, and takes its acknowledgement: a file is marked
//! before its first message is given, and removed once its end is acknowledged. A file that changes
//! while it is sent is given up and sent again. Whatever a crash leaves of the folder, the messages that
//! were accepted give just the files that were removed, or one more, the marked one: `Fits` of
//! `specs/Leaving.antt`. Nothing is known here of frames, of the link, nor of what is printed.
#![tactic(auto)]

mod answers;
mod dropper;
pub mod laws;
mod marked;
mod reading;
mod sending;
mod settling;
mod skipping;
mod work;

pub use answers::{DropFault, Next, Settled};
pub use dropper::Dropper;
pub use work::Sent;
