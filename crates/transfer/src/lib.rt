//! Files from folder to folder over the relay of a session: `transfer` runs the command that the words are,
//! `drop` as the party Low and `collect` as the party High. It looks up the row of the session, has the
//! folder given by its name and a link by its port, lets the party of `file_peers` work, and writes how that
//! ended. It knows no file, no socket and no clock: the caller brings the shelf, the folders and the ports.
#![tactic(auto)]

mod collecting;
mod dropping;
mod errand;
mod transferring;

pub use transferring::transfer;
