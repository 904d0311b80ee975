//! High's receiver: the messages that it has taken, in order, on a disk that outlives a crash at any moment.
//! A `Receiver` takes the next message once and answers one that it has (`Taken`), or says why it did not
//! (`TakeFault`). A `LogReader` reads the messages of such a disk one after another. The bytes are those of
//! `docs/formats.md`, "Disks". It knows no frame, no link and no relay.
#![tactic(auto)]

mod log_reader;
mod reading;
mod receiver;
mod values;

pub use log_reader::LogReader;
pub use receiver::Receiver;
pub use values::{TakeFault, Taken};
