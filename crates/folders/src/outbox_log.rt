// What happened to an outbox in memory.

use crate::mark::Mark;
use file_messages::FileName;

/// What a call changes.
#[derive(Clone, Copy)]
pub enum Change {
    /// A file of this name is taken.
    Take(FileName),
    /// The marked file gets this mark.
    Mark(Mark),
    /// The marked file is removed.
    Remove,
}

/// What happened.
#[derive(Drop)]
pub enum Entry {
    /// A change was made, and is durable.
    Done(Change),
    /// The call of a change failed.
    Missed(Change),
    /// The marked file was opened, and gave these bytes.
    Opened(Vec<u8>),
    /// A crash left what was there, and made those changes whose calls had failed, or not.
    Crashed(bool),
}
