//! Folders between which files go: `Inbox`, into which they come, `Outbox`, out of which they go, and
//! `Folders`, which gives either by its name. Each tells, as a ghost, which files it shows or has removed
//! and what a crash may leave, and counts the calls that fail. `MemInbox` and `MemOutbox` are their forms in
//! memory. A file that is being sent has a name that tells how far it is (`Mark`), and one that has come a
//! name that no other file has (`numbered_name`); `docs/formats.md`, "Files from folder to folder", has
//! both. No machine, session or message is known here.
#![tactic(auto)]

mod by_name;
mod inbox;
pub mod laws;
mod mark;
mod mem_inbox;
mod mem_outbox;
mod outbox;
mod outbox_log;
mod reading;
mod shown_name;
mod spelling;

pub use by_name::{Folders, FoldersFault};
pub use inbox::{Inbox, InboxFault};
pub use mark::{Mark, Stage};
pub use mem_inbox::MemInbox;
pub use mem_outbox::{MemFile, MemOutbox};
pub use outbox::{Found, Outbox, OutboxFault};
pub use outbox_log::{Change, Entry};
pub use shown_name::numbered_name;
