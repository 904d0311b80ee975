//! The folders of the machine that files come into and go out of (`FileFolders`, `FileInbox`,
//! `FileOutbox`), what is noted of a folder while a command works in it (`FolderNotes`), and the line on a
//! terminal that tells how far a file is (`ProgressLine`). Each folder counts its failures, and tells nothing
//! of what it holds. It knows no socket, no shelf and no clock of a relay, and no message but the names of
//! the files and how far one is.
#![tactic(auto)]

mod file_folders;
mod file_inbox;
mod file_outbox;
mod folder;
mod folder_notes;
mod progress_line;
mod waiting;

pub use file_folders::FileFolders;
pub use file_inbox::FileInbox;
pub use file_outbox::FileOutbox;
pub use folder_notes::FolderNotes;
pub use progress_line::ProgressLine;
