//! Files from folder to folder: the messages that carry a file over a relay, and what a receiver makes of
//! them. `put_start`, `put_end` and `put_abandon` spell the messages around a file's pieces; an `Assembly`
//! takes messages one by one and answers what each is a `Step` of, with the file's `FileName`, its
//! `Progress`, and the `Cause` where one makes no file. The digest of a file is SHA-256. `docs/formats.md`,
//! "Files from folder to folder", has the messages. It knows no folder, no disk and no link.
#![tactic(auto)]

mod assembly;
mod file_name;
pub mod laws;
mod spelling;

pub use assembly::{Assembly, Cause, Progress, Step};
pub use file_name::FileName;
pub use spelling::{put_abandon, put_end, put_start};
