//! The commands that run on one thread. `format`, `show`, `migrate`, `wrap` and `unwrap` work over the disks
//! of a session of a table, which are taken off a shelf and put back, however they end; `messages` and
//! `status` read the files of such disks beside a relay, and write none; `audit` and `compare` read records.
//! Each is one function with the end that it comes to (`CommandEnd`). It knows no thread and no link, and of the
//! words only a table's name. `docs/formats.md` has the lines that they print.
#![tactic(auto)]

mod audit;
mod disk_pair;
mod format;
mod messages;
mod migrate;
mod read_disk;
mod show;
mod status;
mod unwrap;
mod wrap;

pub use audit::{audit_script, compare_script};
pub use disk_pair::{DiskPair, put_pair_back, take_pair};
pub use format::{format_session, untaken};
pub use messages::print_messages;
pub use migrate::migrate_session;
pub use show::{end_at, show_session};
pub use status::tell_status;
pub use unwrap::unwrap_session;
pub use wrap::wrap_session;
