//! Checks a finished record of the low side, and compares two. `audit` reads a record line by line, and
//! answers a `Verdict`: it is clean, or the first line that is wrong and why (`AuditFault`). `compare` reads
//! two records with a line between them and answers how far their low sides agree (`Compared`, `What`). The
//! laws say what a clean record means: its numbers, its replies, and that a verdict is the only one. It knows
//! the grammar of scripts, and no process, no pump and no disk.
#![tactic(auto)]

mod auditing;
mod checking;
mod claims;
mod compared;
mod comparing;
mod differing;
mod entry;
mod form;
mod items;
mod laws;
mod life;
mod meeting;
mod notes;
mod reading;
mod side;
mod siding;
mod state;
mod texts;
mod verdict;

pub use checking::audit;
pub use compared::{Compared, What};
pub use comparing::compare;
pub use laws::{
    clean_records_keep_their_numbers, clean_records_tell_all_replies, comparisons_are_one,
    pairs_are_one, records_are_their_sides, records_that_agree_reply_alike, verdicts_are_one,
};
pub use verdict::{AuditFault, Verdict};
