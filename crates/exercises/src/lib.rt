//! A large script that is made from a number, run over disks in memory, and the line that sums up what it
//! printed. `exercise` makes the lines one by one, applies each to a pump, and keeps five sums of what comes
//! out, so that it takes as much memory for any number of messages. It knows no table, no shelf and no file.
#![tactic(auto)]

mod exercising;

pub use exercising::exercise;
