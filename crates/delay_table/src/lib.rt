//! The random delay of an acknowledgement: exponential, with a given mean, from a random word. `delay` takes
//! an average, a word and the longest delay, in microseconds, and scales a quantile of the exponential
//! distribution off `TABLE`, which has one entry for each value of the word's first byte. `StreamWords` are
//! random words from a ChaCha20 stream of a key. The laws `entry_is_quantile`, `table_rises`, `table_sum` and
//! `delays_sum` say what the table holds and what mean the delays have. It knows no session, no clock and no
//! disk; `docs/model.md`, "Rows, frames and delays", has the rule.
#![tactic(auto)]

mod delays;
mod stream;
mod table;

pub use delays::{delay, delays_sum};
pub use stream::StreamWords;
pub use table::{TABLE, entry_is_quantile, table_rises, table_sum};
