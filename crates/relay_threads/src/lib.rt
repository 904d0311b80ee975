//! The two workers of a session, side by side in two threads, and the record of what the low one did.
//! `serve_low` and `serve_high` work on one connection, `low_rounds` and `high_rounds` at a door, round by
//! round (`docs/design.md`, "Serving"). `run_pair` and `try_run_pair` let two works run side by side; a
//! `Gate` may stop a worker between two rounds, and a `Watch` is told what it does. `append_look` and its
//! like spell the record's lines. The laws say that a record replays to the replies that Low got. It knows
//! links, doors and clocks as traits, and no file, no table and no status.
#![tactic(auto)]

mod gate;
mod hear;
mod high_law;
mod high_round;
mod high_serve;
mod high_served;
mod high_stays;
mod high_worker;
mod law;
mod low_round;
mod low_serve;
mod low_served;
mod low_stays;
mod low_worker;
mod pair;
mod record;
mod rounds_end;
mod tape;
mod watch;

pub use gate::{Gate, Open};
pub use high_law::sends_what_came;
pub use high_serve::serve_high;
pub use high_served::{HighServed, HighWhy};
pub use high_stays::high_rounds;
pub use law::{records_are_lives, records_are_scripts, records_replay, stays_are_replayable};
pub use low_serve::serve_low;
pub use low_served::{LowServed, LowWhy};
pub use low_stays::low_rounds;
pub use pair::{Work, run_pair, try_run_pair};
pub use record::{LookMade, append_coarse, append_look, append_opening, is_recorded};
pub use rounds_end::RoundsEnd;
pub use tape::write_opening;
pub use watch::{Unwatched, Watch};
