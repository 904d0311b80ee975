//! Two pumps in a row: what the receiver of the first one took is sent on to the second one. A `Chain` has
//! both pumps on one thread, over the six disks of two sessions (`Six`), and the place in the first
//! receiver's log from which the next message is sent on. `NotChained` and `ChainWhy` say why two sessions
//! cannot be joined. The laws say that a chain's lines are a script of two sessions, and that all four lists
//! of messages are prefixes. It knows no shelf and no script's bytes: `chain_replay` reads the lines.
#![tactic(auto)]

mod chain;
mod laws;
mod not_chained;
mod place;
mod sender;
mod six;
mod whose;

pub use chain::Chain;
pub use laws::{
    chains_are_scripts, four_lists_are_prefixes, second_pump_is_no_matter, sessions_are_their_own,
};
pub use not_chained::{ChainWhy, NotChained};
pub use six::Six;
