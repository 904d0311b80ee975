//! Laws of a relay that serves together with its two parties. It has no code that runs. Of the workers of a
//! served session and High's receiver `receivers_of_a_relay_hold_a_prefix` says that the receiver has a
//! prefix of the accepted messages, each once and in order; `files_are_carried` says the same of whole files,
//! of the party that drops them and the one that collects them. It knows the contracts of these crates alone,
//! and no body.
#![tactic(auto)]

mod laws;

pub use laws::{files_are_carried, receivers_of_a_relay_hold_a_prefix};
