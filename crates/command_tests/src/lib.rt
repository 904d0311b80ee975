//! Tests of replays, records, tables and files for which a disk, a read or a write fails at a chosen call, or
//! which look at a private value: what no clause says, and no transcript in `tests/` can try. They use the
//! public calls of the crates below alone, and stand here so that a change of a test makes no crate be
//! proved again.
#![tactic(auto)]

#[cfg(test)]
mod audit_tests;
#[cfg(test)]
mod chain_tests;
#[cfg(test)]
mod failing_tests;
#[cfg(test)]
mod piece_tests;
#[cfg(test)]
mod replay_tests;
#[cfg(test)]
mod stage;
#[cfg(test)]
mod table_tests;
#[cfg(test)]
mod wrap_tests;
