//! Tests of `live`, which runs the commands with threads and over links, over what stands in memory: what
//! no clause says of their lines. They use the public calls of the crates below alone, and stand here so that
//! a change of a test makes no crate be proved again. The other commands are tried in `tests/`.
#![tactic(auto)]

#[cfg(test)]
mod race_tests;
#[cfg(test)]
mod runs;
#[cfg(test)]
mod session_tests;
