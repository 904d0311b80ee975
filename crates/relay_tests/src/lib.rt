//! Tests of the passages, of the workers that serve and race, and of the parties at the ports. They use the
//! public calls of the crates below alone, and stand here so that a change of a test makes no crate be proved
//! again. What the looks of the two processes do is told by transcripts.
#![tactic(auto)]

#[cfg(test)]
mod high_bench;
#[cfg(test)]
mod high_worker_tests;
#[cfg(test)]
mod low_bench;
#[cfg(test)]
mod low_worker_tests;
#[cfg(test)]
mod passage_tests;
#[cfg(test)]
mod peer_tests;
#[cfg(test)]
mod pieces;
#[cfg(test)]
mod race_tests;
#[cfg(test)]
mod worker_tests;
