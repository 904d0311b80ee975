//! Tests of what a replay stands on: the lines of a script, the opening and the moving of disks, and the
//! pump that plays lines. They use the public calls of the crates below alone, and stand here so that a
//! change of a test makes no crate be proved again. What the program itself can show is tried by the
//! transcripts in `tests/`, without a proof.
#![tactic(auto)]

#[cfg(test)]
mod generator_tests;
#[cfg(test)]
mod held;
#[cfg(test)]
mod line_tests;
#[cfg(test)]
mod move_tests;
#[cfg(test)]
mod opening_tests;
#[cfg(test)]
mod playing_tests;
#[cfg(test)]
mod printing_tests;
#[cfg(test)]
mod stop_tests;
