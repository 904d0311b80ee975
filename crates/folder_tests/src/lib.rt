//! Tests of files from folder to folder: their messages and names, and what droppers and collectors do
//! over folders in memory, also where calls fail and at crashes. They use the public calls of their crates
//! alone, and stand here so that a change of a test makes no crate be proved again.
#![tactic(auto)]

#[cfg(test)]
mod collecting_tests;
#[cfg(test)]
mod dropping_tests;
#[cfg(test)]
mod message_tests;
#[cfg(test)]
mod name_tests;
