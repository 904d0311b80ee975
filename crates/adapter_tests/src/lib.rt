//! Tests of the machine's files, streams, sockets and clock, which no proof knows. They use the public calls
//! of `adapters` alone, and stand here so that a change of a test makes no crate be proved again.
#![tactic(auto)]

#[cfg(test)]
mod clock_tests;
#[cfg(test)]
mod disk_tests;
#[cfg(test)]
mod entering;
#[cfg(test)]
mod port_tests;
#[cfg(test)]
mod shelf_tests;
#[cfg(test)]
mod source_tests;
