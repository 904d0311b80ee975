//! Tests of the crates on which all others stand: frames, links, disks, stores, the receiver, averages,
//! delays and the world. They use the public calls of these crates alone, and stand here so that a
//! change of a test makes no crate be proved again.
#![tactic(auto)]

#[cfg(test)]
mod average_tests;
#[cfg(test)]
mod delay_tests;
#[cfg(test)]
mod disk_tests;
#[cfg(test)]
mod frame_tests;
#[cfg(test)]
mod link_tests;
#[cfg(test)]
mod receiver_tests;
#[cfg(test)]
mod rows;
#[cfg(test)]
mod store_tests;
#[cfg(test)]
mod world_tests;
