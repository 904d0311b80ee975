//! The passage between two threads as a ring of slots. `RingPassage` makes it for a row; `RingLow` and
//! `RingHigh` are its two ends, which wait for nobody and take no memory. Each end stores one word that the
//! other one loads: how many messages were forwarded, and how many were taken up; one more word tells how
//! often High published, and the average. A message is written into its slot and read out of it in place. The
//! rule of the ring, which ties the views of both ends, stands in `specs/`. It knows messages, and no process
//! and no disk.
#![tactic(auto)]

mod ends;
mod pairs;
mod ring;
mod ring_passage;
mod slots;

pub use ends::{RingHigh, RingLow};
pub use ring_passage::RingPassage;
