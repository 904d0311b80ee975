//! One side of a relay: its ports and its clock, as a worker and a party are handed them (`RelaySide`). Its
//! specs say what a side tells of a call: what was done at its ports, how often that failed, and which
//! moments its clock gave. It has no code beyond that, and knows no socket: `adapters` makes the sides of the
//! machine.
#![tactic(auto)]

mod side;

pub use side::RelaySide;
