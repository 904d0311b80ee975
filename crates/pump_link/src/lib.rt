//! The outside of the relay as traits: streams of bytes (`Source`, `Sink`), links, doors and ports (`Link`,
//! `Door`, `Ports`), clocks (`Clock`) and random words (`Words`), each with a form in memory, such as
//! `MemLink` or `StepClock`. Each trait says what an object tells of itself: what it will give, what it took,
//! and how often it failed. What can fail counts its failures, so that a caller can show that a fault was not
//! its own. It knows no process and no machine; `adapters` has the forms over the machine.
#![tactic(auto)]

mod clock;
mod door;
mod link;
mod list_words;
mod mem_door;
mod mem_link;
mod mem_ports;
mod memory;
mod ports;
mod step_clock;
mod stream;
mod words;

pub use clock::Clock;
pub use door::{Accepted, Door};
pub use link::{Link, Looked, SendFault};
pub use list_words::ListWords;
pub use mem_door::MemDoor;
pub use mem_link::MemLink;
pub use mem_ports::MemPorts;
pub use memory::{MemSink, MemSource};
pub use ports::{Ports, PortsFault};
pub use step_clock::StepClock;
pub use stream::{ReadFault, Sink, Source, WriteFault, write_all};
pub use words::Words;
