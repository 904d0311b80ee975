//! The outside of the relay over what the machine has: disks and a shelf over the files of the current
//! folder (`FileDisk`, `FileShelf`), a disk over a file that is open (`FolderDisk`), a source and a sink
//! over a reader and a writer (`StdSource`, `StdSink`), random bytes (`KeySource`), TCP ports, doors and
//! links (`TcpPorts`, `TcpDoor`, `TcpLink`), and the machine's clock (`RealClock`). Each counts its
//! failures, and tells nothing of what it holds or brings. The ports and the clock of one side of a relay
//! come together (`machine_side`, `stepping_side`), and the clock is a `SideClock`, whichever it is. It knows
//! no folder that files come into or go out of.
#![tactic(auto)]

mod counted;
mod file_ahead;
mod file_disk;
mod file_place;
mod file_shelf;
mod folder_disk;
mod interruption;
mod key_source;
mod read_ahead;
mod readiness;
mod real_clock;
mod shown_source;
mod side_clock;
mod sides;
mod standard;
mod tcp_door;
mod tcp_link;
mod tcp_ports;
mod traffic;

pub use counted::Counted;
pub use file_disk::FileDisk;
pub use file_place::Access;
pub use file_shelf::FileShelf;
pub use folder_disk::FolderDisk;
pub use key_source::KeySource;
pub use readiness::is_writable;
pub use real_clock::{RealClock, now};
pub use shown_source::ShownSource;
pub use side_clock::SideClock;
pub use sides::{machine_side, stepping_side};
pub use standard::{StdSink, StdSource};
pub use tcp_door::TcpDoor;
pub use tcp_link::TcpLink;
pub use tcp_ports::TcpPorts;
pub use traffic::Traffic;
