// Why a command stops.
use disk_model::Role;

/// Why a command stops, as its last line of output says; `docs/formats.md`, "Statuses and fault lines".
#[derive(Clone, Copy, PartialEq, Eq, Debug)]
pub enum Fault {
    /// The words are no command.
    Words,
    /// A read failed.
    Read,
    /// The script's line with this number, counted from 1, is outside the grammar or can't be
    /// applied.
    Script {
        line: u32,
    },
    /// A device call of a disk of this session failed.
    Device {
        session: u32,
        role: Role,
    },
    /// A disk of this session was refused when it was opened: the refusal's number, and its two
    /// values in their order, 0 where it has none.
    Disk {
        session: u32,
        role: Role,
        number: u32,
        first: u64,
        second: u64,
    },
    /// A message of `length` bytes does not fit behind `end` on the receiver's disk of this session,
    /// which has `size` bytes.
    Full {
        session: u32,
        end: u64,
        length: u32,
        size: u64,
    },
}
