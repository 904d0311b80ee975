// Why the disks of a session are refused.
ghost use Rattle.std.specs.Prelude.{◌≡◌};
ghost use Rattle.recovery.specs.Faults.{why_number, why_values};

/// Why the disks of a session are refused: the first cause in the order of `docs/formats.md`,
/// "Disks".
#[derive(Clone, Copy, PartialEq, Eq, Debug)]
pub enum Why {
    /// A call of a disk failed: the disk's count after that call. This alone says nothing of what
    /// the disk holds.
    Device { faults: u64 },
    /// It is no disk of a relay. It has fewer than 80 bytes, or its first four are another mark:
    /// its size, and these four as a number, 0 where it has fewer.
    NotABuffer { size: u64, bytes: u32 },
    /// It is the disk of another role, version or row. The fields are numbered from 1: role,
    /// version, session, capacity, message, size.
    WrongShape { field: u32, found: u64, wanted: u64 },
    /// Its two numbers are those of no disk of its role.
    BadRegister { first: u64, second: u64 },
    /// More messages are removed than were accepted, or more are live than have a place.
    Mismatch { removed: u64, accepted: u64 },
    /// A live message is longer than the row lets it be.
    BadSlot { number: u64, length: u32 },
    /// The receiver has fewer messages than are removed, or more than were accepted.
    Apart { count: u64, bound: u64 },
    /// The first message that the receiver has otherwise than low's disk.
    Differs { number: u64 },
    /// It is to be formatted, and isn't empty.
    NotEmpty { size: u64 },
    /// It is to take more messages than its row has places for: how many, and that capacity.
    Small { held: u64, capacity: u32 },
    /// It is to take a message that is longer than its row lets it be: its number and its length.
    TooLong { number: u64, length: u32 },
}

impl Why {
    /// Its number in a fault line.
    pub fn number(&self) -> u32
        ensures { result ≡ why_number self.now }
    {
        match self {
            Why::Device { .. } => 1,
            Why::NotABuffer { .. } => 2,
            Why::WrongShape { .. } => 3,
            Why::BadRegister { .. } => 4,
            Why::Mismatch { .. } => 5,
            Why::BadSlot { .. } => 6,
            Why::Apart { .. } => 7,
            Why::Differs { .. } => 8,
            Why::NotEmpty { .. } => 9,
            Why::Small { .. } => 10,
            Why::TooLong { .. } => 11,
        }
    }

    /// Its two values in a fault line. A missing one is 0, and of a wrong shape the field is left
    /// out.
    pub fn values(&self) -> (u64, u64)
        ensures { result ≡ why_values self.now }
    {
        match self {
            Why::Device { faults } => (*faults, 0),
            Why::NotABuffer { size, bytes } => (*size, *bytes as u64),
            Why::WrongShape { found, wanted, .. } => (*found, *wanted),
            Why::BadRegister { first, second } => (*first, *second),
            Why::Mismatch { removed, accepted } => (*removed, *accepted),
            Why::BadSlot { number, length } => (*number, *length as u64),
            Why::Apart { count, bound } => (*count, *bound),
            Why::Differs { number } => (*number, 0),
            Why::NotEmpty { size } => (*size, 0),
            Why::Small { held, capacity } => (*held, *capacity as u64),
            Why::TooLong { number, length } => (*number, *length as u64),
        }
    }
}
