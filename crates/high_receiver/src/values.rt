/// What a receiver did with a message.
#[derive(Clone, Copy, Debug, PartialEq, Eq)]
pub enum Taken {
    /// It is stored.
    Took,
    /// It was stored before.
    Repeat,
}

/// Why a receiver did not take a message.
#[derive(Clone, Copy, Debug, PartialEq, Eq)]
pub enum TakeFault {
    /// A call of the disk failed: its count after that call.
    Device { faults: u64 },
    /// A message before this one is missing.
    Ahead { number: u64, count: u64 },
    /// The message would end past the size of the disk.
    LogFull { end: u64, length: u32, size: u64 },
}
