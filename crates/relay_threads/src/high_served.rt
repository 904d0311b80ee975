/// Why a high worker ended a connection.
#[derive(Clone, Copy, PartialEq, Eq, Debug)]
pub enum HighWhy {
    /// The other side is gone.
    Gone,
    /// No lawful frame begins with the bytes that came.
    Bad,
    /// The first frame was no ATTACH.
    NotAttach,
    /// A look at the link failed, or a send.
    LinkFailed,
    /// A removal failed, and the process is down: the disk's count of faults after it.
    Device { faults: u64 },
    /// A message was taken that was not sent: its number, and that of the next one to be sent.
    Ahead { number: u64, expected: u64 },
    /// A receiver attached that has fewer messages than were removed.
    Behind { count: u64, removed: u64 },
    /// The given number of rounds was made.
    Looks,
    /// The gate stopped the worker.
    Stopped,
}

/// What a high worker made of one connection.
#[derive(Clone, Copy, PartialEq, Eq, Debug)]
pub struct HighServed {
    pub why: HighWhy,
    /// How many rounds were made.
    pub looks: u64,
}
