// What a low worker made of one connection.

/// Why a low worker left a connection.
#[derive(Clone, Copy, PartialEq, Eq, Debug)]
pub enum LowWhy {
    /// The other side is gone.
    Gone,
    /// It sent bytes that are no frame.
    Bad,
    /// A look at the link or a send failed, and its count of faults rose.
    LinkFailed,
    /// The low disk failed, and its count of faults rose to this. The process is down.
    Device { faults: u64 },
    /// The record could not be written, and the tape's count of faults rose.
    RecordFailed,
    /// So many rounds were made as there may be.
    Looks,
    /// The gate stopped the worker, and its count of stops rose.
    Stopped,
}

/// Why a low worker left a connection, and how many rounds it made on it.
#[derive(Clone, Copy, PartialEq, Eq, Debug)]
pub struct LowServed {
    pub why: LowWhy,
    pub looks: u64,
}
