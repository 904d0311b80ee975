/// Why a look was refused.
#[derive(Clone, Copy, PartialEq, Eq, Debug)]
pub enum HighFault {
    /// A call of the high disk failed: its count after that call. The process is down.
    Device { faults: u64 },
    /// A message was taken that was not sent: its number, and that of the next one to be sent.
    Ahead { number: u64, expected: u64 },
    /// A receiver attached that has fewer messages than were removed.
    Behind { count: u64, removed: u64 },
}

/// What a look did.
#[derive(Clone, Copy, PartialEq, Eq, Debug)]
pub struct HighLook {
    /// The number of the message that was removed.
    pub removed: Option<u64>,
    /// The time that was published, in microseconds, at most 10^9.
    pub published: Option<u32>,
    /// The number of the message that was sent. It is in the hand.
    pub sent: Option<u64>,
}

/// What a look wants of the passage.
#[derive(Clone, Copy)]
pub struct HighAsk {
    /// A time to publish, in microseconds, at most 10^9.
    pub publish: Option<u32>,
    /// Whether the next message is wanted.
    pub wants: bool,
    /// How many messages are removed.
    pub removed: u64,
}

/// What a frame asks of a look.
#[derive(Clone, Copy)]
pub enum Task {
    Refuse(HighFault),
    /// The message in the hand is removed.
    Remove,
    Keep,
}

/// When the message in the hand was first and last sent.
#[derive(Clone, Copy)]
pub struct Sent {
    pub first: u64,
    pub last: u64,
}

/// A look that is begun.
#[derive(Clone, Copy)]
pub struct Asking {
    pub removed: Option<u64>,
    pub published: Option<u32>,
    /// A receiver attached in this look.
    pub attaches: bool,
    pub wants: bool,
}
