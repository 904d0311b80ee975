/// What the low process reads of High's times in one pass.
#[derive(Clone, Copy, PartialEq, Eq, Debug)]
pub struct Seen {
    /// How many times were published since the opening.
    pub count: u32,
    /// Their moving average in microseconds, at most 10^9.
    pub average: u32,
}

/// All that comes down from High to one look of the low process.
#[derive(Clone, Copy, PartialEq, Eq, Debug)]
pub enum Feedback {
    /// The look asked nothing of the passage.
    Quiet,
    /// The passage was full, and the message stays in the hand.
    Full,
    /// The message was passed, and its acknowledgement is owed.
    Passed(Seen),
    /// The message was passed, and nobody waits for its acknowledgement.
    Released,
    /// The frame's message is stored already, and is acknowledged once more.
    Repeat(Seen),
}
