// The lines of a script.
use arrayvec::ArrayVec;
use pump_frame::{Name, Payload, SessionRow};

/// What comes on a session's connection before a look.
#[derive(Drop)]
pub enum Arriving {
    Nothing,
    /// A HELLO frame with these two names.
    Hello { low: Name, high: Name },
    /// A DATA frame; its number is below 2^48.
    Data { number: u64, payload: Payload },
    /// Bytes for the session's reader of frames, at least one.
    Raw(ArrayVec<u8, 1042>),
}

/// What the passage tells in a look of a low side alone.
#[derive(Clone, Copy, PartialEq, Eq, Debug)]
pub enum ToldFeedback {
    /// Nothing: an offer finds the passage full, and a read finds that no time was published.
    Quiet,
    /// An offer finds the passage full.
    Full,
    /// An offer passes, and a read finds this many times and their average, at most 10^9
    /// microseconds.
    Pair { count: u32, average: u32 },
}

/// A line of a script; `docs/formats.md`, "Scripts", says what each does. Moments are in
/// microseconds, at most 2^62.
#[derive(Drop)]
pub enum Line {
    /// An empty line or a comment.
    Skip,
    /// A session begins; the ports of its row are 0.
    Session(SessionRow),
    /// A low side alone begins, whose feedback the script tells; the ports of its row are 0.
    LowSession {
        row: SessionRow,
        /// How many messages are stored, at most 2^48.
        next: u64,
        /// The last one, without bytes, is in the low hand; then `next` is at least 1.
        held: bool,
    },
    /// The session becomes coarse: of each average only its level comes down to Low.
    Coarse {
        session: u32,
    },
    /// What comes is added to what waits, then the low process looks once.
    Look {
        session: u32,
        moment: u64,
        /// The random word from which a delay is made.
        word: u32,
        arrival: Arriving,
    },
    /// As `Look`, of a low side alone.
    Told {
        session: u32,
        moment: u64,
        word: u32,
        /// The next device call of the session's disk fails.
        fault: bool,
        feedback: ToldFeedback,
        arrival: Arriving,
    },
    /// As `Look`, of the second of two pumps in a row, where the sender between them adds what comes.
    Step {
        session: u32,
        moment: u64,
        word: u32,
    },
    /// The connection is lost, what waits with it, and the low process looks once.
    Gone {
        session: u32,
        moment: u64,
    },
    /// The high process looks, and nothing comes back to it.
    High {
        session: u32,
        moment: u64,
    },
    /// The DATA that was sent `back` packets before the last one is carried to the receiver.
    Carry {
        session: u32,
        back: u64,
    },
    /// The high process looks, and the TAKEN that was sent `back` packets before the last one comes
    /// back to it.
    Return {
        session: u32,
        moment: u64,
        back: u64,
    },
    /// The high process looks; where it then holds a message, this is carried to the receiver,
    /// whose answer comes back after `time` microseconds, at most 10^9.
    Done {
        session: u32,
        moment: u64,
        time: u32,
    },
    /// Both processes are opened again from their disks; the connection is a new one.
    Restart {
        session: u32,
        moment: u64,
    },
    /// The receiver is opened again from its disk, and the high process looks, with the receiver's
    /// ATTACH.
    ReceiverRestart {
        session: u32,
        moment: u64,
    },
}
